//! Cells, slots and times: the numbers under which memory checking knows what a step uses.

/// The number of words of memory, and of the cell that stands for x0 if it had one: register r is the cell of this number and r.
pub const REGISTER_CELLS: u32 = 1 << 30;

/// The cell of the reservation of LR.W, behind those of the registers.
pub const RESERVATION_CELL: u32 = REGISTER_CELLS + 32;

/// What x2 holds before the first step, the top of the stack.
pub const STACK_TOP: u32 = 0x7FFF_F000;

/// The times from one step to the next, of which slot j of the step has the one at j.
pub const TIMES_PER_STEP: u64 = 16;

/// The slot of the fetched word.
pub const FETCH_SLOT: u8 = 1;

/// The slot of the first register that is read: rs1, or x17 in a call of the environment.
pub const RS1_SLOT: u8 = 2;

/// The slot of the second register that is read: rs2, or x10 in a call.
pub const RS2_SLOT: u8 = 3;

/// The slot of x11, the second argument of a call.
pub const A1_SLOT: u8 = 4;

/// The slot of x12, the third argument of a call.
pub const A2_SLOT: u8 = 5;

/// The slot of the word of memory that is loaded or stored.
pub const MEMORY_SLOT: u8 = 6;

/// The slot of the register that is written.
pub const RD_SLOT: u8 = 7;

/// The slot of the reservation.
pub const RESERVATION_SLOT: u8 = 8;

/// The most accesses of a row: one in each slot.
pub const SLOTS: usize = 8;
