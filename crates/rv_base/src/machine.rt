//! How a run ends, and the calls of the environment.

/// The kind of an end by the calls exit and exit_group.
pub const EXIT: u8 = 0;

/// The kind of an end at a word that is no instruction.
pub const ILLEGAL_WORD: u8 = 1;

/// The kind of an end at EBREAK.
pub const BREAKPOINT: u8 = 2;

/// The kind of an end at a jump or taken branch to an address that is no multiple of 4.
pub const MISALIGNED_JUMP: u8 = 3;

/// The kind of an end at a load, or LR.W, from an address that is no multiple of its width.
pub const MISALIGNED_LOAD: u8 = 4;

/// The kind of an end at a store, SC.W or atomic operation at an address that is no multiple of its width.
pub const MISALIGNED_STORE: u8 = 5;

/// The number of Linux's call `read`, in x17.
pub const READ: u32 = 63;

/// The number of Linux's call `write`.
pub const WRITE: u32 = 64;

/// The number of Linux's call `exit`.
pub const EXIT_CALL: u32 = 93;

/// The number of Linux's call `exit_group`.
pub const EXIT_GROUP: u32 = 94;

/// What a call returns for a descriptor that it doesn't serve: Linux's EBADF, as -9 modulo 2^32.
pub const BAD_DESCRIPTOR: u32 = 0xFFFF_FFF7;

/// What a call of any other number returns: Linux's ENOSYS, as -38 modulo 2^32.
pub const NO_SUCH_CALL: u32 = 0xFFFF_FFDA;
