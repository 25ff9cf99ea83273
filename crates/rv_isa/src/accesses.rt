//! The accesses of a step, in the order of their slots.

ghost use Rattle.std.specs.Prelude.{[], ◌≡◌, ◌+◌, ◌++◌, ◌<◌, ◌≤◌};
ghost use Rattle.arrayvec.specs.ArrayVec.{array_vec_len};
ghost use Rattle.rv_rules.specs.Expected as isa;

use crate::abi::{A0, A1, A2, A7};
use arrayvec::ArrayVec;
use rv_base::cells::{A1_SLOT, A2_SLOT, MEMORY_SLOT, REGISTER_CELLS, RS1_SLOT, RS2_SLOT};
use rv_base::{Seen, Touch};

/// At most one access a slot.
#[derive(Debug, Drop)]
pub(crate) struct Touches {
    pub list: ArrayVec<Touch, 8>,
}

impl Touches {
    /// The accesses of a step that has made none.
    pub fn new() -> Touches
        ensures items { result.list.items ≡ [] }
        ensures length { array_vec_len result.list ≡ 0 }
    {
        Touches {
            list: ArrayVec::new(),
        }
    }

    /// An access in a slot, which leaves a new value in its cell.
    #[inline(always)]
    pub fn touch(&mut self, slot: u8, cell: u32, new: u32)
        requires { array_vec_len self.old.list < 8 }
        ensures items { self.new.list.items ≡ self.old.list.items ++ isa.touch slot cell new }
        ensures length { array_vec_len self.new.list ≡ array_vec_len self.old.list + 1 }
    {
        self.list.push(Touch { slot, cell, new });
    }

    /// An access of a register, unless it is x0.
    #[inline(always)]
    pub fn on_register(&mut self, slot: u8, register: u8, new: u32)
        requires { array_vec_len self.old.list < 8 }
        ensures items { self.new.list.items ≡ self.old.list.items ++ isa.on_register slot register new }
        ensures length { array_vec_len self.new.list ≤ array_vec_len self.old.list + 1 }
    {
        if register != 0 {
            self.touch(slot, REGISTER_CELLS + u32::from(register), new);
        }
    }

    /// rs1 is read.
    #[inline(always)]
    pub fn read_one(&mut self, seen: &Seen, rs1: u8)
        requires { array_vec_len self.old.list < 8 }
        ensures items { self.new.list.items ≡ self.old.list.items ++ isa.reads_one rs1 seen.now }
        ensures length { array_vec_len self.new.list ≤ array_vec_len self.old.list + 1 }
    {
        self.on_register(RS1_SLOT, rs1, seen.s2);
    }

    /// rs1 is read, and then rs2.
    #[inline(always)]
    pub fn read_two(&mut self, seen: &Seen, rs1: u8, rs2: u8)
        requires { array_vec_len self.old.list < 7 }
        ensures items { self.new.list.items ≡ self.old.list.items ++ isa.reads_two rs1 rs2 seen.now }
        ensures length { array_vec_len self.new.list ≤ array_vec_len self.old.list + 2 }
    {
        self.on_register(RS1_SLOT, rs1, seen.s2);
        self.on_register(RS2_SLOT, rs2, seen.s3);
    }

    /// The number of a call and its three arguments are read.
    #[inline(always)]
    pub fn read_arguments(&mut self, seen: &Seen)
        requires { array_vec_len self.old.list ≤ 1 }
        ensures items { self.new.list.items ≡ self.old.list.items ++ isa.argument_touches seen.now }
        ensures room { array_vec_len self.new.list ≤ 5 }
    {
        self.read_two(seen, A7, A0);
        self.on_register(A1_SLOT, A1, seen.s4);
        self.on_register(A2_SLOT, A2, seen.s5);
    }

    /// The word of a call's buffer, where the call moves bytes.
    #[inline(always)]
    pub fn on_buffer(&mut self, buffer: u32, count: u32, new: u32)
        requires { array_vec_len self.old.list ≤ 5 }
        ensures items { self.new.list.items ≡ self.old.list.items ++ isa.on_buffer buffer count new }
        ensures room { array_vec_len self.new.list ≤ 6 }
    {
        if count != 0 {
            self.touch(MEMORY_SLOT, buffer / 4, new);
        }
    }
}

/// The value of a register slot, where x0 is 0.
pub(crate) fn operand(register: u8, value: u32) -> u32
    ensures { result ≡ isa.operand register value }
{
    if register == 0 { 0 } else { value }
}
