//! A step in the making.

ghost use Rattle.std.specs.Prelude.{[], ◌%◌, ◌^◌, ◌+◌, ◌++◌, ◌<◌, ◌≤◌, ◌≡◌, ℕ, length};
ghost use Rattle.arrayvec.specs.ArrayVec.{array_vec_len};
ghost use Rattle.rv_rules.specs.Expected as isa;
ghost use Rattle.rv_spec.specs.Words.{plus};
ghost use Rattle.rv_isa.specs.Represented.{AppendsExpected};

use crate::accesses::{Touches, operand};
use rv_base::cells::RD_SLOT;
use rv_base::machine::MISALIGNED_JUMP;
use rv_base::{End, Seen};

/// The instruction at `pc` with the old values in its slots, the input, and the bytes of it that were
/// read before.
#[derive(Clone, Copy, Debug)]
pub(crate) struct Step<'s, 'i> {
    pub pc: u32,
    pub seen: &'s Seen,
    pub input: &'i [u8],
    pub at: u64,
}

/// The next instruction, the end if the step ends the run, the bytes of input that it takes, and
/// the bytes that it puts: the first `put` bytes of `word`, whose others are 0.
#[derive(Clone, Copy, Debug)]
pub(crate) struct Outcome {
    pub next: u32,
    pub end: Option<End>,
    pub took: u32,
    pub put: u32,
    pub word: u32,
}

impl Outcome {
    /// The run goes on at an address, and the step takes and puts no bytes.
    pub fn goes_to(next: u32) -> Outcome
        ensures { result ≡ record { next = next; end = None; took = 0; put = 0; word = 0 } }
    {
        Outcome {
            next,
            end: None,
            took: 0,
            put: 0,
            word: 0,
        }
    }
}

impl Step<'_, '_> {
    /// The address of the instruction after this one.
    pub fn pc_plus_4(&self) -> u32
        ensures { result ≡ isa.pc_plus_4 self.now.pc }
    {
        self.pc.wrapping_add(4)
    }

    /// The step goes on to the instruction after this one.
    pub fn goes_on(&self) -> Outcome
        ensures { result ≡ record { next = isa.pc_plus_4 self.now.pc; end = None; took = 0; put = 0; word = 0 } }
    {
        Outcome::goes_to(self.pc_plus_4())
    }

    /// A step that ends the run stays where it is.
    pub fn ends(&self, kind: u8, code: u32) -> Outcome
        ensures { result ≡ record { next = self.now.pc; end = Some (record { kind = kind; code = code }); took = 0; put = 0; word = 0 } }
    {
        Outcome {
            end: Some(End { kind, code }),
            ..Outcome::goes_to(self.pc)
        }
    }

    /// A step that leaves a value in rd and goes on.
    pub fn sets(&self, touches: &mut Touches, rd: u8, value: u32) -> Outcome
        requires { array_vec_len touches.old.list < 8 }
        ensures { AppendsExpected (isa.goes_to (isa.pc_plus_4 self.now.pc) (isa.on_register RD_SLOT rd value)) touches.old.list.items touches.new.list.items result }
    {
        touches.on_register(RD_SLOT, rd, value);
        self.goes_on()
    }

    /// A jump writes only where its target is aligned.
    pub fn jumps(&self, touches: &mut Touches, target: u32, rd: u8) -> Outcome
        requires { array_vec_len touches.old.list < 8 }
        ensures { AppendsExpected (isa.jumps self.now.pc target [] (isa.on_register RD_SLOT rd (isa.pc_plus_4 self.now.pc))) touches.old.list.items touches.new.list.items result }
    {
        if target % 4 != 0 {
            return self.ends(MISALIGNED_JUMP, 0);
        }
        let link = self.pc_plus_4();
        touches.on_register(RD_SLOT, rd, link);
        Outcome::goes_to(target)
    }

    /// The address at a signed distance in bytes from a register that slot 2 reads.
    pub fn address(&self, rs1: u8, distance: i32) -> u32
        ensures { result ≡ plus (isa.operand rs1 self.now.seen.now.s2) distance }
    {
        offset(operand(rs1, self.seen.s2), distance)
    }
}

/// The address at a signed distance, modulo 2^32.
pub(crate) fn offset(from: u32, distance: i32) -> u32
    ensures { result ≡ plus from distance }
{
    from.wrapping_add(distance.cast_unsigned())
}
