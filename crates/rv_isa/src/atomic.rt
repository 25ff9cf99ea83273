//! The expected step of each instruction of extension A.

ghost use Rattle.std.specs.Prelude.{◌≡◌, ◌%◌, ◌+◌, ◌++◌, ◌<◌, ◌≤◌, ◌==◌};
ghost use Rattle.arrayvec.specs.ArrayVec.{array_vec_len};
ghost use Rattle.rv_rules.specs.Expected as isa;
ghost use Rattle.rv_isa.specs.Represented.{AppendsExpected, conditional_writes};

use crate::accesses::{Touches, operand};
use crate::step::{Outcome, Step};
use rv_alu::amo_result;
use rv_base::cells::{MEMORY_SLOT, RD_SLOT, RESERVATION_CELL, RESERVATION_SLOT};
use rv_base::machine::{MISALIGNED_LOAD, MISALIGNED_STORE};
use rv_base::{Atomic, AtomicOp};

/// The expected step of an atomic instruction.
#[tactic(auto, unfolding(rv_rules::specs::Expected::expected_atomic), using(crate::proofs::Made::made))]
#[inline(always)]
pub(crate) fn atomic(step: &Step<'_, '_>, touches: &mut Touches, atomic: Atomic) -> Outcome
    requires { array_vec_len touches.old.list ≤ 1 }
    ensures { AppendsExpected (isa.expected_atomic step.now.pc atomic step.now.seen.now) touches.old.list.items touches.new.list.items result }
{
    let address = operand(atomic.rs1, step.seen.s2);
    let value = operand(atomic.rs2, step.seen.s3);
    touches.read_two(step.seen, atomic.rs1, atomic.rs2);
    if address % 4 != 0 {
        return step.ends(misaligned_kind(atomic.op), 0);
    }
    let next = step.goes_on();
    write(step, touches, atomic, address, value);
    next
}

/// The kind of an end at a misaligned address.
fn misaligned_kind(op: AtomicOp) -> u8
    ensures { result ≡ isa.misaligned_kind op }
{
    match op {
        AtomicOp::Lr => MISALIGNED_LOAD,
        _ => MISALIGNED_STORE,
    }
}

/// What an aligned atomic instruction accesses after its reads. A reservation is the reserved address and 1.
#[inline(always)]
fn write(step: &Step<'_, '_>, touches: &mut Touches, atomic: Atomic, address: u32, value: u32)
    requires room { array_vec_len touches.old.list ≤ 5 }
    requires aligned { address % 4 ≡ 0 }
    ensures { touches.new.list.items ≡ touches.old.list.items ++ isa.atomic_writes atomic.op atomic.rd address value step.now.seen.now }
{
    let rd = atomic.rd;
    let word = step.seen.s6;
    match atomic.op {
        AtomicOp::Lr => {
            touches.touch(MEMORY_SLOT, address / 4, word);
            touches.on_register(RD_SLOT, rd, word);
            touches.touch(RESERVATION_SLOT, RESERVATION_CELL, address + 1);
        }
        AtomicOp::Sc => store_conditional(step, touches, rd, address, value),
        op => {
            let new = amo_result(op, word, value);
            touches.touch(MEMORY_SLOT, address / 4, new);
            touches.on_register(RD_SLOT, rd, word);
        }
    }
}

/// A store-conditional stores where its word is reserved, and the reservation ends.
#[inline(always)]
fn store_conditional(step: &Step<'_, '_>, touches: &mut Touches, rd: u8, address: u32, value: u32)
    requires room { array_vec_len touches.old.list ≤ 5 }
    requires aligned { address % 4 ≡ 0 }
    ensures { touches.new.list.items ≡ touches.old.list.items ++ conditional_writes rd address value (step.now.seen.now.s8 == address + 1) }
{
    let reserved = step.seen.s8 == address + 1;
    if reserved {
        touches.touch(MEMORY_SLOT, address / 4, value);
    }
    touches.on_register(RD_SLOT, rd, if reserved { 0 } else { 1 });
    touches.touch(RESERVATION_SLOT, RESERVATION_CELL, 0);
}
