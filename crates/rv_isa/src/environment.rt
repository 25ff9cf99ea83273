//! The expected step of ECALL, by the number of the call: exit, read, write, and no other.

ghost use Rattle.std.specs.Prelude.{[], ◌≡◌, ◌+◌, ◌-◌, ◌/◌, ◌%◌, ◌^◌, ◌++◌, ◌<◌, ◌≤◌, length, min, take, drop, replicate};
ghost use Rattle.std.specs.Int.{w32, to_le_bytes};
ghost use Rattle.arrayvec.specs.ArrayVec.{array_vec_len};
ghost use Rattle.rv_rules.specs.Expected as isa;
ghost use Rattle.rv_spec.specs.Step.{within_word};
ghost use Rattle.rv_isa.specs.Represented.{AppendsExpected};

use crate::abi::{A0, A7};
use crate::accesses::Touches;
use crate::step::{Outcome, Step};
use rv_base::cells::RS1_SLOT;
use rv_base::machine::{BAD_DESCRIPTOR, EXIT, EXIT_CALL, EXIT_GROUP, NO_SUCH_CALL, READ, WRITE};

/// The expected step of a call of the environment.
#[tactic(auto, unfolding(rv_rules::specs::Expected::expected_call), using(crate::proofs::Made::made))]
#[inline(always)]
pub(crate) fn call(step: &Step<'_, '_>, touches: &mut Touches) -> Outcome
    requires room { array_vec_len touches.old.list ≤ 1 }
    requires within { step.now.at ≤ length step.now.input.now }
    ensures { AppendsExpected (isa.expected_call step.now.input.now step.now.at step.now.pc step.now.seen.now) touches.old.list.items touches.new.list.items result }
{
    let seen = step.seen;
    match seen.s2 {
        EXIT_CALL | EXIT_GROUP => {
            touches.read_two(seen, A7, A0);
            step.ends(EXIT, seen.s3)
        }
        READ => read(step, touches),
        WRITE => write(step, touches),
        _ => {
            touches.on_register(RS1_SLOT, A7, seen.s2);
            step.sets(touches, A0, NO_SUCH_CALL)
        }
    }
}

/// The bytes that a call moves: no more than are left in the word of its buffer.
fn count_within_word(buffer: u32, length: u32) -> u32
    ensures count { result ≡ within_word buffer length }
    ensures within { buffer % 4 + result ≤ 4 }
{
    length.min(4 - buffer % 4)
}

/// The word with these bytes from byte `lane` on.
#[tactic(auto, unfolding(rv_rules::specs::Expected::splice))]
fn splice(word: u32, lane: u32, bytes: &[u8]) -> u32
    requires { lane + length bytes.now ≤ 4 }
    ensures { result ≡ isa.splice word lane bytes.now }
{
    let mut spliced = word.to_le_bytes();
    let first = lane as usize;
    spliced[first..first + bytes.len()].copy_from_slice(bytes);
    u32::from_le_bytes(spliced)
}

/// A word of `count` bytes of a word from byte `lane` on, and zeros behind them.
fn from_lane(word: u32, lane: u32, count: u32) -> u32
    requires { lane + count ≤ 4 }
    ensures { to_le_bytes w32 result ≡ take count (drop lane (to_le_bytes w32 word)) ++ replicate (4 - count) 0 }
{
    let mut bytes = [0; 4];
    let first = lane as usize;
    let count = count as usize;
    bytes[..count].copy_from_slice(&word.to_le_bytes()[first..first + count]);
    u32::from_le_bytes(bytes)
}

/// From standard input into the buffer.
#[tactic(auto, using(crate::proofs::Made::made))]
#[inline(always)]
fn read(step: &Step<'_, '_>, touches: &mut Touches) -> Outcome
    requires room { array_vec_len touches.old.list ≤ 1 }
    requires within { step.now.at ≤ length step.now.input.now }
    ensures { AppendsExpected (isa.expected_read step.now.input.now step.now.at step.now.pc step.now.seen.now) touches.old.list.items touches.new.list.items result }
{
    let seen = step.seen;
    touches.read_arguments(seen);
    if seen.s3 != 0 {
        return step.sets(touches, A0, BAD_DESCRIPTOR);
    }
    let rest = &step.input[step.at as usize..];
    let count = rest.len().min(count_within_word(seen.s4, seen.s5) as usize);
    let filled = splice(seen.s6, seen.s4 % 4, &rest[..count]);
    touches.on_buffer(seen.s4, count as u32, filled);
    Outcome {
        took: count as u32,
        ..step.sets(touches, A0, count as u32)
    }
}

/// From the buffer to standard output, or to standard error, which is not kept.
#[tactic(auto, using(crate::proofs::Made::made))]
#[inline(always)]
fn write(step: &Step<'_, '_>, touches: &mut Touches) -> Outcome
    requires { array_vec_len touches.old.list ≤ 1 }
    ensures { AppendsExpected (isa.expected_write step.now.pc step.now.seen.now) touches.old.list.items touches.new.list.items result }
{
    let seen = step.seen;
    touches.read_arguments(seen);
    match seen.s3 {
        1 => {
            let count = count_within_word(seen.s4, seen.s5);
            touches.on_buffer(seen.s4, count, seen.s6);
            Outcome {
                put: count,
                word: from_lane(seen.s6, seen.s4 % 4, count),
                ..step.sets(touches, A0, count)
            }
        }
        2 => step.sets(touches, A0, seen.s5),
        _ => step.sets(touches, A0, BAD_DESCRIPTOR),
    }
}
