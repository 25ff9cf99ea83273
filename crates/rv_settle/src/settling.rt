//! Settling a record file.

ghost use Rattle.std.specs.Prelude.{◌≡◌, ℕ, List, IfOk, None};
ghost use Rattle.rv_spec.specs.Words.{AreBytes};
ghost use Rattle.rv_spec.specs.Elf.{first_fault};
ghost use Rattle.rv_rules.specs.Verdict.{verdict as verdict_is};
ghost use Rattle.rv_settle.specs.Settling.{IsSettled, IsDecided};

use crate::collecting::collect;
use crate::tuples::Tuples;
use rv_base::{NoMemory, Refusal, Verdict};
use rv_digest::Lanes;
use rv_file::parse;
use rv_judge::judge;
use rv_order::{Differ, compare};
use rv_program::Program;
use rv_sound::{reading, soundness};
use std::alloc::Global;

/// What a record file is, for a program and its input.
#[derive(Clone, Copy, PartialEq, Eq, Debug)]
pub enum Settled {
    /// The record of the run, which takes this many steps.
    Run { steps: u64 },
    /// Accepted, though all that it reads and all that it writes are different multisets of one digest. The least tuple whose counts differ, with both.
    Collision(Differ),
    /// Refused: the first broken check.
    Refused(Refusal),
}

/// The law of an opened program: its file has no fault, and both files are bytes.
fn opened(program: &Program<'_>)
    ensures faultless { first_fault program.now.elf ≡ None }
    ensures elf { AreBytes program.now.elf }
    ensures input { AreBytes program.now.input }
{
    let _image = program.image();
    let _input = program.input();
}

/// Whether all that an accepted file of so many steps reads is all that it writes.
fn decide(mut tuples: Tuples, steps: u64) -> Settled
    ensures { IsDecided tuples.reads.items tuples.writes.items steps result }
{
    match compare(tuples.reads.as_mut_slice(), tuples.writes.as_mut_slice()) {
        Some(differ) => Settled::Collision(differ),
        None => Settled::Run { steps },
    }
}

/// Settles a file on which this is the verdict.
fn settle_verdict<L: Lanes>(
    alloc: Global,
    program: &Program<'_>,
    file: &[u8],
    verdict: Verdict,
) -> Result<Settled, NoMemory>
    requires { verdict ≡ verdict_is L.lanes program.now.elf program.now.input file.now }
    ensures { IfOk result (IsSettled L.lanes program.now.elf program.now.input file.now) }
{
    let steps = match verdict {
        Verdict::Refuse(refusal) => return Ok(Settled::Refused(refusal)),
        Verdict::Accept { steps, .. } => steps,
    };
    opened(program);
    reading();
    soundness();
    let Ok(parsed) = parse(file) else {
        unreachable!();
    };
    let tuples = collect(alloc, program, file, &parsed)?;
    Ok(decide(tuples, steps))
}

/// Settles a record file, for a program and its input, under the digest by these lanes. The verdict takes one pass; where it accepts, all tuples that the file reads and writes are collected and sorted, in time linear in the file but for the sorting, and in memory for two tuples of 16 bytes for each access and each entry of the table.
pub fn settle<L: Lanes>(
    alloc: Global,
    program: &Program<'_>,
    file: &[u8],
    lanes: L,
) -> Result<Settled, NoMemory>
    ensures { IfOk result (IsSettled L.lanes program.now.elf program.now.input file.now) }
{
    let verdict = judge(program, file, lanes);
    settle_verdict::<L>(alloc, program, file, verdict)
}
