//! `settle`: tells whether an accepted record is that of the run, or a collision.

ghost use Rattle.std.specs.Prelude.{◌≡◌, IfOk};
ghost use Rattle.rv_plan.specs.FileCalls.{Performs};
ghost use Rattle.rv_commands.specs.CommandLine as command;
ghost use Rattle.rv_commands.specs.Commands.{settle_words};
ghost use Rattle.rv_commands.specs.Headline.{Settled as IsSettled};
ghost use Rattle.rv_commands.specs.Judging.{TellsOutcome, settled_outcome};
ghost use Rattle.rv_commands.specs.Outcome.{plan_of};

use crate::commands::Settle;
use crate::judging::open;
use crate::lines::{collision_line, refused_line, settled_line};
use rv_base::limits::RECORD_LIMIT;
use rv_digest::ShaLanes;
use rv_host::Shelf;
use rv_plan::{Fault, Limited, Told, load, read_within};
use rv_settle::Settled;
use std::alloc::Global;

/// Judges the record, settles it where it is accepted, and tells of it. It holds the program, the input, the record and all tuples of its accesses.
pub fn settle<S: Shelf>(alloc: Global, words: &Settle<'_>, shelf: &mut S) -> Result<Told, Fault>
    ensures performs { Performs (plan_of (command.settle (settle_words words.now))) (S.view shelf.old) (S.view shelf.new) result }
    ensures headline { IfOk result (λ told. told.status ≡ 0 → IsSettled (S.view shelf.old).files (settle_words words.now)) }
{
    let loaded = load(alloc, shelf, words.elf, words.input)?;
    let program = open(&loaded)?;
    let file = read_within(alloc, shelf, words.record, RECORD_LIMIT, Limited::Record)?;
    let Ok(settled) = rv_settle::settle(alloc, &program, file.list(), ShaLanes) else {
        return Err(Fault::Memory);
    };
    tell_settled(alloc, settled)
}

/// What settling a record tells.
fn tell_settled(alloc: Global, settled: Settled) -> Result<Told, Fault>
    ensures { TellsOutcome (settled_outcome settled) result }
{
    let (status, line) = match settled {
        Settled::Run { steps } => (0, settled_line(alloc, steps)),
        Settled::Collision(differ) => (
            1,
            collision_line(alloc, differ.tuple, differ.reads, differ.writes),
        ),
        Settled::Refused(refusal) => (1, refused_line(alloc, refusal)),
    };
    let Ok(text) = line else {
        return Err(Fault::Memory);
    };
    Ok(Told { status, text })
}
