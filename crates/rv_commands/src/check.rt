//! `check`: tells the verdict on a record.

ghost use Rattle.std.specs.Prelude.{◌≡◌, ◌≤◌, IfOk};
ghost use Rattle.std.specs.Int.{IsInRange};
ghost use Rattle.rv_plan.specs.FileCalls.{Performs};
ghost use Rattle.rv_commands.specs.CommandLine as command;
ghost use Rattle.rv_commands.specs.Commands.{check_words};
ghost use Rattle.rv_commands.specs.Headline.{Accepted};
ghost use Rattle.rv_commands.specs.Outcome.{plan_of, told_verdict};
ghost use Rattle.rv_commands.specs.Judging.{TellsOutcome};

use crate::commands::Check;
use crate::judging::{judge_file, open};
use crate::lines::{accepted_line, refused_line};
use rv_base::Verdict;
use rv_base::limits::{RECORD_LIMIT, WORKERS_LIMIT};
use rv_digest::ShaLanes;
use rv_host::{Gate, Shelf};
use rv_panel::panel;
use rv_plan::{Fault, Limited, Told, load, read_within};
use std::alloc::Global;
use std::sync::Wait;
use std::thread::Threads;

/// Judges the record piece by piece, and tells the verdict. It holds the program, the input and the output that the record states.
pub fn check<S: Shelf>(alloc: Global, words: &Check<'_>, shelf: &mut S) -> Result<Told, Fault>
    requires alone { words.now.workers ≤ 1 }
    ensures performs { Performs (plan_of (command.check (check_words words.now))) (S.view shelf.old) (S.view shelf.new) result }
    ensures headline { IfOk result (λ told. told.status ≡ 0 → Accepted (S.view shelf.old).files (check_words words.now)) }
{
    let loaded = load(alloc, shelf, words.elf, words.input)?;
    let program = open(&loaded)?;
    let verdict = judge_file(alloc, shelf, words.record, &program)?;
    tell_verdict(alloc, verdict)
}

/// What `check` does, by as many workers as the words ask for. More than one hold the whole record.
pub fn check_by_team<R: Threads + Wait + Sync, S: Shelf, G: Gate>(
    rt: &R,
    alloc: Global,
    words: &Check<'_>,
    shelf: &mut S,
    gate: &G,
) -> Result<Told, Fault>
    requires workers { IsInRange 1 WORKERS_LIMIT words.now.workers }
    ensures performs { Performs (plan_of (command.check (check_words words.now))) (S.view shelf.old) (S.view shelf.new) result }
    ensures headline { IfOk result (λ told. told.status ≡ 0 → Accepted (S.view shelf.old).files (check_words words.now)) }
{
    if words.workers == 1 {
        return check(alloc, words, shelf);
    }
    let loaded = load(alloc, shelf, words.elf, words.input)?;
    let program = open(&loaded)?;
    let file = read_within(alloc, shelf, words.record, RECORD_LIMIT, Limited::Record)?;
    let Ok(verdict) = panel(
        rt,
        alloc,
        &program,
        file.list(),
        &ShaLanes,
        words.workers,
        gate,
    ) else {
        return Err(Fault::Memory);
    };
    tell_verdict(alloc, verdict)
}

/// What the verdict on a record tells.
pub fn tell_verdict(alloc: Global, verdict: Verdict) -> Result<Told, Fault>
    ensures { TellsOutcome (told_verdict verdict) result }
{
    let (status, line) = match verdict {
        Verdict::Accept { steps, shards, end } => (0, accepted_line(alloc, steps, shards, end)),
        Verdict::Refuse(refusal) => (1, refused_line(alloc, refusal)),
    };
    let Ok(text) = line else {
        return Err(Fault::Memory);
    };
    Ok(Told { status, text })
}
