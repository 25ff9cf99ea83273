//! `explain`: lists rows of a record.

ghost use Rattle.rv_rules.specs.Verdict.{parse as parse_of};
ghost use Rattle.rv_plan.specs.FileCalls.{Performs};
ghost use Rattle.rv_commands.specs.CommandLine as command;
ghost use Rattle.rv_commands.specs.Commands.{explain_words};
ghost use Rattle.rv_commands.specs.Judging.{TellsOutcome};
ghost use Rattle.rv_commands.specs.Outcome.{explained, plan_of};

use crate::commands::Explain;
use crate::lines::refused_line;
use rv_base::limits::RECORD_LIMIT;
use rv_file::parse;
use rv_host::Shelf;
use rv_plan::{Fault, Limited, Told, read_within};
use std::alloc::Global;

/// Tells the rows of a record of good form, as many from a step on as are there. It holds the record.
pub fn explain<S: Shelf>(alloc: Global, words: &Explain<'_>, shelf: &mut S) -> Result<Told, Fault>
    ensures { Performs (plan_of (command.explain (explain_words words.now))) (S.view shelf.old) (S.view shelf.new) result }
{
    let file = read_within(alloc, shelf, words.record, RECORD_LIMIT, Limited::Record)?;
    tell_rows(alloc, file.list(), words.from, words.count)
}

/// What listing rows of a file tells.
fn tell_rows(alloc: Global, file: &[u8], from: u32, count: u32) -> Result<Told, Fault>
    ensures { TellsOutcome (explained from count (parse_of file.now)) result }
{
    let (status, text) = match parse(file) {
        Ok(parsed) => (0, rv_text::explain(alloc, &parsed, u64::from(from), count)),
        Err(refusal) => (1, refused_line(alloc, refusal)),
    };
    let Ok(text) = text else {
        return Err(Fault::Memory);
    };
    Ok(Told { status, text })
}
