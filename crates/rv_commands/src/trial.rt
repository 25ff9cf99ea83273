//! `trial`: makes and checks the record of a generated program.

ghost use Rattle.std.specs.Prelude.{◌≡◌, IfOk};
ghost use Rattle.std.specs.Int.{IsInRange};
ghost use Rattle.rv_host.specs.Views.{ShelfView};
ghost use Rattle.rv_plan.specs.FileCalls.{Performs};
ghost use Rattle.rv_commands.specs.CommandLine as command;
ghost use Rattle.rv_commands.specs.Commands.{trial_words};
ghost use Rattle.rv_commands.specs.Headline.{Tried};
ghost use Rattle.rv_commands.specs.Outcome.{plan_of};

use crate::commands::{LEAST_SIZE, SIZE_LIMIT, Trial};
use crate::lines::trial_line;
use rv_plan::{Fault, Told};
use std::alloc::Global;

/// Runs a generated program, makes the record of its run and judges it on this thread, and tells of it. No file is read or written.
pub fn trial(alloc: Global, words: &Trial) -> Result<Told, Fault>
    requires { IsInRange LEAST_SIZE SIZE_LIMIT words.now.size }
    ensures performs { (shelf : ShelfView) → Performs (plan_of (command.trial (trial_words words.now))) shelf shelf result }
    ensures headline { IfOk result (λ told. told.status ≡ 0 → Tried (trial_words words.now)) }
{
    let Ok(tried) = rv_trial::trial(alloc, words.number, words.size) else {
        return Err(Fault::Memory);
    };
    let Ok(text) = trial_line(alloc, words.number, words.size, &tried) else {
        return Err(Fault::Memory);
    };
    Ok(Told { status: 0, text })
}
