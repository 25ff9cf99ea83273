//! `run` and `run2`: run a program and write its output.

ghost use Rattle.std.specs.Prelude.{IfOk, IfErr, ◌≡◌};
ghost use Rattle.rv_commands.specs.CommandLine as command;
ghost use Rattle.rv_commands.specs.Commands.{run_words};
ghost use Rattle.rv_plan.specs.FileCalls.{Performs};
ghost use Rattle.rv_commands.specs.Outcome.{plan_of};
ghost use Rattle.std.specs.Int.{IsInRange};
ghost use Rattle.rv_spec.specs.Run.{GoesOn};
ghost use Rattle.rv_isa.specs.Machine.{IsRunOf};
ghost use Rattle.rv_isa.specs.declared.machine.RunStop.TheVariants as stops;

use crate::commands::Run;
use crate::lines::ran_line;
use rv_base::limits::BUDGET_LIMIT;
use rv_elf::Image;
use rv_host::Shelf;
use rv_isa::{Machine, Ran, RunStop};
use rv_plan::{DueFile, Fault, Told, image_of, load, write_files};
use std::alloc::Global;

/// Runs the program, writes its output to a file, and tells of it. All memory is taken before the file is touched.
pub fn run<S: Shelf>(alloc: Global, words: &Run<'_>, shelf: &mut S) -> Result<Told, Fault>
    requires version { IsInRange 1 2 words.now.version }
    requires budget { IsInRange 1 BUDGET_LIMIT words.now.budget }
    ensures { Performs (plan_of (command.run (run_words words.now))) (S.view shelf.old) (S.view shelf.new) result }
{
    let loaded = load(alloc, shelf, words.elf, words.input)?;
    let image = image_of(loaded.elf.list(), words.version)?;
    let ran = match run_image(alloc, &image, loaded.input.list(), words.budget) {
        Ok(ran) => ran,
        Err(RunStop::Budget) => return Err(Fault::Budget(words.budget)),
        Err(RunStop::NoMemory) => return Err(Fault::Memory),
    };
    let output = ran.output.list();
    let Ok(text) = ran_line(alloc, ran.steps, ran.end, output.len()) else {
        return Err(Fault::Memory);
    };
    let file = DueFile {
        name: words.output,
        parts: &[output],
    };
    write_files(shelf, &[file])?;
    Ok(Told { status: 0, text })
}

/// Runs a program on an input. Budget comes exactly where the run doesn't end within so many steps.
fn run_image(alloc: Global, image: &Image<'_>, input: &[u8], budget: u32) -> Result<Ran, RunStop>
    requires { IsInRange 1 BUDGET_LIMIT budget }
    ensures ok { IfOk result (IsRunOf image.now input.now budget) }
    ensures err { IfErr result (λ stop. stop ≡ stops.Budget → GoesOn image.now input.now budget) }
{
    Machine::start(alloc, image, input).run(u64::from(budget))
}
