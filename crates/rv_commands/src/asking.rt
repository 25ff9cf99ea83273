//! `state` and `cell`: questions on an accepted record, whose accesses tell. Nothing is run.

ghost use Rattle.std.specs.Prelude.{◌≡◌, IfOk, IsTrue, MatchResult, Ok as Good, Err as Bad};
ghost use Rattle.rv_spec.specs.Cells.{is_cell};
ghost use Rattle.rv_spec.specs.Digest.{sha_lanes};
ghost use Rattle.rv_rules.specs.Verdict.{judge as judge_is};
ghost use Rattle.rv_query.specs.OfRun.{Accepts};
ghost use Rattle.rv_plan.specs.FileCalls.{Performs};
ghost use Rattle.rv_commands.specs.Asking.{TellsAnswer};
ghost use Rattle.rv_commands.specs.CommandLine as command;
ghost use Rattle.rv_commands.specs.Commands.{cell_words, state_words};
ghost use Rattle.rv_commands.specs.Headline.{CellAnswered, CellTold, StateAnswered, StateTold};
ghost use Rattle.rv_commands.specs.Judging.{TellsOutcome};
ghost use Rattle.rv_commands.specs.Lines.{refused_line as refused_line_of};
ghost use Rattle.rv_commands.specs.Outcome.{asked, cell_text, denies, plan_of, state_text};

use crate::answer_lines::{cell_line, state_lines};
use crate::commands::{Cell, State};
use crate::judging::open;
use crate::lines::refused_line;
use rv_base::limits::RECORD_LIMIT;
use rv_base::{Refusal, Verdict};
use rv_digest::ShaLanes;
use rv_file::{Parsed, parse};
use rv_host::Shelf;
use rv_judge::judge;
use rv_plan::{Fault, Limited, Told, load, read_within};
use rv_program::Program;
use rv_query::{cell_at, state_at};
use rv_sound::reading;
use std::alloc::Global;

/// Tells the state before a step of the run, as an accepted record shows it. It holds the program, the input and the record.
pub fn state<S: Shelf>(alloc: Global, words: &State<'_>, shelf: &mut S) -> Result<Told, Fault>
    ensures performs { Performs (plan_of (command.state (state_words words.now))) (S.view shelf.old) (S.view shelf.new) result }
    ensures headline { IfOk result (λ told. told.status ≡ 0 → StateTold (S.view shelf.old).files (state_words words.now)) }
{
    let loaded = load(alloc, shelf, words.elf, words.input)?;
    let program = open(&loaded)?;
    let file = read_within(alloc, shelf, words.record, RECORD_LIMIT, Limited::Record)?;
    tell_state(alloc, words, &program, file.list())
}

/// Tells what a cell held before a step of the run, as an accepted record shows it. It holds the program, the input and the record.
pub fn cell<S: Shelf>(alloc: Global, words: &Cell<'_>, shelf: &mut S) -> Result<Told, Fault>
    requires { IsTrue (is_cell 1 words.now.number) }
    ensures performs { Performs (plan_of (command.cell (cell_words words.now))) (S.view shelf.old) (S.view shelf.new) result }
    ensures headline { IfOk result (λ told. told.status ≡ 0 → CellTold (S.view shelf.old).files (cell_words words.now)) }
{
    let loaded = load(alloc, shelf, words.elf, words.input)?;
    let program = open(&loaded)?;
    let file = read_within(alloc, shelf, words.record, RECORD_LIMIT, Limited::Record)?;
    tell_cell(alloc, words, &program, file.list())
}

/// What asking a file for the state before a step tells.
fn tell_state(
    alloc: Global,
    words: &State<'_>,
    program: &Program<'_>,
    file: &[u8],
) -> Result<Told, Fault>
    ensures tells { TellsAnswer (asked (state_text (state_words words.now) program.now.elf) (judge_is sha_lanes program.now.elf program.now.input file.now)) result }
    ensures of_run { IfOk result (λ told. told.status ≡ 0 → StateAnswered program.now.elf program.now.input file.now (state_words words.now)) }
{
    let parsed = match accepted(program, file) {
        Ok(parsed) => parsed,
        Err(refusal) => return deny(alloc, refusal),
    };
    let Some(seen) = state_at(program, &parsed, words.step as u64) else {
        return Err(Fault::Step(parsed.header().steps));
    };
    let Ok(text) = state_lines(alloc, words.step, &seen) else {
        return Err(Fault::Memory);
    };
    Ok(Told { status: 0, text })
}

/// What asking a file for a cell before a step tells.
fn tell_cell(
    alloc: Global,
    words: &Cell<'_>,
    program: &Program<'_>,
    file: &[u8],
) -> Result<Told, Fault>
    requires { IsTrue (is_cell 1 words.now.number) }
    ensures tells { TellsAnswer (asked (cell_text (cell_words words.now) program.now.elf) (judge_is sha_lanes program.now.elf program.now.input file.now)) result }
    ensures of_run { IfOk result (λ told. told.status ≡ 0 → CellAnswered program.now.elf program.now.input file.now (cell_words words.now)) }
{
    let parsed = match accepted(program, file) {
        Ok(parsed) => parsed,
        Err(refusal) => return deny(alloc, refusal),
    };
    let Some(seen) = cell_at(program, &parsed, words.number, words.step as u64) else {
        return Err(Fault::Step(parsed.header().steps));
    };
    let Ok(text) = cell_line(alloc, words.name, &seen) else {
        return Err(Fault::Memory);
    };
    Ok(Told { status: 0, text })
}

/// The parts of a file that is accepted, or the first check that it breaks.
fn accepted<'a>(program: &Program<'_>, file: &'a [u8]) -> Result<Parsed<'a>, Refusal>
    ensures judged { MatchResult result
        (λ p. judge_is sha_lanes program.now.elf program.now.input file.now ≡ Good p)
        (λ r. judge_is sha_lanes program.now.elf program.now.input file.now ≡ Bad r) }
    ensures accepts { IfOk result (Accepts sha_lanes program.now.elf program.now.input file.now) }
{
    reading();
    match judge(program, file, ShaLanes) {
        Verdict::Accept { .. } => parse(file),
        Verdict::Refuse(refusal) => Err(refusal),
    }
}

/// What a refused record tells.
fn deny(alloc: Global, refusal: Refusal) -> Result<Told, Fault>
    ensures { TellsOutcome (denies (refused_line_of refusal)) result }
{
    match refused_line(alloc, refusal) {
        Ok(text) => Ok(Told { status: 1, text }),
        Err(_) => Err(Fault::Memory),
    }
}
