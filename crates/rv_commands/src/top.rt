//! The top call: a command line is read, its command is carried out, and a text tells how it ended.

ghost use Rattle.std.specs.Prelude.{◌≡◌, false, map, string_bytes, IfOk, Some};
ghost use Rattle.rv_plan.specs.Answers.{Answers};
ghost use Rattle.rv_plan.specs.FileCalls.{Performs};
ghost use Rattle.rv_commands.specs.CommandLine.{command, is_teamwork};
ghost use Rattle.rv_commands.specs.Commands.{words_of, HasRanges};
ghost use Rattle.rv_commands.specs.Headline.{Headline};
ghost use Rattle.rv_commands.specs.Outcome.{plan, plan_of};
ghost use Rattle.rv_commands.specs.Trials.{TrialEnds};

use crate::asking::{cell, state};
use crate::asm::asm;
use crate::check::{check, check_by_team};
use crate::commands::{Command, parse};
use crate::explain::explain;
use crate::join::join;
use crate::make::{make, make_by_team};
use crate::pipe::pipe;
use crate::run::run;
use crate::settle::settle;
use crate::split::split;
use crate::trial::trial;
use crate::upgrade::upgrade;
use rv_host::{Gate, Shelf, Sink};
use rv_plan::{Fault, Told, tell};
use std::alloc::Global;
use std::sync::Wait;
use std::thread::Threads;

/// Whether the words are a valid command that is given more than one worker, as each `pipe` is.
pub fn needs_team(words: &[String]) -> bool
    ensures { result ≡ is_teamwork (command (map string_bytes words.now)) }
{
    match parse(words) {
        Some(Command::Make(make)) => make.workers > 1,
        Some(Command::Pipe(_)) => true,
        Some(Command::Check(check)) => check.workers > 1,
        Some(
            Command::Settle(_)
            | Command::Run(_)
            | Command::Explain(_)
            | Command::Trial(_)
            | Command::State(_)
            | Command::Cell(_)
            | Command::Split(_)
            | Command::Join(_)
            | Command::Asm(_)
            | Command::Upgrade(_),
        )
        | None => false,
    }
}

/// Carries out the command that the words spell, prints its text to `out`, and gives the status to end with:
///
/// - 0: the command's work is done
/// - 1: the record is refused, or is a collision
/// - 2: the words are no command
/// - 3: the ELF file has a fault
/// - 4: the run doesn't end within the budget
/// - 5: a file couldn't be read
/// - 6: a file or the text couldn't be written
/// - 7: want of memory
/// - 8: a file, or what a run needs, is above its limit, or there are more parts than shards
/// - 10: the record has no upgrade
/// - 11: a part of a record has a fault
/// - 12: the record has no such step
/// - 13: a source of the assembler has a fault
///
/// The words are those after the program's own name.
pub fn tool<R: Threads + Wait + Sync, S: Shelf, K: Sink, G: Gate>(
    rt: &R,
    alloc: Global,
    words: &[String],
    shelf: &mut S,
    out: &mut K,
    gate: &G,
) -> u8
    ensures answers { Answers (plan (command (map string_bytes words.now))) (S.view shelf.old) (S.view shelf.new) (K.view out.old) (K.view out.new) result }
    ensures headline { result ≡ 0 → Headline (command (map string_bytes words.now)) (S.view shelf.old) (S.view shelf.new) }
    ensures tried { TrialEnds (command (map string_bytes words.now)) (K.view out.old) (K.view out.new) result }
{
    match parse(words) {
        Some(asked) => tell(alloc, out, perform_by_team(rt, alloc, &asked, shelf, gate)),
        None => tell(alloc, out, Err(Fault::Words)),
    }
}

/// What `tool` does where `needs_team` is false. It always returns.
pub fn tool_one<S: Shelf, K: Sink>(
    alloc: Global,
    words: &[String],
    shelf: &mut S,
    out: &mut K,
) -> u8
    requires alone { is_teamwork (command (map string_bytes words.now)) ≡ false }
    ensures answers { Answers (plan (command (map string_bytes words.now))) (S.view shelf.old) (S.view shelf.new) (K.view out.old) (K.view out.new) result }
    ensures headline { result ≡ 0 → Headline (command (map string_bytes words.now)) (S.view shelf.old) (S.view shelf.new) }
    ensures tried { TrialEnds (command (map string_bytes words.now)) (K.view out.old) (K.view out.new) result }
{
    match parse(words) {
        Some(asked) => tell(alloc, out, perform_alone(alloc, &asked, shelf)),
        None => tell(alloc, out, Err(Fault::Words)),
    }
}

/// Does the work of a command, and tells of it.
fn perform_by_team<R: Threads + Wait + Sync, S: Shelf, G: Gate>(
    rt: &R,
    alloc: Global,
    asked: &Command<'_>,
    shelf: &mut S,
    gate: &G,
) -> Result<Told, Fault>
    requires { HasRanges asked.now }
    ensures performs { Performs (plan_of (words_of asked.now)) (S.view shelf.old) (S.view shelf.new) result }
    ensures headline { IfOk result (λ told. told.status ≡ 0 → Headline (Some (words_of asked.now)) (S.view shelf.old) (S.view shelf.new)) }
{
    match asked {
        Command::Make(words) => make_by_team(rt, alloc, words, shelf, gate),
        Command::Pipe(words) => pipe(rt, alloc, words, shelf, gate),
        Command::Check(words) => check_by_team(rt, alloc, words, shelf, gate),
        Command::Settle(words) => settle(alloc, words, shelf),
        Command::Run(words) => run(alloc, words, shelf),
        Command::Explain(words) => explain(alloc, words, shelf),
        Command::Trial(words) => trial(alloc, words),
        Command::State(words) => state(alloc, words, shelf),
        Command::Cell(words) => cell(alloc, words, shelf),
        Command::Split(words) => split(alloc, words, shelf),
        Command::Join(words) => join(alloc, words, shelf),
        Command::Asm(words) => asm(alloc, words, shelf),
        Command::Upgrade(words) => upgrade(alloc, words, shelf),
    }
}

/// Does the work of a command of at most one worker, and tells of it.
fn perform_alone<S: Shelf>(alloc: Global, asked: &Command<'_>, shelf: &mut S) -> Result<Told, Fault>
    requires ranges { HasRanges asked.now }
    requires alone { is_teamwork (Some (words_of asked.now)) ≡ false }
    ensures performs { Performs (plan_of (words_of asked.now)) (S.view shelf.old) (S.view shelf.new) result }
    ensures headline { IfOk result (λ told. told.status ≡ 0 → Headline (Some (words_of asked.now)) (S.view shelf.old) (S.view shelf.new)) }
{
    match asked {
        Command::Make(words) => make(alloc, words, shelf),
        Command::Pipe(_) => unreachable!(),
        Command::Check(words) => check(alloc, words, shelf),
        Command::Settle(words) => settle(alloc, words, shelf),
        Command::Run(words) => run(alloc, words, shelf),
        Command::Explain(words) => explain(alloc, words, shelf),
        Command::Trial(words) => trial(alloc, words),
        Command::State(words) => state(alloc, words, shelf),
        Command::Cell(words) => cell(alloc, words, shelf),
        Command::Split(words) => split(alloc, words, shelf),
        Command::Join(words) => join(alloc, words, shelf),
        Command::Asm(words) => asm(alloc, words, shelf),
        Command::Upgrade(words) => upgrade(alloc, words, shelf),
    }
}
