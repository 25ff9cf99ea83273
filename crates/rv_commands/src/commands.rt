//! The words of a command line, read by hand.

ghost use Rattle.std.specs.Prelude.{map, string_bytes, IfSome};
ghost use Rattle.std.specs.Int.{IsInRange};
ghost use Rattle.rv_commands.specs.Commands.{HasMakeRanges, HasRanges, IsCommand, IsMaking};
ghost use Rattle.rv_commands.specs.CommandLine.{asm_command, cell_command, check_command, command, explain_command, join_command, make_command, making as making_of, pipe_command, run_command, settle_command, split_command, state_command, trial_command, upgrade_command};

use crate::numbers::number;
use crate::spelled_cells::cell;
use rv_base::limits::{BUDGET_LIMIT, SHARD_SIZE_LIMIT, WORKERS_LIMIT};
use rv_parts::PARTS_LIMIT;

/// A command with its numbers read. File names are as they were given.
#[derive(Clone, Copy, Debug)]
pub enum Command<'a> {
    Make(Make<'a>),
    Pipe(Pipe<'a>),
    Check(Check<'a>),
    Settle(Settle<'a>),
    Run(Run<'a>),
    Explain(Explain<'a>),
    Trial(Trial),
    State(State<'a>),
    Cell(Cell<'a>),
    Split(Split<'a>),
    Join(Join<'a>),
    Asm(Asm<'a>),
    Upgrade(Upgrade<'a>),
}

/// `make ELF INPUT RECORD WORKERS SHARD BUDGET`: writes the record of a run. `make2` does so for version 2.
#[derive(Clone, Copy, Debug)]
pub struct Make<'a> {
    /// 1 for RV32IM, 2 for RV32IMA.
    pub version: u8,
    pub elf: &'a str,
    pub input: &'a str,
    pub record: &'a str,
    /// 1 to 64 workers.
    pub workers: u32,
    /// 1 to 65,536 rows in each shard but the last.
    pub shard: u32,
    /// 1 to 8,388,608 steps, the ending one counted.
    pub budget: u32,
}

/// The fewest workers of a pipe: one goes through the run, the others make its shards.
pub const LEAST_PIPE_WORKERS: u32 = 2;

/// The most starts of shards that may wait for a worker.
pub const WAITING_LIMIT: u32 = 64;

/// `pipe ELF INPUT RECORD WORKERS SHARD BUDGET WAITING`: writes the record of a run while the run is gone through.
#[derive(Clone, Copy, Debug)]
pub struct Pipe<'a> {
    /// Of version 1, by 2 to 64 workers.
    pub make: Make<'a>,
    /// 1 to 64 starts of shards that may wait for a worker.
    pub waiting: u32,
}

/// `check ELF INPUT RECORD WORKERS`: tells the verdict on a record.
#[derive(Clone, Copy, Debug)]
pub struct Check<'a> {
    pub elf: &'a str,
    pub input: &'a str,
    pub record: &'a str,
    /// 1 to 64 workers.
    pub workers: u32,
}

/// `settle ELF INPUT RECORD`: tells whether an accepted record is that of the run, or a collision.
#[derive(Clone, Copy, Debug)]
pub struct Settle<'a> {
    pub elf: &'a str,
    pub input: &'a str,
    pub record: &'a str,
}

/// `run ELF INPUT OUTPUT BUDGET`: writes what a program puts on standard output. `run2` does so for version 2.
#[derive(Clone, Copy, Debug)]
pub struct Run<'a> {
    /// 1 for RV32IM, 2 for RV32IMA.
    pub version: u8,
    pub elf: &'a str,
    pub input: &'a str,
    pub output: &'a str,
    /// 1 to 8,388,608 steps, the ending one counted.
    pub budget: u32,
}

/// The greatest number of a step that can be asked for.
pub const LAST_STEP: u32 = 4_294_967_295;

/// The most rows that are listed at once.
pub const LISTED_ROWS_LIMIT: u32 = 4096;

/// The greatest number of a generated program.
pub const LAST_NUMBER: u32 = 4_294_967_295;

/// The least size of a generated program.
pub const LEAST_SIZE: u32 = 42;

/// The greatest size of a generated program.
pub const SIZE_LIMIT: u32 = 84_000;

/// `explain RECORD FROM COUNT`: lists rows of a record.
#[derive(Clone, Copy, Debug)]
pub struct Explain<'a> {
    pub record: &'a str,
    /// The step of the first row, from 0.
    pub from: u32,
    /// 1 to 4,096 rows.
    pub count: u32,
}

/// `trial NUMBER SIZE`: makes and checks the record of a generated program.
#[derive(Clone, Copy, Debug)]
pub struct Trial {
    pub number: u32,
    /// 42 to 84,000, about as many steps.
    pub size: u32,
}

/// `state ELF INPUT RECORD STEP`: tells the registers before a step, by a record.
#[derive(Clone, Copy, Debug)]
pub struct State<'a> {
    pub elf: &'a str,
    pub input: &'a str,
    pub record: &'a str,
    /// From 0.
    pub step: u32,
}

/// `cell ELF INPUT RECORD CELL STEP`: tells what a cell held before a step, by a record.
#[derive(Clone, Copy, Debug)]
pub struct Cell<'a> {
    pub elf: &'a str,
    pub input: &'a str,
    pub record: &'a str,
    /// The cell as it is spelled.
    pub name: &'a str,
    /// The number of the cell.
    pub number: u32,
    /// From 0.
    pub step: u32,
}

/// `split RECORD PARTS NAME`: cuts a record into parts. Part p is the file named NAME, a full stop and p in decimal.
#[derive(Clone, Copy, Debug)]
pub struct Split<'a> {
    pub record: &'a str,
    /// 1 to 64 parts.
    pub parts: u32,
    pub name: &'a str,
}

/// `join ELF INPUT NAME PARTS`: tells the verdict on a record in parts, named as `split` names them.
#[derive(Clone, Copy, Debug)]
pub struct Join<'a> {
    pub elf: &'a str,
    pub input: &'a str,
    pub name: &'a str,
    /// 1 to 64 parts.
    pub parts: u32,
}

/// `asm SOURCE ELF`: assembles a source into an executable of RV32IM.
#[derive(Clone, Copy, Debug)]
pub struct Asm<'a> {
    pub source: &'a str,
    pub elf: &'a str,
}

/// `upgrade OLD NEW`: writes the record of version 2 of the run that a record of version 1 states.
#[derive(Clone, Copy, Debug)]
pub struct Upgrade<'a> {
    pub old: &'a str,
    pub target: &'a str,
}

/// The command that the words spell. None where they are no command, or a number is misspelled or out of its range.
pub fn parse(words: &[String]) -> Option<Command<'_>>
    ensures command { IsCommand (command (map string_bytes words.now)) result }
    ensures ranges { IfSome result HasRanges }
{
    let [name, arguments @ ..] = words else {
        return None;
    };
    match name.as_str() {
        "make" => parse_make(1, arguments),
        "make2" => parse_make(2, arguments),
        "pipe" => parse_pipe(arguments),
        "check" => parse_check(arguments),
        "settle" => parse_settle(arguments),
        "run" => parse_run(1, arguments),
        "run2" => parse_run(2, arguments),
        "explain" => parse_explain(arguments),
        "trial" => parse_trial(arguments),
        "state" => parse_state(arguments),
        "cell" => parse_cell(arguments),
        "split" => parse_split(arguments),
        "join" => parse_join(arguments),
        "asm" => parse_asm(arguments),
        "upgrade" => parse_upgrade(arguments),
        _ => None,
    }
}

fn parse_make(version: u8, arguments: &[String]) -> Option<Command<'_>>
    requires { IsInRange 1 2 version }
    ensures command { IsCommand (make_command version (map string_bytes arguments.now)) result }
    ensures ranges { IfSome result HasRanges }
{
    let made = making(version, 1, arguments)?;
    Some(Command::Make(made))
}

fn parse_pipe(arguments: &[String]) -> Option<Command<'_>>
    ensures command { IsCommand (pipe_command (map string_bytes arguments.now)) result }
    ensures ranges { IfSome result HasRanges }
{
    let [made @ .., waiting] = arguments else {
        return None;
    };
    let make = making(1, LEAST_PIPE_WORKERS, made)?;
    let waiting = number(waiting.as_str(), 1, WAITING_LIMIT)?;
    Some(Command::Pipe(Pipe { make, waiting }))
}

/// What a record is made of and by, at least so many workers.
fn making(version: u8, least: u32, arguments: &[String]) -> Option<Make<'_>>
    requires { IsInRange 1 2 version }
    ensures making { IsMaking (making_of version least (map string_bytes arguments.now)) result }
    ensures ranges { IfSome result (HasMakeRanges least) }
{
    let [elf, input, record, workers, shard, budget] = arguments else {
        return None;
    };
    let workers = number(workers.as_str(), least, WORKERS_LIMIT)?;
    let shard = number(shard.as_str(), 1, SHARD_SIZE_LIMIT)?;
    let budget = number(budget.as_str(), 1, BUDGET_LIMIT)?;
    Some(Make {
        version,
        elf: elf.as_str(),
        input: input.as_str(),
        record: record.as_str(),
        workers,
        shard,
        budget,
    })
}

fn parse_check(arguments: &[String]) -> Option<Command<'_>>
    ensures command { IsCommand (check_command (map string_bytes arguments.now)) result }
    ensures ranges { IfSome result HasRanges }
{
    let [elf, input, record, workers] = arguments else {
        return None;
    };
    let workers = number(workers.as_str(), 1, WORKERS_LIMIT)?;
    Some(Command::Check(Check {
        elf: elf.as_str(),
        input: input.as_str(),
        record: record.as_str(),
        workers,
    }))
}

fn parse_settle(arguments: &[String]) -> Option<Command<'_>>
    ensures command { IsCommand (settle_command (map string_bytes arguments.now)) result }
    ensures ranges { IfSome result HasRanges }
{
    let [elf, input, record] = arguments else {
        return None;
    };
    Some(Command::Settle(Settle {
        elf: elf.as_str(),
        input: input.as_str(),
        record: record.as_str(),
    }))
}

fn parse_run(version: u8, arguments: &[String]) -> Option<Command<'_>>
    requires { IsInRange 1 2 version }
    ensures command { IsCommand (run_command version (map string_bytes arguments.now)) result }
    ensures ranges { IfSome result HasRanges }
{
    let [elf, input, output, budget] = arguments else {
        return None;
    };
    let budget = number(budget.as_str(), 1, BUDGET_LIMIT)?;
    Some(Command::Run(Run {
        version,
        elf: elf.as_str(),
        input: input.as_str(),
        output: output.as_str(),
        budget,
    }))
}

fn parse_explain(arguments: &[String]) -> Option<Command<'_>>
    ensures command { IsCommand (explain_command (map string_bytes arguments.now)) result }
    ensures ranges { IfSome result HasRanges }
{
    let [record, from, count] = arguments else {
        return None;
    };
    let from = number(from.as_str(), 0, LAST_STEP)?;
    let count = number(count.as_str(), 1, LISTED_ROWS_LIMIT)?;
    Some(Command::Explain(Explain {
        record: record.as_str(),
        from,
        count,
    }))
}

fn parse_trial(arguments: &[String]) -> Option<Command<'_>>
    ensures command { IsCommand (trial_command (map string_bytes arguments.now)) result }
    ensures ranges { IfSome result HasRanges }
{
    let [number_word, size] = arguments else {
        return None;
    };
    let drawn = number(number_word.as_str(), 0, LAST_NUMBER)?;
    let size = number(size.as_str(), LEAST_SIZE, SIZE_LIMIT)?;
    Some(Command::Trial(Trial {
        number: drawn,
        size,
    }))
}

fn parse_state(arguments: &[String]) -> Option<Command<'_>>
    ensures command { IsCommand (state_command (map string_bytes arguments.now)) result }
    ensures ranges { IfSome result HasRanges }
{
    let [elf, input, record, step] = arguments else {
        return None;
    };
    let step = number(step.as_str(), 0, LAST_STEP)?;
    Some(Command::State(State {
        elf: elf.as_str(),
        input: input.as_str(),
        record: record.as_str(),
        step,
    }))
}

fn parse_cell(arguments: &[String]) -> Option<Command<'_>>
    ensures command { IsCommand (cell_command (map string_bytes arguments.now)) result }
    ensures ranges { IfSome result HasRanges }
{
    let [elf, input, record, name, step] = arguments else {
        return None;
    };
    let number_of = cell(name.as_str())?;
    let step = number(step.as_str(), 0, LAST_STEP)?;
    Some(Command::Cell(Cell {
        elf: elf.as_str(),
        input: input.as_str(),
        record: record.as_str(),
        name: name.as_str(),
        number: number_of,
        step,
    }))
}

fn parse_split(arguments: &[String]) -> Option<Command<'_>>
    ensures command { IsCommand (split_command (map string_bytes arguments.now)) result }
    ensures ranges { IfSome result HasRanges }
{
    let [record, parts, name] = arguments else {
        return None;
    };
    let parts = number(parts.as_str(), 1, PARTS_LIMIT)?;
    Some(Command::Split(Split {
        record: record.as_str(),
        parts,
        name: name.as_str(),
    }))
}

fn parse_join(arguments: &[String]) -> Option<Command<'_>>
    ensures command { IsCommand (join_command (map string_bytes arguments.now)) result }
    ensures ranges { IfSome result HasRanges }
{
    let [elf, input, name, parts] = arguments else {
        return None;
    };
    let parts = number(parts.as_str(), 1, PARTS_LIMIT)?;
    Some(Command::Join(Join {
        elf: elf.as_str(),
        input: input.as_str(),
        name: name.as_str(),
        parts,
    }))
}

fn parse_asm(arguments: &[String]) -> Option<Command<'_>>
    ensures command { IsCommand (asm_command (map string_bytes arguments.now)) result }
    ensures ranges { IfSome result HasRanges }
{
    let [source, elf] = arguments else {
        return None;
    };
    Some(Command::Asm(Asm {
        source: source.as_str(),
        elf: elf.as_str(),
    }))
}

fn parse_upgrade(arguments: &[String]) -> Option<Command<'_>>
    ensures command { IsCommand (upgrade_command (map string_bytes arguments.now)) result }
    ensures ranges { IfSome result HasRanges }
{
    let [old, target] = arguments else {
        return None;
    };
    Some(Command::Upgrade(Upgrade {
        old: old.as_str(),
        target: target.as_str(),
    }))
}
