//! The lines of commands that did their work, and of records that are refused.

ghost use Rattle.std.specs.Prelude.{◌≡◌, ◌++◌, IfOk, OnOk, string_bytes};
ghost use Rattle.std.specs.Int.{IsInRange};
ghost use Rattle.rv_base.specs.declared.rules.TheConstants.{SHORT as FIRST_RULE, TRAILING as LAST_RULE};
ghost use Rattle.rv_plan.specs.Lines.{name_at};
ghost use Rattle.rv_commands.specs.Lines as lines;
ghost use Rattle.rv_commands.specs.Lines.{rule_names};

use rv_base::rules::*;
use rv_base::{End, NoMemory, Refusal, Text, Tuple};
use rv_trial::Trial;
use std::alloc::{AllocError, Global};
use std::fmt::Write;

/// The line of a record of so many steps, shards and bytes.
pub fn made_line(
    alloc: Global,
    steps: u64,
    shards: u32,
    end: End,
    bytes: u64,
) -> Result<Text, NoMemory>
    ensures { IfOk result (λ text. text ≡ lines.made_line steps shards end bytes) }
{
    let kind = end.kind;
    let code = end.code;
    match format!(in alloc;
        "made steps={steps} shards={shards} end={kind} code={code} bytes={bytes}\n"
    ) {
        Ok(text) => Ok(Text::of(text)),
        Err(_) => Err(NoMemory),
    }
}

/// The line of a run of so many steps that put so many bytes.
pub fn ran_line(alloc: Global, steps: u64, end: End, output: usize) -> Result<Text, NoMemory>
    ensures { IfOk result (λ text. text ≡ lines.ran_line steps end output) }
{
    let kind = end.kind;
    let code = end.code;
    match format!(in alloc; "ran steps={steps} end={kind} code={code} output={output}\n") {
        Ok(text) => Ok(Text::of(text)),
        Err(_) => Err(NoMemory),
    }
}

/// The line of a record that is accepted.
pub fn accepted_line(alloc: Global, steps: u64, shards: u32, end: End) -> Result<Text, NoMemory>
    ensures { IfOk result (λ text. text ≡ lines.accepted_line steps shards end) }
{
    let kind = end.kind;
    let code = end.code;
    match format!(in alloc; "accepted steps={steps} shards={shards} end={kind} code={code}\n") {
        Ok(text) => Ok(Text::of(text)),
        Err(_) => Err(NoMemory),
    }
}

/// The line of a record that is refused.
pub fn refused_line(alloc: Global, refusal: Refusal) -> Result<Text, NoMemory>
    ensures { IfOk result (λ text. text ≡ lines.refused_line refusal) }
{
    let shard = refusal.shard;
    let row = refusal.row;
    let rule = refusal.rule;
    let name = rule_name(rule);
    match format!(in alloc; "refused shard={shard} row={row} rule={rule} {name}\n") {
        Ok(text) => Ok(Text::of(text)),
        Err(_) => Err(NoMemory),
    }
}

/// The line of an accepted record whose two lists are one multiset.
pub fn settled_line(alloc: Global, steps: u64) -> Result<Text, NoMemory>
    ensures { IfOk result (λ text. text ≡ lines.settled_line steps) }
{
    match format!(in alloc; "settled run steps={steps}\n") {
        Ok(text) => Ok(Text::of(text)),
        Err(_) => Err(NoMemory),
    }
}

/// The line of an accepted record whose two lists differ: the least tuple that does, how often it is read
/// and how often it is written.
pub fn collision_line(
    alloc: Global,
    tuple: Tuple,
    reads: u64,
    writes: u64,
) -> Result<Text, NoMemory>
    ensures { IfOk result (λ text. text ≡ lines.collision_line tuple reads writes) }
{
    let cell = tuple.cell;
    let value = tuple.value;
    let time = tuple.time;
    match format!(in alloc;
        "settled collision cell={cell} value={value} time={time} reads={reads} writes={writes}\n"
    ) {
        Ok(text) => Ok(Text::of(text)),
        Err(_) => Err(NoMemory),
    }
}

/// A space, a name, an equals sign and a number.
fn push_field(text: &mut String, name: &str, n: u64) -> Result<(), AllocError>
    ensures { OnOk result (string_bytes text.new ≡ string_bytes text.old ++ lines.field name.now n) }
{
    write!(text, " {name}={n}")
}

fn push_counts(text: &mut String, trial: &Trial) -> Result<(), AllocError>
    ensures { OnOk result (string_bytes text.new ≡ lines.with_counts (string_bytes text.old) trial.now) }
{
    push_field(text, "steps", trial.steps)?;
    push_field(text, "shards", u64::from(trial.shards))?;
    push_field(text, "accesses", trial.accesses)?;
    push_field(text, "output", trial.output)?;
    push_field(text, "bytes", trial.bytes)
}

fn trial_text(alloc: Global, number: u32, size: u32, trial: &Trial) -> Result<String, AllocError>
    ensures { IfOk result (λ text. string_bytes text ≡ lines.trial_line number size trial.now) }
{
    let digits = hex::encode(alloc, trial.record)?;
    let mut text = String::new(alloc);
    text.push_str("trial")?;
    push_field(&mut text, "number", u64::from(number))?;
    push_field(&mut text, "size", u64::from(size))?;
    push_counts(&mut text, trial)?;
    text.push_str(" record=")?;
    text.push_str(digits.as_str())?;
    text.push_str(" accepted")?;
    text.push_str("\n")?;
    Ok(text)
}

/// The line of the trial of a number and a size.
pub fn trial_line(alloc: Global, number: u32, size: u32, trial: &Trial) -> Result<Text, NoMemory>
    ensures { IfOk result (λ text. text ≡ lines.trial_line number size trial.now) }
{
    match trial_text(alloc, number, size, trial) {
        Ok(text) => Ok(Text::of(text)),
        Err(_) => Err(NoMemory),
    }
}

/// The line of a record that was cut into so many parts, with so many bytes in all.
pub fn split_line(alloc: Global, parts: u32, bytes: u64) -> Result<Text, NoMemory>
    ensures { IfOk result (λ text. text ≡ lines.split_line parts bytes) }
{
    match format!(in alloc; "split parts={parts} bytes={bytes}\n") {
        Ok(text) => Ok(Text::of(text)),
        Err(_) => Err(NoMemory),
    }
}

/// The line of a record that was upgraded, of so many steps and bytes.
pub fn upgraded_line(alloc: Global, steps: u64, bytes: usize) -> Result<Text, NoMemory>
    ensures { IfOk result (λ text. text ≡ lines.upgraded_line steps bytes) }
{
    match format!(in alloc; "upgraded steps={steps} bytes={bytes}\n") {
        Ok(text) => Ok(Text::of(text)),
        Err(_) => Err(NoMemory),
    }
}

/// A text with the line of a source of so many words behind it, whose executable has so many bytes.
pub fn assembled_lines(
    alloc: Global,
    listing: &str,
    words: usize,
    bytes: usize,
) -> Result<Text, NoMemory>
    ensures { IfOk result (λ text. text ≡ listing.now ++ lines.assembled_line words bytes) }
{
    match format!(in alloc; "{listing}assembled words={words} bytes={bytes}\n") {
        Ok(text) => Ok(Text::of(text)),
        Err(_) => Err(NoMemory),
    }
}

/// The name of a rule of the verdict, as the line of a refusal prints it. A number of no rule has none.
fn rule_name(rule: u8) -> &'static str
    ensures { result.now ≡ name_at rule_names rule }
{
    match rule {
        SHORT => "Short",
        MAGIC => "Magic",
        PROGRAM => "Program",
        INPUT => "Input",
        SHARD_SIZE => "ShardSize",
        COUNTS => "Counts",
        END_KIND => "EndKind",
        OUTPUT_LENGTH => "OutputLength",
        SHARD_HEAD => "ShardHead",
        ROW_SHAPE => "RowShape",
        PC => "Pc",
        SLOT => "Slot",
        CELL => "Cell",
        VALUE => "Value",
        TIME_ORDER => "TimeOrder",
        NEXT => "Next",
        OUTPUT_BYTE => "OutputByte",
        ENDS_EARLY => "EndsEarly",
        END_OTHER => "EndOther",
        ROW_BYTES => "RowBytes",
        SHARD_DIGEST => "ShardDigest",
        TABLE_ORDER => "TableOrder",
        TABLE_CELL => "TableCell",
        TABLE_TIME => "TableTime",
        LEFT => "Left",
        BALANCE => "Balance",
        TRAILING => "Trailing",
        _ => "",
    }
}
