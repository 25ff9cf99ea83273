//! The record of a run, put together from its pieces and written.

ghost use Rattle.std.specs.Prelude.{◌≡◌, ℕ, ◌≤◌, List, [], ◌∷◌, ◌++◌, IfOk, IfSome, None, length as length_of};
ghost use Rattle.std.specs.List.{flat_map};
ghost use Rattle.std.specs.Int.{IsInRange, div_ceil};
ghost use Rattle.rv_base.specs.declared.record.Verdict.TheVariants.{Accept};
ghost use Rattle.rv_spec.specs.Elf.{Image, first_fault};
ghost use Rattle.rv_spec.specs.Digest.{sha_lanes};
ghost use Rattle.rv_spec.specs.Record.{header, header_bytes, table_bytes as spelled_table};
ghost use Rattle.rv_spec.specs.Conclusion.{HasRecord};
ghost use Rattle.rv_rules.specs.Verdict.{verdict};
ghost use Rattle.rv_point.specs.PointsState.{HasNoSurvey};
ghost use Rattle.rv_plan.specs.Endings.{IsWritten};
ghost use Rattle.rv_plan.specs.FileCalls.{PerformsBehind};
ghost use Rattle.rv_commands.specs.Commands.{make_words};
ghost use Rattle.rv_commands.specs.Making.{recorded, shards_due, IsEnded, IsNoSurvey, Records};
ghost use Rattle.rv_commands.specs.Outcome.{make_plan};

use crate::commands::Make;
use crate::lines::made_line;
use rv_base::layout::HEADER_BYTES;
use rv_base::limits::{BUDGET_LIMIT, RECORD_LIMIT, SHARD_SIZE_LIMIT};
use rv_base::{End, Header, NoMemory, TableEntry};
use rv_elf::laws::image_is_program;
use rv_file::{table_bytes, write_header};
use rv_host::Shelf;
use rv_isa::laws::ranges;
use rv_judge::laws::verdicts_conclude;
use rv_length::record_lengths;
use rv_plan::{DueFile, Fault, Limited, Loaded, Told, write_files};
use rv_point::RunFault;
use rv_point::laws::pieces;
use sha2::{Digest, Sha512};
use std::alloc::Global;

/// A run that ended within its budget, in as many shards as a record may have.
#[derive(Clone, Copy)]
pub struct Ended<'a> {
    /// The steps, the ending one counted.
    pub steps: u64,
    pub shards: u32,
    pub end: End,
    /// How many bytes of the input the run took.
    pub consumed: u64,
    /// The bytes that the run put.
    pub output: &'a [u8],
    /// The cells that the run used, by rising number, with their last values and times.
    pub table: &'a [TableEntry],
}

/// Puts the record of a run together with the bytes of its shards, writes it to its file, and tells of it. All memory is taken
/// before the file is touched.
pub fn write_run<S: Shelf>(
    alloc: Global,
    shelf: &mut S,
    words: &Make<'_>,
    loaded: &Loaded,
    ended: &Ended<'_>,
    shards: &[&[u8]],
) -> Result<Told, Fault>
    requires version { IsInRange 1 2 words.now.version }
    requires shard { IsInRange 1 SHARD_SIZE_LIMIT words.now.shard }
    requires budget { words.now.budget ≤ BUDGET_LIMIT }
    requires faultless { first_fault loaded.now.elf ≡ None }
    requires ended { IsEnded (make_words words.now) loaded.now.elf loaded.now.input ended.now }
    requires shards { flat_map (λ s. s.now) shards.now ≡ shards_due (make_words words.now) loaded.now.elf loaded.now.input ended.now.steps }
    ensures { Records (make_words words.now) loaded.now.elf loaded.now.input (S.view shelf.old) (S.view shelf.new) result }
{
    pieces();
    record_is_accepted(words, loaded.elf.list(), loaded.input.list(), ended);
    let front = front_of(words, loaded, ended);
    let Some(table) = table_of(alloc, ended.table) else {
        return Err(Fault::Memory);
    };
    let Ok(parts) = parts_of(alloc, &front, ended.output, shards, table.as_slice()) else {
        return Err(Fault::Memory);
    };
    let told = write_parts(alloc, shelf, words, loaded, ended, parts.as_slice())?;
    Ok(told)
}

/// Writes the record of a run, which these parts spell, and tells of it. All memory is taken before the file is touched.
fn write_parts<'x, S: Shelf>(
    alloc: Global,
    shelf: &mut S,
    words: &Make<'x>,
    loaded: &Loaded,
    ended: &Ended<'_>,
    parts: &'x [&'x [u8]],
) -> Result<Told, Fault>
    requires ended { IsEnded (make_words words.now) loaded.now.elf loaded.now.input ended.now }
    requires parts { flat_map (λ part. part.now) parts.now ≡ recorded (make_words words.now) loaded.now.elf loaded.now.input ended.now }
    ensures performs { PerformsBehind (make_plan (make_words words.now) loaded.now.elf loaded.now.input) (S.view shelf.old) (S.view shelf.new) result }
    ensures written { IfOk result (λ _. IsWritten ((words.now.«record».now, recorded (make_words words.now) loaded.now.elf loaded.now.input ended.now) ∷ []) (S.view shelf.old) (S.view shelf.new)) }
{
    let Some(bytes) = length(parts) else {
        return Err(Fault::Memory);
    };
    let Ok(text) = made_line(alloc, ended.steps, ended.shards, ended.end, bytes) else {
        return Err(Fault::Memory);
    };
    let file = DueFile {
        name: words.record,
        parts,
    };
    write_files(shelf, &[file])?;
    Ok(Told { status: 0, text })
}

/// The 173 bytes of the header of the record of a run.
fn front_of(words: &Make<'_>, loaded: &Loaded, ended: &Ended<'_>) -> [u8; HEADER_BYTES]
    requires version { IsInRange 1 2 words.now.version }
    requires ended { IsEnded (make_words words.now) loaded.now.elf loaded.now.input ended.now }
    ensures { result ≡ header_bytes (header words.now.version loaded.now.elf loaded.now.input words.now.shard ended.now.steps ended.now.end) }
{
    write_header(&header_of(words, loaded, ended))
}

/// The header of the record of a run.
fn header_of(words: &Make<'_>, loaded: &Loaded, ended: &Ended<'_>) -> Header
    requires { IsEnded (make_words words.now) loaded.now.elf loaded.now.input ended.now }
    ensures { result ≡ header words.now.version loaded.now.elf loaded.now.input words.now.shard ended.now.steps ended.now.end }
{
    Header {
        version: words.version,
        elf: Sha512::digest(loaded.elf.list()),
        input: Sha512::digest(loaded.input.list()),
        size: words.shard,
        steps: ended.steps,
        shards: ended.shards,
        end: ended.end,
        consumed: ended.consumed,
        length: ended.output.len() as u64,
    }
}

/// The bytes of a table. A table of 2^32 entries has no count that could be written.
fn table_of(alloc: Global, entries: &[TableEntry]) -> Option<Vec<u8>>
    ensures { IfSome result (λ bytes. bytes.items ≡ spelled_table entries.now) }
{
    if u32::try_from(entries.len()).is_err() {
        return None;
    }
    table_bytes(alloc, entries).ok()
}

/// The parts of a record, in order, each to be added by one call: header, output, shards and table.
fn parts_of<'b, 's: 'b>(
    alloc: Global,
    front: &'b [u8],
    output: &'b [u8],
    shards: &[&'s [u8]],
    table: &'b [u8],
) -> Result<Vec<&'b [u8]>, NoMemory>
    ensures { IfOk result (λ parts. flat_map (λ part. part.now) parts.items ≡ front.now ++ output.now ++ flat_map (λ part. part.now) shards.now ++ table.now) }
{
    let mut parts = Vec::new(alloc);
    parts.push(front)?;
    parts.push(output)?;
    for shard in shards {
        parts.push(*shard)?;
    }
    parts.push(table)?;
    Ok(parts)
}

/// The number of bytes of all parts, where it is below 2^64.
pub fn length(parts: &[&[u8]]) -> Option<u64>
    ensures { IfSome result (λ bytes. bytes ≡ length_of (flat_map (λ part. part.now) parts.now)) }
{
    let mut bytes: u64 = 0;
    for part in parts {
        bytes = bytes.checked_add(part.len() as u64)?;
    }
    Some(bytes)
}

/// The law of what is made: the run has a record within its limits, which is accepted and can be held whole.
fn record_is_accepted(words: &Make<'_>, elf: &[u8], input: &[u8], ended: &Ended<'_>)
    requires version { IsInRange 1 2 words.now.version }
    requires shard { IsInRange 1 SHARD_SIZE_LIMIT words.now.shard }
    requires budget { words.now.budget ≤ BUDGET_LIMIT }
    requires faultless { first_fault elf.now ≡ None }
    requires ended { IsEnded (make_words words.now) elf.now input.now ended.now }
    ensures has { HasRecord words.now.version elf.now input.now words.now.shard ended.now.steps ended.now.end }
    ensures accepted { verdict sha_lanes elf.now input.now (recorded (make_words words.now) elf.now input.now ended.now) ≡ Accept ended.now.steps (div_ceil ended.now.steps words.now.shard) ended.now.end }
    ensures short { length_of (recorded (make_words words.now) elf.now input.now ended.now) ≤ RECORD_LIMIT }
{
    image_is_program();
    ranges();
    verdicts_conclude();
    record_lengths();
}

/// Why there is no record of a run within a budget, as a fault.
pub fn fault_of(fault: RunFault, budget: u32) -> Fault
    ensures { (i : Image) (input : List ℕ) (size : ℕ) → HasNoSurvey i input size budget fault → IsNoSurvey i input size budget result }
{
    match fault {
        RunFault::Budget => Fault::Budget(budget),
        RunFault::Shards { .. } => Fault::Limit(Limited::Shards),
        RunFault::NoMemory => Fault::Memory,
    }
}
