//! One pass over the rows and the table of a record file of good form.

ghost use Rattle.std.specs.Prelude.{◌≡◌, ◌≤◌, ◌+◌, ◌^◌, ◌∷◌, [], List, ℕ, IfOk, drop, length, map};
ghost use Rattle.rv_spec.specs.Trace.{Row};
ghost use Rattle.rv_spec.specs.Tuples.{events};
ghost use Rattle.rv_spec.specs.Elf.{image};
ghost use Rattle.rv_spec.specs.Cells.{initial_value};
ghost use Rattle.rv_spec.specs.Record.{Shard, reads, writes};
ghost use Rattle.rv_spec.specs.Grammar.{Spells};
ghost use Rattle.rv_settle.specs.Collecting.{GainsEntries, GainsEvents};
ghost use Rattle.rv_settle.specs.Spelled.{IsWithin, SpellRows, SpellShard, SpellShards, rows_of_all};

use crate::tuples::Tuples;
use rv_base::layout::{DIGESTS_BYTES, HEAD_BYTES, HEADER_BYTES};
use rv_base::limits::SHARD_SIZE_LIMIT;
use rv_base::{Header, NoMemory, TableEntry, Tuple};
use rv_file::{Parsed, rows_of};
use rv_program::Program;
use rv_row::{RowRead, read_row};
use std::alloc::Global;

/// The bytes behind the first n.
fn behind(bytes: &[u8], n: usize) -> &[u8]
    ensures { result.now ≡ drop n bytes.now }
{
    bytes.get(n..).unwrap_or(&[])
}

/// Adds the tuples of some rows, the first of which is that of a step. Answers the bytes behind the rows.
fn collect_rows<'a>(
    tuples: &mut Tuples,
    step: u64,
    rows: u32,
    bytes: &'a [u8],
) -> Result<&'a [u8], NoMemory>
    requires { step + rows ≤ 2 ^ 32 }
    ensures { IfOk result (λ x. (rs : List Row) (rest : List ℕ) → length rs ≡ rows → SpellRows rs bytes.now rest
        → (x.now ≡ rest) × GainsEvents tuples.old tuples.new (events step rs)) }
{
    let mut rest = bytes;
    for row in 0..rows {
        let RowRead::Row(read, length) = read_row(rest) else {
            return Ok(rest);
        };
        tuples.add_row(step + u64::from(row), read.accesses.as_slice())?;
        rest = behind(rest, length);
    }
    Ok(rest)
}

/// Adds the tuples of a shard, whose first row is that of a step. Answers the bytes behind the shard.
fn collect_shard<'a>(
    tuples: &mut Tuples,
    step: u64,
    rows: u32,
    bytes: &'a [u8],
) -> Result<&'a [u8], NoMemory>
    requires { step + rows ≤ 2 ^ 32 }
    ensures { IfOk result (λ x. (h : Header) (i : ℕ) (s : Shard) (rest : List ℕ) → rows ≡ s.head.rows → SpellShard h i s bytes.now rest
        → (x.now ≡ rest) × GainsEvents tuples.old tuples.new (events step s.rows)) }
{
    let rest = collect_rows(tuples, step, rows, behind(bytes, HEAD_BYTES))?;
    Ok(behind(rest, DIGESTS_BYTES))
}

/// Adds the tuples of all shards.
fn collect_shards(tuples: &mut Tuples, h: &Header, bytes: &[u8]) -> Result<(), NoMemory>
    requires { IsWithin h.now }
    ensures { IfOk result (λ _. (ss : List Shard) (rest : List ℕ) → SpellShards h.now ss bytes.now rest
        → GainsEvents tuples.old tuples.new (events 0 (rows_of_all ss))) }
{
    let mut rest = bytes;
    let mut step = 0;
    for shard in 0..h.shards {
        let rows = rows_of(h, shard);
        rest = collect_shard(tuples, step, rows, rest)?;
        step += u64::from(rows);
    }
    Ok(())
}

/// Adds what an entry of the table reads at the end, and writes before the first step.
fn collect_entry(
    tuples: &mut Tuples,
    program: &Program<'_>,
    entry: &TableEntry,
) -> Result<(), NoMemory>
    ensures { IfOk result (λ _. (version : ℕ) → GainsEntries (initial_value (image version program.now.elf)) tuples.old tuples.new (entry.now ∷ [])) }
{
    let last = Tuple {
        cell: entry.cell,
        value: entry.value,
        time: entry.time,
    };
    let first = Tuple {
        cell: entry.cell,
        value: program.initial_value(entry.cell),
        time: 0,
    };
    tuples.add(last, first)
}

/// Adds the tuples of the table.
fn collect_table(
    tuples: &mut Tuples,
    program: &Program<'_>,
    parsed: &Parsed<'_>,
) -> Result<(), NoMemory>
    ensures { IfOk result (λ _. (version : ℕ) → GainsEntries (initial_value (image version program.now.elf)) tuples.old tuples.new parsed.now.table) }
{
    for j in 0..parsed.entries() {
        let Some(entry) = parsed.entry(j) else {
            unreachable!();
        };
        collect_entry(tuples, program, &entry)?;
    }
    Ok(())
}

/// All that a record file reads and all that it writes, over the initial values of the program: the file's parts are those that it spells.
pub(crate) fn collect(
    alloc: Global,
    program: &Program<'_>,
    file: &[u8],
    parsed: &Parsed<'_>,
) -> Result<Tuples, NoMemory>
    requires { Spells parsed.now file.now }
    ensures reads { IfOk result (λ t. t.reads.items ≡ reads parsed.now) }
    ensures writes { IfOk result (λ t. t.writes.items ≡ writes (image parsed.now.header.version program.now.elf) parsed.now) }
{
    let header = parsed.header();
    let mut tuples = Tuples::new(alloc);
    let shards = behind(file, HEADER_BYTES + header.length as usize);
    collect_shards(&mut tuples, &header, shards)?;
    collect_table(&mut tuples, program, parsed)?;
    Ok(tuples)
}
