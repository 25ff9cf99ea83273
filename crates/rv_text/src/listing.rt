//! Rows of a record file as lines.

ghost use Rattle.std.specs.Prelude.{◌≡◌, ℕ, ◌+◌, ◌*◌, ◌-◌, ◌^◌, ◌<◌, ◌≤◌, List, ◌∷◌, ◌++◌, length, slice_get, string_bytes, Some, IfOk, OnOk};
ghost use Rattle.std.specs.Int.{div_ceil};
ghost use Rattle.std.specs.List.{flat_map, AllByRecursion};
ghost use Rattle.rv_spec.specs.Trace.{Row as Traced};
ghost use Rattle.rv_spec.specs.Record.{Shard, row_bytes, shard_bytes, shard_rows};
ghost use Rattle.rv_spec.specs.Grammar.{RowFits, ShardFits};
ghost use Rattle.rv_row.specs.RowReading.{row_view};
ghost use Rattle.rv_text.specs.Listing.{listing, hex8, word_text as word_text_of, cell_name, stamped, access_line, word_of, step_line, row_lines};
ghost use Rattle.rv_text.specs.Within.{here, lines_within};

use crate::disassembly::{disasm, disasm_atomic};
use arrayvec::ArrayString;
use rv_base::cells::{REGISTER_CELLS, RESERVATION_CELL};
use rv_base::layout::HEAD_BYTES;
use rv_base::{Access, Header, NoMemory, Text, time_of};
use rv_file::{Parsed, behind_shard, rows_of};
use rv_row::{Row, RowRead, read_row};
use std::alloc::{AllocError, Global};
use std::fmt::Write;

/// The version whose words may be of extension A.
const WITH_ATOMICS: u8 = 2;

/// The text of a word in a version.
fn word_text(version: u8, word: u32) -> ArrayString<48>
    ensures { result.bytes ≡ word_text_of version word }
{
    if version == WITH_ATOMICS {
        if let Some(text) = disasm_atomic(word) {
            return text;
        }
    }
    disasm(word)
}

/// Eight hexadecimal digits in lower case.
fn push_hex8(text: &mut String, n: u32) -> Result<(), AllocError>
    ensures { OnOk result (string_bytes text.new ≡ string_bytes text.old ++ hex8 n) }
{
    write!(text, "{n:08x}")
}

/// `m` and the address of a word of memory, `x` and the number of a register, or `c` and the number of the cell.
fn push_cell(text: &mut String, cell: u32) -> Result<(), AllocError>
    ensures { OnOk result (string_bytes text.new ≡ string_bytes text.old ++ cell_name cell) }
{
    if cell < REGISTER_CELLS {
        text.push_str("m")?;
        push_hex8(text, 4 * cell)
    } else if cell < RESERVATION_CELL {
        let register = cell - REGISTER_CELLS;
        write!(text, "x{register}")
    } else {
        write!(text, "c{cell}")
    }
}

/// A blank, a value and a time.
fn push_stamped(text: &mut String, value: u32, time: u64) -> Result<(), AllocError>
    ensures { OnOk result (string_bytes text.new ≡ string_bytes text.old ++ 32 ∷ stamped value time) }
{
    text.push_str(" ")?;
    push_hex8(text, value)?;
    write!(text, "@{time}")
}

fn push_access(text: &mut String, step: u64, access: &Access) -> Result<(), AllocError>
    requires { step < 2 ^ 32 }
    ensures { OnOk result (string_bytes text.new ≡ string_bytes text.old ++ access_line step access.now) }
{
    let slot = access.slot;
    write!(text, "  slot {slot}")?;
    text.push_str(" ")?;
    push_cell(text, access.cell)?;
    push_stamped(text, access.old, access.prev)?;
    let time = time_of(step, slot);
    push_stamped(text, access.new, time)?;
    text.push_str("\n")?;
    Ok(())
}

/// The fetched word.
fn fetched(row: &Row) -> u32
    ensures { result ≡ word_of (row_view row.now).accesses }
{
    match row.accesses.first() {
        Some(access) => access.old,
        None => 0,
    }
}

fn push_step(text: &mut String, version: u8, step: u64, row: &Row) -> Result<(), AllocError>
    ensures { OnOk result (string_bytes text.new ≡ string_bytes text.old ++ step_line version step (row_view row.now)) }
{
    let word = fetched(row);
    write!(text, "step {step}")?;
    text.push_str(" pc ")?;
    push_hex8(text, row.pc)?;
    text.push_str(" word ")?;
    push_hex8(text, word)?;
    text.push_str(" ")?;
    text.push_str(word_text(version, word).as_str())?;
    text.push_str("\n")?;
    Ok(())
}

fn push_row(text: &mut String, version: u8, step: u64, row: &Row) -> Result<(), AllocError>
    requires { step < 2 ^ 32 }
    ensures { OnOk result (string_bytes text.new ≡ string_bytes text.old ++ row_lines version step (row_view row.now)) }
{
    push_step(text, version, step, row)?;
    for access in row.accesses.iter() {
        push_access(text, step, access)?;
    }
    Ok(())
}

/// A row, where its step is from one step to before another.
fn push_within(
    text: &mut String,
    version: u8,
    from: u64,
    until: u64,
    step: u64,
    row: &Row,
) -> Result<(), AllocError>
    requires { step < 2 ^ 32 }
    ensures { OnOk result (string_bytes text.new ≡ string_bytes text.old ++ here version from until step (row_view row.now)) }
{
    if from <= step && step < until {
        return push_row(text, version, step, row);
    }
    Ok(())
}

/// The rows from one step to before another, of those that begin these bytes with a first step.
fn push_rows(
    text: &mut String,
    version: u8,
    from: u64,
    until: u64,
    first: u64,
    rows: u32,
    bytes: &[u8],
) -> Result<(), AllocError>
    requires { first + rows ≤ 2 ^ 32 }
    ensures { (rs : List Traced) (tail : List ℕ) → AllByRecursion RowFits rs → length rs ≡ rows → bytes.now ≡ flat_map row_bytes rs ++ tail
        → OnOk result (string_bytes text.new ≡ string_bytes text.old ++ lines_within version from until first rs) }
{
    let mut rest = bytes;
    for r in 0..rows {
        let RowRead::Row(row, length) = read_row(rest) else {
            return Ok(());
        };
        push_within(text, version, from, until, first + r as u64, &row)?;
        rest = &rest[length..];
    }
    Ok(())
}

/// The rows from one step to before another of shard i, at the front of these bytes.
fn push_shard(
    text: &mut String,
    header: &Header,
    from: u64,
    until: u64,
    i: u32,
    bytes: &[u8],
) -> Result<(), AllocError>
    requires steps { i * header.now.size + shard_rows header.now.size header.now.steps i ≤ 2 ^ 32 }
    requires head { HEAD_BYTES ≤ length bytes.now }
    ensures { (s : Shard) (tail : List ℕ) → ShardFits header.now i s → bytes.now ≡ shard_bytes s ++ tail
        → OnOk result (string_bytes text.new ≡ string_bytes text.old ++ lines_within header.now.version from until (i * header.now.size) s.rows) }
{
    let first = i as u64 * header.size as u64;
    let rows = rows_of(header, i);
    if first + rows as u64 <= from {
        return Ok(());
    }
    push_rows(
        text,
        header.version,
        from,
        until,
        first,
        rows,
        &bytes[HEAD_BYTES..],
    )
}

/// The lines of as many rows from a step on as are there. The heads of the shards before that step are gone over, and the
/// rows of those that have one that is asked for.
fn lines_of(alloc: Global, parsed: &Parsed<'_>, from: u64, count: u32) -> Result<String, AllocError>
    ensures { IfOk result (λ text. string_bytes text ≡ listing parsed.now from count) }
{
    let header = parsed.header();
    let mut rest = parsed.body();
    let mut text = String::new(alloc);
    if from >= header.steps {
        return Ok(text);
    }
    let until = from + count as u64;
    let shards = until.div_ceil(header.size as u64).min(header.shards as u64) as u32;
    for i in 0..shards {
        push_shard(&mut text, &header, from, until, i, rest)?;
        rest = behind_shard(rest);
    }
    Ok(text)
}

/// The lines of as many rows of a file from a step on as are there: a line for the step, with its address, its word and the
/// word's text, and a line for each access, with its slot, its cell, the old value with the previous time and the new value with its own time.
pub fn explain(alloc: Global, parsed: &Parsed<'_>, from: u64, count: u32) -> Result<Text, NoMemory>
    ensures { IfOk result (λ text. text ≡ listing parsed.now from count) }
{
    match lines_of(alloc, parsed, from, count) {
        Ok(text) => Ok(Text::of(text)),
        Err(_) => Err(NoMemory),
    }
}
