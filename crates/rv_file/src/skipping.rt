//! Going over the parts of a record file, each once, and looking at their form alone.

ghost use Rattle.std.specs.Prelude.{◌≡◌, ◌+◌, ◌-◌, ◌*◌, ◌≤◌, ◌<◌, ◌^◌, length, IfOk, None};
ghost use Rattle.rv_spec.specs.Cells.{is_cell as is_cell_of};
ghost use Rattle.rv_rules.specs.Reading.{above, read_entry};
ghost use Rattle.rv_file.specs.Skipping.{IsViewOf, row_left, rows_left, head_left, digests_left, shard_left, shards_left, entries_left};

use crate::header::rows_of;
use crate::heads::head_fields;
use crate::table::entry_fields;
use rv_base::cells::{REGISTER_CELLS, RESERVATION_CELL};
use rv_base::layout::{DIGESTS_BYTES, ENTRY_BYTES, HEAD_BYTES};
use rv_base::rules::{
    ROW_BYTES, ROW_SHAPE, SHARD_HEAD, SHORT, TABLE_CELL, TABLE_ORDER, TABLE_TIME,
};
use rv_base::{Header, Refusal, ShardHead, TableEntry};
use rv_row::{RowRead, read_row};

fn skip_row(shard: u32, row: u32, bytes: &[u8]) -> Result<&[u8], Refusal>
    ensures exact { IsViewOf (λ x. x.now) result (row_left shard row bytes.now) }
    ensures within { IfOk result (λ x. length x.now ≤ length bytes.now) }
{
    match read_row(bytes) {
        RowRead::Row(_, length) => Ok(&bytes[length..]),
        RowRead::Short => Err(Refusal::at(shard, row, SHORT)),
        RowRead::Shape => Err(Refusal::at(shard, row, ROW_SHAPE)),
    }
}

fn skip_rows(shard: u32, rows: u32, bytes: &[u8]) -> Result<&[u8], Refusal>
    ensures exact { IsViewOf (λ x. x.now) result (rows_left rows shard 0 bytes.now) }
    ensures within { IfOk result (λ x. length x.now ≤ length bytes.now) }
{
    let mut rest = bytes;
    for row in 0..rows {
        rest = skip_row(shard, row, rest)?;
    }
    Ok(rest)
}

fn skip_head(shard: u32, rows: u32, bytes: &[u8]) -> Result<&[u8], Refusal>
    ensures { IsViewOf (λ x. x.now) result (head_left shard rows bytes.now) }
{
    if bytes.len() < HEAD_BYTES {
        return Err(Refusal::at(shard, 0, SHORT));
    }
    let head = head_fields(bytes);
    if head.index != shard || head.rows != rows {
        return Err(Refusal::at(shard, 0, SHARD_HEAD));
    }
    Ok(&bytes[HEAD_BYTES..])
}

/// Goes over the two digests, where the rows before them had this many bytes.
fn skip_digests<'a>(
    shard: u32,
    rows: u32,
    head: &ShardHead,
    size: usize,
    bytes: &'a [u8],
) -> Result<&'a [u8], Refusal>
    ensures { IsViewOf (λ x. x.now) result (digests_left shard rows head.now size bytes.now) }
{
    if size != head.bytes as usize {
        return Err(Refusal::at(shard, rows, ROW_BYTES));
    }
    if bytes.len() < DIGESTS_BYTES {
        return Err(Refusal::at(shard, rows, SHORT));
    }
    Ok(&bytes[DIGESTS_BYTES..])
}

#[tactic(auto, unfolding(crate::specs::Skipping::shard_left))]
fn skip_shard<'a>(h: &Header, shard: u32, bytes: &'a [u8]) -> Result<&'a [u8], Refusal>
    ensures { IsViewOf (λ x. x.now) result (shard_left h.now shard bytes.now) }
{
    let rows = rows_of(h, shard);
    let behind_head = skip_head(shard, rows, bytes)?;
    let behind_rows = skip_rows(shard, rows, behind_head)?;
    let size = behind_head.len() - behind_rows.len();
    skip_digests(shard, rows, &head_fields(bytes), size, behind_rows)
}

/// Goes over all shards.
pub(crate) fn skip_shards<'a>(h: &Header, bytes: &'a [u8]) -> Result<&'a [u8], Refusal>
    ensures { IsViewOf (λ x. x.now) result (shards_left h.now.shards h.now 0 bytes.now) }
{
    let mut rest = bytes;
    for shard in 0..h.shards {
        rest = skip_shard(h, shard, rest)?;
    }
    Ok(rest)
}

/// Whether a number is that of a cell in this version.
fn is_cell(version: u8, cell: u32) -> bool
    ensures { result ≡ is_cell_of version cell }
{
    cell < REGISTER_CELLS
        || REGISTER_CELLS < cell && cell < RESERVATION_CELL
        || version == 2 && cell == RESERVATION_CELL
}

/// Whether a cell is greater than that of the entry before, if there is one.
fn is_above(before: Option<u32>, cell: u32) -> bool
    ensures { result ≡ above before cell }
{
    match before {
        None => true,
        Some(last) => last < cell,
    }
}

fn entry<'a>(
    h: &Header,
    j: u32,
    before: Option<u32>,
    bytes: &'a [u8],
) -> Result<(TableEntry, &'a [u8]), Refusal>
    ensures { IsViewOf (λ x. (x.0, x.1.now)) result (read_entry h.now j before bytes.now) }
{
    if bytes.len() < ENTRY_BYTES {
        return Err(Refusal::at(h.shards, j, SHORT));
    }
    let entry = entry_fields(bytes);
    if !is_above(before, entry.cell) {
        return Err(Refusal::at(h.shards, j, TABLE_ORDER));
    }
    if !is_cell(h.version, entry.cell) {
        return Err(Refusal::at(h.shards, j, TABLE_CELL));
    }
    if entry.time == 0 {
        return Err(Refusal::at(h.shards, j, TABLE_TIME));
    }
    Ok((entry, &bytes[ENTRY_BYTES..]))
}

/// Goes over the entries of the table.
pub(crate) fn skip_entries<'a>(h: &Header, count: u32, bytes: &'a [u8]) -> Result<&'a [u8], Refusal>
    ensures { IsViewOf (λ x. x.now) result (entries_left count h.now 0 None bytes.now) }
{
    let mut rest = bytes;
    let mut before = None;
    for j in 0..count {
        let (entry, behind) = entry(h, j, before, rest)?;
        before = Some(entry.cell);
        rest = behind;
    }
    Ok(rest)
}
