//! Rows from bytes.

ghost use Rattle.std.specs.Prelude.{◌≡◌, ℕ, ◌+◌, ◌*◌, ◌≤◌, List, ◌++◌, map, length, drop};
ghost use Rattle.std.specs.List.{range_with_len};
ghost use Rattle.rv_spec.specs.Trace.{Row as Traced};
ghost use Rattle.rv_spec.specs.Record.{row_bytes, row_length};
ghost use Rattle.rv_spec.specs.Grammar.{RowFits};
ghost use Rattle.rv_rules.specs.Reading.{access_of};
ghost use Rattle.rv_row.specs.RowReading.{ReadsRow, SpellsRow, IsRow, OneRow, StaysUnlessFound, found_in};

use crate::rows::{Row, RowFound, RowRead, no_row};
use arrayvec::ArrayVec;
use rv_base::cells::SLOTS;
use rv_base::layout::{
    ACCESS_BYTES, ACCESS_CELL_AT, ACCESS_NEW_AT, ACCESS_OLD_AT, ACCESS_PREV_AT, ACCESS_SLOT_AT,
    ROW_BYTES, ROW_COUNT_AT, ROW_NEXT_AT, ROW_PC_AT,
};
use rv_base::{Access, get32, get64};

/// The access that is spelled by the first 21 bytes: slot (1), cell (4), old (4), prev (8), new (4).
fn read_access(bytes: &[u8]) -> Access
    requires { ACCESS_BYTES ≤ length bytes.now }
    ensures { result ≡ access_of bytes.now }
{
    Access {
        slot: bytes[ACCESS_SLOT_AT],
        cell: get32(bytes, ACCESS_CELL_AT),
        old: get32(bytes, ACCESS_OLD_AT),
        prev: get64(bytes, ACCESS_PREV_AT),
        new: get32(bytes, ACCESS_NEW_AT),
    }
}

/// Puts the accesses of a row, which begin behind its front, in place of others.
fn read_accesses(bytes: &[u8], count: usize, accesses: &mut ArrayVec<Access, SLOTS>)
    requires most { count ≤ SLOTS }
    requires there { ROW_BYTES + ACCESS_BYTES * count ≤ length bytes.now }
    ensures { accesses.new.items ≡ map (λ j. access_of (drop (ROW_BYTES + ACCESS_BYTES * j) bytes.now)) (range_with_len 0 count) }
{
    *accesses = ArrayVec::new();
    for j in 0..count {
        accesses.push(read_access(&bytes[ROW_BYTES + ACCESS_BYTES * j..]));
    }
}

/// Puts the row at the front of the bytes in place of another.
fn front_row(bytes: &[u8], row: &mut Row) -> RowFound
    ensures exact { ReadsRow bytes.now (found_in row.new result) }
    ensures stays { StaysUnlessFound result row.old row.new }
{
    if bytes.len() < ROW_BYTES {
        return RowFound::Short;
    }
    let count = bytes[ROW_COUNT_AT] as usize;
    if count < 1 || count > SLOTS {
        return RowFound::Shape;
    }
    let length = ROW_BYTES + ACCESS_BYTES * count;
    if bytes.len() < length {
        return RowFound::Short;
    }
    row.pc = get32(bytes, ROW_PC_AT);
    row.next = get32(bytes, ROW_NEXT_AT);
    read_accesses(bytes, count, &mut row.accesses);
    RowFound::Row(length)
}

/// Reads the row at the front of the bytes, whatever follows it, and leaves it in place of another: pc (4 bytes), next (4), the number of
/// accesses (1), and 21 bytes for each access. Where there is none, the caller's row stays.
pub fn read_row_into(bytes: &[u8], row: &mut Row) -> RowFound
    ensures exact { ReadsRow bytes.now (found_in row.new result) }
    ensures stays { StaysUnlessFound result row.old row.new }
    // What is read is spelled so.
    ensures spelled { SpellsRow bytes.now (found_in row.new result) }
    // What is spelled so is read, whatever follows.
    ensures only { (r : Traced) (rest : List ℕ) → RowFits r → bytes.now ≡ row_bytes r ++ rest → IsRow (found_in row.new result) r (row_length r) }
{
    front_row(bytes, row)
}

/// Reads the row at the front of the bytes, as [`read_row_into`] does.
pub fn read_row(bytes: &[u8]) -> RowRead
    ensures exact { ReadsRow bytes.now result }
    // What is read is spelled so.
    ensures spelled { SpellsRow bytes.now result }
    // What is spelled so is read, whatever follows.
    ensures only { (r : Traced) (rest : List ℕ) → RowFits r → bytes.now ≡ row_bytes r ++ rest → IsRow result r (row_length r) }
{
    let mut row = no_row();
    match read_row_into(bytes, &mut row) {
        RowFound::Row(length) => RowRead::Row(row, length),
        RowFound::Short => RowRead::Short,
        RowFound::Shape => RowRead::Shape,
    }
}

/// The law of rows: bytes begin with at most one row.
pub fn one_row()
    ensures { OneRow }
{}
