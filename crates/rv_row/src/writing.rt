//! Rows to bytes.

ghost use Rattle.std.specs.Prelude.{◌≡◌, ◌+◌, ◌*◌, ◌≤◌, ◌++◌, length, take, OnOk, OnErr};
ghost use Rattle.std.specs.List.{flat_map};
ghost use Rattle.rv_spec.specs.Record.{access_bytes, row_bytes, row_length};
ghost use Rattle.rv_row.specs.RowReading.{row_view};

use crate::rows::Row;
use rv_base::layout::{
    ACCESS_BYTES, ACCESS_CELL_AT, ACCESS_NEW_AT, ACCESS_OLD_AT, ACCESS_PREV_AT, ROW_BYTES,
    ROW_COUNT_AT, ROW_NEXT_AT, ROW_PC_AT,
};
use rv_base::{Access, NoMemory, set32, set64};

/// Writes the 21 bytes of an access at a place.
fn write_access(bytes: &mut [u8], at: usize, access: &Access)
    requires { at + ACCESS_BYTES ≤ length bytes.old }
    ensures { take (at + ACCESS_BYTES) bytes.new ≡ take at bytes.old ++ access_bytes access.now }
{
    bytes[at] = access.slot;
    set32(bytes, at + ACCESS_CELL_AT, access.cell);
    set32(bytes, at + ACCESS_OLD_AT, access.old);
    set64(bytes, at + ACCESS_PREV_AT, access.prev);
    set32(bytes, at + ACCESS_NEW_AT, access.new);
}

/// Writes accesses one after another, behind a row's front.
fn write_accesses(bytes: &mut [u8], accesses: &[Access])
    requires { ROW_BYTES + ACCESS_BYTES * length accesses.now ≤ length bytes.old }
    ensures { take (ROW_BYTES + ACCESS_BYTES * length accesses.now) bytes.new ≡ take ROW_BYTES bytes.old ++ flat_map access_bytes accesses.now }
{
    for (j, access) in accesses.iter().enumerate() {
        write_access(bytes, ROW_BYTES + ACCESS_BYTES * j, access);
    }
}

/// Writes the bytes of a row, of as many bytes.
fn fill_row(bytes: &mut [u8], row: &Row)
    requires { length bytes.old ≡ row_length (row_view row.now) }
    ensures { bytes.new ≡ row_bytes (row_view row.now) }
{
    let accesses = row.accesses.as_slice();
    set32(bytes, ROW_PC_AT, row.pc);
    set32(bytes, ROW_NEXT_AT, row.next);
    bytes[ROW_COUNT_AT] = accesses.len() as u8;
    write_accesses(bytes, accesses);
}

/// Appends the bytes of a row: pc (4 bytes), next (4), the number of accesses (1), and 21 bytes for each access. After a refusal `to` is as it was.
pub fn write_row(row: &Row, to: &mut Vec<u8>) -> Result<(), NoMemory>
    requires { 1 ≤ length row.now.accesses.items }
    ensures ok { OnOk result (to.new.items ≡ to.old.items ++ row_bytes (row_view row.now)) }
    ensures err { OnErr result (to.new.items ≡ to.old.items) }
{
    let at = to.len();
    to.resize(at + ROW_BYTES + ACCESS_BYTES * row.accesses.len(), 0)?;
    // In place: bytes that are written one by one, and then copied by many, would be waited for.
    fill_row(&mut to[at..], row);
    Ok(())
}
