//! The table of final values.

ghost use Rattle.std.specs.Prelude.{◌≡◌, ◌<◌, ◌^◌, ◌≤◌, length, IfOk};
ghost use Rattle.rv_spec.specs.Record.{entry_bytes, table_bytes as table_spelling};
ghost use Rattle.rv_rules.specs.Reading.{entry_of};

use rv_base::layout::{COUNT_BYTES, ENTRY_BYTES, ENTRY_CELL_AT, ENTRY_TIME_AT, ENTRY_VALUE_AT};
use rv_base::{NoMemory, TableEntry, get32, get64, set32, set64};
use std::alloc::Global;

/// The 16 bytes of an entry: cell (4), value (4), time (8).
fn write_entry(e: &TableEntry) -> [u8; ENTRY_BYTES]
    ensures { result ≡ entry_bytes e.now }
{
    let mut bytes = [0; ENTRY_BYTES];
    set32(&mut bytes, ENTRY_CELL_AT, e.cell);
    set32(&mut bytes, ENTRY_VALUE_AT, e.value);
    set64(&mut bytes, ENTRY_TIME_AT, e.time);
    bytes
}

/// The bytes of a table: the number of entries (4 bytes), and 16 bytes for each.
pub fn table_bytes(alloc: Global, entries: &[TableEntry]) -> Result<Vec<u8>, NoMemory>
    requires { length entries.now < 2 ^ 32 }
    ensures { IfOk result (λ v. v.items ≡ table_spelling entries.now) }
{
    let mut bytes = Vec::with_capacity(alloc, COUNT_BYTES + ENTRY_BYTES * entries.len())?;
    bytes.extend_from_slice(&(entries.len() as u32).to_le_bytes())?;
    for e in entries {
        bytes.extend_from_slice(&write_entry(e))?;
    }
    Ok(bytes)
}

/// The fields of an entry at the front of the bytes, unchecked.
pub(crate) fn entry_fields(bytes: &[u8]) -> TableEntry
    requires { ENTRY_BYTES ≤ length bytes.now }
    ensures { result ≡ entry_of bytes.now }
{
    TableEntry {
        cell: get32(bytes, ENTRY_CELL_AT),
        value: get32(bytes, ENTRY_VALUE_AT),
        time: get64(bytes, ENTRY_TIME_AT),
    }
}
