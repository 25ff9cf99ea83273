//! The record of a run of three instructions.

ghost use Rattle.std.specs.Prelude.{◌≡◌};

use rv_base::{End, Header, ShardHead, TableEntry, Tuple};
use rv_digest::{SetDigest, ShaLanes};
use rv_file::{write_head, write_header};
use rv_program::Program;
use std::alloc::{AllocError, Global};

/// The program of three instructions at 0x10000: `li a0, 42`, `li a7, 93` and `ecall`.
pub const ELF: [u8; 96] = [
    0x7F, 0x45, 0x4C, 0x46, 1, 1, 1, 0, 0, 0, 0, 0, 0, 0, 0, 0, //
    2, 0, 243, 0, 1, 0, 0, 0, 0, 0, 1, 0, 52, 0, 0, 0, //
    0, 0, 0, 0, 0, 0, 0, 0, 52, 0, 32, 0, 1, 0, 0, 0, //
    0, 0, 0, 0, 1, 0, 0, 0, 84, 0, 0, 0, 0, 0, 1, 0, //
    0, 0, 1, 0, 12, 0, 0, 0, 12, 0, 0, 0, 7, 0, 0, 0, //
    4, 0, 0, 0, 0x13, 0x05, 0xA0, 0x02, 0x93, 0x08, 0xD0, 0x05, 0x73, 0, 0, 0,
];

/// Its rows, of 51, 51 and 72 bytes: each has pc, next and number of accesses, and then the accesses.
const ROWS: [u8; 174] = [
    0, 0, 1, 0, 4, 0, 1, 0, 2, 1, 0, 64, 0, 0, 19, 5, 160, 2, 0, 0, 0, 0, 0, 0, 0, 0, 19, 5, 160,
    2, 7, 10, 0, 0, 64, 0, 0, 0, 0, 0, 0, 0, 0, 0, 0, 0, 0, 42, 0, 0, 0, 4, 0, 1, 0, 8, 0, 1, 0, 2,
    1, 1, 64, 0, 0, 147, 8, 208, 5, 0, 0, 0, 0, 0, 0, 0, 0, 147, 8, 208, 5, 7, 17, 0, 0, 64, 0, 0,
    0, 0, 0, 0, 0, 0, 0, 0, 0, 0, 93, 0, 0, 0, 8, 0, 1, 0, 8, 0, 1, 0, 3, 1, 2, 64, 0, 0, 115, 0,
    0, 0, 0, 0, 0, 0, 0, 0, 0, 0, 115, 0, 0, 0, 2, 17, 0, 0, 64, 93, 0, 0, 0, 23, 0, 0, 0, 0, 0, 0,
    0, 93, 0, 0, 0, 3, 10, 0, 0, 64, 42, 0, 0, 0, 7, 0, 0, 0, 0, 0, 0, 0, 42, 0, 0, 0,
];

/// What the rows read, and what they write.
const READS: [Tuple; 7] = [
    Tuple {
        cell: 0x4000,
        value: 0x02A0_0513,
        time: 0,
    },
    Tuple {
        cell: 0x4000_000A,
        value: 0,
        time: 0,
    },
    Tuple {
        cell: 0x4001,
        value: 0x05D0_0893,
        time: 0,
    },
    Tuple {
        cell: 0x4000_0011,
        value: 0,
        time: 0,
    },
    Tuple {
        cell: 0x4002,
        value: 0x73,
        time: 0,
    },
    Tuple {
        cell: 0x4000_0011,
        value: 93,
        time: 23,
    },
    Tuple {
        cell: 0x4000_000A,
        value: 42,
        time: 7,
    },
];

const WRITES: [Tuple; 7] = [
    Tuple {
        cell: 0x4000,
        value: 0x02A0_0513,
        time: 1,
    },
    Tuple {
        cell: 0x4000_000A,
        value: 42,
        time: 7,
    },
    Tuple {
        cell: 0x4001,
        value: 0x05D0_0893,
        time: 17,
    },
    Tuple {
        cell: 0x4000_0011,
        value: 93,
        time: 23,
    },
    Tuple {
        cell: 0x4002,
        value: 0x73,
        time: 33,
    },
    Tuple {
        cell: 0x4000_0011,
        value: 93,
        time: 34,
    },
    Tuple {
        cell: 0x4000_000A,
        value: 42,
        time: 35,
    },
];

const TABLE: [TableEntry; 5] = [
    TableEntry {
        cell: 0x4000,
        value: 0x02A0_0513,
        time: 1,
    },
    TableEntry {
        cell: 0x4001,
        value: 0x05D0_0893,
        time: 17,
    },
    TableEntry {
        cell: 0x4002,
        value: 0x73,
        time: 33,
    },
    TableEntry {
        cell: 0x4000_000A,
        value: 42,
        time: 35,
    },
    TableEntry {
        cell: 0x4000_0011,
        value: 93,
        time: 34,
    },
];

/// The header of the record in three shards.
fn header_of(program: &Program<'_>) -> Header
    ensures { result.version ≡ 1 }
{
    Header {
        version: 1,
        elf: program.elf_hash(),
        input: program.input_hash(),
        size: 1,
        steps: 3,
        shards: 3,
        end: End { kind: 0, code: 42 },
        consumed: 0,
        length: 0,
    }
}

fn digest(tuples: &[Tuple]) -> [u8; 128] {
    let mut digest = SetDigest::zero();
    digest.add_tuples(&ShaLanes, tuples);
    digest.to_bytes()
}

/// Appends a shard: its index, its first pc, and its rows with their number and their tuples.
fn push_shard(
    file: &mut Vec<u8>,
    place: (u32, u32),
    rows: (u32, &[u8]),
    reads: &[Tuple],
    writes: &[Tuple],
) -> Result<(), AllocError> {
    let head = ShardHead {
        index: place.0,
        rows: rows.0,
        pc: place.1,
        input: 0,
        output: 0,
        bytes: rows.1.len().min(255) as u32,
    };
    file.extend_from_slice(&write_head(&head))?;
    file.extend_from_slice(rows.1)?;
    file.extend_from_slice(&digest(reads))?;
    file.extend_from_slice(&digest(writes))?;
    Ok(())
}

/// Appends the number of the table's entries, and the entries.
fn push_table(file: &mut Vec<u8>, entries: &[TableEntry]) -> Result<(), AllocError> {
    file.extend_from_slice(&[entries.len().min(255) as u8, 0, 0, 0])?;
    for e in entries {
        file.extend_from_slice(&e.cell.to_le_bytes())?;
        file.extend_from_slice(&e.value.to_le_bytes())?;
        file.extend_from_slice(&e.time.to_le_bytes())?;
    }
    Ok(())
}

/// The record in three shards.
pub fn record_in_three(alloc: Global, program: &Program<'_>) -> Result<Vec<u8>, AllocError> {
    let mut file = Vec::new(alloc);
    file.extend_from_slice(&write_header(&header_of(program)))?;
    push_shard(
        &mut file,
        (0, 0x10000),
        (1, &ROWS[..51]),
        &READS[..2],
        &WRITES[..2],
    )?;
    push_shard(
        &mut file,
        (1, 0x10004),
        (1, &ROWS[51..102]),
        &READS[2..4],
        &WRITES[2..4],
    )?;
    push_shard(
        &mut file,
        (2, 0x10008),
        (1, &ROWS[102..]),
        &READS[4..],
        &WRITES[4..],
    )?;
    push_table(&mut file, &TABLE)?;
    Ok(file)
}
