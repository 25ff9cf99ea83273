use super::*;
use rv_base::{End, Refusal, TableEntry};
use std::alloc::{AllocError, Global};
use std::test::Fail;

/// The numbers in the header of the worked program's record: 3 rows a shard, 3 steps, 1 shard, exit with 42.
const NUMBERS: [u8; 37] = [
    3, 0, 0, 0, 3, 0, 0, 0, 0, 0, 0, 0, 1, 0, 0, 0, 0, 42, 0, 0, 0, 0, 0, 0, 0, 0, 0, 0, 0, 0, 0,
    0, 0, 0, 0, 0, 0,
];

/// Shard 0: 3 rows from 0x10000 on, of 174 bytes.
const HEAD: [u8; 32] = [
    0, 0, 0, 0, 3, 0, 0, 0, 0, 0, 1, 0, 0, 0, 0, 0, 0, 0, 0, 0, 0, 0, 0, 0, 0, 0, 0, 0, 174, 0, 0,
    0,
];

/// Its rows, of 51, 51 and 72 bytes: each has pc, next and number of accesses, and then the accesses.
const ROWS: [u8; 174] = [
    0, 0, 1, 0, 4, 0, 1, 0, 2, 1, 0, 64, 0, 0, 19, 5, 160, 2, 0, 0, 0, 0, 0, 0, 0, 0, 19, 5, 160,
    2, 7, 10, 0, 0, 64, 0, 0, 0, 0, 0, 0, 0, 0, 0, 0, 0, 0, 42, 0, 0, 0, 4, 0, 1, 0, 8, 0, 1, 0, 2,
    1, 1, 64, 0, 0, 147, 8, 208, 5, 0, 0, 0, 0, 0, 0, 0, 0, 147, 8, 208, 5, 7, 17, 0, 0, 64, 0, 0,
    0, 0, 0, 0, 0, 0, 0, 0, 0, 0, 93, 0, 0, 0, 8, 0, 1, 0, 8, 0, 1, 0, 3, 1, 2, 64, 0, 0, 115, 0,
    0, 0, 0, 0, 0, 0, 0, 0, 0, 0, 115, 0, 0, 0, 2, 17, 0, 0, 64, 93, 0, 0, 0, 23, 0, 0, 0, 0, 0, 0,
    0, 93, 0, 0, 0, 3, 10, 0, 0, 64, 42, 0, 0, 0, 7, 0, 0, 0, 0, 0, 0, 0, 42, 0, 0, 0,
];

const TABLE: [TableEntry; 5] = [
    TableEntry {
        cell: 0x4000,
        value: 0x2a00513,
        time: 1,
    },
    TableEntry {
        cell: 0x4001,
        value: 0x5d00893,
        time: 17,
    },
    TableEntry {
        cell: 0x4002,
        value: 115,
        time: 33,
    },
    TableEntry {
        cell: 0x4000000a,
        value: 42,
        time: 35,
    },
    TableEntry {
        cell: 0x40000011,
        value: 93,
        time: 34,
    },
];

/// The record of the worked program, with zeros for its hashes and digests.
fn record(alloc: Global, table: &[u8]) -> Result<Vec<u8>, AllocError> {
    let mut file = Vec::new(alloc);
    file.extend_from_slice(b"RV32REC1")?;
    file.extend_from_slice(&[0; 128])?;
    file.extend_from_slice(&NUMBERS)?;
    file.extend_from_slice(&HEAD)?;
    file.extend_from_slice(&ROWS)?;
    file.extend_from_slice(&[0; 256])?;
    file.extend_from_slice(table)?;
    Ok(file)
}

/// The table's bytes: the number of entries, and the entries.
fn table(alloc: Global, entries: &[TableEntry]) -> Result<Vec<u8>, AllocError> {
    let mut bytes = Vec::new(alloc);
    bytes.extend_from_slice(&[entries.len().min(255) as u8, 0, 0, 0])?;
    for e in entries {
        bytes.extend_from_slice(&e.cell.to_le_bytes())?;
        bytes.extend_from_slice(&e.value.to_le_bytes())?;
        bytes.extend_from_slice(&e.time.to_le_bytes())?;
    }
    Ok(bytes)
}

/// What parsing refuses, if anything.
fn refusal(file: &[u8]) -> Option<Refusal> {
    match parse(file) {
        Ok(_) => None,
        Err(refusal) => Some(refusal),
    }
}

/// Changes the highest bit of a byte, and tells what is refused then.
fn refusal_of_changed(file: &mut [u8], at: usize) -> Option<Refusal> {
    if at < file.len() {
        file[at] ^= 0x80;
    }
    let refused = refusal(file);
    if at < file.len() {
        file[at] ^= 0x80;
    }
    refused
}

fn refused(shard: u32, row: u32, rule: u8) -> Option<Refusal> {
    Some(Refusal { shard, row, rule })
}

#[test]
fn the_first_header(rt: HostRuntime) -> Result<(), Fail> {
    let file = record(rt.alloc(), &table(rt.alloc(), &TABLE)?)?;
    assert_eq!(rt; file.len(), 719);
    let header = parse(&file)?.header();
    assert_eq!(rt; header.version, 1);
    assert_eq!(rt; header.size, 3);
    assert_eq!(rt; header.steps, 3);
    assert_eq!(rt; header.shards, 1);
    assert_eq!(rt; header.end, End { kind: 0, code: 42 });
    let front = file.first_chunk::<173>().ok_or("short")?;
    assert_eq!(rt; write_header(&header), *front);
    assert_eq!(rt; read_header(front), Some(header));
    assert_eq!(rt; front_len(front), 173);
    assert_eq!(rt; broken_number(&header), None);
    assert_eq!(rt; rows_of(&header, 0), 3);
    assert_eq!(rt; rows_of(&header, 1), 0);
    Ok(())
}

#[test]
fn the_first_parts(rt: HostRuntime) -> Result<(), Fail> {
    let bytes = table(rt.alloc(), &TABLE)?;
    assert_eq!(rt; table_bytes(rt.alloc(), &TABLE)?, bytes);
    let file = record(rt.alloc(), &bytes)?;
    let parsed = parse(&file)?;
    assert!(rt; parsed.output().is_empty());
    assert_eq!(rt; Some(parsed.body()), file.get(173..));
    assert_eq!(rt; parsed.shard(0), file.get(173..635));
    assert!(rt; parsed.shard(1).is_none());
    assert_eq!(rt; write_head(&read_head(&HEAD)), HEAD);
    assert_eq!(rt; parsed.entries(), 5);
    assert_eq!(rt; parsed.entry(4), Some(TABLE[4]));
    assert_eq!(rt; parsed.entry(5), None);
    form_is_grammar();
    no_proper_prefix();
    Ok(())
}

#[test]
fn cut_records(rt: HostRuntime) -> Result<(), Fail> {
    let file = record(rt.alloc(), &table(rt.alloc(), &TABLE)?)?;
    for cut in 0..719u32 {
        let wanted = match cut {
            0..=255 => refused(0, 0, 1),
            256..=306 => refused(0, 1, 1),
            307..=378 => refused(0, 2, 1),
            379..=634 => refused(0, 3, 1),
            635..=654 => refused(1, 0, 1),
            _ => refused(1, ((cut + 1) / 16).saturating_sub(40), 1),
        };
        let front = file.get(..cut as usize).ok_or("short")?;
        assert_eq!(rt; refusal(front), wanted, "cut to {cut}");
    }
    Ok(())
}

#[test]
fn changed_records(rt: HostRuntime) -> Result<(), Fail> {
    let mut file = record(rt.alloc(), &table(rt.alloc(), &TABLE)?)?;
    for (from, to, shard, row, rule) in [
        (0usize, 7usize, 0, 0, 2),
        (138, 139, 0, 0, 5),
        (140, 151, 0, 0, 6),
        (152, 152, 0, 0, 7),
        (165, 165, 0, 0, 9),
        (166, 167, 0, 0, 1),
        (168, 172, 0, 0, 8),
        (173, 180, 0, 0, 9),
        (201, 204, 0, 3, 20),
        (213, 213, 0, 0, 10),
        (264, 264, 0, 1, 10),
        (315, 315, 0, 2, 10),
        (635, 638, 1, 5, 1),
        (639, 641, 1, 1, 22),
        (642, 642, 1, 0, 23),
        (655, 657, 1, 2, 22),
        (658, 658, 1, 1, 23),
        (674, 674, 1, 2, 23),
        (687, 690, 1, 3, 23),
        (703, 706, 1, 4, 23),
    ] {
        for at in from..=to {
            assert_eq!(rt;
                refusal_of_changed(&mut file, at),
                refused(shard, row, rule),
                "byte {at}"
            );
        }
    }
    Ok(())
}

#[test]
fn other_records(rt: HostRuntime) -> Result<(), Fail> {
    let mut file = record(rt.alloc(), &table(rt.alloc(), &TABLE)?)?;
    assert_eq!(rt; file.len(), 719);
    file[7] = b'2';
    assert_eq!(rt; parse(&file)?.header().version, 2);
    file[7] = b'3';
    assert_eq!(rt; refusal(&file), refused(0, 0, 2));
    file[7] = b'1';
    file.push(0)?;
    assert_eq!(rt; refusal(&file), refused(1, 5, 27));
    assert_eq!(rt; refusal(&[]), refused(0, 0, 1));
    let [a, b, c, d, e] = TABLE;
    let exchanged = table(rt.alloc(), &[b, a, c, d, e])?;
    assert_eq!(rt;
        refusal(&record(rt.alloc(), &exchanged)?),
        refused(1, 1, 22)
    );
    let untimed = TableEntry {
        cell: 0x40000012,
        value: 0,
        time: 0,
    };
    let longer = table(rt.alloc(), &[a, b, c, d, e, untimed])?;
    assert_eq!(rt; refusal(&record(rt.alloc(), &longer)?), refused(1, 5, 24));
    Ok(())
}
