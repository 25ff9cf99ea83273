//! Files of four steps in two shards, with zeros for the digests: they play no part in a file's form.

ghost use Rattle.std.specs.Prelude.{◌≡◌};

use super::*;
use rv_base::layout::{
    ACCESS_BYTES, ACCESS_NEW_AT, ACCESS_OLD_AT, DIGESTS_BYTES, ROW_BYTES, ROW_COUNT_AT, VERSION_AT,
};
use rv_base::{End, Header, ShardHead, set32};
use rv_file::{parse, table_bytes, write_head, write_header};
use std::alloc::Global;
use std::test::Fail;

/// `lr.w x6, (x5)`.
const LOAD_RESERVED: u32 = 0x1002_A32F;

/// A row with one access.
const ONE_ACCESS: usize = ROW_BYTES + ACCESS_BYTES;

/// The old value and the new one of the access of each row.
type Values = [(u32, u32); 4];

fn row(old: u32, new: u32) -> [u8; ONE_ACCESS] {
    let mut bytes = [0; ONE_ACCESS];
    bytes[ROW_COUNT_AT] = 1;
    set32(&mut bytes, ROW_BYTES + ACCESS_OLD_AT, old);
    set32(&mut bytes, ROW_BYTES + ACCESS_NEW_AT, new);
    bytes
}

fn head(index: u32) -> [u8; 32] {
    write_head(&ShardHead {
        index,
        rows: 2,
        pc: 0,
        input: 0,
        output: 0,
        bytes: 60,
    })
}

/// The header of a file of version 1 whose run has an end of this kind.
fn header(kind: u8) -> Header
    ensures { result.version ≡ 1 }
{
    Header {
        version: 1,
        elf: [0; 64],
        input: [0; 64],
        size: 2,
        steps: 4,
        shards: 2,
        end: End { kind, code: 0 },
        consumed: 0,
        length: 0,
    }
}

fn shard(
    file: &mut Vec<u8>,
    index: u32,
    first: (u32, u32),
    last: (u32, u32),
) -> Result<(), NoMemory> {
    file.extend_from_slice(&head(index))?;
    file.extend_from_slice(&row(first.0, first.1))?;
    file.extend_from_slice(&row(last.0, last.1))?;
    file.extend_from_slice(&[0; DIGESTS_BYTES])?;
    Ok(())
}

fn record(alloc: Global, kind: u8, values: &Values) -> Result<Vec<u8>, NoMemory> {
    let mut file = Vec::new(alloc);
    file.extend_from_slice(&write_header(&header(kind)))?;
    shard(&mut file, 0, values[0], values[1])?;
    shard(&mut file, 1, values[2], values[3])?;
    file.extend_from_slice(table_bytes(alloc, &[])?.as_slice())?;
    Ok(file)
}

#[test]
fn what_blocks_an_upgrade(rt: HostRuntime) -> Result<(), Fail> {
    let lr = LOAD_RESERVED;
    let atomic = Some(Blocked::Atomic { word: lr });
    for (kind, values, wanted) in [
        (1, [(0, 0), (0, 0), (0, 0), (lr, lr)], atomic),
        (1, [(0, 0), (0, 0), (0, 0), (lr, 0)], atomic),
        (1, [(lr, lr), (lr, lr), (lr, lr), (0, lr)], None),
        (2, [(0, 0), (0, 0), (0, 0), (lr, lr)], None),
        (0, [(0, 0), (0, 0), (0, 0), (0, 0)], None),
    ] {
        let file = record(rt.alloc(), kind, &values)?;
        assert_eq!(rt; blocked(&parse(&file)?), wanted);
    }
    Ok(())
}

#[test]
fn an_upgraded_file_is_of_version_2(rt: HostRuntime) -> Result<(), Fail> {
    let lr = LOAD_RESERVED;
    for (kind, word) in [(0, 19), (1, lr)] {
        let file = record(rt.alloc(), kind, &[(word, word); 4])?;
        if file.len() <= VERSION_AT {
            return Err("a short file".into());
        }
        let new = upgrade(rt.alloc(), &file)?;
        assert_eq!(rt; new.list().get(..8), Some(b"RV32REC2".as_slice()));
        assert_eq!(rt; new.list().get(8..), file.get(8..));
        assert_eq!(rt; blocked(&parse(new.list())?), Some(Blocked::New));
    }
    Ok(())
}
