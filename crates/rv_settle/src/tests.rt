//! Worked records: settled as the run, as a collision, and refused.

use super::*;
use rv_base::{End, Header, TableEntry};
use rv_digest::{SetDigest, ShaLanes, TinyLanes};
use rv_file::{table_bytes, write_header};
use std::alloc::Global;
use std::test::Fail;

/// The program of three instructions at 0x10000: `li a0, 42`, `li a7, 93` and `ecall`.
const ELF: [u8; 96] = [
    0x7F, 0x45, 0x4C, 0x46, 1, 1, 1, 0, 0, 0, 0, 0, 0, 0, 0, 0, //
    2, 0, 243, 0, 1, 0, 0, 0, 0, 0, 1, 0, 52, 0, 0, 0, //
    0, 0, 0, 0, 0, 0, 0, 0, 52, 0, 32, 0, 1, 0, 0, 0, //
    0, 0, 0, 0, 1, 0, 0, 0, 84, 0, 0, 0, 0, 0, 1, 0, //
    0, 0, 1, 0, 12, 0, 0, 0, 12, 0, 0, 0, 7, 0, 0, 0, //
    4, 0, 0, 0, 0x13, 0x05, 0xA0, 0x02, 0x93, 0x08, 0xD0, 0x05, 0x73, 0, 0, 0,
];

/// The head of its only shard: 3 rows from 0x10000 on, of 174 bytes.
const HEAD: [u8; 32] = [
    0, 0, 0, 0, 3, 0, 0, 0, 0, 0, 1, 0, 0, 0, 0, 0, 0, 0, 0, 0, 0, 0, 0, 0, 0, 0, 0, 0, 174, 0, 0,
    0,
];

/// The rows, of 51, 51 and 72 bytes: each has pc, next and number of accesses, and then the accesses.
const ROWS: [u8; 174] = [
    0, 0, 1, 0, 4, 0, 1, 0, 2, 1, 0, 64, 0, 0, 19, 5, 160, 2, 0, 0, 0, 0, 0, 0, 0, 0, 19, 5, 160,
    2, 7, 10, 0, 0, 64, 0, 0, 0, 0, 0, 0, 0, 0, 0, 0, 0, 0, 42, 0, 0, 0, 4, 0, 1, 0, 8, 0, 1, 0, 2,
    1, 1, 64, 0, 0, 147, 8, 208, 5, 0, 0, 0, 0, 0, 0, 0, 0, 147, 8, 208, 5, 7, 17, 0, 0, 64, 0, 0,
    0, 0, 0, 0, 0, 0, 0, 0, 0, 0, 93, 0, 0, 0, 8, 0, 1, 0, 8, 0, 1, 0, 3, 1, 2, 64, 0, 0, 115, 0,
    0, 0, 0, 0, 0, 0, 0, 0, 0, 0, 115, 0, 0, 0, 2, 17, 0, 0, 64, 93, 0, 0, 0, 23, 0, 0, 0, 0, 0, 0,
    0, 93, 0, 0, 0, 3, 10, 0, 0, 64, 42, 0, 0, 0, 7, 0, 0, 0, 0, 0, 0, 0, 42, 0, 0, 0,
];

fn tuple(cell: u32, value: u32, time: u64) -> Tuple {
    Tuple { cell, value, time }
}

/// What the rows read, in their order.
fn reads() -> [Tuple; 7] {
    [
        tuple(0x4000, 0x2A0_0513, 0),
        tuple(0x4000_000A, 0, 0),
        tuple(0x4001, 0x5D0_0893, 0),
        tuple(0x4000_0011, 0, 0),
        tuple(0x4002, 0x73, 0),
        tuple(0x4000_0011, 93, 23),
        tuple(0x4000_000A, 42, 7),
    ]
}

/// What they write.
fn writes() -> [Tuple; 7] {
    [
        tuple(0x4000, 0x2A0_0513, 1),
        tuple(0x4000_000A, 42, 7),
        tuple(0x4001, 0x5D0_0893, 17),
        tuple(0x4000_0011, 93, 23),
        tuple(0x4002, 0x73, 33),
        tuple(0x4000_0011, 93, 34),
        tuple(0x4000_000A, 42, 35),
    ]
}

fn entry(cell: u32, value: u32, time: u64) -> TableEntry {
    TableEntry { cell, value, time }
}

/// The bytes of a digest of no tuples, which is each digest under the lanes for tests.
const NONE: [u8; 128] = [0; 128];

/// The record of the run in one shard with these digests, where x10 is the code at the end: 42 in the run.
fn record(
    alloc: Global,
    program: &Program<'_>,
    code: u8,
    reads: &[u8; 128],
    writes: &[u8; 128],
) -> Result<Vec<u8>, NoMemory> {
    let value = u32::from(code);
    let header = Header {
        version: 1,
        elf: program.elf_hash(),
        input: program.input_hash(),
        size: 3,
        steps: 3,
        shards: 1,
        end: End {
            kind: 0,
            code: value,
        },
        consumed: 0,
        length: 0,
    };
    let mut rows = ROWS;
    rows[158] = code;
    rows[170] = code;
    let table = [
        entry(0x4000, 0x2A0_0513, 1),
        entry(0x4001, 0x5D0_0893, 17),
        entry(0x4002, 0x73, 33),
        entry(0x4000_000A, value, 35),
        entry(0x4000_0011, 93, 34),
    ];
    let mut file = Vec::new(alloc);
    file.extend_from_slice(&write_header(&header))?;
    file.extend_from_slice(&HEAD)?;
    file.extend_from_slice(&rows)?;
    file.extend_from_slice(reads)?;
    file.extend_from_slice(writes)?;
    file.extend_from_slice(table_bytes(alloc, &table)?.as_slice())?;
    Ok(file)
}

/// The bytes of the digest of some tuples.
fn digest(tuples: &[Tuple]) -> [u8; 128] {
    let mut digest = SetDigest::zero();
    digest.add_tuples(&ShaLanes, tuples);
    digest.to_bytes()
}

#[test]
fn the_record_is_the_run(rt: HostRuntime) -> Result<(), Fail> {
    let program = Program::open(&ELF, &[])?;
    let file = record(
        rt.alloc(),
        &program,
        42,
        &digest(&reads()),
        &digest(&writes()),
    )?;
    assert_eq!(rt; file.len(), 719);
    let settled = settle(rt.alloc(), &program, &file, ShaLanes)?;
    assert_eq!(rt; settled, Settled::Run { steps: 3 });
    Ok(())
}

#[test]
fn one_digest_of_two_multisets(rt: HostRuntime) -> Result<(), Fail> {
    let program = Program::open(&ELF, &[])?;
    let file = record(rt.alloc(), &program, 43, &NONE, &NONE)?;
    let differ = Differ {
        tuple: tuple(0x4000_000A, 42, 7),
        reads: 0,
        writes: 1,
    };
    let settled = settle(rt.alloc(), &program, &file, TinyLanes)?;
    assert_eq!(rt; settled, Settled::Collision(differ));
    let of_the_run = record(rt.alloc(), &program, 42, &NONE, &NONE)?;
    let settled = settle(rt.alloc(), &program, &of_the_run, TinyLanes)?;
    assert_eq!(rt; settled, Settled::Run { steps: 3 });
    Ok(())
}

#[test]
fn what_is_refused(rt: HostRuntime) -> Result<(), Fail> {
    let program = Program::open(&ELF, &[])?;
    let mut file = record(rt.alloc(), &program, 42, &NONE, &NONE)?;
    let digests = Refusal::at(0, 3, 21);
    let settled = settle(rt.alloc(), &program, &file, ShaLanes)?;
    assert_eq!(rt; settled, Settled::Refused(digests));
    file.push(0)?;
    let trailing = Refusal::at(1, 5, 27);
    let settled = settle(rt.alloc(), &program, &file, TinyLanes)?;
    assert_eq!(rt; settled, Settled::Refused(trailing));
    let other = Program::open(&ELF, &[0])?;
    let input = Refusal::at(0, 0, 4);
    let settled = settle(rt.alloc(), &other, &file, TinyLanes)?;
    assert_eq!(rt; settled, Settled::Refused(input));
    Ok(())
}
