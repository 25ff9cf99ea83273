//! A worked record: the program exits with 42 in three steps.

use super::*;
use rv_base::{End, Header, NoMemory, TableEntry};
use rv_file::{parse, table_bytes, write_header};
use std::alloc::Global;
use std::test::Fail;

/// The program of three instructions at 0x10000: `li a0, 42`, `li a7, 93` and `ecall`.
const ELF: [u8; 96] = [
    0x7F, 0x45, 0x4C, 0x46, 1, 1, 1, 0, 0, 0, 0, 0, 0, 0, 0, 0, //
    2, 0, 243, 0, 1, 0, 0, 0, 0, 0, 1, 0, 52, 0, 0, 0, //
    0, 0, 0, 0, 0, 0, 0, 0, 52, 0, 32, 0, 1, 0, 0, 0, //
    0, 0, 0, 0, 1, 0, 0, 0, 84, 0, 0, 0, 0, 0, 1, 0, //
    0, 0, 1, 0, 12, 0, 0, 0, 12, 0, 0, 0, 7, 0, 0, 0, //
    4, 0, 0, 0, 0x13, 0x05, 0xA0, 0x02, 0x93, 0x08, 0xD0, 0x05, 0x73, 0, 0, 0,
];

/// The heads of its two shards: 2 rows from 0x10000 on, of 102 bytes, and 1 row from 0x10008 on, of 72 bytes.
const HEADS: [[u8; 32]; 2] = [
    [
        0, 0, 0, 0, 2, 0, 0, 0, 0, 0, 1, 0, 0, 0, 0, 0, 0, 0, 0, 0, 0, 0, 0, 0, 0, 0, 0, 0, 102, 0,
        0, 0,
    ],
    [
        1, 0, 0, 0, 1, 0, 0, 0, 8, 0, 1, 0, 0, 0, 0, 0, 0, 0, 0, 0, 0, 0, 0, 0, 0, 0, 0, 0, 72, 0,
        0, 0,
    ],
];

/// The rows, of 51, 51 and 72 bytes: each has pc, next and number of accesses, and then the accesses.
const ROWS: [u8; 174] = [
    0, 0, 1, 0, 4, 0, 1, 0, 2, 1, 0, 64, 0, 0, 19, 5, 160, 2, 0, 0, 0, 0, 0, 0, 0, 0, 19, 5, 160,
    2, 7, 10, 0, 0, 64, 0, 0, 0, 0, 0, 0, 0, 0, 0, 0, 0, 0, 42, 0, 0, 0, 4, 0, 1, 0, 8, 0, 1, 0, 2,
    1, 1, 64, 0, 0, 147, 8, 208, 5, 0, 0, 0, 0, 0, 0, 0, 0, 147, 8, 208, 5, 7, 17, 0, 0, 64, 0, 0,
    0, 0, 0, 0, 0, 0, 0, 0, 0, 0, 93, 0, 0, 0, 8, 0, 1, 0, 8, 0, 1, 0, 3, 1, 2, 64, 0, 0, 115, 0,
    0, 0, 0, 0, 0, 0, 0, 0, 0, 0, 115, 0, 0, 0, 2, 17, 0, 0, 64, 93, 0, 0, 0, 23, 0, 0, 0, 0, 0, 0,
    0, 93, 0, 0, 0, 3, 10, 0, 0, 64, 42, 0, 0, 0, 7, 0, 0, 0, 0, 0, 0, 0, 42, 0, 0, 0,
];

/// The cell of the register x10.
const X10: u32 = 0x4000_000A;

/// The cell of the word at 0x10004.
const SECOND_WORD: u32 = 0x4001;

fn entry(cell: u32, value: u32, time: u64) -> TableEntry {
    TableEntry { cell, value, time }
}

/// The record of the run in two shards, with zeros for the digests: they play no part in its form.
fn record(alloc: Global, program: &Program<'_>) -> Result<Vec<u8>, NoMemory> {
    let header = Header {
        version: 1,
        elf: program.elf_hash(),
        input: program.input_hash(),
        size: 2,
        steps: 3,
        shards: 2,
        end: End { kind: 0, code: 42 },
        consumed: 0,
        length: 0,
    };
    let table = [
        entry(0x4000, 0x2A0_0513, 1),
        entry(SECOND_WORD, 0x5D0_0893, 17),
        entry(0x4002, 0x73, 33),
        entry(X10, 42, 35),
        entry(0x4000_0011, 93, 34),
    ];
    let mut file = Vec::new(alloc);
    file.extend_from_slice(&write_header(&header))?;
    file.extend_from_slice(&HEADS[0])?;
    file.extend_from_slice(&ROWS[..102])?;
    file.extend_from_slice(&[0; 256])?;
    file.extend_from_slice(&HEADS[1])?;
    file.extend_from_slice(&ROWS[102..])?;
    file.extend_from_slice(&[0; 256])?;
    file.extend_from_slice(table_bytes(alloc, &table)?.as_slice())?;
    Ok(file)
}

#[test]
fn the_state_before_the_exit(rt: HostRuntime) -> Result<(), Fail> {
    let program = Program::open(&ELF, &[])?;
    let file = record(rt.alloc(), &program)?;
    let parsed = parse(&file)?;
    let mut regs = [0; 32];
    regs[2] = 0x7FFF_F000;
    regs[10] = 0x2A;
    regs[17] = 0x5D;
    let state = Snapshot { pc: 0x10008, regs };
    assert_eq!(rt; state_at(&program, &parsed, 2), Some(state));
    assert_eq!(rt; state_at(&program, &parsed, 3), None);
    Ok(())
}

#[test]
fn cells_before_a_step(rt: HostRuntime) -> Result<(), Fail> {
    let program = Program::open(&ELF, &[])?;
    let file = record(rt.alloc(), &program)?;
    let parsed = parse(&file)?;
    let register = CellSeen {
        value: 0x2A,
        time: 7,
        changed: Some(0),
    };
    assert_eq!(rt; cell_at(&program, &parsed, X10, 2), Some(register));
    let word = CellSeen {
        value: 0x5D0_0893,
        time: 0,
        changed: None,
    };
    assert_eq!(rt; cell_at(&program, &parsed, SECOND_WORD, 1), Some(word));
    assert_eq!(rt; cell_at(&program, &parsed, X10, 3), None);
    Ok(())
}
