//! Worked runs: what memory holds along the way, and the table at the end.

use crate::{Memory, TableEntry};
use rv_elf::read;
use std::test::Fail;

/// The front of an executable with three instructions at 0x10000.
const FRONT: [u8; 84] = [
    0x7F, 0x45, 0x4C, 0x46, 1, 1, 1, 0, 0, 0, 0, 0, 0, 0, 0, 0, //
    2, 0, 243, 0, 1, 0, 0, 0, 0, 0, 1, 0, 52, 0, 0, 0, //
    0, 0, 0, 0, 0, 0, 0, 0, 52, 0, 32, 0, 1, 0, 0, 0, //
    0, 0, 0, 0, 1, 0, 0, 0, 84, 0, 0, 0, 0, 0, 1, 0, //
    0, 0, 1, 0, 12, 0, 0, 0, 12, 0, 0, 0, 7, 0, 0, 0, //
    4, 0, 0, 0,
];

/// `addi x10, x0, 42`, `addi x17, x0, 93`, `ecall`
const EXIT: [u8; 12] = [
    0x13, 0x05, 0xA0, 0x02, 0x93, 0x08, 0xD0, 0x05, 0x73, 0, 0, 0,
];

/// `lui x5, 0x10`, `sw x6, 4(x5)`, `jal x0, -4`
const STORE_ONTO_ITSELF: [u8; 12] = [
    0xB7, 0x02, 0x01, 0, 0x23, 0xA2, 0x62, 0, 0x6F, 0xF0, 0xDF, 0xFF,
];

fn executable(code: &[u8; 12]) -> [u8; 96] {
    let mut file = [0; 96];
    file[..84].copy_from_slice(&FRONT);
    file[84..].copy_from_slice(code);
    file
}

#[test]
fn holds_what_was_stored_last(rt: HostRuntime) -> Result<(), Fail> {
    let file = executable(&STORE_ONTO_ITSELF);
    let image = read(&file)?;
    let mut memory = Memory::new(rt.alloc(), &image);
    assert_eq!(rt; memory.get(0x4001), (0x0062_A223, 0));
    memory.set(0x4001, 0x0062_A223, 17)?;
    memory.set(0x4001, 0, 22)?;
    assert_eq!(rt; memory.get(0x4000), (0x0001_02B7, 0));
    assert_eq!(rt; memory.get(0x4001), (0, 22));
    assert_eq!(rt; memory.get(0x4002), (0xFFDF_F06F, 0));
    Ok(())
}

#[test]
fn reaches_from_end_to_end(rt: HostRuntime) -> Result<(), Fail> {
    let file = executable(&EXIT);
    let image = read(&file)?;
    let mut memory = Memory::new(rt.alloc(), &image);
    assert_eq!(rt; memory.get(0x4000_0002), (0x7FFF_F000, 0));
    assert_eq!(rt; memory.get(0x4000_0020), (0, 0));
    memory.set(0x4000_0020, 0x20001, 40)?;
    memory.set(0x3FFF_FFFF, 8, 38)?;
    memory.set(0, 9, 54)?;
    assert_eq!(rt; memory.get(0x4000_0020), (0x20001, 40));
    assert_eq!(rt; memory.get(0x3FFF_FFFF), (8, 38));
    assert_eq!(rt; memory.get(0), (9, 54));
    assert_eq!(rt; memory.get(1), (0, 0));
    Ok(())
}

#[test]
fn lists_the_table_of_a_run(rt: HostRuntime) -> Result<(), Fail> {
    let file = executable(&EXIT);
    let image = read(&file)?;
    let mut memory = Memory::new(rt.alloc(), &image);
    memory.set(0x4000, 0x02A0_0513, 1)?;
    memory.set(0x4000_000A, 42, 7)?;
    memory.set(0x4001, 0x05D0_0893, 17)?;
    memory.set(0x4000_0011, 93, 23)?;
    memory.set(0x4002, 0x73, 33)?;
    memory.set(0x4000_0011, 93, 34)?;
    memory.set(0x4000_000A, 42, 35)?;
    let table = memory.touched()?;
    let expected = [
        (0x4000, 0x02A0_0513, 1),
        (0x4001, 0x05D0_0893, 17),
        (0x4002, 0x73, 33),
        (0x4000_000A, 42, 35),
        (0x4000_0011, 93, 34),
    ]
    .map(|(cell, value, time)| TableEntry { cell, value, time });
    assert_eq!(rt; table.as_slice(), expected.as_slice());
    Ok(())
}
