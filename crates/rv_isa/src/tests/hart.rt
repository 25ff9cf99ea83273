//! Rows of worked runs, with the times of their accesses, and the cells at the end.

ghost use Rattle.std.specs.Prelude.{◌≤◌, length, IfOk};

use super::machine::{EXITS, OVERWRITE, file_of};
use crate::hart::Hart;
use rv_base::machine::{EXIT, ILLEGAL_WORD};
use rv_base::{Access, End, Place, TableEntry};
use rv_elf::read;
use rv_row::{Row, no_row};
use std::test::Fail;

/// The accesses of `add x2, x2, x2` as the first step: slot, cell, old value, time of the use before, new value.
const ADDITION: [(u8, u32, u32, u64, u32); 4] = [
    (1, 0x4000, 0x0021_0133, 0, 0x0021_0133),
    (2, 0x4000_0002, 0x7FFF_F000, 0, 0x7FFF_F000),
    (3, 0x4000_0002, 0x7FFF_F000, 2, 0x7FFF_F000),
    (7, 0x4000_0002, 0x7FFF_F000, 3, 0xFFFF_E000),
];

/// Those of a store onto its own word as the second step.
const OVERWRITING: [(u8, u32, u32, u64, u32); 4] = [
    (1, 0x4001, 0x0062_A223, 0, 0x0062_A223),
    (2, 0x4000_0005, 0x10000, 7, 0x10000),
    (3, 0x4000_0006, 0, 0, 0),
    (6, 0x4001, 0x0062_A223, 17, 0),
];

/// The cells after a run of three steps that exits with 42: cell, value, time of the last use.
const LAST: [(u32, u32, u64); 5] = [
    (0x4000, 0x02A0_0513, 1),
    (0x4001, 0x05D0_0893, 17),
    (0x4002, 0x73, 33),
    (0x4000_000A, 42, 35),
    (0x4000_0011, 93, 34),
];

fn is_row(row: &Row, pc: u32, next: u32, accesses: &[(u8, u32, u32, u64, u32)]) -> bool {
    let same = accesses
        .iter()
        .map(|(slot, cell, old, prev, new)| Access {
            slot: *slot,
            cell: *cell,
            old: *old,
            prev: *prev,
            new: *new,
        })
        .eq(row.accesses.iter().copied());
    row.pc == pc && row.next == next && same
}

#[test]
fn rows_have_times(rt: HostRuntime) -> Result<(), Fail> {
    let file = file_of(rt.alloc(), &[0x0021_0133])?;
    let image = read(file.as_slice())?;
    let mut hart = Hart::start(rt.alloc(), &image, &[]);
    let mut row = no_row();
    let first = hart.step(0, &mut row)?;
    assert!(rt; is_row(&row, 0x10000, 0x10004, &ADDITION));
    assert!(rt; first.end.is_none());
    let second = hart.step(1, &mut row)?;
    assert!(rt; is_row(&row, 0x10004, 0x10004, &[(1, 0x4001, 0, 0, 0)]));
    assert!(rt;
        second.end
            == Some(End {
                kind: ILLEGAL_WORD,
                code: 0
            })
    );
    Ok(())
}

#[test]
fn a_fetch_sees_a_store(rt: HostRuntime) -> Result<(), Fail> {
    let file = file_of(rt.alloc(), &OVERWRITE)?;
    let image = read(file.as_slice())?;
    let mut hart = Hart::start(rt.alloc(), &image, &[]);
    let mut row = no_row();
    hart.step(0, &mut row)?;
    hart.step(1, &mut row)?;
    assert!(rt; is_row(&row, 0x10004, 0x10008, &OVERWRITING));
    hart.step(2, &mut row)?;
    hart.step(3, &mut row)?;
    assert!(rt; is_row(&row, 0x10004, 0x10004, &[(1, 0x4001, 0, 22, 0)]));
    Ok(())
}

#[test]
fn a_run_is_taken_up_from_its_cells(rt: HostRuntime) -> Result<(), Fail> {
    let file = file_of(rt.alloc(), &EXITS)?;
    let image = read(file.as_slice())?;
    let mut hart = Hart::start(rt.alloc(), &image, &[]);
    let mut row = no_row();
    hart.step(0, &mut row)?;
    hart.step(1, &mut row)?;
    let place = Place {
        pc: hart.pc(),
        input: hart.position(),
        output: 0,
    };
    let cells = hart.touched()?;
    let mut later = Hart::resume(rt.alloc(), &image, &[], place, cells.as_slice())?;
    let exit = later.step(2, &mut row)?;
    assert!(rt;
        exit.end
            == Some(End {
                kind: EXIT,
                code: 42
            })
    );
    let table = later.touched()?;
    let expected = LAST.map(|(cell, value, time)| TableEntry { cell, value, time });
    assert_eq!(rt; table.as_slice(), expected.as_slice());
    Ok(())
}
