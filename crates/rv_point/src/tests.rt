//! Worked runs, with values that were made by hand.

ghost use Rattle.std.specs.Prelude.{◌≤◌, length, IfOk};
ghost use Rattle.std.specs.Int.{IsInRange};

use super::*;
use rv_base::limits::{BUDGET_LIMIT, SHARD_SIZE_LIMIT};
use rv_base::machine::EXIT;
use rv_base::{End, Place, TableEntry};
use rv_elf::{Part, read, write};
use std::alloc::Global;
use std::test::Fail;

/// `addi x10, x0, 42`, and an exit.
const EXITS: [u32; 3] = [0x02A0_0513, 0x05D0_0893, 0x73];

/// A loop of 65,536 steps, behind which the word 0 ends the run.
const LOOP: [u32; 4] = [0x0000_82B7, 0xFFF2_8293, 0xFFF2_8293, 0xFE02_9EE3];

/// The executable of some words at 0x10000.
fn file_of(alloc: Global, words: &[u32]) -> Result<Vec<u8>, Fail>
    requires { length words.now ≤ 100 }
    ensures { IfOk result (λ file. length file.items ≤ 1000) }
{
    let mut bytes = Vec::new(alloc);
    for word in words {
        bytes.extend_from_slice(&word.to_le_bytes())?;
    }
    let len = 4 * words.len() as u32;
    let part = Part {
        addr: 0x10000,
        len,
        size: len,
    };
    Ok(write(alloc, 0x10000, &[part], bytes.as_slice())?)
}

/// How many shards the run of some words has, or why it isn't given.
fn shards(
    alloc: Global,
    words: &[u32],
    size: u32,
    budget: u64,
) -> Result<Result<u32, RunFault>, Fail>
    requires few { length words.now ≤ 100 }
    requires size { IsInRange 1 SHARD_SIZE_LIMIT size }
    requires budget { IsInRange 1 BUDGET_LIMIT budget }
{
    let file = file_of(alloc, words)?;
    let image = read(file.as_slice())?;
    match survey(alloc, &image, &[], size, budget) {
        Ok(points) => Ok(Ok(points.shards())),
        Err(fault) => Ok(Err(fault)),
    }
}

fn entry(cell: u32, value: u32, time: u64) -> TableEntry {
    TableEntry { cell, value, time }
}

#[test]
fn worked_run(rt: HostRuntime) -> Result<(), Fail> {
    let file = file_of(rt.alloc(), &EXITS)?;
    let image = read(file.as_slice())?;
    let found = survey(rt.alloc(), &image, &[], 1, 3);
    assert!(&rt; found.is_ok());
    if let Ok(points) = found {
        assert_eq!(&rt; points.steps(), 3);
        assert_eq!(&rt; points.shards(), 3);
        assert_eq!(&rt;
            points.end(),
            End {
                kind: EXIT,
                code: 42
            }
        );
        assert_eq!(&rt; points.consumed(), 0);
        assert!(&rt; points.output().is_empty());
        assert_eq!(&rt; points.size(), 1);
        assert!(&rt; points.input().is_empty());
        assert_eq!(&rt; points.image().entry(), 0x10000);
        let table = [
            entry(0x4000, 0x02A0_0513, 1),
            entry(0x4001, 0x05D0_0893, 17),
            entry(0x4002, 0x73, 33),
            entry(0x4000_000A, 42, 35),
            entry(0x4000_0011, 93, 34),
        ];
        assert!(&rt; points.table() == table.as_slice());
        assert!(&rt; points.shard_start(3).is_none());
        if let Some(start) = points.shard_start(2) {
            let cells = [
                entry(0x4002, 0x73, 0),
                entry(0x4000_000A, 42, 7),
                entry(0x4000_0011, 93, 23),
            ];
            assert_eq!(&rt; start.step, 2);
            assert_eq!(&rt;
                start.place,
                Place {
                    pc: 0x10008,
                    input: 0,
                    output: 0
                }
            );
            assert!(&rt; start.cells.list() == cells.as_slice());
        }
    }
    Ok(())
}

#[test]
fn refusals(rt: HostRuntime) -> Result<(), Fail> {
    assert_eq!(&rt; shards(rt.alloc(), &EXITS, 1, 2)?, Err(RunFault::Budget));
    assert_eq!(&rt; shards(rt.alloc(), &LOOP, 2, 100_000)?, Ok(32_769));
    assert_eq!(&rt;
        shards(rt.alloc(), &LOOP, 1, 100_000)?,
        Err(RunFault::Shards { needed: 65_537 })
    );
    Ok(())
}
