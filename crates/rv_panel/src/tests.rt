//! Files judged by teams.

mod tables;
mod worked;

use super::*;
use rv_base::{End, Refusal, TableEntry};
use rv_digest::ShaLanes;
use rv_host::{HoldGate, OpenGate};
use rv_judge::judge;
use rv_program::Program;
use std::alloc::Global;
use std::sync::Wait;
use std::test::Fail;
use std::thread::Threads;
use worked::{ELF, TABLE, TOLD, record, record_in_three};

/// The refusal of a file by two workers, or nothing where it is accepted or `judge` has another verdict.
fn refusal<R: Threads + Wait + Sync>(
    rt: &R,
    alloc: Global,
    program: &Program<'_>,
    file: &[u8],
) -> Result<Option<Refusal>, NoMemory> {
    let verdict = panel(rt, alloc, program, file, &ShaLanes, 2, &OpenGate)?;
    if verdict != judge(program, file, ShaLanes) {
        return Ok(None);
    }
    match verdict {
        Verdict::Refuse(refusal) => Ok(Some(refusal)),
        Verdict::Accept { .. } => Ok(None),
    }
}

fn refused(shard: u32, row: u32, rule: u8) -> Option<Refusal> {
    Some(Refusal { shard, row, rule })
}

fn accepted(shards: u32) -> Verdict {
    Verdict::Accept {
        steps: 3,
        shards,
        end: End { kind: 0, code: 42 },
    }
}

#[test]
fn any_number_of_workers_accepts_the_record(rt: HostRuntime) -> Result<(), Fail> {
    let program = Program::open(&ELF, &[])?;
    let one = record(rt.alloc(), &program, &TOLD, &TABLE)?;
    let three = record_in_three(rt.alloc(), &program)?;
    for workers in 1..5u32 {
        let verdict = panel(
            &rt,
            rt.alloc(),
            &program,
            &one,
            &ShaLanes,
            workers,
            &OpenGate,
        )?;
        assert_eq!(rt; verdict, accepted(1));
        let verdict = panel(
            &rt,
            rt.alloc(),
            &program,
            &three,
            &ShaLanes,
            workers,
            &OpenGate,
        )?;
        assert_eq!(rt; verdict, accepted(3));
    }
    let verdict = panel(&rt, rt.alloc(), &program, &three, &ShaLanes, 64, &OpenGate)?;
    assert_eq!(rt; verdict, accepted(3));
    Ok(())
}

// Each of two workers draws a shard before the other has checked one.
#[test]
fn two_workers_check_side_by_side(rt: HostRuntime) -> Result<(), Fail> {
    let program = Program::open(&ELF, &[])?;
    let file = record_in_three(rt.alloc(), &program)?;
    let gate = HoldGate::new(1_000_000_000);
    let verdict = panel(&rt, rt.alloc(), &program, &file, &ShaLanes, 2, &gate)?;
    assert_eq!(rt; verdict, accepted(3));
    assert!(rt; gate.met());
    Ok(())
}

#[test]
fn files_that_are_no_records(rt: HostRuntime) -> Result<(), Fail> {
    let alloc = rt.alloc();
    let program = Program::open(&ELF, &[])?;
    let mut told = TOLD;
    told.code = 43;
    told.rows[158] = 43;
    told.rows[170] = 43;
    told.reads[6].value = 43;
    told.writes[6].value = 43;
    let mut table = TABLE;
    table[3].value = 43;
    let file = record(alloc, &program, &told, &table)?;
    assert_eq!(rt; refusal(&rt, alloc, &program, &file)?, refused(1, 5, 26));
    let mut told = TOLD;
    told.rows[141] = 34;
    let file = record(alloc, &program, &told, &TABLE)?;
    assert_eq!(rt; refusal(&rt, alloc, &program, &file)?, refused(0, 2, 15));
    let late = TableEntry {
        cell: 0x4000_0012,
        value: 0,
        time: 0,
    };
    let table = [TABLE[0], TABLE[1], TABLE[2], TABLE[3], TABLE[4], late];
    let file = record(alloc, &program, &TOLD, &table)?;
    assert_eq!(rt; refusal(&rt, alloc, &program, &file)?, refused(1, 5, 24));
    let table = [TABLE[1], TABLE[0], TABLE[2], TABLE[3], TABLE[4]];
    let file = record(alloc, &program, &TOLD, &table)?;
    assert_eq!(rt; refusal(&rt, alloc, &program, &file)?, refused(1, 1, 22));
    let mut file = record(alloc, &program, &TOLD, &TABLE)?;
    let other = Program::open(&ELF, &[0])?;
    assert_eq!(rt; refusal(&rt, alloc, &other, &file)?, refused(0, 0, 4));
    file.push(0)?;
    assert_eq!(rt; refusal(&rt, alloc, &program, &file)?, refused(1, 5, 27));
    Ok(())
}

/// The refusal of a file in three shards whose byte is this one.
fn refusal_with<R: Threads + Wait + Sync>(
    rt: &R,
    alloc: Global,
    program: &Program<'_>,
    changes: &[(usize, u8)],
    length: usize,
) -> Result<Option<Refusal>, NoMemory> {
    let mut file = record_in_three(alloc, program)?;
    for &(at, byte) in changes {
        if at < file.len() {
            file[at] = byte;
        }
    }
    file.truncate(length);
    refusal(rt, alloc, program, &file)
}

// Shards begin at 173, 512 and 851. Each head has its pc at 8, and the bytes of its rows at 28.
#[test]
fn heads_that_do_not_follow(rt: HostRuntime) -> Result<(), Fail> {
    let alloc = rt.alloc();
    let program = Program::open(&ELF, &[])?;
    let all = usize::MAX;
    for (changes, length, shard, row, rule) in [
        // another place than the one before it
        ([(520, 8), (520, 8)], 544, 1, 0, 9),
        ([(520, 8), (520, 8)], 543, 1, 0, 1),
        ([(520, 8), (520, 8)], all, 1, 0, 9),
        // rows that are said to end outside of the file
        ([(204, 255), (204, 255)], all, 0, 1, 20),
        ([(543, 255), (543, 255)], all, 1, 1, 20),
        ([(204, 255), (543, 255)], all, 0, 1, 20),
        // the earliest of two shards that break a check
        ([(256, 255), (859, 255)], all, 0, 1, 21),
    ] {
        assert_eq!(rt;
            refusal_with(&rt, alloc, &program, changes.as_slice(), length)?,
            refused(shard, row, rule)
        );
    }
    Ok(())
}
