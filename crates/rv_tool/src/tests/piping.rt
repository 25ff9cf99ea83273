//! `pipe`: what it writes and prints is what `make` does.

use super::programs::{COUNT, PROGRAM, of_code, spelled};
use super::running::{GREETING, RESERVING};
use super::{expect, expect_by_team, shelf_with, words_of};
use crate::{needs_team, tool};
use rv_host::{Gate, HoldGate, MemShelf, MemSink, OpenGate};
use std::process::Abort;
use std::sync::Wait;
use std::sync::atomic::{AtomicBool, Ordering};
use std::test::Fail;
use std::thread::Threads;

/// The line of the record of `PROGRAM` in shards of one row.
const IN_THREE: &str = "made steps=3 shards=3 end=0 code=42 bytes=1295\n";

/// Makes `alone` by `make`, and `piped` by each of the pipes: both tell `printed`, and hold the same bytes.
fn expect_as_made<R: Abort + AllocGlobal + Threads + Wait + Sync>(
    rt: &R,
    shelf: &mut MemShelf,
    make: &str,
    pipes: &[&str],
    printed: &str,
) -> Result<(), Fail> {
    expect(rt, make, shelf, 0, printed)?;
    for line in pipes {
        shelf.put("piped", b"")?;
        expect_by_team(rt, *line, shelf, 0, printed)?;
        assert!(rt; shelf.file("piped").is_some(), "{line}");
        assert!(rt; shelf.file("piped") == shelf.file("alone"), "{line}");
    }
    Ok(())
}

#[test]
fn any_workers_and_any_that_wait(rt: HostRuntime) -> Result<(), Fail> {
    let pipes = [
        "pipe elf input piped 2 1 3 1",
        "pipe elf input piped 3 1 3 2",
        "pipe elf input piped 2 1 3 64",
        "pipe elf input piped 64 1 3 1",
        "pipe elf input piped 64 1 3 64",
    ];
    let mut shelf = shelf_with(&rt, &PROGRAM)?;
    let make = "make elf input alone 1 1 3";
    expect_as_made(&rt, &mut shelf, make, &pipes, IN_THREE)
}

#[test]
fn programs_that_end_in_other_ways(rt: HostRuntime) -> Result<(), Fail> {
    let runs = [
        (
            GREETING.as_slice(),
            "make elf input alone 1 16 100",
            "pipe elf input piped 2 16 100 1",
            "made steps=8 shards=1 end=0 code=3 bytes=1231\n",
        ),
        // jalr x1, 2(x0): its target is misaligned
        (
            &[0xE7, 0, 0x20, 0],
            "make elf input alone 1 1 1",
            "pipe elf input piped 2 1 1 1",
            "made steps=1 shards=1 end=3 code=0 bytes=511\n",
        ),
        // a record of version 1, of which the second word is illegal
        (
            RESERVING.as_slice(),
            "make elf input alone 1 4 4",
            "pipe elf input piped 4 4 4 2",
            "made steps=2 shards=1 end=1 code=0 bytes=594\n",
        ),
    ];
    for (code, make, pipe, printed) in runs {
        let mut shelf = shelf_with(&rt, &of_code(&rt, code)?)?;
        expect_as_made(&rt, &mut shelf, make, &[pipe], printed)?;
    }
    Ok(())
}

#[test]
fn a_compiled_program(rt: HostRuntime) -> Result<(), Fail> {
    let mut shelf = shelf_with(&rt, &spelled(&rt, &COUNT)?)?;
    shelf.put("input", b"one two\nthree\n")?;
    let mut sink = MemSink::new(rt.alloc());
    let mut printed = MemSink::new(rt.alloc());
    let make = words_of(&rt, "make elf input alone 2 7 2000")?;
    let pipe = words_of(&rt, "pipe elf input piped 3 7 2000 2")?;
    assert_eq!(rt;
        tool(&rt, rt.alloc(), &make, &mut shelf, &mut sink, &OpenGate),
        0
    );
    assert_eq!(rt;
        tool(&rt, rt.alloc(), &pipe, &mut shelf, &mut printed, &OpenGate),
        0
    );
    assert!(rt; printed.bytes() == sink.bytes());
    assert!(rt; shelf.file("piped").is_some());
    assert!(rt; shelf.file("piped") == shelf.file("alone"));
    Ok(())
}

/// Pipes the record of `PROGRAM` through a gate by two workers, and compares it with that of `make`.
fn expect_through<G: Gate, R: Abort + AllocGlobal + Threads + Wait + Sync>(
    rt: &R,
    line: &str,
    gate: &G,
) -> Result<(), Fail> {
    let mut shelf = shelf_with(rt, &PROGRAM)?;
    expect(rt, "make elf input alone 1 1 3", &mut shelf, 0, IN_THREE)?;
    let words = words_of(rt, line)?;
    assert!(rt; needs_team(&words), "{line}");
    let mut sink = MemSink::new(rt.alloc());
    assert_eq!(rt;
        tool(rt, rt.alloc(), &words, &mut shelf, &mut sink, gate),
        0
    );
    assert_eq!(rt; sink.bytes(), IN_THREE.as_bytes());
    assert!(rt; shelf.file("piped").is_some());
    assert!(rt; shelf.file("piped") == shelf.file("alone"));
    Ok(())
}

#[test]
fn two_workers_meet(rt: HostRuntime) -> Result<(), Fail> {
    let gate = HoldGate::new(1_000_000_000);
    expect_through(&rt, "pipe elf input piped 2 1 3 1", &gate)?;
    assert!(rt; gate.met());
    Ok(())
}

/// Holds the walk over the run before shard 2 until worker 1 has passed.
#[derive(Drop)]
struct HoldsWalk {
    has_passed: AtomicBool,
    is_worn_out: AtomicBool,
}

impl Gate for HoldsWalk {
    fn pass(&self, worker: u32, shard: u32) {
        if worker == 1 {
            self.has_passed.store(true, Ordering::SeqCst);
        }
        if worker != 64 || shard != 2 {
            return;
        }
        for _ in 0..1_000_000_000u32 {
            if self.has_passed.load(Ordering::SeqCst) {
                return;
            }
        }
        self.is_worn_out.store(true, Ordering::SeqCst);
    }
}

#[test]
fn a_shard_is_made_while_the_run_is_gone_through(rt: HostRuntime) -> Result<(), Fail> {
    let gate = HoldsWalk {
        has_passed: AtomicBool::new(false),
        is_worn_out: AtomicBool::new(false),
    };
    expect_through(&rt, "pipe elf input piped 2 1 3 64", &gate)?;
    assert!(rt; !gate.is_worn_out.load(Ordering::SeqCst));
    Ok(())
}

#[test]
fn runs_without_a_record(rt: HostRuntime) -> Result<(), Fail> {
    let mut shelf = shelf_with(&rt, &PROGRAM)?;
    // two shards are made before the budget is over
    for line in [
        "pipe elf input record 2 1 2 1",
        "pipe elf input record 64 1 2 64",
    ] {
        expect_by_team(&rt, line, &mut shelf, 4, "fault budget 2\n")?;
        assert!(rt; shelf.file("record").is_none(), "{line}");
    }
    shelf.put("elf", b"\x7FELF")?;
    expect_by_team(
        &rt,
        "pipe elf input record 2 1 3 1",
        &mut shelf,
        3,
        "fault elf 1 Short\n",
    )?;
    assert!(rt; shelf.file("record").is_none());
    Ok(())
}

#[test]
fn more_shards_than_a_record_has(rt: HostRuntime) -> Result<(), Fail> {
    // a loop of 65,537 steps in all
    let counting = [
        0xB7, 0x82, 0, 0, 0x93, 0x82, 0xF2, 0xFF, 0x93, 0x82, 0xF2, 0xFF, 0xE3, 0x9E, 0x02, 0xFE,
    ];
    let mut shelf = shelf_with(&rt, &of_code(&rt, &counting)?)?;
    expect_by_team(
        &rt,
        "pipe elf input record 4 1 100000 64",
        &mut shelf,
        8,
        "fault limit shards\n",
    )?;
    assert!(rt; shelf.file("record").is_none());
    Ok(())
}
