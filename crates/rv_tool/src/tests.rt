//! Command lines over files in memory: statuses, lines, and what the files hold afterwards.

mod asking;
mod assembling;
mod check_of_made;
mod checking;
mod failing;
mod holding;
mod listing;
mod making;
mod parting;
mod piping;
mod programs;
mod questions;
mod running;
mod sharding;
mod sweeping;
mod trying;
mod upgrading;

use crate::{needs_team, tool, tool_one};
use programs::PROGRAM;
use rv_host::{MemShelf, MemSink, OpenGate};
use std::process::Abort;
use std::sync::Wait;
use std::test::Fail;
use std::thread::Threads;

/// The line of the record of `PROGRAM`.
const MADE: &str = "made steps=3 shards=1 end=0 code=42 bytes=719\n";

/// Files `elf`, with these bytes, and `input`, which is empty.
fn shelf_with<R: AllocGlobal>(rt: &R, elf: &[u8]) -> Result<MemShelf, Fail> {
    let mut shelf = MemShelf::new(rt.alloc());
    shelf.put("elf", elf)?;
    shelf.put("input", b"")?;
    Ok(shelf)
}

/// The words of a line.
fn words_of<R: AllocGlobal>(rt: &R, line: &str) -> Result<Vec<String>, Fail> {
    let mut words = Vec::new(rt.alloc());
    for word in line.split_whitespace() {
        words.push(String::from_str(rt.alloc(), word)?)?;
    }
    Ok(words)
}

/// Runs a command line on one thread, and compares its status and what it prints.
fn expect<R: Abort + AllocGlobal>(
    rt: &R,
    line: &str,
    shelf: &mut MemShelf,
    status: u8,
    printed: &str,
) -> Result<(), Fail> {
    let words = words_of(rt, line)?;
    assert!(rt; !needs_team(&words), "{line}");
    let mut sink = MemSink::new(rt.alloc());
    assert_eq!(rt;
        tool_one(rt.alloc(), &words, shelf, &mut sink),
        status,
        "{line}"
    );
    assert_eq!(rt; sink.bytes(), printed.as_bytes(), "{line}");
    Ok(())
}

/// Runs a command line of several workers, and compares its status and what it prints.
fn expect_by_team<R: Abort + AllocGlobal + Threads + Wait + Sync>(
    rt: &R,
    line: &str,
    shelf: &mut MemShelf,
    status: u8,
    printed: &str,
) -> Result<(), Fail> {
    let words = words_of(rt, line)?;
    assert!(rt; needs_team(&words), "{line}");
    let mut sink = MemSink::new(rt.alloc());
    assert_eq!(rt;
        tool(rt, rt.alloc(), &words, shelf, &mut sink, &OpenGate),
        status,
        "{line}"
    );
    assert_eq!(rt; sink.bytes(), printed.as_bytes(), "{line}");
    Ok(())
}

#[test]
fn words_that_are_no_command(rt: HostRuntime) -> Result<(), Fail> {
    let mut shelf = shelf_with(&rt, &PROGRAM)?;
    // a refusal of words comes before any read
    shelf.plan_read(1);
    let lines = [
        "",
        "--help",
        "make",
        "make elf input record 1 3",
        "make elf input record 1 3 3 3",
        "Make elf input record 1 3 3",
        "make elf input record 0 3 3",
        "make elf input record 65 3 3",
        "make elf input record 1 0 3",
        "make elf input record 1 65537 3",
        "make elf input record 1 01 3",
        "make elf input record 1 +1 3",
        "make elf input record 1 000000000000000000003 3",
        "make elf input record 1 3 0",
        "make elf input record 1 3 8388609",
        "make elf input record 1 3 18446744073709551617",
        "make2 elf input record 1 3",
        "pipe elf input record 2 1 3",
        "pipe elf input record 2 1 3 1 1",
        "pipe elf input record 1 1 3 1",
        "pipe elf input record 65 1 3 1",
        "pipe elf input record 2 0 3 1",
        "pipe elf input record 2 1 8388609 1",
        "pipe elf input record 2 1 3 0",
        "pipe elf input record 2 1 3 65",
        "check elf input record",
        "check elf input record 0",
        "check elf input record 65",
        "settle elf input record 1",
        "settle elf input",
        "run elf input output",
        "run elf input output 0",
        "run elf input output 1 1",
        "run3 elf input output 1",
        "explain record 0",
        "explain record 0 0",
        "explain record 0 4097",
        "explain record 4294967296 1",
        "trial 7",
        "trial 7 41",
        "trial 7 84001",
        "trial 4294967296 42",
        "asm source",
        "asm source target 1",
        "upgrade record",
        "upgrade record target 1",
    ];
    for line in lines {
        expect(&rt, line, &mut shelf, 2, "fault words\n")?;
    }
    assert!(rt; shelf.file("record").is_none());
    Ok(())
}
