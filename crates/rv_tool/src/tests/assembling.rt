//! `asm`.

use super::programs::PROGRAM;
use super::{expect, shelf_with, words_of};
use crate::{needs_team, tool_one};
use rv_asm::limits::{SOURCE_LIMIT, STATEMENTS_LIMIT};
use rv_host::MemSink;
use std::test::Fail;

/// A source of `PROGRAM`.
pub const SOURCE: &str = "start: addi x10, x0, 42\naddi x17, x0, 93\necall\n";

/// What tells how it is assembled.
pub const ASSEMBLED: &str = "\
symbol start 00010000
00010000 02a00513 addi x10, x0, 42
00010004 05d00893 addi x17, x0, 93
00010008 00000073 ecall
assembled words=3 bytes=96
";

/// Sources without a fault, with what tells of each.
const SOURCES: [(&str, &str); 5] = [
    (SOURCE, ASSEMBLED),
    ("", "assembled words=0 bytes=84\n"),
    (
        "loop: jal x0, loop",
        "symbol loop 00010000\n00010000 0000006f jal x0, 0\nassembled words=1 bytes=88\n",
    ),
    (
        "# \u{e9}\r\necall # \u{e9}\r\nend:\r\n",
        "symbol end 00010004\n00010000 00000073 ecall\nassembled words=1 bytes=88\n",
    ),
    (
        "b: .word 0xFFFFFFFF\nbeq x1, x2, b",
        "symbol b 00010000\n00010000 ffffffff illegal\n00010004 fe208ee3 beq x1, x2, -4\nassembled words=2 bytes=92\n",
    ),
];

/// Sources with a fault, and the line of the first.
const FAULTS: [(&str, &str); 8] = [
    ("beq x1, x2, done", "fault asm 1 5 Undefined\n"),
    ("addi x1, x0, 2048", "fault asm 1 6 Range\n"),
    ("ecall\u{7f}", "fault asm 1 1 Bytes\n"),
    ("a: ecall\na: foo", "fault asm 2 2 Label\n"),
    ("\n\nillegal\n", "fault asm 3 3 Statement\n"),
    ("ecall x0", "fault asm 1 4 Operands\n"),
    ("ecall\njal x0, x32\nfoo", "fault asm 2 5 Undefined\n"),
    (":\n\u{e9}", "fault asm 1 2 Label\n"),
];

#[test]
fn sources_are_assembled(rt: HostRuntime) -> Result<(), Fail> {
    let mut shelf = shelf_with(&rt, &PROGRAM)?;
    for (source, printed) in SOURCES {
        shelf.put("source", source.as_bytes())?;
        expect(&rt, "asm source target", &mut shelf, 0, printed)?;
    }
    shelf.put("source", SOURCE.as_bytes())?;
    expect(&rt, "asm source target", &mut shelf, 0, ASSEMBLED)?;
    assert!(rt; shelf.file("target") == Some(PROGRAM.as_slice()));
    // one name for both files is read before it is written
    expect(&rt, "asm source source", &mut shelf, 0, ASSEMBLED)?;
    assert!(rt; shelf.file("source") == Some(PROGRAM.as_slice()));
    expect(
        &rt,
        "run target input output 3",
        &mut shelf,
        0,
        "ran steps=3 end=0 code=42 output=0\n",
    )
}

#[test]
fn sources_with_a_fault_are_not(rt: HostRuntime) -> Result<(), Fail> {
    let mut shelf = shelf_with(&rt, &PROGRAM)?;
    for (source, printed) in FAULTS {
        shelf.put("source", source.as_bytes())?;
        expect(&rt, "asm source target", &mut shelf, 13, printed)?;
    }
    expect(&rt, "asm absent target", &mut shelf, 5, "fault read\n")?;
    assert!(rt; shelf.file("target").is_none());
    Ok(())
}

#[test]
fn a_source_above_the_limit(rt: HostRuntime) -> Result<(), Fail> {
    let mut shelf = shelf_with(&rt, &PROGRAM)?;
    let mut source = vec![in rt.alloc(); b'#'; SOURCE_LIMIT]?;
    shelf.put("source", &source)?;
    source.push(b'#')?;
    shelf.put("longer", &source)?;
    for (line, status, printed) in [
        ("asm source target", 0, "assembled words=0 bytes=84\n"),
        ("asm longer other", 8, "fault limit source\n"),
    ] {
        expect(&rt, line, &mut shelf, status, printed)?;
    }
    assert!(rt; shelf.file("other").is_none());
    Ok(())
}

#[test]
fn as_many_statements_as_there_may_be(rt: HostRuntime) -> Result<(), Fail> {
    let mut shelf = shelf_with(&rt, &PROGRAM)?;
    let mut source = Vec::new(rt.alloc());
    for _ in 0..STATEMENTS_LIMIT {
        source.extend_from_slice(b"ecall\n")?;
    }
    shelf.put("source", &source)?;
    source.extend_from_slice(b"ecall")?;
    shelf.put("longer", &source)?;
    let mut sink = MemSink::new(rt.alloc());
    let words = words_of(&rt, "asm source target")?;
    assert!(rt; !needs_team(&words));
    assert_eq!(rt; tool_one(rt.alloc(), &words, &mut shelf, &mut sink), 0);
    assert!(rt; sink.bytes().starts_with(b"00010000 00000073 ecall\n"));
    assert!(rt;
        sink.bytes().ends_with(b"0004fffc 00000073 ecall\nassembled words=65536 bytes=262228\n")
    );
    expect(
        &rt,
        "asm longer other",
        &mut shelf,
        13,
        "fault asm 65537 7 TooLong\n",
    )
}
