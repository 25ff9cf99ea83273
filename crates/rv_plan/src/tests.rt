//! Shapes of commands, over files in memory: a text of several lines, a refusal with a verdict, many files, and reads up to a limit.

use crate::telling::tell;
use crate::{DueFile, Fault, Limited, PartFault, Told, VersionFault, read_within, write_files};
use rv_base::Text;
use rv_host::{MemShelf, MemSink};
use std::process::Abort;
use std::test::Fail;

/// Tells a text with a status to a sink whose first call takes so many bytes and fails, or doesn't.
fn told<R: Abort + AllocGlobal>(
    rt: &R,
    status: u8,
    text: &str,
    taken: Option<usize>,
) -> Result<u8, Fail> {
    let mut sink = MemSink::new(rt.alloc());
    if let Some(taken) = taken {
        sink.plan(1, taken);
    }
    let text_of = Text::of(String::from_str(rt.alloc(), text)?);
    let answer = tell(
        rt.alloc(),
        &mut sink,
        Ok(Told {
            status,
            text: text_of,
        }),
    );
    let held = text.as_bytes().get(..taken.unwrap_or(text.len()));
    assert!(rt; Some(sink.bytes()) == held, "{text}");
    Ok(answer)
}

#[test]
fn a_text_of_two_lines_is_torn_at_each_byte(rt: HostRuntime) -> Result<(), Fail> {
    let text = "one 1\ntwo 2\n";
    for taken in 0..13 {
        assert_eq!(rt; told(&rt, 0, text, Some(taken))?, 6, "{taken}");
    }
    assert_eq!(rt; told(&rt, 0, text, None)?, 0);
    Ok(())
}

#[test]
fn a_verdict_is_told_with_its_own_status(rt: HostRuntime) -> Result<(), Fail> {
    assert_eq!(rt; told(&rt, 1, "refused\n", None)?, 1);
    let mut sink = MemSink::new(rt.alloc());
    assert_eq!(rt;
        tell(rt.alloc(), &mut sink, Err(Fault::Limit(Limited::Record))),
        8
    );
    assert_eq!(rt; sink.bytes(), b"fault limit record\n".as_slice());
    Ok(())
}

#[test]
fn faults_with_names_and_numbers_are_told_so(rt: HostRuntime) -> Result<(), Fail> {
    for (fault, status, line) in [
        (Fault::Limit(Limited::Parts), 8, "fault limit parts\n"),
        (Fault::Version(VersionFault::New), 10, "fault version new\n"),
        (
            Fault::Version(VersionFault::Atomic(0x1002_A32F)),
            10,
            "fault version atomic 1002a32f\n",
        ),
        (
            Fault::Version(VersionFault::Atomic(0x2F)),
            10,
            "fault version atomic 0000002f\n",
        ),
        (Fault::Part(1, PartFault::Head), 11, "fault part 1 head\n"),
        (
            Fault::Part(63, PartFault::Front),
            11,
            "fault part 63 front\n",
        ),
        (Fault::Part(0, PartFault::Cover), 11, "fault part 0 cover\n"),
        (Fault::Part(2, PartFault::Cut), 11, "fault part 2 cut\n"),
        (Fault::Step(3), 12, "fault step 3\n"),
        (Fault::Limit(Limited::Source), 8, "fault limit source\n"),
        (Fault::Assembly(1, 1), 13, "fault asm 1 1 Bytes\n"),
        (Fault::Assembly(2, 2), 13, "fault asm 2 2 Label\n"),
        (Fault::Assembly(30, 3), 13, "fault asm 30 3 Statement\n"),
        (Fault::Assembly(4, 4), 13, "fault asm 4 4 Operands\n"),
        (Fault::Assembly(1, 5), 13, "fault asm 1 5 Undefined\n"),
        (Fault::Assembly(1, 6), 13, "fault asm 1 6 Range\n"),
        (
            Fault::Assembly(65_537, 7),
            13,
            "fault asm 65537 7 TooLong\n",
        ),
    ] {
        let mut sink = MemSink::new(rt.alloc());
        assert_eq!(rt; tell(rt.alloc(), &mut sink, Err(fault)), status);
        assert!(rt; sink.bytes() == line.as_bytes(), "{line}");
    }
    Ok(())
}

#[test]
fn the_last_of_sixty_four_files_is_torn(rt: HostRuntime) -> Result<(), Fail> {
    let mut names = Vec::new(rt.alloc());
    for i in 0..64 {
        names.push(format!(in rt.alloc(); "part.{i}")?)?;
    }
    let parts = [b"ab".as_slice(), b"cd".as_slice()];
    let mut files = Vec::new(rt.alloc());
    for name in &names {
        files.push(DueFile {
            name: name.as_str(),
            parts: &parts,
        })?;
    }
    let mut shelf = MemShelf::new(rt.alloc());
    shelf.plan_write(128, 1);
    assert!(rt; write_files(&mut shelf, &files).is_err());
    assert!(rt; shelf.file("part.0") == Some(b"abcd".as_slice()));
    assert!(rt; shelf.file("part.62") == Some(b"abcd".as_slice()));
    assert!(rt; shelf.file("part.63") == Some(b"abc".as_slice()));
    assert!(rt; write_files(&mut shelf, &files).is_ok());
    assert!(rt; shelf.file("part.63") == Some(b"abcd".as_slice()));
    Ok(())
}

#[test]
fn a_file_is_read_up_to_its_limit(rt: HostRuntime) -> Result<(), Fail> {
    let mut shelf = MemShelf::new(rt.alloc());
    shelf.put("file", b"abc")?;
    shelf.limit_read(1);
    let read = read_within(rt.alloc(), &mut shelf, "file", 3, Limited::Record);
    assert!(rt; read.is_ok_and(|bytes| bytes.list() == b"abc".as_slice()));
    let above = read_within(rt.alloc(), &mut shelf, "file", 2, Limited::Record);
    assert!(rt; matches!(above, Err(Fault::Limit(Limited::Record))));
    let absent = read_within(rt.alloc(), &mut shelf, "absent", 2, Limited::Record);
    assert!(rt; matches!(absent, Err(Fault::Read)));
    Ok(())
}
