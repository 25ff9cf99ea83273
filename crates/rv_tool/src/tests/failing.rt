//! Each call of a shelf or a sink that can fail, in turn.

ghost use Rattle.std.specs.Prelude.{◌≡◌, ◌≢◌, false, map, string_bytes};
ghost use Rattle.rv_commands.specs.CommandLine.{command, is_teamwork};

use super::programs::{PROGRAM, RECORD, of_code, spelled};
use super::running::{GREETED, GREETING};
use super::{MADE, expect, shelf_with, words_of};
use crate::{needs_team, tool_one};
use rv_host::{CalmShelf, MemShelf, MemSink};
use std::alloc::Global;
use std::process::Abort;
use std::test::Fail;

/// A call that is planned to fail, counted from 1, and how many bytes it takes before that.
#[derive(Clone, Copy, Debug)]
enum Failure {
    Read(u64),
    Create,
    Append(u64, usize),
    Put(usize),
    /// None fails, and each read gives one byte.
    ShortReads,
}

impl Failure {
    fn plan(self, shelf: &mut MemShelf, sink: &mut MemSink) {
        match self {
            Failure::Read(nth) => shelf.plan_read(nth),
            Failure::Create => shelf.plan_create(1),
            Failure::Append(nth, taken) => shelf.plan_write(nth, taken),
            Failure::Put(taken) => sink.plan(1, taken),
            Failure::ShortReads => shelf.limit_read(1),
        }
    }
}

/// What a command answers and prints, and how many of the bytes that are due it has written, if it has made the file.
type Answer<'a> = (Failure, u8, &'a str, Option<usize>);

/// Runs a command line that writes `target` with each failure.
fn answers<R: Abort + AllocGlobal>(
    rt: &R,
    line: &str,
    elf: &[u8],
    due: &[u8],
    table: &[Answer<'_>],
) -> Result<(), Fail> {
    let words = words_of(rt, line)?;
    assert!(rt; !needs_team(&words), "{line}");
    for (failure, status, printed, written) in table {
        let mut shelf = shelf_with(rt, elf)?;
        let mut sink = MemSink::new(rt.alloc());
        failure.plan(&mut shelf, &mut sink);
        let answer = tool_one(rt.alloc(), &words, &mut shelf, &mut sink);
        assert_eq!(rt; answer, *status, "{line} {failure:?}");
        assert_eq!(rt; sink.bytes(), printed.as_bytes(), "{line} {failure:?}");
        let held = written.and_then(|length| due.get(..length));
        assert!(rt; shelf.file("target") == held, "{line} {failure:?}");
        assert!(rt; shelf.file("elf") == Some(elf), "{line} {failure:?}");
    }
    Ok(())
}

#[test]
fn make_with_each_failure(rt: HostRuntime) -> Result<(), Fail> {
    answers(
        &rt,
        "make elf input target 1 3 3",
        &PROGRAM,
        &spelled(&rt, &RECORD)?,
        &[
            (Failure::Read(1), 5, "fault read\n", None),
            (Failure::Read(2), 5, "fault read\n", None),
            (Failure::Read(3), 5, "fault read\n", None),
            (Failure::Create, 6, "fault write\n", None),
            (Failure::Append(1, 5), 6, "fault write\n", Some(5)),
            (Failure::Append(2, 0), 6, "fault write\n", Some(173)),
            (Failure::Append(3, 10), 6, "fault write\n", Some(183)),
            (Failure::Append(4, 84), 6, "fault write\n", Some(719)),
            (Failure::Put(4), 6, "made", Some(719)),
            (Failure::ShortReads, 0, MADE, Some(719)),
        ],
    )
}

#[test]
fn run_with_each_failure(rt: HostRuntime) -> Result<(), Fail> {
    answers(
        &rt,
        "run elf input target 100",
        &of_code(&rt, &GREETING)?,
        b"hi\n",
        &[
            (Failure::Read(1), 5, "fault read\n", None),
            (Failure::Read(2), 5, "fault read\n", None),
            (Failure::Read(3), 5, "fault read\n", None),
            (Failure::Create, 6, "fault write\n", None),
            (Failure::Append(1, 1), 6, "fault write\n", Some(1)),
            (Failure::Put(3), 6, "ran", Some(3)),
            (Failure::ShortReads, 0, GREETED, Some(3)),
        ],
    )
}

#[test]
fn a_failure_that_comes_twice(rt: HostRuntime) -> Result<(), Fail> {
    // an absent file fails at its first read
    let mut shelf = shelf_with(&rt, &PROGRAM)?;
    expect(
        &rt,
        "run absent input output 1",
        &mut shelf,
        5,
        "fault read\n",
    )?;
    // and here the line that tells of it is torn
    let mut sink = MemSink::new(rt.alloc());
    sink.plan(1, 7);
    let words = words_of(&rt, "run absent input output 1")?;
    assert!(rt; !needs_team(&words));
    assert_eq!(rt; tool_one(rt.alloc(), &words, &mut shelf, &mut sink), 6);
    assert_eq!(rt; sink.bytes(), b"fault r".as_slice());
    assert!(rt; shelf.file("output").is_none());
    Ok(())
}

/// Over files whose reading never fails, no answer is a failed read.
fn with_calm_files(alloc: Global, words: &[String], shelf: &mut CalmShelf, sink: &mut MemSink) -> u8
    requires { is_teamwork (command (map string_bytes words.now)) ≡ false }
    ensures { result ≢ 5 }
{
    tool_one(alloc, words, shelf, sink)
}

#[test]
fn an_absent_file_may_count_as_empty(rt: HostRuntime) -> Result<(), Fail> {
    let mut shelf = CalmShelf::new(rt.alloc());
    let mut sink = MemSink::new(rt.alloc());
    let words = words_of(&rt, "run elf input output 1")?;
    assert!(rt; !needs_team(&words));
    assert_eq!(rt;
        with_calm_files(rt.alloc(), &words, &mut shelf, &mut sink),
        3
    );
    assert_eq!(rt; sink.bytes(), b"fault elf 1 Short\n".as_slice());
    Ok(())
}
