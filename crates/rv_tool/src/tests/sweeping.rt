//! For each command, each call of the files and of the output, put out of order in turn until none fails.

use super::assembling::{ASSEMBLED, SOURCE};
use super::listing::FIRST;
use super::programs::{PROGRAM, RECORD, of_code, spelled};
use super::questions::STATE;
use super::running::RESERVING_GREETING;
use super::{MADE, words_of};
use crate::{needs_team, tool, tool_one};
use rv_host::{MemShelf, MemSink, OpenGate};
use std::process::Abort;
use std::sync::Wait;
use std::test::Fail;
use std::thread::Threads;

/// What a command writes to `target`.
#[derive(Clone, Copy)]
enum Written {
    Nothing,
    /// The record of `PROGRAM`, of version 1.
    Record,
    /// The same of version 2.
    Record2,
    Greeting,
    Program,
}

/// A command line, how many files it reads, and what it answers and prints where no call fails.
pub type Case = (&'static str, u64, u8, &'static str);

/// The line of the verdict on the record of `PROGRAM`.
const ACCEPTED: &str = "accepted steps=3 shards=1 end=0 code=42\n";

/// Each command, and refusals at each place of their order.
const CASES: [(Case, Written); 17] = [
    (("make elf input target 1 3 3", 2, 0, MADE), Written::Record),
    (("make elf input target 2 3 3", 2, 0, MADE), Written::Record),
    (
        ("pipe elf input target 2 3 3 1", 2, 0, MADE),
        Written::Record,
    ),
    (
        ("make2 elf input target 1 3 3", 2, 0, MADE),
        Written::Record2,
    ),
    (
        ("check elf input record 1", 3, 0, ACCEPTED),
        Written::Nothing,
    ),
    (
        ("check elf input record 2", 3, 0, ACCEPTED),
        Written::Nothing,
    ),
    (
        ("settle elf input record", 3, 0, "settled run steps=3\n"),
        Written::Nothing,
    ),
    (
        (
            "run2 elf2 input target 100",
            2,
            0,
            "ran steps=11 end=0 code=3 output=3\n",
        ),
        Written::Greeting,
    ),
    (("state elf input record 2", 3, 0, STATE), Written::Nothing),
    (
        ("cell elf input record x10 3", 3, 12, "fault step 3\n"),
        Written::Nothing,
    ),
    (("explain record 0 1", 1, 0, FIRST), Written::Nothing),
    (("asm source target", 1, 0, ASSEMBLED), Written::Program),
    (
        ("asm elf target", 1, 13, "fault asm 1 1 Bytes\n"),
        Written::Nothing,
    ),
    (
        (
            "settle elf2 input record",
            3,
            1,
            "refused shard=0 row=0 rule=3 Program\n",
        ),
        Written::Nothing,
    ),
    (
        ("make elf input target 1 3 2", 2, 4, "fault budget 2\n"),
        Written::Nothing,
    ),
    (
        (
            "make record input target 1 3 2",
            2,
            3,
            "fault elf 2 Magic\n",
        ),
        Written::Nothing,
    ),
    (("trial 7 41", 0, 2, "fault words\n"), Written::Nothing),
];

/// A kind of call that is planned to fail.
#[derive(Clone, Copy, Debug)]
enum Call {
    Read,
    Create,
    /// Once it has taken so many bytes.
    Append(usize),
}

impl Call {
    fn plan(self, nth: u64, shelf: &mut MemShelf) {
        match self {
            Call::Read => shelf.plan_read(nth),
            Call::Create => shelf.plan_create(nth),
            Call::Append(taken) => shelf.plan_write(nth, taken),
        }
    }

    /// The status and the line of its failure.
    fn told(self) -> (u8, &'static str) {
        match self {
            Call::Read => (5, "fault read\n"),
            Call::Create | Call::Append(_) => (6, "fault write\n"),
        }
    }
}

/// Runs a command line, by a team where it needs one.
fn perform<R: Abort + AllocGlobal + Threads + Wait + Sync>(
    rt: &R,
    line: &str,
    shelf: &mut MemShelf,
    sink: &mut MemSink,
) -> Result<u8, Fail> {
    let words = words_of(rt, line)?;
    if needs_team(&words) {
        Ok(tool(rt, rt.alloc(), &words, shelf, sink, &OpenGate))
    } else {
        Ok(tool_one(rt.alloc(), &words, shelf, sink))
    }
}

/// The files that the cases read.
fn shelf_of<R: AllocGlobal>(rt: &R, files: &[(&'static str, Vec<u8>)]) -> Result<MemShelf, Fail> {
    let mut shelf = MemShelf::new(rt.alloc());
    for (name, bytes) in files {
        shelf.put(name, bytes)?;
    }
    Ok(shelf)
}

/// Whether each file holds all that is due to it.
fn is_whole(shelf: &MemShelf, due: &[(&str, &[u8])]) -> bool {
    due.iter()
        .all(|(name, bytes)| shelf.file(name) == Some(*bytes))
}

/// Whether the first files hold all that is due to them, the next one a prefix or nothing yet, and those after it nothing.
fn is_torn(shelf: &MemShelf, due: &[(&str, &[u8])]) -> bool {
    let mut whole = true;
    for (name, bytes) in due {
        match shelf.file(name) {
            Some(held) if held == *bytes => {
                if !whole {
                    return false;
                }
            }
            Some(held) => {
                if !whole || !bytes.starts_with(held) {
                    return false;
                }
                whole = false;
            }
            None => whole = false,
        }
    }
    true
}

/// What stands after a call of a kind failed: its line, no file but those due, and these torn at one of them.
fn expect_failure<R: Abort>(
    rt: &R,
    shelf: &MemShelf,
    printed: &[u8],
    due: &[(&str, &[u8])],
    call: Call,
) -> Result<(), Fail> {
    let (status, line) = call.told();
    assert!(rt; printed == line.as_bytes(), "{call:?}");
    assert!(rt; is_torn(shelf, due), "{call:?}");
    for (name, _) in due {
        assert!(rt; status == 6 || shelf.file(name).is_none(), "{call:?}");
    }
    Ok(())
}

/// The files that were read are as they were.
fn expect_kept<R: Abort>(
    rt: &R,
    shelf: &MemShelf,
    files: &[(&'static str, Vec<u8>)],
) -> Result<(), Fail> {
    for (name, bytes) in files {
        assert!(rt; shelf.file(name) == Some(bytes.as_slice()), "{name}");
    }
    Ok(())
}

/// Fails the calls of a kind in turn, until a run meets no failure. Gives how many there were.
fn sweep<R: Abort + AllocGlobal + Threads + Wait + Sync>(
    rt: &R,
    files: &[(&'static str, Vec<u8>)],
    case: Case,
    due: &[(&str, &[u8])],
    call: Call,
) -> Result<u64, Fail> {
    let (line, _, status, text) = case;
    for nth in 1..400 {
        let mut shelf = shelf_of(rt, files)?;
        let mut sink = MemSink::new(rt.alloc());
        call.plan(nth, &mut shelf);
        let answer = perform(rt, line, &mut shelf, &mut sink)?;
        expect_kept(rt, &shelf, files)?;
        if answer == status {
            assert!(rt;
                sink.bytes() == text.as_bytes() && is_whole(&shelf, due),
                "{line}"
            );
            return Ok(nth - 1);
        }
        assert_eq!(rt; answer, call.told().0, "{line} {call:?} {nth}");
        expect_failure(rt, &shelf, sink.bytes(), due, call)?;
    }
    Err("a failure that never ends".into())
}

/// Prints to an output that takes so many bytes of the text and fails: those alone are printed, and the file is written.
fn tear<R: Abort + AllocGlobal + Threads + Wait + Sync>(
    rt: &R,
    files: &[(&'static str, Vec<u8>)],
    case: Case,
    due: &[(&str, &[u8])],
    taken: usize,
) -> Result<(), Fail> {
    let (line, _, _, text) = case;
    let mut shelf = shelf_of(rt, files)?;
    let mut sink = MemSink::new(rt.alloc());
    sink.plan(1, taken);
    assert_eq!(rt;
        perform(rt, line, &mut shelf, &mut sink)?,
        6,
        "{line} {taken}"
    );
    assert!(rt;
        Some(sink.bytes()) == text.as_bytes().get(..taken),
        "{line} {taken}"
    );
    assert!(rt; is_whole(&shelf, due), "{line}");
    Ok(())
}

/// All failures of a case: at least one read of each file that it reads, a creation of each file due, and at least one append to each.
pub fn fails_in_turn<R: Abort + AllocGlobal + Threads + Wait + Sync>(
    rt: &R,
    files: &[(&'static str, Vec<u8>)],
    case: Case,
    due: &[(&str, &[u8])],
) -> Result<(), Fail> {
    let (line, reads, _, text) = case;
    let writes = due.len() as u64;
    assert!(rt; reads <= sweep(rt, files, case, due, Call::Read)?, "{line}");
    assert_eq!(rt;
        sweep(rt, files, case, due, Call::Create)?,
        writes,
        "{line}"
    );
    let appends = sweep(rt, files, case, due, Call::Append(0))?;
    assert!(rt; writes <= appends, "{line}");
    assert_eq!(rt;
        sweep(rt, files, case, due, Call::Append(1))?,
        appends,
        "{line}"
    );
    for taken in [0, 1, text.len() / 2, text.len().saturating_sub(1)] {
        tear(rt, files, case, due, taken)?;
    }
    Ok(())
}

#[test]
fn each_call_of_each_command_fails_in_turn(rt: HostRuntime) -> Result<(), Fail> {
    let record = spelled(&rt, &RECORD)?;
    // version 2 has another last digit of the magic, and the same rows
    let mut record2 = spelled(&rt, &RECORD)?;
    if record2.len() != 719 {
        return Err(Fail::from("another record"));
    }
    record2[7] = b'2';
    let mut elf = Vec::new(rt.alloc());
    elf.extend_from_slice(&PROGRAM)?;
    let mut source = Vec::new(rt.alloc());
    source.extend_from_slice(SOURCE.as_bytes())?;
    let mut files = Vec::new(rt.alloc());
    files.push(("elf", elf))?;
    files.push(("source", source))?;
    files.push(("input", Vec::new(rt.alloc())))?;
    files.push(("record", spelled(&rt, &RECORD)?))?;
    files.push(("elf2", of_code(&rt, &RESERVING_GREETING)?))?;
    for (case, written) in CASES {
        let bytes = match written {
            Written::Nothing => {
                fails_in_turn(&rt, &files, case, &[])?;
                continue;
            }
            Written::Record => record.as_slice(),
            Written::Record2 => record2.as_slice(),
            Written::Greeting => b"hi\n".as_slice(),
            Written::Program => PROGRAM.as_slice(),
        };
        fails_in_turn(&rt, &files, case, &[("target", bytes)])?;
    }
    Ok(())
}
