//! `check` of what `make` or `pipe` made.

ghost use Rattle.std.specs.Prelude.{None, map, string_bytes};
ghost use Rattle.rv_commands.specs.CheckOfMade.{MadeIsAccepted};
ghost use Rattle.rv_commands.specs.CommandLine.{command};

use super::programs::{PROGRAM, of_code};
use super::running::RESERVING;
use super::words_of;
use crate::tool;
use rv_host::{CalmShelf, Failed, Gate, OpenGate, Sink};
use std::alloc::Global;
use std::sync::Wait;
use std::test::Fail;
use std::thread::Threads;

/// An output that takes all, and tells nothing.
#[derive(Drop)]
struct Nowhere;

impl Sink for Nowhere {
    ghost view = { λ s. record { written = None; faults = 0 } };

    fn put(&mut self, bytes: &[u8]) -> Result<(), Failed> {
        Ok(())
    }
}

/// What `make` or `pipe` answers, and what `check` then answers to the record. No read of the files fails, and no call of the output.
fn make_then_check<R: Threads + Wait + Sync, G: Gate>(
    rt: &R,
    alloc: Global,
    make: &[String],
    check: &[String],
    shelf: &mut CalmShelf,
    gate: &G,
) -> (u8, u8)
    ensures { MadeIsAccepted (command (map string_bytes make.now)) (command (map string_bytes check.now)) result.0 result.1 }
{
    let mut output = Nowhere;
    let made = tool(rt, alloc, make, shelf, &mut output, gate);
    let checked = tool(rt, alloc, check, shelf, &mut output, gate);
    (made, checked)
}

#[test]
fn any_workers_accept_what_is_made(rt: HostRuntime) -> Result<(), Fail> {
    let reserving = of_code(&rt, &RESERVING)?;
    let made = [
        (PROGRAM.as_slice(), "make elf input record 2 1 3"),
        (PROGRAM.as_slice(), "pipe elf input record 2 1 3 1"),
        (reserving.as_slice(), "make2 elf input record 1 4 4"),
    ];
    for (elf, line) in made {
        let make = words_of(&rt, line)?;
        for line in [
            "check elf input record 1",
            "check elf input record 2",
            "check elf input record 64",
        ] {
            let check = words_of(&rt, line)?;
            let mut shelf = CalmShelf::new(rt.alloc());
            shelf.put("elf", elf)?;
            let answers = make_then_check(&rt, rt.alloc(), &make, &check, &mut shelf, &OpenGate);
            assert!(rt; answers == (0, 0), "{line}");
        }
    }
    Ok(())
}
