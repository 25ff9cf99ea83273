//! A worker that is held.

use super::programs::PROGRAM;
use super::{shelf_with, words_of};
use crate::tool;
use rv_host::{Gate, MemSink};
use std::sync::atomic::{AtomicU32, Ordering};
use std::test::Fail;

/// Holds the passes of one worker until another has passed twice.
#[derive(Drop)]
struct Stall {
    held: u32,
    others: AtomicU32,
    worn_out: AtomicU32,
}

impl Gate for Stall {
    fn pass(&self, worker: u32, _shard: u32) {
        if worker != self.held {
            self.others.fetch_add(1, Ordering::SeqCst);
            return;
        }
        for _ in 0..1_000_000_000u32 {
            if self.others.load(Ordering::SeqCst) >= 2 {
                return;
            }
        }
        self.worn_out.fetch_add(1, Ordering::SeqCst);
    }
}

/// Of three shards two fall to the worker that isn't held, in making as in checking.
#[test]
fn a_held_worker_holds_up_no_other(rt: HostRuntime) -> Result<(), Fail> {
    for held in [0, 1] {
        let mut shelf = shelf_with(&rt, &PROGRAM)?;
        for (line, printed) in [
            (
                "make elf input record 2 1 3",
                "made steps=3 shards=3 end=0 code=42 bytes=1295\n",
            ),
            (
                "check elf input record 2",
                "accepted steps=3 shards=3 end=0 code=42\n",
            ),
        ] {
            let gate = Stall {
                held,
                others: AtomicU32::new(0),
                worn_out: AtomicU32::new(0),
            };
            let words = words_of(&rt, line)?;
            let mut sink = MemSink::new(rt.alloc());
            let status = tool(&rt, rt.alloc(), &words, &mut shelf, &mut sink, &gate);
            assert_eq!(rt; status, 0, "{line}");
            assert_eq!(rt; sink.bytes(), printed.as_bytes(), "{line}");
            assert_eq!(rt; gate.worn_out.load(Ordering::SeqCst), 0, "{line}");
        }
    }
    Ok(())
}
