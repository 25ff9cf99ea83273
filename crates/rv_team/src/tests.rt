//! Teams on small boards.

use crate::{run_one, run_team};
use rv_base::{Bytes, NoMemory, Place};
use rv_book::{Entry, Piece, Task};
use rv_digest::SetDigest;
use rv_host::{Gate, HoldGate, OpenGate};
use std::alloc::Global;
use std::sync::atomic::{AtomicU32, Ordering};
use std::test::Fail;

// The piece of i has i in each lane of what it reads, and 1 in each lane of what it writes. That of
// `lacking` finds no memory.
#[derive(Drop)]
struct Numbers {
    lacking: u32,
}

impl Task for Numbers {
    ghost use Rattle.std.specs.Prelude.{[], None, replicate, refl};
    ghost use Rattle.rv_book.specs.declared.task.Piece.{Piece};

    ghost bound = { λ t. 65536 };

    ghost piece = { λ t i. record {
      index = i;
      bytes = [];
      reads = record { lanes = replicate 16 i };
      writes = record { lanes = replicate 16 1 };
      place = record { pc = 0; input = 0; output = 0 };
      fault = None;
    } };

    fn work(&self, alloc: Global, i: u32) -> Result<Piece, NoMemory> {
        if i == self.lacking {
            return Err(NoMemory);
        }
        Ok(Piece {
            index: i,
            bytes: Bytes::of(Vec::new(alloc)),
            reads: SetDigest {
                lanes: [i as u64; 16],
            },
            writes: SetDigest { lanes: [1; 16] },
            place: Place {
                pc: 0,
                input: 0,
                output: 0,
            },
            fault: None,
        })
    }

    ghost numbered = { λ t i lt. refl };
}

const NUMBERS: Numbers = Numbers { lacking: u32::MAX };

// Holds the passes of one worker until another worker has passed twice.
#[derive(Drop)]
struct Stall {
    held: u32,
    others: AtomicU32,
    worn_out: AtomicU32,
}

impl Gate for Stall {
    fn pass(&self, worker: u32, _shard: u32) {
        if worker != self.held {
            self.others.fetch_add(1, Ordering::SeqCst);
            return;
        }
        for _ in 0..1_000_000_000u32 {
            if self.others.load(Ordering::SeqCst) >= 2 {
                return;
            }
        }
        self.worn_out.fetch_add(1, Ordering::SeqCst);
    }
}

#[test]
fn all_pieces_by_any_number_of_workers(rt: HostRuntime) -> Result<(), Fail> {
    let book = run_one(rt.alloc(), &NUMBERS, 3)?;
    let order = [0, 1, 2].map(|index| Entry { pass: 0, index });
    assert!(rt; book.journal() == order.as_slice());
    for (n, workers, reads) in [
        (1, 1, 0),
        (1, 64, 0),
        (3, 1, 3),
        (3, 2, 3),
        (3, 4, 3),
        (3, 64, 3),
        (100, 4, 4950),
        (65_536, 64, 2_147_450_880),
    ] {
        let book = run_team(&rt, rt.alloc(), &NUMBERS, n, workers, &OpenGate)?;
        assert_eq!(rt; book.count(), n);
        assert_eq!(rt; book.reads().lanes, [reads; 16]);
        assert_eq!(rt; book.writes().lanes, [n as u64; 16]);
        assert_eq!(rt; book.piece(n - 1).map(|piece| piece.index), Some(n - 1));
    }
    Ok(())
}

#[test]
fn a_worker_without_memory_ends_the_team(rt: HostRuntime) {
    let task = Numbers { lacking: 1 };
    assert!(rt; run_one(rt.alloc(), &task, 3).is_err());
    for workers in [1, 2, 4] {
        assert!(rt; run_team(&rt, rt.alloc(), &task, 3, workers, &OpenGate).is_err());
    }
}

// With a fixed share for each worker, the one that is not held would have one piece of three.
#[test]
fn a_held_worker_holds_up_no_other(rt: HostRuntime) -> Result<(), Fail> {
    for held in [0, 1] {
        let gate = Stall {
            held,
            others: AtomicU32::new(0),
            worn_out: AtomicU32::new(0),
        };
        let book = run_team(&rt, rt.alloc(), &NUMBERS, 3, 2, &gate)?;
        assert_eq!(rt; gate.worn_out.load(Ordering::SeqCst), 0);
        let indices = [0, 1, 2].map(|i| book.journal().get(i).map(|entry| entry.index));
        assert_eq!(rt; indices, [Some(0), Some(1), Some(2)]);
        let others = book.journal().iter().filter(|entry| entry.pass != held);
        assert!(rt; others.count() >= 2);
    }
    Ok(())
}

// Each of two workers draws a number before the other has made a piece.
#[test]
fn two_workers_work_side_by_side(rt: HostRuntime) -> Result<(), Fail> {
    let gate = HoldGate::new(1_000_000_000);
    let book = run_team(&rt, rt.alloc(), &NUMBERS, 3, 2, &gate)?;
    assert!(rt; gate.met());
    let alone = run_one(rt.alloc(), &NUMBERS, 3)?;
    assert_eq!(rt; book.count(), alone.count());
    assert_eq!(rt; book.reads(), alone.reads());
    assert_eq!(rt; book.writes(), alone.writes());
    for i in 0..3 {
        assert_eq!(rt; book.piece(i).map(|piece| piece.index), Some(i));
    }
    Ok(())
}
