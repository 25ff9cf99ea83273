//! Pipes over small runs: the pieces are those that `survey` and `replay` give.

ghost use Rattle.std.specs.Prelude.{◌≤◌, length, IfOk};

use crate::pipe;
use rv_digest::TinyLanes;
use rv_elf::{Part, read, write};
use rv_host::{Gate, HoldGate, OpenGate};
use rv_point::{RunFault, survey};
use rv_replay::replay;
use std::alloc::Global;
use std::sync::Wait;
use std::sync::atomic::{AtomicBool, Ordering};
use std::test::Fail;
use std::thread::Threads;

/// `addi x10, x0, 42`, and an exit: three steps.
const EXITS: [u32; 3] = [0x02A0_0513, 0x05D0_0893, 0x73];

/// The executable of some words at 0x10000.
fn file_of(alloc: Global, words: &[u32]) -> Result<Vec<u8>, Fail>
    requires { length words.now ≤ 100 }
    ensures { IfOk result (λ file. length file.items ≤ 1000) }
{
    let mut bytes = Vec::new(alloc);
    for word in words {
        bytes.extend_from_slice(&word.to_le_bytes())?;
    }
    let len = 4 * words.len() as u32;
    let part = Part {
        addr: 0x10000,
        len,
        size: len,
    };
    Ok(write(alloc, 0x10000, &[part], bytes.as_slice())?)
}

/// Whether a pipe over the exits gives the whole and the pieces that the survey and its replays give.
fn is_as_surveyed<G: Gate, R: Threads + Wait + Sync>(
    rt: &R,
    alloc: Global,
    workers: u32,
    waiting: u32,
    gate: &G,
) -> Result<bool, Fail> {
    let file = file_of(alloc, &EXITS)?;
    let image = read(file.as_slice())?;
    let Ok(points) = survey(alloc, &image, &[], 1, 3) else {
        return Ok(false);
    };
    if workers < 2 || workers > 64 || waiting < 1 {
        return Ok(false);
    }
    let Ok(piped) = pipe(
        rt,
        alloc,
        &image,
        &[],
        1,
        3,
        workers,
        waiting,
        &TinyLanes,
        gate,
    ) else {
        return Ok(false);
    };
    let whole = &piped.whole;
    let pieces = piped.pieces.list();
    if whole.steps != 3
        || whole.shards != 3
        || pieces.len() != 3
        || whole.end != points.end()
        || whole.output.list() != points.output()
        || whole.table.list() != points.table()
    {
        return Ok(false);
    }
    for (i, piece) in pieces.iter().enumerate() {
        if i >= points.shards() as usize {
            return Ok(false);
        }
        let due = replay(alloc, &points, i as u32, &TinyLanes)?;
        if piece.index != i as u32
            || piece.bytes.list() != due.bytes.list()
            || piece.reads != due.reads
            || piece.writes != due.writes
        {
            return Ok(false);
        }
    }
    Ok(true)
}

#[test]
fn two_workers_meet_behind_a_queue_of_one(rt: HostRuntime) -> Result<(), Fail> {
    let gate = HoldGate::new(1_000_000_000);
    assert!(rt; is_as_surveyed(&rt, rt.alloc(), 2, 1, &gate)?);
    assert!(rt; gate.met());
    Ok(())
}

#[test]
fn any_number_of_workers(rt: HostRuntime) -> Result<(), Fail> {
    for (workers, waiting) in [(2, 1), (2, 64), (3, 2), (64, 1), (64, 64)] {
        assert!(rt; is_as_surveyed(&rt, rt.alloc(), workers, waiting, &OpenGate)?);
    }
    Ok(())
}

/// Holds the walk before shard 2 until worker 1 has passed.
#[derive(Drop)]
struct HoldsWalk {
    has_passed: AtomicBool,
    is_worn_out: AtomicBool,
}

impl Gate for HoldsWalk {
    fn pass(&self, worker: u32, shard: u32) {
        if worker == 1 {
            self.has_passed.store(true, Ordering::SeqCst);
        }
        if worker != 64 || shard != 2 {
            return;
        }
        for _ in 0..1_000_000_000u32 {
            if self.has_passed.load(Ordering::SeqCst) {
                return;
            }
        }
        self.is_worn_out.store(true, Ordering::SeqCst);
    }
}

#[test]
fn a_piece_is_made_while_the_run_is_walked(rt: HostRuntime) -> Result<(), Fail> {
    let gate = HoldsWalk {
        has_passed: AtomicBool::new(false),
        is_worn_out: AtomicBool::new(false),
    };
    assert!(rt; is_as_surveyed(&rt, rt.alloc(), 2, 64, &gate)?);
    assert!(rt; !gate.is_worn_out.load(Ordering::SeqCst));
    Ok(())
}

#[test]
fn a_run_beyond_its_budget(rt: HostRuntime) -> Result<(), Fail> {
    let file = file_of(rt.alloc(), &EXITS)?;
    let image = read(file.as_slice())?;
    for (budget, workers, waiting) in [(1, 2, 1), (2, 2, 1), (2, 64, 64)] {
        let piped = pipe(
            &rt,
            rt.alloc(),
            &image,
            &[],
            1,
            budget,
            workers,
            waiting,
            &TinyLanes,
            &OpenGate,
        );
        assert_eq!(rt; piped.err(), Some(RunFault::Budget));
    }
    Ok(())
}
