//! How long a task takes by one and by several workers. With a number N it makes N pieces, of which
//! each hashes tuples, and as many as may be that do nothing, and prints times; with no word it
//! makes three by one worker and by several, and prints how many there are.
#![tactic(auto)]

ghost use Rattle.std.specs.Prelude.{◌≡◌, ◌≤◌};
ghost use Rattle.rv_claim.specs.Passes.{IsOf};

use rv_base::limits::SHARDS_LIMIT;
use rv_base::{Bytes, NoMemory, Place, Tuple};
use rv_book::{Piece, Task};
use rv_claim::{Board, Pass};
use rv_digest::{SetDigest, ShaLanes};
use rv_host::OpenGate;
use rv_team::{run_one, run_team};
use std::alloc::Global;
use std::rt::Clock;
use std::sync::Wait;
use std::thread::Threads;
use std::time::Instant;
use std::{env, io};

const MOST_PIECES: u32 = SHARDS_LIMIT;

// Pieces that are empty, each after so many tuples were hashed.
#[derive(Drop)]
struct Hashing {
    tuples: u32,
}

impl Task for Hashing {
    ghost use Rattle.rv_base.specs.declared.limits.TheConstants.{SHARDS_LIMIT};
    ghost use Rattle.std.specs.Prelude.{[], None, replicate, refl};
    ghost use Rattle.rv_book.specs.declared.task.Piece.{Piece};

    ghost bound = { λ t. SHARDS_LIMIT };

    ghost piece = { λ t i. record {
      index = i;
      bytes = [];
      reads = record { lanes = replicate 16 0 };
      writes = record { lanes = replicate 16 0 };
      place = record { pc = 0; input = 0; output = 0 };
      fault = None;
    } };

    fn work(&self, alloc: Global, i: u32) -> Result<Piece, NoMemory> {
        let mut sum = SetDigest::zero();
        for k in 0..self.tuples {
            sum.add_tuple(
                &ShaLanes,
                Tuple {
                    cell: i,
                    value: k,
                    time: k as u64,
                },
            );
        }
        // The sum is used, so that it has to be computed.
        if self.tuples > 0 && sum.same(&SetDigest::zero()) {
            return Err(NoMemory);
        }
        Ok(Piece {
            index: i,
            bytes: Bytes::of(Vec::new(alloc)),
            reads: SetDigest::zero(),
            writes: SetDigest::zero(),
            place: Place {
                pc: 0,
                input: 0,
                output: 0,
            },
            fault: None,
        })
    }

    ghost numbered = { λ t i lt. refl };
}

// Draws until there are no more numbers.
fn draw_all<T: Task>(board: &Board<T>, mut pass: Pass) -> u32
    requires { IsOf board.now pass }
{
    let mut count = 0;
    for _ in 0..MOST_PIECES {
        if board.claim(&mut pass).is_none() {
            break;
        }
        count += 1;
    }
    count
}

// The time of opening a board, and that of drawing all its numbers.
fn time_claims(rt: &HostRuntime) -> io::Result<()> {
    let task = Hashing { tuples: 0 };
    let start = Instant::now(rt)?;
    let Ok((board, mut passes)) = Board::open(rt.alloc(), &task, MOST_PIECES, 1) else {
        return Ok(());
    };
    let open = start.elapsed(rt)?.as_secs_f64();
    let Some(pass) = passes.pop() else {
        return Ok(());
    };
    let start = Instant::now(rt)?;
    let count = draw_all(&board, pass);
    let claims = start.elapsed(rt)?.as_secs_f64();
    println!(rt; "board of {MOST_PIECES} opened: {open:.4} s")?;
    println!(rt;
        "{count} claims: {claims:.4} s, {:.1} ns each",
        claims * 1e9 / MOST_PIECES as f64
    )
}

// The times of one thread alone, and of teams.
fn time_workers<R: Threads + Wait + Sync + Clock + Print>(
    rt: &R,
    alloc: Global,
    task: &Hashing,
    n: u32,
) -> io::Result<()>
    requires { (1 ≤ n) × (n ≤ SHARDS_LIMIT) }
{
    let start = Instant::now(rt)?;
    let Ok(book) = run_one(alloc, task, n) else {
        return Ok(());
    };
    let alone = start.elapsed(rt)?.as_secs_f64();
    println!(rt;
        "one thread, {} pieces: {alone:.4} s, {:.1} ns each",
        book.count(),
        alone * 1e9 / n as f64
    )?;
    for workers in [1, 2, 4] {
        let start = Instant::now(rt)?;
        let Ok(book) = run_team(rt, alloc, task, n, workers, &OpenGate) else {
            return Ok(());
        };
        let team = start.elapsed(rt)?.as_secs_f64();
        println!(rt;
            "{workers} workers, {} pieces: {team:.4} s, {:.2} times as fast",
            book.count(),
            alone / team
        )?;
    }
    Ok(())
}

// Three pieces by one thread and by teams, without times.
fn make_three<R: Threads + Wait + Sync + Print>(rt: &R, alloc: Global) -> io::Result<()> {
    let task = Hashing { tuples: 4 };
    if let Ok(book) = run_one(alloc, &task, 3) {
        println!(rt; "one thread: {} pieces", book.count())?;
    }
    for workers in [1, 2, 4] {
        if let Ok(book) = run_team(rt, alloc, &task, 3, workers, &OpenGate) {
            println!(rt; "workers {workers}: {} pieces", book.count())?;
        }
    }
    Ok(())
}

fn main(rt: HostRuntime) -> io::Result<()> {
    let Some(word) = env::args(&rt)?.nth(1) else {
        return make_three(&rt, rt.alloc());
    };
    let n = word.parse::<u32>().unwrap_or(0);
    if n < 1 || n > MOST_PIECES {
        println!(rt; "usage: bench_board [PIECES], at most {MOST_PIECES}")?;
        return Ok(());
    }
    time_claims(&rt)?;
    time_workers(&rt, rt.alloc(), &Hashing { tuples: 0 }, MOST_PIECES)?;
    time_workers(&rt, rt.alloc(), &Hashing { tuples: 1000 }, n)
}
