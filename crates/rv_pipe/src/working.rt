//! The workers, which take starts and make their pieces.

ghost use Rattle.std.specs.Prelude.{◌≡◌, ◌+◌, ◌<◌, ◌≤◌, IfOk, true, false};
ghost use Rattle.std.specs.Thread.{IsSync};
ghost use Rattle.crossbeam_queue.specs.Passes.{view, IsPassOf};
ghost use Rattle.rv_base.specs.declared.limits.TheConstants.{WORKERS_LIMIT};
ghost use Rattle.rv_point.specs.declared.start.ShardStart.{ShardStart as StartOf};
ghost use Rattle.rv_pipe.specs.Hands.{worker_hand};
ghost use Rattle.rv_pipe.specs.Took.{HasMade};

use crate::gathering::gather;
use crate::line::StartPass;
use crate::maker::Maker;
use crate::rules::{Cuts, Line, Run, Takes};
use rv_base::NoMemory;
use rv_book::Piece;
use rv_host::Gate;
use rv_point::ShardStart;
use std::alloc::Global;
use std::sync::Wait;
use std::sync::atomic::{AtomicBool, Ordering};
use std::thread::{Threads, join, yield_now};

/// What a worker did: its pass, and the pieces of the starts that it took, in that order.
#[derive(Drop)]
pub struct Took {
    pub pass: StartPass,
    pub pieces: Vec<Piece>,
}

/// Makes the piece of a start that a worker took, behind the gate.
pub fn make_piece<P: Maker, G: Gate>(
    alloc: Global,
    maker: &P,
    gate: &G,
    worker: u32,
    start: &ShardStart,
) -> Result<Piece, NoMemory>
    requires { P.takes maker.now start.now }
    ensures { IfOk result (λ p. p ≡ P.piece maker.now start.now.index) }
{
    gate.pass(worker, start.index);
    maker.make(alloc, start)
}

/// Takes starts and makes their pieces, by one worker and so many others with the numbers behind its own, each in a
/// thread of its own where threads can be had. They end when the walk is over and no start waits. If one finds no
/// memory, the others go on, and the answer is `NoMemory`.
pub fn work_all<J: Run + Send + Sync, P: Maker, G: Gate, R: Threads + Wait + Sync>(
    rt: &R,
    alloc: Global,
    maker: &P,
    line: &Line<J>,
    is_over: &AtomicBool,
    gate: &G,
    worker: u32,
    others: u32,
    mut pass: StartPass,
) -> Result<Took, NoMemory>
    requires pass { IsPassOf line.now pass }
    requires view { view pass ≡ worker_hand (view pass).parts }
    requires parts { others < (view pass).parts }
    requires number { worker + others < WORKERS_LIMIT }
    requires due { (s : StartOf) → J.due s → P.takes maker.now s }
    ensures pass { IfOk result (λ t. IsPassOf line.now t.pass) }
    ensures made { IfOk result (HasMade (P.piece maker.now) false (view pass).parts 0) }
{
    if others == 0 {
        return work_one(rt, alloc, maker, line, is_over, gate, worker, pass);
    }
    let rest = line.another::<Cuts>(&mut pass);
    // The threads are started one by one from this one, so that none waits for another that has begun to work.
    let (mine, theirs) = join(
        rt,
        || -> Result<Took, NoMemory>
            requires sync { IsSync R.row × IsSync P.row × IsSync G.row }
            requires pass { IsPassOf line.now pass }
            requires view { view pass ≡ worker_hand 1 }
            requires due { (s : StartOf) → J.due s → P.takes maker.now s }
            ensures pass { IfOk result (λ t. IsPassOf line.entry.now t.pass) }
            ensures made { IfOk result (HasMade (P.piece maker.entry.now) false 1 0) }
        { work_one(rt, alloc, maker, line, is_over, gate, worker, pass) },
        || -> Result<Took, NoMemory>
            requires pass { IsPassOf line.now rest }
            requires view { view rest ≡ worker_hand (view rest).parts }
            requires parts { others ≤ (view rest).parts }
            requires number { (worker + others < WORKERS_LIMIT) × (0 < others) }
            requires due { (s : StartOf) → J.due s → P.takes maker.now s }
            ensures pass { IfOk result (λ t. IsPassOf line.entry.now t.pass) }
            ensures made { IfOk result (HasMade (P.piece maker.entry.now) false (view rest).parts 0) }
        {
            work_all(
                rt,
                alloc,
                maker,
                line,
                is_over,
                gate,
                worker + 1,
                others - 1,
                rest,
            )
        },
    );
    gather(line, mine?, theirs?)
}

/// Takes starts and makes their pieces, until the walk is over and no start waits.
fn work_one<J: Run, P: Maker, G: Gate, R: Wait>(
    rt: &R,
    alloc: Global,
    maker: &P,
    line: &Line<J>,
    is_over: &AtomicBool,
    gate: &G,
    worker: u32,
    mut pass: StartPass,
) -> Result<Took, NoMemory>
    requires pass { IsPassOf line.now pass }
    requires view { view pass ≡ worker_hand (view pass).parts }
    requires parts { 0 < (view pass).parts }
    requires due { (s : StartOf) → J.due s → P.takes maker.now s }
    ensures pass { IfOk result (λ t. IsPassOf line.now t.pass) }
    ensures made { IfOk result (HasMade (P.piece maker.now) false (view pass).parts 0) }
{
    let mut pieces = Vec::new(alloc);
    for _ in rt.forever() {
        let was_over = is_over.load(Ordering::SeqCst);
        match line.pop_as::<Takes<J>, R>(rt, &mut pass) {
            Some(start) => pieces.push(make_piece(alloc, maker, gate, worker, &start)?)?,
            None => {
                if was_over {
                    break;
                }
                yield_now();
            }
        }
    }
    Ok(Took { pass, pieces })
}
