//! Making by a pipe.

ghost use Rattle.std.specs.Prelude.{◌≡◌, ◌-◌, ◌≤◌, ℕ, true, false, [], map, IfOk, IfErr};
ghost use Rattle.std.specs.Int.{IsInRange};
ghost use Rattle.std.specs.List.{range_with_len};
ghost use Rattle.std.specs.Thread.{IsSync};
ghost use Rattle.crossbeam_queue.specs.Passes.{view, IsPassOf, ruled_capacity};
ghost use Rattle.rv_base.specs.declared.limits.TheConstants.{BUDGET_LIMIT, SHARD_SIZE_LIMIT, WORKERS_LIMIT};
ghost use Rattle.rv_point.specs.declared.start.ShardStart.{ShardStart as StartOf};
ghost use Rattle.rv_point.specs.PointsState.{HasNoSurvey};
ghost use Rattle.rv_point.specs.Walk.{IsWhole};
ghost use Rattle.rv_pipe.specs.Hands.{hand, worker_hand};
ghost use Rattle.rv_pipe.specs.Took.{HasMade};
ghost use Rattle.rv_pipe.specs.Made.{AreStartsDue, HasFed};
ghost use Rattle.rv_pipe.specs.Whole.{IsPiped, HasAll};

use crate::feeding::{Fed, feed};
use crate::gathering::gather;
use crate::line::StartPass;
use crate::maker::{Maker, Shards};
use crate::order::sort_pieces;
use crate::rules::{Cuts, Drains, Line, Run};
use crate::walking::Walking;
use crate::working::{Took, make_piece, work_all};
use rv_base::NoMemory;
use rv_book::Piece;
use rv_digest::Lanes;
use rv_elf::Image;
use rv_host::Gate;
use rv_point::{RunFault, Walk, Whole};
use std::alloc::Global;
use std::marker::{Brand, Model};
use std::sync::Wait;
use std::sync::atomic::AtomicBool;
use std::thread::{Threads, join};

/// Pieces in memory. Contracts see the list.
#[derive(Drop)]
pub struct Pieces {
    pieces: Vec<Piece>,
}

impl Model for Pieces {
    ghost use Rattle.std.specs.Prelude.{List};
    ghost use Rattle.rv_book.specs.declared.task.Piece.{Piece};

    ghost Value = { List Piece };

    ghost view = { λ p. p.pieces.items };
}

impl Pieces {
    /// The pieces of a `Vec`, which keep its memory and its allocator.
    pub fn of(pieces: Vec<Piece>) -> Pieces
        ensures { result ≡ pieces.items }
    {
        Pieces { pieces }
    }

    /// The pieces.
    pub fn list(&self) -> &[Piece]
        ensures { result.now ≡ self.now }
    {
        self.pieces.as_slice()
    }
}

/// A run that ended, with the pieces of its shards in their order.
#[derive(Drop)]
pub struct Piped {
    pub whole: Whole,
    pub pieces: Pieces,
}

/// Runs a program on an input once, in shards of so many rows, within a budget of steps, the ending one counted, and
/// makes the pieces of its shards meanwhile by `workers` workers, numbered from 0. Worker 0 walks the run, and of
/// the starts of shards at most `waiting` wait for a worker; where as many wait, worker 0 makes the piece of the
/// first. Each worker passes the gate before each piece, and worker 0 also does as worker 64 before each shard that
/// it walks over.
///
/// Budget comes exactly where the run goes on past its budget, and Shards exactly where it ends within it and needs
/// more than 65,536 shards, unless there is no memory.
pub fn pipe<L: Lanes + Sync, G: Gate, R: Threads + Wait + Sync>(
    rt: &R,
    alloc: Global,
    image: &Image<'_>,
    input: &[u8],
    size: u32,
    budget: u64,
    workers: u32,
    waiting: u32,
    lanes: &L,
    gate: &G,
) -> Result<Piped, RunFault>
    requires size { IsInRange 1 SHARD_SIZE_LIMIT size }
    requires budget { IsInRange 1 BUDGET_LIMIT budget }
    requires workers { IsInRange 2 WORKERS_LIMIT workers }
    requires waiting { 1 ≤ waiting }
    ensures ok { IfOk result (IsPiped L.lanes image.now input.now size budget) }
    ensures err { IfErr result (HasNoSurvey image.now input.now size budget) }
{
    let walk = Walk::open(alloc, image, input, size, budget);
    let maker = Shards {
        image,
        input,
        size,
        lanes,
    };
    match pipe_run::<Brand, Walk<'_>, Shards<'_, L>, G, R>(
        rt, alloc, walk, &maker, workers, waiting, gate,
    ) {
        Ok((whole, pieces)) => Ok(Piped {
            whole,
            pieces: Pieces::of(pieces),
        }),
        Err(fault) => Err(fault),
    }
}

/// Walks a run and makes the pieces of its shards by workers.
fn pipe_run<J: Run + Send + Sync, W: Walking, P: Maker, G: Gate, R: Threads + Wait + Sync>(
    rt: &R,
    alloc: Global,
    walk: W,
    maker: &P,
    workers: u32,
    waiting: u32,
    gate: &G,
) -> Result<(Whole, Vec<Piece>), RunFault>
    requires workers { IsInRange 2 WORKERS_LIMIT workers }
    requires waiting { (1 ≤ waiting) × (waiting ≡ J.waiting) }
    requires walk { ((W.state walk).given ≡ 0) × AreStartsDue (W.state walk) J.due }
    requires due { (s : StartOf) → J.due s → P.takes maker.now s }
    requires index { (i : ℕ) → (P.piece maker.now i).index ≡ i }
    ensures whole { IfOk result (λ r. IsWhole (W.state walk) r.0) }
    ensures pieces { IfOk result (λ r. r.1.items ≡ map (P.piece maker.now) (range_with_len 0 r.0.shards)) }
    ensures err { IfErr result (HasNoSurvey (W.state walk).image (W.state walk).input (W.state walk).size (W.state walk).budget) }
{
    let (line, mut pass) = Line::<J>::ruled(alloc, waiting as usize)?;
    let rest = line.another::<Cuts>(&mut pass);
    let (fed, made) = run_both(rt, alloc, walk, maker, &line, gate, workers, pass, rest);
    let Fed { whole, took } = fed?;
    let took = gather(&line, took, made?)?;
    let mut pieces = drain(rt, alloc, maker, &line, gate, took)?;
    sort_pieces(&mut pieces);
    Ok((whole, pieces))
}

/// The walk beside the other workers.
fn run_both<J: Run + Send + Sync, W: Walking, P: Maker, G: Gate, R: Threads + Wait + Sync>(
    rt: &R,
    alloc: Global,
    walk: W,
    maker: &P,
    line: &Line<J>,
    gate: &G,
    workers: u32,
    pass: StartPass,
    rest: StartPass,
) -> (Result<Fed, RunFault>, Result<Took, NoMemory>)
    requires workers { IsInRange 2 WORKERS_LIMIT workers }
    requires passes { IsPassOf line.now pass × IsPassOf line.now rest }
    requires view { view pass ≡ hand true 1 0 [] }
    requires rest { view rest ≡ worker_hand (WORKERS_LIMIT - 1) }
    requires waiting { ruled_capacity line.now ≡ J.waiting }
    requires walk { ((W.state walk).given ≡ 0) × AreStartsDue (W.state walk) J.due }
    requires due { (s : StartOf) → J.due s → P.takes maker.now s }
    ensures passes { IfOk result.0 (λ f. IsPassOf line.now f.took.pass) × IfOk result.1 (λ t. IsPassOf line.now t.pass) }
    ensures fed { IfOk result.0 (HasFed (P.piece maker.now) (W.state walk)) }
    ensures made { IfOk result.1 (HasMade (P.piece maker.now) false (WORKERS_LIMIT - 1) 0) }
    ensures err { IfErr result.0 (HasNoSurvey (W.state walk).image (W.state walk).input (W.state walk).size (W.state walk).budget) }
{
    let is_over = AtomicBool::new(false);
    let told = &is_over;
    // Where no thread can be started, the walk comes first, and the workers end behind it.
    let (made, fed) = join(
        rt,
        || -> Result<Took, NoMemory>
            requires sync { IsSync R.row × IsSync P.row × IsSync G.row }
            requires pass { IsPassOf line.now rest }
            requires view { view rest ≡ worker_hand (WORKERS_LIMIT - 1) }
            requires workers { IsInRange 2 WORKERS_LIMIT workers }
            requires due { (s : StartOf) → J.due s → P.takes maker.now s }
            ensures pass { IfOk result (λ t. IsPassOf line.entry.now t.pass) }
            ensures made { IfOk result (HasMade (P.piece maker.entry.now) false (WORKERS_LIMIT - 1) 0) }
        { work_all(rt, alloc, maker, line, told, gate, 1, workers - 2, rest) },
        || -> Result<Fed, RunFault>
            requires pass { IsPassOf line.now pass }
            requires view { view pass ≡ hand true 1 0 [] }
            requires waiting { ruled_capacity line.now ≡ J.waiting }
            requires walk { ((W.state walk).given ≡ 0) × AreStartsDue (W.state walk) J.due }
            requires due { (s : StartOf) → J.due s → P.takes maker.now s }
            ensures pass { IfOk result (λ f. IsPassOf line.entry.now f.took.pass) }
            ensures ok { IfOk result (HasFed (P.piece maker.entry.now) (W.state walk)) }
            ensures err { IfErr result (HasNoSurvey (W.state walk).image (W.state walk).input (W.state walk).size (W.state walk).budget) }
        { feed(rt, alloc, walk, maker, line, told, gate, pass) },
    );
    (fed, made)
}

/// Makes the pieces of the starts that are left, behind those that were made. No other pass has a part.
fn drain<J: Run, P: Maker, G: Gate, R: Wait>(
    rt: &R,
    alloc: Global,
    maker: &P,
    line: &Line<J>,
    gate: &G,
    took: Took,
) -> Result<Vec<Piece>, NoMemory>
    requires pass { IsPassOf line.now took.pass }
    requires made { HasMade (P.piece maker.now) true WORKERS_LIMIT (view took.pass).pushed took }
    requires due { (s : StartOf) → J.due s → P.takes maker.now s }
    ensures { IfOk result (λ pieces. HasAll (P.piece maker.now) (view took.pass).pushed pieces.items) }
{
    let Took {
        mut pass,
        mut pieces,
    } = took;
    for _ in rt.forever() {
        let Some(start) = line.pop_as::<Drains<J>, R>(rt, &mut pass) else {
            break;
        };
        pieces.push(make_piece(alloc, maker, gate, 0, &start)?)?;
    }
    Ok(pieces)
}
