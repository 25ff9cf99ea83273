//! A task's pieces, made by several workers.

ghost use Rattle.std.specs.Prelude.{[], ◌≡◌, ◌≤◌, ◌∷◌, ◌++◌, IfOk};
ghost use Rattle.std.specs.Thread.{IsSync};
ghost use Rattle.rv_book.specs.Journal.{IsWhole};
ghost use Rattle.rv_claim.specs.Passes.{shards_of, task_of};
ghost use Rattle.rv_team.specs.Work.{AreDone, AreFresh, IsDone, IsFresh};

use rv_base::NoMemory;
use rv_base::limits::{SHARDS_LIMIT, WORKERS_LIMIT};
use rv_book::{Book, Task};
use rv_claim::{Board, Pass};
use rv_host::Gate;
use std::alloc::Global;
use std::sync::Wait;
use std::thread::{Threads, join};

/// Makes the first `n` pieces of a task by `workers` workers, numbered from 0: the first in the
/// caller's thread, each other in one of its own where threads can be had. A worker passes the gate
/// before each piece. If one finds no memory, the others make the pieces that are left, and the
/// answer is `NoMemory`.
pub fn run_team<'t, T: Task, G: Gate, R: Threads + Wait + Sync>(
    rt: &R,
    alloc: Global,
    task: &'t T,
    n: u32,
    workers: u32,
    gate: &G,
) -> Result<Book<'t, T>, NoMemory>
    requires shards { (1 ≤ n) × (n ≤ SHARDS_LIMIT) }
    requires bound { n ≤ T.bound task.now }
    requires workers { (1 ≤ workers) × (workers ≤ WORKERS_LIMIT) }
    ensures { IfOk result (IsWhole (T.piece task.now) n) }
{
    let (board, passes) = Board::open(alloc, task, n, workers)?;
    let passes = work_all(rt, alloc, task, &board, gate, passes)?;
    board.close(alloc, task, passes)
}

// Works with each pass, the first in this thread and each other in one of its own, and gives the passes back in their order.
fn work_all<T: Task, G: Gate, R: Threads + Wait + Sync>(
    rt: &R,
    alloc: Global,
    task: &T,
    board: &Board<T>,
    gate: &G,
    mut passes: Vec<Pass>,
) -> Result<Vec<Pass>, NoMemory>
    requires passes { AreFresh board.now passes.items }
    requires task { task_of board.now ≡ task.now }
    requires bound { shards_of board.now ≤ T.bound task.now }
    ensures { IfOk result (λ qs. AreDone passes.items qs.items) }
{
    let Some(last) = passes.pop() else {
        return Ok(passes);
    };
    if passes.is_empty() {
        let last = work_one(rt, alloc, task, board, gate, last)?;
        return put_behind(passes, last);
    }
    // The threads are started one by one from this one, so that none waits for another that has begun to work.
    let (last, others) = join(
        rt,
        || -> Result<Pass, NoMemory>
            requires sync { IsSync R.row × IsSync T.row × IsSync G.row }
            requires pass { IsFresh board.now last }
            requires task { task_of board.now ≡ task.now }
            requires bound { shards_of board.now ≤ T.bound task.now }
            ensures { IfOk result (IsDone last) }
        { work_one(rt, alloc, task, board, gate, last) },
        || -> Result<Vec<Pass>, NoMemory>
            requires passes { AreFresh board.now passes.items }
            requires task { task_of board.now ≡ task.now }
            requires bound { shards_of board.now ≤ T.bound task.now }
            ensures { IfOk result (λ qs. AreDone passes.items qs.items) }
        { work_all(rt, alloc, task, board, gate, passes) },
    );
    put_behind(others?, last?)
}

// Puts a pass behind those before it.
fn put_behind(mut passes: Vec<Pass>, last: Pass) -> Result<Vec<Pass>, NoMemory>
    ensures { IfOk result (λ all. all.items ≡ passes.items ++ last ∷ []) }
{
    if passes.push(last).is_err() {
        return Err(NoMemory);
    }
    Ok(passes)
}

// Draws numbers, and makes and deposits the piece of each, until there are no more.
fn work_one<T: Task, G: Gate, R: Wait>(
    rt: &R,
    alloc: Global,
    task: &T,
    board: &Board<T>,
    gate: &G,
    mut pass: Pass,
) -> Result<Pass, NoMemory>
    requires pass { IsFresh board.now pass }
    requires task { task_of board.now ≡ task.now }
    requires bound { shards_of board.now ≤ T.bound task.now }
    ensures { IfOk result (IsDone pass) }
{
    for _ in rt.forever() {
        let Some(i) = board.claim(&mut pass) else {
            break;
        };
        gate.pass(pass.number(), i);
        let piece = task.work(alloc, i)?;
        board.deposit(&mut pass, piece);
    }
    Ok(pass)
}
