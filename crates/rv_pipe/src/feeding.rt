//! The walk, whose starts go to the workers.

ghost use Rattle.std.specs.Prelude.{◌≡◌, true, [], IfOk, IfErr};
ghost use Rattle.crossbeam_queue.specs.Passes.{view, IsPassOf, ruled_capacity};
ghost use Rattle.rv_point.specs.declared.start.ShardStart.{ShardStart as StartOf};
ghost use Rattle.rv_point.specs.PointsState.{HasNoSurvey};
ghost use Rattle.rv_pipe.specs.Hands.{hand};
ghost use Rattle.rv_pipe.specs.Made.{AreStartsDue, HasFed};

use crate::line::{StartPass, put};
use crate::maker::Maker;
use crate::rules::{Line, Run};
use crate::walking::Walking;
use crate::working::{Took, make_piece};
use rv_host::Gate;
use rv_point::{RunFault, Whole};
use std::alloc::Global;
use std::sync::Wait;
use std::sync::atomic::{AtomicBool, Ordering};

/// The worker that the gate knows the walk by.
const WALKER: u32 = 64;

/// The whole of a run, and what worker 0 took while it walked.
#[derive(Drop)]
pub struct Fed {
    pub whole: Whole,
    pub took: Took,
}

/// Walks a run to its end and pushes the start of each shard, and then tells the workers that the walk is over.
pub fn feed<J: Run, W: Walking, P: Maker, G: Gate, R: Wait>(
    rt: &R,
    alloc: Global,
    walk: W,
    maker: &P,
    line: &Line<J>,
    is_over: &AtomicBool,
    gate: &G,
    pass: StartPass,
) -> Result<Fed, RunFault>
    requires pass { IsPassOf line.now pass }
    requires view { view pass ≡ hand true 1 0 [] }
    requires waiting { ruled_capacity line.now ≡ J.waiting }
    requires walk { ((W.state walk).given ≡ 0) × AreStartsDue (W.state walk) J.due }
    requires due { (s : StartOf) → J.due s → P.takes maker.now s }
    ensures pass { IfOk result (λ f. IsPassOf line.now f.took.pass) }
    ensures ok { IfOk result (HasFed (P.piece maker.now) (W.state walk)) }
    ensures err { IfErr result (HasNoSurvey (W.state walk).image (W.state walk).input (W.state walk).size (W.state walk).budget) }
{
    let fed = walk_run(rt, alloc, walk, maker, line, gate, pass);
    is_over.store(true, Ordering::SeqCst);
    fed
}

/// Walks a run to its end and pushes the start of each shard. Where the queue is full, makes the piece of its front
/// start.
fn walk_run<J: Run, W: Walking, P: Maker, G: Gate, R: Wait>(
    rt: &R,
    alloc: Global,
    mut walk: W,
    maker: &P,
    line: &Line<J>,
    gate: &G,
    mut pass: StartPass,
) -> Result<Fed, RunFault>
    requires pass { IsPassOf line.now pass }
    requires view { view pass ≡ hand true 1 0 [] }
    requires waiting { ruled_capacity line.now ≡ J.waiting }
    requires walk { ((W.state walk).given ≡ 0) × AreStartsDue (W.state walk) J.due }
    requires due { (s : StartOf) → J.due s → P.takes maker.now s }
    ensures pass { IfOk result (λ f. IsPassOf line.now f.took.pass) }
    ensures ok { IfOk result (HasFed (P.piece maker.now) (W.state walk)) }
    ensures err { IfErr result (HasNoSurvey (W.state walk).image (W.state walk).input (W.state walk).size (W.state walk).budget) }
{
    let mut pieces = Vec::new(alloc);
    let mut given = 0;
    for _ in rt.forever() {
        gate.pass(WALKER, given);
        let Some(start) = walk.next_start()? else {
            break;
        };
        given += 1;
        if let Some(front) = put(rt, line, &mut pass, start) {
            pieces.push(make_piece(alloc, maker, gate, 0, &front)?)?;
        }
    }
    let whole = walk.end()?;
    Ok(Fed {
        whole,
        took: Took { pass, pieces },
    })
}
