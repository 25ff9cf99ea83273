//! The queue of starts, as the walk uses it.

ghost use Rattle.std.specs.Prelude.{◌≡◌, ◌<◌, true, MatchOption};
ghost use Rattle.crossbeam_queue.specs.Passes.{view, IsSamePass, IsPassOf, ruled_capacity};
ghost use Rattle.rv_pipe.specs.Hands.{pushed_one, took_one};

use crate::rules::{Line, Pushes, Run, Takes};
use crate::view::Hand;
use crossbeam_queue::Pass;
use rv_point::ShardStart;
use std::sync::Wait;

/// A pass of the queue of starts.
pub type StartPass = Pass<ShardStart, Hand>;

/// Pushes the walk's next start. Where the queue is full, takes the front start before.
pub fn put<J: Run, R: Wait>(
    rt: &R,
    line: &Line<J>,
    pass: &mut StartPass,
    start: ShardStart,
) -> Option<ShardStart>
    requires pass { IsPassOf line.now pass.old }
    requires walks { ((view pass.old).walks ≡ true) × (0 < (view pass.old).parts) }
    requires next { (start.index ≡ (view pass.old).pushed) × J.due start }
    requires waiting { ruled_capacity line.now ≡ J.waiting }
    ensures pass { IsSamePass pass.old pass.new }
    ensures rule { MatchOption result (view pass.new ≡ pushed_one (view pass.old)) (λ front. J.due front × (view pass.new ≡ pushed_one (took_one (view pass.old) front.index))) }
{
    let Err(start) = line.push_as::<Pushes, R>(rt, pass, start) else {
        return None;
    };
    let front = line.pop_as::<Takes<J>, R>(rt, pass);
    put_in(rt, line, pass, start);
    front
}

/// Pushes the walk's next start, where there is room or comes to be.
fn put_in<J: Run, R: Wait>(rt: &R, line: &Line<J>, pass: &mut StartPass, start: ShardStart)
    requires pass { IsPassOf line.now pass.old }
    requires walks { ((view pass.old).walks ≡ true) × (0 < (view pass.old).parts) }
    requires next { (start.index ≡ (view pass.old).pushed) × J.due start }
    requires waiting { ruled_capacity line.now ≡ J.waiting }
    ensures pass { IsSamePass pass.old pass.new }
    ensures rule { view pass.new ≡ pushed_one (view pass.old) }
{
    let mut start = start;
    for _ in rt.forever() {
        match line.push_as::<Pushes, R>(rt, pass, start) {
            Ok(()) => return,
            Err(back) => start = back,
        }
    }
    unreachable!()
}
