//! The rule of the pipe's queue, and what each kind of step tells. No value of these types is made.

use crate::view::Hand;
use crossbeam_queue::RuledArrayQueue;
use crossbeam_queue::protocol::{Join, Lesson, Outcome, Protocol, Split};
use rv_point::ShardStart;
use std::marker::{Brand, PhantomData};

/// What is known of the starts of a run, and how many of them may wait. Each call of `pipe` picks its own.
pub trait Run {
    ghost use Rattle.std.specs.Prelude.{ℕ};
    ghost use Rattle.rv_point.specs.declared.start.ShardStart.{ShardStart};

    ghost due: { ShardStart → Type 0 };

    ghost waiting: { ℕ };
}

impl Run for Brand {
    ghost due = { λ s. Unit {0} };

    ghost waiting = { 1 };
}

/// The rule of the queue.
pub struct Rules<J> {
    run: PhantomData<J>,
}

impl<J: Run> Protocol<ShardStart, Hand> for Rules<J> {
    ghost use Rattle.rv_pipe.specs.Hands.{whole_hand};
    ghost use Rattle.rv_pipe.specs.Rule.{Kept};

    ghost holds = { Kept J.due J.waiting };

    ghost first = { whole_hand };
}

/// A queue of starts under the rule.
pub type Line<J> = RuledArrayQueue<ShardStart, Hand, Rules<J>>;

/// The walk pushes the next start.
pub struct Pushes;

impl Outcome<ShardStart, Hand> for Pushes {
    ghost use Rattle.std.specs.Prelude.{◌≡◌};
    ghost use Rattle.rv_pipe.specs.Hands.{pushed_one};

    ghost then = { λ v s w. w ≡ pushed_one v };
}

impl Lesson<ShardStart, Hand> for Pushes {
    ghost use Rattle.std.specs.Prelude.{⊤};

    ghost fact = { λ v items. ⊤ };
}

/// A worker takes the front start.
pub struct Takes<J> {
    run: PhantomData<J>,
}

impl<J: Run> Outcome<ShardStart, Hand> for Takes<J> {
    ghost use Rattle.std.specs.Prelude.{◌≡◌};
    ghost use Rattle.rv_pipe.specs.Hands.{took_one};

    ghost then = { λ v s w. J.due s × (w ≡ took_one v s.index) };
}

impl<J: Run> Lesson<ShardStart, Hand> for Takes<J> {
    ghost use Rattle.std.specs.Prelude.{⊤};

    ghost fact = { λ v items. ⊤ };
}

/// Who knows all takes what is left, and learns at the end that each start was taken once.
pub struct Drains<J> {
    run: PhantomData<J>,
}

impl<J: Run> Outcome<ShardStart, Hand> for Drains<J> {
    ghost use Rattle.std.specs.Prelude.{◌≡◌};
    ghost use Rattle.rv_pipe.specs.Hands.{took_one};

    ghost then = { λ v s w. J.due s × (w ≡ took_one v s.index) };
}

impl<J: Run> Lesson<ShardStart, Hand> for Drains<J> {
    ghost use Rattle.rv_pipe.specs.Rule.{IsAccounted};

    ghost fact = { IsAccounted };
}

/// A pass keeps one part, and the rest goes to a new one.
pub struct Cuts;

impl Split<Hand> for Cuts {
    ghost use Rattle.rv_pipe.specs.Hands.{last_part, other_parts};

    ghost left = { last_part };

    ghost right = { other_parts };
}

/// A pass takes in what another did.
pub struct Gathers;

impl Join<Hand> for Gathers {
    ghost use Rattle.rv_pipe.specs.Hands.{gathered, spent_hand};

    ghost both = { gathered };

    ghost spent = { spent_hand };
}
