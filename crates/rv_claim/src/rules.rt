//! The rule of the board's table, and what each kind of step tells. No value of these types is made.

ghost use Rattle.std.specs.Prelude.{[]};
ghost use Rattle.rv_claim.specs.Views.{with_one_more, with_gathered, fresh, pass_view, home_view, spent_view};
ghost use Rattle.rv_claim.specs.Kinds.{IsDraw, IsOpening, IsFilling};

use crate::view::{Deposit, View};
use atomic_table::{Join, Play, Split, TableRule};
use rv_book::Task;
use std::marker::PhantomData;
use std::snapshot::Snapshot;

/// The number of shards, the number of passes, and the task.
pub type About<T> = (u32, u32, Snapshot<T>);

/// The rule of the table.
pub struct Rules<T> {
    task: PhantomData<T>,
}

impl<T: Task> TableRule<Option<Deposit>, View, About<T>> for Rules<T> {
    ghost use Rattle.rv_claim.specs.History.{Kept};

    ghost holds = { λ about. Kept (T.piece about.2.value) about.0 about.1 };

    ghost first = { λ about. home_view 0 [] };
}

/// A claim.
pub struct Draws;

impl Play<Option<Deposit>, View> for Draws {
    ghost then = { IsDraw };
}

/// A slot is opened.
pub struct Opens;

impl Play<Option<Deposit>, View> for Opens {
    ghost then = { IsOpening };
}

/// A slot is filled.
pub struct Fills;

impl Play<Option<Deposit>, View> for Fills {
    ghost then = { IsFilling };
}

/// Home makes a pass.
pub struct Makes;

impl Split<View> for Makes {
    ghost left = { λ home. with_one_more home };

    ghost right = { λ home. pass_view (fresh home.made) };
}

/// Home gathers a pass.
pub struct Gathers;

impl Join<View> for Gathers {
    ghost both = { λ home pass. with_gathered home pass };

    ghost spent = { spent_view };
}
