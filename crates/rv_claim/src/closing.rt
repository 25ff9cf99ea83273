//! How a board ends.

ghost use Rattle.std.specs.Prelude.{◌≡◌, ◌≤◌, ◌<◌, ◌+◌, ℕ, [], ◌∷◌, ◌++◌, Some, map, length, slice_index_or, IfOk};
ghost use Rattle.std.specs.Slots.{slots_items, slots_len, IsFull};
ghost use mathlib.Core.Option.{some};
ghost use lib.ListN.{get_elem?};
ghost use Rattle.rv_book.specs.Journal.{pieces_of, IsWhole};
ghost use Rattle.rv_claim.specs.Views.{home_view};
ghost use Rattle.rv_claim.specs.Passes.{deposited_of, shards_of, task_of, workers_of};
ghost use Rattle.rv_claim.specs.Closing.{AreAll, AreSettled, ArePast, EndsAsRun, closing, depositor, slot_by};
ghost use Rattle.rv_claim.specs.Making.{AreMade, own_of};

use crate::board::Board;
use crate::pass::Pass;
use crate::rules::{About, Gathers, Rules};
use crate::view::{Deposit, View};
use atomic_table::{Closed, Seat, Table};
use rv_base::NoMemory;
use rv_book::{Book, Task};
use std::alloc::Global;

type Words<T> = Table<Option<Deposit>, View, About<T>, Rules<T>, Global>;

impl<T: Task> Board<T> {
    /// Ends the board, and enters what was deposited in a book, in rising order of the indices. After
    /// want of memory the board, the passes and the pieces are gone.
    pub fn close<'t>(
        self,
        alloc: Global,
        task: &'t T,
        passes: Vec<Pass>,
    ) -> Result<Book<'t, T>, NoMemory>
        requires task { task_of self ≡ task.now }
        requires bound { shards_of self ≤ T.bound task.now }
        requires passes { AreAll self passes.items }
        requires settled { AreSettled self passes.items }
        ensures pieces { IfOk result (λ b. b.pieces ≡ pieces_of (T.piece task.now) (shards_of self)) }
        ensures journal { IfOk result (λ b. b.journal ≡ closing (map deposited_of passes.items) (shards_of self)) }
        ensures whole { IfOk result (λ b. ArePast self passes.items → IsWhole (T.piece task.now) (shards_of self) b) }
        ensures run { IfOk result (λ _. EndsAsRun self passes.items) }
    {
        let shards = self.shards;
        // Once the table is closed nothing may fail, since the slots are not dropped by themselves.
        let mut book = Book::open(alloc, task, shards)?;
        let mut closed = end_table(self, passes);
        for i in 0..shards {
            if let Some(Deposit { pass, piece }) = closed.take(i as usize) {
                book.deposit(pass, piece);
            }
        }
        closed.free();
        Ok(book)
    }
}

// Home gathers all passes, and ends the table. Each slot then keeps what was deposited.
fn end_table<T: Task>(board: Board<T>, mut passes: Vec<Pass>) -> Closed<Option<Deposit>, Global>
    requires passes { AreAll board passes.items }
    requires settled { AreSettled board passes.items }
    ensures long { slots_len result.slots ≡ shards_of board }
    ensures full { IsFull result.slots }
    ensures slots { (i : ℕ) → i < shards_of board → get_elem? (slots_items result.slots) i
        ≡ some (slot_by (T.piece (task_of board)) (depositor i (map deposited_of passes.items) 0) i) }
    ensures each { ArePast board passes.items
        → (i : ℕ) → i < shards_of board → (p : ℕ) × (depositor i (map deposited_of passes.items) 0 ≡ Some p) }
    ensures run { EndsAsRun board passes.items }
{
    let Board { workers, table, .. } = board;
    let Pass { seat, home, .. } = passes.remove(0);
    let mut home = home.into_seat();
    table.shared.join_seat::<Gathers>(&mut home, seat);
    gather_passes(&table, &mut home, passes, workers);
    table.close_with(home)
}

// Home gathers all passes but the first, which it has gathered.
fn gather_passes<T: Task>(
    table: &Words<T>,
    home: &mut Seat<Option<Deposit>, View>,
    mut passes: Vec<Pass>,
    workers: u32,
)
    requires table { 0 < table.now.shared.table_id.words }
    requires home { (home.old.table_id ≡ table.now.shared.table_id) × (home.old.id ≡ 0)
        × (home.old.me ≡ (home_view workers home.old.me.0.gathered, [])) }
    requires passes { AreMade table.now.shared.table_id passes.items }
    ensures home { (home.new.table_id ≡ home.old.table_id) × (home.new.id ≡ 0) }
    ensures gathered { home.new.me ≡ (home_view workers (home.old.me.0.gathered ++ map own_of passes.items), []) }
{
    while passes.len() > 0 {
        let Pass { seat, .. } = passes.remove(0);
        table.shared.join_seat::<Gathers>(home, seat);
    }
}
