//! How a pass deposits a piece.

ghost use Rattle.std.specs.Prelude.{◌≡◌, ◌<◌, ◌++◌, true, false, [], ◌∷◌};
ghost use Rattle.rv_book.specs.Board.{is_in};
ghost use Rattle.rv_book.specs.declared.event.BoardEvent.TheVariants.{Deposit as Deposits};
ghost use Rattle.rv_claim.specs.Passes.{Happened, IsOf, IsSame, deposited_of, drawn_of, number_of, shards_of, task_of};

use crate::board::Board;
use crate::pass::Pass;
use crate::rules::{Fills, Opens};
use crate::view::Deposit;
use rv_book::{Piece, Task};

impl<T: Task> Board<T> {
    /// Puts a piece into the slot of its index. One `fetch_add` on the slot's mark takes the slot,
    /// and one gives it back with the piece.
    pub fn deposit(&self, pass: &mut Pass, piece: Piece)
        requires pass { IsOf self.now pass.old }
        requires index { piece.index < shards_of self.now }
        requires piece { piece ≡ T.piece (task_of self.now) piece.index }
        requires drew { is_in piece.index (drawn_of pass.old) ≡ true }
        requires new { is_in piece.index (deposited_of pass.old) ≡ false }
        ensures same { IsSame pass.old pass.new }
        ensures drawn { drawn_of pass.new ≡ drawn_of pass.old }
        ensures deposited { deposited_of pass.new ≡ deposited_of pass.old ++ piece.index ∷ [] }
        ensures event { Happened (shards_of self.now) pass.old (Deposits (number_of pass.old) piece.index) pass.new }
    {
        let slot = piece.index as usize;
        let kept = Deposit {
            pass: pass.number,
            piece,
        };
        let shared = &self.table.shared;
        shared.fetch_add::<Opens>(&mut pass.seat, slot + 1, 1);
        shared.exchange(&mut pass.seat, slot, Some(kept));
        shared.fetch_add::<Fills>(&mut pass.seat, slot + 1, 1);
    }
}
