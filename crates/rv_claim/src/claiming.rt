//! How a pass draws a number.

ghost use Rattle.std.specs.Prelude.{◌≡◌, ◌↔◌, ◌⊎◌, ◌+◌, ◌≤◌, ◌<◌, ◌++◌, ℕ, true, false, [], ◌∷◌, IfSome, IfNone, IsNone};
ghost use Rattle.rv_book.specs.Board.{is_in};
ghost use Rattle.rv_book.specs.declared.event.BoardEvent.TheVariants.{Claim};
ghost use Rattle.rv_claim.specs.Views.{is_past};
ghost use Rattle.rv_claim.specs.Passes.{Happened, IsOf, IsSame, deposited_of, drawn_of, history_of, number_of, shards_of};

use crate::board::Board;
use crate::pass::Pass;
use crate::rules::Draws;
use rv_book::Task;

impl<T: Task> Board<T> {
    /// Draws the next number, by at most one `fetch_add`. `None` says that the pass drew a number
    /// that is no index of a shard, now or before; then it may draw no more.
    pub fn claim(&self, pass: &mut Pass) -> Option<u32>
        requires { IsOf self.now pass.old }
        ensures same { IsSame pass.old pass.new }
        ensures deposited { deposited_of pass.new ≡ deposited_of pass.old }
        ensures some { IfSome result (λ x. (x < shards_of self.now) × (drawn_of pass.new ≡ drawn_of pass.old ++ x ∷ [])) }
        ensures new { IfSome result (λ x. is_in x (drawn_of pass.old) ≡ false) }
        ensures none { IfNone result ((drawn_of pass.new ≡ drawn_of pass.old)
            ⊎ ((x : ℕ) × (shards_of self.now ≤ x) × (drawn_of pass.new ≡ drawn_of pass.old ++ x ∷ []))) }
        ensures past { IsNone result ↔ (is_past (shards_of self.now) (drawn_of pass.new) ≡ true) }
        ensures ended { is_past (shards_of self.now) (drawn_of pass.old) ≡ true → drawn_of pass.new ≡ drawn_of pass.old }
        ensures event { ((drawn_of pass.new ≡ drawn_of pass.old) × (history_of pass.new ≡ history_of pass.old))
            ⊎ Happened (shards_of self.now) pass.old (Claim (number_of pass.old)) pass.new }
    {
        if pass.done {
            return None;
        }
        let found = self.table.shared.fetch_add::<Draws>(&mut pass.seat, 0, 1);
        if found < self.shards as u64 {
            Some(found as u32)
        } else {
            pass.done = true;
            None
        }
    }
}
