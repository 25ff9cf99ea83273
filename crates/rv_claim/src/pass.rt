//! The right of one worker to draw numbers and to deposit pieces.

ghost use Rattle.std.specs.Prelude.{◌≡◌, None, []};
ghost use Rattle.rv_claim.specs.Views.{pass_view, home_views, is_past};

use crate::view::{Deposit, View};
use atomic_table::{Badge, Seat};

/// What a worker draws and deposits with. It has a number, and contracts see the lists of what it
/// drew and what it deposited.
#[derive(Drop)]
pub struct Pass {
    pub(crate) seat: Seat<Option<Deposit>, View>,
    // home's seat, in pass 0 alone
    pub(crate) home: Badge<View>,
    pub(crate) number: u32,
    pub(crate) shards: u32,
    pub(crate) workers: u32,
    // it drew a number that is no index of a shard
    pub(crate) done: bool,
    pub ghost sits: { seat.me ≡ (pass_view seat.me.0.own, []) },
    pub ghost named: { seat.me.0.own.number ≡ number },
    pub ghost idle: { seat.me.0.own.pending ≡ None },
    pub ghost ended: { done ≡ is_past shards seat.me.0.own.drawn },
    pub ghost keeps_home: { home.views ≡ home_views number workers },
    pub ghost home_is: { number ≡ 0 → (home.table_id ≡ seat.table_id) × (home.id ≡ 0) },
}

impl Pass {
    ghost use Rattle.rv_claim.specs.Passes.{number_of};

    /// Its number, from 0.
    pub fn number(&self) -> u32
        ensures { result ≡ number_of self.now }
    {
        self.number
    }
}
