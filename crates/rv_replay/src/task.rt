//! The replay of the shards of a run, as a task.

ghost use Rattle.std.specs.Prelude.{◌≡◌};

use crate::shard::replay;
use rv_base::NoMemory;
use rv_book::{Piece, Task};
use rv_digest::Lanes;
use rv_point::Points;
use std::alloc::Global;

/// The shards of a run that was gone through: the piece of each is its bytes in the record, its digests and the
/// place after it.
#[derive(Drop)]
pub struct ShardTask<'p, L: Lanes + Sync> {
    points: &'p Points<'p>,
    lanes: L,
}

impl<'p, L: Lanes + Sync> ShardTask<'p, L> {
    /// The task of a run, with digests by the given lanes.
    pub fn new(points: &'p Points<'p>, lanes: L) -> ShardTask<'p, L>
        ensures { result.points.now ≡ points.now }
    {
        ShardTask { points, lanes }
    }
}

impl<'p, L: Lanes + Sync> Task for ShardTask<'p, L> {
    ghost use Rattle.std.specs.Prelude.{refl};
    ghost use Rattle.std.specs.Int.{div_ceil};
    ghost use Rattle.rv_replay.specs.Piece.{shard_piece};

    ghost bound = { λ t. div_ceil t.points.now.steps t.points.now.size };

    ghost piece = { λ t i. shard_piece L.lanes t.points.now.image t.points.now.input t.points.now.size i };

    fn work(&self, alloc: Global, i: u32) -> Result<Piece, NoMemory> {
        replay(alloc, self.points, i, &self.lanes)
    }

    ghost numbered = { λ t i h. refl };
}
