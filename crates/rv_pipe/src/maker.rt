//! What makes the piece of a shard from its start.

ghost use Rattle.std.specs.Prelude.{◌≡◌, IfOk};

use rv_base::NoMemory;
use rv_book::Piece;
use rv_digest::Lanes;
use rv_elf::Image;
use rv_point::ShardStart;
use rv_replay::replay_start;
use std::alloc::Global;

/// Makes pieces from starts. Threads share it, and its type names no lifetime there.
pub trait Maker: Sync {
    ghost use Rattle.std.specs.Prelude.{ℕ};
    ghost use Rattle.rv_book.specs.declared.task.Piece.{Piece};
    ghost use Rattle.rv_point.specs.declared.start.ShardStart.{ShardStart};

    // which starts it takes
    ghost takes: { Self → ShardStart → Type 0 };

    // the piece of an index
    ghost piece: { Self → ℕ → Piece };

    /// Makes the piece of a start.
    fn make(&self, alloc: Global, start: &ShardStart) -> Result<Piece, NoMemory>
        requires { takes self.now start.now }
        ensures { IfOk result (λ p. p ≡ piece self.now start.now.index) };
}

/// The shards of the run of a program on an input, of a size, with digests by some lanes.
#[derive(Drop)]
pub struct Shards<'a, L: Lanes + Sync> {
    pub image: &'a Image<'a>,
    pub input: &'a [u8],
    pub size: u32,
    pub lanes: &'a L,
}

impl<'a, L: Lanes + Sync> Maker for Shards<'a, L> {
    ghost use Rattle.rv_replay.specs.Piece.{shard_piece};
    ghost use Rattle.rv_pipe.specs.Due.{IsDue};

    ghost takes = { λ m s. IsDue m.image.now m.input.now m.size s };

    ghost piece = { λ m i. shard_piece L.lanes m.image.now m.input.now m.size i };

    fn make(&self, alloc: Global, start: &ShardStart) -> Result<Piece, NoMemory> {
        replay_start(alloc, self.image, self.input, start, self.lanes)
    }
}
