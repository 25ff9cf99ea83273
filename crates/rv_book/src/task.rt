//! A piece of a record, and the task that makes the pieces.

ghost use Rattle.std.specs.Prelude.{◌≡◌, ℕ, ◌<◌, IfOk};

use rv_base::{Bytes, NoMemory, Place, Refusal};
use rv_digest::SetDigest;
use std::alloc::Global;

/// What the work on a shard gives: the shard's index, its bytes in the record, the digests of what
/// it read and wrote, the place after it, and its first broken check, if there is one.
#[derive(Drop)]
pub struct Piece {
    pub index: u32,
    pub bytes: Bytes,
    pub reads: SetDigest,
    pub writes: SetDigest,
    pub place: Place,
    pub fault: Option<Refusal>,
}

/// Work that falls into pieces, each known by its index. Threads share it.
pub trait Task: Sync {
    ghost use Rattle.rv_book.specs.declared.task.Piece.{Piece};

    // the pieces are those of the indices below it
    ghost bound: { Self → ℕ };

    ghost piece: { Self → ℕ → Piece };

    /// Makes a piece.
    fn work(&self, alloc: Global, i: u32) -> Result<Piece, NoMemory>
        requires { i < bound self.now }
        ensures { IfOk result (λ p. p ≡ piece self.now i) };

    // the piece of an index has that index
    ghost numbered: { (task : Self) (i : ℕ) → i < bound task → (piece task i).index ≡ i };
}
