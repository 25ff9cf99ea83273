//! The task of checking shards alone.

ghost use Rattle.std.specs.Prelude.{◌≡◌, ◌<◌, Some, None, replicate, length};
ghost use Rattle.rv_judge.specs.Alone.{SeesShard};
ghost use Rattle.rv_judge.specs.Subject.{IsChecked};
ghost use Rattle.rv_panel.specs.Checking.{IsTask};
ghost use Rattle.rv_panel.specs.Pieces.{IsPieceOf};

use crate::starts::behind;
use rv_base::{Bytes, Header, NoMemory, Place, Refusal};
use rv_book::{Piece, Task};
use rv_digest::{Lanes, SetDigest};
use rv_judge::{ShardSeen, check_shard};
use rv_program::Program;
use std::alloc::Global;
use std::marker::Model;

/// The shards of a record file, each to be checked from the place that its own head states.
#[derive(Drop)]
pub(crate) struct ShardTask<'a, 'p, L: Lanes + Sync> {
    program: &'a Program<'p>,
    header: Header,
    output: &'a [u8],
    shards: &'a [u8],
    starts: Vec<usize>,
    lanes: &'a L,
}

impl<'a, 'p, L: Lanes + Sync> Model for ShardTask<'a, 'p, L> {
    ghost use Rattle.std.specs.Prelude.{vec_len};
    ghost use Rattle.rv_panel.specs.Checking.{Shards, IsTask};

    ghost Value = { Shards };

    ghost view = { λ t. record {
      subject = record { elf = t.program.now.elf; input = t.program.now.input; header = t.header; output = t.output.now };
      bytes = t.shards.now;
      found = vec_len t.starts;
    } };

    ghost invariant = { λ t. IsTask t.header t.output.now t.shards.now t.starts.items };
}

impl<'a, 'p, L: Lanes + Sync> ShardTask<'a, 'p, L> {
    /// The task of the shards behind header and output, which begin at these places.
    pub fn new(
        program: &'a Program<'p>,
        header: &Header,
        output: &'a [u8],
        shards: &'a [u8],
        starts: Vec<usize>,
        lanes: &'a L,
    ) -> Self
        requires { IsTask header.now output.now shards.now starts.items }
        ensures { result ≡ record {
          subject = record { elf = program.now.elf; input = program.now.input; header = header.now; output = output.now };
          bytes = shards.now;
          found = length starts.items;
        } }
    {
        ShardTask {
            program,
            header: *header,
            output,
            shards,
            starts,
            lanes,
        }
    }
}

/// The piece of a shard of which this was seen.
fn piece_of(alloc: Global, index: u32, seen: Result<ShardSeen, Refusal>) -> Piece
    ensures { IsPieceOf index seen result }
{
    let bytes = Bytes::of(Vec::new(alloc));
    match seen {
        Ok(seen) => Piece {
            index,
            bytes,
            reads: seen.reads,
            writes: seen.writes,
            place: seen.after,
            fault: None,
        },
        Err(refusal) => Piece {
            index,
            bytes,
            reads: SetDigest::zero(),
            writes: SetDigest::zero(),
            place: Place {
                pc: 0,
                input: 0,
                output: 0,
            },
            fault: Some(refusal),
        },
    }
}

impl<'a, 'p, L: Lanes + Sync> Task for ShardTask<'a, 'p, L> {
    ghost use Rattle.std.specs.Prelude.{ℕ, refl};
    ghost use Rattle.rv_book.specs.declared.task.Piece.{Piece};
    ghost use Rattle.rv_panel.specs.Pieces.{shard_piece, shard_piece-index};

    ghost bound = { λ t. t.found };

    ghost piece = { λ t i. shard_piece L.lanes t.subject t.bytes i };

    fn work(&self, alloc: Global, i: u32) -> Result<Piece, NoMemory> {
        let bytes = behind(self.shards, self.starts[i as usize]);
        let seen = check_shard(
            self.program,
            &self.header,
            self.output,
            bytes,
            i,
            self.lanes,
        );
        Ok(piece_of(alloc, i, seen))
    }

    ghost numbered = { λ t i lt. shard_piece-index L.lanes t.subject t.bytes i };
}
