//! Shards that were checked alone, chained in the file's order.

ghost use Rattle.std.specs.Prelude.{◌≡◌, []};
ghost use Rattle.rv_rules.specs.Reading.{same_place};
ghost use Rattle.rv_rowcheck.specs.RowChecking.{IsPlace};
ghost use Rattle.rv_panel.specs.Chaining.{AreChecked, Chains, IsLinked, subject_of, verdict_from};

use crate::starts::{behind, head_at, shard_size};
use rv_base::rules::{SHARD_HEAD, SHORT};
use rv_base::{Header, Place, Refusal, ShardHead};
use rv_book::{Book, Task};
use rv_digest::{Lanes, SetDigest};
use rv_program::Program;

/// What is known behind all shards: the place after the last row, the digests of what all rows read and write, and the bytes that follow.
#[derive(Drop)]
pub(crate) struct Chained<'a> {
    pub place: Place,
    pub reads: SetDigest,
    pub writes: SetDigest,
    pub rest: &'a [u8],
}

/// Whether a head states this place.
fn states(head: &ShardHead, place: Place) -> bool
    ensures { result ≡ same_place head.now place }
{
    head.pc == place.pc && head.input == place.input && head.output == place.output
}

/// The bytes of shard `i` at the front, whose head states this place.
fn linked(i: u32, place: Place, rest: &[u8]) -> Result<usize, Refusal>
    ensures { IsLinked i place rest.now result }
{
    let Some(head) = head_at(rest) else {
        return Err(Refusal::at(i, 0, SHORT));
    };
    if !states(&head, place) {
        return Err(Refusal::at(i, 0, SHARD_HEAD));
    }
    Ok(shard_size(&head))
}

/// Chains the shards: the first whose head is not there, or states another place than the one before it, or that broke a check is refused.
pub(crate) fn chain_shards<'a, L: Lanes, T: Task>(
    program: &Program<'_>,
    header: &Header,
    output: &[u8],
    first: Place,
    shards: &'a [u8],
    book: &Book<'_, T>,
) -> Result<Chained<'a>, Refusal>
    requires first { IsPlace first program.now.input output.now }
    requires checked { AreChecked L.lanes (subject_of program.now header.now output.now) shards.now book.now }
    ensures { let s = subject_of program.now header.now output.now in
        Chains L.lanes s (verdict_from L.lanes s header.now.shards 0 first [] shards.now) result }
{
    let mut rest = shards;
    let mut place = first;
    let mut reads = SetDigest::zero();
    let mut writes = SetDigest::zero();
    for i in 0..header.shards {
        let size = linked(i, place, rest)?;
        let Some(piece) = book.piece(i) else {
            unreachable!();
        };
        if let Some(refusal) = piece.fault {
            return Err(refusal);
        }
        place = piece.place;
        reads.add(&piece.reads);
        writes.add(&piece.writes);
        rest = behind(rest, size);
    }
    Ok(Chained {
        place,
        reads,
        writes,
        rest,
    })
}
