//! The shards of a part, judged alone.

ghost use Rattle.std.specs.Prelude.{◌≡◌, ◌+◌, ◌<◌, ◌≤◌, MatchOption, length};
ghost use Rattle.rv_rules.specs.Reading.{head_of, same_place};
ghost use Rattle.rv_rowcheck.specs.RowChecking.{IsPlace};
ghost use Rattle.rv_judge.specs.Subject.{IsChecked};
ghost use Rattle.rv_parts.specs.Alone.{SeesShardAt, SeesShards, subject_of};

use rv_base::layout::HEAD_BYTES;
use rv_base::rules::{SHARD_HEAD, SHORT};
use rv_base::{Header, Place, Refusal, ShardHead};
use rv_digest::{Lanes, SetDigest};
use rv_file::read_head;
use rv_judge::{ShardSeen, check_shard};
use rv_program::Program;

/// Shards in a row that break no check: the place after their last row, the digests of what their rows read and write, and the bytes that
/// follow.
#[derive(Clone, Copy)]
pub(crate) struct ShardsSeen<'a> {
    pub after: Place,
    pub reads: SetDigest,
    pub writes: SetDigest,
    pub rest: &'a [u8],
}

/// The head at the front of the bytes, if it is all there.
pub(crate) fn head_at(bytes: &[u8]) -> Option<ShardHead>
    ensures { MatchOption result (length bytes.now < HEAD_BYTES) (λ h. (HEAD_BYTES ≤ length bytes.now) × (h ≡ head_of bytes.now)) }
{
    match bytes.first_chunk::<HEAD_BYTES>() {
        Some(head) => Some(read_head(head)),
        None => None,
    }
}

/// Whether a head states this place.
fn states(head: &ShardHead, place: Place) -> bool
    ensures { result ≡ same_place head.now place }
{
    head.pc == place.pc && head.input == place.input && head.output == place.output
}

/// Shard `i` at the front of the bytes, judged from a place.
fn check_shard_at<L: Lanes>(
    program: &Program<'_>,
    header: &Header,
    output: &[u8],
    place: Place,
    bytes: &[u8],
    i: u32,
    lanes: &L,
) -> Result<ShardSeen, Refusal>
    requires header { IsChecked header.now }
    requires output { length output.now ≡ header.now.length }
    requires shard { i < header.now.shards }
    requires place { IsPlace place program.now.input output.now }
    ensures { SeesShardAt L.lanes (subject_of program.now header.now output.now) i place bytes.now result }
{
    let Some(head) = head_at(bytes) else {
        return Err(Refusal::at(i, 0, SHORT));
    };
    if !states(&head, place) {
        return Err(Refusal::at(i, 0, SHARD_HEAD));
    }
    check_shard(program, header, output, bytes, i, lanes)
}

/// So many shards from shard `first` on, judged from the place that the first states.
pub(crate) fn check_shards<'a, L: Lanes>(
    program: &Program<'_>,
    header: &Header,
    output: &[u8],
    first: u32,
    count: u32,
    body: &'a [u8],
    lanes: &L,
) -> Result<ShardsSeen<'a>, Refusal>
    requires header { IsChecked header.now }
    requires output { length output.now ≡ header.now.length }
    requires some { 1 ≤ count }
    requires within { first + count ≤ header.now.shards }
    ensures { SeesShards L.lanes (subject_of program.now header.now output.now) count first body.now result }
{
    let seen = check_shard(program, header, output, body, first, lanes)?;
    let mut after = seen.after;
    let mut reads = seen.reads;
    let mut writes = seen.writes;
    let mut rest = &body[seen.used..];
    for i in first + 1..first + count {
        let seen = check_shard_at(program, header, output, after, rest, i, lanes)?;
        after = seen.after;
        reads.add(&seen.reads);
        writes.add(&seen.writes);
        rest = &rest[seen.used..];
    }
    Ok(ShardsSeen {
        after,
        reads,
        writes,
        rest,
    })
}
