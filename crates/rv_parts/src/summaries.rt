//! Parts, each judged alone.

ghost use Rattle.std.specs.Prelude.{◌≡◌, ◌+◌, ◌≤◌, MatchResult, None, Some, length, true, false};
ghost use Rattle.rv_judge.specs.Subject.{IsChecked};
ghost use Rattle.rv_parts.specs.Alone.{subject_of};
ghost use Rattle.rv_parts.specs.Summaries.{AddsTable, IsOfPart, IsSamePart, Summarizes, is_last as is_last_of, place_before, told_in};

use crate::heads::PartHead;
use crate::shards::{ShardsSeen, check_shards, head_at};
use rv_base::rules::SHORT;
use rv_base::{Header, Place, Refusal};
use rv_digest::{Lanes, SetDigest};
use rv_judge::check_table;
use rv_program::Program;

/// A part that was judged alone: its first shard and how many it has, the place that its first shard states if its head is there, and the
/// first broken check, if there is one, of its shards and in the last part of the table. Where there is none: the place after its last row,
/// the digests of what its shards read and write, in the last part with the table's, the number of the table's entries, and whether a byte
/// follows the table; in any other part 0 and false.
#[derive(Clone, Copy, PartialEq, Debug)]
pub struct Summary {
    pub first: u32,
    pub count: u32,
    pub before: Option<Place>,
    pub after: Place,
    pub reads: SetDigest,
    pub writes: SetDigest,
    pub entries: u32,
    pub trailing: bool,
    pub refusal: Option<Refusal>,
}

/// A part other than the last that ends within its shards, or has bytes behind them.
#[derive(Clone, Copy, PartialEq, Eq, Debug)]
pub struct Cut;

/// Whether a part is the last.
fn is_last(head: &PartHead) -> bool
    ensures { result ≡ is_last_of head.now }
{
    u64::from(head.number) + 1 == u64::from(head.parts)
}

/// The place that the head at the front states, if it is there.
fn stated_place(body: &[u8]) -> Option<Place>
    ensures { result ≡ place_before body.now }
{
    match head_at(body) {
        Some(head) => Some(Place {
            pc: head.pc,
            input: head.input,
            output: head.output,
        }),
        None => None,
    }
}

/// The summary of a part that breaks a check.
fn refused(head: &PartHead, before: Option<Place>, refusal: Refusal) -> Summary
    ensures part { IsOfPart head.now before result }
    ensures refusal { result.refusal ≡ Some refusal }
{
    Summary {
        first: head.first,
        count: head.count,
        before,
        after: Place {
            pc: 0,
            input: 0,
            output: 0,
        },
        reads: SetDigest::zero(),
        writes: SetDigest::zero(),
        entries: 0,
        trailing: false,
        refusal: Some(refusal),
    }
}

/// The summary of a part of which these shards were seen, and no table.
fn without_table(head: &PartHead, before: Option<Place>, seen: &ShardsSeen<'_>) -> Summary
    ensures part { IsOfPart head.now before result }
    ensures told { told_in result ≡ record { after = seen.now.after; reads = seen.now.reads.lanes; writes = seen.now.writes.lanes; entries = 0; trailing = false } }
    ensures refusal { result.refusal ≡ None }
{
    Summary {
        first: head.first,
        count: head.count,
        before,
        after: seen.after,
        reads: seen.reads,
        writes: seen.writes,
        entries: 0,
        trailing: false,
        refusal: None,
    }
}

/// The summary with the table at the front of the bytes, which end the part.
fn with_table<L: Lanes>(
    program: &Program<'_>,
    header: &Header,
    shards: &Summary,
    bytes: &[u8],
    lanes: &L,
) -> Summary
    requires { IsChecked header.now }
    ensures part { IsSamePart shards.now result }
    ensures table { AddsTable L.lanes program.now.elf header.now shards.now bytes.now result }
{
    let table = match check_table(program, header, bytes, lanes) {
        Ok(table) => table,
        Err(refusal) => {
            return Summary {
                refusal: Some(refusal),
                ..*shards
            };
        }
    };
    let mut reads = shards.reads;
    reads.add(&table.reads);
    let mut writes = shards.writes;
    writes.add(&table.writes);
    Summary {
        reads,
        writes,
        entries: table.entries,
        trailing: table.used < bytes.len(),
        refusal: None,
        ..*shards
    }
}

/// One part of a record file, judged alone: the body of the part with this head, by `rv_judge::check_shard` and in the last part by
/// `rv_judge::check_table`. The first shard is judged from the place that it states, and each other from the place after the shard before
/// it. The header is one that `rv_program::check_front` gave, the output the one that it states, and the part has at least one shard and
/// none past the header's. No memory is taken.
///
/// # Errors
///
/// `Cut` in a part other than the last: the first broken check of its shards is by rule 1, or none is broken and bytes follow them. No part
/// that `part_cut` cuts is one, judged by its own head and front (`cut_parts_have_no_fault`).
pub fn summarize<L: Lanes>(
    program: &Program<'_>,
    header: &Header,
    output: &[u8],
    head: PartHead,
    body: &[u8],
    lanes: &L,
) -> Result<Summary, Cut>
    requires header { IsChecked header.now }
    requires output { length output.now ≡ header.now.length }
    requires some { 1 ≤ head.count }
    requires within { head.first + head.count ≤ header.now.shards }
    ensures { Summarizes L.lanes (subject_of program.now header.now output.now) head body.now result }
{
    let last = is_last(&head);
    let before = stated_place(body);
    let seen = match check_shards(program, header, output, head.first, head.count, body, lanes) {
        Ok(seen) => seen,
        Err(refusal) => {
            if !last && refusal.rule == SHORT {
                return Err(Cut);
            }
            return Ok(refused(&head, before, refusal));
        }
    };
    let shards = without_table(&head, before, &seen);
    if last {
        return Ok(with_table(program, header, &shards, seen.rest, lanes));
    }
    if !seen.rest.is_empty() {
        return Err(Cut);
    }
    Ok(shards)
}
