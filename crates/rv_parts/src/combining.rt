//! The verdict on parts, by their summaries.

ghost use Rattle.std.specs.Prelude.{◌≡◌};
ghost use Rattle.rv_parts.specs.Combining.{are_same as are_same_of, combined, refused_at};

use crate::summaries::Summary;
use rv_base::rules::{SHARD_HEAD, SHORT};
use rv_base::{Header, Place, Refusal, Verdict};
use rv_digest::SetDigest;
use rv_judge::check_end;
use rv_program::Program;

/// Whether two places are the same.
fn are_same(p: &Place, q: &Place) -> bool
    ensures { result ≡ are_same_of p.now q.now }
{
    p.pc == q.pc && p.input == q.input && p.output == q.output
}

/// What is refused of a part behind a place.
fn refusal_at(summary: &Summary, place: Place) -> Option<Refusal>
    ensures { result ≡ refused_at summary.now.first place summary.now.before summary.now.refusal }
{
    match summary.before {
        None => Some(Refusal::at(summary.first, 0, SHORT)),
        Some(before) => {
            if are_same(&before, &place) {
                summary.refusal
            } else {
                Some(Refusal::at(summary.first, 0, SHARD_HEAD))
            }
        }
    }
}

/// The verdict on a record file, for a program and its input, by the summaries of all its parts, in order: the first part whose first head
/// is missing, or states another place than the one before it, or that breaks a check is refused, and else `rv_judge::check_end` tells. The
/// header is one that `rv_program::check_front` gave. No memory is taken.
pub fn combine(program: &Program<'_>, header: &Header, summaries: &[Summary]) -> Verdict
    ensures { result ≡ combined program.now.elf program.now.input header.now summaries.now }
{
    let mut after = Place {
        pc: program.image().entry(),
        input: 0,
        output: 0,
    };
    let mut reads = SetDigest::zero();
    let mut writes = SetDigest::zero();
    let mut entries = 0;
    let mut trailing = false;
    for i in 0..summaries.len() {
        let summary = &summaries[i];
        if let Some(refusal) = refusal_at(summary, after) {
            return Verdict::Refuse(refusal);
        }
        after = summary.after;
        reads.add(&summary.reads);
        writes.add(&summary.writes);
        entries = summary.entries;
        trailing = summary.trailing;
    }
    check_end(header, after, &reads, &writes, entries, trailing)
}
