//! Cutting a record file into parts.

ghost use Rattle.std.specs.Prelude.{◌≡◌, ◌≤◌, ◌<◌, ◌+◌, ◌-◌, Ok, length, take};
ghost use Rattle.std.specs.Int.{IsInRange};
ghost use Rattle.rv_rules.specs.Verdict.{parse as parse_of};
ghost use Rattle.rv_file.specs.Parsing.{behind_shards, HoldsShards};
ghost use Rattle.rv_parts.specs.Heads.{head_bytes};
ghost use Rattle.rv_parts.specs.Cutting.{body_of, first_of, front_of, head_of_part};

use crate::heads::{PART_HEAD_BYTES, PartHead, write_part};
use rv_file::{Parsed, behind_shard};

/// The most parts that a record is cut into.
pub const PARTS_LIMIT: u32 = 64;

/// A part of a record file. Its bytes are these three, in order: the head, the record's header and output, and the part's shards, behind
/// which the last part has the table.
#[derive(Clone, Copy)]
pub struct PartCut<'a> {
    pub head: [u8; PART_HEAD_BYTES],
    pub front: &'a [u8],
    pub body: &'a [u8],
}

/// The first shard of a part: the part's number times the shards, divided by the parts and rounded down.
fn first_shard(shards: u32, parts: u32, number: u32) -> u32
    requires some { 1 ≤ parts }
    requires within { number ≤ parts }
    ensures { result ≡ first_of shards parts number }
{
    (u64::from(number) * u64::from(shards) / u64::from(parts)) as u32
}

/// The bytes behind the first shards, by the sizes that their heads state.
fn behind_first(bytes: &[u8], shards: u32) -> &[u8]
    requires { HoldsShards shards bytes.now }
    ensures value { result.now ≡ behind_shards shards bytes.now }
    ensures within { length result.now ≤ length bytes.now }
{
    let mut rest = bytes;
    for _ in 0..shards {
        rest = behind_shard(rest);
    }
    rest
}

/// The bytes of the first shards, by the sizes that their heads state.
fn first_shards(bytes: &[u8], shards: u32) -> &[u8]
    requires { HoldsShards shards bytes.now }
    ensures { result.now ≡ take (length bytes.now - length (behind_shards shards bytes.now)) bytes.now }
{
    &bytes[..bytes.len() - behind_first(bytes, shards).len()]
}

/// Part `number` of a record file that is cut into `parts` parts, at most 64 and at most as many as there are shards. Of n shards it has
/// those from number·n / parts to before (number + 1)·n / parts, both rounded down. One pass over the heads of the shards, and no memory
/// is taken.
pub fn part_cut<'a>(file: &'a [u8], parsed: &Parsed<'a>, parts: u32, number: u32) -> PartCut<'a>
    requires parsed { parse_of file.now ≡ Ok parsed.now }
    requires some { IsInRange 1 PARTS_LIMIT parts }
    requires shards { parts ≤ parsed.now.header.shards }
    requires number { number < parts }
    ensures head { result.head ≡ head_bytes (head_of_part parsed.now.header.shards parts number) }
    ensures front { result.front.now ≡ front_of parsed.now }
    ensures body { result.body.now ≡ body_of parsed.now parts number }
{
    let header = parsed.header();
    let shards = parsed.body();
    let front = &file[..file.len() - shards.len()];
    let first = first_shard(header.shards, parts, number);
    let count = first_shard(header.shards, parts, number + 1) - first;
    let from = behind_first(shards, first);
    let body = if number + 1 == parts {
        from
    } else {
        first_shards(from, count)
    };
    let head = PartHead {
        number,
        parts,
        first,
        count,
    };
    PartCut {
        head: write_part(&head),
        front,
        body,
    }
}
