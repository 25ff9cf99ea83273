//! Where the shards of a record file begin.

ghost use Rattle.std.specs.Prelude.{◌≡◌, ◌<◌, ◌≤◌, ◌+◌, IfOk, MatchOption, drop, length};
ghost use Rattle.rv_rules.specs.Reading.{head_of};
ghost use Rattle.rv_file.specs.Parsing.{shard_size as size_of};
ghost use Rattle.rv_panel.specs.Starts.{AreStarts};

use rv_base::layout::{DIGESTS_BYTES, HEAD_BYTES};
use rv_base::{NoMemory, ShardHead};
use rv_file::read_head;
use std::alloc::Global;

/// The bytes of a shard beside its rows.
const AROUND_ROWS: usize = HEAD_BYTES + DIGESTS_BYTES;

/// The bytes behind the first n.
pub(crate) fn behind(bytes: &[u8], n: usize) -> &[u8]
    ensures { result.now ≡ drop n bytes.now }
{
    bytes.get(n..).unwrap_or(&[])
}

/// The head at the front of the bytes, if it is all there.
pub(crate) fn head_at(bytes: &[u8]) -> Option<ShardHead>
    ensures { MatchOption result (length bytes.now < HEAD_BYTES) (λ h. (HEAD_BYTES ≤ length bytes.now) × (h ≡ head_of bytes.now)) }
{
    match bytes.first_chunk::<HEAD_BYTES>() {
        Some(head) => Some(read_head(head)),
        None => None,
    }
}

/// The bytes of the shard with this head.
pub(crate) fn shard_size(head: &ShardHead) -> usize
    ensures { result ≡ AROUND_ROWS + head.now.bytes }
{
    AROUND_ROWS + head.bytes as usize
}

/// Where the first shards begin, as far as their heads are there.
pub(crate) fn find_starts(alloc: Global, shards: u32, bytes: &[u8]) -> Result<Vec<usize>, NoMemory>
    ensures { IfOk result (λ v. AreStarts bytes.now shards v.items) }
{
    let mut starts = Vec::new(alloc);
    let mut rest = bytes;
    for _ in 0..shards {
        let Some(head) = head_at(rest) else {
            return Ok(starts);
        };
        starts.push(bytes.len() - rest.len())?;
        rest = behind(rest, shard_size(&head));
    }
    Ok(starts)
}
