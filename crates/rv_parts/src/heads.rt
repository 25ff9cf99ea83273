//! The head of a part, 24 bytes.

ghost use Rattle.std.specs.Prelude.{◌≡◌, ◌≤◌, length, take, bytes_eq};
ghost use Rattle.rv_parts.specs.Heads.{part_head_of, head_bytes, head_in, part_magic};

use rv_base::{get32, set32};

/// The bytes of a part's head.
pub const PART_HEAD_BYTES: usize = 24;

/// A head of zeros behind its magic.
const BLANK: [u8; PART_HEAD_BYTES] = *b"RV32PRT1\0\0\0\0\0\0\0\0\0\0\0\0\0\0\0\0";

/// The fields at the front of a part: its number, how many parts there are, its first shard and its number of shards.
#[derive(Clone, Copy, PartialEq, Eq, Debug)]
pub struct PartHead {
    pub number: u32,
    pub parts: u32,
    pub first: u32,
    pub count: u32,
}

/// Whether the bytes begin as a part does.
fn is_known(bytes: &[u8]) -> bool
    requires { 8 ≤ length bytes.now }
    ensures { result ≡ bytes_eq (take 8 bytes.now) part_magic }
{
    &bytes[..8] == b"RV32PRT1".as_slice()
}

/// The fields of a head at the front of the bytes, unchecked.
fn part_head_fields(bytes: &[u8]) -> PartHead
    requires { PART_HEAD_BYTES ≤ length bytes.now }
    ensures { result ≡ part_head_of bytes.now }
{
    PartHead {
        number: get32(bytes, 8),
        parts: get32(bytes, 12),
        first: get32(bytes, 16),
        count: get32(bytes, 20),
    }
}

/// The head of the part that begins with these bytes: `RV32PRT1`, then number, parts, first shard and number of shards (4 bytes each, the least significant first). None exactly where there are fewer than 24 bytes, or the magic is wrong.
pub fn read_part(bytes: &[u8]) -> Option<PartHead>
    ensures { result ≡ head_in bytes.now }
{
    if bytes.len() < PART_HEAD_BYTES || !is_known(bytes) {
        return None;
    }
    Some(part_head_fields(bytes))
}

/// The 24 bytes of a part's head.
pub(crate) fn write_part(h: &PartHead) -> [u8; PART_HEAD_BYTES]
    ensures { result ≡ head_bytes h.now }
{
    let mut bytes = BLANK;
    set32(&mut bytes, 8, h.number);
    set32(&mut bytes, 12, h.parts);
    set32(&mut bytes, 16, h.first);
    set32(&mut bytes, 20, h.count);
    bytes
}
