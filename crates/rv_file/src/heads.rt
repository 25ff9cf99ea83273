//! The head of a shard, 32 bytes.

ghost use Rattle.std.specs.Prelude.{◌≡◌, ◌≤◌, length};
ghost use Rattle.rv_spec.specs.Record.{head_bytes};
ghost use Rattle.rv_rules.specs.Reading.{head_of};

use rv_base::layout::{
    HEAD_BYTES, HEAD_INDEX_AT, HEAD_INPUT_AT, HEAD_OUTPUT_AT, HEAD_PC_AT, HEAD_ROW_BYTES_AT,
    HEAD_ROWS_AT,
};
use rv_base::{ShardHead, get32, get64, set32, set64};

/// The 32 bytes of a shard's head: index (4), rows (4), pc (4), input position (8) and output position (8) before its first row, bytes of its rows (4).
pub fn write_head(h: &ShardHead) -> [u8; HEAD_BYTES]
    ensures { result ≡ head_bytes h.now }
{
    let mut bytes = [0; HEAD_BYTES];
    set32(&mut bytes, HEAD_INDEX_AT, h.index);
    set32(&mut bytes, HEAD_ROWS_AT, h.rows);
    set32(&mut bytes, HEAD_PC_AT, h.pc);
    set64(&mut bytes, HEAD_INPUT_AT, h.input);
    set64(&mut bytes, HEAD_OUTPUT_AT, h.output);
    set32(&mut bytes, HEAD_ROW_BYTES_AT, h.bytes);
    bytes
}

/// The fields of a head at the front of the bytes, unchecked.
pub(crate) fn head_fields(bytes: &[u8]) -> ShardHead
    requires { HEAD_BYTES ≤ length bytes.now }
    ensures { result ≡ head_of bytes.now }
{
    ShardHead {
        index: get32(bytes, HEAD_INDEX_AT),
        rows: get32(bytes, HEAD_ROWS_AT),
        pc: get32(bytes, HEAD_PC_AT),
        input: get64(bytes, HEAD_INPUT_AT),
        output: get64(bytes, HEAD_OUTPUT_AT),
        bytes: get32(bytes, HEAD_ROW_BYTES_AT),
    }
}

/// The head that the bytes spell, its fields unchecked.
pub fn read_head(bytes: &[u8; HEAD_BYTES]) -> ShardHead
    ensures { result ≡ head_of bytes.now }
{
    head_fields(bytes)
}
