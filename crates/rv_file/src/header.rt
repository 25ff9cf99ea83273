//! The header of a record file, 173 bytes.

ghost use Rattle.std.specs.Prelude.{◌≡◌, ◌+◌, ◌≤◌, ◌++◌, length, take, drop, slice_index, ◌==◌, if◌then◌else◌};
ghost use Rattle.std.specs.Int.{IsInRange};
ghost use Rattle.rv_spec.specs.Record.{magic, header_bytes, shard_rows};
ghost use Rattle.rv_rules.specs.Reading.{header_of};
ghost use Rattle.rv_file.specs.Front.{with_numbers, is_record, header_in, front_length};

use rv_base::layout::{
    CONSUMED_AT, ELF_HASH_AT, END_CODE_AT, END_KIND_AT, HEADER_BYTES, INPUT_HASH_AT,
    OUTPUT_LENGTH_AT, SHARDS_AT, SIZE_AT, STEPS_AT, VERSION_AT,
};
use rv_base::limits::OUTPUT_LIMIT;
use rv_base::{End, Header, get32, get64, set32, set64};

/// Writes a field of bytes at a place.
fn set_bytes(bytes: &mut [u8], at: usize, field: &[u8])
    requires { at + length field.now ≤ length bytes.old }
    ensures { bytes.new ≡ take at bytes.old ++ field.now ++ drop (at + length field.now) bytes.old }
{
    bytes[at..at + field.len()].copy_from_slice(field);
}

/// Writes a hash at a place.
fn set_hash(bytes: &mut [u8], at: usize, hash: &[u8; 64])
    requires { at + 64 ≤ length bytes.old }
    ensures written { bytes.new ≡ take at bytes.old ++ hash.now ++ drop (at + length hash.now) bytes.old }
    ensures long { length hash.now ≡ 64 }
{
    set_bytes(bytes, at, hash.as_slice());
}

/// Writes the magic and the two hashes, 136 bytes.
fn write_hashes(bytes: &mut [u8], h: &Header)
    requires long { length bytes.old ≡ HEADER_BYTES }
    requires version { IsInRange 1 2 h.now.version }
    ensures { take SIZE_AT bytes.new ≡ magic h.now.version ++ h.now.elf ++ h.now.input }
{
    set_bytes(bytes, 0, b"RV32REC");
    bytes[VERSION_AT] = b'0' + h.version;
    set_hash(bytes, ELF_HASH_AT, &h.elf);
    set_hash(bytes, INPUT_HASH_AT, &h.input);
}

/// Writes the numbers behind the hashes.
fn write_numbers(bytes: &mut [u8], h: &Header)
    requires { length bytes.old ≡ HEADER_BYTES }
    ensures { bytes.new ≡ with_numbers (take SIZE_AT bytes.old) h.now }
{
    set32(bytes, SIZE_AT, h.size);
    set64(bytes, STEPS_AT, h.steps);
    set32(bytes, SHARDS_AT, h.shards);
    bytes[END_KIND_AT] = h.end.kind;
    set32(bytes, END_CODE_AT, h.end.code);
    set64(bytes, CONSUMED_AT, h.consumed);
    set64(bytes, OUTPUT_LENGTH_AT, h.length);
}

/// The header's 173 bytes: `RV32REC` and the version's digit, SHA-512 of the program (64 bytes) and of the input (64), rows a shard (4), steps (8), shards (4), kind (1) and code (4) of the end, bytes of input taken (8), bytes of output (8).
pub fn write_header(h: &Header) -> [u8; HEADER_BYTES]
    requires { IsInRange 1 2 h.now.version }
    ensures { result ≡ header_bytes h.now }
{
    let mut bytes = [0; HEADER_BYTES];
    write_hashes(&mut bytes, h);
    write_numbers(&mut bytes, h);
    bytes
}

/// Whether the file begins with the magic of a version that is known.
pub(crate) fn is_known(bytes: &[u8]) -> bool
    requires { 8 ≤ length bytes.now }
    ensures { result ≡ is_record bytes.now }
{
    let magic = &bytes[..8];
    magic == b"RV32REC1".as_slice() || magic == b"RV32REC2".as_slice()
}

/// A hash of 64 bytes at a place.
fn hash_at(bytes: &[u8], at: usize) -> [u8; 64]
    requires { at + 64 ≤ length bytes.now }
    ensures { result ≡ take 64 (drop at bytes.now) }
{
    let mut hash = [0; 64];
    hash.copy_from_slice(&bytes[at..at + 64]);
    hash
}

/// The version that the eighth byte tells.
fn version_digit(bytes: &[u8]) -> u8
    requires { 8 ≤ length bytes.now }
    ensures { result ≡ (if slice_index bytes.now VERSION_AT == 0x32 then 2 else 1) }
{
    if bytes[VERSION_AT] == b'2' { 2 } else { 1 }
}

/// The fields of a header, unchecked.
pub(crate) fn header_fields(bytes: &[u8]) -> Header
    requires { HEADER_BYTES ≤ length bytes.now }
    ensures { result ≡ header_of bytes.now }
{
    Header {
        version: version_digit(bytes),
        elf: hash_at(bytes, ELF_HASH_AT),
        input: hash_at(bytes, INPUT_HASH_AT),
        size: get32(bytes, SIZE_AT),
        steps: get64(bytes, STEPS_AT),
        shards: get32(bytes, SHARDS_AT),
        end: End {
            kind: bytes[END_KIND_AT],
            code: get32(bytes, END_CODE_AT),
        },
        consumed: get64(bytes, CONSUMED_AT),
        length: get64(bytes, OUTPUT_LENGTH_AT),
    }
}

/// The header that the bytes spell, its fields unchecked. None where the first eight bytes are the magic of no version.
pub fn read_header(bytes: &[u8; HEADER_BYTES]) -> Option<Header>
    ensures { result ≡ header_in bytes.now }
{
    if is_known(bytes) {
        Some(header_fields(bytes))
    } else {
        None
    }
}

/// How many bytes header and output have: 173 and the stated length of the output, where the magic is right and that length is at most 67,108,864 bytes, else 173.
pub fn front_len(bytes: &[u8; HEADER_BYTES]) -> usize
    ensures { result ≡ front_length bytes.now }
{
    let length = get64(bytes, OUTPUT_LENGTH_AT);
    if is_known(bytes) && length <= OUTPUT_LIMIT {
        HEADER_BYTES + length as usize
    } else {
        HEADER_BYTES
    }
}

/// The number of rows of a shard, counted from 0: as many as a shard has, fewer in the last, and 0 behind it.
pub fn rows_of(h: &Header, shard: u32) -> u32
    ensures { result ≡ shard_rows h.now.size h.now.steps shard }
{
    let size = h.size as u64;
    size.min(h.steps.saturating_sub(shard as u64 * size)) as u32
}
