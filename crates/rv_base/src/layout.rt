//! Where the fields of a record file lie, in bytes, and how long its parts are. Numbers lie the least significant byte first.

/// The bytes of the header.
pub const HEADER_BYTES: usize = 173;

/// Of the header: the digit of the version, the last byte of the magic.
pub const VERSION_AT: usize = 7;

/// Of the header: the SHA-512 of the ELF file.
pub const ELF_HASH_AT: usize = 8;

/// Of the header: the SHA-512 of the input.
pub const INPUT_HASH_AT: usize = 72;

/// Of the header: the rows of each shard but the last.
pub const SIZE_AT: usize = 136;

/// Of the header: the steps.
pub const STEPS_AT: usize = 140;

/// Of the header: the shards.
pub const SHARDS_AT: usize = 148;

/// Of the header: the kind of the end.
pub const END_KIND_AT: usize = 152;

/// Of the header: the code of the end.
pub const END_CODE_AT: usize = 153;

/// Of the header: the bytes of input that were consumed.
pub const CONSUMED_AT: usize = 157;

/// Of the header: the bytes of output.
pub const OUTPUT_LENGTH_AT: usize = 165;

/// The bytes of a SHA-512 hash.
pub const HASH_BYTES: usize = 64;

/// The bytes of the head of a shard.
pub const HEAD_BYTES: usize = 32;

/// Of a head: the shard's index.
pub const HEAD_INDEX_AT: usize = 0;

/// Of a head: the shard's rows.
pub const HEAD_ROWS_AT: usize = 4;

/// Of a head: the address of the first instruction.
pub const HEAD_PC_AT: usize = 8;

/// Of a head: the bytes of input read before the shard.
pub const HEAD_INPUT_AT: usize = 12;

/// Of a head: the bytes of output put before the shard.
pub const HEAD_OUTPUT_AT: usize = 20;

/// Of a head: the bytes of the shard's rows.
pub const HEAD_ROW_BYTES_AT: usize = 28;

/// The bytes of a row before its accesses.
pub const ROW_BYTES: usize = 9;

/// Of a row: the address of its instruction.
pub const ROW_PC_AT: usize = 0;

/// Of a row: the address of the next instruction.
pub const ROW_NEXT_AT: usize = 4;

/// Of a row: the number of its accesses.
pub const ROW_COUNT_AT: usize = 8;

/// The bytes of an access.
pub const ACCESS_BYTES: usize = 21;

/// Of an access: its slot.
pub const ACCESS_SLOT_AT: usize = 0;

/// Of an access: its cell.
pub const ACCESS_CELL_AT: usize = 1;

/// Of an access: the old value.
pub const ACCESS_OLD_AT: usize = 5;

/// Of an access: the time of the access before it at the same cell.
pub const ACCESS_PREV_AT: usize = 9;

/// Of an access: the new value.
pub const ACCESS_NEW_AT: usize = 17;

/// The bytes of a digest: sixteen numbers of 8 bytes.
pub const DIGEST_BYTES: usize = 128;

/// The bytes of the two digests behind a shard's rows.
pub const DIGESTS_BYTES: usize = 256;

/// The bytes of the number of the table's entries.
pub const COUNT_BYTES: usize = 4;

/// The bytes of an entry of the table.
pub const ENTRY_BYTES: usize = 16;

/// Of an entry: its cell.
pub const ENTRY_CELL_AT: usize = 0;

/// Of an entry: the cell's last value.
pub const ENTRY_VALUE_AT: usize = 4;

/// Of an entry: the time of the cell's last use.
pub const ENTRY_TIME_AT: usize = 8;
