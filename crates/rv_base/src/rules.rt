//! The rules of the verdict, by number: each names what breaks it.

/// Fewer bytes are left than the part needs.
pub const SHORT: u8 = 1;

/// The file doesn't begin as a record.
pub const MAGIC: u8 = 2;

/// The hash of the ELF file isn't that of the program.
pub const PROGRAM: u8 = 3;

/// The hash of the input isn't that of the input.
pub const INPUT: u8 = 4;

/// The rows of a shard aren't 1 to 65,536.
pub const SHARD_SIZE: u8 = 5;

/// No steps, or shards that aren't the steps over the shard size, rounded up, or too many shards.
pub const COUNTS: u8 = 6;

/// The kind of the end is no kind, or its code isn't 0 though it isn't an exit.
pub const END_KIND: u8 = 7;

/// The stated output is above its limit.
pub const OUTPUT_LENGTH: u8 = 8;

/// The head of a shard isn't that of its place.
pub const SHARD_HEAD: u8 = 9;

/// A row doesn't have 1 to 8 accesses.
pub const ROW_SHAPE: u8 = 10;

/// The row's instruction isn't at its place.
pub const PC: u8 = 11;

/// The slots of the row aren't the expected ones.
pub const SLOT: u8 = 12;

/// The cells of the row aren't the expected ones.
pub const CELL: u8 = 13;

/// The new values of the row aren't the expected ones.
pub const VALUE: u8 = 14;

/// An access reads a time that isn't before its own.
pub const TIME_ORDER: u8 = 15;

/// The next instruction isn't the expected one.
pub const NEXT: u8 = 16;

/// A byte that is put isn't the stated output's.
pub const OUTPUT_BYTE: u8 = 17;

/// A row before the last ends the run.
pub const ENDS_EARLY: u8 = 18;

/// The last row doesn't end the run as the header says.
pub const END_OTHER: u8 = 19;

/// The rows of a shard don't have the stated bytes.
pub const ROW_BYTES: u8 = 20;

/// A stated digest isn't that of the shard's tuples.
pub const SHARD_DIGEST: u8 = 21;

/// The cells of the table don't rise.
pub const TABLE_ORDER: u8 = 22;

/// An entry of the table is of no cell.
pub const TABLE_CELL: u8 = 23;

/// The time of an entry is 0.
pub const TABLE_TIME: u8 = 24;

/// The input consumed or the output put isn't what the header says.
pub const LEFT: u8 = 25;

/// The digest of all that is read isn't that of all that is written.
pub const BALANCE: u8 = 26;

/// Bytes follow the table.
pub const TRAILING: u8 = 27;
