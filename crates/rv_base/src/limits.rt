//! Limits of the program and of record files.

/// The most bytes of an ELF file.
pub const ELF_LIMIT: usize = 67_108_864;

/// The most bytes of an input.
pub const INPUT_LIMIT: usize = 16_777_216;

/// The most bytes of output that a record states.
pub const OUTPUT_LIMIT: u64 = 67_108_864;

/// The most bytes of a record that a command holds whole.
pub const RECORD_LIMIT: usize = 2_147_483_648;

/// The most rows of a shard.
pub const SHARD_SIZE_LIMIT: u32 = 65_536;

/// The most shards of a record.
pub const SHARDS_LIMIT: u32 = 65_536;

/// The most steps of a run that a command takes.
pub const BUDGET_LIMIT: u32 = 8_388_608;

/// The most workers.
pub const WORKERS_LIMIT: u32 = 64;

/// The most segments of an ELF file that are loaded.
pub const SEGMENTS_LIMIT: usize = 64;
