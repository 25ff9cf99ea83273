//! What is told of a trial.

/// What is told of a run and its record: the steps, the ending one counted; the shards; the accesses of all rows; the bytes that the
/// run put; the bytes of the record; and the first 8 bytes of the record's SHA-512 (FIPS 180-4).
#[derive(Clone, Copy, PartialEq, Eq, Debug)]
pub struct Trial {
    pub steps: u64,
    pub shards: u32,
    pub accesses: u64,
    pub output: u64,
    pub bytes: u64,
    pub record: [u8; 8],
}
