//! What a record file holds, as plain data.

ghost use Rattle.std.specs.Prelude.{◌≡◌};

use std::alloc::{AllocError, AllocFailed};

/// A value that a cell had at a time: what offline memory checking (Blum et al. 1991) counts.
///
/// A cell below 2^30 is that word of memory, 2^30 + r is register r (1 to 31), and 2^30 + 32 is the reservation of LR.W.
/// Slot j of step s has the time 16s + j; time 0 is before the run. Tuples are ordered by cell, value and time.
#[derive(Clone, Copy, PartialEq, Eq, PartialOrd, Ord, Debug)]
pub struct Tuple {
    pub cell: u32,
    pub value: u32,
    pub time: u64,
}

/// One access of a row: its slot (1 to 8), its cell, the value and the time that it reads, and the value that it writes.
/// `prev` is the time of the use of the cell before this one, or 0.
#[derive(Clone, Copy, PartialEq, Eq, Default, Debug)]
pub struct Access {
    pub slot: u8,
    pub cell: u32,
    pub old: u32,
    pub prev: u64,
    pub new: u32,
}

/// One access that a step is expected to make: its slot, its cell and the value that it writes.
#[derive(Clone, Copy, PartialEq, Eq, Default, Debug)]
pub struct Touch {
    pub slot: u8,
    pub cell: u32,
    pub new: u32,
}

/// The old value in each slot of a row, 0 where the row has no such slot.
#[derive(Clone, Copy, PartialEq, Eq, Debug)]
pub struct Seen {
    pub s1: u32,
    pub s2: u32,
    pub s3: u32,
    pub s4: u32,
    pub s5: u32,
    pub s6: u32,
    pub s7: u32,
    pub s8: u32,
}

/// How a run ended. The kind is 0 for an exit, 1 for an illegal word, 2 for EBREAK, and 3, 4 and 5 for a misaligned jump, load
/// and store. The code is the exit code, and 0 unless the kind is 0.
#[derive(Clone, Copy, PartialEq, Eq, Debug)]
pub struct End {
    pub kind: u8,
    pub code: u32,
}

/// Where a run stands before a step: the address of its instruction, and how many bytes of input were read and of output put.
#[derive(Clone, Copy, PartialEq, Eq, Debug)]
pub struct Place {
    pub pc: u32,
    pub input: u64,
    pub output: u64,
}

/// A cell with the value and the time of its last use.
#[derive(Clone, Copy, PartialEq, Eq, Debug)]
pub struct TableEntry {
    pub cell: u32,
    pub value: u32,
    pub time: u64,
}

/// The first broken check of a record file: shard and row, counted from 0, and the number of the rule, 1 to 27.
#[derive(Clone, Copy, PartialEq, Eq, Debug)]
pub struct Refusal {
    pub shard: u32,
    pub row: u32,
    pub rule: u8,
}

impl Refusal {
    /// The refusal by a rule, at a shard and a row.
    pub fn at(shard: u32, row: u32, rule: u8) -> Refusal
        ensures { result ≡ record { shard = shard; row = row; rule = rule } }
    {
        Refusal { shard, row, rule }
    }
}

/// Want of memory.
#[derive(Clone, Copy, PartialEq, Eq, Debug)]
pub struct NoMemory;

impl From<AllocError> for NoMemory {
    ghost from_gives = { λ _ e. e ≡ record {} };

    fn from(_e: AllocError) -> NoMemory {
        NoMemory
    }
}

impl<T: Drop> From<AllocFailed<T>> for NoMemory {
    ghost from_gives = { λ _ e. e ≡ record {} };

    fn from(_e: AllocFailed<T>) -> NoMemory {
        NoMemory
    }
}

/// What a checker answers on a record file: the steps and shards of an accepted one and how its run ended, or the first broken check.
#[derive(Clone, Copy, PartialEq, Eq, Debug)]
pub enum Verdict {
    Accept { steps: u64, shards: u32, end: End },
    Refuse(Refusal),
}

/// The fields at the front of a record file: the version (1 or 2), the SHA-512 of the ELF file and of the input, the rows of each
/// shard but the last, the steps, the shards, the end, the input bytes consumed and the output bytes.
#[derive(Clone, Copy, PartialEq, Eq, Debug)]
pub struct Header {
    pub version: u8,
    pub elf: [u8; 64],
    pub input: [u8; 64],
    pub size: u32,
    pub steps: u64,
    pub shards: u32,
    pub end: End,
    pub consumed: u64,
    pub length: u64,
}

/// The fields at the front of a shard: its index, its rows, the place before its first row, and the bytes of its rows.
#[derive(Clone, Copy, PartialEq, Eq, Debug)]
pub struct ShardHead {
    pub index: u32,
    pub rows: u32,
    pub pc: u32,
    pub input: u64,
    pub output: u64,
    pub bytes: u32,
}
