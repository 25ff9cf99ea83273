//! How many bytes the record of a run has at most.
//!
//! Two laws of definitions (this project's own), both the contract of one function that does nothing, to be called where they are needed. The offsets and sizes of a record are those of `rv_base::layout`.
#![tactic(auto)]

ghost use Rattle.std.specs.Prelude.{ℕ, List};
ghost use Rattle.rv_base.specs.declared.record.End.{End};
ghost use Rattle.rv_spec.specs.Digest.{Lanes};
ghost use Rattle.rv_length.specs.Lengths.{IsWithinBound, IsWithinLimit};

/// The record of a program's run on an input, at each version and shard size and whatever the lanes, has at most
/// `record_bound` bytes, which its steps, its shards and its output tell: a step has at most seven accesses, and at
/// most two of these are of words of memory, so it adds at most two entries to the table beside those of the
/// registers and the reservation. Within the limits of steps and shards that is at most `RECORD_LIMIT` bytes.
pub fn record_lengths()
    ensures bound { (lanes : Lanes) (version : ℕ) (elf input : List ℕ) (size steps : ℕ) (end : End) → IsWithinBound lanes version elf input size steps end }
    ensures limit { (lanes : Lanes) (version : ℕ) (elf input : List ℕ) (size steps : ℕ) (end : End) → IsWithinLimit lanes version elf input size steps end }
{}
