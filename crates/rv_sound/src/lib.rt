//! The laws of accepted files: an accepted file is the record of the run, or a collision, and the record of a run is accepted.
//!
//! They are laws of definitions: each is the contract of a function that does nothing, to be called where the law is needed. Offline memory checking is after Blum et al. 1991, additive digests after Clarke et al. 2003.
#![tactic(auto)]

ghost use Rattle.std.specs.Prelude.{ℕ, List};
ghost use Rattle.rv_base.specs.declared.End.{End};
ghost use Rattle.rv_spec.specs.Digest.{Lanes};
ghost use Rattle.rv_spec.specs.Record.{Parts};
ghost use Rattle.rv_rules.specs.Laws.{AcceptedIsRecord, RecordIsAccepted};
ghost use Rattle.rv_sound.specs.Accepted.{ReadsAccepted};

/// The verdict accepts exactly the spellings of accepted parts: what it reads good, rule by rule and
/// from the first byte to the last, are parts that have a spelling and of which all holds that they
/// state; and the spelling of such parts is read good.
pub fn reading()
    ensures { (lanes : Lanes) (elf input : List ℕ) → ReadsAccepted lanes elf input }
{}

/// A file that the verdict accepts is the record of the program's run on the input, at the file's own
/// version and shard size, in its header's steps and with its end; or the tuples that it reads and
/// those that it writes are different multisets of one digest. Nothing is asked of the lanes.
pub fn soundness()
    ensures { (lanes : Lanes) (elf input file : List ℕ) (parts : Parts) → AcceptedIsRecord lanes elf input file parts }
{}

/// The record of a run that ends, within the limits of a file, is accepted with its steps, shards and
/// end: at each version and shard size, and whatever the lanes.
pub fn completeness()
    ensures { (lanes : Lanes) (version : ℕ) (elf input : List ℕ) (size steps : ℕ) (end : End) → RecordIsAccepted lanes version elf input size steps end }
{}
