//! The digests of the tuples that are read and of those that are written.

ghost use Rattle.std.specs.Prelude.{◌≡◌, ◌≤◌, ◌&&◌, ◌∷◌, [], true, drop, length, bytes_eq};
ghost use Rattle.rv_base.specs.declared.layout.TheConstants.{DIGEST_BYTES as digest_size, DIGESTS_BYTES as digests_size};
ghost use Rattle.rv_spec.specs.Digest.{Lanes as LanesOf};
ghost use Rattle.rv_rules.specs.Reading.{digest_of};
ghost use Rattle.rv_reading.specs.Machine.{no_sums, with_sums, with_tuples};
ghost use Rattle.rv_judge.specs.Phases.{sums_in, sums_of, totals_of};

use rv_base::Tuple;
use rv_base::layout::DIGEST_BYTES;
use rv_digest::{Lanes, SetDigest};
use rv_pairs::{Adder, Pairing};

/// The digests of what was read and of what was written.
#[derive(Clone, Copy)]
pub(crate) struct Sums {
    pub reads: SetDigest,
    pub writes: SetDigest,
}

impl Sums {
    /// Of the accesses of a shard.
    pub fn of<L: Lanes>(shard: &Pairing, lanes: &L) -> Sums
        ensures { sums_of result ≡ sums_in L.lanes shard.now }
    {
        let (reads, writes) = shard.digests(lanes);
        Sums { reads, writes }
    }

    /// Whether the bytes begin with the two digests.
    pub fn are_stated(&self, bytes: &[u8]) -> bool
        requires { digests_size ≤ length bytes.now }
        ensures { result ≡ (bytes_eq (digest_of bytes.now) self.now.reads.lanes && bytes_eq (digest_of (drop digest_size bytes.now)) self.now.writes.lanes) }
    {
        states(bytes, &self.reads) && states(&bytes[DIGEST_BYTES..], &self.writes)
    }

    /// Whether all that is read has the digest of all that is written.
    pub fn are_one(&self) -> bool
        ensures { result ≡ bytes_eq self.now.reads.lanes self.now.writes.lanes }
    {
        self.reads.lanes == self.writes.lanes
    }
}

/// The digests of all that was read and of all that was written, where some tuples may still have to be hashed.
#[derive(Clone, Copy)]
pub(crate) struct Totals {
    pub reads: Adder,
    pub writes: Adder,
}

impl Totals {
    /// Of no tuples.
    pub fn none() -> Totals
        ensures { (lanes : LanesOf) → totals_of lanes result ≡ no_sums }
    {
        Totals {
            reads: Adder::new(),
            writes: Adder::new(),
        }
    }

    /// Adds a tuple that is read and one that is written.
    pub fn add<L: Lanes>(&mut self, lanes: &L, read: Tuple, written: Tuple)
        ensures { totals_of L.lanes self.new ≡ with_tuples true L.lanes (totals_of L.lanes self.old) (read ∷ []) (written ∷ []) }
    {
        self.reads.add(lanes, read);
        self.writes.add(lanes, written);
    }

    /// Adds all that others have.
    pub fn join(&mut self, others: &Sums)
        ensures { (lanes : LanesOf) → totals_of lanes self.new ≡ with_sums true lanes (totals_of lanes self.old) (sums_of others.now) }
    {
        self.reads.join(&others.reads);
        self.writes.join(&others.writes);
    }

    /// The digests, with all that waits.
    pub fn sums<L: Lanes>(&self, lanes: &L) -> Sums
        ensures { sums_of result ≡ totals_of L.lanes self.now }
    {
        Sums {
            reads: self.reads.total(lanes),
            writes: self.writes.total(lanes),
        }
    }
}

/// Whether the bytes begin with a digest.
fn states(bytes: &[u8], digest: &SetDigest) -> bool
    requires { digest_size ≤ length bytes.now }
    ensures { result ≡ bytes_eq (digest_of bytes.now) digest.now.lanes }
{
    match bytes.first_chunk::<DIGEST_BYTES>() {
        Some(stated) => SetDigest::from_bytes(stated).lanes == digest.lanes,
        None => false,
    }
}
