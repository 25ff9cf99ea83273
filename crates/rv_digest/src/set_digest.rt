//! The digest of a multiset of tuples.

ghost use Rattle.std.specs.Prelude.{◌≡◌, ◌↔◌, IsTrue, ◌∷◌, ◌++◌, List, [], replicate};
ghost use Rattle.rv_base.specs.declared.record.Tuple.{Tuple};
ghost use Rattle.rv_spec.specs.Digest.{Lanes as LanesOf, digest, set_digest_bytes};
ghost use Rattle.rv_rules.specs.Sums.{add_lanes};
ghost use Rattle.rv_spec.specs.Multiset.{Same};
ghost use Rattle.rv_rules.specs.Reading.{digest_of};

use crate::lanes::Lanes;
use crate::words::{bytes_of, words};
use rv_base::Tuple;
use rv_lanes::add_lanes;

/// The sum of the lanes of a list's tuples, lane by lane, modulo 2^64. The order and the grouping
/// of the tuples do not matter.
#[derive(Clone, Copy, PartialEq, Eq, Debug)]
pub struct SetDigest {
    pub lanes: [u64; 16],
}

impl SetDigest {
    /// The digest of the empty list.
    pub fn zero() -> SetDigest
        ensures zeros { result.lanes ≡ replicate 16 0 }
        ensures of_list { (lanes : LanesOf) → result.lanes ≡ digest lanes [] }
    {
        SetDigest { lanes: [0; 16] }
    }

    /// Adds a tuple to the list.
    pub fn add_tuple<L: Lanes>(&mut self, l: &L, t: Tuple)
        ensures sum { self.new.lanes ≡ add_lanes self.old.lanes (L.lanes t) }
        ensures of_list { (ts : List Tuple) → self.old.lanes ≡ digest L.lanes ts
            → self.new.lanes ≡ digest L.lanes (ts ++ t ∷ []) }
    {
        self.add(&SetDigest { lanes: l.of(t) });
    }

    /// Adds a list of tuples to the list.
    pub fn add_tuples<L: Lanes>(&mut self, l: &L, tuples: &[Tuple])
        ensures sum { self.new.lanes ≡ add_lanes self.old.lanes (digest L.lanes tuples.now) }
        ensures of_list { (ts : List Tuple) → self.old.lanes ≡ digest L.lanes ts
            → self.new.lanes ≡ digest L.lanes (ts ++ tuples.now) }
    {
        self.add(&SetDigest {
            lanes: l.sum_of(tuples),
        });
    }

    /// Joins another list to the list.
    pub fn add(&mut self, other: &SetDigest)
        ensures sum { self.new.lanes ≡ add_lanes self.old.lanes other.now.lanes }
        ensures of_list { (lanes : LanesOf) (xs ys : List Tuple) → self.old.lanes ≡ digest lanes xs
            → other.now.lanes ≡ digest lanes ys → self.new.lanes ≡ digest lanes (xs ++ ys) }
    {
        add_lanes(&mut self.lanes, &other.lanes);
    }

    /// Whether all sixteen lanes are equal.
    pub fn same(&self, other: &SetDigest) -> bool
        ensures equal { IsTrue result ↔ (self.now.lanes ≡ other.now.lanes) }
        ensures one_multiset { (lanes : LanesOf) (xs ys : List Tuple) → Same xs ys → self.now.lanes ≡ digest lanes xs
            → other.now.lanes ≡ digest lanes ys → IsTrue result }
    {
        self.lanes == other.lanes
    }

    /// The lanes in order, each as 8 bytes, the least significant byte first.
    pub fn to_bytes(&self) -> [u8; 128]
        ensures bytes { result ≡ set_digest_bytes self.now.lanes }
        ensures inverse { digest_of result ≡ self.now.lanes }
    {
        bytes_of(&self.lanes)
    }

    /// The digest whose bytes these are.
    pub fn from_bytes(bytes: &[u8; 128]) -> SetDigest
        ensures lanes { result.lanes ≡ digest_of bytes.now }
        ensures inverse { set_digest_bytes result.lanes ≡ bytes.now }
    {
        SetDigest {
            lanes: words(bytes),
        }
    }
}
