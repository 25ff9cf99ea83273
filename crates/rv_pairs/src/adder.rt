//! Sums of tuples that come one by one.

ghost use Rattle.std.specs.Prelude.{◌≡◌, ◌<◌, ◌∷◌, []};
ghost use Rattle.rv_spec.specs.Digest.{Lanes as LanesOf, digest};

use rv_base::Tuple;
use rv_digest::{Lanes, SetDigest};

/// A tuple to fill a buffer with.
pub(crate) const NO_TUPLE: Tuple = Tuple {
    cell: 0,
    value: 0,
    time: 0,
};

// How many tuples are hashed at once.
const BATCH: usize = 64;

/// The digest of a list of tuples, of which the last may still have to be hashed: that is done for many at once.
#[derive(Clone, Copy, Debug)]
pub struct Adder {
    pub sum: SetDigest,
    pub buffer: [Tuple; BATCH],
    pub count: usize,
    pub ghost few: { count < 64 },
}

impl Adder {
    ghost use Rattle.rv_pairs.specs.Covers.{joined, total as total_of, with_tuples};

    /// The empty list.
    pub fn new() -> Adder
        ensures { (lanes : LanesOf) → total_of lanes result ≡ digest lanes [] }
    {
        Adder {
            sum: SetDigest::zero(),
            buffer: [NO_TUPLE; BATCH],
            count: 0,
        }
    }

    /// The empty list again.
    pub fn clear(&mut self)
        ensures { (lanes : LanesOf) → total_of lanes self.new ≡ digest lanes [] }
    {
        self.sum = SetDigest::zero();
        self.count = 0;
    }

    /// Adds a tuple to the list.
    pub fn add<L: Lanes>(&mut self, l: &L, t: Tuple)
        ensures { total_of L.lanes self.new ≡ with_tuples L.lanes (total_of L.lanes self.old) (t ∷ []) }
    {
        self.buffer[self.count] = t;
        if self.count + 1 < BATCH {
            self.count += 1;
        } else {
            self.sum.add_tuples(l, &self.buffer);
            self.count = 0;
        }
    }

    /// Joins another list to the list, by its digest.
    pub fn join(&mut self, other: &SetDigest)
        ensures { (lanes : LanesOf) → total_of lanes self.new ≡ joined (total_of lanes self.old) other.now.lanes }
    {
        self.sum.add(other);
    }

    /// The digest of the list.
    pub fn total<L: Lanes>(&self, l: &L) -> SetDigest
        ensures { result.lanes ≡ total_of L.lanes self.now }
    {
        let mut total = self.sum;
        total.add_tuples(l, &self.buffer[..self.count]);
        total
    }
}
