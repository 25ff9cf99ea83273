//! The sixteen numbers that stand for a tuple.

ghost use Rattle.std.specs.Prelude.{◌≡◌, ℕ, ◌∷◌, List};
ghost use Rattle.rv_base.specs.declared.record.Tuple.{Tuple};
ghost use Rattle.rv_spec.specs.Digest.{digest, sha_lanes, tuple_bytes};
ghost use Rattle.rv_rules.specs.Sums.{tiny_lanes};

use crate::words::words;
use rv_base::Tuple;
use rv_lanes::add_lanes;
use sha2::{Digest, Sha512};

/// Sixteen numbers below 2^64 for each tuple.
pub trait Lanes: Drop {
    // the lanes of each tuple
    ghost lanes: { Tuple → List ℕ };

    /// The sixteen lanes of a tuple.
    fn of(&self, t: Tuple) -> [u64; 16]
        ensures { result ≡ lanes t };

    /// The sum of the lanes of a list's tuples, lane by lane, modulo 2^64.
    fn sum_of(&self, tuples: &[Tuple]) -> [u64; 16]
        ensures { result ≡ digest lanes tuples.now }
    {
        let mut sum = [0; 16];
        for t in tuples {
            add_lanes(&mut sum, &self.of(*t));
        }
        sum
    }
}

/// The lanes by SHA-512 (FIPS 180-4): those of the byte 0 before the tuple's 16 bytes, then those
/// of the byte 1 before them.
#[derive(Clone, Copy, Debug)]
pub struct ShaLanes;

impl Lanes for ShaLanes {
    ghost lanes = { sha_lanes };

    fn of(&self, t: Tuple) -> [u64; 16] {
        let mut lanes = [0; 16];
        lanes[..8].copy_from_slice(&words::<8>(&Sha512::digest(&message(0, t))));
        lanes[8..].copy_from_slice(&words::<8>(&Sha512::digest(&message(1, t))));
        lanes
    }

    fn sum_of(&self, tuples: &[Tuple]) -> [u64; 16] {
        rv_lanes::sum_of(tuples)
    }
}

/// Sixteen zeros for each tuple: lanes under which all lists have one digest, for tests.
#[derive(Clone, Copy, Debug)]
pub struct TinyLanes;

impl Lanes for TinyLanes {
    ghost lanes = { tiny_lanes };

    fn of(&self, _t: Tuple) -> [u64; 16] {
        [0; 16]
    }
}

// What is hashed: a byte, then the 16 bytes of a tuple.
fn message(prefix: u8, t: Tuple) -> [u8; 17]
    ensures { result ≡ prefix ∷ tuple_bytes t }
{
    let mut bytes = [prefix; 17];
    bytes[1..5].copy_from_slice(&t.cell.to_le_bytes());
    bytes[5..9].copy_from_slice(&t.value.to_le_bytes());
    bytes[9..].copy_from_slice(&t.time.to_le_bytes());
    bytes
}
