//! Sums of the lanes of lists of tuples.

ghost use Rattle.std.specs.Prelude.{◌≡◌, ◌∷◌, ◌++◌, List, []};
ghost use Rattle.rv_base.specs.declared.record.Tuple.{Tuple};
ghost use Rattle.rv_rules.specs.Sums.{add_lanes};
ghost use Rattle.rv_spec.specs.Digest.{digest, sha_lanes};

use crate::two::lanes_of_two;
use rv_base::Tuple;
use std::simd::prelude::*;

/// The digest of a list of tuples: the sum of their sixteen lanes by SHA-512, lane by lane, modulo 2^64.
pub fn sum_of(tuples: &[Tuple]) -> [u64; 16]
    ensures { result ≡ digest sha_lanes tuples.now }
{
    let mut sum = [0; 16];
    for i in 0..tuples.len() / 2 {
        add_two(&mut sum, tuples[2 * i], tuples[2 * i + 1]);
    }
    if tuples.len() % 2 == 1 {
        add_one(&mut sum, tuples[tuples.len() - 1]);
    }
    sum
}

/// Adds sixteen numbers to sixteen others, each to its own, modulo 2^64.
#[inline(always)]
pub fn add_lanes(sum: &mut [u64; 16], lanes: &[u64; 16])
    ensures { sum.new ≡ add_lanes sum.old lanes.now }
{
    let low = u64x8::from_slice(&sum[..8]) + u64x8::from_slice(&lanes[..8]);
    let high = u64x8::from_slice(&sum[8..]) + u64x8::from_slice(&lanes[8..]);
    low.copy_to_slice(&mut sum[..8]);
    high.copy_to_slice(&mut sum[8..]);
}

// Adds two tuples to the list.
#[inline(always)]
fn add_two(sum: &mut [u64; 16], t: Tuple, u: Tuple)
    ensures { (ts : List Tuple) → sum.old ≡ digest sha_lanes ts → sum.new ≡ digest sha_lanes (ts ++ t ∷ u ∷ []) }
{
    let (first, second) = lanes_of_two(t, u);
    add_lanes(sum, &first);
    add_lanes(sum, &second);
}

// Adds a tuple to the list. It is hashed beside itself, and the second lanes are dropped.
fn add_one(sum: &mut [u64; 16], t: Tuple)
    ensures { (ts : List Tuple) → sum.old ≡ digest sha_lanes ts → sum.new ≡ digest sha_lanes (ts ++ t ∷ []) }
{
    let (lanes, _) = lanes_of_two(t, t);
    add_lanes(sum, &lanes);
}
