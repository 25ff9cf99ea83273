//! The lanes of two tuples: four messages of 17 bytes, each padded to one block (FIPS 180-4, section 5.1.2).

ghost use Rattle.std.specs.Prelude.{◌≡◌, ℕ, ◌*◌, ◌<◌, ◌∷◌, ◌++◌, map, slice_index};
ghost use Rattle.std.specs.Int.{w64, swap_bytes};
ghost use Rattle.sha2.specs.Sha512.{padded_message, word_at};
ghost use Rattle.rv_spec.specs.Digest.{sha_lanes, tuple_bytes};
ghost use Rattle.rv_lanes.specs.Lanes.{block_of, lane, words_of};
ghost use Rattle.rv_lanes.specs.Messages.{message_of};

use crate::rounds::hash;
use rv_base::Tuple;
use std::simd::u64x4;

// The lanes of two tuples by SHA-512.
#[inline(always)]
pub(crate) fn lanes_of_two(t: Tuple, u: Tuple) -> ([u64; 16], [u64; 16])
    ensures first { result.0 ≡ sha_lanes t }
    ensures second { result.1 ≡ sha_lanes u }
{
    let (first, second, third) = words_of_two(t, u);
    numbers(hash(first, second, third))
}

// The first three words of the one block of a byte and a tuple: the bytes, and the byte 0x80 that begins the padding.
#[inline(always)]
fn words_of_message(prefix: u8, t: Tuple) -> [u64; 3]
    ensures { (k : ℕ) → k < 3 → slice_index result k ≡ word_at (padded_message (prefix ∷ tuple_bytes t)) (8 * k) }
{
    let [c0, c1, c2, c3] = t.cell.to_le_bytes();
    let [v0, v1, v2, v3] = t.value.to_le_bytes();
    let [t0, t1, t2, t3, t4, t5, t6, t7] = t.time.to_le_bytes();
    [
        u64::from_be_bytes([prefix, c0, c1, c2, c3, v0, v1, v2]),
        u64::from_be_bytes([v3, t0, t1, t2, t3, t4, t5, t6]),
        u64::from_be_bytes([t7, 0x80, 0, 0, 0, 0, 0, 0]),
    ]
}

// The first three words of the four messages: each tuple after the byte 0 and after the byte 1.
#[inline(always)]
fn words_of_two(t: Tuple, u: Tuple) -> (u64x4, u64x4, u64x4)
    ensures { (j : ℕ) → j < 4 → (k : ℕ) → k < 16 → slice_index (words_of j (block_of result.0 result.1 result.2)) k ≡ word_at (padded_message (message_of t u j)) (8 * k) }
{
    let [a0, a1, a2] = words_of_message(0, t);
    let [b0, b1, b2] = words_of_message(1, t);
    let [c0, c1, c2] = words_of_message(0, u);
    let [d0, d1, d2] = words_of_message(1, u);
    (
        u64x4::from_array([a0, b0, c0, d0]),
        u64x4::from_array([a1, b1, c1, d1]),
        u64x4::from_array([a2, b2, c2, d2]),
    )
}

// Each number from its bytes in reverse order.
#[inline(always)]
fn swapped(x: u64x4) -> [u64; 4]
    ensures { result ≡ map (swap_bytes w64) x }
{
    let [a, b, c, d] = x.to_array();
    [
        a.swap_bytes(),
        b.swap_bytes(),
        c.swap_bytes(),
        d.swap_bytes(),
    ]
}

// The hash values of four messages, whose bytes are written high first, read as numbers of 8 bytes, low first.
#[inline(always)]
fn numbers(h: [u64x4; 8]) -> ([u64; 16], [u64; 16])
    ensures first { result.0 ≡ map (swap_bytes w64) (lane 0 h ++ lane 1 h) }
    ensures second { result.1 ≡ map (swap_bytes w64) (lane 2 h ++ lane 3 h) }
{
    let [h0, h1, h2, h3, h4, h5, h6, h7] = h;
    let [a0, b0, c0, d0] = swapped(h0);
    let [a1, b1, c1, d1] = swapped(h1);
    let [a2, b2, c2, d2] = swapped(h2);
    let [a3, b3, c3, d3] = swapped(h3);
    let [a4, b4, c4, d4] = swapped(h4);
    let [a5, b5, c5, d5] = swapped(h5);
    let [a6, b6, c6, d6] = swapped(h6);
    let [a7, b7, c7, d7] = swapped(h7);
    (
        [
            a0, a1, a2, a3, a4, a5, a6, a7, b0, b1, b2, b3, b4, b5, b6, b7,
        ],
        [
            c0, c1, c2, c3, c4, c5, c6, c7, d0, d1, d2, d3, d4, d5, d6, d7,
        ],
    )
}
