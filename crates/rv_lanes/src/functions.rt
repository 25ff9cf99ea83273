//! The functions of SHA-512 on four words side by side: FIPS 180-4, sections 3.2 and 4.1.3.

ghost use Rattle.std.specs.Prelude.{◌/◌, ◌^◌, ◌≡◌, ℕ, ◌-◌, ◌<◌, slice_index, bit_and, bit_xor};
ghost use Rattle.std.specs.Int.{w64, rotate_right};
ghost use Rattle.sha2.specs.Sha512.{add64, big_sigma0, big_sigma1, ch, maj, small_sigma0, small_sigma1};

use std::simd::u64x4;

// Addition modulo 2^64.
#[inline(always)]
pub(crate) fn add(a: u64x4, b: u64x4) -> u64x4
    ensures { (j : ℕ) → j < 4 → slice_index result j ≡ add64 (slice_index a j) (slice_index b j) }
{
    a + b
}

// ROTR: section 3.2.
#[inline(always)]
fn rotate_right(x: u64x4, k: u64) -> u64x4
    requires { (0 < k) × (k < 64) }
    ensures { (j : ℕ) → j < 4 → slice_index result j ≡ rotate_right w64 (slice_index x j) k }
{
    (x >> u64x4::splat(k)) | (x << u64x4::splat(64 - k))
}

#[inline(always)]
fn xor(a: u64x4, b: u64x4) -> u64x4
    ensures { (j : ℕ) → j < 4 → slice_index result j ≡ bit_xor (slice_index a j) (slice_index b j) }
{
    a ^ b
}

#[inline(always)]
fn and(a: u64x4, b: u64x4) -> u64x4
    ensures { (j : ℕ) → j < 4 → slice_index result j ≡ bit_and (slice_index a j) (slice_index b j) }
{
    a & b
}

// Ch, equation (4.8), in one operation fewer.
#[inline(always)]
pub(crate) fn ch(x: u64x4, y: u64x4, z: u64x4) -> u64x4
    ensures { (j : ℕ) → j < 4 → slice_index result j ≡ ch (slice_index x j) (slice_index y j) (slice_index z j) }
{
    xor(z, and(x, xor(y, z)))
}

// Maj, equation (4.9). One round's `x ^ y` is the next round's `y ^ z`, so it is computed once.
#[inline(always)]
pub(crate) fn maj(x: u64x4, y: u64x4, z: u64x4) -> u64x4
    ensures { (j : ℕ) → j < 4 → slice_index result j ≡ maj (slice_index x j) (slice_index y j) (slice_index z j) }
{
    xor(y, and(xor(x, y), xor(y, z)))
}

// Σ0: equation (4.10).
#[inline(always)]
pub(crate) fn big_sigma0(x: u64x4) -> u64x4
    ensures { (j : ℕ) → j < 4 → slice_index result j ≡ big_sigma0 (slice_index x j) }
{
    xor(
        xor(rotate_right(x, 28), rotate_right(x, 34)),
        rotate_right(x, 39),
    )
}

// Σ1: equation (4.11).
#[inline(always)]
pub(crate) fn big_sigma1(x: u64x4) -> u64x4
    ensures { (j : ℕ) → j < 4 → slice_index result j ≡ big_sigma1 (slice_index x j) }
{
    xor(
        xor(rotate_right(x, 14), rotate_right(x, 18)),
        rotate_right(x, 41),
    )
}

// One number in all four lanes.
#[inline(always)]
pub(crate) fn splat(k: u64) -> u64x4
    ensures { (j : ℕ) → j < 4 → slice_index result j ≡ k }
{
    u64x4::splat(k)
}

// SHR: section 3.2.
#[inline(always)]
fn shift_right(x: u64x4, k: u64) -> u64x4
    requires { k < 64 }
    ensures { (j : ℕ) → j < 4 → slice_index result j ≡ slice_index x j / 2 ^ k }
{
    x >> u64x4::splat(k)
}

// σ0: equation (4.12).
#[inline(always)]
pub(crate) fn small_sigma0(x: u64x4) -> u64x4
    ensures { (j : ℕ) → j < 4 → slice_index result j ≡ small_sigma0 (slice_index x j) }
{
    xor(
        xor(rotate_right(x, 1), rotate_right(x, 8)),
        shift_right(x, 7),
    )
}

// σ1: equation (4.13).
#[inline(always)]
pub(crate) fn small_sigma1(x: u64x4) -> u64x4
    ensures { (j : ℕ) → j < 4 → slice_index result j ≡ small_sigma1 (slice_index x j) }
{
    xor(
        xor(rotate_right(x, 19), rotate_right(x, 61)),
        shift_right(x, 6),
    )
}
