//! Numbers of 8 bytes, one after another, the least significant byte first.

ghost use Rattle.std.specs.Prelude.{◌≡◌, ◌*◌, ◌≤◌, length, map};
ghost use Rattle.std.specs.List.{range_with_len};
ghost use Rattle.rv_base.specs.LittleEndian.{u64_at};
ghost use Rattle.rv_spec.specs.Digest.{set_digest_bytes};
ghost use Rattle.rv_rules.specs.Reading.{digest_of};

use rv_base::{get64, set64};

// The first N numbers of the bytes.
pub(crate) fn words<const N: usize>(bytes: &[u8]) -> [u64; N]
    requires { 8 * N ≤ length bytes.now }
    ensures { result ≡ map (λ j. u64_at bytes.now (8 * j)) (range_with_len 0 N) }
{
    let mut words = [0; N];
    for i in 0..N {
        words[i] = get64(bytes, 8 * i);
    }
    words
}

// The bytes of sixteen numbers.
pub(crate) fn bytes_of(words: &[u64; 16]) -> [u8; 128]
    ensures bytes { result ≡ set_digest_bytes words.now }
    ensures inverse { digest_of result ≡ words.now }
{
    let mut bytes = [0; 128];
    for i in 0..16 {
        set64(&mut bytes, 8 * i, words[i]);
    }
    bytes
}
