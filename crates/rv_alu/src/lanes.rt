//! Bytes and halfwords within a word of memory.

ghost use Rattle.std.specs.Prelude.{◌≡◌, ◌+◌, ◌/◌, ◌%◌, ◌^◌, ◌<◌, ◌≤◌};
ghost use Rattle.std.specs.Int.{w32, cast_unsigned};
ghost use Rattle.rv_rules.specs.Expected as isa;
ghost use Rattle.rv_spec.specs.Step.{load_width, store_width};
ghost use Rattle.rv_spec.specs.Words.{sign_extend};

use rv_base::{LoadKind, StoreKind};

/// The word that a load gives rd, of a word of memory in which the loaded bytes begin
/// at byte `lane` ("Load and Store Instructions").
#[tactic(auto, unfolding(rv_rules::specs::Expected::extract))]
pub fn extract(kind: LoadKind, word: u32, lane: u32) -> u32
    requires { lane + load_width kind ≤ 4 }
    ensures { result ≡ isa.extract kind word lane }
{
    match kind {
        LoadKind::B => sign_extended_byte(byte_at(word, lane)),
        LoadKind::H => sign_extended_half(half_at(word, lane)),
        LoadKind::W => word,
        LoadKind::Bu => byte_at(word, lane) as u32,
        LoadKind::Hu => half_at(word, lane) as u32,
    }
}

/// The word of memory after a store of the low bytes of `value`, the first of them at byte `lane`.
pub fn merge(kind: StoreKind, word: u32, lane: u32, value: u32) -> u32
    requires { lane + store_width kind ≤ 4 }
    ensures { result ≡ isa.merge kind word lane value }
{
    match kind {
        StoreKind::B => with_byte(word, lane, value),
        StoreKind::H => with_half(word, lane, value),
        StoreKind::W => value,
    }
}

#[tactic(auto, using(crate::proofs::ByteLanes::lanes))]
fn byte_at(word: u32, lane: u32) -> u8
    requires { lane < 4 }
    ensures { result ≡ word / 256 ^ lane % 2 ^ 8 }
{
    ((word >> (8 * lane)) % 0x100) as u8
}

#[tactic(auto, using(crate::proofs::ByteLanes::lanes))]
fn half_at(word: u32, lane: u32) -> u16
    requires { lane < 3 }
    ensures { result ≡ word / 256 ^ lane % 2 ^ 16 }
{
    ((word >> (8 * lane)) % 0x1_0000) as u16
}

fn sign_extended_byte(byte: u8) -> u32
    ensures { result ≡ cast_unsigned w32 (sign_extend 8 byte) }
{
    (byte.cast_signed() as i32).cast_unsigned()
}

fn sign_extended_half(half: u16) -> u32
    ensures { result ≡ cast_unsigned w32 (sign_extend 16 half) }
{
    (half.cast_signed() as i32).cast_unsigned()
}

#[tactic(auto, unfolding(rv_rules::specs::Expected::splice))]
fn with_byte(word: u32, lane: u32, value: u32) -> u32
    requires { lane < 4 }
    ensures { result ≡ isa.merge StoreKind.B word lane value }
{
    let [b0, b1, b2, b3] = word.to_le_bytes();
    let [low, _, _, _] = value.to_le_bytes();
    u32::from_le_bytes(match lane {
        0 => [low, b1, b2, b3],
        1 => [b0, low, b2, b3],
        2 => [b0, b1, low, b3],
        _ => [b0, b1, b2, low],
    })
}

#[tactic(auto, unfolding(rv_rules::specs::Expected::splice))]
fn with_half(word: u32, lane: u32, value: u32) -> u32
    requires { lane < 3 }
    ensures { result ≡ isa.merge StoreKind.H word lane value }
{
    let [b0, b1, b2, b3] = word.to_le_bytes();
    let [low, high, _, _] = value.to_le_bytes();
    u32::from_le_bytes(match lane {
        0 => [low, high, b2, b3],
        1 => [b0, low, high, b3],
        _ => [b0, b1, low, high],
    })
}
