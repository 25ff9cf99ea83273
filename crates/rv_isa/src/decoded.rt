//! What an instruction word is.

ghost use Rattle.std.specs.Prelude.{◌==◌, if◌then◌else◌, ◌≡◌};
ghost use Rattle.rv_spec.specs.Decode as spec;
ghost use Rattle.rv_spec.specs.Decode.{decode_any};
ghost use Rattle.rv_isa.specs.Decoded.{any_of};

use rv_base::{Atomic, Instr};
use rv_decode::{decode, decode_atomic};

/// A word in a version of the machine: an instruction of RV32I or M, one of extension A, or none.
#[derive(Clone, Copy, Debug)]
pub(crate) enum Decoded {
    Rv32im(Instr),
    Rv32a(Atomic),
    Illegal,
}

impl Decoded {
    /// What a word is in a version.
    #[inline(always)]
    pub fn of_word(version: u8, word: u32) -> Decoded
        ensures { any_of result ≡ decode_any version word }
    {
        match decode(word) {
            Some(instr) => Decoded::Rv32im(instr),
            None => match atomic_of(version, word) {
                Some(instr) => Decoded::Rv32a(instr),
                None => Decoded::Illegal,
            },
        }
    }
}

/// The atomic instruction of a word, in a version that has it.
#[inline(always)]
fn atomic_of(version: u8, word: u32) -> Option<Atomic>
    ensures { result ≡ (if version == 2 then spec.decode_atomic word else None) }
{
    if version == 2 {
        decode_atomic(word)
    } else {
        None
    }
}
