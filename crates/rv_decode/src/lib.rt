//! Instruction words of the RISC-V Unprivileged ISA, RV32I with M and A: decoded and encoded.
#![tactic(auto)]

mod atomic;
mod decoding;
mod encoding;
mod fields;
mod ranges;
#[cfg(test)]
mod tests;

pub use atomic::{decode_atomic, encode_atomic};
pub use decoding::decode;
pub use encoding::encode;
pub use ranges::{fits, fits_atomic};
pub use rv_base::{Atomic, AtomicOp, Cond, Instr, LoadKind, Op, StoreKind};
