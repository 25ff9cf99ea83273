//! Operations of the RISC-V Unprivileged ISA on 32-bit words: RV32I, M and A.
#![tactic(auto)]

mod lanes;
mod operations;
#[cfg(test)]
mod tests;

pub use lanes::{extract, merge};
pub use operations::{amo_result, compute, taken};
