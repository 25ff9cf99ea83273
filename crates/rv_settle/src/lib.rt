//! Settling: whether an accepted record file is the run, or a collision of its digest.
//!
//! The verdict compares digests of what a file reads and writes (Clarke et al. 2003). Settling compares the two multisets themselves (Blum et al. 1991).
#![tactic(auto)]

mod collecting;
mod settling;
#[cfg(test)]
mod tests;
mod tuples;

pub use rv_base::{NoMemory, Refusal, Tuple};
pub use rv_digest::Lanes;
pub use rv_order::Differ;
pub use rv_program::Program;
pub use settling::{Settled, settle};
