//! Additive digests of multisets of tuples, in outline after Clarke et al. 2003, over SHA-512.
#![tactic(auto)]

mod lanes;
mod set_digest;
#[cfg(test)]
mod tests;
mod words;

pub use lanes::{Lanes, ShaLanes, TinyLanes};
pub use set_digest::SetDigest;
