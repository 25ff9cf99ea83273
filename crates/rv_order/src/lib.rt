//! Two lists of tuples as multisets, and the laws of offline memory checking.
#![tactic(auto)]

pub mod laws;
mod multiset;

pub use multiset::{Differ, compare};
