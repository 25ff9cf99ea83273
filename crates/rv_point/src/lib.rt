//! The run of a program gone through once, and what the replay of each shard needs.
#![tactic(auto)]

mod course;
mod fault;
pub mod laws;
mod points;
mod start;
#[cfg(test)]
mod tests;
mod walk;

pub use fault::RunFault;
pub use points::{Points, survey};
pub use start::{Cells, ShardStart};
pub use walk::{Walk, Whole};
