//! Checking a record file by workers: each checks shards alone, from the places that their heads state, and the home thread chains them in order.
#![tactic(auto)]

mod chain;
mod checking;
mod starts;
mod task;
#[cfg(test)]
mod tests;

pub use checking::panel;
pub use rv_base::{NoMemory, Verdict};
