//! The replay of a shard from its start: its piece of the record.
#![tactic(auto)]

mod rows;
mod shard;
mod task;
#[cfg(test)]
mod tests;

pub use shard::{replay, replay_start};
pub use task::ShardTask;
