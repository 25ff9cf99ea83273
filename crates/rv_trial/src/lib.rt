//! Trials: programs drawn from a number, each run, recorded and judged.
#![tactic(auto)]

mod generated;
pub mod laws;
mod recording;
mod summary;
mod surveyed;
#[cfg(test)]
mod tests;
mod trials;

pub use summary::Trial;
pub use trials::trial;
