//! Workers that share a task: each draws the index of a piece, makes the piece and deposits it, until
//! there are no more.
#![tactic(auto)]

mod alone;
mod team;
#[cfg(test)]
mod tests;

pub use alone::run_one;
pub use team::run_team;
