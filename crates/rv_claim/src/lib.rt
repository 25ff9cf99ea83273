//! The board, from which workers draw the indices of pieces, each once, and on which they deposit
//! the pieces. No step waits for another worker.
#![tactic(auto)]

mod board;
mod claiming;
mod closing;
mod depositing;
pub mod laws;
mod opening;
mod pass;
mod rules;
#[cfg(test)]
mod tests;
mod view;

pub use board::Board;
pub use pass::Pass;
