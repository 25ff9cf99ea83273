//! Questions on a record file: what a cell and the registers held before a step. Nothing is run; the file's accesses tell.
#![tactic(auto)]

mod following;
mod laws;
mod questions;
#[cfg(test)]
mod tests;
mod trail;

pub use laws::answers_are_of_run;
pub use questions::{CellSeen, Snapshot, cell_at, state_at};
pub use rv_file::Parsed;
pub use rv_program::Program;
