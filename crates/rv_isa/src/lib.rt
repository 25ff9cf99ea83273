//! The machine of RV32IM and RV32IMA: one step over cells with times, runs of it, and the step that a row of a
//! record has to show.
#![tactic(auto)]

mod abi;
mod accesses;
mod atomic;
mod decoded;
mod environment;
mod expected;
mod finding;
mod hart;
mod instructions;
pub mod laws;
mod look;
mod machine;
mod operands;
mod restoring;
mod step;
#[cfg(test)]
mod tests;

pub use expected::{Expected, expect};
pub use hart::{Hart, Stepped};
pub use machine::{Machine, Ran, RunStop, Turn};
pub use rv_base::{Seen, Touch};
