//! An assembler for RV32I and M: text into instruction words, and a listing of them.
#![tactic(auto)]

mod assembling;
mod executables;
mod faults;
pub mod laws;
pub mod limits;
mod lines;
mod listed;
mod numbers;
mod operands;
mod patterns;
mod statements;
mod symbols;
#[cfg(test)]
mod tests;
mod texts;

pub use assembling::{Assembled, Words, assemble};
pub use executables::executable;
pub use faults::AsmFault;
pub use listed::listing;
pub use symbols::{Place, Symbols};
