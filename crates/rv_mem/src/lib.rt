//! The cells of a run, each with its value and the time of its last use (Blum et al. 1991).
#![tactic(auto)]

mod blocks;
mod directory;
mod leaving;
mod levels;
mod memory;
mod page;
mod word;
mod words;

pub use memory::Memory;
pub use rv_base::{NoMemory, TableEntry};

#[cfg(test)]
mod tests;
