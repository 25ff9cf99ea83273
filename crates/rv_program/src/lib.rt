//! The program and the input that a record file is judged for, and the checks of the file's header against them.
#![tactic(auto)]

mod front;
mod program;
#[cfg(test)]
mod tests;

pub use front::check_front;
pub use program::Program;
pub use rv_base::{Header, Refusal};
pub use rv_elf::{ElfFault, Image};
