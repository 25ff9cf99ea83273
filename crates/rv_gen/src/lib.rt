//! Programs made from a number, for trying the whole on code that nobody wrote by hand.
#![tactic(auto)]

mod draws;
mod items;
pub mod laws;
mod made;
mod words;

pub use made::{Made, program};

#[cfg(test)]
mod tests;
