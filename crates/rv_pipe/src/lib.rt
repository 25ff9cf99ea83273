//! Pipelined making: a run is walked over while workers replay its shards. The starts of the shards go from the
//! walk to the workers through a pipe, which is also here as a machine, with its law.
#![tactic(auto)]

mod event;
mod feeding;
mod gathering;
pub mod laws;
mod line;
mod maker;
mod order;
mod piped;
mod rules;
#[cfg(test)]
mod tests;
mod view;
mod walking;
mod working;

pub use event::PipeEvent;
pub use piped::{Pieces, Piped, pipe};
