//! What the programs see of the world outside: files, an output, and a gate for workers.
//! Each is a trait that says what a call means. Files and outputs in memory can be told to fail.
#![tactic(auto)]

mod calm_shelf;
mod counts;
mod file_map;
mod gate;
mod mem_shelf;
mod mem_sink;
mod real_shelf;
mod real_sink;
mod shelf;
mod sink;

pub use calm_shelf::CalmShelf;
pub use gate::{Gate, HoldGate, OpenGate};
pub use mem_shelf::MemShelf;
pub use mem_sink::MemSink;
pub use real_shelf::RealShelf;
pub use real_sink::RealSink;
pub use shelf::Shelf;
pub use sink::Sink;

/// A call of a [`Shelf`] or a [`Sink`] that didn't succeed. The count of faults tells of it.
#[derive(Clone, Copy, PartialEq, Eq, Debug)]
pub struct Failed;

#[cfg(test)]
mod tests;
