//! The pieces of a record, the task that makes them, the book in which they are entered, and the
//! laws of the board from which workers draw them.
#![tactic(auto)]

mod book;
mod entry;
mod event;
pub mod machine;
mod task;
#[cfg(test)]
mod tests;

pub use book::Book;
pub use entry::{Deposited, Entry};
pub use event::BoardEvent;
pub use task::{Piece, Task};
