//! Rows of a record file, read and written.
#![tactic(auto)]

mod reading;
mod rows;
mod writing;

pub use reading::{one_row, read_row, read_row_into};
pub use rows::{Row, RowFound, RowRead, no_row};
pub use writing::write_row;

#[cfg(test)]
mod tests;
