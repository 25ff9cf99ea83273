//! One row of a record, judged by its own old values: no other row is looked at, and no memory.
#![tactic(auto)]

mod agreeing;
mod checking;
mod seeing;

pub use checking::check_row;

#[cfg(test)]
mod tests;
