//! The digests of the tuples that accesses read and write, where a tuple that is read as it was written last to its cell is hashed
//! once for both.
#![tactic(auto)]

mod adder;
mod pairing;
#[cfg(test)]
mod tests;

pub use adder::Adder;
pub use pairing::Pairing;
