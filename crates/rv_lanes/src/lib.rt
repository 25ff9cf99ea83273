//! The digest of a list of tuples by SHA-512 (FIPS 180-4), hashed two tuples at a time: their four messages go side by side in vectors.
#![tactic(auto)]

mod constants;
mod functions;
mod rounds;
mod sums;
mod two;

pub use sums::{add_lanes, sum_of};
