//! The version 2 record of the run that a version 1 record states: the same bytes but the version's digit, unless the run ends at a word that version 2 would execute.
#![tactic(auto)]

mod blocking;
mod laws;
mod reasons;
#[cfg(test)]
mod tests;
mod upgrading;

pub use blocking::blocked;
pub use laws::{upgraded_is_accepted, upgraded_is_record_or_collision, upgraded_is_the_record};
pub use reasons::Blocked;
pub use rv_base::{Bytes, NoMemory};
pub use rv_file::Parsed;
pub use upgrading::upgrade;
