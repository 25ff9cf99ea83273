//! Record files: their parts, read and written.
#![tactic(auto)]

mod header;
mod heads;
mod laws;
mod parsing;
mod skipping;
mod table;

pub use header::{front_len, read_header, rows_of, write_header};
pub use heads::{read_head, write_head};
pub use laws::{form_is_grammar, no_proper_prefix};
pub use parsing::{Parsed, behind_shard, broken_number, parse};
pub use rv_base::{Header, ShardHead};
pub use table::table_bytes;

#[cfg(test)]
mod tests;
