//! A record file in parts: cut into them, each judged alone, and joined to the verdict on the whole.
#![tactic(auto)]

mod combining;
mod cutting;
mod heads;
mod laws;
mod shards;
mod summaries;
#[cfg(test)]
mod tests;

pub use combining::combine;
pub use cutting::{PARTS_LIMIT, PartCut, part_cut};
pub use heads::{PART_HEAD_BYTES, PartHead, read_part};
pub use laws::{
    cut_parts_have_no_fault, cut_parts_tell_the_verdict, heads_cover, parts_are_the_file,
    summaries_tell_the_verdict,
};
pub use summaries::{Cut, Summary, summarize};
