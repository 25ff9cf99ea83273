//! A command as a plan: the files that it reads, how their contents say it goes on, and the outcome with which
//! it ends. And the driver of all commands: files read within limits and written part by part, faults with
//! their lines, and the promise of what is told at the end, whatever fails.
#![tactic(auto)]

mod faults;
mod loading;
mod telling;
#[cfg(test)]
mod tests;
mod told;
mod writing;

pub use faults::{Fault, Limited, PartFault, VersionFault};
pub use loading::{Loaded, PIECE, image_of, load, read_on, read_within};
pub use telling::{print_no_memory, tell};
pub use told::Told;
pub use writing::{DueFile, write_files};
