//! Executables in ELF32 for RISC-V: the image that a file loads, and the file of an image.
//!
//! System V gABI, chapters 4 (ELF header) and 5 (program header). Sections are not read.
#![tactic(auto)]

mod fault;
mod image;
mod index;
pub mod laws;
mod reader;
mod scan;
mod segment;
#[cfg(test)]
mod tests;
mod writer;

pub use fault::ElfFault;
pub use image::Image;
pub use reader::read;
pub use writer::{Part, write};
