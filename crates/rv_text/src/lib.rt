//! Instructions and rows as text.
#![tactic(auto)]

mod disassembly;
mod listing;
mod syntax;

pub use disassembly::{disasm, disasm_atomic};
pub use listing::explain;
pub use syntax::{MNEMONIC_BYTES, Operands, Syntax, atomic_syntax_of, syntax_of};

#[cfg(test)]
mod tests;
