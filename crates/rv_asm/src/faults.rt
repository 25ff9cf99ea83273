//! What is wrong with a source, by kind.

use rv_base::NoMemory;
use std::alloc::{AllocError, AllocFailed};

/// A byte outside printable ASCII that isn't a tab, before the line's first `#`.
pub const BYTES: u8 = 1;

/// What stands before the first colon is no name, or an earlier line has that label.
pub const LABEL: u8 = 2;

/// The mnemonic is none.
pub const STATEMENT: u8 = 3;

/// The operands don't have the instruction's shape, or one of them is misspelled.
pub const OPERANDS: u8 = 4;

/// A name is no label of the source.
pub const UNDEFINED: u8 = 5;

/// A number is out of its range.
pub const RANGE: u8 = 6;

/// A statement is one too many.
pub const TOO_LONG: u8 = 7;

/// Why a source isn't assembled.
#[derive(Clone, Copy, PartialEq, Eq, Debug)]
pub enum AsmFault {
    /// The first line with a fault, counted from 1, and the least kind of its faults.
    At { line: u32, kind: u8 },
    /// Memory ran out.
    NoMemory,
}
