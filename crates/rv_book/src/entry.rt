//! An entry of a book's journal, and the answer to a deposit.

/// The pass of this number entered the piece of this index.
#[derive(Clone, Copy, PartialEq, Eq, Debug)]
pub struct Entry {
    pub pass: u32,
    pub index: u32,
}

/// Whether a piece was entered, or its index was in the book, which the answer then carries.
#[derive(Clone, Copy, PartialEq, Eq, Debug)]
pub enum Deposited {
    New,
    There(u32),
}
