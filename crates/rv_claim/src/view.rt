//! What a slot keeps, and what a seat at the board's table knows.

use rv_book::{BoardEvent, Piece};
use std::collections::LinkedList;

/// A piece with the number of the pass that deposited it.
#[derive(Drop)]
pub struct Deposit {
    pub pass: u32,
    pub piece: Piece,
}

/// What a pass knows: its number, what it drew and deposited, the index of the slot that it has opened
/// and not yet filled, and the events on the board up to its own last one. No value of it is made.
pub struct Lists {
    pub number: u64,
    pub drawn: LinkedList<u64>,
    pub deposited: LinkedList<u64>,
    pub pending: Option<u64>,
    pub seen: LinkedList<BoardEvent>,
}

/// What a seat knows. A pass is live and knows its own lists. Home, which made the passes, knows how
/// many there are and the lists that it has gathered. A spent seat knows nothing. No value of it is
/// made.
pub struct View {
    pub live: bool,
    pub own: Lists,
    pub made: u64,
    pub gathered: LinkedList<Lists>,
}
