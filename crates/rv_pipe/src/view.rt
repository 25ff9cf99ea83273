//! What a pass of the pipe's queue knows.

use std::collections::LinkedList;

/// Whether the pass is the walk's, how many parts it has of the right to know all, how many starts it pushed, and
/// the indices of those that it took. No value of it is made.
pub struct Hand {
    pub walks: bool,
    pub parts: u64,
    pub pushed: u64,
    pub taken: LinkedList<u64>,
}
