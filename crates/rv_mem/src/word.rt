//! Words with times.

/// A word: its value, and the time of its last use, or 0.
#[derive(Clone, Copy)]
pub struct Word {
    pub value: u32,
    pub time: u64,
}
