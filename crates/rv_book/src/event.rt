//! What happens on the board.

/// A pass draws the number that is next, or enters one that it drew into the journal. Events stand in
/// definitions and in what seats know, and no value of this type is made.
pub enum BoardEvent {
    Claim(u64),
    Deposit(u64, u64),
}
