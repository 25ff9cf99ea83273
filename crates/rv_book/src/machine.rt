//! The laws of the board's machine, over every list of permitted events.
//!
//! Each law is the contract of a function that does nothing: call it where the law is needed.
ghost use Rattle.rv_book.specs.BoardLaws.{DoneAddsAll, DoneNamesAll, EachAddedOnce, EachDrawnOnce, EachWasDrawn, EnteredAtMostOnce, NextIsBounded};

/// The drawn numbers are those below next, each once.
pub fn each_drawn_once()
    ensures { EachDrawnOnce }
{}

/// The journal names each number at most once.
pub fn entered_at_most_once()
    ensures { EnteredAtMostOnce }
{}

/// The journal names a number only for a pass that drew it.
pub fn each_was_drawn()
    ensures { EachWasDrawn }
{}

/// next is at most the number of pieces and that of passes together.
pub fn next_is_bounded()
    ensures { NextIsBounded }
{}

/// In a done state the journal names each number below n exactly once.
pub fn done_names_all()
    ensures { DoneNamesAll }
{}

/// The journal's numbers add to any sum what those numbers below n add, each once. So the sums of
/// the digests of its pieces, lane by lane, have each piece once.
pub fn each_added_once()
    ensures { EachAddedOnce }
{}

/// In a done state they add what all numbers below n add.
pub fn done_adds_all()
    ensures { DoneAddsAll }
{}
