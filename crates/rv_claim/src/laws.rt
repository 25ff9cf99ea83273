//! The law of the running board: each step is an event of the board's definition.
//!
//! It is the contract of a function that does nothing: call it where the law is needed.
ghost use Rattle.rv_claim.specs.Events.{StepsAreEvents};

/// Each kind of step of the table is the event of the board's machine that its definition names, or
/// none: permitted where it comes, and it leads to the state after the event.
pub fn steps_are_events()
    ensures { StepsAreEvents }
{}
