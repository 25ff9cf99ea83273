//! A step that is looked at and not yet taken.

ghost use Rattle.std.specs.Prelude.{[], ◌≡◌};
ghost use Rattle.arrayvec.specs.ArrayVec.{array_vec_len};

use crate::accesses::Touches;
use crate::step::Outcome;

/// The accesses of a step, and where it goes.
#[derive(Debug, Drop)]
pub(crate) struct Look {
    pub touches: Touches,
    pub outcome: Outcome,
}

impl Look {
    /// A step without accesses, which goes nowhere.
    pub fn new() -> Look
        ensures begins { array_vec_len result.touches.list ≡ 0 }
        ensures none { result.touches.list.items ≡ [] }
    {
        Look {
            touches: Touches::new(),
            outcome: Outcome::goes_to(0),
        }
    }
}
