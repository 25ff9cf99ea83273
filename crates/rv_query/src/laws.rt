//! The law of the answers.

ghost use Rattle.rv_query.specs.OfRun.{CellsAreOfRun, StatesAreOfRun};

use rv_sound::{reading, soundness};

/// On a file that is accepted for a program and an input, the answers are those of the run: the place and the registers of its state before the
/// step, and what that state holds in the cell, with the time and the step that its trace gives; or the file is a collision of the digest.
pub fn answers_are_of_run()
    ensures states { StatesAreOfRun }
    ensures cells { CellsAreOfRun }
{
    reading();
    soundness();
}
