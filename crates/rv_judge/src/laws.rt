//! Laws of the verdict.

ghost use Rattle.rv_judge.specs.Conclusions.{VerdictsAccept, VerdictsAreSound};

use rv_sound::{completeness, soundness};

/// An accepted file is the record of the run, at its own version and shard size, or it is a collision of the digest; and the record of a
/// run is accepted.
pub fn verdicts_conclude()
    ensures sound { VerdictsAreSound }
    ensures accepts { VerdictsAccept }
{
    soundness();
    completeness();
}
