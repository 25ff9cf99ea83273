//! Reading on from phase to phase.

ghost use Rattle.std.specs.Prelude.{◌≡◌, ◌-◌, ◌≤◌, ℕ, List, ◌++◌, length, drop};
ghost use Rattle.rv_reading.specs.Stream.{reads};
ghost use Rattle.rv_judge.specs.Subject.{step_to};
ghost use Rattle.rv_judge.specs.Phases.{Fits, extent_of, phase_of, stopped};

use crate::phases::{Extent, Machine};
use crate::subject::Subject;
use rv_base::Refusal;
use rv_digest::Lanes;
use rv_row::no_row;

/// Where a reading stops: the bytes that are left, and the first broken check, or None where the reading may end.
#[derive(Clone, Copy)]
pub(crate) struct Stop<'b> {
    pub left: &'b [u8],
    pub refusal: Option<Refusal>,
}

impl Machine {
    /// Reads on as far as the bytes decide, or to the end of what is to be read. The refusal is by rule 1 where more bytes may be
    /// missing.
    pub fn read<'b, L: Lanes>(
        &mut self,
        subject: &Subject<'_, '_>,
        lanes: &L,
        extent: Extent,
        bytes: &'b [u8],
    ) -> Stop<'b>
        requires { Fits subject.now self.old }
        ensures fits { Fits subject.now self.new }
        ensures stops { step_to L.lanes subject.now (extent_of extent) (phase_of L.lanes self.new) result.left.now ≡ stopped result.refusal }
        ensures goes { (rest : List ℕ) → reads (step_to L.lanes subject.now (extent_of extent)) (phase_of L.lanes self.new) (result.left.now ++ rest)
            ≡ reads (step_to L.lanes subject.now (extent_of extent)) (phase_of L.lanes self.old) (bytes.now ++ rest) }
        ensures within { length result.left.now ≤ length bytes.now }
        ensures behind { result.left.now ≡ drop (length bytes.now - length result.left.now) bytes.now }
    {
        let mut left = bytes;
        // Each row is read in place of the one before.
        let mut row = no_row();
        while !self.is_behind(extent) {
            match self.step(subject, lanes, left, &mut row) {
                Ok(Some(length)) => left = &left[length..],
                Ok(None) => {
                    return Stop {
                        left,
                        refusal: None,
                    };
                }
                Err(refusal) => {
                    return Stop {
                        left,
                        refusal: Some(refusal),
                    };
                }
            }
        }
        Stop {
            left,
            refusal: None,
        }
    }
}
