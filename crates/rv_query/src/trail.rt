//! What the accesses so far show of a cell.

ghost use Rattle.std.specs.Prelude.{◌≡◌, ◌<◌, ◌≤◌, ◌^◌, ℕ, List, ◌∷◌, [], ◌++◌, Some};
ghost use Rattle.rv_base.specs.LittleEndian.{time_of as time_is};
ghost use Rattle.rv_query.specs.Accesses.{Numbered};
ghost use Rattle.rv_query.specs.Following.{trail};

use rv_base::{Access, time_of};

/// What the accesses so far show of a cell: the value and the time that the last left, or the initial value and 0; and the step and the time
/// of the last that changed the value, or none and 0.
#[derive(Clone, Copy, PartialEq, Eq, Debug)]
pub(crate) struct Trail {
    pub value: u32,
    pub time: u64,
    pub changed: Option<u64>,
    pub changed_time: u64,
}

impl Trail {
    /// The trail of a cell that was not accessed.
    pub fn of(initial: u32) -> Trail
        ensures { (cell step : ℕ) → result ≡ trail initial [] cell step }
    {
        Trail {
            value: initial,
            time: 0,
            changed: None,
            changed_time: 0,
        }
    }

    /// With an access that left a value at a time, unless that of the last is later.
    fn with_last(self, value: u32, time: u64) -> Trail
        ensures kept { time < self.time → result ≡ self }
        ensures new { self.time ≤ time → result ≡ record self { value = value; time = time } }
    {
        if time < self.time {
            return self;
        }
        Trail {
            value,
            time,
            ..self
        }
    }

    /// With a change by a step at a time, unless that of the last is later.
    fn with_change(self, step: u64, time: u64) -> Trail
        ensures kept { time < self.changed_time → result ≡ self }
        ensures new { self.changed_time ≤ time → result ≡ record self { changed = Some step; changed_time = time } }
    {
        if time < self.changed_time {
            return self;
        }
        Trail {
            changed: Some(step),
            changed_time: time,
            ..self
        }
    }

    /// Past an access of a step.
    pub fn past(self, step: u64, access: &Access) -> Trail
        requires { step < 2 ^ 32 }
        ensures { (initial : ℕ) (before : List Numbered) (until : ℕ) → time_is step access.now.slot < time_is until 0 → self ≡ trail initial before access.now.cell until
            → result ≡ trail initial (before ++ record { step = step; access = access.now } ∷ []) access.now.cell until }
    {
        let time = time_of(step, access.slot);
        let trail = self.with_last(access.new, time);
        if access.new == access.old {
            return trail;
        }
        trail.with_change(step, time)
    }
}
