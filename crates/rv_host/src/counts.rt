//! Counts of faults, and failures that are planned.

ghost use Rattle.std.specs.Prelude.{◌≡◌, ◌-◌, ◌==◌, OnOk, OnErr, is_ok, take, if◌then◌else◌};
ghost use Rattle.std.specs.Result.{result_ok};
ghost use Rattle.rv_host.specs.Counts.{raised, raised_if};

use crate::Failed;
use std::io;

/// A count after one more fault. It stays at its last value.
pub(crate) fn raise(count: u64) -> u64
    ensures { result ≡ raised count }
{
    count.saturating_add(1)
}

pub(crate) fn raise_if(has_failed: bool, count: u64) -> u64
    ensures { result ≡ raised_if has_failed count }
{
    if has_failed { raise(count) } else { count }
}

/// The answer of a call that is done, or isn't.
pub(crate) fn answer(is_done: bool) -> Result<(), Failed>
    ensures { is_ok result ≡ is_done }
{
    if is_done { Ok(()) } else { Err(Failed) }
}

/// What a call takes of its bytes: the first `taken`, if it is the one that is to fail, and else all.
pub(crate) fn part_of(bytes: &[u8], is_due: bool, taken: usize) -> &[u8]
    ensures { result.now ≡ (if is_due then take taken bytes.now else bytes.now) }
{
    if is_due {
        &bytes[..taken.min(bytes.len())]
    } else {
        bytes
    }
}

/// Counts the fault of a call that failed.
pub(crate) fn count_fault<T>(outcome: io::Result<T>, count: &mut u64) -> Result<T, Failed>
    ensures same { result_ok result ≡ result_ok outcome }
    ensures ok { OnOk result (count.new ≡ count.old) }
    ensures err { OnErr result (count.new ≡ raised count.old) }
{
    match outcome {
        Ok(value) => Ok(value),
        Err(_) => {
            *count = raise(*count);
            Err(Failed)
        }
    }
}

/// One call in a later one of which a failure is planned. No call is due where `left` is 0.
#[derive(Clone, Copy, PartialEq, Eq, Debug)]
pub(crate) struct Plan {
    /// The number of calls up to the one that is to fail.
    pub(crate) left: u64,
}

impl Plan {
    /// Counts one call, and tells whether it is the one that is to fail.
    pub(crate) fn is_due(&mut self) -> bool
        ensures due { result ≡ (self.old.left == 1) }
        ensures counted { self.new.left ≡ self.old.left - 1 }
    {
        let is_due = self.left == 1;
        self.left = self.left.saturating_sub(1);
        is_due
    }
}
