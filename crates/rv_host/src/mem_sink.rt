//! An output in memory, which can be told to fail.

ghost use Rattle.std.specs.Prelude.{◌≡◌, ◌&&◌, Bool, Some, is_ok, []};
ghost use Rattle.rv_host.specs.MemSink.{SinkState, after_put, puts};

use crate::counts::{Plan, answer, part_of, raise_if};
use crate::{Failed, Sink};
use std::alloc::Global;
use std::marker::Model;

/// An output in memory. It tells its bytes, and a failure can be planned.
#[derive(Drop)]
pub struct MemSink {
    bytes: Vec<u8>,
    plan: Plan,
    /// The number of bytes that the planned put takes.
    taken: usize,
    faults: u64,
    /// How often memory was refused.
    refused: u64,
}

impl Model for MemSink {
    ghost use Rattle.rv_host.specs.MemSink.{SinkState};

    ghost Value = { SinkState };

    ghost view = { λ s. record { bytes = s.bytes.items; plan = s.plan.left; taken = s.taken; faults = s.faults; refused = s.refused } };
}

impl MemSink {
    /// No bytes, and no plan.
    pub fn new(alloc: Global) -> MemSink
        ensures { result ≡ record { bytes = []; plan = 0; taken = 0; faults = 0; refused = 0 } }
    {
        MemSink {
            bytes: Vec::new(alloc),
            plan: Plan { left: 0 },
            taken: 0,
            faults: 0,
            refused: 0,
        }
    }

    /// The bytes so far.
    pub fn bytes(&self) -> &[u8]
        ensures { result.now ≡ self.now.bytes }
    {
        self.bytes.as_slice()
    }

    /// Makes the nth call of `put` from now on fail, counted from 1. That call adds the first
    /// `taken` bytes, or all of a shorter slice.
    pub fn plan(&mut self, nth: u64, taken: usize)
        ensures { self.new ≡ record self.old { plan = nth; taken = taken } }
    {
        self.plan = Plan { left: nth };
        self.taken = taken;
    }
}

impl Sink for MemSink {
    ghost view = { λ s. record { written = Some s.bytes; faults = s.faults } };

    fn put(&mut self, bytes: &[u8]) -> Result<(), Failed>
        ensures { (has_memory : Bool) × (self.new ≡ after_put self.old bytes.now has_memory) × (is_ok result ≡ puts self.old has_memory) }
    {
        let is_due = self.plan.is_due();
        let part = part_of(bytes, is_due, self.taken);
        let has_memory = self.bytes.extend_from_slice(part).is_ok();
        let is_done = has_memory && !is_due;
        self.refused = raise_if(!has_memory, self.refused);
        self.faults = raise_if(!is_done, self.faults);
        answer(is_done)
    }
}
