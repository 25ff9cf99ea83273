//! Standard output.

ghost use Rattle.std.specs.Prelude.{◌≡◌, None};

use crate::counts::count_fault;
use crate::{Failed, Sink};
use std::io;
use std::io::Write;

/// Standard output. It tells no bytes.
#[derive(Drop)]
pub struct RealSink<R: Print> {
    rt: R,
    faults: u64,
}

impl<R: Print> RealSink<R> {
    /// A sink over standard output that has met no fault.
    pub fn new(rt: R) -> RealSink<R>
        ensures { result.faults ≡ 0 }
    {
        RealSink { rt, faults: 0 }
    }
}

impl<R: Print> Sink for RealSink<R> {
    ghost view = { λ s. record { written = None; faults = s.faults } };

    fn put(&mut self, bytes: &[u8]) -> Result<(), Failed> {
        count_fault(io::writer(&self.rt).write_all(bytes), &mut self.faults)
    }
}
