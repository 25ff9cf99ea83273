//! An output, as the commands see it.

ghost use Rattle.std.specs.Prelude.{◌≡◌, ◌++◌, OnOk, OnErr};
ghost use Rattle.std.specs.Option.{option_map};
ghost use Rattle.rv_host.specs.Counts.{Counted, Rose};
ghost use Rattle.rv_host.specs.Transfers.{PutsPrefix};
ghost use Rattle.rv_host.specs.Views.{SinkView};

use crate::Failed;

/// An output that takes bytes.
///
/// A sink means the bytes so far, where it tells them, and a count of faults, which never falls
/// and ends at `u64::MAX`.
pub trait Sink {
    /// The bytes so far, where it tells them, and how often it failed.
    ghost view: { Self → SinkView };

    /// Adds bytes at the end. A call that fails has added a prefix of them.
    fn put(&mut self, bytes: &[u8]) -> Result<(), Failed>
        ensures added { OnOk result ((view self.new).written ≡ option_map (λ told. told ++ bytes.now) (view self.old).written) }
        ensures prefix { OnErr result (PutsPrefix (view self.old).written (view self.new).written bytes.now) }
        ensures count { Counted result (view self.old).faults (view self.new).faults }
        ensures failed { OnErr result (Rose (view self.old).faults (view self.new).faults) };
}
