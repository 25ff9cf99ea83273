//! Files, as the commands see them.

ghost use Rattle.std.specs.Prelude.{◌≡◌, ℕ, ◌≤◌, List, [], length, IfOk, OnOk, OnErr, IfSome};
ghost use Rattle.std.specs.Option.{option_map};
ghost use Rattle.rv_host.specs.Counts.{Counted, Rose};
ghost use Rattle.rv_host.specs.Files.{file, with_added, with_file};
ghost use Rattle.rv_host.specs.Transfers.{AddsPrefix, Reads};
ghost use Rattle.rv_host.specs.Views.{ShelfView};

use crate::Failed;

/// Files by name.
///
/// A shelf means a finite map from names to bytes, where it tells one, and for each name two
/// counts of faults, of reading and of writing. They never fall and end at `u64::MAX`. A call that
/// succeeds leaves every count, and an implementation may count all names together.
pub trait Shelf {
    /// The files, where it tells them, and how often reading and writing each name failed.
    ghost view: { Self → ShelfView };

    /// Reads bytes of a file, from the byte `at` on, into the front of `into`, and answers their
    /// number. It is 0 only where `into` is empty or no bytes are left. A name that isn't in the map
    /// counts as empty. It may read fewer bytes than there are.
    fn read_at(&mut self, name: &str, at: u64, into: &mut [u8]) -> Result<usize, Failed>
        ensures fits { IfOk result (λ count. count ≤ length into.old) }
        ensures bytes { IfOk result (λ count. IfSome (view self.old).files (λ told. Reads (file told name.now) at count into.old into.new)) }
        ensures same_files { (view self.new).files ≡ (view self.old).files }
        ensures reads { (any : List ℕ) → Counted result ((view self.old).read_faults any) ((view self.new).read_faults any) }
        ensures writes { (any : List ℕ) → (view self.new).write_faults any ≡ (view self.old).write_faults any }
        ensures failed { OnErr result (Rose ((view self.old).read_faults name.now) ((view self.new).read_faults name.now)) };

    /// Makes a file empty. An absent name is made. A call that fails changes no file.
    fn create(&mut self, name: &str) -> Result<(), Failed>
        ensures created { OnOk result ((view self.new).files ≡ option_map (λ told. with_file told name.now []) (view self.old).files) }
        ensures same_files { OnErr result ((view self.new).files ≡ (view self.old).files) }
        ensures reads { (any : List ℕ) → Counted result ((view self.old).read_faults any) ((view self.new).read_faults any) }
        ensures writes { (any : List ℕ) → Counted result ((view self.old).write_faults any) ((view self.new).write_faults any) }
        ensures failed { OnErr result (Rose ((view self.old).write_faults name.now) ((view self.new).write_faults name.now)) };

    /// Adds bytes at the end of a file. An absent name is made. A call that fails has added a prefix
    /// of them.
    fn append(&mut self, name: &str, bytes: &[u8]) -> Result<(), Failed>
        ensures added { OnOk result ((view self.new).files ≡ option_map (λ told. with_added told name.now bytes.now) (view self.old).files) }
        ensures prefix { OnErr result (AddsPrefix (view self.old).files (view self.new).files name.now bytes.now) }
        ensures reads { (any : List ℕ) → Counted result ((view self.old).read_faults any) ((view self.new).read_faults any) }
        ensures writes { (any : List ℕ) → Counted result ((view self.old).write_faults any) ((view self.new).write_faults any) }
        ensures failed { OnErr result (Rose ((view self.old).write_faults name.now) ((view self.new).write_faults name.now)) };
}
