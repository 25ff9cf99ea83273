//! Files in memory whose reading never fails.

ghost use Rattle.std.specs.Prelude.{◌≡◌, ◌++◌, Bool, [], Some, Ok, OnOk, OnErr, is_ok, length};
ghost use Rattle.std.specs.Option.{option_copied};
ghost use Rattle.rv_host.specs.Files.{file, found, with_added, with_file};
ghost use Rattle.rv_host.specs.Transfers.{read_count, read_into};
ghost use Rattle.rv_host.specs.CalmShelf.{CalmState, with_files};

use crate::counts::{answer, raise_if};
use crate::file_map::{FileMap, copy_from};
use crate::{Failed, Shelf};
use rv_base::NoMemory;
use std::alloc::Global;
use std::marker::Model;

/// Files in memory without plans. An absent name reads as empty, so that no read fails.
#[derive(Drop)]
pub struct CalmShelf {
    files: FileMap,
    write_faults: u64,
    /// How often memory was refused.
    refused: u64,
}

impl Model for CalmShelf {
    ghost use Rattle.rv_host.specs.CalmShelf.{CalmState};

    ghost Value = { CalmState };

    ghost view = { λ s. record { files = s.files; write_faults = s.write_faults; refused = s.refused } };
}

impl CalmShelf {
    /// No files.
    pub fn new(alloc: Global) -> CalmShelf
        ensures { result ≡ record { files = []; write_faults = 0; refused = 0 } }
    {
        CalmShelf {
            files: FileMap::new(alloc),
            write_faults: 0,
            refused: 0,
        }
    }

    /// Sets a file.
    pub fn put(&mut self, name: &str, bytes: &[u8]) -> Result<(), NoMemory>
        ensures ok { OnOk result (self.new ≡ record self.old { files = with_file self.old.files name.now bytes.now }) }
        ensures err { OnErr result (self.new ≡ self.old) }
    {
        self.files.set_copy(name, bytes)
    }

    /// The bytes of a file. None comes exactly where the name isn't in the map.
    pub fn file(&self, name: &str) -> Option<&[u8]>
        ensures { option_copied result ≡ found self.now.files name.now }
    {
        self.files.get(name)
    }
}

impl Shelf for CalmShelf {
    ghost view = { λ s. record { files = Some s.files; read_faults = λ name. 0; write_faults = λ name. s.write_faults } };

    fn read_at(&mut self, name: &str, at: u64, into: &mut [u8]) -> Result<usize, Failed>
        ensures answer { result ≡ Ok (read_count (file self.old.files name.now) at (length into.old) (length into.old)) }
        ensures buffer { into.new ≡ read_into (file self.old.files name.now) at (length into.old) into.old }
        ensures state { self.new ≡ self.old }
    {
        let bytes = self.files.get(name).unwrap_or(&[]);
        Ok(copy_from(bytes, at, into.len(), into))
    }

    fn create(&mut self, name: &str) -> Result<(), Failed>
        ensures { self.new ≡ with_files self.old (with_file self.old.files name.now []) (is_ok result) }
    {
        let has_memory = self.files.set_copy(name, &[]).is_ok();
        self.refused = raise_if(!has_memory, self.refused);
        self.write_faults = raise_if(!has_memory, self.write_faults);
        answer(has_memory)
    }

    fn append(&mut self, name: &str, bytes: &[u8]) -> Result<(), Failed>
        ensures { self.new ≡ with_files self.old (with_added self.old.files name.now bytes.now) (is_ok result) }
    {
        let has_memory = self.files.append(name, bytes).is_ok();
        self.refused = raise_if(!has_memory, self.refused);
        self.write_faults = raise_if(!has_memory, self.write_faults);
        answer(has_memory)
    }
}
