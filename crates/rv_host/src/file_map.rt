//! Files in memory, by name.

ghost use Rattle.std.specs.Prelude.{◌≡◌, [], length, OnOk, OnErr};
ghost use Rattle.std.specs.Option.{option_copied};
ghost use Rattle.rv_host.specs.Files.{found, with_added, with_file};
ghost use Rattle.rv_host.specs.Transfers.{read_count, read_into};

use rv_base::NoMemory;
use std::alloc::Global;
use std::collections::BTreeMap;
use std::marker::Model;

/// A finite map from names to bytes.
#[derive(Drop)]
pub(crate) struct FileMap {
    alloc: Global,
    files: BTreeMap<String, Vec<u8>>,
}

impl Model for FileMap {
    ghost use Rattle.rv_host.specs.FileMap.{files_of};
    ghost use Rattle.rv_host.specs.Files.{Files};

    ghost Value = { Files };

    ghost view = { λ m. files_of m.files.entries };
}

impl FileMap {
    pub(crate) fn new(alloc: Global) -> FileMap
        ensures { result ≡ [] }
    {
        FileMap {
            alloc,
            files: BTreeMap::new(alloc),
        }
    }

    /// The bytes of a file. None comes exactly where the name isn't in the map.
    pub(crate) fn get(&self, name: &str) -> Option<&[u8]>
        ensures { option_copied result ≡ found self.now name.now }
    {
        match self.files.get(name) {
            Some(bytes) => Some(bytes.as_slice()),
            None => None,
        }
    }

    /// Sets the bytes of a file.
    pub(crate) fn set(&mut self, name: &str, bytes: Vec<u8>) -> Result<(), NoMemory>
        ensures ok { OnOk result (self.new ≡ with_file self.old name.now bytes.items) }
        ensures err { OnErr result (self.new ≡ self.old) }
    {
        let name = String::from_str(self.alloc, name)?;
        self.files.insert(name, bytes)?;
        Ok(())
    }

    /// Sets the bytes of a file to a copy of these.
    pub(crate) fn set_copy(&mut self, name: &str, bytes: &[u8]) -> Result<(), NoMemory>
        ensures ok { OnOk result (self.new ≡ with_file self.old name.now bytes.now) }
        ensures err { OnErr result (self.new ≡ self.old) }
    {
        let copy = bytes.to_vec(self.alloc)?;
        self.set(name, copy)
    }

    /// Adds bytes at the end of a file. An absent name is made.
    pub(crate) fn append(&mut self, name: &str, bytes: &[u8]) -> Result<(), NoMemory>
        ensures ok { OnOk result (self.new ≡ with_added self.old name.now bytes.now) }
        ensures err { OnErr result (self.new ≡ self.old) }
    {
        let Some(file) = self.files.get_mut(name) else {
            return self.set_copy(name, bytes);
        };
        match file.extend_from_slice(bytes) {
            Ok(()) => Ok(()),
            Err(_) => Err(NoMemory),
        }
    }
}

/// Copies the first bytes from a place on: as many as are left, as fit and as are allowed.
pub(crate) fn copy_from(bytes: &[u8], at: u64, most: usize, into: &mut [u8]) -> usize
    ensures count { result ≡ read_count bytes.now at (length into.old) most }
    ensures buffer { into.new ≡ read_into bytes.now at most into.old }
{
    let start = bytes.len().min(at as usize);
    let left = &bytes[start..];
    let count = left.len().min(into.len()).min(most);
    into[..count].copy_from_slice(&left[..count]);
    count
}
