//! Files in memory, whose calls can be told to fail.

ghost use Rattle.std.specs.Prelude.{◌≡◌, ◌≤◌, Bool, IfSome, Some, OnOk, OnErr, is_ok, length};
ghost use Rattle.std.specs.Option.{option_copied};
ghost use Rattle.std.specs.Result.{result_ok};
ghost use Rattle.rv_host.specs.Files.{found, with_file};
ghost use Rattle.rv_host.specs.MemShelf.{ShelfState, after_append, after_create, after_read, appends, buffer_after, creates, no_files, read_answer};

use crate::counts::{Plan, answer, part_of, raise, raise_if};
use crate::file_map::{FileMap, copy_from};
use crate::{Failed, Shelf};
use rv_base::NoMemory;
use std::alloc::Global;
use std::marker::Model;

/// Files in memory. A failure of each kind of call can be planned, and the bytes of one read
/// capped. It tells its files, and counts the faults of all names together.
#[derive(Drop)]
pub struct MemShelf {
    files: FileMap,
    read_plan: Plan,
    append_plan: Plan,
    create_plan: Plan,
    /// The number of bytes that the planned append takes.
    taken: usize,
    /// The cap of one read, in bytes.
    most: Option<usize>,
    read_faults: u64,
    write_faults: u64,
    /// How often memory was refused.
    refused: u64,
}

impl Model for MemShelf {
    ghost use Rattle.std.specs.Prelude.{◌≤◌, IfSome};
    ghost use Rattle.rv_host.specs.MemShelf.{ShelfState};

    ghost Value = { ShelfState };

    ghost view = { λ s. record {
      files = s.files;
      read_plan = s.read_plan.left;
      append_plan = s.append_plan.left;
      create_plan = s.create_plan.left;
      taken = s.taken;
      most = s.most;
      read_faults = s.read_faults;
      write_faults = s.write_faults;
      refused = s.refused;
    } };

    ghost invariant = { λ s. IfSome s.most (λ most. 1 ≤ most) };
}

impl MemShelf {
    /// No files, and no plans.
    pub fn new(alloc: Global) -> MemShelf
        ensures { result ≡ no_files }
    {
        MemShelf {
            files: FileMap::new(alloc),
            read_plan: Plan { left: 0 },
            append_plan: Plan { left: 0 },
            create_plan: Plan { left: 0 },
            taken: 0,
            most: None,
            read_faults: 0,
            write_faults: 0,
            refused: 0,
        }
    }

    /// Sets a file.
    pub fn put(&mut self, name: &str, bytes: &[u8]) -> Result<(), NoMemory>
        ensures ok { OnOk result (self.new ≡ record self.old { files = with_file self.old.files name.now bytes.now }) }
        ensures err { OnErr result (self.new ≡ self.old) }
    {
        self.files.set_copy(name, bytes)
    }

    /// The bytes of a file. None comes exactly where the name isn't in the map.
    pub fn file(&self, name: &str) -> Option<&[u8]>
        ensures { option_copied result ≡ found self.now.files name.now }
    {
        self.files.get(name)
    }

    /// Makes the nth call of `read_at` from now on fail, counted from 1.
    pub fn plan_read(&mut self, nth: u64)
        ensures { self.new ≡ record self.old { read_plan = nth } }
    {
        self.read_plan = Plan { left: nth };
    }

    /// Makes the nth call of `append` from now on fail, counted from 1. That call adds the first
    /// `taken` bytes, or all of a shorter slice.
    pub fn plan_write(&mut self, nth: u64, taken: usize)
        ensures { self.new ≡ record self.old { append_plan = nth; taken = taken } }
    {
        self.append_plan = Plan { left: nth };
        self.taken = taken;
    }

    /// Makes the nth call of `create` from now on fail, counted from 1.
    pub fn plan_create(&mut self, nth: u64)
        ensures { self.new ≡ record self.old { create_plan = nth } }
    {
        self.create_plan = Plan { left: nth };
    }

    /// Caps the bytes of one read.
    pub fn limit_read(&mut self, most: usize)
        requires { 1 ≤ most }
        ensures { self.new ≡ record self.old { most = Some most } }
    {
        self.most = Some(most);
    }
}

impl Shelf for MemShelf {
    ghost view = { λ s. record { files = Some s.files; read_faults = λ name. s.read_faults; write_faults = λ name. s.write_faults } };

    fn read_at(&mut self, name: &str, at: u64, into: &mut [u8]) -> Result<usize, Failed>
        ensures answer { result_ok result ≡ read_answer self.old name.now at (length into.old) }
        ensures buffer { into.new ≡ buffer_after self.old name.now at into.old }
        ensures state { self.new ≡ after_read self.old name.now }
        ensures capped { IfSome self.old.most (λ most. 1 ≤ most) }
    {
        let is_due = self.read_plan.is_due();
        match self.files.get(name) {
            Some(bytes) if !is_due => {
                let most = self.most.unwrap_or(into.len());
                Ok(copy_from(bytes, at, most, into))
            }
            _ => {
                self.read_faults = raise(self.read_faults);
                Err(Failed)
            }
        }
    }

    fn create(&mut self, name: &str) -> Result<(), Failed>
        ensures { (has_memory : Bool) × (self.new ≡ after_create self.old name.now has_memory) × (is_ok result ≡ creates self.old has_memory) }
    {
        let is_due = self.create_plan.is_due();
        let has_memory = is_due || self.files.set_copy(name, &[]).is_ok();
        let is_done = has_memory && !is_due;
        self.refused = raise_if(!has_memory, self.refused);
        self.write_faults = raise_if(!is_done, self.write_faults);
        answer(is_done)
    }

    fn append(&mut self, name: &str, bytes: &[u8]) -> Result<(), Failed>
        ensures { (has_memory : Bool) × (self.new ≡ after_append self.old name.now bytes.now has_memory) × (is_ok result ≡ appends self.old has_memory) }
    {
        let is_due = self.append_plan.is_due();
        let part = part_of(bytes, is_due, self.taken);
        let has_memory = self.files.append(name, part).is_ok();
        let is_done = has_memory && !is_due;
        self.refused = raise_if(!has_memory, self.refused);
        self.write_faults = raise_if(!is_done, self.write_faults);
        answer(is_done)
    }
}
