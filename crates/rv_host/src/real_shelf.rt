//! The files of the system.

ghost use Rattle.std.specs.Prelude.{◌≡◌, ◌≤◌, None, IfOk, length};

use crate::counts::count_fault;
use crate::{Failed, Shelf};
use std::alloc::AllocGlobal;
use std::fs::{File, OpenOptions};
use std::io;
use std::io::{Read, Seek, SeekFrom, Write};
use std::rt::Files;

/// The files of the system. It tells no bytes, and counts the faults of all names together.
/// The file that was added to last stays open, so that a record of many shards is opened once.
/// What is added goes to that file until another is added to or made empty, even if its name is
/// given to another file meanwhile.
#[derive(Drop)]
pub struct RealShelf<R: Files> {
    rt: R,
    last: Option<Opened<R::File>>,
    read_faults: u64,
    write_faults: u64,
}

/// A file that bytes can be added to, and the name that it was opened by.
#[derive(Drop)]
struct Opened<F: Drop> {
    name: String,
    file: F,
}

impl<R: Files + AllocGlobal> RealShelf<R> {
    /// A shelf over the system's files that has met no fault.
    pub fn new(rt: R) -> RealShelf<R>
        ensures reads { result.read_faults ≡ 0 }
        ensures writes { result.write_faults ≡ 0 }
    {
        RealShelf {
            rt,
            last: None,
            read_faults: 0,
            write_faults: 0,
        }
    }
}

fn read_piece<R: Files>(rt: &R, name: &str, at: u64, into: &mut [u8]) -> io::Result<usize>
    ensures { IfOk result (λ count. count ≤ length into.old) }
{
    let mut file = File::open(rt, name)?;
    file.seek(SeekFrom::Start(at))?;
    file.read(into)
}

fn make_empty<R: Files>(rt: &R, name: &str) -> io::Result<()> {
    let _file = File::create(rt, name)?;
    Ok(())
}

/// Adds bytes at the end of a file. It stays open where there is memory for its name.
fn add<R: Files + AllocGlobal>(
    rt: &R,
    last: &mut Option<Opened<R::File>>,
    name: &str,
    bytes: &[u8],
) -> io::Result<()> {
    if let Some(opened) = last {
        if opened.name.as_str() == name {
            return opened.file.write_all(bytes);
        }
    }
    let mut file = OpenOptions::new().append(true).create(true).open(rt, name)?;
    file.write_all(bytes)?;
    *last = match String::from_str(rt.alloc(), name) {
        Ok(name) => Some(Opened { name, file }),
        Err(_) => None,
    };
    Ok(())
}

impl<R: Files + AllocGlobal> Shelf for RealShelf<R> {
    ghost view = { λ s. record { files = None; read_faults = λ name. s.read_faults; write_faults = λ name. s.write_faults } };

    fn read_at(&mut self, name: &str, at: u64, into: &mut [u8]) -> Result<usize, Failed> {
        count_fault(read_piece(&self.rt, name, at, into), &mut self.read_faults)
    }

    fn create(&mut self, name: &str) -> Result<(), Failed> {
        self.last = None;
        count_fault(make_empty(&self.rt, name), &mut self.write_faults)
    }

    fn append(&mut self, name: &str, bytes: &[u8]) -> Result<(), Failed> {
        let outcome = add(&self.rt, &mut self.last, name, bytes);
        count_fault(outcome, &mut self.write_faults)
    }
}
