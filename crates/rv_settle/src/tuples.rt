//! The two lists of tuples of a record file.

ghost use Rattle.std.specs.Prelude.{◌≡◌, ◌<◌, ◌^◌, ◌∷◌, [], IfOk, map};
ghost use Rattle.rv_spec.specs.Tuples.{event};
ghost use Rattle.rv_settle.specs.Collecting.{Gains, GainsEvents};

use rv_base::{Access, NoMemory, Tuple, time_of};
use std::alloc::Global;

/// The tuples that are read and those that are written, in the file's order.
#[derive(Drop)]
pub(crate) struct Tuples {
    pub reads: Vec<Tuple>,
    pub writes: Vec<Tuple>,
}

impl Tuples {
    /// No tuples. It takes no memory.
    pub fn new(alloc: Global) -> Tuples
        ensures reads { result.reads.items ≡ [] }
        ensures writes { result.writes.items ≡ [] }
    {
        Tuples {
            reads: Vec::new(alloc),
            writes: Vec::new(alloc),
        }
    }

    /// Adds a tuple that is read and one that is written.
    pub fn add(&mut self, read: Tuple, written: Tuple) -> Result<(), NoMemory>
        ensures { IfOk result (λ _. Gains self.old self.new (read ∷ []) (written ∷ [])) }
    {
        self.reads.push(read)?;
        self.writes.push(written)?;
        Ok(())
    }

    /// Adds what an access of a step reads and writes.
    fn add_access(&mut self, step: u64, access: &Access) -> Result<(), NoMemory>
        requires { step < 2 ^ 32 }
        ensures { IfOk result (λ _. GainsEvents self.old self.new (event step access.now ∷ [])) }
    {
        let read = Tuple {
            cell: access.cell,
            value: access.old,
            time: access.prev,
        };
        let written = Tuple {
            cell: access.cell,
            value: access.new,
            time: time_of(step, access.slot),
        };
        self.add(read, written)
    }

    /// Adds what the accesses of a step read and write.
    pub fn add_row(&mut self, step: u64, accesses: &[Access]) -> Result<(), NoMemory>
        requires { step < 2 ^ 32 }
        ensures { IfOk result (λ _. GainsEvents self.old self.new (map (event step) accesses.now)) }
    {
        for access in accesses {
            self.add_access(step, access)?;
        }
        Ok(())
    }
}
