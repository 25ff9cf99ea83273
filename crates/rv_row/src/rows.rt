//! A row, and what reading one answers.

ghost use Rattle.std.specs.Prelude.{◌≡◌, []};
ghost use Rattle.rv_row.specs.RowReading.{row_view};

use arrayvec::ArrayVec;
use rv_base::Access;
use rv_base::cells::SLOTS;

/// One step of a run: the address of its instruction, that of the next one, and the accesses of the step in order, at most 8.
#[derive(Drop, PartialEq, Debug)]
pub struct Row {
    pub pc: u32,
    pub next: u32,
    pub accesses: ArrayVec<Access, SLOTS>,
}

/// A row without an access, in whose place others can be put.
pub fn no_row() -> Row
    ensures { row_view result ≡ record { pc = 0; next = 0; accesses = [] } }
{
    Row {
        pc: 0,
        next: 0,
        accesses: ArrayVec::new(),
    }
}

/// What lies at the front of some bytes.
#[derive(Drop, PartialEq, Debug)]
pub enum RowRead {
    /// A row, and its length in bytes.
    Row(Row, usize),
    /// The bytes end before the row does.
    Short,
    /// The stated number of accesses isn't 1 to 8.
    Shape,
}

/// What lay at the front of some bytes, where a row is put in place of its caller's.
#[derive(Clone, Copy, PartialEq, Debug)]
pub enum RowFound {
    /// A row, of this length in bytes.
    Row(usize),
    /// The bytes end before the row does.
    Short,
    /// The stated number of accesses isn't 1 to 8.
    Shape,
}
