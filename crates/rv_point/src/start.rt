//! What is known before the replay of a shard.

ghost use Rattle.std.specs.Prelude.{◌≡◌, List};
ghost use Rattle.rv_base.specs.declared.record.TableEntry.{TableEntry};

use rv_base::{Place, TableEntry};
use std::marker::Model;

/// Cells with values and times, in memory. Contracts see the list.
#[derive(Debug, Drop)]
pub struct Cells {
    entries: Vec<TableEntry>,
}

impl Model for Cells {
    ghost Value = { List TableEntry };

    ghost view = { λ c. c.entries.items };
}

impl Cells {
    /// The entries of a `Vec`, which keep its memory and its allocator.
    pub fn of(entries: Vec<TableEntry>) -> Cells
        ensures { result ≡ entries.items }
    {
        Cells { entries }
    }

    /// The entries.
    pub fn list(&self) -> &[TableEntry]
        ensures { result.now ≡ self.now }
    {
        self.entries.as_slice()
    }
}

/// A shard before its first row: its index, its rows, the number of its first step, the place there, and each
/// cell that its rows use, by rising number, with its value there and the time of its last use before, or 0.
#[derive(Debug, Drop)]
pub struct ShardStart {
    pub index: u32,
    pub rows: u32,
    pub step: u64,
    pub place: Place,
    pub cells: Cells,
}
