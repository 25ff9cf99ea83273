//! Which leaf of the directory has which block of pages: its two upper levels.

ghost use Rattle.std.specs.Prelude.{◌≡◌, ℕ, ◌+◌, ◌^◌, ◌<◌, ◌≢◌, ◌↔◌, IsTrue, MatchOption, OnOk, OnErr, length, slice_index};
ghost use Rattle.rv_mem.specs.Blocks.{IsBlocks, table_of, block_number};

use rv_base::NoMemory;
use std::alloc::Global;

/// How many entries the upper level and each table have. Both levels together have 2^18 blocks.
pub const ENTRIES: usize = 512;

/// The upper level and, after it, the tables in order of making. An entry of the upper level is the number
/// of a table, and an entry of a table is the number of the block's leaf. Both count from 1, and 0 says that
/// there is none.
#[derive(Drop)]
pub struct Blocks {
    pub entries: Vec<u32>,
    pub ghost sound: { IsBlocks entries.items },
}

impl Blocks {
    /// No block has a leaf.
    pub fn new(alloc: Global) -> Blocks
        ensures { (block : ℕ) → block_number result.entries.items block ≡ 0 }
    {
        Blocks {
            entries: Vec::new(alloc),
        }
    }

    /// The place of a block's leaf among those that were made, or `None` where none was.
    pub fn find(&self, block: usize) -> Option<usize>
        requires { block < 2 ^ 18 }
        ensures { MatchOption result (block_number self.now.entries.items block ≡ 0) (λ index. block_number self.now.entries.items block ≡ index + 1) }
    {
        if self.entries.is_empty() {
            return None;
        }
        let table = self.entries[block / ENTRIES] as usize;
        if table == 0 {
            return None;
        }
        let number = self.entries[ENTRIES * table + block % ENTRIES] as usize;
        if number == 0 { None } else { Some(number - 1) }
    }

    /// Whether a table was made, by its place in the upper level.
    pub fn has_table(&self, table: usize) -> bool
        requires { table < 512 }
        ensures { IsTrue result ↔ (0 < slice_index self.now.entries.items table) }
    {
        match self.entries.get(table) {
            Some(number) => *number != 0,
            None => false,
        }
    }

    /// Makes the upper level and the table for a block, where they are not there.
    pub fn reserve(&mut self, block: usize) -> Result<(), NoMemory>
        requires { block < 2 ^ 18 }
        ensures same { (other : ℕ) → other < 2 ^ 18 → block_number self.new.entries.items other ≡ block_number self.old.entries.items other }
        ensures made { OnOk result (0 < table_of self.new.entries.items block) }
    {
        if self.entries.is_empty() {
            self.make_upper_level()?;
        }
        self.make_table(block)
    }

    fn make_upper_level(&mut self) -> Result<(), NoMemory>
        ensures same { (other : ℕ) → block_number self.new.entries.items other ≡ block_number self.old.entries.items other }
        ensures made { OnOk result (0 < length self.new.entries.items) }
    {
        grow(&mut self.entries)
    }

    fn make_table(&mut self, block: usize) -> Result<(), NoMemory>
        requires in_memory { block < 2 ^ 18 }
        requires begun { 0 < length self.old.entries.items }
        ensures same { (other : ℕ) → other < 2 ^ 18 → block_number self.new.entries.items other ≡ block_number self.old.entries.items other }
        ensures made { OnOk result (0 < table_of self.new.entries.items block) }
    {
        if self.entries[block / ENTRIES] != 0 {
            return Ok(());
        }
        let Ok(table) = u32::try_from(self.entries.len() / ENTRIES) else {
            return Err(NoMemory);
        };
        grow(&mut self.entries)?;
        self.entries[block / ENTRIES] = table;
        Ok(())
    }

    /// Enters the number of the leaf of a block whose table was made.
    pub fn enter(&mut self, block: usize, number: u32)
        requires in_memory { block < 2 ^ 18 }
        requires made { 0 < table_of self.old.entries.items block }
        ensures entered { block_number self.new.entries.items block ≡ number }
        ensures others { (other : ℕ) → other < 2 ^ 18 → other ≢ block → block_number self.new.entries.items other ≡ block_number self.old.entries.items other }
    {
        let table = self.entries[block / ENTRIES] as usize;
        self.entries[ENTRIES * table + block % ENTRIES] = number;
    }
}

/// Adds a level of empty entries.
fn grow(entries: &mut Vec<u32>) -> Result<(), NoMemory>
    ensures ok { OnOk result (length entries.new.items ≡ length entries.old.items + 512) }
    ensures err { OnErr result (entries.new.items ≡ entries.old.items) }
    ensures empty { (k : ℕ) → slice_index entries.new.items k ≡ slice_index entries.old.items k }
{
    let Some(end) = entries.len().checked_add(ENTRIES) else {
        return Err(NoMemory);
    };
    entries.resize(end, 0)?;
    Ok(())
}
