//! Which page holds which words: three levels of numbers.

ghost use Rattle.std.specs.Prelude.{◌≡◌, ℕ, ◌+◌, ◌*◌, ◌/◌, ◌%◌, ◌^◌, ◌<◌, ◌≢◌, MatchOption, OnOk, OnErr, length, slice_index};
ghost use Rattle.rv_mem.specs.Blocks.{block_number};
ghost use Rattle.rv_mem.specs.Directory.{IsDirectory};

use crate::blocks::Blocks;
use rv_base::NoMemory;
use std::alloc::Global;

/// How many pages a block has, and how many entries its leaf. There are 2^18 blocks, and 2^26 pages.
pub const LEAF: usize = 256;

/// The upper levels, and the leaves in order of making. An entry of a leaf is the number of a page, from 1 on,
/// or 0 where there is none. A leaf takes 1 kilobyte, and so the levels of a few pages take few.
#[derive(Drop)]
pub struct Levels {
    pub blocks: Blocks,
    pub leaves: Vec<u32>,
    pub ghost sound: { IsDirectory blocks.entries.items leaves.items },
}

impl Levels {
    ghost use Rattle.rv_mem.specs.Levels.{level_number, HasLeaf};

    /// Levels of no page.
    pub fn new(alloc: Global) -> Levels
        ensures { (page : ℕ) → level_number result page ≡ 0 }
    {
        Levels {
            blocks: Blocks::new(alloc),
            leaves: Vec::new(alloc),
        }
    }

    /// The number of a page, from 1 on, or 0 for one that was not made.
    #[inline(never)]
    pub fn number(&self, page: usize) -> u32
        requires { page < 2 ^ 26 }
        ensures { result ≡ level_number self.now page }
    {
        match self.blocks.find(page / LEAF) {
            Some(leaf) => self.leaves[LEAF * leaf + page % LEAF],
            None => 0,
        }
    }

    /// Makes the leaf for a page, where it is not there.
    pub fn reserve(&mut self, page: usize) -> Result<(), NoMemory>
        requires { page < 2 ^ 26 }
        ensures same { (other : ℕ) → other < 2 ^ 26 → level_number self.new other ≡ level_number self.old other }
        ensures made { OnOk result (HasLeaf self.new page) }
    {
        let block = page / LEAF;
        if self.blocks.find(block).is_none() {
            self.add_leaf(block)?;
        }
        Ok(())
    }

    /// Makes the leaf of a block, without a page.
    fn add_leaf(&mut self, block: usize) -> Result<(), NoMemory>
        requires in_memory { block < 2 ^ 18 }
        requires absent { block_number self.old.blocks.entries.items block ≡ 0 }
        ensures same { (other : ℕ) → other < 2 ^ 26 → level_number self.new other ≡ level_number self.old other }
        ensures made { OnOk result (0 < block_number self.new.blocks.entries.items block) }
    {
        self.blocks.reserve(block)?;
        let Ok(number) = u32::try_from(self.leaves.len() / LEAF + 1) else {
            return Err(NoMemory);
        };
        grow(&mut self.leaves)?;
        self.blocks.enter(block, number);
        Ok(())
    }

    /// Enters the number of a page, whose leaf was made.
    pub fn enter(&mut self, page: usize, number: u32)
        requires in_memory { page < 2 ^ 26 }
        requires made { HasLeaf self.old page }
        ensures entered { level_number self.new page ≡ number }
        ensures others { (other : ℕ) → other < 2 ^ 26 → other ≢ page → level_number self.new other ≡ level_number self.old other }
    {
        let Some(leaf) = self.blocks.find(page / LEAF) else {
            unreachable!();
        };
        self.leaves[LEAF * leaf + page % LEAF] = number;
    }
}

/// Adds a leaf of empty entries.
fn grow(leaves: &mut Vec<u32>) -> Result<(), NoMemory>
    ensures ok { OnOk result (length leaves.new.items ≡ length leaves.old.items + 256) }
    ensures err { OnErr result (leaves.new.items ≡ leaves.old.items) }
    ensures empty { (k : ℕ) → slice_index leaves.new.items k ≡ slice_index leaves.old.items k }
{
    let Some(end) = leaves.len().checked_add(LEAF) else {
        return Err(NoMemory);
    };
    leaves.resize(end, 0)?;
    Ok(())
}
