//! The words of memory: those of the image, until the first one of a page is set.

ghost use Rattle.std.specs.Prelude.{◌≡◌, ℕ, ◌+◌, ◌*◌, ◌/◌, ◌^◌, ◌<◌, ◌≢◌, ◌++◌, IfOk, OnOk, slice_index_or};
ghost use Rattle.rv_mem.specs.Paged.{page_number};
ghost use Rattle.rv_mem.specs.Used.{no_word, used};
ghost use Rattle.rv_mem.specs.Words.{ArePages, first_word};

use crate::blocks::ENTRIES;
use crate::directory::Directory;
use crate::levels::LEAF;
use crate::page::{Page, list_used};
use crate::word::Word;
use rv_base::cells::REGISTER_CELLS;
use rv_base::{NoMemory, TableEntry};
use rv_elf::Image;
use std::alloc::Global;

/// The image, and the pages that were made over it, in order of making.
#[derive(Drop)]
pub struct Words<'a> {
    image: Image<'a>,
    directory: Directory,
    pages: Vec<Page>,
    ghost sound: { ArePages directory pages.items },
}

impl<'a> Words<'a> {
    ghost use Rattle.rv_mem.specs.StoredCells.{stored_word};

    /// The words of an image, none of which was set.
    pub fn new(alloc: Global, image: Image<'a>) -> Words<'a>
        ensures image { result.image ≡ image.entry }
        ensures begun { (w : ℕ) → stored_word result w ≡ first_word image.entry w }
    {
        Words {
            image,
            directory: Directory::new(alloc),
            pages: Vec::new(alloc),
        }
    }

    /// The version of the image.
    pub fn version(&self) -> u8
        ensures { result ≡ self.now.image.version }
    {
        self.image.version()
    }

    /// Word `w` of memory.
    #[inline(always)]
    pub fn get(&self, w: u32) -> Word
        requires { w < REGISTER_CELLS }
        ensures { result ≡ stored_word self.now w }
    {
        match self.directory.find(w as usize / 16) {
            Some(index) => self.pages[index].words[w as usize % 16],
            None => Word {
                value: self.image.word(w),
                time: 0,
            },
        }
    }

    /// Makes the page of word `w` of memory, where it is not there. No word changes.
    #[inline(always)]
    pub fn reserve(&mut self, w: u32) -> Result<(), NoMemory>
        requires { w < REGISTER_CELLS }
        ensures image { self.new.image ≡ self.old.image }
        ensures made { OnOk result (0 < page_number self.new.directory (w / 16)) }
        ensures kept { (p : ℕ) → p < 2 ^ 26 → 0 < page_number self.old.directory p → 0 < page_number self.new.directory p }
        ensures same { (v : ℕ) → v < REGISTER_CELLS → stored_word self.new v ≡ stored_word self.old v }
    {
        let page = w as usize / 16;
        if self.directory.recall(page).is_none() {
            self.add_page(page)?;
        }
        Ok(())
    }

    /// Gives word `w` of memory, whose page was made, a value and a time, and answers what it held.
    #[inline(always)]
    pub fn exchange(&mut self, w: u32, word: Word) -> Word
        requires in_memory { w < REGISTER_CELLS }
        requires made { 0 < page_number self.old.directory (w / 16) }
        ensures image { self.new.image ≡ self.old.image }
        ensures directory { self.new.directory ≡ self.old.directory }
        ensures set { stored_word self.new w ≡ word }
        ensures others { (other : ℕ) → other < REGISTER_CELLS → other ≢ w → stored_word self.new other ≡ stored_word self.old other }
        ensures held { result ≡ stored_word self.old w }
    {
        let Some(index) = self.directory.find(w as usize / 16) else {
            unreachable!();
        };
        let held = self.pages[index].words[w as usize % 16];
        self.pages[index].words[w as usize % 16] = word;
        held
    }

    /// Makes a page with the words of the image.
    #[inline(never)]
    fn add_page(&mut self, page: usize) -> Result<(), NoMemory>
        requires in_memory { page < 2 ^ 26 }
        requires absent { page_number self.old.directory page ≡ 0 }
        ensures image { self.new.image ≡ self.old.image }
        ensures made { OnOk result (0 < page_number self.new.directory page) }
        ensures kept { (p : ℕ) → p < 2 ^ 26 → 0 < page_number self.old.directory p → 0 < page_number self.new.directory p }
        ensures same { (w : ℕ) → w < REGISTER_CELLS → stored_word self.new w ≡ stored_word self.old w }
    {
        self.directory.reserve(page)?;
        let Ok(number) = u32::try_from(self.pages.len() + 1) else {
            return Err(NoMemory);
        };
        self.pages.push(first_page(&self.image, page))?;
        self.directory.enter(page, number);
        Ok(())
    }

    /// The words that were used, by rising number.
    pub fn touched(&self) -> Result<Vec<TableEntry>, NoMemory>
        ensures { IfOk result (λ entries. entries.items ≡ used (stored_word self.now) 0 (REGISTER_CELLS)) }
    {
        let mut entries = Vec::new(*self.pages.allocator());
        for table in 0..ENTRIES {
            if self.directory.levels.blocks.has_table(table) {
                self.table_touched(table, &mut entries)?;
            }
        }
        Ok(entries)
    }

    /// Adds the used words of the blocks of a table, by rising number.
    fn table_touched(&self, table: usize, entries: &mut Vec<TableEntry>) -> Result<(), NoMemory>
        requires { table < 512 }
        ensures { OnOk result (entries.new.items ≡ entries.old.items ++ used (stored_word self.now) (2097152 * table) 2097152) }
    {
        for place in 0..ENTRIES {
            let block = ENTRIES * table + place;
            if self.directory.levels.blocks.find(block).is_some() {
                self.block_touched(block, entries)?;
            }
        }
        Ok(())
    }

    /// Adds the used words of a block's pages, by rising number.
    fn block_touched(&self, block: usize, entries: &mut Vec<TableEntry>) -> Result<(), NoMemory>
        requires { block < 2 ^ 18 }
        ensures { OnOk result (entries.new.items ≡ entries.old.items ++ used (stored_word self.now) (4096 * block) 4096) }
    {
        for place in 0..LEAF {
            let page = LEAF * block + place;
            if let Some(index) = self.directory.find(page) {
                list_used(16 * page as u32, &self.pages[index].words, entries)?;
            }
        }
        Ok(())
    }
}

/// A page as the program begins.
fn first_page(image: &Image<'_>, page: usize) -> Page
    requires { page < 2 ^ 26 }
    ensures { (k : ℕ) → k < 16 → slice_index_or result.words k no_word ≡ first_word image.now (16 * page + k) }
{
    let mut words = [Word { value: 0, time: 0 }; 16];
    for i in 0..16 {
        words[i] = Word {
            value: image.word((16 * page + i) as u32),
            time: 0,
        };
    }
    Page { words }
}
