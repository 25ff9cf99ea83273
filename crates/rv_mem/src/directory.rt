//! Which page holds which words: the levels, and before them the pages that were used lately.

ghost use Rattle.std.specs.Prelude.{◌≡◌, ℕ, ◌+◌, ◌^◌, ◌<◌, ◌≢◌, MatchOption, OnOk};
ghost use Rattle.rv_mem.specs.Recent.{AreRecent};

use crate::levels::Levels;
use rv_base::NoMemory;
use std::alloc::Global;

/// How many pages are known as used lately, each by the remainder of its number.
const RECENT: usize = 64;

/// A page, and its number, from 1 on. With 0 it tells nothing.
#[derive(Clone, Copy)]
pub struct Recent {
    pub page: u32,
    pub number: u32,
}

/// The levels, and pages that were used lately, whose numbers are found without a search.
#[derive(Drop)]
pub struct Directory {
    pub levels: Levels,
    recent: [Recent; RECENT],
    ghost recalls: { AreRecent levels recent },
}

impl Directory {
    ghost use Rattle.rv_mem.specs.Levels.{HasLeaf};
    ghost use Rattle.rv_mem.specs.Paged.{page_number};

    /// A directory of no page.
    pub fn new(alloc: Global) -> Directory
        ensures { (page : ℕ) → page_number result page ≡ 0 }
    {
        Directory {
            levels: Levels::new(alloc),
            recent: [Recent { page: 0, number: 0 }; RECENT],
        }
    }

    /// The place of a page among those that were made, or `None` for one that was not.
    #[inline(always)]
    pub fn find(&self, page: usize) -> Option<usize>
        requires { page < 2 ^ 26 }
        ensures { MatchOption result (page_number self.now page ≡ 0) (λ index. page_number self.now page ≡ index + 1) }
    {
        let told = self.told(page);
        if told == 0 {
            place_of(self.levels.number(page))
        } else {
            place_of(told)
        }
    }

    /// The place of a page, which is then one of those that were used lately.
    #[inline(always)]
    pub fn recall(&mut self, page: usize) -> Option<usize>
        requires { page < 2 ^ 26 }
        ensures found { MatchOption result (page_number self.old page ≡ 0) (λ index. page_number self.old page ≡ index + 1) }
        ensures same { (other : ℕ) → page_number self.new other ≡ page_number self.old other }
    {
        let told = self.told(page);
        if told != 0 {
            return place_of(told);
        }
        let number = self.levels.number(page);
        self.recent[page % RECENT] = Recent {
            page: page as u32,
            number,
        };
        place_of(number)
    }

    /// The number of a page that was used lately, or 0.
    #[inline(always)]
    fn told(&self, page: usize) -> u32
        requires { page < 2 ^ 26 }
        ensures { 0 < result → page_number self.now page ≡ result }
    {
        let recent = self.recent[page % RECENT];
        if recent.page == page as u32 {
            recent.number
        } else {
            0
        }
    }

    /// Makes the leaf for a page, where it is not there.
    pub fn reserve(&mut self, page: usize) -> Result<(), NoMemory>
        requires { page < 2 ^ 26 }
        ensures same { (other : ℕ) → other < 2 ^ 26 → page_number self.new other ≡ page_number self.old other }
        ensures made { OnOk result (HasLeaf self.new.levels page) }
    {
        self.levels.reserve(page)
    }

    /// Enters the number of a page that has none, and whose leaf was made.
    pub fn enter(&mut self, page: usize, number: u32)
        requires in_memory { page < 2 ^ 26 }
        requires absent { page_number self.old page ≡ 0 }
        requires made { HasLeaf self.old.levels page }
        ensures entered { page_number self.new page ≡ number }
        ensures others { (other : ℕ) → other < 2 ^ 26 → other ≢ page → page_number self.new other ≡ page_number self.old other }
    {
        self.levels.enter(page, number);
    }
}

/// The place of the page of a number, which counts from 1.
#[inline(always)]
fn place_of(number: u32) -> Option<usize>
    ensures { MatchOption result (number ≡ 0) (λ index. number ≡ index + 1) }
{
    if number == 0 {
        None
    } else {
        Some(number as usize - 1)
    }
}
