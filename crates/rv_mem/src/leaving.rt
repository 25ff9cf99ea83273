//! Words given to cells: their pages are made first, so that what is left in the cells is left whole.

ghost use Rattle.std.specs.Prelude.{[], ◌≡◌, ◌≢◌, ℕ, ◌+◌, ◌^◌, ◌<◌, ◌≤◌, OnOk, length};
ghost use Rattle.std.specs.List.{AllByRecursion};
ghost use Rattle.rv_spec.specs.Cells.{time_of as time_is};
ghost use Rattle.rv_mem.specs.Accesses.{accesses_of};
ghost use Rattle.rv_mem.specs.StoredCells.{stored_word, stored_cell, word_after, HasPage};

use crate::word::Word;
use crate::words::Words;
use arrayvec::ArrayVec;
use rv_base::cells::{REGISTER_CELLS, RESERVATION_CELL, SLOTS};
use rv_base::{Access, NoMemory, Touch, time_of};

/// Makes the pages of the words of memory among the touched cells. No word changes.
#[inline(always)]
pub fn reserve_pages(words: &mut Words<'_>, touches: &[Touch]) -> Result<(), NoMemory>
    ensures image { words.new.image ≡ words.old.image }
    ensures made { OnOk result (AllByRecursion (λ t. HasPage words.new t.cell) touches.now) }
    ensures same { (w : ℕ) → w < REGISTER_CELLS → stored_word words.new w ≡ stored_word words.old w }
{
    for touch in touches {
        reserve_page(words, touch.cell)?;
    }
    Ok(())
}

/// Makes the page of a cell that is a word of memory, where it is not there. No word changes.
#[inline(always)]
pub fn reserve_page(words: &mut Words<'_>, cell: u32) -> Result<(), NoMemory>
    ensures image { words.new.image ≡ words.old.image }
    ensures made { OnOk result (HasPage words.new cell) }
    ensures kept { (c : ℕ) → HasPage words.old c → HasPage words.new c }
    ensures same { (w : ℕ) → w < REGISTER_CELLS → stored_word words.new w ≡ stored_word words.old w }
{
    if cell < REGISTER_CELLS {
        words.reserve(cell)?;
    }
    Ok(())
}

/// Leaves the uses of a step in cells whose pages were made.
#[inline(always)]
pub fn leave_all(words: &mut Words<'_>, registers: &mut [Word; 33], step: u64, touches: &[Touch])
    requires step { step < 2 ^ 32 }
    requires cells { AllByRecursion (λ t. t.cell < RESERVATION_CELL + 1) touches.now }
    requires made { AllByRecursion (λ t. HasPage words.old t.cell) touches.now }
    ensures image { words.new.image ≡ words.old.image }
    ensures full { length registers.new ≡ 33 }
    ensures left { (c : ℕ) → c < RESERVATION_CELL + 1 → stored_cell words.new registers.new c ≡ word_after step touches.now c (stored_cell words.old registers.old c) }
{
    for touch in touches {
        let touch = *touch;
        exchange(words, registers, touch.cell, left_by(step, touch));
    }
}

/// Leaves the uses of a step in cells whose pages were made, and puts their accesses in the place of others.
#[inline(always)]
pub fn access_all(
    words: &mut Words<'_>,
    registers: &mut [Word; 33],
    step: u64,
    touches: &[Touch],
    accesses: &mut ArrayVec<Access, SLOTS>,
)
    requires step { step < 2 ^ 32 }
    requires cells { AllByRecursion (λ t. t.cell < RESERVATION_CELL + 1) touches.now }
    requires made { AllByRecursion (λ t. HasPage words.old t.cell) touches.now }
    requires most { length touches.now ≤ 8 }
    ensures image { words.new.image ≡ words.old.image }
    ensures full { length registers.new ≡ 33 }
    ensures left { (c : ℕ) → c < RESERVATION_CELL + 1 → stored_cell words.new registers.new c ≡ word_after step touches.now c (stored_cell words.old registers.old c) }
    ensures accesses { accesses.new.items ≡ accesses_of (λ c. (stored_cell words.old registers.old c).value) (λ c. (stored_cell words.old registers.old c).time) step [] touches.now }
{
    accesses.clear();
    for touch in touches {
        let touch = *touch;
        let held = exchange(words, registers, touch.cell, left_by(step, touch));
        accesses.push(Access {
            slot: touch.slot,
            cell: touch.cell,
            old: held.value,
            prev: held.time,
            new: touch.new,
        });
    }
}

/// What a touch leaves in its cell.
#[inline(always)]
fn left_by(step: u64, touch: Touch) -> Word
    requires { step < 2 ^ 32 }
    ensures { result ≡ record { value = touch.new; time = time_is step touch.slot } }
{
    Word {
        value: touch.new,
        time: time_of(step, touch.slot),
    }
}

/// Gives a cell whose page was made a word, and answers what it held.
#[inline(always)]
pub fn exchange(words: &mut Words<'_>, registers: &mut [Word; 33], cell: u32, word: Word) -> Word
    requires cell { cell < RESERVATION_CELL + 1 }
    requires made { HasPage words.old cell }
    ensures image { words.new.image ≡ words.old.image }
    ensures full { length registers.new ≡ 33 }
    ensures kept { (c : ℕ) → HasPage words.old c → HasPage words.new c }
    ensures set { stored_cell words.new registers.new cell ≡ word }
    ensures others { (c : ℕ) → c < RESERVATION_CELL + 1 → c ≢ cell → stored_cell words.new registers.new c ≡ stored_cell words.old registers.old c }
    ensures held { result ≡ stored_cell words.old registers.old cell }
{
    if cell < REGISTER_CELLS {
        words.exchange(cell, word)
    } else {
        let held = registers[(cell - REGISTER_CELLS) as usize];
        registers[(cell - REGISTER_CELLS) as usize] = word;
        held
    }
}
