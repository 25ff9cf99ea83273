//! The memory, the registers and the reservation of a run.

ghost use Rattle.std.specs.Prelude.{◌≡◌, ◌<◌, ◌≤◌, ◌^◌, [], length, IsTrue, IfOk, OnOk, OnErr};
ghost use Rattle.std.specs.List.{AllByRecursion};
ghost use Rattle.rv_spec.specs.Cells.{is_cell};
ghost use Rattle.rv_rules.specs.Agreement.{IsProgram};
ghost use Rattle.rv_mem.specs.Contents.{value_at, time_at, IsSet, IsTable};
ghost use Rattle.rv_mem.specs.Left.{IsLeft};
ghost use Rattle.rv_mem.specs.Accesses.{accesses_of};

use crate::leaving::{access_all, exchange, leave_all, reserve_page, reserve_pages};
use crate::page::list_used;
use crate::word::Word;
use crate::words::Words;
use arrayvec::ArrayVec;
use rv_base::cells::{REGISTER_CELLS, SLOTS, STACK_TOP};
use rv_base::{Access, NoMemory, TableEntry, Touch};
use rv_elf::Image;
use std::alloc::Global;
use std::marker::Model;

/// The cells of a run, each with its value and the time of its last use, or 0. Cell `w` below 2^30 is word
/// `w` of memory, cell 2^30 + `r` is register `r` from 1 to 31, and cell 2^30 + 32 is the reservation.
///
/// A word takes memory of its own once a word of its page, 16 words from a multiple of 16 on, is set.
#[derive(Drop)]
pub struct Memory<'a> {
    words: Words<'a>,
    registers: [Word; 33],
}

impl<'a> Model for Memory<'a> {
    ghost use Rattle.rv_mem.specs.Contents.{Contents};

    ghost Value = { Contents };

    ghost use Rattle.rv_mem.specs.StoredCells.{contents, AreStoredCells};

    ghost view = { λ m. contents m.words m.registers };

    ghost invariant = { λ m. AreStoredCells m.words m.registers };
}

impl<'a> Memory<'a> {
    /// The cells before the first step, at time 0: the words of the image, x2 with the top of the stack, and 0 in
    /// each other register and in the reservation. What an image loads is a program.
    pub fn new(alloc: Global, image: &Image<'a>) -> Memory<'a>
        ensures image { result.image ≡ image.now }
        ensures touched { result.touched ≡ [] }
        ensures program { IsProgram image.now }
    {
        let mut registers = [Word { value: 0, time: 0 }; 33];
        registers[2] = Word {
            value: STACK_TOP,
            time: 0,
        };
        Memory {
            words: Words::new(alloc, image.copy()),
            registers,
        }
    }

    /// The version of the instructions that the program may use: 1 for RV32IM, 2 for RV32IMA.
    pub fn version(&self) -> u8
        ensures { result ≡ self.now.image.version }
    {
        self.words.version()
    }

    /// The value of a cell, and the time of its last use, or 0. A number that is no cell's has 0 and 0.
    #[inline(always)]
    pub fn get(&self, cell: u32) -> (u32, u64)
        ensures value { result.0 ≡ value_at self.now cell }
        ensures time { result.1 ≡ time_at self.now cell }
    {
        if cell < REGISTER_CELLS {
            let word = self.words.get(cell);
            return (word.value, word.time);
        }
        match self.registers.get((cell - REGISTER_CELLS) as usize) {
            Some(word) => (word.value, word.time),
            None => (0, 0),
        }
    }

    /// Gives a cell a value and a time. Without memory for its page no cell changes.
    pub fn set(&mut self, cell: u32, value: u32, time: u64) -> Result<(), NoMemory>
        requires cell { IsTrue (is_cell 2 cell) }
        requires time { 0 < time }
        ensures ok { OnOk result (IsSet self.old self.new cell value time) }
        ensures err { OnErr result (self.new ≡ self.old) }
    {
        reserve_page(&mut self.words, cell)?;
        let word = Word { value, time };
        exchange(&mut self.words, &mut self.registers, cell, word);
        Ok(())
    }

    /// Leaves the uses of a step in the cells: each cell that is touched gets the value and the time of its last
    /// touch. Without memory for their pages no cell changes.
    pub fn leave(&mut self, step: u64, touches: &[Touch]) -> Result<(), NoMemory>
        requires step { step < 2 ^ 32 }
        requires cells { AllByRecursion (λ t. IsTrue (is_cell 2 t.cell)) touches.now }
        requires slots { AllByRecursion (λ t. 0 < t.slot) touches.now }
        ensures ok { OnOk result (IsLeft self.old self.new step touches.now) }
        ensures err { OnErr result (self.new ≡ self.old) }
    {
        reserve_pages(&mut self.words, touches)?;
        leave_all(&mut self.words, &mut self.registers, step, touches);
        Ok(())
    }

    /// Leaves the uses of a step in the cells, as `leave` does, and puts their accesses in the place of others: each
    /// has what its cell held, and the time of its last use, after the earlier touches of the step. Without memory
    /// no cell changes.
    pub fn access(
        &mut self,
        step: u64,
        touches: &[Touch],
        accesses: &mut ArrayVec<Access, SLOTS>,
    ) -> Result<(), NoMemory>
        requires step { step < 2 ^ 32 }
        requires cells { AllByRecursion (λ t. IsTrue (is_cell 2 t.cell)) touches.now }
        requires slots { AllByRecursion (λ t. 0 < t.slot) touches.now }
        requires most { length touches.now ≤ 8 }
        ensures ok { OnOk result (IsLeft self.old self.new step touches.now) }
        ensures accesses { OnOk result (accesses.new.items ≡ accesses_of (value_at self.old) (time_at self.old) step [] touches.now) }
        ensures err { OnErr result (self.new ≡ self.old) }
    {
        reserve_pages(&mut self.words, touches)?;
        access_all(
            &mut self.words,
            &mut self.registers,
            step,
            touches,
            accesses,
        );
        Ok(())
    }

    /// The cells that were set, by rising number, with their values and times.
    pub fn touched(&self) -> Result<Vec<TableEntry>, NoMemory>
        ensures entries { IfOk result (λ entries. entries.items ≡ self.now.touched) }
        ensures table { IfOk result (λ entries. IsTable self.now entries.items) }
    {
        let mut entries = self.words.touched()?;
        list_used(REGISTER_CELLS, &self.registers, &mut entries)?;
        Ok(entries)
    }
}
