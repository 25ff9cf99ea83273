//! One step over cells with times: what the machine, the walk over a run and the replay of a shard share.

ghost use Rattle.std.specs.Prelude.{[], ℕ, List, ◌≡◌, ◌+◌, ◌%◌, ◌^◌, ◌<◌, ◌≤◌, length, map, OnOk, OnErr, IfOk};
ghost use Rattle.std.specs.List.{AllByRecursion};
ghost use Rattle.arrayvec.specs.ArrayVec.{array_vec_len};
ghost use Rattle.rv_base.specs.declared.record.Tuple.{Tuple as TupleOf};
ghost use Rattle.rv_spec.specs.Step.{State, start};
ghost use Rattle.rv_spec.specs.Run.{next_state};
ghost use Rattle.rv_spec.specs.Grammar.{IsRising};
ghost use Rattle.rv_mem.specs.Contents.{IsTable};
ghost use Rattle.rv_isa.specs.HartState.{StandsFor, IsTimed};
ghost use Rattle.rv_isa.specs.Resumed.{IsKnown, HoldsListed, resumed};
ghost use Rattle.rv_isa.specs.Hart.{TakesStepFrom, TakesTimes};
ghost use Rattle.rv_isa.specs.Look.{TellsStep};

use crate::expected::make;
use crate::finding::find;
use crate::look::Look;
use crate::restoring::restore;
use crate::step::Step;
use rv_base::{End, NoMemory, Place, TableEntry};
use rv_elf::Image;
use rv_mem::Memory;
use rv_row::Row;
use std::alloc::Global;
use std::marker::Model;

/// A step that was taken: the end if it ends the run, the bytes of input that it takes, and the bytes that it
/// puts: the first `put` bytes of `word`, 0 to 4, the least significant first.
#[derive(Clone, Copy, Debug)]
pub struct Stepped {
    pub end: Option<End>,
    pub took: u32,
    pub put: u32,
    pub word: u32,
}

/// A hart of RV32IM and RV32IMA (RISC-V Unprivileged ISA) between two steps: its cells with the time of their
/// last use (Blum et al. 1991), the input, the address of the next instruction and the bytes of input read.
/// The output is its caller's.
#[derive(Drop)]
pub struct Hart<'a> {
    cells: Memory<'a>,
    input: &'a [u8],
    pc: u32,
    position: u64,
}

impl<'a> Model for Hart<'a> {
    ghost use Rattle.rv_isa.specs.HartState.{HartState};

    ghost Value = { HartState };

    ghost use Rattle.rv_isa.specs.HartView.{hart_view, IsHart};

    ghost view = { hart_view };

    ghost invariant = { IsHart };
}

impl<'a> Hart<'a> {
    /// The hart before the first step of a program, in the version of its image. No cell has been used.
    pub fn start(alloc: Global, image: &Image<'a>, input: &'a [u8]) -> Hart<'a>
        ensures image { result.cells.image ≡ image.now }
        ensures input { result.input ≡ input.now }
        ensures stands { StandsFor result (start image.now) }
        ensures timed { IsTimed result [] 0 }
    {
        Hart {
            cells: Memory::new(alloc, image),
            input,
            pc: image.entry(),
            position: 0,
        }
    }

    /// The hart at a place of a run, from the cells that were used before, by rising number, with their values
    /// and the times of their last uses. A cell that isn't listed holds what the program begins with, at time 0.
    /// The place of the output tells nothing.
    pub fn resume(
        alloc: Global,
        image: &Image<'a>,
        input: &'a [u8],
        place: Place,
        cells: &[TableEntry],
    ) -> Result<Hart<'a>, NoMemory>
        requires rising { IsRising (map (λ e. e.cell) cells.now) }
        requires known { AllByRecursion (IsKnown image.now) cells.now }
        requires aligned { place.pc % 4 ≡ 0 }
        requires within { place.input ≤ length input.now }
        ensures image { IfOk result (λ h. h.cells.image ≡ image.now) }
        ensures input { IfOk result (λ h. h.input ≡ input.now) }
        ensures pc { IfOk result (λ h. h.pc ≡ place.pc) }
        ensures position { IfOk result (λ h. h.position ≡ place.input) }
        ensures cells { IfOk result (λ h. HoldsListed h image.now cells.now) }
        ensures stands { IfOk result (λ h. StandsFor h (resumed image.now place cells.now)) }
    {
        let mut memory = Memory::new(alloc, image);
        restore(&mut memory, cells)?;
        Ok(Hart {
            cells: memory,
            input,
            pc: place.pc,
            position: place.input,
        })
    }

    /// The address of the next instruction.
    pub fn pc(&self) -> u32
        ensures value { result ≡ self.now.pc }
        ensures aligned { result % 4 ≡ 0 }
    {
        self.pc
    }

    /// How many bytes of input were read.
    pub fn position(&self) -> u64
        ensures value { result ≡ self.now.position }
        ensures within { result ≤ length self.now.input }
    {
        self.position
    }

    /// Takes one step, as the step of that number, from 0 on, for the times, and leaves its row in place of
    /// another. A step that ends the run stays where it is, and uses its cells all the same. Without memory
    /// nothing changes but the row.
    pub fn step(&mut self, number: u64, row: &mut Row) -> Result<Stepped, NoMemory>
        requires { number < 2 ^ 32 }
        ensures image { self.new.cells.image ≡ self.old.cells.image }
        ensures input { self.new.input ≡ self.old.input }
        ensures ok { (s : State) → StandsFor self.old s → IfOk result (λ m. TakesStepFrom self.old.input s m self.new) }
        ensures times { (s : State) (before : List TupleOf) → StandsFor self.old s → IsTimed self.old before number → OnOk result (TakesTimes self.old.input s before number row.new self.new) }
        ensures err { OnErr result (self.new ≡ self.old) }
    {
        let mut look = Look::new();
        self.look(&mut look);
        let touches = look.touches.list.as_slice();
        self.cells.access(number, touches, &mut row.accesses)?;
        row.pc = self.pc;
        row.next = look.outcome.next;
        self.pc = look.outcome.next;
        self.position += u64::from(look.outcome.took);
        Ok(Stepped {
            end: look.outcome.end,
            took: look.outcome.took,
            put: look.outcome.put,
            word: look.outcome.word,
        })
    }

    /// The cells that were used, by rising number, with their values and the times of their last uses.
    pub fn touched(&self) -> Result<Vec<TableEntry>, NoMemory>
        ensures { IfOk result (λ entries. IsTable self.now.cells entries.items) }
    {
        self.cells.touched()
    }

    /// Looks at the next step, and puts its accesses and where it goes into a look that has none.
    // Inlined with all that it calls: what a step finds then stays in registers.
    #[inline(always)]
    pub(crate) fn look(&self, look: &mut Look)
        requires begins { array_vec_len look.old.touches.list ≡ 0 }
        requires none { look.old.touches.list.items ≡ [] }
        ensures tells { (s : State) → StandsFor self.now s → TellsStep self.now.input s look.new }
        ensures most { look.new.outcome.put ≤ 4 }
    {
        let found = find(&self.cells, self.pc);
        let step = Step {
            pc: self.pc,
            seen: &found.seen,
            input: self.input,
            at: self.position,
        };
        look.outcome = make(&step, &mut look.touches, found.decoded);
    }

    /// Takes the step that was looked at, without a row. Its times tell nothing. Without memory nothing changes.
    pub(crate) fn carry_out(&mut self, look: &Look) -> Result<(), NoMemory>
        requires { (s : State) → StandsFor self.old s → TellsStep self.old.input s look.now }
        ensures image { self.new.cells.image ≡ self.old.cells.image }
        ensures input { self.new.input ≡ self.old.input }
        ensures ok { (s : State) → StandsFor self.old s → OnOk result (StandsFor self.new (next_state self.old.input s)) }
        ensures err { OnErr result (self.new ≡ self.old) }
    {
        self.cells.leave(0, look.touches.list.as_slice())?;
        self.pc = look.outcome.next;
        self.position += u64::from(look.outcome.took);
        Ok(())
    }
}
