//! The machine of RV32IM and RV32IMA, step by step.

ghost use Rattle.std.specs.Prelude.{ℕ, ◌≡◌, ◌+◌, ◌≤◌, ◌++◌, take, Some, None, Ok, OnOk, OnErr, IfOk, IfErr};
ghost use Rattle.std.specs.Int.{w32, to_le_bytes, IsInRange};
ghost use Rattle.rv_base.specs.declared.record.End.{End as EndOf};
ghost use Rattle.rv_spec.specs.Step as spec;
ghost use Rattle.rv_spec.specs.Step.{State};
ghost use Rattle.rv_spec.specs.Run.{GoesOn, next_state};
ghost use Rattle.rv_isa.specs.HartState.{StandsFor};
ghost use Rattle.rv_isa.specs.Look.{TellsStep};
ghost use Rattle.rv_isa.specs.Machine.{IsFresh, IsRunOf, Represents, TakesStep};

use crate::hart::Hart;
use crate::look::Look;
use rv_base::limits::BUDGET_LIMIT;
use rv_base::{Bytes, End, NoMemory};
use rv_elf::Image;
use std::alloc::Global;
use std::marker::Model;

/// What a step does: the run goes on, or ends.
#[derive(Clone, Copy, PartialEq, Eq, Debug)]
pub enum Turn {
    Next,
    Ends(End),
}

/// A run that ended: its steps, the ending one counted, its end, the bytes of input that it took and its output.
#[derive(Debug, Drop)]
pub struct Ran {
    pub steps: u64,
    pub end: End,
    pub consumed: u64,
    pub output: Bytes,
}

/// Why a run has no end: it goes on past its budget of steps, or there is no memory.
#[derive(Clone, Copy, PartialEq, Eq, Debug)]
pub enum RunStop {
    Budget,
    NoMemory,
}

/// A machine that runs a program on an input. A page of words that is used for the first time takes memory, and
/// so do the bytes of the output.
#[derive(Drop)]
pub struct Machine<'a> {
    hart: Hart<'a>,
    output: Vec<u8>,
    ended: Option<End>,
}

impl<'a> Model for Machine<'a> {
    ghost use Rattle.rv_isa.specs.MachineState.{MachineState};

    ghost Value = { MachineState };

    ghost use Rattle.rv_isa.specs.MachineView.{machine_view};

    ghost view = { machine_view };
}

impl<'a> Machine<'a> {
    /// The machine before the first step of a program, in the version of its image.
    pub fn start(alloc: Global, image: &Image<'a>, input: &'a [u8]) -> Machine<'a>
        ensures image { result.hart.cells.image ≡ image.now }
        ensures input { result.hart.input ≡ input.now }
        ensures fresh { IsFresh result }
    {
        Machine {
            hart: Hart::start(alloc, image, input),
            output: Vec::new(alloc),
            ended: None,
        }
    }

    /// Takes one step. A machine that has ended stays and answers its end again. Without memory nothing changes.
    pub fn step(&mut self) -> Result<Turn, NoMemory>
        ensures image { self.new.hart.cells.image ≡ self.old.hart.cells.image }
        ensures input { self.new.hart.input ≡ self.old.hart.input }
        ensures ok { (s : State) → Represents self.old s → self.old.ended ≡ None → IfOk result (λ turn. TakesStep (spec.step self.old.hart.input s) s turn self.new) }
        ensures ended { (e : EndOf) → self.old.ended ≡ Some e → (result ≡ Ok (Turn.Ends e)) × (self.new ≡ self.old) }
        ensures err { OnErr result (self.new ≡ self.old) }
    {
        if let Some(end) = self.ended {
            return Ok(Turn::Ends(end));
        }
        let mut look = Look::new();
        self.hart.look(&mut look);
        if let Some(end) = look.outcome.end {
            self.ended = Some(end);
            return Ok(Turn::Ends(end));
        }
        carry_out(&mut self.hart, &mut self.output, &look)?;
        Ok(Turn::Next)
    }

    /// Runs a machine that has taken no step to its end. Budget comes exactly where the run doesn't end
    /// within that many steps, the ending one counted.
    pub fn run(mut self, budget: u64) -> Result<Ran, RunStop>
        requires fresh { IsFresh self }
        requires budget { IsInRange 1 BUDGET_LIMIT budget }
        ensures ok { IfOk result (IsRunOf self.entry.hart.cells.image self.entry.hart.input budget) }
        ensures err { IfErr result (λ stop. stop ≡ RunStop.Budget → GoesOn self.entry.hart.cells.image self.entry.hart.input budget) }
    {
        for done in 0..budget {
            match self.step() {
                Ok(Turn::Next) => {}
                Ok(Turn::Ends(end)) => return Ok(self.ran(done + 1, end)),
                Err(NoMemory) => return Err(RunStop::NoMemory),
            }
        }
        Err(RunStop::Budget)
    }

    /// What the machine did in so many steps.
    fn ran(self, steps: u64, end: End) -> Ran
        ensures { result ≡ record { steps = steps; end = end; consumed = self.entry.hart.position; output = self.entry.output } }
    {
        Ran {
            steps,
            end,
            consumed: self.hart.position(),
            output: Bytes::of(self.output),
        }
    }
}

/// Takes the step that was looked at, and appends the bytes that it puts, or does neither. Its times tell nothing.
fn carry_out(hart: &mut Hart<'_>, output: &mut Vec<u8>, look: &Look) -> Result<(), NoMemory>
    requires tells { (s : State) → StandsFor hart.old s → TellsStep hart.old.input s look.now }
    requires most { look.now.outcome.put ≤ 4 }
    ensures image { hart.new.cells.image ≡ hart.old.cells.image }
    ensures input { hart.new.input ≡ hart.old.input }
    ensures stands { (s : State) → StandsFor hart.old s → OnOk result (StandsFor hart.new (next_state hart.old.input s)) }
    ensures output { OnOk result (output.new.items ≡ output.old.items ++ take look.now.outcome.put (to_le_bytes w32 look.now.outcome.word)) }
    ensures err { OnErr result ((hart.new ≡ hart.old) × (output.new.items ≡ output.old.items)) }
{
    if look.outcome.put == 0 {
        return hart.carry_out(look);
    }
    let length = output.len();
    let bytes = look.outcome.word.to_le_bytes();
    output.extend_from_slice(&bytes[..look.outcome.put as usize])?;
    let carried = hart.carry_out(look);
    if carried.is_err() {
        output.truncate(length);
    }
    carried
}
