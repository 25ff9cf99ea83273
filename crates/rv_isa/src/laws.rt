//! Laws of the machine and of the expected step. They compute nothing: each contract is a law.

ghost use Rattle.std.specs.Prelude.{ℕ, List};
ghost use Rattle.rv_spec.specs.Elf.{Image};
ghost use Rattle.rv_rules.specs.Agreement.{HoldsLastUses, RunsAreStates, StepsAgree};
ghost use Rattle.rv_isa.specs.Hart.{TouchedIsTable};
ghost use Rattle.rv_isa.specs.Follows.{SeenStepsFollow};
ghost use Rattle.rv_isa.specs.Shape.{ExpectedIsShaped};
ghost use Rattle.rv_isa.specs.Ranges.{RunsFit};

/// The expected step of a row, by the old values that the machine's state holds, makes the accesses
/// of the machine's step and goes on, or ends, as the machine does: for each instruction of both
/// versions, and each state whose registers, bytes and counter have their ranges. So do any old
/// values of which no more is known than that they are the state's in the slots of the accesses
/// that are expected by them.
pub fn agreement()
    ensures own { StepsAgree }
    ensures seen { SeenStepsFollow }
{}

/// The accesses of an expected step, whatever its old values are: the slots rise within 1 to 8,
/// slots 1 to 5 leave what they find, slot 6 has a word of memory, slot 7 a register and slot 8 the
/// reservation.
pub fn shape()
    ensures { ExpectedIsShaped }
{}

/// Each state of a run has these ranges, and a run reads no byte past the end of its input.
pub fn states()
    ensures { (image : Image) (input : List ℕ) → RunsAreStates image input }
{}

/// Before each step of a run, a cell holds what the last use of it left there, or its initial value:
/// a step changes no cell but those that it writes.
pub fn last_uses()
    ensures { (image : Image) (input : List ℕ) (steps : ℕ) → HoldsLastUses image input steps }
{}

/// Each step of a run uses slots that rise within 1 to 8 and cells of the image's version, takes four
/// bytes at most and puts bytes; each cell holds a word, the version stays, and an end has a kind up
/// to 5, and a code, which is a word, in kind 0 alone.
pub fn ranges()
    ensures { (image : Image) (input : List ℕ) → RunsFit image input }
{}

/// The cells that a hart has used, rising, with their values and the times of their last uses, are the table
/// of the run, of which it took the first steps, also where the last of them ends the run.
pub fn tables()
    ensures { TouchedIsTable }
{}
