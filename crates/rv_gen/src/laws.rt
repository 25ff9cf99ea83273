//! The law of generated programs. It computes nothing: its contract is the law.

ghost use Rattle.rv_gen.specs.Runs.{ProgramsSucceed};

/// The executable of each generated program of a size from 42 to 84,000 has no fault, and its run on its
/// input of 256 bytes exits with code 0, in at most 163 steps for each 42 of the size and 25 more: at most
/// 326,025 steps.
pub fn generated_programs_end()
    ensures { ProgramsSucceed }
{}
