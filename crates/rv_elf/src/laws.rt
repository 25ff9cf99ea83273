//! The law of what is loaded. It computes nothing: its contract is the law.

ghost use Rattle.std.specs.Prelude.{ℕ, List};
ghost use Rattle.rv_elf.specs.Programs.{LoadsProgram};

/// The image of a file of bytes without a fault has the ranges of a program.
pub fn image_is_program()
    ensures { (version : ℕ) (file : List ℕ) → LoadsProgram version file }
{}
