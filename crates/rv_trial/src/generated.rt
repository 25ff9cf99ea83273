//! The program and the input of a number and a size.

ghost use Rattle.std.specs.Prelude.{◌≡◌, ◌≤◌, IfOk, None, length};
ghost use Rattle.std.specs.Int.{IsInRange};
ghost use Rattle.rv_base.specs.declared.limits.TheConstants.{ELF_LIMIT, INPUT_LIMIT};
ghost use Rattle.rv_spec.specs.Elf.{first_fault};
ghost use Rattle.rv_gen.specs.Runs.{Succeeds};
ghost use Rattle.rv_trial.specs.Trials.{elf_of, input_of};

use rv_base::NoMemory;
use rv_gen::laws::generated_programs_end;
use rv_gen::{Made, program};
use rv_program::Program;
use std::alloc::Global;

/// The program of a number and a size, which ends with success, and its input.
pub fn generated(alloc: Global, number: u32, size: u32) -> Result<Made, NoMemory>
    requires { IsInRange 42 84000 size }
    ensures elf { IfOk result (λ m. m.elf ≡ elf_of number size) }
    ensures input { IfOk result (λ m. m.input ≡ input_of number size) }
    ensures succeeds { IfOk result (λ m. Succeeds size m.elf m.input) }
{
    generated_programs_end();
    let made = program(alloc, number, size)?;
    Ok(made)
}

/// A program whose file has no fault, and its input.
pub fn opened(made: &Made) -> Program<'_>
    requires faultless { first_fault made.now.elf ≡ None }
    requires elf { length made.now.elf ≤ ELF_LIMIT }
    requires input { length made.now.input ≤ INPUT_LIMIT }
    ensures { result ≡ record { elf = made.now.elf; input = made.now.input } }
{
    match Program::open(made.elf.list(), made.input.list()) {
        Ok(program) => program,
        Err(_) => unreachable!(),
    }
}
