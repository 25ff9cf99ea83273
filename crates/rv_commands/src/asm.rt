//! `asm`: assembles a source and writes its executable.

ghost use Rattle.std.specs.Prelude.{◌≡◌, ◌≤◌, IfOk, length};
ghost use Rattle.rv_asm.specs.declared.limits.TheConstants as source_limits;
ghost use Rattle.rv_plan.specs.FileCalls.{Performs};
ghost use Rattle.rv_commands.specs.Assembling.{Assembles, AssemblesSource};
ghost use Rattle.rv_commands.specs.CommandLine as command;
ghost use Rattle.rv_commands.specs.Commands.{asm_words};
ghost use Rattle.rv_commands.specs.Headline.{Assembled};
ghost use Rattle.rv_commands.specs.Outcome.{plan_of};

use crate::commands::Asm;
use crate::lines::assembled_lines;
use rv_asm::laws::statements_are_held;
use rv_asm::limits::SOURCE_LIMIT;
use rv_asm::{AsmFault, assemble, executable, listing};
use rv_base::{Bytes, NoMemory, Text};
use rv_host::Shelf;
use rv_plan::{DueFile, Fault, Limited, Told, read_within, write_files};
use std::alloc::Global;

/// An executable, and the text that tells how a source was assembled into it.
#[derive(Drop)]
struct Executable {
    file: Bytes,
    text: Text,
}

/// Assembles a source, writes its executable, and tells of it. All memory is taken before the file is touched.
pub fn asm<S: Shelf>(alloc: Global, words: &Asm<'_>, shelf: &mut S) -> Result<Told, Fault>
    ensures performs { Performs (plan_of (command.asm (asm_words words.now))) (S.view shelf.old) (S.view shelf.new) result }
    ensures headline { IfOk result (λ told. told.status ≡ 0 → Assembled (S.view shelf.old) (S.view shelf.new) (asm_words words.now)) }
{
    let source = read_within(alloc, shelf, words.source, SOURCE_LIMIT, Limited::Source)?;
    write_executable(alloc, shelf, words, source.list())
}

/// Assembles a source, and writes its executable.
fn write_executable<S: Shelf>(
    alloc: Global,
    shelf: &mut S,
    words: &Asm<'_>,
    source: &[u8],
) -> Result<Told, Fault>
    requires { length source.now ≤ source_limits.SOURCE_LIMIT }
    ensures { AssemblesSource (asm_words words.now) source.now (S.view shelf.old) (S.view shelf.new) result }
{
    let made = executable_of(alloc, source)?;
    let file = DueFile {
        name: words.elf,
        parts: &[made.file.list()],
    };
    write_files(shelf, &[file])?;
    Ok(Told {
        status: 0,
        text: made.text,
    })
}

/// The executable of a source without a fault.
fn executable_of(alloc: Global, source: &[u8]) -> Result<Executable, Fault>
    requires { length source.now ≤ source_limits.SOURCE_LIMIT }
    ensures { Assembles source.now result }
{
    statements_are_held();
    let assembled = match assemble(alloc, source) {
        Ok(assembled) => assembled,
        Err(AsmFault::At { line, kind }) => return Err(Fault::Assembly(line, kind)),
        Err(AsmFault::NoMemory) => return Err(Fault::Memory),
    };
    let Ok(file) = executable(alloc, &assembled.words) else {
        return Err(Fault::Memory);
    };
    let Ok(listed) = listing(alloc, &assembled) else {
        return Err(Fault::Memory);
    };
    let words = assembled.words.list().len();
    let Ok(text) = assembled_lines(alloc, listed.text(), words, file.list().len()) else {
        return Err(Fault::Memory);
    };
    Ok(Executable { file, text })
}
