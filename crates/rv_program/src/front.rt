//! The checks of a record file's header.

ghost use Rattle.std.specs.Prelude.{◌≡◌, true, None, Some, MatchResult, IfOk, ◌+◌, ◌≤◌, length};
ghost use Rattle.rv_spec.specs.Digest.{Lanes};
ghost use Rattle.rv_rules.specs.Checks.{first_broken, unless_broken};
ghost use Rattle.rv_rules.specs.Reading.{header_checks, header_of};

use crate::program::Program;
use rv_base::layout::HEADER_BYTES;
use rv_base::rules::{INPUT, MAGIC, PROGRAM, SHORT};
use rv_base::{Header, Refusal};
use rv_file::{broken_number, read_header};

/// The header, or the first rule that is broken.
fn checked(program: &Program<'_>, file: &[u8]) -> Result<Header, u8>
    ensures value { IfOk result (λ h. h ≡ header_of file.now) }
    ensures room { IfOk result (λ h. HEADER_BYTES + h.length ≤ length file.now) }
    ensures rule { (lanes : Lanes) → MatchResult result
        (λ _. first_broken (header_checks true lanes program.now.elf program.now.input file.now) ≡ None)
        (λ rule. first_broken (header_checks true lanes program.now.elf program.now.input file.now) ≡ Some rule) }
{
    let Some(front) = file.first_chunk::<HEADER_BYTES>() else {
        return Err(SHORT);
    };
    let Some(header) = read_header(front) else {
        return Err(MAGIC);
    };
    if header.elf != program.elf_hash() {
        return Err(PROGRAM);
    }
    if header.input != program.input_hash() {
        return Err(INPUT);
    }
    if let Some(rule) = broken_number(&header) {
        return Err(rule);
    }
    if ((file.len() - HEADER_BYTES) as u64) < header.length {
        return Err(SHORT);
    }
    Ok(header)
}

/// The header of a record file for a program and its input, or the first broken check of the header, at shard 0 and row 0: its length and magic, both hashes, its numbers, and that the output which it states is all there. Nothing behind the output is looked at, and no memory is taken.
pub fn check_front(program: &Program<'_>, file: &[u8]) -> Result<Header, Refusal>
    ensures exact { (lanes : Lanes) → result ≡ unless_broken 0 0 (header_checks true lanes program.now.elf program.now.input file.now) (header_of file.now) }
    ensures room { IfOk result (λ h. HEADER_BYTES + h.length ≤ length file.now) }
{
    match checked(program, file) {
        Ok(header) => Ok(header),
        Err(rule) => Err(Refusal::at(0, 0, rule)),
    }
}
