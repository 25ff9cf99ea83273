//! A record that is judged as it is read.

ghost use Rattle.std.specs.Prelude.{◌≡◌, ◌≤◌, ◌↔◌, ◌++◌, ℕ, List, length, IfOk, IfErr, IsTrue, None, Some};
ghost use Rattle.rv_spec.specs.Elf.{first_fault};
ghost use Rattle.rv_elf.specs.Faults.{number_of};
ghost use Rattle.rv_elf.specs.declared.fault.ElfFault.{ElfFault as SomeFault};
ghost use Rattle.rv_plan.specs.declared.faults.Fault.TheVariants as fault;
ghost use Rattle.rv_spec.specs.Words.{AreBytes};
ghost use Rattle.rv_spec.specs.Digest.{sha_lanes};
ghost use Rattle.rv_judge.specs.Held.{IsWholeFront, comes};
ghost use Rattle.rv_commands.specs.Judging.{AreFirst, Judges, ReadsFront};

use rv_base::Verdict;
use rv_base::layout::HEADER_BYTES;
use rv_base::limits::{ELF_LIMIT, INPUT_LIMIT};
use rv_digest::ShaLanes;
use rv_file::front_len;
use rv_host::Shelf;
use rv_judge::laws::verdicts_conclude;
use rv_judge::{Judge, judge};
use rv_plan::{Fault, Loaded, PIECE, read_on};
use rv_program::Program;
use std::alloc::Global;

/// The program and the input that were loaded, or the fault of the program's file.
pub fn open(loaded: &Loaded) -> Result<Program<'_>, Fault>
    requires elf { length loaded.now.elf ≤ ELF_LIMIT }
    requires input { length loaded.now.input ≤ INPUT_LIMIT }
    ensures files { IfOk result (λ p. p ≡ record { elf = loaded.now.elf; input = loaded.now.input }) }
    ensures faultless { IfOk result (λ _. first_fault loaded.now.elf ≡ None) }
    ensures fault { IfErr result (λ f. (e : SomeFault) × (f ≡ fault.Elf e) × (first_fault loaded.now.elf ≡ Some (number_of e))) }
{
    match Program::open(loaded.elf.list(), loaded.input.list()) {
        Ok(program) => Ok(program),
        Err(fault) => Err(Fault::Elf(fault)),
    }
}

/// The verdict on a record file, of which only the header and the stated output are held. It is read no further than its verdict needs.
pub fn judge_file<S: Shelf>(
    alloc: Global,
    shelf: &mut S,
    name: &str,
    program: &Program<'_>,
) -> Result<Verdict, Fault>
    ensures { Judges name.now program.now.elf program.now.input (S.view shelf.old) (S.view shelf.new) result }
{
    let front = read_front(alloc, shelf, name)?;
    if is_whole(front.as_slice()) {
        opened(program);
        judge_pieces(alloc, shelf, name, program, front.as_slice())
    } else {
        Ok(judge(program, front.as_slice(), ShaLanes))
    }
}

/// The law of an opened program: its file has no fault, and both files are bytes.
pub fn opened(program: &Program<'_>)
    ensures faultless { first_fault program.now.elf ≡ None }
    ensures elf { AreBytes program.now.elf }
    ensures input { AreBytes program.now.input }
{
    let _image = program.image();
    let _input = program.input();
}

/// The header of a record file and the output that it states, or all of a file that ends before them.
fn read_front<S: Shelf>(alloc: Global, shelf: &mut S, name: &str) -> Result<Vec<u8>, Fault>
    ensures { ReadsFront name.now (S.view shelf.old) (S.view shelf.new) result }
{
    let mut front = Vec::new(alloc);
    read_on(alloc, shelf, name, &mut front, HEADER_BYTES)?;
    let length = match front.first_chunk::<HEADER_BYTES>() {
        Some(header) => front_len(header),
        None => return Ok(front),
    };
    read_on(alloc, shelf, name, &mut front, length)?;
    Ok(front)
}

/// Whether these are a header and all the output that it states.
fn is_whole(front: &[u8]) -> bool
    ensures whole { IsTrue result ↔ IsWholeFront front.now }
    ensures bytes { AreBytes front.now }
{
    match front.first_chunk::<HEADER_BYTES>() {
        Some(header) => front.len() == front_len(header),
        None => false,
    }
}

/// Judges a record file behind its front, piece by piece, until the verdict is decided or the file ends.
fn judge_pieces<S: Shelf>(
    alloc: Global,
    shelf: &mut S,
    name: &str,
    program: &Program<'_>,
    front: &[u8],
) -> Result<Verdict, Fault>
    requires whole { IsWholeFront front.now }
    requires first { AreFirst (S.view shelf.old) name.now front.now }
    requires faultless { first_fault program.now.elf ≡ None }
    requires elf { AreBytes program.now.elf }
    requires input { AreBytes program.now.input }
    requires front { AreBytes front.now }
    ensures { Judges name.now program.now.elf program.now.input (S.view shelf.old) (S.view shelf.new) result }
{
    let Ok(mut piece) = vec![in alloc; 0u8; PIECE] else {
        return Err(Fault::Memory);
    };
    verdicts_conclude();
    let mut judge = Judge::new(program, front, ShaLanes);
    let mut at = front.len() as u64;
    while judge.refused().is_none() {
        let into = piece.as_mut_slice();
        let Ok(taken) = shelf.read_at(name, at, into) else {
            return Err(Fault::Read);
        };
        if taken == 0 {
            return Ok(judge.finish());
        }
        feed(&mut judge, &into[..taken]);
        // No byte lies past the last position that can be asked for.
        let Some(next) = at.checked_add(taken as u64) else {
            return Err(Fault::Memory);
        };
        at = next;
    }
    Ok(judge.finish())
}

/// Gives a judge the bytes that follow.
fn feed(judge: &mut Judge<'_, ShaLanes>, piece: &[u8])
    ensures comes { (rest : List ℕ) → comes sha_lanes judge.new rest ≡ comes sha_lanes judge.old (piece.now ++ rest) }
    ensures bytes { AreBytes piece.now }
{
    judge.feed(piece);
}
