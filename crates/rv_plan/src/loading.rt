//! A program and its input, read whole up to their limits.

ghost use Rattle.std.specs.Prelude.{◌≡◌, ◌<◌, ◌≤◌, ◌^◌, IfOk, IfErr, Some, None, length};
ghost use Rattle.std.specs.Int.{IsInRange};
ghost use Rattle.rv_spec.specs.Elf.{first_fault, image};
ghost use Rattle.rv_elf.specs.Faults.{number_of};
ghost use Rattle.rv_elf.specs.declared.fault.ElfFault.{ElfFault as SomeFault};
ghost use Rattle.rv_plan.specs.FileCalls.{Loads, ReadsOn, ReadsWithin};
ghost use Rattle.rv_plan.specs.declared.faults.Fault.TheVariants as fault;

use crate::faults::{Fault, Limited};
use rv_base::Bytes;
use rv_base::limits::{ELF_LIMIT, INPUT_LIMIT};
use rv_elf::Image;
use rv_host::Shelf;
use std::alloc::Global;

/// The most bytes that one read asks for.
pub const PIECE: usize = 65_536;

/// A program's file and its input.
#[derive(Debug, Drop)]
pub struct Loaded {
    pub elf: Bytes,
    pub input: Bytes,
}

/// Reads a program and its input: the ELF file is held to its limit before the input is read.
pub fn load<S: Shelf>(alloc: Global, shelf: &mut S, elf: &str, input: &str) -> Result<Loaded, Fault>
    ensures { Loads elf.now input.now (S.view shelf.old) (S.view shelf.new) result }
{
    let elf = read_within(alloc, shelf, elf, ELF_LIMIT, Limited::Elf)?;
    let input = read_within(alloc, shelf, input, INPUT_LIMIT, Limited::Input)?;
    Ok(Loaded { elf, input })
}

/// The bytes of a file that is within a limit.
pub fn read_within<S: Shelf>(
    alloc: Global,
    shelf: &mut S,
    name: &str,
    limit: usize,
    what: Limited,
) -> Result<Bytes, Fault>
    requires { limit < 2 ^ 32 }
    ensures { ReadsWithin name.now limit what (S.view shelf.old) (S.view shelf.new) result }
{
    let mut bytes = Vec::new(alloc);
    read_on(alloc, shelf, name, &mut bytes, limit + 1)?;
    if bytes.len() > limit {
        return Err(Fault::Limit(what));
    }
    Ok(Bytes::of(bytes))
}

/// Reads on behind the first bytes of a file, until there are so many or the file ends.
pub fn read_on<S: Shelf>(
    alloc: Global,
    shelf: &mut S,
    name: &str,
    bytes: &mut Vec<u8>,
    most: usize,
) -> Result<(), Fault>
    requires most { most ≤ 2 ^ 32 }
    requires room { length bytes.old.items ≤ most }
    ensures { ReadsOn name.now most bytes.old.items bytes.new.items (S.view shelf.old) (S.view shelf.new) result }
{
    let Ok(mut piece) = vec![in alloc; 0u8; PIECE] else {
        return Err(Fault::Memory);
    };
    while bytes.len() < most {
        let room = (most - bytes.len()).min(PIECE);
        let into = &mut piece[..room];
        let Ok(taken) = shelf.read_at(name, bytes.len() as u64, into) else {
            return Err(Fault::Read);
        };
        if taken == 0 {
            return Ok(());
        }
        let Ok(()) = bytes.extend_from_slice(&into[..taken]) else {
            return Err(Fault::Memory);
        };
    }
    Ok(())
}

/// The image of a program, in a version of the machine: 1 for RV32IM, 2 for RV32IMA. Else the first fault of its file.
pub fn image_of(elf: &[u8], version: u8) -> Result<Image<'_>, Fault>
    requires version { IsInRange 1 2 version }
    requires size { length elf.now ≤ ELF_LIMIT }
    ensures faultless { IfOk result (λ i. first_fault elf.now ≡ None) }
    ensures image { IfOk result (λ i. i ≡ image version elf.now) }
    ensures fault { IfErr result (λ f. (e : SomeFault) × (f ≡ fault.Elf e) × (first_fault elf.now ≡ Some (number_of e))) }
{
    match rv_elf::read(elf) {
        Ok(image) => Ok(image.with_version(version)),
        Err(fault) => Err(Fault::Elf(fault)),
    }
}
