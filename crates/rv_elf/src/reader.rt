//! From a file to its image, or to its first fault.

ghost use Rattle.std.specs.Prelude.{◌≡◌, ℕ, ◌≤◌, List, Some, None, length, IfOk, IfErr};
ghost use Rattle.rv_spec.specs.Elf.{first_fault, image, headers};
ghost use Rattle.rv_elf.specs.ByAddress.{IsImage};
ghost use Rattle.rv_elf.specs.Segments.{IsScan};
ghost use Rattle.rv_elf.specs.Faults.{number_of, IsClear};

use crate::fault::ElfFault;
use crate::image::Image;
use crate::index::by_address;
use crate::scan::Scan;
use crate::segment::some_overlap;
use rv_base::limits::ELF_LIMIT;
use rv_base::{get16, get32};

/// The image of an executable of at most 67,108,864 bytes, or its fault with the least number. It takes no
/// memory, and its time is linear in the number of program headers.
pub fn read(file: &[u8]) -> Result<Image<'_>, ElfFault>
    requires { length file.now ≤ ELF_LIMIT }
    ensures faultless { IfOk result (λ i. first_fault file.now ≡ None) }
    ensures image { IfOk result (λ i. i ≡ image 1 file.now) }
    ensures bytes { IfOk result (λ i. IsImage file.now i) }
    ensures fault { IfErr result (λ e. first_fault file.now ≡ Some (number_of e)) }
{
    check_header(file)?;
    let scan = Scan::of(file);
    check_segments(&scan)?;
    let entry = get32(file, 24);
    if entry % 4 != 0 {
        return Err(ElfFault::Entry);
    }
    Ok(Image::of(file, entry, by_address(scan.loads.as_slice())))
}

/// The faults of the ELF header, those with the numbers 1 to 9.
fn check_header(file: &[u8]) -> Result<(), ElfFault>
    requires { length file.now ≤ ELF_LIMIT }
    ensures clear { IfOk result (λ _. IsClear 9 file.now) }
    ensures fault { IfErr result (λ e. first_fault file.now ≡ Some (number_of e)) }
{
    check_identity(file)?;
    check_machine(file)?;
    if get32(file, 28) as usize + 32 * get16(file, 44) as usize > file.len() {
        return Err(ElfFault::Headers);
    }
    Ok(())
}

/// The faults of the file's own bytes, those with the numbers 1 to 5: its size, magic, class, byte order and version.
fn check_identity(file: &[u8]) -> Result<(), ElfFault>
    ensures clear { IfOk result (λ _. IsClear 5 file.now) }
    ensures fault { IfErr result (λ e. first_fault file.now ≡ Some (number_of e)) }
{
    if file.len() < 52 {
        return Err(ElfFault::Short);
    }
    if !file.starts_with(b"\x7fELF") {
        return Err(ElfFault::Magic);
    }
    if file[4] != 1 {
        return Err(ElfFault::Class);
    }
    if file[5] != 1 {
        return Err(ElfFault::Order);
    }
    if file[6] != 1 || get32(file, 20) != 1 {
        return Err(ElfFault::Version);
    }
    Ok(())
}

/// The faults of what the file is for, those with the numbers 6 to 8: its kind, its machine and the size of a program
/// header.
fn check_machine(file: &[u8]) -> Result<(), ElfFault>
    requires { IsClear 5 file.now }
    ensures clear { IfOk result (λ _. IsClear 8 file.now) }
    ensures fault { IfErr result (λ e. first_fault file.now ≡ Some (number_of e)) }
{
    if get16(file, 16) != 2 {
        return Err(ElfFault::Kind);
    }
    if get16(file, 18) != 243 {
        return Err(ElfFault::Machine);
    }
    if get16(file, 42) != 32 {
        return Err(ElfFault::HeaderSize);
    }
    Ok(())
}

/// The faults of the program headers, those with the numbers 10 to 15.
fn check_segments(scan: &Scan) -> Result<(), ElfFault>
    ensures clear { IfOk result (λ _. (file : List ℕ) → IsClear 9 file → IsScan (length file) (headers file) scan.now → IsClear 15 file) }
    ensures fault { IfErr result (λ e. (file : List ℕ) → IsClear 9 file → IsScan (length file) (headers file) scan.now → first_fault file ≡ Some (number_of e)) }
{
    if scan.interpreter {
        return Err(ElfFault::Interpreter);
    }
    if scan.past_file {
        return Err(ElfFault::SegmentFile);
    }
    if scan.above_memory {
        return Err(ElfFault::SegmentSize);
    }
    if scan.past_memory {
        return Err(ElfFault::SegmentWrap);
    }
    if scan.too_many {
        return Err(ElfFault::TooMany);
    }
    if some_overlap(scan.loads.as_slice()) {
        return Err(ElfFault::Overlap);
    }
    Ok(())
}
