//! From segments to a file.

ghost use Rattle.std.specs.Prelude.{◌≡◌, ℕ, ◌+◌, ◌*◌, ◌%◌, ◌^◌, ◌<◌, ◌≤◌, ◌++◌, false, List, [], ◌∷◌, None, length, map, sum_by, IfOk};
ghost use Rattle.std.specs.List.{AllByRecursion};
ghost use Rattle.rv_elf.specs.ElfFile.{elf_file};
ghost use Rattle.rv_spec.specs.Elf.{first_fault, image, some_overlap};
ghost use Rattle.rv_elf.specs.Written.{with_bytes, segment_of, image_of_parts, AreWords, elf_header, header_table, words_bytes, HoldsParts};

use crate::segment::{HEADER_SIZE, PT_LOAD};
use rv_base::NoMemory;
use rv_base::limits::{ELF_LIMIT, SEGMENTS_LIMIT};
use std::alloc::{AllocError, Global};

/// e_ident, e_type and e_machine: 32 bits, the least significant byte first, ET_EXEC, RISC-V.
const FRONT: [u8; 20] = [
    0x7F, b'E', b'L', b'F', 1, 1, 1, 0, 0, 0, 0, 0, 0, 0, 0, 0, 2, 0, 243, 0,
];

/// p_flags: the segment may be read, written and executed.
const ALL_FLAGS: u32 = 7;

/// p_align.
const ALIGN: u32 = 4;

/// A segment of a file that is written: its address, its bytes in the file and its bytes in memory.
#[derive(Clone, Copy, PartialEq, Eq, Debug)]
pub struct Part {
    pub addr: u32,
    pub len: u32,
    pub size: u32,
}

/// The executable with that entry and these segments, of 52 bytes, 32 for each part, and `bytes`: the bytes of
/// the first part, then those of the next and so on, `len` bytes for each. Reading it gives the entry, each
/// part's bytes from its address on, and 0 elsewhere.
pub fn write(alloc: Global, entry: u32, parts: &[Part], bytes: &[u8]) -> Result<Vec<u8>, NoMemory>
    requires few { length parts.now ≤ SEGMENTS_LIMIT }
    requires aligned { entry % 4 ≡ 0 }
    requires fit { AllByRecursion (λ p. p.len ≤ p.size) parts.now }
    requires whole { sum_by (λ p. p.len) parts.now ≡ length bytes.now }
    requires in_memory { AllByRecursion (λ p. p.addr + p.size ≤ 2 ^ 32) parts.now }
    requires apart { some_overlap (map segment_of parts.now) ≡ false }
    requires within_limit { 52 + 32 * length parts.now + length bytes.now ≤ ELF_LIMIT }
    ensures file { IfOk result (λ v. v.items ≡ elf_file entry (with_bytes parts.now bytes.now)) }
    ensures size { IfOk result (λ v. length v.items ≡ 52 + 32 * length parts.now + length bytes.now) }
    ensures faultless { IfOk result (λ v. first_fault v.items ≡ None) }
    ensures image { IfOk result (λ v. image 1 v.items ≡ image_of_parts entry (with_bytes parts.now bytes.now)) }
    ensures held { IfOk result (λ v. HoldsParts (with_bytes parts.now bytes.now) (image 1 v.items)) }
{
    match write_all(alloc, entry, parts, bytes) {
        Ok(file) => Ok(file),
        Err(_) => Err(NoMemory),
    }
}

fn write_all(alloc: Global, entry: u32, parts: &[Part], bytes: &[u8]) -> Result<Vec<u8>, AllocError>
    requires few { length parts.now ≤ SEGMENTS_LIMIT }
    requires whole { sum_by (λ p. p.len) parts.now ≡ length bytes.now }
    requires within_limit { 52 + 32 * length parts.now + length bytes.now ≤ ELF_LIMIT }
    ensures file { IfOk result (λ v. v.items ≡ elf_header entry (length parts.now) ++ header_table (52 + 32 * length parts.now) parts.now ++ bytes.now) }
    ensures ranges { IfOk result (λ _. AllByRecursion AreWords parts.now) }
{
    let table_end = 52 + HEADER_SIZE * parts.len();
    let mut file = Vec::with_capacity(alloc, table_end + bytes.len())?;
    put_header(&mut file, entry, parts.len() as u16)?;
    put_table(&mut file, table_end as u32, parts)?;
    file.extend_from_slice(bytes)?;
    Ok(file)
}

/// Appends the ELF header before a table of that many program headers.
pub(crate) fn put_header(file: &mut Vec<u8>, entry: u32, count: u16) -> Result<(), AllocError>
    ensures { IfOk result (λ _. file.new.items ≡ file.old.items ++ elf_header entry count) }
{
    file.extend_from_slice(&FRONT)?;
    // e_version, e_entry, e_phoff, e_shoff and e_flags
    put_words(file, &[1, entry, 52, 0, 0])?;
    // e_ehsize and e_phentsize
    file.extend_from_slice(&[52, 0, 32, 0])?;
    file.extend_from_slice(&count.to_le_bytes())?;
    // no sections
    file.extend_from_slice(&[0; 6])?;
    Ok(())
}

/// Appends a program header for each part, where the first part's bytes begin at that offset of the file.
fn put_table(file: &mut Vec<u8>, mut offset: u32, parts: &[Part]) -> Result<(), AllocError>
    requires { offset + sum_by (λ p. p.len) parts.now < 2 ^ 32 }
    ensures table { IfOk result (λ _. file.new.items ≡ file.old.items ++ header_table offset parts.now) }
    ensures ranges { IfOk result (λ _. AllByRecursion AreWords parts.now) }
{
    for part in parts {
        put_segment(file, offset, part.addr, part.len, part.size)?;
        offset += part.len;
    }
    Ok(())
}

/// Appends the program header of a segment, from its offset in the file, its address, and its bytes in the
/// file and in memory.
fn put_segment(
    file: &mut Vec<u8>,
    offset: u32,
    address: u32,
    len: u32,
    size: u32,
) -> Result<(), AllocError>
    ensures header { IfOk result (λ _. file.new.items ≡ file.old.items ++ words_bytes (1 ∷ offset ∷ address ∷ address ∷ len ∷ size ∷ 7 ∷ 4 ∷ [])) }
    ensures ranges { (address < 2 ^ 32) × (size < 2 ^ 32) }
{
    // p_type, p_offset, p_vaddr, p_paddr, p_filesz, p_memsz, p_flags and p_align
    put_words(
        file,
        &[
            PT_LOAD, offset, address, address, len, size, ALL_FLAGS, ALIGN,
        ],
    )
}

/// Appends numbers of four bytes.
pub(crate) fn put_words(file: &mut Vec<u8>, numbers: &[u32]) -> Result<(), AllocError>
    ensures { IfOk result (λ _. file.new.items ≡ file.old.items ++ words_bytes numbers.now) }
{
    for number in numbers {
        file.extend_from_slice(&number.to_le_bytes())?;
    }
    Ok(())
}
