//! What an executable loads.

ghost use Rattle.std.specs.Prelude.{◌≡◌, ℕ, ◌+◌, ◌*◌, ◌%◌, ◌^◌, ◌<◌, ◌≤◌, None};
ghost use Rattle.std.specs.Int.{w32, from_le_bytes, IsInRange};
ghost use Rattle.rv_spec.specs.Words.{word, bytes_from, u32_at};
ghost use Rattle.rv_spec.specs.Elf.{Image as ImageOf, image, first_fault, load_segments};
ghost use Rattle.rv_elf.specs.ByAddress.{image_byte};
ghost use Rattle.rv_rules.specs.Agreement.{IsProgram};
ghost use Rattle.rv_elf.specs.Index.{IsIndex};
ghost use Rattle.rv_elf.specs.Loaded.{loaded};

use crate::index::last_begun;
use crate::segment::Segment;
use arrayvec::ArrayVec;
use rv_base::cells::REGISTER_CELLS;
use rv_base::get32;
use rv_base::limits::SEGMENTS_LIMIT;
use std::marker::Model;

/// What an executable loads: its entry, and the bytes that its segments take from the file, which the image
/// borrows. It also has the version of the instructions that it may use: 1 for RV32IM, 2 for RV32IMA.
#[derive(Drop)]
pub struct Image<'a> {
    version: u8,
    entry: u32,
    file: &'a [u8],
    index: ArrayVec<Segment, SEGMENTS_LIMIT>,
}

impl<'a> Model for Image<'a> {
    ghost use Rattle.rv_spec.specs.Elf.{Image as ImageOf, image};
    ghost use Rattle.rv_elf.specs.Index.{IsImageIndex};

    ghost Value = { ImageOf };

    ghost view = { λ i. image i.version i.file.now };

    ghost invariant = { λ i. IsImageIndex i.version i.entry i.file.now i.index.items };
}

impl<'a> Image<'a> {
    /// The image of a file without a fault, from its entry and its segments by rising address.
    pub(crate) fn of(
        file: &'a [u8],
        entry: u32,
        index: ArrayVec<Segment, SEGMENTS_LIMIT>,
    ) -> Image<'a>
        requires faultless { first_fault file.now ≡ None }
        requires entry { entry ≡ u32_at file.now 24 }
        requires indexed { IsIndex index.items (load_segments file.now) }
        ensures { result ≡ image 1 file.now }
    {
        Image {
            version: 1,
            entry,
            file,
            index,
        }
    }

    /// The address of the first instruction, a multiple of 4.
    pub fn entry(&self) -> u32
        ensures value { result ≡ self.now.entry }
        ensures aligned { result % 4 ≡ 0 }
    {
        self.entry
    }

    /// The version of the instructions that the program may use.
    pub fn version(&self) -> u8
        ensures value { result ≡ self.now.version }
        ensures known { IsInRange 1 2 result }
    {
        self.version
    }

    /// The same image with that version, 1 or 2.
    pub fn with_version(self, version: u8) -> Image<'a>
        requires { IsInRange 1 2 version }
        ensures { result ≡ record self.entry { version = version } }
    {
        let Image {
            entry,
            file,
            index,
            ..
        } = self;
        Image {
            version,
            entry,
            file,
            index,
        }
    }

    /// The same image. It is a program: its entry is a multiple of 4 below 2^32, and its bytes are bytes.
    pub fn copy(&self) -> Image<'a>
        ensures same { result ≡ self.now }
        ensures program { IsProgram self.now }
    {
        loads_program(self.file);
        let mut index = ArrayVec::new();
        if index.try_extend_from_slice(self.index.as_slice()).is_err() {
            unreachable!();
        }
        Image {
            version: self.version,
            entry: self.entry,
            file: self.file,
            index,
        }
    }

    /// Word w of memory before the first step: the bytes at addresses 4w to 4w + 3, the least significant
    /// first, each 0 where no segment takes it from the file.
    pub fn word(&self, w: u32) -> u32
        requires { w < REGISTER_CELLS }
        ensures { result ≡ word (loaded self.now) w }
    {
        word_at(self.file, self.index.as_slice(), 4 * w)
    }
}

/// What a file without a fault loads has the ranges of a program, since the file is bytes.
fn loads_program(file: &[u8])
    requires { first_fault file.now ≡ None }
    ensures { (version : ℕ) → IsProgram (image version file.now) }
{}

/// The four bytes from an address on. One search serves where they lie in one segment, or in none.
fn word_at(file: &[u8], index: &[Segment], address: u32) -> u32
    requires faultless { first_fault file.now ≡ None }
    requires indexed { IsIndex index.now (load_segments file.now) }
    requires in_memory { address + 4 ≤ 2 ^ 32 }
    ensures { result ≡ from_le_bytes w32 (bytes_from (loaded (image 1 file.now)) address 4) }
{
    let Some(segment) = last_begun(index, address + 3) else {
        return 0;
    };
    if segment.bytes_end() <= address as u64 {
        return 0;
    }
    if segment.address <= address && address as u64 + 4 <= segment.bytes_end() {
        return get32(
            file,
            segment.offset as usize + (address - segment.address) as usize,
        );
    }
    u32::from_le_bytes([
        byte_at(file, index, address),
        byte_at(file, index, address + 1),
        byte_at(file, index, address + 2),
        byte_at(file, index, address + 3),
    ])
}

/// The byte at an address.
fn byte_at(file: &[u8], index: &[Segment], address: u32) -> u8
    requires faultless { first_fault file.now ≡ None }
    requires indexed { IsIndex index.now (load_segments file.now) }
    ensures { result ≡ image_byte (image 1 file.now) address }
{
    match last_begun(index, address) {
        Some(segment) if (address as u64) < segment.bytes_end() => {
            file[segment.offset as usize + (address - segment.address) as usize]
        }
        _ => 0,
    }
}
