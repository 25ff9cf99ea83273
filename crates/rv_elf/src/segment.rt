//! Program headers, and the segments that they describe.

ghost use Rattle.std.specs.Prelude.{◌≡◌, ◌+◌, ◌≤◌, length, map};
ghost use Rattle.std.specs.List.{list_any};
ghost use Rattle.rv_spec.specs.Elf.{header_at, overlaps, some_overlap as overlap_of};
ghost use Rattle.rv_elf.specs.Segments.{described};

use rv_base::get32;

/// Bytes of a program header.
pub const HEADER_SIZE: usize = 32;

/// The type of a segment that is loaded.
pub const PT_LOAD: u32 = 1;

/// The type of a segment that names a program interpreter.
pub const PT_INTERP: u32 = 3;

/// What a program header says of a segment: p_type, p_offset, p_vaddr, p_filesz and p_memsz.
#[derive(Clone, Copy, Default, Debug)]
pub struct Segment {
    pub kind: u32,
    pub offset: u32,
    pub address: u32,
    pub file_size: u32,
    pub memory_size: u32,
}

impl Segment {
    /// The segment of the program header at a place of the file.
    pub fn at(file: &[u8], at: usize) -> Segment
        requires { at + 32 ≤ length file.now }
        ensures { described result ≡ header_at file.now at }
    {
        Segment {
            kind: get32(file, at),
            offset: get32(file, at + 4),
            address: get32(file, at + 8),
            file_size: get32(file, at + 16),
            memory_size: get32(file, at + 20),
        }
    }

    /// The offset in the file behind the segment's bytes.
    pub fn file_end(&self) -> u64
        ensures { result ≡ self.now.offset + self.now.file_size }
    {
        self.offset as u64 + self.file_size as u64
    }

    /// The address behind the segment's bytes of the file.
    pub fn bytes_end(&self) -> u64
        ensures { result ≡ self.now.address + self.now.file_size }
    {
        self.address as u64 + self.file_size as u64
    }

    /// The address behind the segment.
    pub fn end(&self) -> u64
        ensures { result ≡ self.now.address + self.now.memory_size }
    {
        self.address as u64 + self.memory_size as u64
    }

    /// Whether the two share an address. A segment of no bytes shares none.
    fn overlaps(&self, other: &Segment) -> bool
        ensures { result ≡ overlaps (described self.now) (described other.now) }
    {
        (self.address.max(other.address) as u64) < self.end().min(other.end())
    }

    /// Whether the segment shares an address with one of the others.
    fn overlaps_any(&self, others: &[Segment]) -> bool
        ensures { result ≡ list_any (λ s. overlaps (described self.now) (described s)) others.now }
    {
        others.iter().any(|other| self.overlaps(other))
    }
}

/// Whether two of the segments share an address. The time grows with the square of their number.
pub fn some_overlap(segments: &[Segment]) -> bool
    ensures { result ≡ overlap_of (map described segments.now) }
{
    match segments {
        [] => false,
        [first, rest @ ..] => first.overlaps_any(rest) || some_overlap(rest),
    }
}
