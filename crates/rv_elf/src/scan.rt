//! One pass over the program headers.

ghost use Rattle.std.specs.Prelude.{◌≡◌, ◌+◌, ◌*◌, ◌^◌, ◌<◌, ◌≤◌, true, ◌||◌, nat_lt, List, ◌∷◌, [], ◌++◌, length};
ghost use Rattle.arrayvec.specs.ArrayVec.{array_vec_len};
ghost use Rattle.rv_spec.specs.Elf.{Segment as Described, headers, headers_at, header_count};
ghost use Rattle.rv_elf.specs.Segments.{described, IsScan};

use crate::segment::{HEADER_SIZE, PT_INTERP, PT_LOAD, Segment};
use arrayvec::ArrayVec;
use rv_base::limits::SEGMENTS_LIMIT;
use rv_base::{get16, get32};

/// What the program headers have, up to one of them: each fault by itself, so that no fault ends the pass
/// before one with a lower number is known.
#[derive(Drop)]
pub struct Scan {
    pub interpreter: bool,
    pub past_file: bool,
    pub above_memory: bool,
    pub past_memory: bool,
    pub too_many: bool,
    /// The PT_LOAD segments in order, the first 64 of them.
    pub loads: ArrayVec<Segment, SEGMENTS_LIMIT>,
}

impl Scan {
    /// The whole table of program headers, in time linear in their number.
    pub fn of(file: &[u8]) -> Scan
        requires whole { 52 ≤ length file.now }
        requires table { headers_at file.now + 32 * header_count file.now ≤ length file.now }
        ensures { IsScan (length file.now) (headers file.now) result }
    {
        let table = get32(file, 28) as usize;
        let count = get16(file, 44) as usize;
        let mut scan = Scan {
            interpreter: false,
            past_file: false,
            above_memory: false,
            past_memory: false,
            too_many: false,
            loads: ArrayVec::new(),
        };
        for i in 0..count {
            scan.note(
                &Segment::at(file, table + HEADER_SIZE * i),
                file.len() as u64,
            );
        }
        scan
    }

    /// One more program header, in a file of that many bytes.
    fn note(&mut self, segment: &Segment, file_size: u64)
        ensures { (before : List Described) → IsScan file_size before self.old
            → IsScan file_size (before ++ described segment.now ∷ []) self.new }
    {
        self.interpreter |= segment.kind == PT_INTERP;
        if segment.kind == PT_LOAD {
            self.load(segment, file_size);
        }
    }

    /// One more PT_LOAD segment.
    fn load(&mut self, segment: &Segment, file_size: u64)
        ensures interpreter { self.new.interpreter ≡ self.old.interpreter }
        ensures past_file { self.new.past_file ≡ (self.old.past_file || nat_lt file_size (segment.now.offset + segment.now.file_size)) }
        ensures above_memory { self.new.above_memory ≡ (self.old.above_memory || nat_lt segment.now.memory_size segment.now.file_size) }
        ensures past_memory { self.new.past_memory ≡ (self.old.past_memory || nat_lt (2 ^ 32) (segment.now.address + segment.now.memory_size)) }
        ensures full { array_vec_len self.old.loads ≡ SEGMENTS_LIMIT → (self.new.too_many ≡ true) × (self.new.loads ≡ self.old.loads) }
        ensures room { array_vec_len self.old.loads < SEGMENTS_LIMIT → (self.new.too_many ≡ self.old.too_many)
            × (self.new.loads.items ≡ self.old.loads.items ++ segment.now ∷ []) }
        ensures fits { array_vec_len self.old.loads ≤ SEGMENTS_LIMIT }
    {
        self.past_file |= segment.file_end() > file_size;
        self.above_memory |= segment.file_size > segment.memory_size;
        self.past_memory |= segment.end() > 1 << 32;
        if self.loads.is_full() {
            self.too_many = true;
        } else {
            self.loads.push(*segment);
        }
    }
}
