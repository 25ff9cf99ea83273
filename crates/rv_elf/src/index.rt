//! The segments by rising address, so that the one that holds an address is found by halving.

ghost use Rattle.std.specs.Prelude.{◌≡◌, ℕ, ◌≤◌, ◌<◌, length, map, nat_le, slice_index_or, false};
ghost use Rattle.std.specs.List.{All};
ghost use Rattle.rv_spec.specs.Elf.{some_overlap};
ghost use Rattle.rv_elf.specs.Segments.{described};
ghost use Rattle.rv_elf.specs.Index.{IsIndex, AreRising, AreBegun, IsLastOf};

use crate::segment::Segment;
use arrayvec::ArrayVec;
use rv_base::limits::SEGMENTS_LIMIT;

/// The segments that take bytes from the file, by rising address.
pub fn by_address(loads: &[Segment]) -> ArrayVec<Segment, SEGMENTS_LIMIT>
    requires few { length loads.now ≤ SEGMENTS_LIMIT }
    requires fits { All (λ s. s.file_size ≤ s.memory_size) loads.now }
    requires apart { some_overlap (map described loads.now) ≡ false }
    ensures { IsIndex result.items (map described loads.now) }
{
    let mut index = ArrayVec::new();
    for segment in loads {
        if segment.file_size > 0 {
            let at = begun(index.as_slice(), segment.address);
            index.insert(at, *segment);
        }
    }
    index
}

/// How many of the segments begin at or below the address.
fn begun(index: &[Segment], address: u32) -> usize
    requires { AreRising index.now }
    ensures { AreBegun index.now address result }
{
    index.partition_point(
        |segment: &Segment| -> bool
            ensures { result ≡ nat_le segment.now.address address }
        { segment.address <= address },
    )
}

/// The last segment that begins at or below the address.
pub fn last_begun(index: &[Segment], address: u32) -> Option<Segment>
    requires { AreRising index.now }
    ensures { (n : ℕ) × AreBegun index.now address n × IsLastOf index.now n result }
{
    match begun(index, address) {
        0 => None,
        n => Some(index[n - 1]),
    }
}
