ghost use Rattle.std.specs.Prelude.{◌≡◌, ◌↔◌, IsNone, IfSome, MatchOption, IsPermutation};
ghost use Rattle.rv_spec.specs.Multiset.{Same, count};
ghost use Rattle.rv_order.specs.Order.{IsInOrder, IsLeastDiffering};

use rv_base::Tuple;

/// A tuple that stands more often in one of two lists than in the other: how often it is read, and how often it is written.
#[derive(Clone, Copy, PartialEq, Eq, Debug)]
pub struct Differ {
    pub tuple: Tuple,
    pub reads: u64,
    pub writes: u64,
}

/// Decides whether all that is read and all that is written are one multiset, as Blum et al. 1991 ask of consistent memory: `None` exactly where they are, else the least tuple (by cell, then value, then time) whose two counts differ.
///
/// It sorts both lists in place in O(n log n) time for n tuples, and takes no memory.
pub fn compare(reads: &mut [Tuple], writes: &mut [Tuple]) -> Option<Differ>
    ensures same { IsNone result ↔ Same reads.old writes.old }
    ensures least { IfSome result (λ d. IsLeastDiffering reads.old writes.old d.tuple) }
    ensures count_read { IfSome result (λ d. d.reads ≡ count d.tuple reads.old) }
    ensures count_written { IfSome result (λ d. d.writes ≡ count d.tuple writes.old) }
    ensures reads_kept { IsPermutation reads.old reads.new }
    ensures writes_kept { IsPermutation writes.old writes.new }
{
    reads.sort_unstable();
    writes.sort_unstable();
    let tuple = first_difference(reads, writes)?;
    Some(Differ {
        tuple,
        reads: occurrences(reads, tuple),
        writes: occurrences(writes, tuple),
    })
}

// The lesser of the first two tuples that differ, where the end of a list is greater than any tuple.
fn first_difference(reads: &[Tuple], writes: &[Tuple]) -> Option<Tuple>
    requires reads_in_order { IsInOrder reads.now }
    requires writes_in_order { IsInOrder writes.now }
    ensures { MatchOption result (reads.now ≡ writes.now) (IsLeastDiffering reads.now writes.now) }
{
    for (read, write) in reads.iter().zip(writes) {
        if read != write {
            return Some(*read.min(write));
        }
    }
    let shorter = reads.len().min(writes.len());
    reads.get(shorter).or(writes.get(shorter)).copied()
}

#[tactic(auto, unfolding(rv_spec::specs::Multiset::count))]
fn occurrences(tuples: &[Tuple], tuple: Tuple) -> u64
    ensures { result ≡ count tuple tuples.now }
{
    tuples.iter().filter(|t| **t == tuple).count() as u64
}

#[cfg(test)]
mod tests {
    use super::*;

    const A: Tuple = Tuple {
        cell: 1,
        value: 2,
        time: 2,
    };

    const B: Tuple = Tuple {
        cell: 2,
        value: 1,
        time: 1,
    };

    fn difference<const R: usize, const W: usize>(
        mut reads: [Tuple; R],
        mut writes: [Tuple; W],
    ) -> Option<(Tuple, u64, u64)> {
        compare(&mut reads, &mut writes).map(|d| (d.tuple, d.reads, d.writes))
    }

    #[test]
    fn one_multiset(rt: HostRuntime) {
        assert_eq!(rt; difference([], []), None);
        assert_eq!(rt; difference([A, B, A], [B, A, A]), None);
    }

    #[test]
    fn one_tuple_more_often(rt: HostRuntime) {
        assert_eq!(rt; difference([B, A], [B]), Some((A, 1, 0)));
        assert_eq!(rt; difference([A], [B, A]), Some((B, 0, 1)));
        assert_eq!(rt; difference([A, B, A, A], [A, A, B]), Some((A, 3, 2)));
    }

    #[test]
    fn the_least_by_cell_then_value_then_time(rt: HostRuntime) {
        let lesser_value = Tuple { value: 1, ..A };
        let earlier = Tuple { time: 1, ..A };
        for (less, greater) in [(A, B), (lesser_value, earlier), (earlier, A)] {
            assert_eq!(rt; difference([less], [greater]), Some((less, 1, 0)));
            assert_eq!(rt; difference([B, greater], [less, B]), Some((less, 0, 1)));
        }
    }
}
