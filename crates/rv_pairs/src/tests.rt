// Expected lanes are Python's, as in the tests of rv_digest: lanes 0 and 15 of the digests of the tuples read and of those written.

use crate::Pairing;
use rv_base::Tuple;
use rv_digest::{SetDigest, ShaLanes};

const X10: u32 = 0x4000_000a;

fn tuple(cell: u32, value: u32, time: u64) -> Tuple {
    Tuple { cell, value, time }
}

fn ends(sums: (SetDigest, SetDigest)) -> [u64; 4] {
    [
        sums.0.lanes[0],
        sums.0.lanes[15],
        sums.1.lanes[0],
        sums.1.lanes[15],
    ]
}

#[test]
fn paired_replaced_and_wrong_reads(rt: HostRuntime) {
    let mut pairing = Pairing::new();
    for (read, written) in [
        (tuple(X10, 0, 0), tuple(X10, 42, 7)),
        (tuple(3, 5, 0), tuple(3, 6, 17)),
        // What was written last.
        (tuple(X10, 42, 7), tuple(X10, 42, 18)),
        // Cells 3 and 1027 share a place.
        (tuple(1027, 0, 0), tuple(1027, 9, 19)),
        (tuple(3, 6, 17), tuple(3, 7, 20)),
        // Another value than was written.
        (tuple(X10, 41, 18), tuple(X10, 41, 23)),
    ] {
        pairing.access(&ShaLanes, read, written);
    }
    let first = [
        0x9e27_5ea1_ea64_9ca4,
        0xf31a_0400_db14_16f0,
        0xacc6_a539_2dbc_ba7a,
        0x30bd_f194_32c4_fca3,
    ];
    assert_eq!(rt; ends(pairing.digests(&ShaLanes)), first);
    pairing.clear();
    assert_eq!(rt; ends(pairing.digests(&ShaLanes)), [0; 4]);

    // What waited before `clear` is forgotten.
    pairing.access(&ShaLanes, tuple(X10, 41, 23), tuple(X10, 40, 39));
    let next = [
        0x7b87_768b_4392_f21f,
        0x1eff_2bcf_2e37_b296,
        0x4be1_b58b_7e57_4b7a,
        0x93a7_1e5a_5162_26c2,
    ];
    assert_eq!(rt; ends(pairing.digests(&ShaLanes)), next);
}
