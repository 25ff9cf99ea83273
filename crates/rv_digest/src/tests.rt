// Expected lanes are Python's:
// struct.unpack("<8Q", hashlib.sha512(bytes([b]) + struct.pack("<IIQ", cell, value, time)).digest())
// for b = 0 and then b = 1; a sum's lanes are added modulo 2**64.

use crate::{Lanes, SetDigest, ShaLanes, TinyLanes};
use rv_base::Tuple;

// The value 42 of register x10 at time 7.
const ONE: Tuple = Tuple {
    cell: 0x4000_000a,
    value: 42,
    time: 7,
};

// A tuple whose fields have no byte 0 but in the cell.
const OTHER: Tuple = Tuple {
    cell: 3,
    value: 0x0102_0304,
    time: 0x1122_3344_5566_7788,
};

const LANES_OF_ONE: [u64; 16] = [
    0x95d4_44d4_5657_8e35,
    0xdf78_aa5c_6484_74e4,
    0x0e80_8089_017c_556d,
    0x56f3_b674_90c2_d9ca,
    0xd1e6_597e_74cf_4cef,
    0x0f34_be83_bb05_36cf,
    0x8ce7_708c_cdac_8d43,
    0x120a_46bf_ddba_d9ca,
    0x33fa_3286_9348_b150,
    0xfed2_e705_eea5_87e6,
    0xc10a_9b4a_5c60_79c0,
    0x7300_a857_8abc_965c,
    0xb89b_3445_bed3_bd80,
    0x636d_da5b_e935_3762,
    0x72fb_0e50_fbce_5dbe,
    0x6853_b912_35f8_41b5,
];

const LANES_OF_BOTH: [u64; 16] = [
    0xa8b1_ba5c_18fe_bad4,
    0x5a84_7d3a_504b_8322,
    0xe86a_a95c_62ea_9d30,
    0x0ee8_845d_fb83_7213,
    0xf875_1edb_73e7_bd36,
    0x9431_4731_598b_66a6,
    0x7913_8614_aab2_2ec6,
    0x893a_d26e_4e89_a4b4,
    0x33d1_dbf9_5093_292c,
    0xc152_4d48_abdb_7b29,
    0xa9c5_f472_72a6_6a32,
    0x62c4_caa7_1fef_8bb0,
    0x4ce7_f552_1096_8d05,
    0xd0df_4e2e_1913_dc28,
    0xcc54_da9b_ad6e_7c25,
    0xb2d4_b931_d703_ad36,
];

#[test]
fn lanes_are_sha_512(rt: HostRuntime) {
    assert_eq!(rt; ShaLanes.of(ONE), LANES_OF_ONE);
    assert_eq!(rt; TinyLanes.of(ONE), [0; 16]);
}

// Lanes 0, 7, 8 and 15 of the digests of the first 0, 1 and more of five tuples.
const ENDS_OF_DIGESTS: [[u64; 4]; 6] = [
    [0, 0, 0, 0],
    [
        0xc73f_7d47_9f9f_0d0a,
        0x5495_a06c_126e_6375,
        0x3365_2f0c_d3af_7ba2,
        0xffb8_c131_dea0_da4a,
    ],
    [
        0x127e_ff21_44ed_6719,
        0xd9c9_3b23_0b54_572f,
        0x42cb_52ff_273a_9864,
        0x7655_0927_0ee1_15bb,
    ],
    [
        0x0aac_1da6_c46f_9a25,
        0xa503_493b_d2b4_6d63,
        0x0770_f214_d7f6_1823,
        0xacbc_e796_19dc_2728,
    ],
    [
        0x0815_7dd6_3db2_f599,
        0x2b75_b0bc_8aab_6a1f,
        0x457d_0003_3d07_aa41,
        0x97d7_2e4a_60e4_2588,
    ],
    [
        0x5f24_df22_924b_4d31,
        0x6a97_4cf4_8b94_d870,
        0x17cf_bfa8_f96a_2249,
        0xb929_3aee_f4b0_430a,
    ],
];

#[test]
fn lists_of_up_to_five_tuples(rt: HostRuntime) {
    let mut tuples = [OTHER; 5];
    for i in 0..5 {
        tuples[i] = Tuple {
            cell: i as u32,
            value: 0x0102_0304 + i as u32,
            time: 0x1122_3344_5566_7788 + i as u64,
        };
    }
    for (count, ends) in ENDS_OF_DIGESTS.iter().enumerate() {
        let mut digest = SetDigest::zero();
        digest.add_tuples(&ShaLanes, &tuples[..count]);
        let lanes = digest.lanes;
        assert_eq!(rt; [lanes[0], lanes[7], lanes[8], lanes[15]], *ends);
        assert_eq!(rt; TinyLanes.sum_of(&tuples[..count]), [0; 16]);
    }
}

#[test]
fn order_and_grouping_do_not_matter(rt: HostRuntime) {
    let mut forward = SetDigest::zero();
    assert_eq!(rt; forward.lanes, [0; 16]);
    forward.add_tuples(&ShaLanes, &[ONE, OTHER]);
    assert_eq!(rt; forward.lanes, LANES_OF_BOTH);

    let mut backward = SetDigest::zero();
    backward.add_tuple(&ShaLanes, OTHER);
    let mut last = SetDigest::zero();
    last.add_tuple(&ShaLanes, ONE);
    assert!(rt; !backward.same(&last));
    backward.add(&last);
    assert!(rt; backward.same(&forward));
}

#[test]
fn bytes_are_the_lanes_in_order(rt: HostRuntime) {
    let digest = SetDigest {
        lanes: LANES_OF_ONE,
    };
    let bytes = digest.to_bytes();
    // The lane 0x95d4_44d4_5657_8e35 comes first, and 0x6853_b912_35f8_41b5 last.
    let ends = [bytes[0], bytes[7], bytes[120], bytes[127]];
    assert_eq!(rt; ends, [0x35, 0x95, 0xb5, 0x68]);
    assert!(rt; SetDigest::from_bytes(&bytes).same(&digest));
}
