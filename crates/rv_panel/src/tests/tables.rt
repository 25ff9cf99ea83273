//! The record cut to each length, and with each byte changed.

use super::worked::{ELF, TABLE, TOLD, record};
use super::{refusal, refused};
use rv_program::Program;
use std::test::Fail;

#[test]
fn cut_records(rt: HostRuntime) -> Result<(), Fail> {
    let program = Program::open(&ELF, &[])?;
    let file = record(rt.alloc(), &program, &TOLD, &TABLE)?;
    for cut in 0..719u32 {
        let (shard, row) = match cut {
            0..=255 => (0, 0),
            256..=306 => (0, 1),
            307..=378 => (0, 2),
            379..=634 => (0, 3),
            635..=654 => (1, 0),
            _ => (1, ((cut + 1) / 16).saturating_sub(40)),
        };
        let front = file.get(..cut as usize).ok_or("short")?;
        assert_eq!(rt;
            refusal(&rt, rt.alloc(), &program, front)?,
            refused(shard, row, 1),
            "cut to {cut}"
        );
    }
    Ok(())
}

/// From which byte to which a turned bit is refused, and at which shard and row and by which rule. Bytes 136 and 137 are left out: they
/// state another shard size, of more rows than there are.
const CHANGED: [(usize, usize, u32, u32, u8); 78] = [
    (0, 7, 0, 0, 2),
    (8, 71, 0, 0, 3),
    (72, 135, 0, 0, 4),
    (138, 139, 0, 0, 5),
    (140, 151, 0, 0, 6),
    (152, 152, 0, 0, 7),
    (153, 156, 0, 2, 19),
    (157, 164, 1, 5, 25),
    (165, 165, 0, 0, 9),
    (166, 167, 0, 0, 1),
    (168, 172, 0, 0, 8),
    (173, 200, 0, 0, 9),
    (201, 204, 0, 3, 20),
    (205, 208, 0, 0, 11),
    (209, 212, 0, 0, 16),
    (213, 213, 0, 0, 10),
    (214, 214, 0, 0, 12),
    (215, 218, 0, 0, 13),
    (219, 219, 0, 0, 13),
    (220, 220, 0, 0, 12),
    (221, 222, 0, 0, 14),
    (223, 230, 0, 0, 15),
    (231, 234, 0, 0, 14),
    (235, 235, 0, 0, 12),
    (236, 239, 0, 0, 13),
    (240, 243, 0, 3, 21),
    (244, 251, 0, 0, 15),
    (252, 255, 0, 0, 14),
    (256, 259, 0, 1, 11),
    (260, 263, 0, 1, 16),
    (264, 264, 0, 1, 10),
    (265, 265, 0, 1, 12),
    (266, 269, 0, 1, 13),
    (270, 270, 0, 1, 13),
    (271, 271, 0, 1, 12),
    (272, 273, 0, 1, 14),
    (274, 281, 0, 1, 15),
    (282, 285, 0, 1, 14),
    (286, 286, 0, 1, 12),
    (287, 290, 0, 1, 13),
    (291, 294, 0, 3, 21),
    (295, 302, 0, 1, 15),
    (303, 306, 0, 1, 14),
    (307, 310, 0, 2, 11),
    (311, 314, 0, 2, 16),
    (315, 315, 0, 2, 10),
    (316, 316, 0, 2, 12),
    (317, 320, 0, 2, 13),
    (321, 324, 0, 2, 12),
    (325, 332, 0, 2, 15),
    (333, 336, 0, 2, 14),
    (337, 337, 0, 2, 12),
    (338, 341, 0, 2, 13),
    (342, 345, 0, 2, 12),
    (346, 353, 0, 2, 15),
    (354, 357, 0, 2, 14),
    (358, 358, 0, 2, 12),
    (359, 362, 0, 2, 13),
    (363, 366, 0, 2, 14),
    (367, 374, 0, 2, 15),
    (375, 378, 0, 2, 14),
    (379, 634, 0, 3, 21),
    (635, 638, 1, 5, 1),
    (639, 641, 1, 1, 22),
    (642, 642, 1, 0, 23),
    (643, 654, 1, 5, 26),
    (655, 657, 1, 2, 22),
    (658, 658, 1, 1, 23),
    (659, 670, 1, 5, 26),
    (671, 673, 1, 5, 26),
    (674, 674, 1, 2, 23),
    (675, 686, 1, 5, 26),
    (687, 689, 1, 3, 23),
    (690, 690, 1, 3, 23),
    (691, 702, 1, 5, 26),
    (703, 705, 1, 4, 23),
    (706, 706, 1, 4, 23),
    (707, 718, 1, 5, 26),
];

#[test]
fn changed_records(rt: HostRuntime) -> Result<(), Fail> {
    let program = Program::open(&ELF, &[])?;
    let mut file = record(rt.alloc(), &program, &TOLD, &TABLE)?;
    for (from, to, shard, row, rule) in CHANGED {
        for at in from..=to {
            assert!(rt; at < file.len());
            file[at] ^= 0x80;
            assert_eq!(rt;
                refusal(&rt, rt.alloc(), &program, &file)?,
                refused(shard, row, rule),
                "byte {at}"
            );
            file[at] ^= 0x80;
        }
    }
    Ok(())
}
