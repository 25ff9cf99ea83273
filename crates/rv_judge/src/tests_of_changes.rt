//! The worked record with some of its bytes changed.

use crate::Refusal;
use crate::tests::{
    ELF, READS, TABLE, WRITES, digest, header_of, push_shard, record, refusal, refused, with_bytes,
};
use rv_base::TableEntry;
use rv_file::write_header;
use rv_program::Program;
use std::test::Fail;

/// The record with one bit of a byte turned: the first and the last such byte, and the shard, row and rule of the refusal.
const TURNED: [(usize, usize, u32, u32, u8); 74] = [
    // The header.
    (0, 7, 0, 0, 2),
    (8, 71, 0, 0, 3),
    (72, 135, 0, 0, 4),
    (138, 139, 0, 0, 5),
    (140, 151, 0, 0, 6),
    (152, 152, 0, 0, 7),
    (153, 156, 0, 2, 19),
    (157, 164, 1, 5, 25),
    (165, 165, 0, 0, 9),
    (166, 167, 0, 0, 1),
    (168, 172, 0, 0, 8),
    // The head of the shard.
    (173, 200, 0, 0, 9),
    (201, 204, 0, 3, 20),
    // Row 0.
    (205, 208, 0, 0, 11),
    (209, 212, 0, 0, 16),
    (213, 213, 0, 0, 10),
    (214, 214, 0, 0, 12),
    (215, 219, 0, 0, 13),
    (220, 220, 0, 0, 12),
    (221, 222, 0, 0, 14),
    (223, 230, 0, 0, 15),
    (231, 234, 0, 0, 14),
    (235, 235, 0, 0, 12),
    (236, 239, 0, 0, 13),
    (240, 243, 0, 3, 21),
    (244, 251, 0, 0, 15),
    (252, 255, 0, 0, 14),
    // Row 1.
    (256, 259, 0, 1, 11),
    (260, 263, 0, 1, 16),
    (264, 264, 0, 1, 10),
    (265, 265, 0, 1, 12),
    (266, 270, 0, 1, 13),
    (271, 271, 0, 1, 12),
    (272, 273, 0, 1, 14),
    (274, 281, 0, 1, 15),
    (282, 285, 0, 1, 14),
    (286, 286, 0, 1, 12),
    (287, 290, 0, 1, 13),
    (291, 294, 0, 3, 21),
    (295, 302, 0, 1, 15),
    (303, 306, 0, 1, 14),
    // Row 2.
    (307, 310, 0, 2, 11),
    (311, 314, 0, 2, 16),
    (315, 315, 0, 2, 10),
    (316, 316, 0, 2, 12),
    (317, 320, 0, 2, 13),
    (321, 324, 0, 2, 12),
    (325, 332, 0, 2, 15),
    (333, 336, 0, 2, 14),
    (337, 337, 0, 2, 12),
    (338, 341, 0, 2, 13),
    (342, 345, 0, 2, 12),
    (346, 353, 0, 2, 15),
    (354, 357, 0, 2, 14),
    (358, 358, 0, 2, 12),
    (359, 362, 0, 2, 13),
    (363, 366, 0, 2, 14),
    (367, 374, 0, 2, 15),
    (375, 378, 0, 2, 14),
    // The digests and the table.
    (379, 634, 0, 3, 21),
    (635, 638, 1, 5, 1),
    (639, 641, 1, 1, 22),
    (642, 642, 1, 0, 23),
    (643, 654, 1, 5, 26),
    (655, 657, 1, 2, 22),
    (658, 658, 1, 1, 23),
    (659, 670, 1, 5, 26),
    (671, 673, 1, 5, 26),
    (674, 674, 1, 2, 23),
    (675, 686, 1, 5, 26),
    (687, 690, 1, 3, 23),
    (691, 702, 1, 5, 26),
    (703, 706, 1, 4, 23),
    (707, 718, 1, 5, 26),
];

/// The refusal of a file in which one bit of a byte is turned.
fn refusal_of_turned(program: &Program<'_>, file: &mut [u8], at: usize) -> Option<Refusal> {
    if at >= file.len() {
        return None;
    }
    file[at] ^= 0x80;
    let found = refusal(program, file);
    if at < file.len() {
        file[at] ^= 0x80;
    }
    found
}

#[test]
fn turned_bits(rt: HostRuntime) -> Result<(), Fail> {
    let program = Program::open(&ELF, &[])?;
    let mut file = record(rt.alloc(), &program, &TABLE)?;
    for (first, last, shard, row, rule) in TURNED {
        for at in first..=last {
            let found = refusal_of_turned(&program, &mut file, at);
            assert_eq!(rt; found, refused(shard, row, rule), "byte {at}");
        }
    }
    Ok(())
}

/// A third row that writes a byte, which the output of no bytes doesn't have.
const WRITING_ROW: [u8; 156] = [
    8, 0, 1, 0, 12, 0, 1, 0, 7, //
    1, 2, 64, 0, 0, 115, 0, 0, 0, 0, 0, 0, 0, 0, 0, 0, 0, 115, 0, 0, 0, //
    2, 17, 0, 0, 64, 64, 0, 0, 0, 23, 0, 0, 0, 0, 0, 0, 0, 64, 0, 0, 0, //
    3, 10, 0, 0, 64, 1, 0, 0, 0, 7, 0, 0, 0, 0, 0, 0, 0, 1, 0, 0, 0, //
    4, 11, 0, 0, 64, 0, 0, 1, 0, 0, 0, 0, 0, 0, 0, 0, 0, 0, 0, 1, 0, //
    5, 12, 0, 0, 64, 1, 0, 0, 0, 0, 0, 0, 0, 0, 0, 0, 0, 1, 0, 0, 0, //
    6, 0, 64, 0, 0, 19, 5, 160, 2, 1, 0, 0, 0, 0, 0, 0, 0, 19, 5, 160, 2, //
    7, 10, 0, 0, 64, 1, 0, 0, 0, 35, 0, 0, 0, 0, 0, 0, 0, 1, 0, 0, 0,
];

#[test]
fn changed_records(rt: HostRuntime) -> Result<(), Fail> {
    let program = Program::open(&ELF, &[])?;
    for (changes, shard, row, rule) in [
        // The last row reads x17 of its own step.
        ([(346, 34), (346, 34), (346, 34)], 0, 2, 15),
        // A fourth step is stated behind the one that ends the run.
        ([(136, 4), (140, 4), (177, 4)], 0, 2, 18),
    ] {
        let file = with_bytes(record(rt.alloc(), &program, &TABLE)?, &changes);
        assert_eq!(rt;
            refusal(&program, &file),
            refused(shard, row, rule),
            "rule {rule}"
        );
    }
    let mut file = record(rt.alloc(), &program, &TABLE)?;
    file.truncate(307);
    file.extend_from_slice(&WRITING_ROW)?;
    assert_eq!(rt; refusal(&program, &file), refused(0, 2, 17));
    Ok(())
}

#[test]
fn changed_tables(rt: HostRuntime) -> Result<(), Fail> {
    let program = Program::open(&ELF, &[])?;
    let exchanged = [TABLE[1], TABLE[0], TABLE[2], TABLE[3], TABLE[4]];
    let file = record(rt.alloc(), &program, &exchanged)?;
    assert_eq!(rt; refusal(&program, &file), refused(1, 1, 22));
    let sixth = TableEntry {
        cell: 0x4000_0012,
        value: 0,
        time: 0,
    };
    let longer = [TABLE[0], TABLE[1], TABLE[2], TABLE[3], TABLE[4], sixth];
    let file = record(rt.alloc(), &program, &longer)?;
    assert_eq!(rt; refusal(&program, &file), refused(1, 5, 24));
    let mut file = record(rt.alloc(), &program, &TABLE)?;
    file.push(0)?;
    assert_eq!(rt; refusal(&program, &file), refused(1, 5, 27));
    let other = Program::open(&ELF, &[0])?;
    assert_eq!(rt; refusal(&other, &file), refused(0, 0, 4));
    Ok(())
}

/// The exit code 43 where x10 was written 42, with digests that fit: only the totals tell.
#[test]
fn another_exit_code(rt: HostRuntime) -> Result<(), Fail> {
    let program = Program::open(&ELF, &[])?;
    let file = record(rt.alloc(), &program, &TABLE)?;
    let changes = [(153, 43), (363, 43), (375, 43), (691, 43)];
    let changed = with_bytes(file, &changes);
    let mut reads = READS;
    reads[6].value = 43;
    let mut writes = WRITES;
    writes[6].value = 43;
    let mut file = Vec::new(rt.alloc());
    file.extend_from_slice(changed.get(..379).ok_or("short")?)?;
    file.extend_from_slice(&digest(&reads))?;
    file.extend_from_slice(&digest(&writes))?;
    file.extend_from_slice(changed.get(635..).ok_or("short")?)?;
    assert_eq!(rt; refusal(&program, &file), refused(1, 5, 26));
    Ok(())
}

/// `lui x5, 0x20`, `lr.w x6, (x5)` and `sc.w x7, x6, (x5)`, and the rows of the first two.
const ATOMIC_WORDS: [u8; 12] = [
    0xB7, 0x02, 0x02, 0x00, 0x2F, 0xA3, 0x02, 0x10, 0xAF, 0xA3, 0x62, 0x18,
];

const ATOMIC_ROWS: [u8; 165] = [
    0, 0, 1, 0, 4, 0, 1, 0, 2, //
    1, 0, 64, 0, 0, 0xB7, 2, 2, 0, 0, 0, 0, 0, 0, 0, 0, 0, 0xB7, 2, 2, 0, //
    7, 5, 0, 0, 64, 0, 0, 0, 0, 0, 0, 0, 0, 0, 0, 0, 0, 0, 0, 2, 0, //
    4, 0, 1, 0, 8, 0, 1, 0, 5, //
    1, 1, 64, 0, 0, 0x2F, 0xA3, 2, 0x10, 0, 0, 0, 0, 0, 0, 0, 0, 0x2F, 0xA3, 2, 0x10, //
    2, 5, 0, 0, 64, 0, 0, 2, 0, 7, 0, 0, 0, 0, 0, 0, 0, 0, 0, 2, 0, //
    6, 0, 128, 0, 0, 0, 0, 0, 0, 0, 0, 0, 0, 0, 0, 0, 0, 0, 0, 0, 0, //
    7, 6, 0, 0, 64, 0, 0, 0, 0, 0, 0, 0, 0, 0, 0, 0, 0, 0, 0, 0, 0, //
    8, 32, 0, 0, 64, 0, 0, 0, 0, 0, 0, 0, 0, 0, 0, 0, 0, 1, 0, 2, 0,
];

/// Version 1 has no atomic instructions: the row that version 2 lets pass is refused.
#[test]
fn atomics_by_version(rt: HostRuntime) -> Result<(), Fail> {
    let mut elf = ELF;
    elf[84..].copy_from_slice(&ATOMIC_WORDS);
    let program = Program::open(&elf, &[])?;
    let mut file = Vec::new(rt.alloc());
    file.extend_from_slice(&write_header(&header_of(&program, 3, 1)))?;
    push_shard(&mut file, (0, 0x10000), (3, &ATOMIC_ROWS), &[], &[])?;
    file.truncate(173 + 32 + 165);
    let second = with_bytes(file, &[(7, b'2')]);
    assert_eq!(rt; refusal(&program, &second), refused(0, 2, 1));
    let first = with_bytes(second, &[(7, b'1')]);
    assert_eq!(rt; refusal(&program, &first), refused(0, 1, 12));
    Ok(())
}
