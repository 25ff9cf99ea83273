//! The lines of the rows of a record, written down by hand.

use super::*;

/// The rows of a program that exits with 42, of 51, 51 and 72 bytes: pc, next and number of accesses, and then the accesses.
const ROWS: [u8; 174] = [
    0, 0, 1, 0, 4, 0, 1, 0, 2, 1, 0, 64, 0, 0, 19, 5, 160, 2, 0, 0, 0, 0, 0, 0, 0, 0, 19, 5, 160,
    2, 7, 10, 0, 0, 64, 0, 0, 0, 0, 0, 0, 0, 0, 0, 0, 0, 0, 42, 0, 0, 0, 4, 0, 1, 0, 8, 0, 1, 0, 2,
    1, 1, 64, 0, 0, 147, 8, 208, 5, 0, 0, 0, 0, 0, 0, 0, 0, 147, 8, 208, 5, 7, 17, 0, 0, 64, 0, 0,
    0, 0, 0, 0, 0, 0, 0, 0, 0, 0, 93, 0, 0, 0, 8, 0, 1, 0, 8, 0, 1, 0, 3, 1, 2, 64, 0, 0, 115, 0,
    0, 0, 0, 0, 0, 0, 0, 0, 0, 0, 115, 0, 0, 0, 2, 17, 0, 0, 64, 93, 0, 0, 0, 23, 0, 0, 0, 0, 0, 0,
    0, 93, 0, 0, 0, 3, 10, 0, 0, 64, 42, 0, 0, 0, 7, 0, 0, 0, 0, 0, 0, 0, 42, 0, 0, 0,
];

const STEP_0: &str = "\
step 0 pc 00010000 word 02a00513 addi x10, x0, 42
  slot 1 m00010000 02a00513@0 02a00513@1
  slot 7 x10 00000000@0 0000002a@7
";

const STEP_1: &str = "\
step 1 pc 00010004 word 05d00893 addi x17, x0, 93
  slot 1 m00010004 05d00893@0 05d00893@17
  slot 7 x17 00000000@0 0000005d@23
";

const STEP_2: &str = "\
step 2 pc 00010008 word 00000073 ecall
  slot 1 m00010008 00000073@0 00000073@33
  slot 2 x17 0000005d@23 0000005d@34
  slot 3 x10 0000002a@7 0000002a@35
";

/// Row 0 with the word of `lr.w x6, (x5)` and the cell of the reservation.
const ATOMIC_STEP: &str = "\
step 0 pc 00010000 word 1002a32f lr.w x6, (x5)
  slot 1 m00010000 1002a32f@0 02a00513@1
  slot 8 c1073741856 00000000@0 0000002a@8
";

/// The same row in version 1, with the cell that x0 would have.
const PLAIN_STEP: &str = "\
step 0 pc 00010000 word 1002a32f illegal
  slot 1 m00010000 1002a32f@0 02a00513@1
  slot 8 x0 00000000@0 0000002a@8
";

/// A shard's head, its rows, and zeros for the digests.
fn push_shard(file: &mut Vec<u8>, index: u32, rows: u32, bytes: &[u8]) -> Result<(), Fail> {
    file.extend_from_slice(&index.to_le_bytes())?;
    file.extend_from_slice(&rows.to_le_bytes())?;
    file.extend_from_slice(&[0; 20])?;
    file.extend_from_slice(&[bytes.len().min(255) as u8, 0, 0, 0])?;
    file.extend_from_slice(bytes)?;
    file.extend_from_slice(&[0; 256])?;
    Ok(())
}

/// The front of a record of three steps, with zeros for its hashes.
fn front(alloc: Global, size: u32, shards: u32) -> Result<Vec<u8>, AllocError> {
    let mut file = Vec::new(alloc);
    file.extend_from_slice(b"RV32REC1")?;
    file.extend_from_slice(&[0; 128])?;
    file.extend_from_slice(&size.to_le_bytes())?;
    file.extend_from_slice(&3u64.to_le_bytes())?;
    file.extend_from_slice(&shards.to_le_bytes())?;
    file.extend_from_slice(&[0; 21])?;
    Ok(file)
}

/// The record in one shard, with no table.
fn one_shard(alloc: Global) -> Result<Vec<u8>, Fail> {
    let mut file = front(alloc, 3, 1)?;
    push_shard(&mut file, 0, 3, &ROWS)?;
    file.extend_from_slice(&[0; 4])?;
    Ok(file)
}

/// The record in shards of two rows.
fn two_shards(alloc: Global) -> Result<Vec<u8>, Fail> {
    let mut file = front(alloc, 2, 2)?;
    push_shard(&mut file, 0, 2, &ROWS[..102])?;
    push_shard(&mut file, 1, 1, &ROWS[102..])?;
    file.extend_from_slice(&[0; 4])?;
    Ok(file)
}

/// The record in shards of one row.
fn three_shards(alloc: Global) -> Result<Vec<u8>, Fail> {
    let mut file = front(alloc, 1, 3)?;
    push_shard(&mut file, 0, 1, &ROWS[..51])?;
    push_shard(&mut file, 1, 1, &ROWS[51..102])?;
    push_shard(&mut file, 2, 1, &ROWS[102..])?;
    file.extend_from_slice(&[0; 4])?;
    Ok(file)
}

/// Whether a listing is these steps.
fn lists(text: &Text, steps: &[&str]) -> bool {
    let mut rest = text.text();
    for step in steps {
        let Some(behind) = rest.strip_prefix(*step) else {
            return false;
        };
        rest = behind;
    }
    rest.is_empty()
}

#[test]
fn rows_of_each_cut(rt: HostRuntime) -> Result<(), Fail> {
    for file in [
        one_shard(rt.alloc())?,
        two_shards(rt.alloc())?,
        three_shards(rt.alloc())?,
    ] {
        let parsed = parse(&file)?;
        for (from, count, steps) in [
            (0u64, 1u32, [STEP_0, "", ""]),
            (0, 3, [STEP_0, STEP_1, STEP_2]),
            (0, 0, ["", "", ""]),
            (1, 1, ["", STEP_1, ""]),
            (1, u32::MAX, ["", STEP_1, STEP_2]),
            (2, 5, ["", "", STEP_2]),
            (3, 1, ["", "", ""]),
            (u64::MAX, u32::MAX, ["", "", ""]),
        ] {
            let text = explain(rt.alloc(), &parsed, from, count)?;
            assert!(rt; lists(&text, &steps), "from {from}: {}", text.text());
        }
    }
    Ok(())
}

#[test]
fn words_and_cells_of_each_version(rt: HostRuntime) -> Result<(), Fail> {
    let mut file = one_shard(rt.alloc())?;
    assert_eq!(rt; file.len(), 639);
    // the fetched word, and slot, cell and new value of the second access
    file[219..223].copy_from_slice(&0x1002_A32Fu32.to_le_bytes());
    file[235] = 8;
    file[236..240].copy_from_slice(&0x4000_0000u32.to_le_bytes());
    let plain = explain(rt.alloc(), &parse(&file)?, 0, 1)?;
    assert_eq!(rt; plain.text(), PLAIN_STEP);
    file[7] = b'2';
    file[236..240].copy_from_slice(&0x4000_0020u32.to_le_bytes());
    let atomic = explain(rt.alloc(), &parse(&file)?, 0, 1)?;
    assert_eq!(rt; atomic.text(), ATOMIC_STEP);
    Ok(())
}
