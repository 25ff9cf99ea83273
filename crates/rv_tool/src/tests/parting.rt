//! `split` and `join`.

use super::programs::{PROGRAM, of_code};
use super::sweeping::fails_in_turn;
use super::{expect, shelf_with};
use rv_host::MemShelf;
use std::process::Abort;
use std::test::Fail;

/// The line of the accepted record of `PROGRAM` in three shards.
const ACCEPTED: &str = "accepted steps=3 shards=3 end=0 code=42\n";

// The record has shards of 339, 339 and 360 bytes behind a header of 173, and a table of 84. A part has 24 bytes and the header besides.
#[test]
fn a_record_in_two_parts(rt: HostRuntime) -> Result<(), Fail> {
    let mut shelf = shelf_with(&rt, &PROGRAM)?;
    for (line, printed) in [
        (
            "make elf input record 1 1 3",
            "made steps=3 shards=3 end=0 code=42 bytes=1295\n",
        ),
        ("split record 2 part", "split parts=2 bytes=1516\n"),
        ("join elf input part 2", ACCEPTED),
        ("split record 3 other", "split parts=3 bytes=1713\n"),
        ("join elf input other 3", ACCEPTED),
    ] {
        expect(&rt, line, &mut shelf, 0, printed)?;
    }
    assert_eq!(rt; shelf.file("part.0").map(|part| part.len()), Some(536));
    assert_eq!(rt; shelf.file("part.1").map(|part| part.len()), Some(980));
    assert!(rt; shelf.file("part.2").is_none());
    Ok(())
}

#[test]
fn parts_that_are_none(rt: HostRuntime) -> Result<(), Fail> {
    let mut shelf = shelf_with(&rt, &PROGRAM)?;
    let made = "made steps=3 shards=3 end=0 code=42 bytes=1295\n";
    expect(&rt, "make elf input record 1 1 3", &mut shelf, 0, made)?;
    for (line, status, printed) in [
        ("split record 4 part", 8, "fault limit parts\n"),
        (
            "split elf 1 part",
            1,
            "refused shard=0 row=0 rule=1 Short\n",
        ),
        ("split record 0 part", 2, "fault words\n"),
        ("split record 65 part", 2, "fault words\n"),
        ("split record part", 2, "fault words\n"),
        ("join elf input part 65", 2, "fault words\n"),
        ("join elf input part", 2, "fault words\n"),
        ("join elf input part 1", 5, "fault read\n"),
        ("split record 2 part", 0, "split parts=2 bytes=1516\n"),
        ("join elf input part 1", 11, "fault part 0 head\n"),
        ("join elf input part 3", 11, "fault part 0 head\n"),
        (
            "join elf elf part 2",
            1,
            "refused shard=0 row=0 rule=4 Input\n",
        ),
    ] {
        expect(&rt, line, &mut shelf, status, printed)?;
    }
    let mut twice = Vec::new(rt.alloc());
    twice.extend_from_slice(shelf.file("part.0").ok_or("no part")?)?;
    shelf.put("part.1", &twice)?;
    expect(
        &rt,
        "join elf input part 2",
        &mut shelf,
        11,
        "fault part 1 head\n",
    )
}

/// A program of 64 steps: addi x5, x0, 30; then 30 times addi x5, x5, -1 and bne x5, x0, -4; addi x10, x0, 42; addi x17, x0, 93; ecall.
const COUNTDOWN: [u8; 24] = [
    0x93, 0x02, 0xE0, 0x01, 0x93, 0x82, 0xF2, 0xFF, 0xE3, 0x9E, 0x02, 0xFE, 0x13, 0x05, 0xA0, 0x02,
    0x93, 0x08, 0xD0, 0x05, 0x73, 0x00, 0x00, 0x00,
];

// The record in shards of a row: a header of 173 bytes, 64 heads and digests of 288, 33 rows of two accesses with 51 bytes, 31 of three
// with 72, and a table of nine cells with 148.
#[test]
fn as_many_parts_as_shards(rt: HostRuntime) -> Result<(), Fail> {
    let mut shelf = shelf_with(&rt, &of_code(&rt, &COUNTDOWN)?)?;
    let accepted = "accepted steps=64 shards=64 end=0 code=42\n";
    for (line, printed) in [
        (
            "make elf input record 1 1 64",
            "made steps=64 shards=64 end=0 code=42 bytes=22668\n",
        ),
        ("split record 64 part", "split parts=64 bytes=35103\n"),
        ("join elf input part 64", accepted),
        ("split record 1 all", "split parts=1 bytes=22692\n"),
        ("join elf input all 1", accepted),
    ] {
        expect(&rt, line, &mut shelf, 0, printed)?;
    }
    assert_eq!(rt; shelf.file("part.0").map(|part| part.len()), Some(536));
    assert_eq!(rt; shelf.file("part.63").map(|part| part.len()), Some(705));
    Ok(())
}

/// A program of 65,536 steps: lui x5, 8; addi x5, x5, -3; addi x0, x0, 0; then 32,765 times addi x5, x5, -1 and bne x5, x0, -4; addi x10, x0, 42;
/// addi x17, x0, 93; ecall.
const LONG_COUNTDOWN: [u8; 32] = [
    0xB7, 0x82, 0x00, 0x00, 0x93, 0x82, 0xD2, 0xFF, 0x13, 0x00, 0x00, 0x00, 0x93, 0x82, 0xF2, 0xFF,
    0xE3, 0x9E, 0x02, 0xFE, 0x13, 0x05, 0xA0, 0x02, 0x93, 0x08, 0xD0, 0x05, 0x73, 0x00, 0x00, 0x00,
];

// Beside the header and 65,536 heads and digests: a row of one access with 30 bytes, 32,768 of two, 32,767 of three, and a table of eleven cells
// with 180 bytes.
#[test]
fn parts_of_the_most_shards(rt: HostRuntime) -> Result<(), Fail> {
    let mut shelf = shelf_with(&rt, &of_code(&rt, &LONG_COUNTDOWN)?)?;
    for (line, printed) in [
        (
            "make elf input record 1 1 65536",
            "made steps=65536 shards=65536 end=0 code=42 bytes=22905143\n",
        ),
        ("split record 64 part", "split parts=64 bytes=22917578\n"),
        (
            "join elf input part 64",
            "accepted steps=65536 shards=65536 end=0 code=42\n",
        ),
    ] {
        expect(&rt, line, &mut shelf, 0, printed)?;
    }
    Ok(())
}

/// A copy of a file.
fn copy_of<R: AllocGlobal>(rt: &R, shelf: &MemShelf, name: &str) -> Result<Vec<u8>, Fail> {
    let mut bytes = Vec::new(rt.alloc());
    bytes.extend_from_slice(shelf.file(name).ok_or("no such file")?)?;
    Ok(bytes)
}

/// Files `elf`, `input`, `record`, and its three parts of 536, 536 and 641 bytes.
fn shelf_in_parts<R: Abort + AllocGlobal>(rt: &R) -> Result<MemShelf, Fail> {
    let mut shelf = shelf_with(rt, &PROGRAM)?;
    let made = "made steps=3 shards=3 end=0 code=42 bytes=1295\n";
    expect(rt, "make elf input record 1 1 3", &mut shelf, 0, made)?;
    let split = "split parts=3 bytes=1713\n";
    expect(rt, "split record 3 part", &mut shelf, 0, split)?;
    Ok(shelf)
}

/// What `join` answers where a part has other bytes; the part is as it was afterwards.
fn expect_joined<R: Abort + AllocGlobal>(
    rt: &R,
    shelf: &mut MemShelf,
    name: &str,
    bytes: &[u8],
    status: u8,
    printed: &str,
) -> Result<(), Fail> {
    let kept = copy_of(rt, shelf, name)?;
    shelf.put(name, bytes)?;
    expect(rt, "join elf input part 3", shelf, status, printed)?;
    shelf.put(name, &kept)?;
    Ok(())
}

/// A changed byte: the part, the place of the byte, what it is combined with by exclusive or, and what is told.
type Change = (&'static str, usize, u8, u8, &'static str);

/// A part is its head (magic, number, parts, first shard, shards), the record's front of 173 bytes, and from 197 on the shard: its head (index, rows,
/// pc, positions, from 225 on the bytes of its rows), from 229 on a row, and digests; behind 557 bytes part 2 has the table.
const CHANGES: [Change; 25] = [
    ("part.0", 0, 1, 11, "fault part 0 head\n"),
    ("part.0", 8, 1, 11, "fault part 0 head\n"),
    ("part.0", 12, 1, 11, "fault part 0 head\n"),
    ("part.0", 16, 1, 11, "fault part 0 cover\n"),
    ("part.0", 20, 1, 11, "fault part 0 head\n"),
    ("part.0", 20, 3, 11, "fault part 0 cut\n"),
    ("part.0", 24, 1, 1, "refused shard=0 row=0 rule=2 Magic\n"),
    ("part.0", 32, 1, 1, "refused shard=0 row=0 rule=3 Program\n"),
    ("part.0", 96, 1, 1, "refused shard=0 row=0 rule=4 Input\n"),
    ("part.1", 0, 1, 11, "fault part 1 head\n"),
    ("part.1", 8, 1, 11, "fault part 1 head\n"),
    ("part.1", 12, 1, 11, "fault part 1 head\n"),
    ("part.1", 16, 1, 11, "fault part 1 cover\n"),
    ("part.1", 20, 1, 11, "fault part 1 head\n"),
    ("part.1", 24, 1, 11, "fault part 1 front\n"),
    ("part.1", 196, 1, 11, "fault part 1 front\n"),
    (
        "part.1",
        197,
        1,
        1,
        "refused shard=1 row=0 rule=9 ShardHead\n",
    ),
    (
        "part.1",
        205,
        0x0C,
        1,
        "refused shard=1 row=0 rule=9 ShardHead\n",
    ),
    (
        "part.1",
        225,
        1,
        1,
        "refused shard=1 row=1 rule=20 RowBytes\n",
    ),
    ("part.1", 229, 1, 1, "refused shard=1 row=0 rule=11 Pc\n"),
    (
        "part.1",
        237,
        2,
        1,
        "refused shard=1 row=0 rule=10 RowShape\n",
    ),
    (
        "part.1",
        535,
        1,
        1,
        "refused shard=1 row=1 rule=21 ShardDigest\n",
    ),
    ("part.2", 20, 2, 11, "fault part 2 cover\n"),
    (
        "part.2",
        557,
        1,
        1,
        "refused shard=3 row=4 rule=26 Balance\n",
    ),
    (
        "part.2",
        640,
        1,
        1,
        "refused shard=3 row=5 rule=26 Balance\n",
    ),
];

#[test]
fn each_field_of_parts_is_looked_at(rt: HostRuntime) -> Result<(), Fail> {
    let mut shelf = shelf_in_parts(&rt)?;
    for (name, at, flipped, status, printed) in CHANGES {
        let mut part = copy_of(&rt, &shelf, name)?;
        let byte = part.get_mut(at).ok_or("a short part")?;
        *byte ^= flipped;
        expect_joined(&rt, &mut shelf, name, &part, status, printed)?;
    }
    Ok(())
}

/// Parts of which so many bytes are left, and what is told.
const CUTS: [(&str, usize, u8, &str); 15] = [
    ("part.0", 0, 11, "fault part 0 head\n"),
    ("part.0", 23, 11, "fault part 0 head\n"),
    ("part.0", 24, 11, "fault part 0 front\n"),
    ("part.0", 196, 11, "fault part 0 front\n"),
    ("part.0", 197, 11, "fault part 0 cut\n"),
    ("part.0", 535, 11, "fault part 0 cut\n"),
    ("part.1", 196, 11, "fault part 1 front\n"),
    ("part.1", 197, 11, "fault part 1 cut\n"),
    ("part.1", 535, 11, "fault part 1 cut\n"),
    ("part.2", 197, 1, "refused shard=2 row=0 rule=1 Short\n"),
    ("part.2", 228, 1, "refused shard=2 row=0 rule=1 Short\n"),
    ("part.2", 237, 1, "refused shard=2 row=0 rule=1 Short\n"),
    ("part.2", 556, 1, "refused shard=2 row=1 rule=1 Short\n"),
    ("part.2", 557, 1, "refused shard=3 row=0 rule=1 Short\n"),
    ("part.2", 640, 1, "refused shard=3 row=4 rule=1 Short\n"),
];

#[test]
fn parts_that_are_cut(rt: HostRuntime) -> Result<(), Fail> {
    let mut shelf = shelf_in_parts(&rt)?;
    for (name, length, status, printed) in CUTS {
        let part = copy_of(&rt, &shelf, name)?;
        let cut = part.get(..length).ok_or("a short part")?;
        expect_joined(&rt, &mut shelf, name, cut, status, printed)?;
    }
    for (name, status, printed) in [
        ("part.0", 11, "fault part 0 cut\n"),
        ("part.1", 11, "fault part 1 cut\n"),
        ("part.2", 1, "refused shard=3 row=5 rule=27 Trailing\n"),
    ] {
        let mut part = copy_of(&rt, &shelf, name)?;
        part.push(0)?;
        expect_joined(&rt, &mut shelf, name, &part, status, printed)?;
    }
    Ok(())
}

#[test]
fn parts_in_another_place(rt: HostRuntime) -> Result<(), Fail> {
    let mut shelf = shelf_in_parts(&rt)?;
    for (name, other, printed) in [
        ("part.0", "part.1", "fault part 0 head\n"),
        ("part.1", "part.2", "fault part 1 head\n"),
        ("part.2", "part.1", "fault part 2 head\n"),
        ("part.2", "record", "fault part 2 head\n"),
    ] {
        let part = copy_of(&rt, &shelf, other)?;
        expect_joined(&rt, &mut shelf, name, &part, 11, printed)?;
    }
    Ok(())
}

#[test]
fn each_call_over_three_parts_fails_in_turn(rt: HostRuntime) -> Result<(), Fail> {
    let shelf = shelf_in_parts(&rt)?;
    let zero = copy_of(&rt, &shelf, "part.0")?;
    let one = copy_of(&rt, &shelf, "part.1")?;
    let two = copy_of(&rt, &shelf, "part.2")?;
    let due = [
        ("other.0", zero.as_slice()),
        ("other.1", one.as_slice()),
        ("other.2", two.as_slice()),
    ];
    let split = ("split record 3 other", 1, 0, "split parts=3 bytes=1713\n");
    let files = [("record", copy_of(&rt, &shelf, "record")?)];
    fails_in_turn(&rt, &files, split, &due)?;
    let files = [
        ("elf", copy_of(&rt, &shelf, "elf")?),
        ("input", copy_of(&rt, &shelf, "input")?),
        ("part.0", copy_of(&rt, &shelf, "part.0")?),
        ("part.1", copy_of(&rt, &shelf, "part.1")?),
        ("part.2", copy_of(&rt, &shelf, "part.2")?),
    ];
    let join = ("join elf input part 3", 5, 0, ACCEPTED);
    fails_in_turn(&rt, &files, join, &[])
}
