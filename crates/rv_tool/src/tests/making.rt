//! `make`.

ghost use Rattle.std.specs.Prelude.{◌<◌};

use super::programs::{PROGRAM, RECORD, of_code, spelled, with_headers};
use super::running::{GREETING, RESERVING};
use super::{MADE, expect, expect_by_team, shelf_with};
use rv_host::MemShelf;
use std::test::Fail;

#[test]
fn the_first_record_is_written_byte_for_byte(rt: HostRuntime) -> Result<(), Fail> {
    let mut shelf = shelf_with(&rt, &PROGRAM)?;
    expect(&rt, "make elf input record 1 3 3", &mut shelf, 0, MADE)?;
    let record = shelf.file("record").ok_or("no record")?;
    assert!(rt; record == spelled(&rt, &RECORD)?.as_slice());
    Ok(())
}

#[test]
fn programs_as_a_linker_writes_them(rt: HostRuntime) -> Result<(), Fail> {
    let mut bytes = Vec::new(rt.alloc());
    bytes.extend_from_slice(&PROGRAM[84..])?;
    bytes.extend_from_slice(b"\xAA\xBB\xCC\xDD\xEEsections")?;
    let headers = [
        [0x7000_0003, 0, 0, 0, 0, 0, 4, 1],
        [1, 180, 0x10000, 0x10000, 12, 12, 5, 4],
        [1, 192, 0x11002, 0x11002, 5, 12, 6, 1],
        [0x6474_E551, 0, 0, 0, 0, 0, 6, 0],
    ];
    let mut shelf = shelf_with(&rt, &with_headers(&rt, &headers, &bytes)?)?;
    expect(&rt, "make elf input record 1 3 3", &mut shelf, 0, MADE)
}

#[test]
fn faults_of_several_segments(rt: HostRuntime) -> Result<(), Fail> {
    let wrapping = [[1, 84, 0xFFFF_FFF8, 0xFFFF_FFF8, 0, 12, 7, 4]];
    let many = [[1, 84, 0x10000, 0x10000, 0, 0, 7, 4]; 65];
    let overlapping = [
        [1, 116, 0x10000, 0x10000, 12, 12, 7, 4],
        [1, 128, 0x10008, 0x10008, 0, 4, 7, 4],
    ];
    let files = [
        (
            with_headers(&rt, &wrapping, b"")?,
            "fault elf 13 SegmentWrap\n",
        ),
        (with_headers(&rt, &many, b"")?, "fault elf 14 TooMany\n"),
        (
            with_headers(&rt, &overlapping, &PROGRAM[84..])?,
            "fault elf 15 Overlap\n",
        ),
    ];
    for (elf, line) in &files {
        let mut shelf = shelf_with(&rt, elf)?;
        expect(&rt, "make elf input record 1 3 3", &mut shelf, 3, line)?;
    }
    Ok(())
}

#[test]
fn runs_and_their_records(rt: HostRuntime) -> Result<(), Fail> {
    let made = [
        (
            PROGRAM.as_slice(),
            "make elf input record 1 1 3",
            "made steps=3 shards=3 end=0 code=42 bytes=1295\n",
        ),
        (
            GREETING.as_slice(),
            "make elf input record 1 16 100",
            "made steps=8 shards=1 end=0 code=3 bytes=1231\n",
        ),
        // jalr x1, 2(x0): its target is misaligned
        (
            &[0xE7, 0, 0x20, 0],
            "make elf input record 1 1 1",
            "made steps=1 shards=1 end=3 code=0 bytes=511\n",
        ),
        (
            RESERVING.as_slice(),
            "make elf input record 1 4 4",
            "made steps=2 shards=1 end=1 code=0 bytes=594\n",
        ),
        (
            RESERVING.as_slice(),
            "make2 elf input record 1 4 4",
            "made steps=4 shards=1 end=1 code=0 bytes=939\n",
        ),
    ];
    for (code, line, printed) in made {
        let elf = if code.len() == 96 {
            let mut elf = Vec::new(rt.alloc());
            elf.extend_from_slice(code)?;
            elf
        } else {
            of_code(&rt, code)?
        };
        let mut shelf = shelf_with(&rt, &elf)?;
        expect(&rt, line, &mut shelf, 0, printed)?;
    }
    Ok(())
}

#[test]
fn runs_without_a_record(rt: HostRuntime) -> Result<(), Fail> {
    let mut shelf = shelf_with(&rt, &PROGRAM)?;
    expect(
        &rt,
        "make elf input record 1 3 2",
        &mut shelf,
        4,
        "fault budget 2\n",
    )?;
    // a loop of 65,537 steps in all
    let counting = [
        0xB7, 0x82, 0, 0, 0x93, 0x82, 0xF2, 0xFF, 0x93, 0x82, 0xF2, 0xFF, 0xE3, 0x9E, 0x02, 0xFE,
    ];
    shelf.put("elf", &of_code(&rt, &counting)?)?;
    expect(
        &rt,
        "make elf input record 1 1 100000",
        &mut shelf,
        8,
        "fault limit shards\n",
    )?;
    expect(
        &rt,
        "make elf input record 1 1 65536",
        &mut shelf,
        4,
        "fault budget 65536\n",
    )?;
    assert!(rt; shelf.file("record").is_none());
    // 163,841 accesses and six cells in the table
    expect(
        &rt,
        "make elf input record 1 2 100000",
        &mut shelf,
        0,
        "made steps=65537 shards=32769 end=1 code=0 bytes=13468239\n",
    )
}

/// The program with one byte changed.
fn changed(at: usize, byte: u8) -> [u8; 96]
    requires { at < 96 }
{
    let mut elf = PROGRAM;
    elf[at] = byte;
    elf
}

#[test]
fn faults_of_the_elf_file(rt: HostRuntime) -> Result<(), Fail> {
    let faults = [
        (changed(1, 0), "fault elf 2 Magic\n"),
        (changed(4, 2), "fault elf 3 Class\n"),
        (changed(5, 2), "fault elf 4 Order\n"),
        (changed(20, 2), "fault elf 5 Version\n"),
        (changed(16, 3), "fault elf 6 Kind\n"),
        (changed(18, 0), "fault elf 7 Machine\n"),
        (changed(42, 31), "fault elf 8 HeaderSize\n"),
        (changed(44, 9), "fault elf 9 Headers\n"),
        (changed(52, 3), "fault elf 10 Interpreter\n"),
        (changed(56, 85), "fault elf 11 SegmentFile\n"),
        (changed(72, 11), "fault elf 12 SegmentSize\n"),
        (changed(24, 2), "fault elf 16 Entry\n"),
    ];
    for (elf, line) in faults {
        let mut shelf = shelf_with(&rt, &elf)?;
        expect(&rt, "make elf input record 1 3 3", &mut shelf, 3, line)?;
        assert!(rt; shelf.file("record").is_none(), "{line}");
    }
    for elf in [&PROGRAM[..0], &PROGRAM[..51]] {
        let mut shelf = shelf_with(&rt, elf)?;
        expect(
            &rt,
            "make elf input record 1 3 3",
            &mut shelf,
            3,
            "fault elf 1 Short\n",
        )?;
    }
    Ok(())
}

#[test]
fn workers_make_the_same_record(rt: HostRuntime) -> Result<(), Fail> {
    let mut shelf = shelf_with(&rt, &PROGRAM)?;
    expect(
        &rt,
        "make elf input alone 1 1 3",
        &mut shelf,
        0,
        "made steps=3 shards=3 end=0 code=42 bytes=1295\n",
    )?;
    for line in [
        "make elf input team 2 1 3",
        "make elf input team 4 1 3",
        "make elf input team 64 1 3",
    ] {
        expect_by_team(
            &rt,
            line,
            &mut shelf,
            0,
            "made steps=3 shards=3 end=0 code=42 bytes=1295\n",
        )?;
        assert!(rt; shelf.file("team").is_some(), "{line}");
        assert!(rt; shelf.file("team") == shelf.file("alone"), "{line}");
    }
    Ok(())
}

#[test]
fn sizes_come_before_faults(rt: HostRuntime) -> Result<(), Fail> {
    let mut shelf = MemShelf::new(rt.alloc());
    shelf.put("elf", b"")?;
    shelf.put("input", &vec![in rt.alloc(); 0u8; 16_777_217]?)?;
    expect(
        &rt,
        "make elf input record 1 3 3",
        &mut shelf,
        8,
        "fault limit input\n",
    )?;
    shelf.put("elf", &vec![in rt.alloc(); 0u8; 67_108_865]?)?;
    expect(
        &rt,
        "make elf absent record 1 3 3",
        &mut shelf,
        8,
        "fault limit elf\n",
    )
}
