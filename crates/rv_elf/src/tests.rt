//! Worked files: whether the definitions say what was meant, and that memory is found.

ghost use Rattle.std.specs.Prelude.{◌≤◌, length};

use super::*;
use crate::segment::{PT_INTERP, PT_LOAD};
use crate::writer::{put_header, put_words};
use std::alloc::{AllocError, Global};
use std::test::Fail;

/// Three instructions at 0x10000, byte by byte.
const THREE: [u8; 96] = [
    0x7F, 0x45, 0x4C, 0x46, 1, 1, 1, 0, 0, 0, 0, 0, 0, 0, 0, 0, //
    2, 0, 243, 0, 1, 0, 0, 0, 0, 0, 1, 0, 52, 0, 0, 0, //
    0, 0, 0, 0, 0, 0, 0, 0, 52, 0, 32, 0, 1, 0, 0, 0, //
    0, 0, 0, 0, 1, 0, 0, 0, 84, 0, 0, 0, 0, 0, 1, 0, //
    0, 0, 1, 0, 12, 0, 0, 0, 12, 0, 0, 0, 7, 0, 0, 0, //
    4, 0, 0, 0, 0x13, 0x05, 0xA0, 0x02, 0x93, 0x08, 0xD0, 0x05, 0x73, 0, 0, 0,
];

/// The number of a file's fault, or 0, or 255 for a file that is too long to be read.
fn fault(file: &[u8]) -> u8 {
    if file.len() > 67_108_864 {
        return 255;
    }
    match read(file) {
        Ok(_) => 0,
        Err(fault) => fault.number(),
    }
}

/// A file of program headers, each of p_type, p_offset, p_vaddr, p_filesz and p_memsz, and bytes behind them.
fn file_of(
    alloc: Global,
    entry: u32,
    headers: &[[u32; 5]],
    bytes: &[u8],
) -> Result<Vec<u8>, AllocError>
    requires { length headers.now ≤ 100 }
{
    let mut file = Vec::new(alloc);
    put_header(&mut file, entry, headers.len() as u16)?;
    for [kind, offset, address, file_size, memory_size] in headers {
        put_words(
            &mut file,
            &[*kind, *offset, *address, 0, *file_size, *memory_size, 0, 0],
        )?;
    }
    file.extend_from_slice(bytes)?;
    Ok(file)
}

#[test]
fn writes_three_instructions(rt: HostRuntime) -> Result<(), Fail> {
    let part = Part {
        addr: 0x10000,
        len: 12,
        size: 12,
    };
    let file = write(rt.alloc(), 0x10000, &[part], &THREE[84..])?;
    assert_eq!(rt; file.as_slice(), THREE.as_slice());
    Ok(())
}

#[test]
fn tells_each_fault(rt: HostRuntime) {
    for (at, byte, number) in [
        (0, 0x7F, 0),
        (0, 0, 2),
        (4, 2, 3),
        (5, 2, 4),
        (6, 0, 5),
        (20, 2, 5),
        (16, 3, 6),
        (18, 62, 7),
        (42, 40, 8),
        (44, 3, 9),
        (52, 3, 10),
        (68, 13, 11),
        (72, 11, 12),
        (24, 2, 16),
    ] {
        let mut file = THREE;
        assert!(rt; at < file.len());
        file[at] = byte;
        assert_eq!(rt; fault(&file), number, "byte {at}");
    }
    assert_eq!(rt; fault(&[]), 1);
    assert_eq!(rt; fault(&THREE[..51]), 1);
}

/// Twelve bytes of code behind one program header.
const CODE: [u32; 5] = [PT_LOAD, 84, 0x10000, 12, 12];

#[test]
fn tells_the_least_fault(rt: HostRuntime) -> Result<(), Fail> {
    let interpreter = [PT_INTERP, 0, 0, 0, 0];
    let past_file = [PT_LOAD, 0xFFFF_FFFF, 0, 0xFFFF_FFFF, 0xFFFF_FFFF];
    let empty = [PT_LOAD, 0, 0x10004, 0, 0];
    let mut many = [empty; 65];
    let alloc = rt.alloc();
    let short_of_end = [PT_LOAD, 0, 0xFFFF_FFF4, 12, 12];
    let over_end = [PT_LOAD, 0, 0xFFFF_FFF8, 12, 12];
    let inside = [PT_LOAD, 0, 0x10008, 4, 4];
    for (entry, headers, number) in [
        (0x10000, [CODE, interpreter], 10),
        (0x10002, [past_file, interpreter], 10),
        (0x10000, [CODE, inside], 15),
        (0x10002, [CODE, inside], 15),
        (0x10002, [CODE, empty], 16),
        (0x10000, [CODE, empty], 0),
        (0x10000, [CODE, short_of_end], 0),
        (0x10000, [CODE, over_end], 13),
        (0x10002, [over_end, past_file], 11),
    ] {
        let file = file_of(alloc, entry, &headers, &THREE)?;
        assert_eq!(rt; fault(file.as_slice()), number, "fault {number}");
    }
    assert_eq!(rt; fault(file_of(alloc, 0, &[], &[])?.as_slice()), 0);
    assert_eq!(rt; fault(file_of(alloc, 0, &many[1..], &[])?.as_slice()), 0);
    assert_eq!(rt; fault(file_of(alloc, 0, &many, &[])?.as_slice()), 14);
    many[64] = past_file;
    assert_eq!(rt; fault(file_of(alloc, 0, &many, &[])?.as_slice()), 11);
    Ok(())
}

/// The code of `THREE`, and five bytes of data.
const BYTES: [u8; 17] = [
    0x13, 0x05, 0xA0, 0x02, 0x93, 0x08, 0xD0, 0x05, 0x73, 0, 0, 0, 0xAA, 0xBB, 0xCC, 0xDD, 0xEE,
];

#[test]
fn reads_words(rt: HostRuntime) -> Result<(), Fail> {
    let as_linked = [
        [0x7000_0003, 180, 0, 9, 0],
        [PT_LOAD, 180, 0x10000, 12, 12],
        [PT_LOAD, 192, 0x11002, 5, 12],
        [0x6474_E551, 0, 0, 0, 0],
    ];
    let file = file_of(rt.alloc(), 0x10000, &as_linked, &BYTES)?;
    assert!(rt; file.len() == 197);
    let image = read(file.as_slice())?.copy().with_version(2);
    assert_eq!(rt; (image.entry(), image.version()), (0x10000, 2));
    assert_eq!(rt; image.word(0x4000), 0x02A0_0513);
    assert_eq!(rt; image.word(0x4400), 0xBBAA_0000);
    assert_eq!(rt; image.word(0x4401), 0x00EE_DDCC);
    assert_eq!(rt; image.word(0x4402), 0);
    assert_eq!(rt; image.word(0x3FFF_FFFF), 0);

    let in_one_word = [
        [PT_LOAD, 116, 0x1_0002, 2, 2],
        [PT_LOAD, 130, 0x1_0001, 1, 1],
    ];
    let file = file_of(rt.alloc(), 0, &in_one_word, &BYTES)?;
    assert!(rt; file.len() == 133);
    assert_eq!(rt; read(file.as_slice())?.word(0x4000), 0x0513_CC00);
    Ok(())
}

#[test]
fn tells_each_fault_by_its_name(rt: HostRuntime) -> Result<(), Fail> {
    for (fault, name) in [
        (ElfFault::Short, "Short"),
        (ElfFault::Magic, "Magic"),
        (ElfFault::Class, "Class"),
        (ElfFault::Order, "Order"),
        (ElfFault::Version, "Version"),
        (ElfFault::Kind, "Kind"),
        (ElfFault::Machine, "Machine"),
        (ElfFault::HeaderSize, "HeaderSize"),
        (ElfFault::Headers, "Headers"),
        (ElfFault::Interpreter, "Interpreter"),
        (ElfFault::SegmentFile, "SegmentFile"),
        (ElfFault::SegmentSize, "SegmentSize"),
        (ElfFault::SegmentWrap, "SegmentWrap"),
        (ElfFault::TooMany, "TooMany"),
        (ElfFault::Overlap, "Overlap"),
        (ElfFault::Entry, "Entry"),
    ] {
        assert_eq!(rt; fault.to_string(rt.alloc())?.as_str(), name);
    }
    Ok(())
}

#[test]
fn reads_the_largest_file(rt: HostRuntime) -> Result<(), Fail> {
    let behind = vec![in rt.alloc(); 0x5A; 67_108_780]?;
    let whole = [PT_LOAD, 0, 0, 67_108_864, 67_108_864];
    let file = file_of(rt.alloc(), 0, &[whole], behind.as_slice())?;
    assert!(rt; file.len() == 67_108_864);
    let image = read(file.as_slice())?;
    assert_eq!(rt; image.word(0), 0x464C_457F);
    assert_eq!(rt; image.word(0x00FF_FFFF), 0x5A5A_5A5A);
    assert_eq!(rt; image.word(0x0100_0000), 0);
    Ok(())
}
