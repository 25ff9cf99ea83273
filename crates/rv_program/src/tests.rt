//! Worked files: what opening refuses, and the first broken check of a header.

ghost use Rattle.std.specs.Prelude.{◌≡◌};

use super::*;
use rv_base::End;
use rv_base::layout::HEADER_BYTES;
use rv_file::write_header;
use std::process::Abort;
use std::test::Fail;

/// The program of three instructions at 0x10000: `li a0, 42`, `li a7, 93` and `ecall`.
const ELF: [u8; 96] = [
    0x7F, 0x45, 0x4C, 0x46, 1, 1, 1, 0, 0, 0, 0, 0, 0, 0, 0, 0, //
    2, 0, 243, 0, 1, 0, 0, 0, 0, 0, 1, 0, 52, 0, 0, 0, //
    0, 0, 0, 0, 0, 0, 0, 0, 52, 0, 32, 0, 1, 0, 0, 0, //
    0, 0, 0, 0, 1, 0, 0, 0, 84, 0, 0, 0, 0, 0, 1, 0, //
    0, 0, 1, 0, 12, 0, 0, 0, 12, 0, 0, 0, 7, 0, 0, 0, //
    4, 0, 0, 0, 0x13, 0x05, 0xA0, 0x02, 0x93, 0x08, 0xD0, 0x05, 0x73, 0, 0, 0,
];

/// The first and the last eight bytes of the SHA-512 of no bytes (FIPS 180-4, as OpenSSL has it).
const EMPTY_FRONT: [u8; 8] = [0xcf, 0x83, 0xe1, 0x35, 0x7e, 0xef, 0xb8, 0xbd];

const EMPTY_BACK: [u8; 8] = [0xa5, 0x38, 0x32, 0x7a, 0xf9, 0x27, 0xda, 0x3e];

/// The number of what opening refuses, or 0.
fn fault(elf: &[u8]) -> u8 {
    if elf.len() > 96 {
        return 255;
    }
    match Program::open(elf, &[]) {
        Ok(_) => 0,
        Err(fault) => fault.number(),
    }
}

#[test]
fn opens_a_program(rt: HostRuntime) -> Result<(), Fail> {
    let program = Program::open(&ELF, &[])?;
    assert_eq!(rt; program.image().entry(), 0x10000);
    assert_eq!(rt; program.image().version(), 1);
    assert_eq!(rt; program.image_of(2).version(), 2);
    for (cell, value) in [
        (0x4000, 0x02A0_0513),
        (0x4003, 0),
        (0x4000_0001, 0),
        (0x4000_0002, 0x7FFF_F000),
        (0x4000_0020, 0),
    ] {
        assert_eq!(rt; program.initial_value(cell), value, "cell {cell}");
    }
    assert!(rt; program.input().is_empty());
    assert_eq!(rt; &program.input_hash()[..8], EMPTY_FRONT.as_slice());
    assert_eq!(rt; &program.input_hash()[56..], EMPTY_BACK.as_slice());
    assert!(rt; program.elf_hash() != program.input_hash());
    Ok(())
}

#[test]
fn refuses_what_has_a_fault(rt: HostRuntime) {
    assert_eq!(rt; fault(&[]), 1);
    assert_eq!(rt; fault(&ELF[..51]), 1);
    for (at, byte, number) in [
        (0usize, 0x7F, 0),
        (3, 0, 2),
        (44, 3, 9),
        (52, 3, 10),
        (68, 13, 11),
        (24, 2, 16),
    ] {
        let mut elf = ELF;
        assert!(rt; at < elf.len());
        elf[at] = byte;
        assert_eq!(rt; fault(&elf), number, "byte {at}");
    }
}

/// The header of the record of the program's run on no input, in one shard of three rows.
fn header_of(program: &Program<'_>) -> Header
    ensures { result.version ≡ 1 }
{
    Header {
        version: 1,
        elf: program.elf_hash(),
        input: program.input_hash(),
        size: 3,
        steps: 3,
        shards: 1,
        end: End { kind: 0, code: 42 },
        consumed: 0,
        length: 0,
    }
}

/// The rule by which a front is refused, or 0, or 255 for a refusal elsewhere than at shard 0 and row 0.
fn rule(program: &Program<'_>, file: &[u8]) -> u8 {
    match check_front(program, file) {
        Ok(_) => 0,
        Err(
            Refusal {
                shard: 0,
                row: 0,
                rule,
            },
        ) => rule,
        Err(_) => 255,
    }
}

#[test]
fn a_good_header(rt: HostRuntime) -> Result<(), Fail> {
    let program = Program::open(&ELF, &[])?;
    let header = header_of(&program);
    let file = write_header(&header);
    assert_eq!(rt; check_front(&program, &file), Ok(header));
    assert_eq!(rt; rule(&program, file.get(..172).ok_or("short")?), 1);
    assert_eq!(rt; rule(&program, &[]), 1);
    let other = Program::open(&ELF, &[0])?;
    assert_eq!(rt; rule(&other, &file), 4);
    Ok(())
}

#[test]
fn changed_headers(rt: HostRuntime) -> Result<(), Fail> {
    let program = Program::open(&ELF, &[])?;
    let file = write_header(&header_of(&program));
    for (from, to, broken) in [
        (0usize, 7usize, 2),
        (8, 71, 3),
        (72, 135, 4),
        (138, 139, 5),
        (140, 151, 6),
        (152, 152, 7),
        (165, 167, 1),
        (168, 172, 8),
    ] {
        for at in from..=to {
            let mut changed = file;
            assert!(rt; at < HEADER_BYTES);
            changed[at] ^= 0x80;
            assert_eq!(rt; rule(&program, &changed), broken, "byte {at}");
        }
    }
    Ok(())
}

#[test]
fn the_first_broken_check(rt: HostRuntime) -> Result<(), Fail> {
    let program = Program::open(&ELF, &[])?;
    let mut swapped = header_of(&program);
    let hash = swapped.elf;
    swapped.elf = program.input_hash();
    swapped.input = hash;
    swapped.size = 0;
    assert_eq!(rt; rule(&program, &write_header(&swapped)), 3);
    let mut no_steps = header_of(&program);
    no_steps.steps = 0;
    no_steps.shards = 0;
    assert_eq!(rt; rule(&program, &write_header(&no_steps)), 6);
    let mut with_code = header_of(&program);
    with_code.end = End { kind: 1, code: 42 };
    assert_eq!(rt; rule(&program, &write_header(&with_code)), 7);
    let mut second = header_of(&program);
    second.version = 2;
    assert_eq!(rt; rule(&program, &write_header(&second)), 0);
    let mut with_output = header_of(&program);
    with_output.length = 1;
    assert_eq!(rt; rule(&program, &write_header(&with_output)), 1);
    Ok(())
}
