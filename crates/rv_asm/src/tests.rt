//! Sources with their words, written down from the ISA's listings, and with their faults.

use crate::limits::SOURCE_LIMIT;
use crate::*;
use std::alloc::{AllocError, Global};
use std::process::Abort;
use std::test::Fail;

mod binutils;
mod faults;

/// What a source without a fault is assembled into.
fn assembled(rt: &impl Abort, alloc: Global, source: &[u8]) -> Assembled {
    assert!(rt; source.len() <= SOURCE_LIMIT);
    assemble(alloc, source).expect(rt, "no fault")
}

/// Statements, each alone, with their words.
const STATEMENTS: [(&str, u32); 60] = [
    ("lui x5, 0x10", 0x0001_02B7),
    ("auipc x31, 0xfffff", 0xFFFF_FF97),
    ("jal x1, 8", 0x0080_00EF),
    ("jalr x1, 2(x5)", 0x0022_80E7),
    ("beq x1, x2, -4", 0xFE20_8EE3),
    ("bne x3, x4, 4094", 0x7E41_9FE3),
    ("blt x5, x6, -4096", 0x8062_C063),
    ("bge x7, x8, 16", 0x0083_D863),
    ("bltu x9, x10, 2", 0x00A4_E163),
    ("bgeu x11, x12, -2", 0xFEC5_FFE3),
    ("lb x6, -1(x5)", 0xFFF2_8303),
    ("lh x7, 2(x6)", 0x0023_1383),
    ("lw x6, 2(x5)", 0x0022_A303),
    ("lbu x8, 2047(x9)", 0x7FF4_C403),
    ("lhu x10, -2048(x11)", 0x8005_D503),
    ("sb x6, -1(x5)", 0xFE62_8FA3),
    ("sh x7, 2046(x8)", 0x7E74_1F23),
    ("sw x6, 4(x5)", 0x0062_A223),
    ("addi x10, x0, 42", 0x02A0_0513),
    ("slti x1, x2, -2048", 0x8001_2093),
    ("sltiu x3, x4, 2047", 0x7FF2_3193),
    ("xori x5, x6, -1", 0xFFF3_4293),
    ("ori x7, x8, 1", 0x0014_6393),
    ("andi x9, x10, 255", 0x0FF5_7493),
    ("slli x11, x12, 31", 0x01F6_1593),
    ("srli x13, x14, 0", 0x0007_5693),
    ("srai x5, x6, 3", 0x4033_5293),
    ("add x5, x6, x7", 0x0073_02B3),
    ("sub x8, x9, x10", 0x40A4_8433),
    ("sll x11, x12, x13", 0x00D6_15B3),
    ("slt x14, x15, x16", 0x0107_A733),
    ("sltu x17, x18, x19", 0x0139_38B3),
    ("xor x20, x21, x22", 0x016A_CA33),
    ("srl x23, x24, x25", 0x019C_5BB3),
    ("sra x26, x27, x28", 0x41CD_DD33),
    ("or x29, x30, x31", 0x01FF_6EB3),
    ("and x0, x1, x2", 0x0020_F033),
    ("mul x3, x4, x5", 0x0252_01B3),
    ("mulh x6, x7, x8", 0x0283_9333),
    ("mulhsu x9, x10, x11", 0x02B5_24B3),
    ("mulhu x12, x13, x14", 0x02E6_B633),
    ("div x15, x16, x17", 0x0318_47B3),
    ("divu x18, x19, x20", 0x0349_D933),
    ("rem x21, x22, x23", 0x037B_6AB3),
    ("remu x24, x25, x26", 0x03AC_FC33),
    ("fence", 0x0000_000F),
    ("ecall", 0x0000_0073),
    ("ebreak", 0x0010_0073),
    (".word 4294967295", 0xFFFF_FFFF),
    (".word -0", 0x0000_0000),
    (".word 0xDEADbeef", 0xDEAD_BEEF),
    ("jal x1, -1048576", 0x8000_00EF),
    ("jal x1, 1048574", 0x7FFF_F0EF),
    ("loop: jal x0, loop", 0x0000_006F),
    ("jal x0, end\nend:", 0x0040_006F),
    ("\t ecall \t", 0x0000_0073),
    ("ecall\r\n", 0x0000_0073),
    ("# é\n_a1:ecall# é:", 0x0000_0073),
    ("add\tx5 ,x6,\tx7\t# a: b", 0x0073_02B3),
    ("ecall\n\n", 0x0000_0073),
];

#[test]
fn a_statement_alone(rt: HostRuntime) {
    for (source, word) in STATEMENTS {
        let assembled = assembled(&rt, rt.alloc(), source.as_bytes());
        assert!(rt; assembled.words.list() == [word].as_slice());
    }
}

#[test]
fn a_program_with_its_listing(rt: HostRuntime) -> Result<(), Fail> {
    let source = b"start: addi x10, x0, 42\naddi x17, x0, 93\necall\n";
    let assembled = assembled(&rt, rt.alloc(), source);
    let text = listing(rt.alloc(), &assembled).map_err(|_| AllocError)?;
    assert_eq!(rt;
        text.text(),
        "symbol start 00010000\n00010000 02a00513 addi x10, x0, 42\n00010004 05d00893 addi x17, x0, 93\n00010008 00000073 ecall\n"
    );
    assert_eq!(rt; assembled.symbols.count(), 1);
    let file = executable(rt.alloc(), &assembled.words).map_err(|_| AllocError)?;
    assert_eq!(rt; file.list().len(), 96);
    Ok(())
}

#[test]
fn nothing(rt: HostRuntime) -> Result<(), Fail> {
    let assembled = assembled(&rt, rt.alloc(), b"");
    let text = listing(rt.alloc(), &assembled).map_err(|_| AllocError)?;
    assert_eq!(rt; text.text(), "");
    let file = executable(rt.alloc(), &assembled.words).map_err(|_| AllocError)?;
    assert_eq!(rt; file.list().len(), 84);
    Ok(())
}
