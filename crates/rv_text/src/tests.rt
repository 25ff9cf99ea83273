//! Texts of words, written down from the assembly syntax of the ISA and taken from binutils, and the lines of a record's rows.

use crate::*;
use rv_base::Text;
use rv_file::parse;
use std::alloc::{AllocError, Global};
use std::process::Abort;
use std::test::Fail;

mod binutils;
mod rows;

/// A word of each instruction of RV32I and M.
const WORDS: [(u32, &str); 48] = [
    (0x0001_02B7, "lui x5, 0x10"),
    (0xFFFF_FF97, "auipc x31, 0xfffff"),
    (0x0080_00EF, "jal x1, 8"),
    (0x0022_80E7, "jalr x1, 2(x5)"),
    (0xFE20_8EE3, "beq x1, x2, -4"),
    (0x7E41_9FE3, "bne x3, x4, 4094"),
    (0x8062_C063, "blt x5, x6, -4096"),
    (0x0083_D863, "bge x7, x8, 16"),
    (0x00A4_E163, "bltu x9, x10, 2"),
    (0xFEC5_FFE3, "bgeu x11, x12, -2"),
    (0xFFF2_8303, "lb x6, -1(x5)"),
    (0x0023_1383, "lh x7, 2(x6)"),
    (0x0022_A303, "lw x6, 2(x5)"),
    (0x7FF4_C403, "lbu x8, 2047(x9)"),
    (0x8005_D503, "lhu x10, -2048(x11)"),
    (0xFE62_8FA3, "sb x6, -1(x5)"),
    (0x7E74_1F23, "sh x7, 2046(x8)"),
    (0x0062_A223, "sw x6, 4(x5)"),
    (0x02A0_0513, "addi x10, x0, 42"),
    (0x8001_2093, "slti x1, x2, -2048"),
    (0x7FF2_3193, "sltiu x3, x4, 2047"),
    (0xFFF3_4293, "xori x5, x6, -1"),
    (0x0014_6393, "ori x7, x8, 1"),
    (0x0FF5_7493, "andi x9, x10, 255"),
    (0x01F6_1593, "slli x11, x12, 31"),
    (0x0007_5693, "srli x13, x14, 0"),
    (0x4033_5293, "srai x5, x6, 3"),
    (0x0073_02B3, "add x5, x6, x7"),
    (0x40A4_8433, "sub x8, x9, x10"),
    (0x00D6_15B3, "sll x11, x12, x13"),
    (0x0107_A733, "slt x14, x15, x16"),
    (0x0139_38B3, "sltu x17, x18, x19"),
    (0x016A_CA33, "xor x20, x21, x22"),
    (0x019C_5BB3, "srl x23, x24, x25"),
    (0x41CD_DD33, "sra x26, x27, x28"),
    (0x01FF_6EB3, "or x29, x30, x31"),
    (0x0020_F033, "and x0, x1, x2"),
    (0x0252_01B3, "mul x3, x4, x5"),
    (0x0283_9333, "mulh x6, x7, x8"),
    (0x02B5_24B3, "mulhsu x9, x10, x11"),
    (0x02E6_B633, "mulhu x12, x13, x14"),
    (0x0318_47B3, "div x15, x16, x17"),
    (0x0349_D933, "divu x18, x19, x20"),
    (0x037B_6AB3, "rem x21, x22, x23"),
    (0x03AC_FC33, "remu x24, x25, x26"),
    (0x0FF0_000F, "fence"),
    (0x0000_0073, "ecall"),
    (0x0010_0073, "ebreak"),
];

/// A word of each instruction of extension A.
const ATOMIC_WORDS: [(u32, &str); 11] = [
    (0x1002_A32F, "lr.w x6, (x5)"),
    (0x1862_A3AF, "sc.w x7, x6, (x5)"),
    (0x0821_A0AF, "amoswap.w x1, x2, (x3)"),
    (0x0053_222F, "amoadd.w x4, x5, (x6)"),
    (0x2084_A3AF, "amoxor.w x7, x8, (x9)"),
    (0x60B6_252F, "amoand.w x10, x11, (x12)"),
    (0x40E7_A6AF, "amoor.w x13, x14, (x15)"),
    (0x8119_282F, "amomin.w x16, x17, (x18)"),
    (0xA14A_A9AF, "amomax.w x19, x20, (x21)"),
    (0xC17C_2B2F, "amominu.w x22, x23, (x24)"),
    (0xE1AD_ACAF, "amomaxu.w x25, x26, (x27)"),
];

#[test]
fn a_word_of_each_instruction(rt: HostRuntime) {
    for (word, text) in WORDS {
        assert_eq!(rt; disasm(word).as_str(), text, "at {word:#x}");
        assert!(rt; disasm_atomic(word).is_none(), "at {word:#x}");
    }
}

#[test]
fn a_word_of_each_atomic_instruction(rt: HostRuntime) {
    for (word, text) in ATOMIC_WORDS {
        let shown = disasm_atomic(word).expect(&rt, "an instruction");
        assert_eq!(rt; shown.as_str(), text, "at {word:#x}");
        assert_eq!(rt; disasm(word).as_str(), "illegal", "at {word:#x}");
    }
}

#[test]
fn words_that_are_no_instruction(rt: HostRuntime) {
    for word in [0, 0x0203_1293, 0x0020_0073, 0x1012_A32F, 0xFFFF_FFFF] {
        assert_eq!(rt; disasm(word).as_str(), "illegal", "at {word:#x}");
        assert!(rt; disasm_atomic(word).is_none(), "at {word:#x}");
    }
}
