use super::*;
use std::process::Abort;

/// Each word is decoded to its instruction, which fits and is encoded to it.
fn are_spelled<R: Abort>(rt: &R, words: &[(u32, Instr)]) {
    for (word, instr) in words {
        assert_eq!(rt; decode(*word), Some(*instr), "at {word:#x}");
        assert!(rt; fits(instr), "at {word:#x}");
        assert_eq!(rt; encode(instr), *word, "at {word:#x}");
    }
}

#[test]
fn registers_and_upper_immediates(rt: HostRuntime) {
    are_spelled(
        &rt,
        &[
            (
                0x0273_02B3,
                Instr::Op {
                    op: Op::Mul,
                    rd: 5,
                    rs1: 6,
                    rs2: 7,
                },
            ),
            (
                0x0273_42B3,
                Instr::Op {
                    op: Op::Div,
                    rd: 5,
                    rs1: 6,
                    rs2: 7,
                },
            ),
            (
                0x0021_0133,
                Instr::Op {
                    op: Op::Add,
                    rd: 2,
                    rs1: 2,
                    rs2: 2,
                },
            ),
            (
                0x0001_02B7,
                Instr::Lui {
                    rd: 5,
                    imm: 0x1_0000,
                },
            ),
            (0x0000_1297, Instr::Auipc { rd: 5, imm: 0x1000 }),
        ],
    );
}

#[test]
fn jumps_and_branches(rt: HostRuntime) {
    are_spelled(
        &rt,
        &[
            (0xFFDF_F06F, Instr::Jal { rd: 0, off: -4 }),
            (
                0x0020_00E7,
                Instr::Jalr {
                    rd: 1,
                    rs1: 0,
                    imm: 2,
                },
            ),
            (
                0xFE20_8EE3,
                Instr::Branch {
                    cond: Cond::Eq,
                    rs1: 1,
                    rs2: 2,
                    off: -4,
                },
            ),
        ],
    );
}

#[test]
fn loads_and_stores(rt: HostRuntime) {
    are_spelled(
        &rt,
        &[
            (
                0x0022_A303,
                Instr::Load {
                    kind: LoadKind::W,
                    rd: 6,
                    rs1: 5,
                    imm: 2,
                },
            ),
            (
                0xFFF3_0283,
                Instr::Load {
                    kind: LoadKind::B,
                    rd: 5,
                    rs1: 6,
                    imm: -1,
                },
            ),
            (
                0x0062_A223,
                Instr::Store {
                    kind: StoreKind::W,
                    rs1: 5,
                    rs2: 6,
                    imm: 4,
                },
            ),
        ],
    );
}

#[test]
fn immediates_and_the_environment(rt: HostRuntime) {
    are_spelled(
        &rt,
        &[
            (
                0x02A0_0513,
                Instr::OpImm {
                    op: Op::Add,
                    rd: 10,
                    rs1: 0,
                    imm: 42,
                },
            ),
            (
                0x4033_5293,
                Instr::OpImm {
                    op: Op::Sra,
                    rd: 5,
                    rs1: 6,
                    imm: 3,
                },
            ),
            (
                0x0FF0_000F,
                Instr::Fence {
                    rd: 0,
                    rs1: 0,
                    imm: 255,
                },
            ),
            (0x0000_0073, Instr::Ecall),
            (0x0010_0073, Instr::Ebreak),
        ],
    );
}

#[test]
fn words_and_atomics(rt: HostRuntime) {
    for (word, op, rd, rs1, rs2, flags) in [
        (0x1002_A32F, AtomicOp::Lr, 6, 5, 0, 0),
        (0x1862_A3AF, AtomicOp::Sc, 7, 5, 6, 0),
        (0x0663_A2AF, AtomicOp::Add, 5, 7, 6, 3),
    ] {
        let a = Atomic {
            op,
            rd,
            rs1,
            rs2,
            flags,
        };
        assert_eq!(rt; decode_atomic(word), Some(a), "at {word:#x}");
        assert!(rt; fits_atomic(&a), "at {word:#x}");
        assert_eq!(rt; encode_atomic(&a), word, "at {word:#x}");
    }
}

#[test]
fn illegal_words(rt: HostRuntime) {
    for word in [0, 0x0203_1293, 0x0020_0073, 0x1002_A32F, 0xFFFF_FFFF] {
        assert_eq!(rt; decode(word), None, "at {word:#x}");
    }
    assert_eq!(rt; decode_atomic(0x1012_A32F), None);
}
