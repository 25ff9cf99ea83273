//! Instructions as plain data: RISC-V Unprivileged ISA, RV32I and the extensions M and A.
//!
//! Registers are 0 to 31. An immediate or an offset is the value that the instruction adds, sign extended; offsets are in bytes.

/// An operation on two registers, or on a register and an immediate.
#[derive(Clone, Copy, PartialEq, Eq, Debug)]
pub enum Op {
    Add,
    Sub,
    Sll,
    Slt,
    Sltu,
    Xor,
    Srl,
    Sra,
    Or,
    And,
    Mul,
    Mulh,
    Mulhsu,
    Mulhu,
    Div,
    Divu,
    Rem,
    Remu,
}

/// The condition of a branch. Lt and Ge are signed, Ltu and Geu unsigned.
#[derive(Clone, Copy, PartialEq, Eq, Debug)]
pub enum Cond {
    Eq,
    Ne,
    Lt,
    Ge,
    Ltu,
    Geu,
}

/// What a load moves: a byte, a half word or a word. B and H extend the sign, Bu and Hu extend with zeros.
#[derive(Clone, Copy, PartialEq, Eq, Debug)]
pub enum LoadKind {
    B,
    H,
    W,
    Bu,
    Hu,
}

/// What a store moves: the low byte, the low half word or the whole of a register.
#[derive(Clone, Copy, PartialEq, Eq, Debug)]
pub enum StoreKind {
    B,
    H,
    W,
}

/// An instruction of RV32I or M. The immediates of Lui and Auipc have their low 12 bits 0. A Fence keeps the fields that it ignores.
#[derive(Clone, Copy, PartialEq, Eq, Debug)]
pub enum Instr {
    Lui {
        rd: u8,
        imm: u32,
    },
    Auipc {
        rd: u8,
        imm: u32,
    },
    Jal {
        rd: u8,
        off: i32,
    },
    Jalr {
        rd: u8,
        rs1: u8,
        imm: i32,
    },
    Branch {
        cond: Cond,
        rs1: u8,
        rs2: u8,
        off: i32,
    },
    Load {
        kind: LoadKind,
        rd: u8,
        rs1: u8,
        imm: i32,
    },
    Store {
        kind: StoreKind,
        rs1: u8,
        rs2: u8,
        imm: i32,
    },
    OpImm {
        op: Op,
        rd: u8,
        rs1: u8,
        imm: i32,
    },
    Op {
        op: Op,
        rd: u8,
        rs1: u8,
        rs2: u8,
    },
    Fence {
        rd: u8,
        rs1: u8,
        imm: i32,
    },
    Ecall,
    Ebreak,
}

/// LR.W, SC.W and the atomic memory operations.
#[derive(Clone, Copy, PartialEq, Eq, Debug)]
pub enum AtomicOp {
    Lr,
    Sc,
    Swap,
    Add,
    Xor,
    And,
    Or,
    Min,
    Max,
    Minu,
    Maxu,
}

/// An instruction of extension A. The flags are aq (2) and rl (1); rs2 is 0 for Lr.
#[derive(Clone, Copy, PartialEq, Eq, Debug)]
pub struct Atomic {
    pub op: AtomicOp,
    pub rd: u8,
    pub rs1: u8,
    pub rs2: u8,
    pub flags: u8,
}
