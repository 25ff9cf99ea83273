//! The instructions of a source, by their mnemonics, and the ranges of their numbers.

ghost use Rattle.std.specs.Prelude.{◌≡◌, pos, negsuc, bytes_eq};
ghost use Rattle.rv_text.specs.Syntax.{syntax};
ghost use Rattle.rv_asm.specs.Patterns.{pattern as pattern_of, in_range as is_in_range, is_immediate as is_immediate_of, is_even as is_even_number, is_within};

use rv_base::{Cond, Instr, LoadKind, Op, StoreKind};
use rv_text::syntax_of;

/// Each instruction once, with its operands 0.
const PATTERNS: [Instr; 48] = [
    Instr::Lui { rd: 0, imm: 0 },
    Instr::Auipc { rd: 0, imm: 0 },
    Instr::Jal { rd: 0, off: 0 },
    Instr::Jalr {
        rd: 0,
        rs1: 0,
        imm: 0,
    },
    Instr::Branch {
        cond: Cond::Eq,
        rs1: 0,
        rs2: 0,
        off: 0,
    },
    Instr::Branch {
        cond: Cond::Ne,
        rs1: 0,
        rs2: 0,
        off: 0,
    },
    Instr::Branch {
        cond: Cond::Lt,
        rs1: 0,
        rs2: 0,
        off: 0,
    },
    Instr::Branch {
        cond: Cond::Ge,
        rs1: 0,
        rs2: 0,
        off: 0,
    },
    Instr::Branch {
        cond: Cond::Ltu,
        rs1: 0,
        rs2: 0,
        off: 0,
    },
    Instr::Branch {
        cond: Cond::Geu,
        rs1: 0,
        rs2: 0,
        off: 0,
    },
    Instr::Load {
        kind: LoadKind::B,
        rd: 0,
        rs1: 0,
        imm: 0,
    },
    Instr::Load {
        kind: LoadKind::H,
        rd: 0,
        rs1: 0,
        imm: 0,
    },
    Instr::Load {
        kind: LoadKind::W,
        rd: 0,
        rs1: 0,
        imm: 0,
    },
    Instr::Load {
        kind: LoadKind::Bu,
        rd: 0,
        rs1: 0,
        imm: 0,
    },
    Instr::Load {
        kind: LoadKind::Hu,
        rd: 0,
        rs1: 0,
        imm: 0,
    },
    Instr::Store {
        kind: StoreKind::B,
        rs1: 0,
        rs2: 0,
        imm: 0,
    },
    Instr::Store {
        kind: StoreKind::H,
        rs1: 0,
        rs2: 0,
        imm: 0,
    },
    Instr::Store {
        kind: StoreKind::W,
        rs1: 0,
        rs2: 0,
        imm: 0,
    },
    Instr::OpImm {
        op: Op::Add,
        rd: 0,
        rs1: 0,
        imm: 0,
    },
    Instr::OpImm {
        op: Op::Slt,
        rd: 0,
        rs1: 0,
        imm: 0,
    },
    Instr::OpImm {
        op: Op::Sltu,
        rd: 0,
        rs1: 0,
        imm: 0,
    },
    Instr::OpImm {
        op: Op::Xor,
        rd: 0,
        rs1: 0,
        imm: 0,
    },
    Instr::OpImm {
        op: Op::Or,
        rd: 0,
        rs1: 0,
        imm: 0,
    },
    Instr::OpImm {
        op: Op::And,
        rd: 0,
        rs1: 0,
        imm: 0,
    },
    Instr::OpImm {
        op: Op::Sll,
        rd: 0,
        rs1: 0,
        imm: 0,
    },
    Instr::OpImm {
        op: Op::Srl,
        rd: 0,
        rs1: 0,
        imm: 0,
    },
    Instr::OpImm {
        op: Op::Sra,
        rd: 0,
        rs1: 0,
        imm: 0,
    },
    Instr::Op {
        op: Op::Add,
        rd: 0,
        rs1: 0,
        rs2: 0,
    },
    Instr::Op {
        op: Op::Sub,
        rd: 0,
        rs1: 0,
        rs2: 0,
    },
    Instr::Op {
        op: Op::Sll,
        rd: 0,
        rs1: 0,
        rs2: 0,
    },
    Instr::Op {
        op: Op::Slt,
        rd: 0,
        rs1: 0,
        rs2: 0,
    },
    Instr::Op {
        op: Op::Sltu,
        rd: 0,
        rs1: 0,
        rs2: 0,
    },
    Instr::Op {
        op: Op::Xor,
        rd: 0,
        rs1: 0,
        rs2: 0,
    },
    Instr::Op {
        op: Op::Srl,
        rd: 0,
        rs1: 0,
        rs2: 0,
    },
    Instr::Op {
        op: Op::Sra,
        rd: 0,
        rs1: 0,
        rs2: 0,
    },
    Instr::Op {
        op: Op::Or,
        rd: 0,
        rs1: 0,
        rs2: 0,
    },
    Instr::Op {
        op: Op::And,
        rd: 0,
        rs1: 0,
        rs2: 0,
    },
    Instr::Op {
        op: Op::Mul,
        rd: 0,
        rs1: 0,
        rs2: 0,
    },
    Instr::Op {
        op: Op::Mulh,
        rd: 0,
        rs1: 0,
        rs2: 0,
    },
    Instr::Op {
        op: Op::Mulhsu,
        rd: 0,
        rs1: 0,
        rs2: 0,
    },
    Instr::Op {
        op: Op::Mulhu,
        rd: 0,
        rs1: 0,
        rs2: 0,
    },
    Instr::Op {
        op: Op::Div,
        rd: 0,
        rs1: 0,
        rs2: 0,
    },
    Instr::Op {
        op: Op::Divu,
        rd: 0,
        rs1: 0,
        rs2: 0,
    },
    Instr::Op {
        op: Op::Rem,
        rd: 0,
        rs1: 0,
        rs2: 0,
    },
    Instr::Op {
        op: Op::Remu,
        rd: 0,
        rs1: 0,
        rs2: 0,
    },
    Instr::Fence {
        rd: 0,
        rs1: 0,
        imm: 0,
    },
    Instr::Ecall,
    Instr::Ebreak,
];

/// The instruction of a mnemonic, with its operands 0.
pub(crate) fn pattern(mnemonic: &[u8]) -> Option<Instr>
    ensures { result ≡ pattern_of mnemonic.now }
{
    PATTERNS
        .iter()
        .find(|instr| has_mnemonic(instr, mnemonic))
        .copied()
}

fn has_mnemonic(instr: &Instr, mnemonic: &[u8]) -> bool
    ensures { result ≡ bytes_eq (syntax instr.now).mnemonic mnemonic.now }
{
    syntax_of(instr).mnemonic.as_bytes() == mnemonic
}

/// Whether a number is in the range of an instruction's number.
#[tactic(auto, unfolding(crate::specs::Patterns::in_range))]
pub(crate) fn in_range(instr: &Instr, number: i128) -> bool
    ensures { result ≡ is_in_range instr.now number }
{
    match *instr {
        Instr::Lui { .. } | Instr::Auipc { .. } => 0 <= number && number <= 0xF_FFFF,
        Instr::Jal { .. } => { -0x10_0000 <= number && number <= 0xF_FFFE && is_even(number) }
        Instr::Branch { .. } => -0x1000 <= number && number <= 0xFFE && is_even(number),
        Instr::OpImm { op, .. } => is_immediate(op, number),
        _ => is_immediate_12(number),
    }
}

fn is_immediate(op: Op, number: i128) -> bool
    ensures { result ≡ is_immediate_of op number }
{
    match op {
        Op::Sll | Op::Srl | Op::Sra => 0 <= number && number <= 31,
        Op::Add | Op::Slt | Op::Sltu | Op::Xor | Op::Or | Op::And => is_immediate_12(number),
        Op::Sub
        | Op::Mul
        | Op::Mulh
        | Op::Mulhsu
        | Op::Mulhu
        | Op::Div
        | Op::Divu
        | Op::Rem
        | Op::Remu => false,
    }
}

fn is_immediate_12(number: i128) -> bool
    ensures { result ≡ is_within (negsuc 2047) (pos 2047) number }
{
    -0x800 <= number && number <= 0x7FF
}

fn is_even(number: i128) -> bool
    ensures { result ≡ is_even_number number }
{
    number.unsigned_abs() % 2 == 0
}
