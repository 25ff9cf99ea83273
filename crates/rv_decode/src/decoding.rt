//! Words into instructions.
#![tactic(auto, unfolding(rv_spec::specs::Decode::decode, rv_spec::specs::Decode::rv32im_table))]

ghost use Rattle.std.specs.Prelude.{◌≡◌, ◌%◌, IfSome};
ghost use Rattle.rv_decode.specs.Ranges.{IsEncodable};
ghost use Rattle.rv_decode.specs.Table.{FitsOneRow};
ghost use Rattle.rv_spec.specs.Decode as isa;

use crate::fields::{funct3, funct7, imm_b, imm_i, imm_j, imm_s, imm_u, opcode, rd, rs1, rs2};
use rv_base::{Cond, Instr, LoadKind, Op, StoreKind};

/// The instruction of RV32I or M that a word spells ("RV32/64G Instruction Set Listings"),
/// or None where no row of the table fits the word.
// Inlined, so that the step of a machine needs no copy of the instruction.
#[tactic(auto)]
#[inline(always)]
pub fn decode(word: u32) -> Option<Instr>
    ensures row { result ≡ isa.decode word }
    ensures one_row { FitsOneRow isa.rv32im_table word }
    ensures encodable { IfSome result IsEncodable }
{
    by_opcode(word)
}

#[inline(always)]
fn by_opcode(word: u32) -> Option<Instr>
    ensures { result ≡ isa.decode word }
{
    match opcode(word) {
        0x37 => Some(Instr::Lui {
            rd: rd(word),
            imm: imm_u(word),
        }),
        0x17 => Some(Instr::Auipc {
            rd: rd(word),
            imm: imm_u(word),
        }),
        0x6F => Some(Instr::Jal {
            rd: rd(word),
            off: imm_j(word),
        }),
        0x67 => jump_register(word),
        0x63 => branch(word),
        0x03 => load(word),
        0x23 => store(word),
        0x13 => immediate_operation(word),
        0x33 => register_operation(word),
        0x0F => fence(word),
        0x73 => system(word),
        _ => None,
    }
}

fn jump_register(word: u32) -> Option<Instr>
    requires { isa.opcode word ≡ 0x67 }
    ensures { result ≡ isa.decode word }
{
    match funct3(word) {
        0 => Some(Instr::Jalr {
            rd: rd(word),
            rs1: rs1(word),
            imm: imm_i(word),
        }),
        _ => None,
    }
}

fn branch(word: u32) -> Option<Instr>
    requires { isa.opcode word ≡ 0x63 }
    ensures { result ≡ isa.decode word }
{
    let cond = match funct3(word) {
        0 => Cond::Eq,
        1 => Cond::Ne,
        4 => Cond::Lt,
        5 => Cond::Ge,
        6 => Cond::Ltu,
        7 => Cond::Geu,
        _ => return None,
    };
    Some(Instr::Branch {
        cond,
        rs1: rs1(word),
        rs2: rs2(word),
        off: imm_b(word),
    })
}

fn load(word: u32) -> Option<Instr>
    requires { isa.opcode word ≡ 0x03 }
    ensures { result ≡ isa.decode word }
{
    let kind = match funct3(word) {
        0 => LoadKind::B,
        1 => LoadKind::H,
        2 => LoadKind::W,
        4 => LoadKind::Bu,
        5 => LoadKind::Hu,
        _ => return None,
    };
    Some(Instr::Load {
        kind,
        rd: rd(word),
        rs1: rs1(word),
        imm: imm_i(word),
    })
}

fn store(word: u32) -> Option<Instr>
    requires { isa.opcode word ≡ 0x23 }
    ensures { result ≡ isa.decode word }
{
    let kind = match funct3(word) {
        0 => StoreKind::B,
        1 => StoreKind::H,
        2 => StoreKind::W,
        _ => return None,
    };
    Some(Instr::Store {
        kind,
        rs1: rs1(word),
        rs2: rs2(word),
        imm: imm_s(word),
    })
}

fn immediate_operation(word: u32) -> Option<Instr>
    requires { isa.opcode word ≡ 0x13 }
    ensures { result ≡ isa.decode word }
{
    let op = match funct3(word) {
        0 => Op::Add,
        2 => Op::Slt,
        3 => Op::Sltu,
        4 => Op::Xor,
        6 => Op::Or,
        7 => Op::And,
        _ => return shift(word),
    };
    Some(Instr::OpImm {
        op,
        rd: rd(word),
        rs1: rs1(word),
        imm: imm_i(word),
    })
}

fn shift(word: u32) -> Option<Instr>
    requires opcode { isa.opcode word ≡ 0x13 }
    requires funct3 { isa.funct3 word % 4 ≡ 1 }
    ensures { result ≡ isa.decode word }
{
    let op = match (funct3(word), funct7(word)) {
        (1, 0x00) => Op::Sll,
        (5, 0x00) => Op::Srl,
        (5, 0x20) => Op::Sra,
        _ => return None,
    };
    Some(Instr::OpImm {
        op,
        rd: rd(word),
        rs1: rs1(word),
        imm: rs2(word) as i32,
    })
}

fn register_operation(word: u32) -> Option<Instr>
    requires { isa.opcode word ≡ 0x33 }
    ensures { result ≡ isa.decode word }
{
    let op = match (funct7(word), funct3(word)) {
        (0x00, 0) => Op::Add,
        (0x00, 1) => Op::Sll,
        (0x00, 2) => Op::Slt,
        (0x00, 3) => Op::Sltu,
        (0x00, 4) => Op::Xor,
        (0x00, 5) => Op::Srl,
        (0x00, 6) => Op::Or,
        (0x00, 7) => Op::And,
        (0x20, 0) => Op::Sub,
        (0x20, 5) => Op::Sra,
        (0x01, 0) => Op::Mul,
        (0x01, 1) => Op::Mulh,
        (0x01, 2) => Op::Mulhsu,
        (0x01, 3) => Op::Mulhu,
        (0x01, 4) => Op::Div,
        (0x01, 5) => Op::Divu,
        (0x01, 6) => Op::Rem,
        (0x01, 7) => Op::Remu,
        _ => return None,
    };
    Some(Instr::Op {
        op,
        rd: rd(word),
        rs1: rs1(word),
        rs2: rs2(word),
    })
}

fn fence(word: u32) -> Option<Instr>
    requires { isa.opcode word ≡ 0x0F }
    ensures { result ≡ isa.decode word }
{
    match funct3(word) {
        0 => Some(Instr::Fence {
            rd: rd(word),
            rs1: rs1(word),
            imm: imm_i(word),
        }),
        _ => None,
    }
}

fn system(word: u32) -> Option<Instr>
    requires { isa.opcode word ≡ 0x73 }
    ensures { result ≡ isa.decode word }
{
    match word {
        0x0000_0073 => Some(Instr::Ecall),
        0x0010_0073 => Some(Instr::Ebreak),
        _ => None,
    }
}
