//! Instructions into words.

ghost use Rattle.std.specs.Prelude.{◌≡◌, ℕ, ◌+◌, ◌*◌, ◌^◌, ◌<◌, pos, Some};
ghost use Rattle.rv_spec.specs.Decode as isa;
ghost use Rattle.rv_decode.specs.Encoding as format;
ghost use Rattle.rv_decode.specs.Ranges.{IsEncodable, IsRegister, IsUpper};

use crate::fields::bits;
use rv_base::{Cond, Instr, LoadKind, Op, StoreKind};

/// The word that spells an instruction of RV32I or M whose fields are in their ranges.
pub fn encode(instr: &Instr) -> u32
    requires { IsEncodable instr.now }
    ensures decodes { isa.decode result ≡ Some instr.now }
    ensures own_word { (w : ℕ) → w < 2 ^ 32 → isa.decode w ≡ Some instr.now → result ≡ w }
{
    word_of(instr)
}

#[tactic(auto, unfolding(crate::specs::Encoding::word_of))]
fn word_of(instr: &Instr) -> u32
    requires { IsEncodable instr.now }
    ensures { result ≡ format.word_of instr.now }
{
    match *instr {
        Instr::Lui { rd, imm } => u_type(0x37, rd, imm),
        Instr::Auipc { rd, imm } => u_type(0x17, rd, imm),
        Instr::Jal { rd, off } => j_type(0x6F, rd, off),
        Instr::Jalr { rd, rs1, imm } => i_type(0x67, rd, 0, rs1, imm),
        Instr::Branch {
            cond,
            rs1,
            rs2,
            off,
        } => b_type(0x63, branch_funct3(cond), rs1, rs2, off),
        Instr::Load { kind, rd, rs1, imm } => i_type(0x03, rd, load_funct3(kind), rs1, imm),
        Instr::Store {
            kind,
            rs1,
            rs2,
            imm,
        } => s_type(0x23, store_funct3(kind), rs1, rs2, imm),
        Instr::OpImm { op, rd, rs1, imm } => {
            i_type(0x13, rd, op_funct3(op), rs1, imm + immediate_mark(op))
        }
        Instr::Op { op, rd, rs1, rs2 } => {
            r_type(0x33, rd, op_funct3(op), rs1, rs2, op_funct7(op))
        }
        Instr::Fence { rd, rs1, imm } => i_type(0x0F, rd, 0, rs1, imm),
        Instr::Ecall => 0x0000_0073,
        Instr::Ebreak => 0x0010_0073,
    }
}

/// A word of the R-type from its fields.
pub fn r_type(opcode: u32, rd: u8, funct3: u32, rs1: u8, rs2: u8, funct7: u32) -> u32
    requires opcode { opcode < 2 ^ 7 }
    requires rd { IsRegister rd }
    requires funct3 { funct3 < 2 ^ 3 }
    requires rs1 { IsRegister rs1 }
    requires rs2 { IsRegister rs2 }
    requires funct7 { funct7 < 2 ^ 7 }
    ensures { result ≡ format.r_type opcode rd funct3 rs1 rs2 funct7 }
{
    opcode
        + ((rd as u32) << 7)
        + (funct3 << 12)
        + ((rs1 as u32) << 15)
        + ((rs2 as u32) << 20)
        + (funct7 << 25)
}

fn i_type(opcode: u32, rd: u8, funct3: u32, rs1: u8, imm: i32) -> u32
    requires opcode { opcode < 2 ^ 7 }
    requires rd { IsRegister rd }
    requires funct3 { funct3 < 2 ^ 3 }
    requires rs1 { IsRegister rs1 }
    ensures { result ≡ format.i_type opcode rd funct3 rs1 imm }
{
    let n = imm.cast_unsigned();
    r_type(opcode, rd, funct3, rs1, (n % 0x20) as u8, bits(n, 5, 7))
}

fn s_type(opcode: u32, funct3: u32, rs1: u8, rs2: u8, imm: i32) -> u32
    requires opcode { opcode < 2 ^ 7 }
    requires funct3 { funct3 < 2 ^ 3 }
    requires rs1 { IsRegister rs1 }
    requires rs2 { IsRegister rs2 }
    ensures { result ≡ format.s_type opcode funct3 rs1 rs2 imm }
{
    let n = imm.cast_unsigned();
    r_type(opcode, (n % 0x20) as u8, funct3, rs1, rs2, bits(n, 5, 7))
}

fn b_type(opcode: u32, funct3: u32, rs1: u8, rs2: u8, off: i32) -> u32
    requires opcode { opcode < 2 ^ 7 }
    requires funct3 { funct3 < 2 ^ 3 }
    requires rs1 { IsRegister rs1 }
    requires rs2 { IsRegister rs2 }
    ensures { result ≡ format.b_type opcode funct3 rs1 rs2 off }
{
    let n = off.cast_unsigned();
    let low = bits(n, 1, 4) * 2 + bits(n, 11, 1);
    let high = bits(n, 12, 1) * 0x40 + bits(n, 5, 6);
    r_type(opcode, low as u8, funct3, rs1, rs2, high)
}

fn u_type(opcode: u32, rd: u8, imm: u32) -> u32
    requires opcode { opcode < 2 ^ 7 }
    requires rd { IsRegister rd }
    requires imm { IsUpper imm }
    ensures { result ≡ format.u_type opcode rd imm }
{
    opcode + ((rd as u32) << 7) + imm
}

fn j_type(opcode: u32, rd: u8, off: i32) -> u32
    requires opcode { opcode < 2 ^ 7 }
    requires rd { IsRegister rd }
    ensures { result ≡ format.j_type opcode rd off }
{
    let n = off.cast_unsigned();
    let low = opcode + ((rd as u32) << 7) + (bits(n, 12, 8) << 12);
    low + (bits(n, 11, 1) << 20) + (bits(n, 1, 10) << 21) + (bits(n, 20, 1) << 31)
}

fn branch_funct3(cond: Cond) -> u32
    ensures value { result ≡ format.branch_funct3 cond }
    ensures range { result < 2 ^ 3 }
{
    match cond {
        Cond::Eq => 0,
        Cond::Ne => 1,
        Cond::Lt => 4,
        Cond::Ge => 5,
        Cond::Ltu => 6,
        Cond::Geu => 7,
    }
}

fn load_funct3(kind: LoadKind) -> u32
    ensures value { result ≡ format.load_funct3 kind }
    ensures range { result < 2 ^ 3 }
{
    match kind {
        LoadKind::B => 0,
        LoadKind::H => 1,
        LoadKind::W => 2,
        LoadKind::Bu => 4,
        LoadKind::Hu => 5,
    }
}

fn store_funct3(kind: StoreKind) -> u32
    ensures value { result ≡ format.store_funct3 kind }
    ensures range { result < 2 ^ 3 }
{
    match kind {
        StoreKind::B => 0,
        StoreKind::H => 1,
        StoreKind::W => 2,
    }
}

fn op_funct3(op: Op) -> u32
    ensures value { result ≡ format.op_funct3 op }
    ensures range { result < 2 ^ 3 }
{
    match op {
        Op::Add | Op::Sub | Op::Mul => 0,
        Op::Sll | Op::Mulh => 1,
        Op::Slt | Op::Mulhsu => 2,
        Op::Sltu | Op::Mulhu => 3,
        Op::Xor | Op::Div => 4,
        Op::Srl | Op::Sra | Op::Divu => 5,
        Op::Or | Op::Rem => 6,
        Op::And | Op::Remu => 7,
    }
}

fn op_funct7(op: Op) -> u32
    ensures value { result ≡ format.op_funct7 op }
    ensures range { result < 2 ^ 7 }
{
    match op {
        Op::Add | Op::Sll | Op::Slt | Op::Sltu | Op::Xor | Op::Srl | Op::Or | Op::And => 0x00,
        Op::Sub | Op::Sra => 0x20,
        Op::Mul | Op::Mulh | Op::Mulhsu | Op::Mulhu | Op::Div | Op::Divu | Op::Rem | Op::Remu =>
            0x01,
    }
}

/// SRAI is told from SRLI by bit 10 of its immediate.
fn immediate_mark(op: Op) -> i32
    ensures { result ≡ pos (format.immediate_mark op) }
{
    match op {
        Op::Sra => 0x400,
        _ => 0,
    }
}
