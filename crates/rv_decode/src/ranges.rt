//! Which instructions a word can spell.

ghost use Rattle.std.specs.Prelude.{◌↔◌, IsTrue};
ghost use Rattle.rv_decode.specs.Ranges.{IsEncodable, IsEncodableAtomic, IsImmediate, IsOffset, IsRegister, IsSigned};

use rv_base::{Atomic, AtomicOp, Instr, Op};

/// Whether an instruction of RV32I or M has a word: its registers are 0 to 31 and its immediate is
/// in the range of its format ("Immediate Encoding Variants").
pub fn fits(instr: &Instr) -> bool
    ensures { IsTrue result ↔ IsEncodable instr.now }
{
    match *instr {
        Instr::Lui { rd, imm } => is_register(rd) && imm % 0x1000 == 0,
        Instr::Auipc { rd, imm } => is_register(rd) && imm % 0x1000 == 0,
        Instr::Jal { rd, off } => is_register(rd) && is_jump_offset(off),
        Instr::Jalr { rd, rs1, imm } => are_registers(rd, rs1) && is_immediate_12(imm),
        Instr::Branch { rs1, rs2, off, .. } => are_registers(rs1, rs2) && is_branch_offset(off),
        Instr::Load { rd, rs1, imm, .. } => are_registers(rd, rs1) && is_immediate_12(imm),
        Instr::Store { rs1, rs2, imm, .. } => are_registers(rs1, rs2) && is_immediate_12(imm),
        Instr::OpImm { op, rd, rs1, imm } => are_registers(rd, rs1) && is_immediate(op, imm),
        Instr::Op { rd, rs1, rs2, .. } => are_registers(rd, rs1) && is_register(rs2),
        Instr::Fence { rd, rs1, imm } => are_registers(rd, rs1) && is_immediate_12(imm),
        Instr::Ecall | Instr::Ebreak => true,
    }
}

/// Whether an instruction of extension A has a word: its registers are 0 to 31, its flags 0 to 3,
/// and LR has rs2 0.
pub fn fits_atomic(a: &Atomic) -> bool
    ensures { IsTrue result ↔ IsEncodableAtomic a.now }
{
    are_registers(a.rd, a.rs1)
        && is_register(a.rs2)
        && a.flags < 4
        && (a.op != AtomicOp::Lr || a.rs2 == 0)
}

fn is_register(r: u8) -> bool
    ensures { IsTrue result ↔ IsRegister r }
{
    r < 32
}

fn are_registers(a: u8, b: u8) -> bool
    ensures { IsTrue result ↔ (IsRegister a × IsRegister b) }
{
    is_register(a) && is_register(b)
}

fn is_immediate_12(imm: i32) -> bool
    ensures { IsTrue result ↔ IsSigned 12 imm }
{
    -0x800 <= imm && imm < 0x800
}

fn is_branch_offset(off: i32) -> bool
    ensures { IsTrue result ↔ IsOffset 13 off }
{
    -0x1000 <= off && off < 0x1000 && off % 2 == 0
}

fn is_jump_offset(off: i32) -> bool
    ensures { IsTrue result ↔ IsOffset 21 off }
{
    -0x10_0000 <= off && off < 0x10_0000 && off % 2 == 0
}

fn is_immediate(op: Op, imm: i32) -> bool
    ensures { IsTrue result ↔ IsImmediate op imm }
{
    match op {
        Op::Sll | Op::Srl | Op::Sra => 0 <= imm && imm < 32,
        Op::Add | Op::Slt | Op::Sltu | Op::Xor | Op::Or | Op::And => is_immediate_12(imm),
        Op::Sub
        | Op::Mul
        | Op::Mulh
        | Op::Mulhsu
        | Op::Mulhu
        | Op::Div
        | Op::Divu
        | Op::Rem
        | Op::Remu => false,
    }
}
