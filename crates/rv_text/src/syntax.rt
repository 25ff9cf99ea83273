//! The assembly syntax of instructions: mnemonics and the shapes of operands ("RV32/64G Instruction Set Listings").

ghost use Rattle.std.specs.Prelude.{◌≡◌, ◌≤◌, ◌/◌, ◌^◌, length};
ghost use Rattle.rv_base.specs.declared.instr.Instr.TheVariants as instr;
ghost use Rattle.rv_text.specs.declared.syntax.Operands.TheVariants.{Upper, Indexed, Nothing};
ghost use Rattle.rv_text.specs.Syntax.{form, form_of, illegal, syntax, atomic_syntax, branch_mnemonic as branch_mnemonic_of, load_mnemonic as load_mnemonic_of, store_mnemonic as store_mnemonic_of, register_mnemonic as register_mnemonic_of, amo_mnemonic as amo_mnemonic_of, amo_operands as amo_operands_of};

use rv_base::{Atomic, AtomicOp, Cond, Instr, LoadKind, Op, StoreKind};

/// The most bytes of a mnemonic.
pub const MNEMONIC_BYTES: usize = 9;

/// The operands of an instruction, in each of the shapes that they are written in.
#[derive(Clone, Copy, PartialEq, Eq, Debug)]
pub enum Operands {
    /// A register and the upper 20 bits of a word: `x5, 0x10`.
    Upper { rd: u8, upper: u32 },
    /// A register and an offset in bytes: `x1, 8`.
    Jump { rd: u8, offset: i32 },
    /// Two registers and an offset in bytes: `x1, x2, -4`.
    Branch { rs1: u8, rs2: u8, offset: i32 },
    /// A register, and an address as a base and an offset in bytes: `x6, 2(x5)`.
    Indexed { register: u8, offset: i32, base: u8 },
    /// Two registers and an immediate: `x10, x0, 42`.
    Immediate { rd: u8, rs1: u8, imm: i32 },
    /// Three registers: `x5, x6, x7`.
    Registers { rd: u8, rs1: u8, rs2: u8 },
    /// A register, and the register of an address: `x6, (x5)`.
    Reserve { rd: u8, base: u8 },
    /// Two registers, and the register of an address: `x7, x6, (x5)`.
    Atomic { rd: u8, rs2: u8, base: u8 },
    /// No operands.
    Nothing,
}

/// How an instruction is written: its mnemonic, and behind a blank its operands.
#[derive(Clone, Copy, Debug)]
pub struct Syntax {
    pub mnemonic: &'static str,
    pub operands: Operands,
}

impl Syntax {
    /// What is written for a word that is no instruction.
    pub fn illegal() -> Syntax
        ensures { form_of result ≡ illegal }
    {
        Syntax {
            mnemonic: "illegal",
            operands: Operands::Nothing,
        }
    }
}

/// How an instruction of RV32I or M is written. An operation that has no immediate form is no instruction.
#[tactic(auto, unfolding(crate::specs::Syntax::syntax))]
pub fn syntax_of(instr: &Instr) -> Syntax
    ensures exact { form_of result ≡ syntax instr.now }
    ensures short { length result.mnemonic.now ≤ MNEMONIC_BYTES }
{
    match *instr {
        Instr::Lui { rd, imm } => upper("lui", rd, imm),
        Instr::Auipc { rd, imm } => upper("auipc", rd, imm),
        Instr::Jal { rd, off } => Syntax {
            mnemonic: "jal",
            operands: Operands::Jump { rd, offset: off },
        },
        Instr::Jalr { rd, rs1, imm } => indexed("jalr", rd, imm, rs1),
        Instr::Branch {
            cond,
            rs1,
            rs2,
            off,
        } => Syntax {
            mnemonic: branch_mnemonic(cond),
            operands: Operands::Branch {
                rs1,
                rs2,
                offset: off,
            },
        },
        Instr::Load { kind, rd, rs1, imm } => indexed(load_mnemonic(kind), rd, imm, rs1),
        Instr::Store {
            kind,
            rs1,
            rs2,
            imm,
        } => indexed(store_mnemonic(kind), rs2, imm, rs1),
        Instr::OpImm { op, rd, rs1, imm } => immediate_operation(op, rd, rs1, imm),
        Instr::Op { op, rd, rs1, rs2 } => Syntax {
            mnemonic: register_mnemonic(op),
            operands: Operands::Registers { rd, rs1, rs2 },
        },
        Instr::Fence { .. } => bare("fence"),
        Instr::Ecall => bare("ecall"),
        Instr::Ebreak => bare("ebreak"),
    }
}

/// How an instruction of extension A is written. The flags aq and rl aren't.
pub fn atomic_syntax_of(a: &Atomic) -> Syntax
    ensures exact { form_of result ≡ atomic_syntax a.now }
    ensures short { length result.mnemonic.now ≤ MNEMONIC_BYTES }
{
    Syntax {
        mnemonic: amo_mnemonic(a.op),
        operands: amo_operands(a.op, a.rd, a.rs1, a.rs2),
    }
}

fn upper(mnemonic: &'static str, rd: u8, imm: u32) -> Syntax
    ensures { form_of result ≡ form mnemonic.now (Upper rd (imm / 2 ^ 12)) }
{
    Syntax {
        mnemonic,
        operands: Operands::Upper {
            rd,
            upper: imm >> 12,
        },
    }
}

fn indexed(mnemonic: &'static str, register: u8, offset: i32, base: u8) -> Syntax
    ensures { form_of result ≡ form mnemonic.now (Indexed register offset base) }
{
    Syntax {
        mnemonic,
        operands: Operands::Indexed {
            register,
            offset,
            base,
        },
    }
}

fn bare(mnemonic: &'static str) -> Syntax
    ensures { form_of result ≡ form mnemonic.now Nothing }
{
    Syntax {
        mnemonic,
        operands: Operands::Nothing,
    }
}

#[tactic(auto, unfolding(crate::specs::Syntax::syntax))]
fn immediate_operation(op: Op, rd: u8, rs1: u8, imm: i32) -> Syntax
    ensures exact { form_of result ≡ syntax (instr.OpImm op rd rs1 imm) }
    ensures short { length result.mnemonic.now ≤ MNEMONIC_BYTES }
{
    let mnemonic = match op {
        Op::Add => "addi",
        Op::Slt => "slti",
        Op::Sltu => "sltiu",
        Op::Xor => "xori",
        Op::Or => "ori",
        Op::And => "andi",
        Op::Sll => "slli",
        Op::Srl => "srli",
        Op::Sra => "srai",
        _ => return Syntax::illegal(),
    };
    Syntax {
        mnemonic,
        operands: Operands::Immediate { rd, rs1, imm },
    }
}

fn branch_mnemonic(cond: Cond) -> &'static str
    ensures value { result.now ≡ branch_mnemonic_of cond }
    ensures short { length result.now ≤ MNEMONIC_BYTES }
{
    match cond {
        Cond::Eq => "beq",
        Cond::Ne => "bne",
        Cond::Lt => "blt",
        Cond::Ge => "bge",
        Cond::Ltu => "bltu",
        Cond::Geu => "bgeu",
    }
}

fn load_mnemonic(kind: LoadKind) -> &'static str
    ensures value { result.now ≡ load_mnemonic_of kind }
    ensures short { length result.now ≤ MNEMONIC_BYTES }
{
    match kind {
        LoadKind::B => "lb",
        LoadKind::H => "lh",
        LoadKind::W => "lw",
        LoadKind::Bu => "lbu",
        LoadKind::Hu => "lhu",
    }
}

fn store_mnemonic(kind: StoreKind) -> &'static str
    ensures value { result.now ≡ store_mnemonic_of kind }
    ensures short { length result.now ≤ MNEMONIC_BYTES }
{
    match kind {
        StoreKind::B => "sb",
        StoreKind::H => "sh",
        StoreKind::W => "sw",
    }
}

fn register_mnemonic(op: Op) -> &'static str
    ensures value { result.now ≡ register_mnemonic_of op }
    ensures short { length result.now ≤ MNEMONIC_BYTES }
{
    match op {
        Op::Add => "add",
        Op::Sub => "sub",
        Op::Sll => "sll",
        Op::Slt => "slt",
        Op::Sltu => "sltu",
        Op::Xor => "xor",
        Op::Srl => "srl",
        Op::Sra => "sra",
        Op::Or => "or",
        Op::And => "and",
        Op::Mul => "mul",
        Op::Mulh => "mulh",
        Op::Mulhsu => "mulhsu",
        Op::Mulhu => "mulhu",
        Op::Div => "div",
        Op::Divu => "divu",
        Op::Rem => "rem",
        Op::Remu => "remu",
    }
}

fn amo_mnemonic(op: AtomicOp) -> &'static str
    ensures value { result.now ≡ amo_mnemonic_of op }
    ensures short { length result.now ≤ MNEMONIC_BYTES }
{
    match op {
        AtomicOp::Lr => "lr.w",
        AtomicOp::Sc => "sc.w",
        AtomicOp::Swap => "amoswap.w",
        AtomicOp::Add => "amoadd.w",
        AtomicOp::Xor => "amoxor.w",
        AtomicOp::And => "amoand.w",
        AtomicOp::Or => "amoor.w",
        AtomicOp::Min => "amomin.w",
        AtomicOp::Max => "amomax.w",
        AtomicOp::Minu => "amominu.w",
        AtomicOp::Maxu => "amomaxu.w",
    }
}

fn amo_operands(op: AtomicOp, rd: u8, rs1: u8, rs2: u8) -> Operands
    ensures { result ≡ amo_operands_of op rd rs1 rs2 }
{
    match op {
        AtomicOp::Lr => Operands::Reserve { rd, base: rs1 },
        _ => Operands::Atomic { rd, rs2, base: rs1 },
    }
}
