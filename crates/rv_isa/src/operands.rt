//! Where an instruction finds what it uses.

ghost use Rattle.std.specs.Prelude.{ℕ, List, ◌≡◌, ◌<◌};
ghost use Rattle.std.specs.Option.{IfSome};
ghost use Rattle.std.specs.List.{AllByRecursion};
ghost use Rattle.rv_spec.specs.Step.{State};
ghost use Rattle.rv_rules.specs.Agreement.{IsState};
ghost use Rattle.rv_spec.specs.Visits.{uses, atomic_uses, instruction_uses};
ghost use Rattle.rv_isa.specs.Decoded.{any_of};
ghost use Rattle.rv_isa.specs.Operands.{IsBased, IsCovered};
ghost use Rattle.rv_isa.specs.Fields.{HasFields, HasAtomicFields, HasAnyFields};

use crate::abi::{A0, A1, A7};
use crate::decoded::Decoded;
use rv_base::{Atomic, Instr};

/// An address: a register and a signed offset in bytes.
#[derive(Clone, Copy, Debug)]
pub(crate) struct Address {
    pub base: u8,
    pub offset: i32,
}

/// The registers that an instruction may read in slots 2 and 3 and write in slot 7, and the address whose
/// word it may use. x0 stands for none.
#[derive(Clone, Copy, Debug)]
pub(crate) struct Operands {
    pub rs1: u8,
    pub rs2: u8,
    pub rd: u8,
    pub address: Option<Address>,
}

impl Operands {
    /// The operands of a word that is decoded.
    #[inline(always)]
    pub fn of_decoded(decoded: Decoded) -> Operands
        ensures based { IfSome (any_of decoded) HasAnyFields → IsBased result.address }
        ensures covered { (input : List ℕ) (s : State) → IsState s → AllByRecursion (IsCovered result s) (instruction_uses input (any_of decoded) s) }
    {
        match decoded {
            Decoded::Rv32im(instr) => Operands::of_instruction(instr),
            Decoded::Rv32a(instr) => Operands::of_atomic(instr),
            Decoded::Illegal => Operands::of_registers(0, 0, 0),
        }
    }

    #[inline(always)]
    fn of_registers(rs1: u8, rs2: u8, rd: u8) -> Operands
        ensures { result ≡ record { rs1 = rs1; rs2 = rs2; rd = rd; address = None } }
    {
        Operands {
            rs1,
            rs2,
            rd,
            address: None,
        }
    }

    /// The operands of an instruction of RV32I or M.
    #[tactic(auto, unfolding(rv_spec::specs::Visits::uses), using(crate::proofs::Covered::covering))]
    #[inline(always)]
    fn of_instruction(instr: Instr) -> Operands
        ensures based { HasFields instr → IsBased result.address }
        ensures covered { (input : List ℕ) (s : State) → IsState s → AllByRecursion (IsCovered result s) (uses input instr s) }
    {
        match instr {
            Instr::Lui { rd, .. } | Instr::Auipc { rd, .. } | Instr::Jal { rd, .. } => {
                Operands::of_registers(0, 0, rd)
            }
            Instr::Jalr { rd, rs1, .. } | Instr::OpImm { rd, rs1, .. } => {
                Operands::of_registers(rs1, 0, rd)
            }
            Instr::Branch { rs1, rs2, .. } => Operands::of_registers(rs1, rs2, 0),
            Instr::Op { rd, rs1, rs2, .. } => Operands::of_registers(rs1, rs2, rd),
            Instr::Load { rd, rs1, imm, .. } => Operands {
                address: Some(Address {
                    base: rs1,
                    offset: imm,
                }),
                ..Operands::of_registers(rs1, 0, rd)
            },
            Instr::Store { rs1, rs2, imm, .. } => Operands {
                address: Some(Address {
                    base: rs1,
                    offset: imm,
                }),
                ..Operands::of_registers(rs1, rs2, 0)
            },
            Instr::Ecall => Operands {
                address: Some(Address {
                    base: A1,
                    offset: 0,
                }),
                ..Operands::of_registers(A7, A0, A0)
            },
            Instr::Fence { .. } | Instr::Ebreak => Operands::of_registers(0, 0, 0),
        }
    }

    /// The operands of an instruction of extension A.
    #[tactic(auto, unfolding(rv_spec::specs::Visits::atomic_uses), using(crate::proofs::Covered::covering))]
    #[inline(always)]
    fn of_atomic(instr: Atomic) -> Operands
        ensures based { HasAtomicFields instr → IsBased result.address }
        ensures covered { (s : State) → IsState s → AllByRecursion (IsCovered result s) (atomic_uses instr s) }
    {
        Operands {
            address: Some(Address {
                base: instr.rs1,
                offset: 0,
            }),
            ..Operands::of_registers(instr.rs1, instr.rs2, instr.rd)
        }
    }
}
