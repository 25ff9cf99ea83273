//! The words of statements.

ghost use Rattle.std.specs.Prelude.{◌≡◌, ◌^◌, ◌<◌, true, IfOk};
ghost use Rattle.rv_asm.specs.Symbols.{distance};
ghost use Rattle.rv_asm.specs.Patterns.{in_range as is_in_range};
ghost use Rattle.rv_asm.specs.Statements.{statement_word as word_of_statement, instruction as instruction_of, instruction_word as word_of_instruction, data_word as word_of_data, HasRegisters};
ghost use Rattle.rv_decode.specs.Ranges.{IsEncodable};

use crate::faults::{RANGE, STATEMENT};
use crate::numbers::numeral;
use crate::operands::{Fields, read_fields};
use crate::patterns::{in_range, pattern};
use crate::symbols::Symbols;
use crate::texts::{mnemonic_and_operands, trimmed};
use rv_base::Instr;
use rv_decode::encode;
use rv_text::syntax_of;

/// The greatest number of `.word`.
const LAST_WORD: i128 = 0xFFFF_FFFF;

/// The word of a statement, counted from 0, or the kind of its fault.
#[tactic(auto, unfolding(crate::specs::Statements::statement_word))]
pub(crate) fn statement_word(text: &[u8], symbols: &Symbols, statement: u32) -> Result<u32, u8>
    requires { statement < 2 ^ 24 }
    ensures { result ≡ word_of_statement (distance symbols.now statement) text.now }
{
    let (mnemonic, operands) = mnemonic_and_operands(text);
    if mnemonic == b".word".as_slice() {
        return data_word(numeral(trimmed(operands)));
    }
    match pattern(mnemonic) {
        Some(instr) => {
            let shape = syntax_of(&instr).operands;
            instruction_word(&instr, read_fields(&shape, operands, symbols, statement))
        }
        None => Err(STATEMENT),
    }
}

/// The word of an instruction with these operands.
fn instruction_word(pattern: &Instr, fields: Result<Fields, u8>) -> Result<u32, u8>
    requires { IfOk fields HasRegisters }
    ensures { result ≡ word_of_instruction pattern.now fields }
{
    match fields {
        Ok(fields) => {
            if in_range(pattern, fields.number) {
                Ok(encode(&instruction(pattern, &fields)))
            } else {
                Err(RANGE)
            }
        }
        Err(kind) => Err(kind),
    }
}

fn data_word(number: Result<i128, u8>) -> Result<u32, u8>
    ensures { result ≡ word_of_data number }
{
    match number {
        Ok(number) => {
            if 0 <= number && number <= LAST_WORD {
                Ok(number.unsigned_abs() as u32)
            } else {
                Err(RANGE)
            }
        }
        Err(kind) => Err(kind),
    }
}

/// An instruction with these operands.
#[tactic(auto, unfolding(crate::specs::Statements::instruction, crate::specs::Patterns::in_range))]
fn instruction(pattern: &Instr, fields: &Fields) -> Instr
    requires registers { HasRegisters fields.now }
    requires range { is_in_range pattern.now fields.now.number ≡ true }
    ensures value { result ≡ instruction_of pattern.now fields.now }
    ensures encodable { IsEncodable result }
{
    let Fields {
        first,
        second,
        third,
        number,
    } = *fields;
    match *pattern {
        Instr::Lui { .. } => Instr::Lui {
            rd: first,
            imm: (number.unsigned_abs() as u32) << 12,
        },
        Instr::Auipc { .. } => Instr::Auipc {
            rd: first,
            imm: (number.unsigned_abs() as u32) << 12,
        },
        Instr::Jal { .. } => Instr::Jal {
            rd: first,
            off: number as i32,
        },
        Instr::Jalr { .. } => Instr::Jalr {
            rd: first,
            rs1: second,
            imm: number as i32,
        },
        Instr::Branch { cond, .. } => Instr::Branch {
            cond,
            rs1: first,
            rs2: second,
            off: number as i32,
        },
        Instr::Load { kind, .. } => Instr::Load {
            kind,
            rd: first,
            rs1: second,
            imm: number as i32,
        },
        Instr::Store { kind, .. } => Instr::Store {
            kind,
            rs1: second,
            rs2: first,
            imm: number as i32,
        },
        Instr::OpImm { op, .. } => Instr::OpImm {
            op,
            rd: first,
            rs1: second,
            imm: number as i32,
        },
        Instr::Op { op, .. } => Instr::Op {
            op,
            rd: first,
            rs1: second,
            rs2: third,
        },
        Instr::Fence { .. } => Instr::Fence {
            rd: 0,
            rs1: 0,
            imm: 0,
        },
        Instr::Ecall => Instr::Ecall,
        Instr::Ebreak => Instr::Ebreak,
    }
}
