//! The operands of a statement.

ghost use Rattle.std.specs.Prelude.{◌≡◌, ◌^◌, ◌<◌, IfOk, IfSome};
ghost use Rattle.std.specs.List.{list_all};
ghost use Rattle.rv_asm.specs.Lines.{is_blank as is_blank_byte};
ghost use Rattle.rv_asm.specs.Symbols.{distance};
ghost use Rattle.rv_asm.specs.Statements.{fields as fields_of_shape, fields_of, target as target_of, first, second, second_of_two, third_of_three, HasRegisters, parenthesized_register as parenthesized_register_of};

use crate::faults::{OPERANDS, UNDEFINED};
use crate::numbers::{name, number, numeral, register};
use crate::symbols::Symbols;
use crate::texts::{cut, is_blank, trimmed};
use rv_text::Operands;

/// The registers of a statement in their order, 0 for each that isn't there, and its number.
#[derive(Clone, Copy, Debug)]
pub struct Fields {
    pub first: u8,
    pub second: u8,
    pub third: u8,
    pub number: i128,
}

/// What operands of a shape spell in a statement, counted from 0; or the kind of their fault.
#[tactic(auto, unfolding(crate::specs::Statements::fields))]
pub(crate) fn read_fields(
    shape: &Operands,
    text: &[u8],
    symbols: &Symbols,
    statement: u32,
) -> Result<Fields, u8>
    requires { statement < 2 ^ 24 }
    ensures value { result ≡ fields_of_shape (distance symbols.now statement) shape.now text.now }
    ensures registers { IfOk result HasRegisters }
{
    match *shape {
        Operands::Upper { .. } => {
            let (rd, upper) = two(text);
            combined(register(rd), Some(0), Some(0), numeral(upper))
        }
        Operands::Jump { .. } => {
            let (rd, to) = two(text);
            combined(
                register(rd),
                Some(0),
                Some(0),
                target(to, symbols, statement),
            )
        }
        Operands::Branch { .. } => {
            let (rs1, rs2, to) = three(text);
            combined(
                register(rs1),
                register(rs2),
                Some(0),
                target(to, symbols, statement),
            )
        }
        Operands::Indexed { .. } => {
            let (r, address) = two(text);
            let (offset, base) = cut(address, b'(');
            combined(
                register(r),
                parenthesized_register(base),
                Some(0),
                numeral(offset),
            )
        }
        Operands::Immediate { .. } => {
            let (rd, rs1, imm) = three(text);
            combined(register(rd), register(rs1), Some(0), numeral(imm))
        }
        Operands::Registers { .. } => {
            let (rd, rs1, rs2) = three(text);
            combined(register(rd), register(rs1), register(rs2), Ok(0))
        }
        Operands::Nothing => {
            if are_blanks(text) {
                combined(Some(0), Some(0), Some(0), Ok(0))
            } else {
                Err(OPERANDS)
            }
        }
        Operands::Reserve { .. } | Operands::Atomic { .. } => Err(OPERANDS),
    }
}

/// Registers and a number, or the kind of the fault of one of them.
fn combined(
    first: Option<u8>,
    second: Option<u8>,
    third: Option<u8>,
    number: Result<i128, u8>,
) -> Result<Fields, u8>
    requires first { IfSome first (λ r. r < 32) }
    requires second { IfSome second (λ r. r < 32) }
    requires third { IfSome third (λ r. r < 32) }
    ensures value { result ≡ fields_of first second third number }
    ensures registers { IfOk result HasRegisters }
{
    match (first, second, third) {
        (Some(first), Some(second), Some(third)) => match number {
            Ok(number) => Ok(Fields {
                first,
                second,
                third,
                number,
            }),
            Err(kind) => Err(kind),
        },
        _ => Err(OPERANDS),
    }
}

/// The two operands of a statement that has two.
fn two(text: &[u8]) -> (&[u8], &[u8])
    ensures first { result.0.now ≡ first text.now }
    ensures second { result.1.now ≡ second_of_two text.now }
{
    let (first, behind) = cut(text, b',');
    (trimmed(first), trimmed(behind))
}

/// The three operands of a statement that has three.
fn three(text: &[u8]) -> (&[u8], &[u8], &[u8])
    ensures first { result.0.now ≡ first text.now }
    ensures second { result.1.now ≡ second text.now }
    ensures third { result.2.now ≡ third_of_three text.now }
{
    let (first, behind) = cut(text, b',');
    let (second, third) = two(behind);
    (trimmed(first), second, third)
}

/// The register before a closing parenthesis at the end.
fn parenthesized_register(text: &[u8]) -> Option<u8>
    ensures value { result ≡ parenthesized_register_of text.now }
    ensures range { IfSome result (λ r. r < 32) }
{
    match text {
        [inside @ .., b')'] => register(inside),
        _ => None,
    }
}

/// A number, or the distance of a label from the statement.
#[tactic(auto, unfolding(crate::specs::Statements::target))]
fn target(text: &[u8], symbols: &Symbols, statement: u32) -> Result<i128, u8>
    requires { statement < 2 ^ 24 }
    ensures { result ≡ target_of (distance symbols.now statement) text.now }
{
    match number(text) {
        Some(n) => Ok(n),
        None => match name(text) {
            Some(name) => symbols.distance(statement, name).ok_or(UNDEFINED),
            None => Err(OPERANDS),
        },
    }
}

fn are_blanks(text: &[u8]) -> bool
    ensures { result ≡ list_all is_blank_byte text.now }
{
    text.iter().all(|byte| is_blank(*byte))
}
