//! The words of a program.

ghost use Rattle.std.specs.Prelude.{◌≡◌, ℕ, ◌+◌, ◌*◌, ◌-◌, ◌/◌, ◌^◌, ◌<◌, ◌≤◌, ℤ, pos, neg_ℤ, List, [], ◌∷◌, ◌++◌, length, map, Some, IfOk, OnOk};
ghost use Rattle.rv_base.specs.declared.instr.Instr.TheVariants as instr;
ghost use Rattle.rv_base.specs.declared.instr.Op.TheVariants as op;
ghost use Rattle.rv_decode.specs.Ranges.{IsEncodable, IsOffset, IsRegister, IsSigned};
ghost use Rattle.rv_gen.specs.Programs.{li as li_of, call_item as call_item_of, item as item_of, items as items_of, word as word_of, filled as filled_of, front as front_of, back as back_of, code as code_of};
ghost use Rattle.rv_gen.specs.Words.{decoded, Adds, AddsDrawn};

use crate::draws::{Generator, POOL_REGISTERS, POOL_START};
use crate::items::{DATA_BASE, single_item};
use rv_base::machine::{EXIT_CALL, READ};
use rv_base::{Cond, Instr, Op};
use rv_decode::encode;
use std::alloc::{AllocError, Global};

/// The address of the data, whose upper bits x8 takes.
const DATA_START: u32 = 0x2_0000;

/// The register that counts the rounds.
const ROUNDS_REGISTER: u8 = 9;

/// The items of the body.
const ITEMS: u32 = 32;

/// The words of a program that loops this many times over a drawn body.
pub fn code(alloc: Global, draws: &mut Generator, rounds: u32) -> Result<Vec<u32>, AllocError>
    requires { rounds ≤ 2000 }
    ensures drawn { IfOk result (λ v. AddsDrawn (code_of rounds) draws.old.state draws.new.state [] v.items) }
    ensures few { IfOk result (λ v. length v.items ≤ 200) }
{
    let mut code = Vec::new(alloc);
    push_front(&mut code, rounds)?;
    push_words(draws, &mut code)?;
    let start = code.len();
    push_items(draws, &mut code)?;
    let body = (code.len() - start) as u32;
    push_back(&mut code, body)?;
    Ok(code)
}

/// Appends the word of an instruction.
fn push(code: &mut Vec<u32>, instr: Instr) -> Result<(), AllocError>
    requires { IsEncodable instr }
    ensures { OnOk result (Adds (instr ∷ []) code.old.items code.new.items) }
{
    code.push(encode(&instr))?;
    Ok(())
}

/// `rd = imm`.
fn load_immediate(rd: u8, imm: i32) -> Instr
    requires register { IsRegister rd }
    requires immediate { IsSigned 12 imm }
    ensures value { result ≡ li_of rd imm }
    ensures encodable { IsEncodable result }
{
    Instr::OpImm {
        op: Op::Add,
        rd,
        rs1: 0,
        imm,
    }
}

/// `rd = rd + imm`.
fn add_immediate(rd: u8, rs1: u8, imm: i32) -> Instr
    requires register { IsRegister rd }
    requires source { IsRegister rs1 }
    requires immediate { IsSigned 12 imm }
    ensures value { result ≡ instr.OpImm op.Add rd rs1 imm }
    ensures encodable { IsEncodable result }
{
    Instr::OpImm {
        op: Op::Add,
        rd,
        rs1,
        imm,
    }
}

/// A call of `read` or `write` with four bytes of the data.
fn push_call(draws: &mut Generator, code: &mut Vec<u32>) -> Result<(), AllocError>
    ensures { OnOk result (AddsDrawn call_item_of draws.old.state draws.new.state code.old.items code.new.items) }
{
    let call = draws.draw(2);
    let at = draws.draw(2048);
    push(code, load_immediate(17, (READ + call) as i32))?;
    push(code, load_immediate(10, call as i32))?;
    push(code, add_immediate(11, DATA_BASE, at as i32))?;
    push(code, load_immediate(12, 4))?;
    push(code, Instr::Ecall)?;
    Ok(())
}

/// An item of the body.
fn push_item(draws: &mut Generator, code: &mut Vec<u32>) -> Result<(), AllocError>
    ensures { OnOk result (AddsDrawn item_of draws.old.state draws.new.state code.old.items code.new.items) }
{
    let kind = draws.draw(16);
    if kind == 15 {
        push_call(draws, code)
    } else {
        push(code, single_item(draws, kind))
    }
}

/// The items of the body.
fn push_items(draws: &mut Generator, code: &mut Vec<u32>) -> Result<(), AllocError>
    ensures { OnOk result (AddsDrawn (items_of ITEMS) draws.old.state draws.new.state code.old.items code.new.items) }
{
    for _ in 0..ITEMS {
        push_item(draws, code)?;
    }
    Ok(())
}

/// Fills a register with a drawn word.
fn push_word(draws: &mut Generator, code: &mut Vec<u32>, r: u8) -> Result<(), AllocError>
    requires { IsRegister r }
    ensures { OnOk result (AddsDrawn (word_of r) draws.old.state draws.new.state code.old.items code.new.items) }
{
    let upper = draws.draw(65_536);
    let low = draws.small();
    push(
        code,
        Instr::Lui {
            rd: r,
            imm: upper << 12,
        },
    )?;
    push(code, add_immediate(r, r, low))
}

/// Fills the registers of the pool with drawn words.
fn push_words(draws: &mut Generator, code: &mut Vec<u32>) -> Result<(), AllocError>
    ensures { OnOk result (AddsDrawn (filled_of 10 18) draws.old.state draws.new.state code.old.items code.new.items) }
{
    for r in POOL_START..POOL_START + POOL_REGISTERS {
        push_word(draws, code, r)?;
    }
    Ok(())
}

/// The data's base, and the number of rounds.
fn push_front(code: &mut Vec<u32>, rounds: u32) -> Result<(), AllocError>
    requires { rounds ≤ 2000 }
    ensures { OnOk result (Adds (front_of rounds) code.old.items code.new.items) }
{
    push(
        code,
        Instr::Lui {
            rd: DATA_BASE,
            imm: DATA_START,
        },
    )?;
    push(code, load_immediate(ROUNDS_REGISTER, rounds as i32))
}

/// From the branch back to the first of a body of some words, in bytes.
fn loop_offset(body: u32) -> i32
    requires { body ≤ 1000 }
    ensures value { result ≡ neg_ℤ (pos (4 * (body + 2))) }
    ensures range { IsOffset 13 result }
{
    -((4 * (body + 2)) as i32)
}

/// The next round, behind a body of some words, and the exit.
fn push_back(code: &mut Vec<u32>, body: u32) -> Result<(), AllocError>
    requires { body ≤ 1000 }
    ensures { OnOk result (Adds (back_of body) code.old.items code.new.items) }
{
    push(
        code,
        Instr::Fence {
            rd: 0,
            rs1: 0,
            imm: 0,
        },
    )?;
    push(code, add_immediate(ROUNDS_REGISTER, ROUNDS_REGISTER, -1))?;
    push(
        code,
        Instr::Branch {
            cond: Cond::Ne,
            rs1: ROUNDS_REGISTER,
            rs2: 0,
            off: loop_offset(body),
        },
    )?;
    push(code, load_immediate(10, 0))?;
    push(code, load_immediate(17, EXIT_CALL as i32))?;
    push(code, Instr::Ecall)
}
