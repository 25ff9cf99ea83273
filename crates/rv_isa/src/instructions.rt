//! The expected step of each instruction of RV32I and M.

ghost use Rattle.std.specs.Prelude.{[], ◌≡◌, ◌+◌, ◌/◌, ◌%◌, ◌++◌, ◌<◌, ◌≤◌, length};
ghost use Rattle.std.specs.Int.{w32, cast_unsigned};
ghost use Rattle.arrayvec.specs.ArrayVec.{array_vec_len};
ghost use Rattle.rv_rules.specs.Expected as isa;
ghost use Rattle.rv_spec.specs.Step as spec;
ghost use Rattle.rv_isa.specs.Represented.{AppendsExpected};

use crate::accesses::{Touches, operand};
use crate::environment::call;
use crate::step::{Outcome, Step, offset};
use rv_alu::{compute, extract, merge, taken};
use rv_base::cells::{MEMORY_SLOT, RD_SLOT};
use rv_base::machine::{BREAKPOINT, MISALIGNED_LOAD, MISALIGNED_STORE};
use rv_base::{Instr, LoadKind, StoreKind};

/// The expected step of an instruction.
#[tactic(auto, unfolding(rv_rules::specs::Expected::expected_instr), using(crate::proofs::Made::made))]
#[inline(always)]
pub(crate) fn instruction(step: &Step<'_, '_>, touches: &mut Touches, instr: Instr) -> Outcome
    requires room { array_vec_len touches.old.list ≤ 1 }
    requires within { step.now.at ≤ length step.now.input.now }
    ensures { AppendsExpected (isa.expected_instr step.now.input.now step.now.at step.now.pc instr step.now.seen.now) touches.old.list.items touches.new.list.items result }
{
    match instr {
        Instr::Lui { rd, imm } => step.sets(touches, rd, imm),
        Instr::Auipc { rd, imm } => step.sets(touches, rd, step.pc.wrapping_add(imm)),
        Instr::Jal { rd, off } => step.jumps(touches, offset(step.pc, off), rd),
        Instr::Jalr { rd, rs1, imm } => {
            let sum = step.address(rs1, imm);
            touches.read_one(step.seen, rs1);
            step.jumps(touches, sum - sum % 2, rd)
        }
        Instr::Branch {
            cond,
            rs1,
            rs2,
            off,
        } => {
            let seen = step.seen;
            touches.read_two(seen, rs1, rs2);
            if taken(cond, operand(rs1, seen.s2), operand(rs2, seen.s3)) {
                step.jumps(touches, offset(step.pc, off), 0)
            } else {
                step.goes_on()
            }
        }
        Instr::Load { kind, rd, rs1, imm } => {
            let address = step.address(rs1, imm);
            touches.read_one(step.seen, rs1);
            load(step, touches, kind, rd, address)
        }
        Instr::Store {
            kind,
            rs1,
            rs2,
            imm,
        } => {
            let address = step.address(rs1, imm);
            let value = operand(rs2, step.seen.s3);
            touches.read_two(step.seen, rs1, rs2);
            store(step, touches, kind, address, value)
        }
        Instr::OpImm { op, rd, rs1, imm } => {
            let value = compute(op, operand(rs1, step.seen.s2), imm.cast_unsigned());
            touches.read_one(step.seen, rs1);
            step.sets(touches, rd, value)
        }
        Instr::Op { op, rd, rs1, rs2 } => {
            let seen = step.seen;
            let value = compute(op, operand(rs1, seen.s2), operand(rs2, seen.s3));
            touches.read_two(seen, rs1, rs2);
            step.sets(touches, rd, value)
        }
        Instr::Fence { .. } => step.goes_on(),
        Instr::Ecall => call(step, touches),
        Instr::Ebreak => step.ends(BREAKPOINT, 0),
    }
}

/// The bytes that a load moves.
fn load_width(kind: LoadKind) -> u32
    ensures width { result ≡ spec.load_width kind }
    ensures some { 0 < result }
{
    match kind {
        LoadKind::B | LoadKind::Bu => 1,
        LoadKind::H | LoadKind::Hu => 2,
        LoadKind::W => 4,
    }
}

/// The bytes that a store moves.
fn store_width(kind: StoreKind) -> u32
    ensures width { result ≡ spec.store_width kind }
    ensures some { 0 < result }
{
    match kind {
        StoreKind::B => 1,
        StoreKind::H => 2,
        StoreKind::W => 4,
    }
}

/// A load from an address, after the reads.
#[tactic(auto, using(crate::proofs::Made::lanes))]
#[inline(always)]
fn load(step: &Step<'_, '_>, touches: &mut Touches, kind: LoadKind, rd: u8, address: u32) -> Outcome
    requires { array_vec_len touches.old.list < 7 }
    ensures { AppendsExpected (isa.moves step.now.pc (spec.load_width kind) address MISALIGNED_LOAD [] (isa.touch MEMORY_SLOT (address / 4) step.now.seen.now.s6 ++ isa.on_register RD_SLOT rd (isa.extract kind step.now.seen.now.s6 (address % 4)))) touches.old.list.items touches.new.list.items result }
{
    if address % load_width(kind) != 0 {
        return step.ends(MISALIGNED_LOAD, 0);
    }
    let word = step.seen.s6;
    touches.touch(MEMORY_SLOT, address / 4, word);
    step.sets(touches, rd, extract(kind, word, address % 4))
}

/// A store to an address, after the reads.
#[tactic(auto, using(crate::proofs::Made::lanes))]
#[inline(always)]
fn store(
    step: &Step<'_, '_>,
    touches: &mut Touches,
    kind: StoreKind,
    address: u32,
    value: u32,
) -> Outcome
    requires { array_vec_len touches.old.list < 8 }
    ensures { AppendsExpected (isa.moves step.now.pc (spec.store_width kind) address MISALIGNED_STORE [] (isa.touch MEMORY_SLOT (address / 4) (isa.merge kind step.now.seen.now.s6 (address % 4) value))) touches.old.list.items touches.new.list.items result }
{
    if address % store_width(kind) != 0 {
        return step.ends(MISALIGNED_STORE, 0);
    }
    let word = merge(kind, step.seen.s6, address % 4, value);
    touches.touch(MEMORY_SLOT, address / 4, word);
    step.goes_on()
}
