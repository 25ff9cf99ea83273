//! The instructions of the body, each drawn.

ghost use Rattle.std.specs.Prelude.{◌≡◌, ◌<◌, ◌^◌, ◌*◌, ◌++◌, map, Some, IfOk, slice_index_or};
ghost use Rattle.rv_decode.specs.Ranges.{IsEncodable};
ghost use Rattle.rv_gen.specs.Programs.{register_item as register_item_of, immediate_item as immediate_item_of, upper_item as upper_item_of, load_item as load_item_of, store_item as store_item_of, branch_item as branch_item_of, single_item as single_item_of, load_width as load_width_of, store_width as store_width_of};

use crate::draws::Generator;
use rv_base::{Cond, Instr, LoadKind, Op, StoreKind};

/// The register whose value is the address of the data.
pub const DATA_BASE: u8 = 8;

const OPERATIONS: [Op; 18] = [
    Op::Add,
    Op::Sub,
    Op::Sll,
    Op::Slt,
    Op::Sltu,
    Op::Xor,
    Op::Srl,
    Op::Sra,
    Op::Or,
    Op::And,
    Op::Mul,
    Op::Mulh,
    Op::Mulhsu,
    Op::Mulhu,
    Op::Div,
    Op::Divu,
    Op::Rem,
    Op::Remu,
];

const IMMEDIATE_OPERATIONS: [Op; 6] = [Op::Add, Op::Slt, Op::Sltu, Op::Xor, Op::Or, Op::And];

const LOADS: [LoadKind; 5] = [
    LoadKind::B,
    LoadKind::H,
    LoadKind::W,
    LoadKind::Bu,
    LoadKind::Hu,
];

const STORES: [StoreKind; 3] = [StoreKind::B, StoreKind::H, StoreKind::W];

const CONDITIONS: [Cond; 6] = [Cond::Eq, Cond::Ne, Cond::Lt, Cond::Ge, Cond::Ltu, Cond::Geu];

fn load_width(kind: LoadKind) -> u32
    ensures value { result ≡ load_width_of kind }
    ensures some { 0 < result }
{
    match kind {
        LoadKind::B | LoadKind::Bu => 1,
        LoadKind::H | LoadKind::Hu => 2,
        LoadKind::W => 4,
    }
}

fn store_width(kind: StoreKind) -> u32
    ensures value { result ≡ store_width_of kind }
    ensures some { 0 < result }
{
    match kind {
        StoreKind::B => 1,
        StoreKind::H => 2,
        StoreKind::W => 4,
    }
}

/// An operation on two registers.
fn register_item(draws: &mut Generator) -> Instr
    ensures drawn { (result, draws.new.state) ≡ register_item_of draws.old.state }
    ensures encodable { IsEncodable result }
{
    let op = OPERATIONS[draws.draw(18) as usize];
    let rd = draws.pool();
    let rs1 = draws.pool();
    let rs2 = draws.pool();
    Instr::Op { op, rd, rs1, rs2 }
}

/// An operation on a register and an immediate.
fn immediate_item(draws: &mut Generator) -> Instr
    ensures drawn { (result, draws.new.state) ≡ immediate_item_of draws.old.state }
    ensures encodable { IsEncodable result }
{
    let op = IMMEDIATE_OPERATIONS[draws.draw(6) as usize];
    let rd = draws.pool();
    let rs1 = draws.pool();
    let imm = draws.small();
    Instr::OpImm { op, rd, rs1, imm }
}

fn upper_item(draws: &mut Generator) -> Instr
    ensures drawn { (result, draws.new.state) ≡ upper_item_of draws.old.state }
    ensures encodable { IsEncodable result }
{
    let rd = draws.pool();
    let upper = draws.draw(65_536);
    Instr::Lui {
        rd,
        imm: upper << 12,
    }
}

fn load_item(draws: &mut Generator) -> Instr
    ensures drawn { (result, draws.new.state) ≡ load_item_of draws.old.state }
    ensures encodable { IsEncodable result }
{
    let kind = LOADS[draws.draw(5) as usize];
    let rd = draws.pool();
    let imm = draws.offset(load_width(kind));
    Instr::Load {
        kind,
        rd,
        rs1: DATA_BASE,
        imm,
    }
}

fn store_item(draws: &mut Generator) -> Instr
    ensures drawn { (result, draws.new.state) ≡ store_item_of draws.old.state }
    ensures encodable { IsEncodable result }
{
    let kind = STORES[draws.draw(3) as usize];
    let rs2 = draws.pool();
    let imm = draws.offset(store_width(kind));
    Instr::Store {
        kind,
        rs1: DATA_BASE,
        rs2,
        imm,
    }
}

/// A branch over one word.
fn branch_item(draws: &mut Generator) -> Instr
    ensures drawn { (result, draws.new.state) ≡ branch_item_of draws.old.state }
    ensures encodable { IsEncodable result }
{
    let cond = CONDITIONS[draws.draw(6) as usize];
    let rs1 = draws.pool();
    let rs2 = draws.pool();
    Instr::Branch {
        cond,
        rs1,
        rs2,
        off: 8,
    }
}

/// An item of one instruction.
#[tactic(auto, unfolding(crate::specs::Programs::single_item))]
pub fn single_item(draws: &mut Generator, kind: u32) -> Instr
    ensures drawn { (result, draws.new.state) ≡ single_item_of kind draws.old.state }
    ensures encodable { IsEncodable result }
{
    match kind {
        0..=5 => register_item(draws),
        6..=8 => immediate_item(draws),
        9 => upper_item(draws),
        10..=11 => load_item(draws),
        12..=13 => store_item(draws),
        _ => branch_item(draws),
    }
}
