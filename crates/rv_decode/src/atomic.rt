//! Instruction words of extension A ("A" Standard Extension for Atomic Instructions).

ghost use Rattle.std.specs.Prelude.{◌≡◌, ℕ, ◌*◌, ◌+◌, ◌^◌, ◌<◌, Some, None, IsSome, IfSome};
ghost use Rattle.rv_spec.specs.Decode as isa;
ghost use Rattle.rv_decode.specs.Encoding as format;
ghost use Rattle.rv_decode.specs.Ranges.{IsEncodableAtomic};
ghost use Rattle.rv_decode.specs.Table.{FitsOneRow};

use crate::encoding::r_type;
use crate::fields::{bits, funct3, opcode, rd, rs1, rs2};
use rv_base::{Atomic, AtomicOp};

/// The instruction of extension A that a word spells, or None where no row of the table fits the word.
pub fn decode_atomic(word: u32) -> Option<Atomic>
    ensures row { result ≡ isa.decode_atomic word }
    ensures one_row { FitsOneRow isa.rv32a_table word }
    ensures encodable { IfSome result IsEncodableAtomic }
    ensures apart { IsSome result → isa.decode word ≡ None }
{
    by_fields(word)
}

#[tactic(auto, unfolding(rv_spec::specs::Decode::decode_atomic, rv_spec::specs::Decode::rv32a_table))]
fn by_fields(word: u32) -> Option<Atomic>
    ensures { result ≡ isa.decode_atomic word }
{
    if opcode(word) != 0x2F || funct3(word) != 2 {
        return None;
    }
    let op = match bits(word, 27, 5) {
        0x02 if rs2(word) == 0 => AtomicOp::Lr,
        0x03 => AtomicOp::Sc,
        0x01 => AtomicOp::Swap,
        0x00 => AtomicOp::Add,
        0x04 => AtomicOp::Xor,
        0x0C => AtomicOp::And,
        0x08 => AtomicOp::Or,
        0x10 => AtomicOp::Min,
        0x14 => AtomicOp::Max,
        0x18 => AtomicOp::Minu,
        0x1C => AtomicOp::Maxu,
        _ => return None,
    };
    Some(Atomic {
        op,
        rd: rd(word),
        rs1: rs1(word),
        rs2: rs2(word),
        flags: bits(word, 25, 2) as u8,
    })
}

/// The word that spells an instruction of extension A whose fields are in their ranges.
pub fn encode_atomic(a: &Atomic) -> u32
    requires { IsEncodableAtomic a.now }
    ensures decodes { isa.decode_atomic result ≡ Some a.now }
    ensures own_word { (w : ℕ) → w < 2 ^ 32 → isa.decode_atomic w ≡ Some a.now → result ≡ w }
{
    word_of(a)
}

fn word_of(a: &Atomic) -> u32
    requires { IsEncodableAtomic a.now }
    ensures { result ≡ format.word_of_atomic a.now }
{
    let funct7 = amo_funct5(a.op) * 4 + a.flags as u32;
    r_type(0x2F, a.rd, 2, a.rs1, a.rs2, funct7)
}

fn amo_funct5(op: AtomicOp) -> u32
    ensures value { result ≡ format.amo_funct5 op }
    ensures range { result < 2 ^ 5 }
{
    match op {
        AtomicOp::Lr => 0x02,
        AtomicOp::Sc => 0x03,
        AtomicOp::Swap => 0x01,
        AtomicOp::Add => 0x00,
        AtomicOp::Xor => 0x04,
        AtomicOp::And => 0x0C,
        AtomicOp::Or => 0x08,
        AtomicOp::Min => 0x10,
        AtomicOp::Max => 0x14,
        AtomicOp::Minu => 0x18,
        AtomicOp::Maxu => 0x1C,
    }
}
