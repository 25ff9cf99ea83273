//! What a step finds in the cells.

ghost use Rattle.std.specs.Prelude.{ℕ, List, ◌≡◌, ◌+◌, ◌<◌, Option};
ghost use Rattle.rv_spec.specs.Words.{plus};
ghost use Rattle.rv_spec.specs.Step.{State, fetch_word};
ghost use Rattle.rv_spec.specs.Decode.{decode_any};
ghost use Rattle.rv_rules.specs.Expected.{operand as operand_of};
ghost use Rattle.rv_spec.specs.Visits.{step_uses};
ghost use Rattle.rv_spec.specs.Cells.{value};
ghost use Rattle.rv_rules.specs.Agreement.{IsState};
ghost use Rattle.rv_mem.specs.Contents.{value_at};
ghost use Rattle.rv_isa.specs.HartState.{CellsRepresent};
ghost use Rattle.rv_isa.specs.Decoded.{any_of};
ghost use Rattle.rv_isa.specs.Operands.{word_at, IsBased};
ghost use Rattle.rv_isa.specs.Sees.{Sees};

use crate::abi::{A1, A2};
use crate::accesses::operand;
use crate::decoded::Decoded;
use crate::operands::{Address, Operands};
use crate::step::offset;
use rv_base::Seen;
use rv_base::cells::{REGISTER_CELLS, RESERVATION_CELL};
use rv_mem::Memory;

/// What a step finds: the old value in each slot, and what the word in slot 1 is.
#[derive(Clone, Copy, Debug)]
pub(crate) struct Found {
    pub seen: Seen,
    pub decoded: Decoded,
}

/// What the step at `pc` finds. Its word is decoded once.
#[inline(always)]
pub(crate) fn find(cells: &Memory<'_>, pc: u32) -> Found
    ensures decoded { any_of result.decoded ≡ decode_any cells.now.image.version result.seen.s1 }
    ensures sees { (input : List ℕ) (s : State) → IsState s → CellsRepresent cells.now s → s.version ≡ cells.now.image.version → s.pc ≡ pc → Sees result.seen s (step_uses input s) }
{
    let word = fetch(cells, pc);
    let decoded = Decoded::of_word(cells.version(), word);
    let seen = see(cells, word, decoded);
    Found { seen, decoded }
}

/// The word of the instruction at an address.
#[inline(always)]
fn fetch(cells: &Memory<'_>, pc: u32) -> u32
    ensures { (s : State) → IsState s → CellsRepresent cells.now s → s.pc ≡ pc → result ≡ fetch_word s }
{
    held(cells, pc / 4)
}

/// The old values that the step of a fetched word finds in its slots. A slot that it doesn't use may
/// have any value.
#[inline(always)]
fn see(cells: &Memory<'_>, word: u32, decoded: Decoded) -> Seen
    ensures word { result.s1 ≡ word }
    ensures sees { (input : List ℕ) (s : State) → IsState s → CellsRepresent cells.now s → word ≡ fetch_word s → any_of decoded ≡ decode_any s.version word → Sees result s (step_uses input s) }
{
    let operands = Operands::of_decoded(decoded);
    Seen {
        s1: word,
        s2: register(cells, operands.rs1),
        s3: register(cells, operands.rs2),
        s4: register(cells, A1),
        s5: register(cells, A2),
        s6: addressed(cells, operands.address),
        s7: register(cells, operands.rd),
        s8: held(cells, RESERVATION_CELL),
    }
}

/// The word of memory at an address, if there is one.
#[inline(always)]
fn addressed(cells: &Memory<'_>, address: Option<Address>) -> u32
    ensures { (s : State) → IsState s → CellsRepresent cells.now s → IsBased address → word_at s address < REGISTER_CELLS → result ≡ value s (word_at s address) }
{
    match address {
        Some(address) => held(cells, byte_address(cells, address) / 4),
        None => 0,
    }
}

/// The number of the byte at an address.
#[inline(always)]
fn byte_address(cells: &Memory<'_>, address: Address) -> u32
    ensures { result ≡ plus (operand_of address.base (value_at cells.now (REGISTER_CELLS + address.base))) address.offset }
{
    let base = operand(address.base, register(cells, address.base));
    offset(base, address.offset)
}

/// What a register holds, or 0 for x0.
#[inline(always)]
fn register(cells: &Memory<'_>, register: u8) -> u32
    ensures { result ≡ value_at cells.now (REGISTER_CELLS + register) }
{
    held(cells, REGISTER_CELLS + u32::from(register))
}

/// What a cell holds. A number that is no cell's has 0.
#[inline(always)]
fn held(cells: &Memory<'_>, cell: u32) -> u32
    ensures { result ≡ value_at cells.now cell }
{
    cells.get(cell).0
}
