//! Operations on two register words.

ghost use Rattle.std.specs.Prelude.{◌≡◌, FitsSigned};
ghost use Rattle.std.specs.Int.{w32};
ghost use Rattle.rv_spec.specs.Arithmetic as isa;

use rv_base::{AtomicOp, Cond, Op};

/// The word that an instruction of OP or OP-IMM gives rd, of its two operands
/// ("Integer Computational Instructions" and the M extension).
#[tactic(auto, unfolding(rv_spec::specs::Arithmetic::compute))]
pub fn compute(op: Op, a: u32, b: u32) -> u32
    ensures { result ≡ isa.compute op a b }
{
    match op {
        Op::Add => a.wrapping_add(b),
        Op::Sub => a.wrapping_sub(b),
        Op::Sll => a.wrapping_shl(b),
        Op::Slt => (a.cast_signed() < b.cast_signed()) as u32,
        Op::Sltu => (a < b) as u32,
        Op::Xor => a ^ b,
        Op::Srl => a.wrapping_shr(b),
        Op::Sra => a.cast_signed().wrapping_shr(b).cast_unsigned(),
        Op::Or => a | b,
        Op::And => a & b,
        Op::Mul => a.wrapping_mul(b),
        Op::Mulh => high_word(sign_extended(a) * sign_extended(b)),
        Op::Mulhsu => high_word(sign_extended(a) * b as i64),
        Op::Mulhu => (a as u64 * b as u64 >> 32) as u32,
        Op::Div if b == 0 => u32::MAX,
        Op::Div => (a.cast_signed())
            .wrapping_div(b.cast_signed())
            .cast_unsigned(),
        Op::Divu if b == 0 => u32::MAX,
        Op::Divu => a / b,
        Op::Rem if b == 0 => a,
        Op::Rem => (a.cast_signed())
            .wrapping_rem(b.cast_signed())
            .cast_unsigned(),
        Op::Remu if b == 0 => a,
        Op::Remu => a % b,
    }
}

/// Whether a branch on two register words is taken ("Conditional Branches").
#[tactic(auto, unfolding(rv_spec::specs::Arithmetic::taken))]
pub fn taken(cond: Cond, a: u32, b: u32) -> bool
    ensures { result ≡ isa.taken cond a b }
{
    match cond {
        Cond::Eq => a == b,
        Cond::Ne => a != b,
        Cond::Lt => a.cast_signed() < b.cast_signed(),
        Cond::Ge => a.cast_signed() >= b.cast_signed(),
        Cond::Ltu => a < b,
        Cond::Geu => a >= b,
    }
}

/// The word that an atomic memory operation leaves in memory, of the word that it found there
/// and the word of rs2 (the A extension). LR keeps the word; SC leaves its operand where it succeeds.
#[tactic(auto, unfolding(rv_spec::specs::Arithmetic::amo_result))]
pub fn amo_result(op: AtomicOp, old: u32, operand: u32) -> u32
    ensures { result ≡ isa.amo_result op old operand }
{
    match op {
        AtomicOp::Lr => old,
        AtomicOp::Sc | AtomicOp::Swap => operand,
        AtomicOp::Add => old.wrapping_add(operand),
        AtomicOp::Xor => old ^ operand,
        AtomicOp::And => old & operand,
        AtomicOp::Or => old | operand,
        AtomicOp::Min => (old.cast_signed())
            .min(operand.cast_signed())
            .cast_unsigned(),
        AtomicOp::Max => (old.cast_signed())
            .max(operand.cast_signed())
            .cast_unsigned(),
        AtomicOp::Minu => old.min(operand),
        AtomicOp::Maxu => old.max(operand),
    }
}

/// A register word as a signed number of 64 bits.
fn sign_extended(a: u32) -> i64
    ensures value { result ≡ isa.signed a }
    ensures range { FitsSigned w32 result }
{
    a.cast_signed() as i64
}

/// The upper 32 bits of a product.
fn high_word(product: i64) -> u32
    ensures { result ≡ isa.high_word product }
{
    (product.cast_unsigned() >> 32) as u32
}
