//! Words as text.

ghost use Rattle.std.specs.Prelude.{◌≡◌, ◌+◌, ◌≤◌, ◌<◌, ◌++◌, ◌∷◌, length, codes, decimal, option_map, false};
ghost use Rattle.std.specs.Fmt.{signed_decimal, digit_glyph};
ghost use Rattle.arrayvec.specs.ArrayString.{array_string_len};
ghost use Rattle.rv_text.specs.Syntax.{form_of, form_text, register, comma, hex, operands_text, behind_mnemonic, parenthesized, disassembly as disassembly_of, atomic_disassembly as atomic_disassembly_of};

use crate::syntax::{MNEMONIC_BYTES, Operands, Syntax, atomic_syntax_of, syntax_of};
use arrayvec::ArrayString;
use rv_decode::{decode, decode_atomic};

/// The bytes that hold the text of any word.
const TEXT_BYTES: usize = 48;

/// The most bytes of the operands, of any numbers.
const OPERANDS_BYTES: usize = 30;

/// The text of a word of RV32I and M: mnemonic and operands, or `illegal` where it is no instruction.
/// Registers are x0 to x31, immediates and offsets signed decimal. No pseudo-instruction is written.
#[tactic(auto, unfolding(crate::specs::Syntax::disassembly))]
pub fn disasm(word: u32) -> ArrayString<48>
    ensures { result.bytes ≡ disassembly_of word }
{
    match decode(word) {
        Some(instr) => written(&syntax_of(&instr)),
        None => written(&Syntax::illegal()),
    }
}

/// The text of a word of extension A, or None where it is no instruction of the extension.
#[tactic(auto, unfolding(crate::specs::Syntax::atomic_disassembly))]
pub fn disasm_atomic(word: u32) -> Option<ArrayString<48>>
    ensures { option_map (λ t. t.bytes) result ≡ atomic_disassembly_of word }
{
    match decode_atomic(word) {
        Some(a) => Some(written(&atomic_syntax_of(&a))),
        None => None,
    }
}

/// Mnemonic and operands.
#[tactic(auto, unfolding(crate::specs::Syntax::form_text))]
fn written(s: &Syntax) -> ArrayString<TEXT_BYTES>
    requires { length s.now.mnemonic.now ≤ MNEMONIC_BYTES }
    ensures { result.bytes ≡ form_text (form_of s.now) }
{
    let mut text = ArrayString::new();
    text.push_str(s.mnemonic);
    push_operands(&mut text, s.operands);
    text
}

/// A blank and the operands, where there are any.
fn push_operands(text: &mut ArrayString<TEXT_BYTES>, operands: Operands)
    requires { array_string_len text.old + OPERANDS_BYTES ≤ TEXT_BYTES }
    ensures { text.new.bytes ≡ text.old.bytes ++ behind_mnemonic operands }
{
    match operands {
        Operands::Upper { rd, upper } => {
            push_first(text, rd);
            push_upper(text, upper);
        }
        Operands::Jump { rd, offset } => {
            push_first(text, rd);
            push_number(text, offset);
        }
        Operands::Branch { rs1, rs2, offset } => {
            push_first(text, rs1);
            push_next(text, rs2);
            push_number(text, offset);
        }
        Operands::Indexed {
            register,
            offset,
            base,
        } => {
            push_first(text, register);
            push_number(text, offset);
            push_base(text, base);
        }
        Operands::Immediate { rd, rs1, imm } => {
            push_first(text, rd);
            push_next(text, rs1);
            push_number(text, imm);
        }
        Operands::Registers { rd, rs1, rs2 } => {
            push_first(text, rd);
            push_next(text, rs1);
            push_next(text, rs2);
        }
        Operands::Reserve { rd, base } => {
            push_first(text, rd);
            text.push_str(", ");
            push_base(text, base);
        }
        Operands::Atomic { rd, rs2, base } => {
            push_first(text, rd);
            push_next(text, rs2);
            text.push_str(", ");
            push_base(text, base);
        }
        Operands::Nothing => {}
    }
}

/// A blank and a register.
fn push_first(text: &mut ArrayString<TEXT_BYTES>, r: u8)
    requires { array_string_len text.old + 5 ≤ TEXT_BYTES }
    ensures bytes { text.new.bytes ≡ text.old.bytes ++ 32 ∷ register r }
    ensures room { array_string_len text.new ≤ array_string_len text.old + 5 }
{
    text.push_str(" ");
    push_register(text, r);
}

/// A register behind another operand.
fn push_next(text: &mut ArrayString<TEXT_BYTES>, r: u8)
    requires { array_string_len text.old + 6 ≤ TEXT_BYTES }
    ensures bytes { text.new.bytes ≡ text.old.bytes ++ comma ++ register r }
    ensures room { array_string_len text.new ≤ array_string_len text.old + 6 }
{
    text.push_str(", ");
    push_register(text, r);
}

/// A register in parentheses.
fn push_base(text: &mut ArrayString<TEXT_BYTES>, r: u8)
    requires { array_string_len text.old + 6 ≤ TEXT_BYTES }
    ensures bytes { text.new.bytes ≡ text.old.bytes ++ parenthesized (register r) }
    ensures room { array_string_len text.new ≤ array_string_len text.old + 6 }
{
    text.push_str("(");
    push_register(text, r);
    text.push_str(")");
}

fn push_register(text: &mut ArrayString<TEXT_BYTES>, r: u8)
    requires { array_string_len text.old + 4 ≤ TEXT_BYTES }
    ensures bytes { text.new.bytes ≡ text.old.bytes ++ register r }
    ensures room { array_string_len text.new ≤ array_string_len text.old + 4 }
{
    text.push_str("x");
    push_decimal(text, r as u32);
}

/// A signed number behind another operand.
fn push_number(text: &mut ArrayString<TEXT_BYTES>, n: i32)
    requires { array_string_len text.old + 13 ≤ TEXT_BYTES }
    ensures bytes { text.new.bytes ≡ text.old.bytes ++ comma ++ signed_decimal n }
    ensures room { array_string_len text.new ≤ array_string_len text.old + 13 }
{
    text.push_str(", ");
    if n < 0 {
        text.push_str("-");
    }
    push_decimal(text, n.unsigned_abs());
}

/// A hexadecimal number behind another operand.
fn push_upper(text: &mut ArrayString<TEXT_BYTES>, n: u32)
    requires { array_string_len text.old + 12 ≤ TEXT_BYTES }
    ensures { text.new.bytes ≡ text.old.bytes ++ comma ++ codes "0x" ++ hex n }
{
    text.push_str(", 0x");
    push_hex(text, n);
}

/// The digits of a number.
fn push_decimal(text: &mut ArrayString<TEXT_BYTES>, n: u32)
    requires { array_string_len text.old + length (decimal n) ≤ TEXT_BYTES }
    ensures { text.new.bytes ≡ text.old.bytes ++ decimal n }
{
    if n >= 10 {
        push_decimal(text, n / 10);
    }
    text.push(digit(n % 10));
}

/// The hexadecimal digits of a number, in lower case and with no leading zeros.
fn push_hex(text: &mut ArrayString<TEXT_BYTES>, n: u32)
    requires { array_string_len text.old + length (hex n) ≤ TEXT_BYTES }
    ensures { text.new.bytes ≡ text.old.bytes ++ hex n }
{
    if n >= 16 {
        push_hex(text, n / 16);
    }
    text.push(digit(n % 16));
}

/// The sign of a digit below 16.
fn digit(d: u32) -> char
    requires { d < 16 }
    ensures value { result ≡ digit_glyph false d }
    ensures ascii { result < 128 }
{
    let d = d as u8;
    if d < 10 {
        (b'0' + d) as char
    } else {
        (b'a' + (d - 10)) as char
    }
}
