//! Cells as the command line spells them.

ghost use Rattle.std.specs.Prelude.{◌≡◌, ◌<◌, ◌≤◌, true, length, IfSome, IsTrue};
ghost use Rattle.std.specs.List.{list_all};
ghost use Rattle.rv_spec.specs.Cells.{is_cell};
ghost use Rattle.rv_commands.specs.CommandLine.{cell_spelled, hex_digit_value, hex_value as value_of_digits, is_hex_digit as is_digit, register_spelled, word_spelled};

use crate::numbers::number;
use rv_base::cells::REGISTER_CELLS;

/// The number of the last register.
pub const LAST_REGISTER: u32 = 31;

/// The hexadecimal digits of an address.
pub const ADDRESS_DIGITS: usize = 8;

/// The bytes of a word of memory.
pub const WORD_BYTES: u32 = 4;

/// The cell that the text spells: `x1` to `x31` for a register, or `m` and eight hexadecimal digits in lower case for the word of memory
/// at this address, a multiple of 4. The reservation has no spelling.
pub fn cell(text: &str) -> Option<u32>
    ensures cell { result ≡ cell_spelled text.now }
    ensures is_cell { IfSome result (λ c. IsTrue (is_cell 1 c)) }
{
    if let Some(register) = text.strip_prefix('x') {
        return register_cell(register);
    }
    match text.strip_prefix('m') {
        Some(address) => word_cell(address.as_bytes()),
        None => None,
    }
}

/// The cell of the register with this number, from 1 to 31.
fn register_cell(text: &str) -> Option<u32>
    ensures cell { result ≡ register_spelled text.now }
    ensures is_cell { IfSome result (λ c. IsTrue (is_cell 1 c)) }
{
    let register = number(text, 1, LAST_REGISTER)?;
    Some(REGISTER_CELLS + register)
}

/// The cell of the word of memory at this address, if it is one of a word.
fn word_cell(digits: &[u8]) -> Option<u32>
    ensures cell { result ≡ word_spelled digits.now }
    ensures is_cell { IfSome result (λ c. IsTrue (is_cell 1 c)) }
{
    if digits.len() != ADDRESS_DIGITS || !are_hex_digits(digits) {
        return None;
    }
    let address = hex_value(digits);
    if address % WORD_BYTES == 0 {
        Some(address / WORD_BYTES)
    } else {
        None
    }
}

fn are_hex_digits(text: &[u8]) -> bool
    ensures { result ≡ list_all is_digit text.now }
{
    text.iter().all(|byte| is_hex_digit(*byte))
}

fn is_hex_digit(byte: u8) -> bool
    ensures { result ≡ is_digit byte }
{
    matches!(byte, b'0'..=b'9' | b'a'..=b'f')
}

/// The value of eight digits at most, which is below 16^8.
fn hex_value(digits: &[u8]) -> u32
    requires digits { list_all is_digit digits.now ≡ true }
    requires short { length digits.now ≤ ADDRESS_DIGITS }
    ensures { result ≡ value_of_digits digits.now }
{
    let mut value: u64 = 0;
    for byte in digits {
        value = value * 16 + u64::from(digit_value(*byte));
    }
    value as u32
}

/// The value of a digit, below 16.
fn digit_value(byte: u8) -> u8
    requires { is_digit byte ≡ true }
    ensures value { result ≡ hex_digit_value byte }
    ensures below { result < 16 }
{
    match byte {
        b'0'..=b'9' => byte - b'0',
        _ => byte - b'a' + 10,
    }
}
