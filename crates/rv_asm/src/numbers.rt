//! Numbers, names and registers.

ghost use Rattle.std.specs.Prelude.{◌≡◌, ◌≤◌, ◌<◌, ◌^◌, pos, length, Some, None, IfSome, if◌then◌else◌};
ghost use Rattle.std.specs.Option.{option_map};
ghost use Rattle.std.specs.Char.{digit_value as value_of_digit};
ghost use Rattle.std.specs.Str.Parse.{digits_value};
ghost use Rattle.rv_asm.specs.Numbers.{is_decimal as spells_decimal, is_hexadecimal as spells_hexadecimal, decimal_number as decimal_number_of, hexadecimal_number as hexadecimal_number_of, magnitude as magnitude_of, number as number_of, register as register_of, is_letter as is_letter_code, is_name_byte as is_name_code, are_name_bytes as are_name_bytes_of, are_digits as are_digits_of, is_name as spells_name};
ghost use Rattle.rv_asm.specs.Statements.{numeral as numeral_of};

use crate::faults::OPERANDS;

/// The most digits of a decimal number.
const DECIMAL_DIGITS: usize = 20;

/// The most digits of a hexadecimal number.
const HEXADECIMAL_DIGITS: usize = 8;

/// The most bytes of a name.
const NAME_BYTES: usize = 64;

/// How many registers there are.
const REGISTERS: u128 = 32;

/// The number that a text spells: `-` or nothing, and then a decimal number of at most 20 digits without leading
/// zeros, or `0x` and 1 to 8 hexadecimal digits.
#[tactic(auto, unfolding(crate::specs::Numbers::number))]
pub(crate) fn number(text: &[u8]) -> Option<i128>
    ensures { result ≡ number_of text.now }
{
    match text {
        [b'-', digits @ ..] => Some(-signed(magnitude(digits)?)),
        _ => Some(signed(magnitude(text)?)),
    }
}

/// The same, or the kind of a fault of operands.
pub(crate) fn numeral(text: &[u8]) -> Result<i128, u8>
    ensures { result ≡ numeral_of text.now }
{
    number(text).ok_or(OPERANDS)
}

/// The register that a text spells, `x0` to `x31`.
#[tactic(auto, unfolding(crate::specs::Numbers::register))]
pub(crate) fn register(text: &[u8]) -> Option<u8>
    ensures number { result ≡ register_of text.now }
    ensures range { IfSome result (λ r. r < 32) }
{
    let [b'x', digits @ ..] = text else {
        return None;
    };
    let n = decimal_number(digits)?;
    if n < REGISTERS {
        return Some(n as u8);
    }
    None
}

/// The name that a text is: a letter or `_`, and up to 63 letters, digits or `_`.
pub(crate) fn name(text: &[u8]) -> Option<&str>
    ensures { option_map (λ s. s.now) result ≡ (if spells_name text.now then Some text.now else None) }
{
    if is_name(text) {
        str::from_utf8(text).ok()
    } else {
        None
    }
}

fn is_name(text: &[u8]) -> bool
    ensures { result ≡ spells_name text.now }
{
    if text.is_empty() || text.len() > NAME_BYTES {
        return false;
    }
    if !is_letter(text[0]) {
        return false;
    }
    are_name_bytes(text)
}

fn are_name_bytes(text: &[u8]) -> bool
    ensures { result ≡ are_name_bytes_of text.now }
{
    text.iter().all(|byte| is_name_byte(*byte))
}

fn is_letter(byte: u8) -> bool
    ensures { result ≡ is_letter_code byte }
{
    65 <= byte && byte <= 90 || 97 <= byte && byte <= 122 || byte == b'_'
}

fn is_name_byte(byte: u8) -> bool
    ensures { result ≡ is_name_code byte }
{
    is_letter(byte) || 48 <= byte && byte <= 57
}

/// A magnitude as a signed number.
fn signed(n: u128) -> i128
    requires { n < 2 ^ 127 }
    ensures { result ≡ pos n }
{
    n as i128
}

#[tactic(auto, unfolding(crate::specs::Numbers::magnitude))]
fn magnitude(text: &[u8]) -> Option<u128>
    ensures number { result ≡ magnitude_of text.now }
    ensures range { IfSome result (λ n. n < 2 ^ 127) }
{
    match text {
        [b'0', b'x', digits @ ..] => hexadecimal_number(digits),
        _ => decimal_number(text),
    }
}

fn decimal_number(text: &[u8]) -> Option<u128>
    ensures number { result ≡ decimal_number_of text.now }
    ensures range { IfSome result (λ n. n < 2 ^ 127) }
{
    if is_decimal(text) {
        return Some(decimal_value(text));
    }
    None
}

fn hexadecimal_number(text: &[u8]) -> Option<u128>
    ensures number { result ≡ hexadecimal_number_of text.now }
    ensures range { IfSome result (λ n. n < 2 ^ 127) }
{
    if is_hexadecimal(text) {
        return Some(hexadecimal_value(text));
    }
    None
}

fn is_decimal(text: &[u8]) -> bool
    ensures { result ≡ spells_decimal text.now }
{
    if text.is_empty() || text.len() > DECIMAL_DIGITS {
        return false;
    }
    if !are_digits(text, 10) {
        return false;
    }
    text.len() == 1 || text[0] != b'0'
}

fn is_hexadecimal(text: &[u8]) -> bool
    ensures { result ≡ spells_hexadecimal text.now }
{
    if text.is_empty() || text.len() > HEXADECIMAL_DIGITS {
        return false;
    }
    are_digits(text, 16)
}

fn are_digits(text: &[u8], base: u8) -> bool
    ensures { result ≡ are_digits_of base text.now }
{
    text.iter().all(|byte| digit_value(*byte) < base)
}

/// The value of a digit or a letter of either case, or 36.
fn digit_value(byte: u8) -> u8
    ensures value { result ≡ value_of_digit byte }
    ensures range { result ≤ 36 }
{
    match byte {
        b'0'..=b'9' => byte - b'0',
        b'A'..=b'Z' => byte - b'A' + 10,
        b'a'..=b'z' => byte - b'a' + 10,
        _ => 36,
    }
}

/// The value of at most 20 decimal digits. Any other byte counts as a digit up to 36, so the value is less than 64 to the power of their number.
fn decimal_value(digits: &[u8]) -> u128
    requires { length digits.now ≤ DECIMAL_DIGITS }
    ensures value { result ≡ digits_value 10 digits.now }
    ensures range { result < 2 ^ 127 }
{
    let mut value: u128 = 0;
    for digit in digits {
        value = value * 10 + u128::from(digit_value(*digit));
    }
    value
}

/// The same of at most 8 hexadecimal digits.
fn hexadecimal_value(digits: &[u8]) -> u128
    requires { length digits.now ≤ HEXADECIMAL_DIGITS }
    ensures value { result ≡ digits_value 16 digits.now }
    ensures range { result < 2 ^ 127 }
{
    let mut value: u128 = 0;
    for digit in digits {
        value = value * 16 + u128::from(digit_value(*digit));
    }
    value
}
