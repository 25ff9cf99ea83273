//! Decimal numbers as the command line spells them.

ghost use Rattle.std.specs.Prelude.{◌≡◌, ◌≤◌, true, length, IfSome};
ghost use Rattle.std.specs.Int.{IsInRange};
ghost use Rattle.std.specs.List.{list_all};
ghost use Rattle.rv_commands.specs.CommandLine.{is_digit, is_number as spells_number, decimal_value, number as number_of};

/// The number that the text spells, if it lies from `least` to `most`. A number is `0`, or 1 to 20 digits that don't begin with `0`.
pub fn number(text: &str, least: u32, most: u32) -> Option<u32>
    ensures number { result ≡ number_of least most text.now }
    ensures range { IfSome result (IsInRange least most) }
{
    let digits = text.as_bytes();
    if !is_number(digits) {
        return None;
    }
    let value = value_of(digits);
    if u128::from(least) <= value && value <= u128::from(most) {
        Some(value as u32)
    } else {
        None
    }
}

fn is_number(text: &[u8]) -> bool
    ensures { result ≡ spells_number text.now }
{
    if text.is_empty() || text.len() > 20 {
        return false;
    }
    if !are_digits(text) {
        return false;
    }
    text.len() == 1 || text[0] != b'0'
}

fn are_digits(text: &[u8]) -> bool
    ensures { result ≡ list_all is_digit text.now }
{
    text.iter().all(|byte| 48 <= *byte && *byte <= 57)
}

/// The value of at most 20 digits, which is below 10^20.
fn value_of(digits: &[u8]) -> u128
    requires digits { list_all is_digit digits.now ≡ true }
    requires short { length digits.now ≤ 20 }
    ensures { result ≡ decimal_value digits.now }
{
    let mut value: u128 = 0;
    for digit in digits {
        value = value * 10 + u128::from(*digit - 48);
    }
    value
}
