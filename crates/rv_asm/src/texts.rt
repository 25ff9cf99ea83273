//! Parts of texts: between blanks, before and behind a byte.

ghost use Rattle.std.specs.Prelude.{◌≡◌, ◌≤◌, ◌==◌, length, position};
ghost use Rattle.std.specs.List.{prefix_len, suffix_len};
ghost use Rattle.rv_asm.specs.Lines.{is_blank as is_blank_byte, without_leading_blanks as text_without_leading_blanks, without_trailing_blanks as text_without_trailing_blanks, trimmed as trimmed_text, before, behind, mnemonic_text, operands_text};

/// Whether a byte is a space or a tab.
pub(crate) fn is_blank(byte: u8) -> bool
    ensures { result ≡ is_blank_byte byte }
{
    byte == b' ' || byte == b'\t'
}

/// A text without the blanks at its start.
pub(crate) fn without_leading_blanks(text: &[u8]) -> &[u8]
    ensures { result.now ≡ text_without_leading_blanks text.now }
{
    &text[leading_blanks(text)..]
}

fn leading_blanks(text: &[u8]) -> usize
    ensures value { result ≡ prefix_len is_blank_byte text.now }
    ensures bound { result ≤ length text.now }
{
    text.iter().take_while(|byte| is_blank(**byte)).count()
}

/// A text without the blanks at its end.
pub(crate) fn without_trailing_blanks(text: &[u8]) -> &[u8]
    ensures { result.now ≡ text_without_trailing_blanks text.now }
{
    &text[..text.len() - trailing_blanks(text)]
}

fn trailing_blanks(text: &[u8]) -> usize
    ensures value { result ≡ suffix_len is_blank_byte text.now }
    ensures bound { result ≤ length text.now }
{
    text.iter()
        .rev()
        .take_while(|byte| is_blank(**byte))
        .count()
}

/// A text without the blanks at its ends.
#[tactic(auto, unfolding(crate::specs::Lines::trimmed))]
pub(crate) fn trimmed(text: &[u8]) -> &[u8]
    ensures { result.now ≡ trimmed_text text.now }
{
    without_trailing_blanks(without_leading_blanks(text))
}

/// What stands before the first such byte, or all, and what stands behind it, or nothing.
#[tactic(auto, unfolding(crate::specs::Lines::before, crate::specs::Lines::behind))]
pub(crate) fn cut(text: &[u8], byte: u8) -> (&[u8], &[u8])
    ensures before { result.0.now ≡ before byte text.now }
    ensures behind { result.1.now ≡ behind byte text.now }
{
    match place_of(text, byte) {
        Some(at) => (&text[..at], &text[at + 1..]),
        None => (text, &[]),
    }
}

pub(crate) fn place_of(text: &[u8], byte: u8) -> Option<usize>
    ensures { result ≡ position (λ other. other == byte) text.now }
{
    text.iter().position(|other| *other == byte)
}

/// A statement's mnemonic, and what follows the blank behind it.
#[tactic(auto, unfolding(crate::specs::Lines::mnemonic_text, crate::specs::Lines::operands_text))]
pub(crate) fn mnemonic_and_operands(statement: &[u8]) -> (&[u8], &[u8])
    ensures mnemonic { result.0.now ≡ mnemonic_text statement.now }
    ensures operands { result.1.now ≡ operands_text statement.now }
{
    match place_of_blank(statement) {
        Some(at) => (&statement[..at], &statement[at + 1..]),
        None => (statement, &[]),
    }
}

fn place_of_blank(text: &[u8]) -> Option<usize>
    ensures { result ≡ position is_blank_byte text.now }
{
    text.iter().position(|byte| is_blank(*byte))
}
