//! The lines of a source, and what stands on them.

ghost use Rattle.std.specs.Prelude.{◌≡◌, ◌∷◌, ◌<◌, ◌≤◌, ◌==◌, length, if◌then◌else◌};
ghost use Rattle.std.specs.Str.Lines.{lines, strip_carriage_return};
ghost use Rattle.std.specs.List.{list_all};
ghost use Rattle.std.specs.Option.{option_map};
ghost use Rattle.rv_asm.specs.Lines.{code as code_of, is_plain as is_plain_byte, label_text, statement_text};

use crate::texts::{cut, place_of, without_leading_blanks};

/// What stands on a line, before its comment.
#[derive(Clone, Copy, Debug)]
pub(crate) struct Line<'a> {
    /// All of it.
    pub(crate) code: &'a [u8],
    /// What stands before the first colon, but for leading blanks, where there is a colon.
    pub(crate) label: Option<&'a [u8]>,
    /// What follows the colon, or all, but for leading blanks.
    pub(crate) statement: &'a [u8],
}

impl<'a> Line<'a> {
    #[tactic(auto, unfolding(crate::specs::Lines::label_text, crate::specs::Lines::statement_text))]
    pub(crate) fn of(line: &'a [u8]) -> Line<'a>
        ensures code { result.code.now ≡ code_of line.now }
        ensures label { option_map (λ l. l.now) result.label ≡ label_text line.now }
        ensures statement { result.statement.now ≡ statement_text line.now }
    {
        let (code, _) = cut(line, b'#');
        match place_of(code, b':') {
            Some(at) => Line {
                code,
                label: Some(without_leading_blanks(&code[..at])),
                statement: without_leading_blanks(&code[at + 1..]),
            },
            None => Line {
                code,
                label: None,
                statement: without_leading_blanks(code),
            },
        }
    }

    /// How many statements stand on it.
    pub(crate) fn statements(&self) -> u32
        ensures value { result ≡ (if length self.now.statement.now == 0 then 0 else 1) }
        ensures one { result ≤ 1 }
    {
        if self.statement.is_empty() { 0 } else { 1 }
    }

    /// Whether it has only printable ASCII and tabs.
    pub(crate) fn is_plain(&self) -> bool
        ensures { result ≡ list_all is_plain_byte self.now.code.now }
    {
        self.code
            .iter()
            .all(|byte| 32 <= *byte && *byte <= 126 || *byte == 9)
    }
}

/// The first line of a source, without its newline and a carriage return before that, and the source behind it.
pub(crate) fn first_line(source: &[u8]) -> (&[u8], &[u8])
    requires { 0 < length source.now }
    ensures lines { lines source.now ≡ result.0.now ∷ lines result.1.now }
    ensures shorter { length result.1.now < length source.now }
{
    match place_of(source, b'\n') {
        Some(at) => (without_carriage_return(&source[..at]), &source[at + 1..]),
        None => (source, &[]),
    }
}

fn without_carriage_return(line: &[u8]) -> &[u8]
    ensures { result.now ≡ strip_carriage_return line.now }
{
    match line {
        [front @ .., b'\r'] => front,
        _ => line,
    }
}
