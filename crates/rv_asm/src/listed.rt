//! What a source was assembled into, as text.

ghost use Rattle.std.specs.Prelude.{◌≡◌, ◌++◌, ◌<◌, ◌≤◌, length, slice_get, string_bytes, Some, IfOk, OnOk};
ghost use Rattle.std.specs.List.{flat_map};
ghost use Rattle.rv_text.specs.Listing.{hex8};
ghost use Rattle.rv_asm.specs.Listing.{listing as listing_of, symbol_line, word_line, word_lines};
ghost use Rattle.rv_asm.specs.Symbols.{Symbol};

use crate::assembling::Assembled;
use crate::limits::{CODE_START, SOURCE_LIMIT};
use crate::symbols::Symbols;
use rv_base::{NoMemory, Text};
use rv_text::disasm;
use std::alloc::{AllocError, Global};
use std::fmt::Write;

/// A line `symbol NAME ADDRESS` for each label, and a line for each word: its address, the word and its disassembly.
/// Addresses and words have eight hexadecimal digits.
pub fn listing(alloc: Global, a: &Assembled) -> Result<Text, NoMemory>
    ensures { IfOk result (λ text. text ≡ listing_of a.now.symbols a.now.words) }
{
    match lines_of(alloc, a) {
        Ok(text) => Ok(Text::of(text)),
        Err(_) => Err(NoMemory),
    }
}

#[tactic(auto, unfolding(crate::specs::Listing::listing))]
fn lines_of(alloc: Global, a: &Assembled) -> Result<String, AllocError>
    ensures { IfOk result (λ text. string_bytes text ≡ listing_of a.now.symbols a.now.words) }
{
    let mut text = String::new(alloc);
    push_symbols(&mut text, &a.symbols)?;
    push_words(&mut text, a.words.list())?;
    Ok(text)
}

fn push_symbols(text: &mut String, symbols: &Symbols) -> Result<(), AllocError>
    ensures { OnOk result (string_bytes text.new ≡ string_bytes text.old ++ flat_map symbol_line symbols.now) }
{
    for j in 0..symbols.count() {
        push_symbol(text, symbols, j)?;
    }
    Ok(())
}

/// The line of label j.
fn push_symbol(text: &mut String, symbols: &Symbols, j: u32) -> Result<(), AllocError>
    requires { j < length symbols.now }
    ensures { (s : Symbol) → slice_get symbols.now j ≡ Some s → OnOk result (string_bytes text.new ≡ string_bytes text.old ++ symbol_line s) }
{
    let address = symbols.address(j);
    text.push_str("symbol ")?;
    text.push_str(symbols.name(j))?;
    text.push_str(" ")?;
    push_hex8(text, address)?;
    text.push_str("\n")?;
    Ok(())
}

fn push_words(text: &mut String, words: &[u32]) -> Result<(), AllocError>
    requires { length words.now ≤ SOURCE_LIMIT }
    ensures { OnOk result (string_bytes text.new ≡ string_bytes text.old ++ word_lines CODE_START words.now) }
{
    let mut address = CODE_START;
    for word in words {
        push_word(text, address, *word)?;
        address += 4;
    }
    Ok(())
}

fn push_word(text: &mut String, address: u32, word: u32) -> Result<(), AllocError>
    ensures { OnOk result (string_bytes text.new ≡ string_bytes text.old ++ word_line address word) }
{
    push_hex8(text, address)?;
    text.push_str(" ")?;
    push_hex8(text, word)?;
    text.push_str(" ")?;
    text.push_str(disasm(word).as_str())?;
    text.push_str("\n")?;
    Ok(())
}

/// Eight hexadecimal digits in lower case.
fn push_hex8(text: &mut String, n: u32) -> Result<(), AllocError>
    ensures { OnOk result (string_bytes text.new ≡ string_bytes text.old ++ hex8 n) }
{
    write!(text, "{n:08x}")
}
