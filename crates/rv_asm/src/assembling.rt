//! A source into words and symbols.

ghost use Rattle.std.specs.Prelude.{◌≡◌, ◌+◌, ◌^◌, ◌<◌, ◌≤◌, ◌++◌, length, IfOk, IfErr, OnOk};
ghost use Rattle.std.specs.Option.{option_map, option_to_list};
ghost use Rattle.rv_asm.specs.Assembly.{assembly, symbols_of, with_label, line_word as word_of_line, counted as counted_of, is_bad_label as is_bad, IsFaultOf};

use crate::faults::{AsmFault, BYTES, LABEL, TOO_LONG};
use crate::limits::{CODE_START, SOURCE_LIMIT, STATEMENTS_LIMIT};
use crate::lines::{Line, first_line};
use crate::numbers::name;
use crate::statements::statement_word;
use crate::symbols::Symbols;
use rv_base::NoMemory;
use std::alloc::{AllocError, Global};
use std::marker::Model;

/// The words of statements, in their order. Contracts see the list of them.
#[derive(Debug, Drop)]
pub struct Words {
    words: Vec<u32>,
}

impl Model for Words {
    ghost use Rattle.std.specs.Prelude.{ℕ, List, ◌≤◌, length};
    ghost use Rattle.rv_asm.specs.declared.limits.TheConstants.{SOURCE_LIMIT};

    ghost Value = { List ℕ };

    ghost view = { λ w. w.words.items };

    ghost invariant = { λ w. length w.words.items ≤ SOURCE_LIMIT };
}

impl Words {
    /// The words.
    pub fn list(&self) -> &[u32]
        ensures words { result.now ≡ self.now }
        ensures few { length result.now ≤ SOURCE_LIMIT }
    {
        self.words.as_slice()
    }
}

/// The words of a source, from address 0x10000 on, and its labels.
#[derive(Drop)]
pub struct Assembled {
    pub words: Words,
    pub symbols: Symbols,
}

/// Assembles a source of at most 1,048,576 bytes. At comes exactly where it has a fault, and names the first.
pub fn assemble(alloc: Global, source: &[u8]) -> Result<Assembled, AsmFault>
    requires { length source.now ≤ SOURCE_LIMIT }
    ensures words { IfOk result (λ a. assembly source.now ≡ Ok a.words) }
    ensures symbols { IfOk result (λ a. a.symbols ≡ symbols_of source.now) }
    ensures fault { IfErr result (IsFaultOf source.now) }
{
    let symbols = match labels_of(alloc, source) {
        Ok(symbols) => symbols,
        Err(NoMemory) => return Err(AsmFault::NoMemory),
    };
    match words_of(alloc, source, &symbols) {
        Ok(words) => Ok(Assembled {
            words: Words { words },
            symbols,
        }),
        Err(fault) => Err(fault),
    }
}

/// The labels of a source.
#[tactic(auto, unfolding(crate::specs::Assembly::symbols_of, crate::specs::Assembly::symbols_from))]
fn labels_of(alloc: Global, source: &[u8]) -> Result<Symbols, NoMemory>
    requires { length source.now ≤ SOURCE_LIMIT }
    ensures { IfOk result (λ s. s ≡ symbols_of source.now) }
{
    let mut symbols = Symbols::new(alloc);
    let mut number = 1;
    let mut statements = 0;
    let mut rest = source;
    while !rest.is_empty() {
        let (text, behind) = first_line(rest);
        let line = Line::of(text);
        add_label(alloc, &mut symbols, line.label, number, statements)?;
        statements += line.statements();
        number += 1;
        rest = behind;
    }
    Ok(symbols)
}

/// Adds what stands before the first colon of a line, where it is a name.
fn add_label(
    alloc: Global,
    symbols: &mut Symbols,
    label: Option<&[u8]>,
    line: u32,
    statements: u32,
) -> Result<(), NoMemory>
    requires room { length symbols.old + 1 < 2 ^ 32 }
    requires few { statements < 2 ^ 24 }
    ensures added { OnOk result (symbols.new ≡ with_label symbols.old line statements (option_map (λ l. l.now) label.entry)) }
    ensures one { length symbols.new ≤ length symbols.old + 1 }
{
    let Some(label) = label else {
        return Ok(());
    };
    match name(label) {
        Some(name) => symbols.add(alloc, name, line, CODE_START + 4 * statements),
        None => Ok(()),
    }
}

/// The words of a source with these labels.
fn words_of(alloc: Global, source: &[u8], symbols: &Symbols) -> Result<Vec<u32>, AsmFault>
    requires source { length source.now ≤ SOURCE_LIMIT }
    requires symbols { symbols.now ≡ symbols_of source.now }
    ensures words { IfOk result (λ v. assembly source.now ≡ Ok v.items) }
    ensures few { IfOk result (λ v. length v.items ≤ SOURCE_LIMIT) }
    ensures fault { IfErr result (IsFaultOf source.now) }
{
    let mut words = Vec::new(alloc);
    let mut number = 1;
    let mut rest = source;
    while !rest.is_empty() {
        let (text, behind) = first_line(rest);
        let word = match line_word(symbols, number, words.len() as u32, text) {
            Ok(word) => word,
            Err(kind) => return Err(AsmFault::At { line: number, kind }),
        };
        if push_word(&mut words, word).is_err() {
            return Err(AsmFault::NoMemory);
        }
        number += 1;
        rest = behind;
    }
    Ok(words)
}

/// Adds a word, where there is one.
fn push_word(words: &mut Vec<u32>, word: Option<u32>) -> Result<(), AllocError>
    ensures pushed { OnOk result (words.new.items ≡ words.old.items ++ option_to_list word) }
    ensures one { length words.new.items ≤ length words.old.items + 1 }
{
    if let Some(word) = word {
        words.push(word)?;
    }
    Ok(())
}

/// The word of a line, before which so many statements stand, or none where it has no statement, or the least kind of its faults.
#[tactic(auto, unfolding(crate::specs::Assembly::line_word))]
fn line_word(
    symbols: &Symbols,
    number: u32,
    statements: u32,
    text: &[u8],
) -> Result<Option<u32>, u8>
    requires { statements < 2 ^ 24 }
    ensures { result ≡ word_of_line symbols.now number statements text.now }
{
    let line = Line::of(text);
    if !line.is_plain() {
        return Err(BYTES);
    }
    if is_bad_label(symbols, number, line.label) {
        return Err(LABEL);
    }
    if line.statement.is_empty() {
        return Ok(None);
    }
    counted(
        statements,
        statement_word(line.statement, symbols, statements),
    )
}

/// The word of a statement, unless the statement is one too many.
fn counted(statements: u32, word: Result<u32, u8>) -> Result<Option<u32>, u8>
    ensures { result ≡ counted_of statements word }
{
    match word {
        Ok(word) => {
            if statements == STATEMENTS_LIMIT {
                Err(TOO_LONG)
            } else {
                Ok(Some(word))
            }
        }
        Err(kind) => Err(kind),
    }
}

/// Whether a label is no name, or an earlier line has it.
fn is_bad_label(symbols: &Symbols, number: u32, label: Option<&[u8]>) -> bool
    ensures { result ≡ is_bad symbols.now number (option_map (λ l. l.now) label.entry) }
{
    let Some(label) = label else {
        return false;
    };
    match name(label) {
        Some(name) => symbols.is_before(name, number),
        None => true,
    }
}
