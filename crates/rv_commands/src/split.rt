//! `split`: cuts a record into parts.

ghost use Rattle.std.specs.Prelude.{◌≡◌, ◌≤◌, IfOk, IfSome, Ok, length, map, string_bytes};
ghost use Rattle.std.specs.Int.{IsInRange};
ghost use Rattle.std.specs.List.{flat_map, range_with_len, zip};
ghost use Rattle.rv_rules.specs.Verdict.{parse as parse_of};
ghost use Rattle.rv_parts.specs.Cutting.{part_bytes};
ghost use Rattle.rv_plan.specs.FileCalls.{Performs, due_of};
ghost use Rattle.rv_commands.specs.CommandLine as command;
ghost use Rattle.rv_commands.specs.Commands.{split_words};
ghost use Rattle.rv_commands.specs.Headline.{Cut};
ghost use Rattle.rv_commands.specs.Outcome.{plan_of};
ghost use Rattle.rv_commands.specs.Parts.{part_name as name_of_part};
ghost use Rattle.rv_commands.specs.Splitting.{CutsFile, WritesParts, cut_bytes, file_bytes, piece_bytes};

use crate::check::tell_verdict;
use crate::commands::Split;
use crate::lines::split_line;
use crate::recording::length as length_of;
use rv_base::limits::RECORD_LIMIT;
use rv_base::{NoMemory, Verdict};
use rv_file::{Parsed, parse};
use rv_host::Shelf;
use rv_parts::{PARTS_LIMIT, PartCut, part_cut, parts_are_the_file};
use rv_plan::{DueFile, Fault, Limited, Told, read_within, write_files};
use std::alloc::Global;

/// Writes the parts of a record of good form, and tells of them. It holds the record, of which the parts are slices. All memory is taken
/// before the first part is touched.
pub fn split<S: Shelf>(alloc: Global, words: &Split<'_>, shelf: &mut S) -> Result<Told, Fault>
    requires { IsInRange 1 PARTS_LIMIT words.now.parts }
    ensures performs { Performs (plan_of (command.split (split_words words.now))) (S.view shelf.old) (S.view shelf.new) result }
    ensures headline { IfOk result (λ told. told.status ≡ 0 → Cut (S.view shelf.old) (S.view shelf.new) (split_words words.now)) }
{
    let file = read_within(alloc, shelf, words.record, RECORD_LIMIT, Limited::Record)?;
    split_file(alloc, shelf, words, file.list())
}

/// Cuts a record file, and writes its parts.
fn split_file<S: Shelf>(
    alloc: Global,
    shelf: &mut S,
    words: &Split<'_>,
    file: &[u8],
) -> Result<Told, Fault>
    requires { IsInRange 1 PARTS_LIMIT words.now.parts }
    ensures { CutsFile (split_words words.now) file.now (S.view shelf.old) (S.view shelf.new) result }
{
    parts_are_the_file();
    let parsed = match parse(file) {
        Ok(parsed) => parsed,
        Err(refusal) => return tell_verdict(alloc, Verdict::Refuse(refusal)),
    };
    if words.parts > parsed.header().shards {
        return Err(Fault::Limit(Limited::Parts));
    }
    let Ok(cuts) = cuts_of(alloc, file, &parsed, words.parts) else {
        return Err(Fault::Memory);
    };
    let Ok(names) = part_names(alloc, words.name, words.parts) else {
        return Err(Fault::Memory);
    };
    let Ok(pieces) = pieces_of(alloc, &cuts) else {
        return Err(Fault::Memory);
    };
    let Ok(files) = files_of(alloc, &names, &pieces) else {
        return Err(Fault::Memory);
    };
    write_parts(alloc, shelf, words.parts, &files)
}

/// The parts of a record file, in order.
fn cuts_of<'a>(
    alloc: Global,
    file: &'a [u8],
    parsed: &Parsed<'a>,
    parts: u32,
) -> Result<Vec<PartCut<'a>>, NoMemory>
    requires parsed { parse_of file.now ≡ Ok parsed.now }
    requires some { IsInRange 1 PARTS_LIMIT parts }
    requires shards { parts ≤ parsed.now.header.shards }
    ensures { IfOk result (λ cuts. map cut_bytes cuts.items ≡ map (part_bytes parsed.now parts) (range_with_len 0 parts)) }
{
    let mut cuts = Vec::new(alloc);
    for number in 0..parts {
        cuts.push(part_cut(file, parsed, parts, number))?;
    }
    Ok(cuts)
}

/// The names of the parts, in order.
fn part_names(alloc: Global, name: &str, parts: u32) -> Result<Vec<String>, NoMemory>
    ensures { IfOk result (λ names. map string_bytes names.items ≡ map (name_of_part name.now) (range_with_len 0 parts)) }
{
    let mut names = Vec::new(alloc);
    for number in 0..parts {
        names.push(part_name(alloc, name, number)?)?;
    }
    Ok(names)
}

/// The name of a part: a name, a full stop, and the part's number.
pub fn part_name(alloc: Global, name: &str, number: u32) -> Result<String, NoMemory>
    ensures { IfOk result (λ text. string_bytes text ≡ name_of_part name.now number) }
{
    let text = format!(in alloc; "{name}.{number}")?;
    Ok(text)
}

/// Head, front and body of a part, to be added by one call each.
fn pieces_in<'b>(cut: &'b PartCut<'b>) -> [&'b [u8]; 3]
    ensures { piece_bytes result ≡ cut_bytes cut.now }
{
    [cut.head.as_slice(), cut.front, cut.body]
}

/// The same of all parts.
fn pieces_of<'b>(alloc: Global, cuts: &'b [PartCut<'b>]) -> Result<Vec<[&'b [u8]; 3]>, NoMemory>
    ensures { IfOk result (λ pieces. map piece_bytes pieces.items ≡ map cut_bytes cuts.now) }
{
    let mut pieces = Vec::new(alloc);
    for cut in cuts {
        pieces.push(pieces_in(cut))?;
    }
    Ok(pieces)
}

/// The files of these names and pieces.
fn files_of<'b>(
    alloc: Global,
    names: &'b [String],
    pieces: &'b [[&'b [u8]; 3]],
) -> Result<Vec<DueFile<'b>>, NoMemory>
    requires { length names.now ≡ length pieces.now }
    ensures { IfOk result (λ files. map due_of files.items ≡ zip (map string_bytes names.now) (map piece_bytes pieces.now)) }
{
    let mut files = Vec::new(alloc);
    for i in 0..names.len() {
        files.push(DueFile {
            name: names[i].as_str(),
            parts: &pieces[i],
        })?;
    }
    Ok(files)
}

/// Writes the parts, and tells how many bytes they have in all. All memory is taken before.
fn write_parts<S: Shelf>(
    alloc: Global,
    shelf: &mut S,
    parts: u32,
    files: &[DueFile<'_>],
) -> Result<Told, Fault>
    ensures { WritesParts parts (map due_of files.now) (S.view shelf.old) (S.view shelf.new) result }
{
    let Some(bytes) = bytes_in(files) else {
        return Err(Fault::Memory);
    };
    let Ok(text) = split_line(alloc, parts, bytes) else {
        return Err(Fault::Memory);
    };
    write_files(shelf, files)?;
    Ok(Told { status: 0, text })
}

/// The number of bytes of all files, where it is below 2^64.
fn bytes_in(files: &[DueFile<'_>]) -> Option<u64>
    ensures { IfSome result (λ bytes. bytes ≡ length (flat_map file_bytes files.now)) }
{
    let mut bytes: u64 = 0;
    for file in files {
        bytes = bytes.checked_add(length_of(file.parts)?)?;
    }
    Some(bytes)
}
