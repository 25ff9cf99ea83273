//! Whole record files.

ghost use Rattle.std.specs.Prelude.{◌≡◌, ◌+◌, ◌-◌, ◌≤◌, ◌++◌, false, ◌∷◌, [], length, take, drop, bytes_eq, IfOk, MatchResult, Ok, Err, nat_le, option_copied, option_map, slice_get};
ghost use Rattle.std.specs.List.{flat_map};
ghost use Rattle.rv_spec.specs.Record.{Parts, magic, shard_bytes, table_bytes};
ghost use Rattle.rv_spec.specs.Grammar.{PartsFit, Spells};
ghost use Rattle.rv_rules.specs.Sums.{tiny_lanes};
ghost use Rattle.rv_rules.specs.Reading.{header_of, header_checks, head_of, entry_of};
ghost use Rattle.rv_rules.specs.Checks.{first_broken, unless_broken};
ghost use Rattle.rv_rules.specs.Verdict.{parse as parse_of};
ghost use Rattle.rv_file.specs.Skipping.{IsViewOf, form_left};
ghost use Rattle.rv_rules.specs.Reading.{number_checks};
ghost use Rattle.rv_file.specs.Parsing.{behind_shards, shard_size, HoldsShards};

use crate::header::{header_fields, is_known};
use crate::heads::head_fields;
use crate::skipping::{skip_entries, skip_shards};
use crate::table::entry_fields;
use rv_base::layout::{COUNT_BYTES, DIGESTS_BYTES, ENTRY_BYTES, HEAD_BYTES, HEADER_BYTES};
use rv_base::limits::{OUTPUT_LIMIT, SHARD_SIZE_LIMIT, SHARDS_LIMIT};
use rv_base::machine::{EXIT, MISALIGNED_STORE};
use rv_base::rules::{COUNTS, END_KIND, MAGIC, OUTPUT_LENGTH, SHARD_SIZE, SHORT, TRAILING};
use rv_base::{Header, Refusal, TableEntry, get32};
use std::marker::Model;

/// The bytes of a shard beside its rows.
const AROUND_ROWS: usize = HEAD_BYTES + DIGESTS_BYTES;

/// The first rule on a header's numbers that is broken: the size of a shard, the counts of steps and shards, the end, the length of the output. None where they hold.
pub fn broken_number(h: &Header) -> Option<u8>
    ensures { result ≡ first_broken (number_checks h.now) }
{
    if h.size < 1 || h.size > SHARD_SIZE_LIMIT {
        return Some(SHARD_SIZE);
    }
    let shards = h.steps.div_ceil(h.size as u64);
    if h.steps < 1 || h.shards as u64 != shards || h.shards > SHARDS_LIMIT {
        return Some(COUNTS);
    }
    if h.end.kind > MISALIGNED_STORE || h.end.kind != EXIT && h.end.code != 0 {
        return Some(END_KIND);
    }
    if h.length > OUTPUT_LIMIT {
        return Some(OUTPUT_LENGTH);
    }
    None
}

/// Whether the file begins with the magic of the version that its eighth byte tells.
fn has_magic(file: &[u8]) -> bool
    requires { 8 ≤ length file.now }
    ensures { result ≡ bytes_eq (take 8 file.now) (magic (header_of file.now).version) }
{
    is_known(file)
}

/// The first rule of a header that is broken, and 1 where the output isn't all there.
fn broken_rule(file: &[u8]) -> Option<u8>
    ensures { result ≡ first_broken (header_checks false tiny_lanes [] [] file.now) }
{
    if file.len() < HEADER_BYTES {
        return Some(SHORT);
    }
    if !has_magic(file) {
        return Some(MAGIC);
    }
    let header = header_fields(file);
    if let Some(rule) = broken_number(&header) {
        return Some(rule);
    }
    if ((file.len() - HEADER_BYTES) as u64) < header.length {
        return Some(SHORT);
    }
    None
}

/// The header of a file, in front of all of its output.
fn checked_header(file: &[u8]) -> Result<Header, Refusal>
    ensures exact { IsViewOf (λ h. h) result (unless_broken 0 0 (header_checks false tiny_lanes [] [] file.now) (header_of file.now)) }
    ensures room { IfOk result (λ h. HEADER_BYTES + h.length ≤ length file.now) }
{
    match broken_rule(file) {
        Some(rule) => Err(Refusal::at(0, 0, rule)),
        None => Ok(header_fields(file)),
    }
}

/// The bytes behind the number of the table's entries.
fn behind_count(shards: u32, bytes: &[u8]) -> Result<&[u8], Refusal>
    ensures exact { IsViewOf (λ x. x.now) result (unless_broken shards 0 ((SHORT, nat_le COUNT_BYTES (length bytes.now)) ∷ []) (drop COUNT_BYTES bytes.now)) }
    ensures room { IfOk result (λ _. COUNT_BYTES ≤ length bytes.now) }
{
    if bytes.len() < COUNT_BYTES {
        return Err(Refusal::at(shards, 0, SHORT));
    }
    Ok(&bytes[COUNT_BYTES..])
}

/// The header and the number of the table's entries, of a file of good form.
fn form(file: &[u8]) -> Result<(Header, u32), Refusal>
    ensures { IsViewOf (λ x. x) result (form_left file.now) }
{
    let header = checked_header(file)?;
    let shards = shards_of(file, header.length as usize);
    let table = skip_shards(&header, shards)?;
    let entries = behind_count(header.shards, table)?;
    let count = get32(table, 0);
    let rest = skip_entries(&header, count, entries)?;
    if !rest.is_empty() {
        return Err(Refusal::at(header.shards, count, TRAILING));
    }
    Ok((header, count))
}

/// A record file of good form. Contracts see its parts.
#[derive(Drop)]
pub struct Parsed<'a> {
    file: &'a [u8],
    header: Header,
    entries: u32,
}

impl<'a> Model for Parsed<'a> {
    ghost use Rattle.rv_spec.specs.Record.{Parts};
    ghost use Rattle.rv_file.specs.Parsing.{parts_of, RepresentsFile};

    ghost Value = { Parts };

    ghost view = { λ s. parts_of s.file.now };

    ghost invariant = { λ s. RepresentsFile s.file.now s.header s.entries };
}

/// The parts of a record file, or the first check of form that is broken: its shard, its row and its rule. One pass, and no memory is taken.
pub fn parse(file: &[u8]) -> Result<Parsed<'_>, Refusal>
    ensures exact { MatchResult result (λ p. parse_of file.now ≡ Ok p) (λ r. parse_of file.now ≡ Err r) }
    // What is shown is spelled so.
    ensures spelled { IfOk result (λ p. Spells p file.now) }
    // What is spelled so is shown.
    ensures only { (p : Parts) → Spells p file.now → MatchResult result (λ q. q ≡ p) (λ _. ⊥) }
{
    let (header, entries) = form(file)?;
    Ok(Parsed {
        file,
        header,
        entries,
    })
}

/// The bytes of the output, where it has this length.
fn output_of(file: &[u8], size: usize) -> &[u8]
    requires { HEADER_BYTES + size ≤ length file.now }
    ensures { result.now ≡ take size (drop HEADER_BYTES file.now) }
{
    &file[HEADER_BYTES..HEADER_BYTES + size]
}

/// The bytes from the first shard on, where the output has this length.
fn shards_of(file: &[u8], size: usize) -> &[u8]
    requires { HEADER_BYTES + size ≤ length file.now }
    ensures { result.now ≡ drop (HEADER_BYTES + size) file.now }
{
    &file[HEADER_BYTES + size..]
}

/// The first shard, of the size that its head states.
fn first_shard(bytes: &[u8]) -> &[u8]
    requires { AROUND_ROWS + (head_of bytes.now).bytes ≤ length bytes.now }
    ensures { result.now ≡ take (AROUND_ROWS + (head_of bytes.now).bytes) bytes.now }
{
    &bytes[..AROUND_ROWS + head_fields(bytes).bytes as usize]
}

/// The bytes behind the shard at the front, by the size that its head states.
pub fn behind_shard(bytes: &[u8]) -> &[u8]
    requires { shard_size bytes.now ≤ length bytes.now }
    ensures { result.now ≡ drop (shard_size bytes.now) bytes.now }
{
    &bytes[AROUND_ROWS + head_fields(bytes).bytes as usize..]
}

/// Goes over this many shards, by the sizes that their heads state.
fn behind(bytes: &[u8], shards: u32) -> &[u8]
    requires { HoldsShards shards bytes.now }
    ensures { result.now ≡ behind_shards shards bytes.now }
{
    let mut rest = bytes;
    for _ in 0..shards {
        rest = behind_shard(rest);
    }
    rest
}

/// The entry that begins this many bytes before the end.
fn entry_before_end(file: &[u8], behind: usize) -> TableEntry
    requires there { ENTRY_BYTES ≤ behind }
    requires within { behind ≤ length file.now }
    ensures { result ≡ entry_of (drop (length file.now - behind) file.now) }
{
    entry_fields(&file[file.len() - behind..])
}

impl<'a> Parsed<'a> {
    /// The header.
    pub fn header(&self) -> Header
        ensures { result ≡ self.now.header }
    {
        self.header
    }

    /// The output that the run put.
    pub fn output(&self) -> &'a [u8]
        ensures { result.now ≡ self.now.output }
    {
        output_of(self.file, self.header.length as usize)
    }

    /// The bytes behind header and output: the shards, one after another, and the table.
    pub fn body(&self) -> &'a [u8]
        ensures fit { PartsFit self.now }
        ensures spelled { result.now ≡ flat_map shard_bytes self.now.shards ++ table_bytes self.now.table }
    {
        shards_of(self.file, self.header.length as usize)
    }

    /// Shard i: its head, its rows and its digests. None exactly where i isn't below the number of shards. Goes over the heads of the shards before it.
    pub fn shard(&self, i: u32) -> Option<&'a [u8]>
        ensures { option_copied result ≡ option_map shard_bytes (slice_get self.now.shards i) }
    {
        if i >= self.header.shards {
            return None;
        }
        let shards = shards_of(self.file, self.header.length as usize);
        let rest = behind(shards, i);
        Some(first_shard(rest))
    }

    /// Entry j of the table. None exactly where j isn't below the number of entries.
    pub fn entry(&self, j: u32) -> Option<TableEntry>
        ensures { result ≡ slice_get self.now.table j }
    {
        if j >= self.entries {
            return None;
        }
        let behind = ENTRY_BYTES * (self.entries - j) as usize;
        Some(entry_before_end(self.file, behind))
    }

    /// The number of entries of the table.
    pub fn entries(&self) -> u32
        ensures { result ≡ length self.now.table }
    {
        self.entries
    }
}
