//! The table and the end.

ghost use Rattle.std.specs.Prelude.{◌≡◌, ◌<◌, ◌≤◌, length, not};
ghost use Rattle.rv_spec.specs.Digest.{Lanes as LanesOf};
ghost use Rattle.rv_spec.specs.Cells.{is_cell as is_cell_of};
ghost use Rattle.rv_rules.specs.Checks.{first_broken};
ghost use Rattle.rv_rules.specs.Reading.{above, entry_of};
ghost use Rattle.rv_rowcheck.specs.RowChecking.{IsPlace};
ghost use Rattle.rv_judge.specs.declared.phases.Phase.TheVariants.{Shards as ShardsPhase, Entries as EntriesPhase};
ghost use Rattle.rv_judge.specs.Phases.{Ends, Goes, FitsAt, end_checks, entry_checks, phase_at, sums_of};

use crate::phases::{Machine, Phase};
use crate::subject::Subject;
use crate::sums::Sums;
use rv_base::cells::{REGISTER_CELLS, RESERVATION_CELL};
use rv_base::layout::{COUNT_BYTES, ENTRY_BYTES, ENTRY_CELL_AT, ENTRY_TIME_AT, ENTRY_VALUE_AT};
use rv_base::rules::{BALANCE, LEFT, SHORT, TABLE_CELL, TABLE_ORDER, TABLE_TIME, TRAILING};
use rv_base::{Header, Place, Refusal, TableEntry, Tuple, get32, get64};
use rv_digest::Lanes;

/// Whether a number is that of a cell in this version.
fn is_cell(version: u8, cell: u32) -> bool
    ensures { result ≡ is_cell_of version cell }
{
    cell < REGISTER_CELLS
        || REGISTER_CELLS < cell && cell < RESERVATION_CELL
        || version == 2 && cell == RESERVATION_CELL
}

/// Whether a cell is greater than that of the entry before, if there is one.
fn is_above(before: Option<u32>, cell: u32) -> bool
    ensures { result ≡ above before cell }
{
    match before {
        None => true,
        Some(last) => last < cell,
    }
}

/// The entry at the front of the bytes.
fn entry_at(bytes: &[u8]) -> TableEntry
    requires { ENTRY_BYTES ≤ length bytes.now }
    ensures { result ≡ entry_of bytes.now }
{
    TableEntry {
        cell: get32(bytes, ENTRY_CELL_AT),
        value: get32(bytes, ENTRY_VALUE_AT),
        time: get64(bytes, ENTRY_TIME_AT),
    }
}

/// The first rule that an entry breaks.
fn broken_entry(version: u8, before: Option<u32>, entry: &TableEntry) -> Option<u8>
    ensures { result ≡ first_broken (entry_checks version before entry.now) }
{
    if !is_above(before, entry.cell) {
        return Some(TABLE_ORDER);
    }
    if !is_cell(version, entry.cell) {
        return Some(TABLE_CELL);
    }
    if entry.time == 0 {
        return Some(TABLE_TIME);
    }
    None
}

/// The first rule that is broken at a file's end: at this place, with these digests, and with bytes behind it or none.
pub(crate) fn broken_end(header: &Header, place: Place, all: &Sums, is_trailed: bool) -> Option<u8>
    ensures { result ≡ first_broken (end_checks header.now place (sums_of all.now) (not is_trailed)) }
{
    if place.input != header.consumed || place.output != header.length {
        return Some(LEFT);
    }
    if !all.are_one() {
        return Some(BALANCE);
    }
    if is_trailed {
        return Some(TRAILING);
    }
    None
}

impl Machine {
    /// The number of the table's entries.
    pub(crate) fn begin_table(
        &mut self,
        subject: &Subject<'_, '_>,
        next: u32,
        bytes: &[u8],
    ) -> Result<usize, Refusal>
        requires { FitsAt subject.now self.old.place (ShardsPhase 0 next) }
        ensures { (lanes : LanesOf) → Goes lanes subject.now (phase_at lanes (ShardsPhase 0 next) self.old.place self.old.shard self.old.all) self.old self.new bytes.now result }
    {
        if bytes.len() < COUNT_BYTES {
            return Err(Refusal::at(subject.header().shards, 0, SHORT));
        }
        self.phase = Phase::Entries {
            left: get32(bytes, 0),
            next: 0,
            before: None,
        };
        Ok(COUNT_BYTES)
    }

    /// The next entry of the table.
    pub(crate) fn entry<L: Lanes>(
        &mut self,
        subject: &Subject<'_, '_>,
        lanes: &L,
        left: u32,
        next: u32,
        before: Option<u32>,
        bytes: &[u8],
    ) -> Result<usize, Refusal>
        requires some { 0 < left }
        requires fits { FitsAt subject.now self.old.place (EntriesPhase left next before) }
        ensures { Goes L.lanes subject.now (phase_at L.lanes (EntriesPhase left next before) self.old.place self.old.shard self.old.all) self.old self.new bytes.now result }
    {
        let header = subject.header();
        if bytes.len() < ENTRY_BYTES {
            return Err(Refusal::at(header.shards, next, SHORT));
        }
        let entry = entry_at(bytes);
        if let Some(rule) = broken_entry(header.version, before, &entry) {
            return Err(Refusal::at(header.shards, next, rule));
        }
        self.phase = Phase::Entries {
            left: left - 1,
            next: next + 1,
            before: Some(entry.cell),
        };
        let last = Tuple {
            cell: entry.cell,
            value: entry.value,
            time: entry.time,
        };
        self.all.add(lanes, last, subject.first_tuple(&entry));
        Ok(ENTRY_BYTES)
    }

    /// The end, behind the table.
    pub(crate) fn end<L: Lanes>(
        &self,
        subject: &Subject<'_, '_>,
        lanes: &L,
        next: u32,
        before: Option<u32>,
        bytes: &[u8],
    ) -> Result<(), Refusal>
        ensures { Ends L.lanes subject.now (phase_at L.lanes (EntriesPhase 0 next before) self.now.place self.now.shard self.now.all) bytes.now result }
    {
        let header = subject.header();
        let all = self.all.sums(lanes);
        match broken_end(header, self.place, &all, !bytes.is_empty()) {
            Some(rule) => Err(Refusal::at(header.shards, next, rule)),
            None => Ok(()),
        }
    }
}
