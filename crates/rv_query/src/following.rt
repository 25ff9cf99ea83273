//! One pass over the rows of a file, which follows consecutive cells up to a step.

ghost use Rattle.std.specs.Prelude.{◌≡◌, ◌+◌, ◌*◌, ◌<◌, ◌≤◌, ◌^◌, ℕ, List, ◌∷◌, [], ◌++◌, length, take, drop, map, slice_get, Some};
ghost use Rattle.std.specs.List.{flat_map, AllByRecursion};
ghost use Rattle.rv_spec.specs.Trace.{Row};
ghost use Rattle.rv_spec.specs.Record.{Shard, all_rows, row_bytes, shard_bytes};
ghost use Rattle.rv_spec.specs.Grammar.{RowFits};
ghost use Rattle.rv_query.specs.Accesses.{Numbered, numbered};
ghost use Rattle.rv_query.specs.Following.{BeginWithRow, BehindRows, GoPast};

use crate::trail::Trail;
use rv_base::layout::HEAD_BYTES;
use rv_base::{Access, time_of};
use rv_file::{Parsed, behind_shard};
use rv_row::{RowRead, read_row};

/// Goes past an access of a step, where it is to one of the cells and before the asked step.
fn pass_access(trails: &mut [Trail], first: u32, until: u64, step: u64, access: &Access)
    requires asked { until < 2 ^ 32 }
    requires within { step < 2 ^ 32 }
    ensures { GoPast first until trails.old trails.new (record { step = step; access = access.now } ∷ []) }
{
    if time_of(step, access.slot) >= time_of(until, 0) || access.cell < first {
        return;
    }
    let place = (access.cell - first) as usize;
    if place < trails.len() {
        trails[place] = trails[place].past(step, access);
    }
}

/// Goes past the accesses of a step.
fn pass_row(trails: &mut [Trail], first: u32, until: u64, step: u64, accesses: &[Access])
    requires asked { until < 2 ^ 32 }
    requires within { step < 2 ^ 32 }
    ensures { GoPast first until trails.old trails.new (map (λ a. record { step = step; access = a }) accesses.now) }
{
    for access in accesses {
        pass_access(trails, first, until, step, access);
    }
}

/// Goes past some rows, the first of which is that of a step. Answers the bytes behind them.
fn follow_rows<'a>(
    trails: &mut [Trail],
    first: u32,
    until: u64,
    step: u64,
    rows: u32,
    bytes: &'a [u8],
) -> &'a [u8]
    requires asked { until < 2 ^ 32 }
    requires within { step + rows ≤ 2 ^ 32 }
    ensures { (rs : List Row) (tail : List ℕ) → AllByRecursion RowFits rs → rows ≤ length rs → bytes.now ≡ flat_map row_bytes rs ++ tail
        → (result.now ≡ flat_map row_bytes (drop rows rs) ++ tail) × GoPast first until trails.old trails.new (numbered step (take rows rs)) }
{
    let mut rest = bytes;
    for row in 0..rows {
        let RowRead::Row(read, length) = read_row(rest) else {
            return rest;
        };
        pass_row(
            trails,
            first,
            until,
            step + row as u64,
            read.accesses.as_slice(),
        );
        rest = &rest[length..];
    }
    rest
}

/// Goes past the first rows of the shard at the front of the bytes, whose first row is that of a step. Answers the bytes behind them.
fn follow_shard<'a>(
    trails: &mut [Trail],
    first: u32,
    until: u64,
    step: u64,
    rows: u32,
    bytes: &'a [u8],
) -> &'a [u8]
    requires asked { until < 2 ^ 32 }
    requires within { step + rows ≤ 2 ^ 32 }
    requires head { HEAD_BYTES ≤ length bytes.now }
    ensures { (s : Shard) (tail : List ℕ) → AllByRecursion RowFits s.rows → rows ≤ length s.rows → bytes.now ≡ shard_bytes s ++ tail
        → BehindRows s.rows rows result.now × GoPast first until trails.old trails.new (numbered step (take rows s.rows)) }
{
    follow_rows(trails, first, until, step, rows, &bytes[HEAD_BYTES..])
}

/// Goes past the rows before a step, once over the file from the front. Answers the bytes that begin with the row of the step.
pub(crate) fn follow<'a>(
    trails: &mut [Trail],
    first: u32,
    until: u64,
    parsed: &Parsed<'a>,
) -> &'a [u8]
    requires { until < parsed.now.header.steps }
    ensures past { GoPast first until trails.old trails.new (numbered 0 (take until (all_rows parsed.now))) }
    ensures row { BeginWithRow (all_rows parsed.now) until result.now }
{
    let size = parsed.header().size;
    let mut rest = parsed.body();
    let last = (until / size as u64) as u32;
    for i in 0..last {
        follow_shard(trails, first, until, i as u64 * size as u64, size, rest);
        rest = behind_shard(rest);
    }
    let rows = (until % size as u64) as u32;
    follow_shard(trails, first, until, last as u64 * size as u64, rows, rest)
}
