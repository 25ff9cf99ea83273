//! The rules of a row, in their order.

ghost use Rattle.std.specs.Prelude.{◌≡◌, ◌⊎◌, ◌+◌, ◌<◌, ◌≤◌, ◌^◌, length, IfOk};
ghost use Rattle.rv_rules.specs.Checks as rules;
ghost use Rattle.rv_row.specs.RowReading.{row_view};
ghost use Rattle.rv_rowcheck.specs.RowChecking.{AnswersRow, BreaksAgainst, IsPlace, access_checks};

use crate::agreeing::{
    all_agree, bytes_agree, cells_agree, ends_as, ends_no_earlier, slots_agree, times_are_earlier,
    values_agree,
};
use crate::seeing::seen;
use rv_base::rules::{CELL, END_OTHER, ENDS_EARLY, NEXT, OUTPUT_BYTE, PC, SLOT, TIME_ORDER, VALUE};
use rv_base::{Access, End, Place, Touch};
use rv_isa::{Expected, expect};
use rv_row::Row;

/// The first rule that is broken: each check is a rule's number, and whether it holds.
fn first_broken(checks: &[(u8, bool)]) -> Option<u8>
    ensures { result ≡ rules.first_broken checks.now }
{
    for (rule, holds) in checks {
        if !*holds {
            return Some(*rule);
        }
    }
    None
}

/// The least rule that the accesses of a row break, rule by rule. It stays out of the way of rows that break none.
#[inline(never)]
fn least_broken(accesses: &[Access], touches: &[Touch], step: u64) -> Option<u8>
    requires { step < 2 ^ 32 }
    ensures { result ≡ rules.first_broken (access_checks step accesses.now touches.now) }
{
    first_broken(&[
        (SLOT, slots_agree(accesses, touches)),
        (CELL, cells_agree(accesses, touches)),
        (VALUE, values_agree(accesses, touches)),
        (TIME_ORDER, times_are_earlier(accesses, step)),
    ])
}

/// The least rule that the accesses of a row break.
#[inline(always)]
fn broken_access(accesses: &[Access], touches: &[Touch], step: u64) -> Option<u8>
    requires { step < 2 ^ 32 }
    ensures { result ≡ rules.first_broken (access_checks step accesses.now touches.now) }
{
    if all_agree(accesses, touches, step) {
        return None;
    }
    least_broken(accesses, touches, step)
}

/// The least rule that a row at its place breaks, against its expected step.
#[inline(always)]
fn broken(
    row: &Row,
    due: &Expected,
    step: u64,
    place: Place,
    last: Option<End>,
    output: &[u8],
) -> Option<u8>
    requires step { step < 2 ^ 32 }
    requires within { place.output ≤ length output.now }
    requires most { due.now.put ≤ 4 }
    ensures { BreaksAgainst row.now due.now step place last output.now result }
{
    if let Some(rule) = broken_access(row.accesses.as_slice(), due.touches.as_slice(), step) {
        return Some(rule);
    }
    first_broken(&[
        (NEXT, row.next == due.next),
        (
            OUTPUT_BYTE,
            bytes_agree(output, place.output, due.word, due.put),
        ),
        (ENDS_EARLY, ends_no_earlier(last, due.end)),
        (END_OTHER, ends_as(last, due.end)),
    ])
}

/// The place after an expected step.
fn place_after(place: Place, due: &Expected) -> Place
    requires taken { place.input + due.now.took < 2 ^ 64 }
    requires put { place.output + due.now.put < 2 ^ 64 }
    ensures { result ≡ record { pc = due.now.next; input = place.input + due.now.took; output = place.output + due.now.put } }
{
    Place {
        pc: due.next,
        input: place.input + u64::from(due.took),
        output: place.output + u64::from(due.put),
    }
}

/// Judges a row of a record, in a version of the machine (1 for RV32IM, 2 for RV32IMA), by its own old values: it looks at no other row
/// and at no memory. `step` is its number in the file, counted from 0, `place` where the run stands before it, with positions in bytes of
/// `input` and of the stated `output`, and `last` the header's end, where it is the file's last row. Ok is the place after the row, at
/// which the next can be judged.
///
/// # Errors
///
/// The number of the least rule of 11 to 19 that the row breaks.
#[inline(always)]
pub fn check_row(
    version: u8,
    row: &Row,
    step: u64,
    place: Place,
    last: Option<End>,
    input: &[u8],
    output: &[u8],
) -> Result<Place, u8>
    requires version { (version ≡ 1) ⊎ (version ≡ 2) }
    requires step { step < 2 ^ 32 }
    requires place { IsPlace place input.now output.now }
    ensures answer { AnswersRow version (row_view row.now) step place last input.now output.now result }
    ensures next { IfOk result (λ after. IsPlace after input.now output.now) }
{
    if row.pc != place.pc {
        return Err(PC);
    }
    let seen = seen(row.accesses.as_slice());
    let due = expect(version, row.pc, &seen, input, place.input);
    match broken(row, &due, step, place, last, output) {
        Some(rule) => Err(rule),
        None => Ok(place_after(place, &due)),
    }
}
