//! Rows of a shard.

ghost use Rattle.std.specs.Prelude.{◌≡◌, ◌^◌, ◌<◌, IfOk};
ghost use Rattle.rv_rules.specs.Reading.{last_of};
ghost use Rattle.rv_row.specs.RowReading.{row_view};
ghost use Rattle.rv_rowcheck.specs.RowChecking.{AnswersRow, IsPlace};
ghost use Rattle.rv_judge.specs.declared.phases.Phase.TheVariants.{Rows as RowsPhase};
ghost use Rattle.rv_judge.specs.Phases.{CanPass, Goes, FitsAt, behind_row, phase_at};

use crate::phases::{Machine, Phase, RowsLeft};
use crate::subject::Subject;
use rv_base::rules::{ROW_SHAPE, SHORT};
use rv_base::{Place, Refusal};
use rv_digest::Lanes;
use rv_row::{Row, RowFound, read_row_into};
use rv_rowcheck::check_row;

/// The place after a row, or the least rule that it breaks at a place.
#[inline(always)]
fn judge_row(subject: &Subject<'_, '_>, row: &Row, step: u64, place: Place) -> Result<Place, u8>
    requires step { step < 2 ^ 32 }
    requires place { IsPlace place subject.now.input subject.now.output }
    ensures answer { AnswersRow subject.now.header.version (row_view row.now) step place (last_of subject.now.header step) subject.now.input subject.now.output result }
    ensures next { IfOk result (λ after. IsPlace after subject.now.input subject.now.output) }
{
    check_row(
        subject.header().version,
        row,
        step,
        place,
        subject.last(step),
        subject.input(),
        subject.output(),
    )
}

impl Phase {
    /// Passes a row of so many bytes, where rows of a shard are left.
    fn pass_row(&mut self, length: usize)
        requires { CanPass self.old length }
        ensures { self.new ≡ behind_row self.old length }
    {
        if let Phase::Rows(rows) = self {
            rows.left -= 1;
            rows.next += 1;
            rows.bytes += length as u32;
        }
    }
}

impl Machine {
    /// The next row of a shard, which is put in place of another.
    pub(crate) fn row<L: Lanes>(
        &mut self,
        subject: &Subject<'_, '_>,
        lanes: &L,
        rows: RowsLeft,
        bytes: &[u8],
        row: &mut Row,
    ) -> Result<usize, Refusal>
        requires phase { self.old.phase ≡ RowsPhase rows }
        requires some { 0 < rows.left }
        requires fits { FitsAt subject.now self.old.place (RowsPhase rows) }
        ensures { Goes L.lanes subject.now (phase_at L.lanes (RowsPhase rows) self.old.place self.old.shard self.old.all) self.old self.new bytes.now result }
    {
        match read_row_into(bytes, row) {
            RowFound::Row(length) => {
                let step = subject.step_of(rows.shard, rows.next);
                match judge_row(subject, row, step, self.place) {
                    Ok(after) => {
                        self.phase.pass_row(length);
                        self.place = after;
                        self.shard.accesses(lanes, step, row.accesses.as_slice());
                        Ok(length)
                    }
                    Err(rule) => Err(Refusal::at(rows.shard, rows.next, rule)),
                }
            }
            RowFound::Short => Err(Refusal::at(rows.shard, rows.next, SHORT)),
            RowFound::Shape => Err(Refusal::at(rows.shard, rows.next, ROW_SHAPE)),
        }
    }
}
