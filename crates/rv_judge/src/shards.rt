//! Heads and digests of shards.

ghost use Rattle.std.specs.Prelude.{◌≡◌, ◌<◌, ◌==◌, ◌&&◌};
ghost use Rattle.rv_spec.specs.Digest.{Lanes as LanesOf};
ghost use Rattle.rv_rules.specs.Reading.{same_place};
ghost use Rattle.rv_rowcheck.specs.RowChecking.{IsPlace};
ghost use Rattle.rv_judge.specs.declared.phases.Phase.TheVariants.{Shards as ShardsPhase, Rows as RowsPhase};
ghost use Rattle.rv_judge.specs.Phases.{Goes, HeadAt, FitsAt, phase_at};

use crate::phases::{Machine, Phase, RowsLeft};
use crate::subject::Subject;
use crate::sums::Sums;
use rv_base::layout::{DIGESTS_BYTES, HEAD_BYTES};
use rv_base::rules::{ROW_BYTES, SHARD_DIGEST, SHARD_HEAD, SHORT};
use rv_base::{Place, Refusal, ShardHead};
use rv_digest::Lanes;
use rv_file::read_head;

/// The head at the front of the bytes.
pub(crate) fn head_at(bytes: &[u8]) -> Option<ShardHead>
    ensures { HeadAt bytes.now result }
{
    match bytes.first_chunk::<HEAD_BYTES>() {
        Some(head) => Some(read_head(head)),
        None => None,
    }
}

/// Whether a head is that of this shard, of so many rows, at a place.
fn is_head(head: &ShardHead, shard: u32, rows: u32, place: Place) -> bool
    ensures { result ≡ (head.now.index == shard && head.now.rows == rows && same_place head.now place) }
{
    head.index == shard
        && head.rows == rows
        && head.pc == place.pc
        && head.input == place.input
        && head.output == place.output
}

impl Machine {
    /// The head of a shard, which is the first of those that are left.
    pub(crate) fn begin_shard(
        &mut self,
        subject: &Subject<'_, '_>,
        left: u32,
        shard: u32,
        bytes: &[u8],
    ) -> Result<usize, Refusal>
        requires some { 0 < left }
        requires fits { FitsAt subject.now self.old.place (ShardsPhase left shard) }
        ensures { (lanes : LanesOf) → Goes lanes subject.now (phase_at lanes (ShardsPhase left shard) self.old.place self.old.shard self.old.all) self.old self.new bytes.now result }
    {
        let Some(head) = head_at(bytes) else {
            return Err(Refusal::at(shard, 0, SHORT));
        };
        let rows = subject.rows_of(shard);
        if !is_head(&head, shard, rows, self.place) {
            return Err(Refusal::at(shard, 0, SHARD_HEAD));
        }
        self.phase = Phase::Rows(RowsLeft {
            left: rows,
            next: 0,
            shard,
            behind: left - 1,
            head,
            bytes: 0,
        });
        self.shard.clear();
        Ok(HEAD_BYTES)
    }

    /// The digests of a shard, behind its rows.
    pub(crate) fn end_shard<L: Lanes>(
        &mut self,
        subject: &Subject<'_, '_>,
        lanes: &L,
        rows: RowsLeft,
        bytes: &[u8],
    ) -> Result<usize, Refusal>
        requires none { rows.left ≡ 0 }
        requires fits { FitsAt subject.now self.old.place (RowsPhase rows) }
        ensures { Goes L.lanes subject.now (phase_at L.lanes (RowsPhase rows) self.old.place self.old.shard self.old.all) self.old self.new bytes.now result }
    {
        if rows.bytes != rows.head.bytes {
            return Err(Refusal::at(rows.shard, rows.next, ROW_BYTES));
        }
        if bytes.len() < DIGESTS_BYTES {
            return Err(Refusal::at(rows.shard, rows.next, SHORT));
        }
        let shard = Sums::of(&self.shard, lanes);
        if !shard.are_stated(bytes) {
            return Err(Refusal::at(rows.shard, rows.next, SHARD_DIGEST));
        }
        self.phase = Phase::Shards {
            left: rows.behind,
            next: rows.shard + 1,
        };
        self.all.join(&shard);
        Ok(DIGESTS_BYTES)
    }
}
