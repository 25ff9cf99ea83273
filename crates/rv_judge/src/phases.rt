//! The phases in which a record file is read behind its header and output. All that is judged is an instance of this machine.

ghost use Rattle.std.specs.Prelude.{◌≡◌, ◌==◌};
ghost use Rattle.rv_reading.specs.Machine.{is_behind as is_behind_of, no_sums};
ghost use Rattle.rv_reading.specs.Machine.Phase.{Shards as ShardsOf};
ghost use Rattle.rv_spec.specs.Digest.{Lanes as LanesOf};
ghost use Rattle.rv_judge.specs.declared.phases.Phase.TheVariants.{Shards as ShardsPhase};
ghost use Rattle.rv_judge.specs.Phases.{Fits, Steps, entries_in, extent_of, phase_of};

use crate::subject::Subject;
use crate::sums::Totals;
use rv_base::{Place, Refusal, ShardHead};
use rv_digest::Lanes;
use rv_pairs::Pairing;
use rv_row::Row;

/// How far to read: the whole file, one shard or the table.
#[derive(Clone, Copy)]
pub(crate) enum Extent {
    File,
    Shard,
    Table,
}

/// Within a shard: how many rows are left and which is next, the shard, how many shards are behind it, its head, and the bytes
/// of its rows so far.
#[derive(Clone, Copy)]
pub(crate) struct RowsLeft {
    pub left: u32,
    pub next: u32,
    pub shard: u32,
    pub behind: u32,
    pub head: ShardHead,
    pub bytes: u32,
}

/// What comes next.
#[derive(Clone, Copy)]
pub(crate) enum Phase {
    /// So many shards from one on, and then the number of the table's entries.
    Shards {
        left: u32,
        next: u32,
    },
    /// The rows of a shard, and then its digests.
    Rows(RowsLeft),
    /// So many entries of the table from one on, with cells above one, and then the end.
    Entries {
        left: u32,
        next: u32,
        before: Option<u32>,
    },
}

/// Where the reading stands: the phase, the place in the run, the tuples of the shard so far, and those of all before it.
#[derive(Clone, Copy)]
pub(crate) struct Machine {
    pub phase: Phase,
    pub place: Place,
    pub shard: Pairing,
    pub all: Totals,
}

impl Machine {
    /// Before some shards.
    pub fn at_shards(left: u32, next: u32, place: Place) -> Machine
        ensures phase { (lanes : LanesOf) → phase_of lanes result ≡ ShardsOf left next place no_sums }
        ensures at { (result.place ≡ place) × (result.phase ≡ ShardsPhase left next) }
    {
        Machine {
            phase: Phase::Shards { left, next },
            place,
            shard: Pairing::new(),
            all: Totals::none(),
        }
    }

    /// One step: how many bytes are taken from the front, None where the reading may end, or the first broken check. This is by
    /// rule 1 where more bytes may be missing. A row that is read is put in place of another.
    pub fn step<L: Lanes>(
        &mut self,
        subject: &Subject<'_, '_>,
        lanes: &L,
        bytes: &[u8],
        row: &mut Row,
    ) -> Result<Option<usize>, Refusal>
        requires { Fits subject.now self.old }
        ensures { Steps L.lanes subject.now self.old self.new bytes.now result }
    {
        match self.phase {
            Phase::Shards { left, next } => {
                if left == 0 {
                    Ok(Some(self.begin_table(subject, next, bytes)?))
                } else {
                    Ok(Some(self.begin_shard(subject, left, next, bytes)?))
                }
            }
            Phase::Rows(rows) => {
                if rows.left == 0 {
                    Ok(Some(self.end_shard(subject, lanes, rows, bytes)?))
                } else {
                    Ok(Some(self.row(subject, lanes, rows, bytes, row)?))
                }
            }
            Phase::Entries { left, next, before } => {
                if left == 0 {
                    self.end(subject, lanes, next, before, bytes)?;
                    Ok(None)
                } else {
                    Ok(Some(self.entry(subject, lanes, left, next, before, bytes)?))
                }
            }
        }
    }

    /// Whether the phase is behind what is to be read.
    pub fn is_behind(&self, extent: Extent) -> bool
        ensures { (lanes : LanesOf) → result ≡ is_behind_of (extent_of extent) (phase_of lanes self.now) }
    {
        match (extent, self.phase) {
            (Extent::Shard, Phase::Shards { left, .. }) => left == 0,
            (Extent::Table, Phase::Entries { left, .. }) => left == 0,
            _ => false,
        }
    }

    /// How many entries of the table were read.
    pub fn entries(&self) -> u32
        ensures { result ≡ entries_in self.now.phase }
    {
        match self.phase {
            Phase::Entries { next, .. } => next,
            _ => 0,
        }
    }
}
