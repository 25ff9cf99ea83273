//! A run that was gone through, with the start of each of its shards.

ghost use Rattle.std.specs.Prelude.{◌≡◌, ℕ, ◌<◌, ◌≤◌, IfOk, IfErr, IfSome, MatchOption};
ghost use Rattle.std.specs.Int.{IsInRange, div_ceil};
ghost use Rattle.rv_base.specs.declared.limits.TheConstants.{BUDGET_LIMIT, SHARD_SIZE_LIMIT, SHARDS_LIMIT};
ghost use Rattle.rv_spec.specs.Run.{run, EndsIn};
ghost use Rattle.rv_spec.specs.Trace.{table as table_after};
ghost use Rattle.rv_point.specs.Start.{IsStart, shard_start as start_of};
ghost use Rattle.rv_point.specs.PointsState.{IsSurvey, HasNoSurvey};

use crate::fault::RunFault;
use crate::start::ShardStart;
use crate::walk::{Walk, Whole};
use rv_base::{End, TableEntry};
use rv_elf::Image;
use std::alloc::Global;
use std::marker::Model;

/// A run that ended, in shards of a size, with what the replay of each shard needs.
#[derive(Drop)]
pub struct Points<'a> {
    image: Image<'a>,
    input: &'a [u8],
    size: u32,
    starts: Vec<ShardStart>,
    whole: Whole,
}

impl<'a> Model for Points<'a> {
    ghost use Rattle.rv_point.specs.PointsState.{PointsState};

    ghost Value = { PointsState };

    ghost use Rattle.rv_point.specs.PointsView.{points_view, ArePoints};

    ghost view = { points_view };

    ghost invariant = { ArePoints };
}

/// Runs a program on an input once, in shards of so many rows, within a budget of steps, the ending one counted.
/// Budget comes exactly where the run goes on past its budget, and Shards exactly where it ends within it and needs
/// more than 65,536 shards.
pub fn survey<'a>(
    alloc: Global,
    image: &Image<'a>,
    input: &'a [u8],
    size: u32,
    budget: u64,
) -> Result<Points<'a>, RunFault>
    requires size { IsInRange 1 SHARD_SIZE_LIMIT size }
    requires budget { IsInRange 1 BUDGET_LIMIT budget }
    ensures ok { IfOk result (IsSurvey image.now input.now size budget) }
    ensures err { IfErr result (HasNoSurvey image.now input.now size budget) }
{
    let mut walk = Walk::open(alloc, image, input, size, budget);
    let mut starts = Vec::new(alloc);
    while let Some(start) = walk.next_shard()? {
        starts.push(start)?;
    }
    let whole = walk.finish()?;
    Ok(Points {
        image: image.copy(),
        input,
        size,
        starts,
        whole,
    })
}

impl<'a> Points<'a> {
    /// The steps of the run, the ending one counted.
    pub fn steps(&self) -> u64
        ensures value { result ≡ self.now.steps }
        ensures run { EndsIn self.now.image self.now.input self.now.steps self.now.end }
    {
        self.whole.steps
    }

    /// The shards of the run.
    pub fn shards(&self) -> u32
        ensures value { result ≡ div_ceil self.now.steps self.now.size }
        ensures within { IsInRange 1 SHARDS_LIMIT result }
    {
        self.whole.shards
    }

    /// How the run ended.
    pub fn end(&self) -> End
        ensures { result ≡ self.now.end }
    {
        self.whole.end
    }

    /// How many bytes of the input the run took.
    pub fn consumed(&self) -> u64
        ensures { result ≡ (run self.now.image self.now.input self.now.steps).position }
    {
        self.whole.consumed
    }

    /// The bytes that the run put.
    pub fn output(&self) -> &[u8]
        ensures { result.now ≡ (run self.now.image self.now.input self.now.steps).output }
    {
        self.whole.output.list()
    }

    /// The cells that the run used, by rising number, with their last values and times.
    pub fn table(&self) -> &[TableEntry]
        ensures { result.now ≡ table_after self.now.image self.now.input self.now.steps }
    {
        self.whole.table.list()
    }

    /// The image of the program.
    pub fn image(&self) -> &Image<'a>
        ensures { result.now ≡ self.now.image }
    {
        &self.image
    }

    /// The input.
    pub fn input(&self) -> &'a [u8]
        ensures { result.now ≡ self.now.input }
    {
        self.input
    }

    /// The rows of each shard but the last.
    pub fn size(&self) -> u32
        ensures value { result ≡ self.now.size }
        ensures within { IsInRange 1 SHARD_SIZE_LIMIT result }
    {
        self.size
    }

    /// The start of a shard; None exactly where the run has no shard of that index.
    pub fn shard_start(&self, i: u32) -> Option<&ShardStart>
        ensures start { MatchOption result (div_ceil self.now.steps self.now.size ≤ i) (λ s. (i < div_ceil self.now.steps self.now.size) × (s.now ≡ start_of self.now.image self.now.input self.now.size i)) }
        ensures replayed { IfSome result (λ s. IsStart self.now.image self.now.input s.now) }
    {
        self.starts.get(i as usize)
    }
}
