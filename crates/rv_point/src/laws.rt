//! Laws of runs in shards. They compute nothing: each contract is a law.

ghost use Rattle.rv_point.specs.Replays.{ReplaysBegin, ReplaysStep};
ghost use Rattle.rv_point.specs.SameSteps.{SharedStepsAreSame};
ghost use Rattle.rv_point.specs.Start.{PiecesAreShards, RecordIsPieces};

/// In a run that ends, each shard of its record is there, and the piece of a shard has that shard's
/// bytes and digests and the place after it. The record is its header, the run's output, the bytes of
/// the pieces in order, and the table.
pub fn pieces()
    ensures shards { PiecesAreShards }
    ensures file { RecordIsPieces }
{}

/// Two states that have one version, counter and position, and equal values in the cells that the step
/// of one of them uses, make the same step.
pub fn shared_steps()
    ensures { SharedStepsAreSame }
{}

/// A hart that goes on from the cells of a shard's start stands for a state like the run's in the cells
/// that the shard's rows use, and so does it after each step. So each of its rows is the run's.
pub fn replays()
    ensures begin { ReplaysBegin }
    ensures step { ReplaysStep }
{}
