//! The walk over a run, as threads know it.

ghost use Rattle.std.specs.Prelude.{IfOk, IfErr};

use rv_base::NoMemory;
use rv_point::{RunFault, ShardStart, Walk, Whole};

/// A walk over a run. A thread may have one, and its type names no lifetime there.
pub trait Walking: Drop + Send {
    ghost use Rattle.rv_point.specs.Course.{HasFault};
    ghost use Rattle.rv_point.specs.Walk.{GivesNext, HasGivenAll, IsSameWalk, IsWhole};
    ghost use Rattle.rv_point.specs.WalkState.{WalkState};

    ghost state: { Self → WalkState };

    /// The start of the next shard, or None where the run ended with those that were given.
    fn next_start(&mut self) -> Result<Option<ShardStart>, RunFault>
        ensures same { IsSameWalk (state self.old) (state self.new) }
        ensures ok { IfOk result (GivesNext (state self.old) (state self.new)) }
        ensures err { IfErr result (HasFault (state self.old).image (state self.old).input (state self.old).size (state self.old).budget (state self.old).given) };

    /// The whole of a run of which all starts were given.
    fn end(self) -> Result<Whole, NoMemory>
        requires { HasGivenAll (state self) }
        ensures { IfOk result (IsWhole (state self)) };
}

impl Walking for Walk<'_> {
    ghost state = { λ w. w };

    fn next_start(&mut self) -> Result<Option<ShardStart>, RunFault> {
        self.next_shard()
    }

    fn end(self) -> Result<Whole, NoMemory> {
        self.finish()
    }
}
