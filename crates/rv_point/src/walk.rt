//! A run gone through once, shard by shard.

ghost use Rattle.std.specs.Prelude.{◌≡◌, ℕ, ◌+◌, List, None, Some, Err, IfOk, IfErr};
ghost use Rattle.std.specs.Int.{IsInRange};
ghost use Rattle.rv_base.specs.declared.limits.TheConstants.{BUDGET_LIMIT, SHARD_SIZE_LIMIT};
ghost use Rattle.rv_point.specs.declared.fault.RunFault.{RunFault as FaultOf};
ghost use Rattle.rv_point.specs.Course.{HasFault};
ghost use Rattle.rv_point.specs.Walk.{GivesNext, HasGivenAll, IsSameWalk, IsWhole};

use crate::course::Course;
use crate::fault::RunFault;
use crate::start::{Cells, ShardStart};
use rv_base::{Bytes, End, NoMemory};
use rv_elf::Image;
use rv_isa::Hart;
use std::alloc::Global;
use std::marker::Model;

/// A run that ended: its steps, the ending one counted, the shards that they make, its end, the bytes of input that
/// it took, its output, and the cells that it used, by rising number, with their last values and times.
#[derive(Debug, Drop)]
pub struct Whole {
    pub steps: u64,
    pub shards: u32,
    pub end: End,
    pub consumed: u64,
    pub output: Bytes,
    pub table: Cells,
}

/// A run that is gone through once, and gives the start of each of its shards in order. It keeps the words that the
/// program wrote, the output, and the cells of the shard that it is in.
#[derive(Drop)]
pub struct Walk<'a> {
    alloc: Global,
    course: Course<'a>,
    size: u32,
    budget: u64,
    given: u32,
    fault: Option<RunFault>,
}

impl<'a> Model for Walk<'a> {
    ghost use Rattle.rv_point.specs.WalkState.{WalkState};

    ghost Value = { WalkState };

    ghost use Rattle.rv_point.specs.WalkView.{walk_view, IsWalk};

    ghost view = { walk_view };

    ghost invariant = { IsWalk };
}

impl<'a> Walk<'a> {
    /// The walk over the run of a program on an input, in shards of so many rows, within a budget of steps, the
    /// ending one counted. Nothing was given.
    pub fn open(
        alloc: Global,
        image: &Image<'a>,
        input: &'a [u8],
        size: u32,
        budget: u64,
    ) -> Walk<'a>
        requires size { IsInRange 1 SHARD_SIZE_LIMIT size }
        requires budget { IsInRange 1 BUDGET_LIMIT budget }
        ensures { result ≡ record { image = image.now; input = input.now; size = size; budget = budget; given = 0; ended = None; fault = None } }
    {
        let image = image.copy();
        Walk {
            alloc,
            course: Course {
                hart: Hart::start(alloc, &image, input),
                output: Vec::new(alloc),
                steps: 0,
                ended: None,
            },
            size,
            budget,
            given: 0,
            fault: None,
        }
    }

    /// The start of the next shard, or None where the run ended with the shards that were given. Budget comes
    /// exactly where the run goes on past its budget and the starts of all whole shards within it were given, up to
    /// 65,536; Shards where 65,536 were given, and the run ends within its budget but needs more. After an error
    /// each call answers it again.
    pub fn next_shard(&mut self) -> Result<Option<ShardStart>, RunFault>
        ensures same { IsSameWalk self.old self.new }
        ensures ok { IfOk result (GivesNext self.old self.new) }
        ensures err { IfErr result (λ fault. (self.new.fault ≡ Some fault) × HasFault self.old.image self.old.input self.old.size self.old.budget self.old.given fault × (self.new.given ≡ self.old.given)) }
        ensures stays { (fault : FaultOf) → self.old.fault ≡ Some fault → (result ≡ Err fault) × (self.new ≡ self.old) }
    {
        if let Some(fault) = self.fault {
            return Err(fault);
        }
        match self
            .course
            .next_shard(self.alloc, self.size, self.budget, self.given)
        {
            Ok(Some(start)) => {
                self.given += 1;
                Ok(Some(start))
            }
            Ok(None) => Ok(None),
            Err(fault) => {
                self.fault = Some(fault);
                Err(fault)
            }
        }
    }

    /// The whole of a run of which all shards were given.
    pub fn finish(self) -> Result<Whole, NoMemory>
        requires { HasGivenAll self }
        ensures { IfOk result (IsWhole self.entry) }
    {
        let table = Cells::of(self.course.hart.touched()?);
        let end = match self.course.ended {
            Some(end) => end,
            None => unreachable!(),
        };
        Ok(Whole {
            steps: self.course.steps,
            shards: self.given,
            end,
            consumed: self.course.hart.position(),
            output: Bytes::of(self.course.output),
            table,
        })
    }
}
