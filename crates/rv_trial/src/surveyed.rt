//! The run of a program, gone through once.

ghost use Rattle.std.specs.Prelude.{IfOk};
ghost use Rattle.rv_trial.specs.Recording.{EndsInBudget, IsSurveyed};

use rv_base::NoMemory;
use rv_base::limits::BUDGET_LIMIT;
use rv_point::{Points, RunFault, survey};
use rv_program::Program;
use std::alloc::Global;

/// The rows of each shard but the last.
const SHARD_ROWS: u32 = 1024;

/// The run of a program that ends within the budget, in shards.
pub fn surveyed<'a>(alloc: Global, program: &Program<'a>) -> Result<Points<'a>, NoMemory>
    requires { EndsInBudget program.now }
    ensures { IfOk result (IsSurveyed program.now) }
{
    match survey(
        alloc,
        program.image(),
        program.input(),
        SHARD_ROWS,
        u64::from(BUDGET_LIMIT),
    ) {
        Ok(points) => Ok(points),
        Err(RunFault::NoMemory) => Err(NoMemory),
        Err(RunFault::Budget | RunFault::Shards { .. }) => unreachable!(),
    }
}
