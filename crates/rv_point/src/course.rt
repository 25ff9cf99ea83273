//! A run step by step, with its output.

ghost use Rattle.std.specs.Prelude.{◌≡◌, ◌+◌, ◌*◌, ◌^◌, ◌<◌, ◌≤◌, ◌++◌, List, length, take, Some, None, IfOk, IfErr, OnOk};
ghost use Rattle.std.specs.Int.{w32, to_le_bytes};
ghost use Rattle.std.specs.List.Sorted.{IsPermutation, IsNonDecreasingBy};
ghost use Rattle.rv_base.specs.declared.limits.TheConstants.{SHARD_SIZE_LIMIT};
ghost use Rattle.rv_base.specs.declared.record.TableEntry.{TableEntry as EntryOf};
ghost use Rattle.rv_row.specs.RowReading.{row_view};
ghost use Rattle.rv_spec.specs.Cells.{time_of as time_is};
ghost use Rattle.rv_spec.specs.Trace.{row};
ghost use Rattle.rv_point.specs.Course.{GivesShard, HasFault, IsAt, IsBegun, IsNextStart, IsSameRun, NeedsMore, SkipsSteps, TakesRow, TakesRows, TakesShard, first_finds};

use crate::fault::RunFault;
use crate::start::{Cells, ShardStart};
use rv_base::limits::SHARDS_LIMIT;
use rv_base::{Access, End, NoMemory, Place, TableEntry, time_of};
use rv_isa::Hart;
use rv_row::{Row, no_row};
use std::alloc::Global;

/// A run after some steps: the hart, the output, how many steps were taken, and the end if the last of them
/// ended the run.
#[derive(Drop)]
pub(crate) struct Course<'a> {
    pub hart: Hart<'a>,
    pub output: Vec<u8>,
    pub steps: u64,
    pub ended: Option<End>,
}

impl Course<'_> {
    /// The place before the next step.
    pub fn place(&self) -> Place
        ensures { result ≡ record { pc = self.now.hart.pc; input = self.now.hart.position; output = length self.now.output.items } }
    {
        Place {
            pc: self.hart.pc(),
            input: self.hart.position(),
            output: self.output.len() as u64,
        }
    }

    /// Takes the next step, and leaves its row in place of another.
    pub fn take_step(&mut self, row: &mut Row) -> Result<(), NoMemory>
        requires at { IsAt self.old }
        requires going { self.old.ended ≡ None }
        requires number { self.old.steps < 2 ^ 32 }
        ensures same { IsSameRun self.old self.new }
        ensures ok { OnOk result (TakesRow self.old self.new row.new) }
    {
        let taken = self.hart.step(self.steps, row)?;
        put(&mut self.output, taken.word, taken.put)?;
        self.steps += 1;
        self.ended = taken.end;
        Ok(())
    }

    /// Takes steps until the run ends or so many were taken, and lists what the first uses of their cells find.
    fn take_steps(&mut self, entries: &mut Vec<TableEntry>, most: u64) -> Result<(), NoMemory>
        requires at { IsAt self.old }
        requires going { self.old.ended ≡ None }
        requires number { self.old.steps + most < 2 ^ 32 }
        ensures same { IsSameRun self.old self.new }
        ensures ok { OnOk result (TakesRows self.old self.new most entries.old.items entries.new.items) }
    {
        let first = time_of(self.steps, 0);
        let mut row = no_row();
        for taken in 0..most {
            self.take_step(&mut row)?;
            list_firsts(entries, row.accesses.as_slice(), first)?;
            if self.ended.is_some() {
                return Ok(());
            }
        }
        Ok(())
    }

    /// Takes the steps of a shard, up to the end of the run or so many, and gives what the cells that they use
    /// held before them, by rising number.
    fn take_shard(&mut self, alloc: Global, most: u64) -> Result<Cells, NoMemory>
        requires at { IsAt self.old }
        requires going { self.old.ended ≡ None }
        requires number { self.old.steps + most < 2 ^ 32 }
        ensures same { IsSameRun self.old self.new }
        ensures ok { IfOk result (TakesShard self.old self.new most) }
    {
        let mut entries = Vec::new(alloc);
        self.take_steps(&mut entries, most)?;
        sort_by_cell(&mut entries);
        Ok(Cells::of(entries))
    }

    /// Takes steps until the run ends or so many were taken.
    fn skip_steps(&mut self, most: u64) -> Result<(), NoMemory>
        requires at { IsAt self.old }
        requires going { self.old.ended ≡ None }
        requires number { self.old.steps + most < 2 ^ 32 }
        ensures same { IsSameRun self.old self.new }
        ensures ok { OnOk result (SkipsSteps self.old self.new most) }
    {
        let mut row = no_row();
        for taken in 0..most {
            self.take_step(&mut row)?;
            if self.ended.is_some() {
                return Ok(());
            }
        }
        Ok(())
    }

    /// The start of the next shard of a run that goes on, after so many shards that were given. Budget where the
    /// run goes on past its budget of steps, which end within that shard.
    fn next_start(
        &mut self,
        alloc: Global,
        size: u32,
        budget: u64,
        given: u32,
    ) -> Result<ShardStart, RunFault>
        requires begun { IsBegun self.old size budget given }
        requires going { self.old.ended ≡ None }
        requires few { given < SHARDS_LIMIT }
        ensures same { IsSameRun self.old self.new }
        ensures ok { IfOk result (λ s. IsNextStart self.old.hart.cells.image self.old.hart.input size budget given s × IsBegun self.new size budget (given + 1)) }
        ensures err { IfErr result (HasFault self.old.hart.cells.image self.old.hart.input size budget given) }
    {
        let place = self.place();
        let step = self.steps;
        let most = u64::from(size).min(budget - step);
        let cells = self.take_shard(alloc, most)?;
        let rows = (self.steps - step) as u32;
        if self.ended.is_none() && rows < size {
            return Err(RunFault::Budget);
        }
        Ok(ShardStart {
            index: given,
            rows,
            step,
            place,
            cells,
        })
    }

    /// How many shards a run needs that goes on after as many as a record has. Budget where it goes on past its
    /// budget of steps.
    fn needed(&mut self, size: u32, budget: u64) -> Result<u64, RunFault>
        requires begun { IsBegun self.old size budget SHARDS_LIMIT }
        requires going { self.old.ended ≡ None }
        ensures same { IsSameRun self.old self.new }
        ensures ok { IfOk result (NeedsMore self.old.hart.cells.image self.old.hart.input size budget SHARDS_LIMIT) }
        ensures err { IfErr result (HasFault self.old.hart.cells.image self.old.hart.input size budget SHARDS_LIMIT) }
    {
        self.skip_steps(budget - self.steps)?;
        if self.ended.is_none() {
            return Err(RunFault::Budget);
        }
        Ok(self.steps.div_ceil(u64::from(size)))
    }

    /// The start of the next shard, after so many that were given; None where the run ended with them. Budget
    /// where the run goes on past its budget of steps, and Shards where it needs more than a record has.
    pub fn next_shard(
        &mut self,
        alloc: Global,
        size: u32,
        budget: u64,
        given: u32,
    ) -> Result<Option<ShardStart>, RunFault>
        requires begun { IsBegun self.old size budget given }
        requires within { given ≤ SHARDS_LIMIT }
        ensures same { IsSameRun self.old self.new }
        ensures ok { IfOk result (GivesShard self.old self.new size budget given) }
        ensures err { IfErr result (HasFault self.old.hart.cells.image self.old.hart.input size budget given) }
    {
        if self.ended.is_some() {
            return Ok(None);
        }
        if given < SHARDS_LIMIT {
            let start = self.next_start(alloc, size, budget, given)?;
            return Ok(Some(start));
        }
        let needed = self.needed(size, budget)?;
        Err(RunFault::Shards { needed })
    }
}

/// Adds the first `count` bytes of a word to the output.
fn put(output: &mut Vec<u8>, word: u32, count: u32) -> Result<(), NoMemory>
    requires { count ≤ 4 }
    ensures { OnOk result (output.new.items ≡ output.old.items ++ take count (to_le_bytes w32 word)) }
{
    if count > 0 {
        let bytes = word.to_le_bytes();
        output.extend_from_slice(&bytes[..count as usize])?;
    }
    Ok(())
}

/// Lists what accesses find that are the first ones of their cells, where no cell was used after a time before them.
fn list_firsts(
    entries: &mut Vec<TableEntry>,
    accesses: &[Access],
    time: u64,
) -> Result<(), NoMemory>
    ensures { OnOk result (entries.new.items ≡ entries.old.items ++ first_finds time accesses.now) }
{
    for access in accesses {
        if access.prev <= time {
            entries.push(TableEntry {
                cell: access.cell,
                value: access.old,
                time: access.prev,
            })?;
        }
    }
    Ok(())
}

/// Puts entries into the order of their cells.
fn sort_by_cell(entries: &mut [TableEntry])
    ensures permutation { IsPermutation entries.old entries.new }
    ensures sorted { IsNonDecreasingBy (λ (e : EntryOf). e.cell) entries.new }
{
    entries.sort_unstable_by_key(|e| e.cell);
}
