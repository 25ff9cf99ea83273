//! How a board is opened, with its passes.

ghost use Rattle.std.specs.Prelude.{◌≡◌, ◌+◌, ◌≤◌, ◌<◌, [], length, slice_index_or, IfOk, OnOk};
ghost use Rattle.rv_claim.specs.Views.{home_view, fresh};
ghost use Rattle.rv_claim.specs.Passes.{AreNew, shards_of, task_of, workers_of};
ghost use Rattle.rv_claim.specs.Making.{AreMore};

use crate::board::Board;
use crate::pass::Pass;
use crate::rules::{About, Makes, Rules};
use crate::view::{Deposit, View};
use atomic_table::{Badge, Seat, Table};
use rv_base::NoMemory;
use rv_base::limits::{SHARDS_LIMIT, WORKERS_LIMIT};
use rv_book::Task;
use std::alloc::Global;
use std::snapshot::Snapshot;

type Words<T> = Table<Option<Deposit>, View, About<T>, Rules<T>, Global>;

impl<T: Task> Board<T> {
    /// A board for the first `n` pieces of a task, and its passes, numbered from 0.
    pub fn open(
        alloc: Global,
        task: &T,
        n: u32,
        workers: u32,
    ) -> Result<(Board<T>, Vec<Pass>), NoMemory>
        requires shards { (1 ≤ n) × (n ≤ SHARDS_LIMIT) }
        requires bound { n ≤ T.bound task.now }
        requires workers { (1 ≤ workers) × (workers ≤ WORKERS_LIMIT) }
        ensures board { IfOk result (λ r. (shards_of r.0 ≡ n) × (workers_of r.0 ≡ workers) × (task_of r.0 ≡ task.now)) }
        ensures passes { IfOk result (λ r. AreNew r.0 r.1.items) }
    {
        let about = (n, workers, Snapshot::of(task));
        let Ok(words) = Vec::from_elem(alloc, 0u64, n as usize + 1) else {
            return Err(NoMemory);
        };
        let Ok(made) = Table::vacant(alloc, words.as_slice(), n as usize, &about) else {
            return Err(NoMemory);
        };
        let (table, mut home): (Words<T>, Seat<Option<Deposit>, View>) = made;
        let seat = table.shared.split_seat::<Makes>(&mut home);
        let mut passes = Vec::new(alloc);
        make_passes(&table, &mut home, &mut passes, n, workers)?;
        let first = Pass {
            seat,
            home: home.into_badge(),
            number: 0,
            shards: n,
            workers,
            done: false,
        };
        if passes.insert(0, first).is_err() {
            return Err(NoMemory);
        }
        let board = Board {
            shards: n,
            workers,
            table,
        };
        Ok((board, passes))
    }
}

// Makes the passes from number 1 on. Number 0 takes home's seat, and is made last.
fn make_passes<T: Task>(
    table: &Words<T>,
    home: &mut Seat<Option<Deposit>, View>,
    passes: &mut Vec<Pass>,
    shards: u32,
    workers: u32,
) -> Result<(), NoMemory>
    requires table { (table.now.shared.key.1 ≡ workers) × (0 < table.now.shared.table_id.words) × (1 ≤ workers) }
    requires home { (home.old.table_id ≡ table.now.shared.table_id) × (home.old.id ≡ 0)
        × (home.old.me ≡ (home_view 1 [], [])) }
    requires none { passes.old.items ≡ [] }
    ensures home { OnOk result ((home.new.table_id ≡ home.old.table_id) × (home.new.id ≡ 0)
        × (home.new.me ≡ (home_view workers [], []))) }
    ensures passes { OnOk result ((length passes.new.items + 1 ≡ workers)
        × AreMore table.now.shared.table_id shards workers passes.new.items) }
{
    for number in 1..workers {
        let seat = table.shared.split_seat::<Makes>(home);
        let pass = Pass {
            seat,
            home: Badge::blank(),
            number,
            shards,
            workers,
            done: false,
        };
        if passes.push(pass).is_err() {
            return Err(NoMemory);
        }
    }
    Ok(())
}
