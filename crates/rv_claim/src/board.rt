//! The board.

ghost use Rattle.std.specs.Prelude.{◌≡◌, ◌+◌, ◌≤◌, ◌<◌, length};
ghost use Rattle.rv_base.specs.declared.limits.TheConstants.{SHARDS_LIMIT, WORKERS_LIMIT};

use crate::rules::{About, Rules};
use crate::view::{Deposit, View};
use atomic_table::Table;
use rv_book::Task;
use std::alloc::Global;

/// What the workers on a task share: the number drawn next, and for each shard a mark and a slot
/// for its piece. Its type names no lifetime, so that the closure of a thread may hold a reference
/// to it: the task is given again when the board is closed.
#[derive(Drop)]
pub struct Board<T: Task> {
    pub(crate) shards: u32,
    pub(crate) workers: u32,
    // word 0 is the number drawn next, word i + 1 the mark of slot i
    pub(crate) table: Table<Option<Deposit>, View, About<T>, Rules<T>, Global>,
    pub ghost few: { (shards ≤ SHARDS_LIMIT) × (1 ≤ shards) × (workers ≤ WORKERS_LIMIT) × (1 ≤ workers) },
    pub ghost sized: { (table.shared.table_id.words ≡ shards + 1) × (table.shared.table_id.slots ≡ shards) },
    pub ghost about: { (table.shared.key.0 ≡ shards) × (table.shared.key.1 ≡ workers) },
}
