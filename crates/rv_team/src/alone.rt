//! A task's pieces, made by one thread.

ghost use Rattle.std.specs.Prelude.{◌≡◌, ◌≤◌, IfOk, map};
ghost use Rattle.std.specs.List.{range_with_len};
ghost use Rattle.rv_book.specs.Journal.{IsWhole, entry};

use rv_base::NoMemory;
use rv_base::limits::SHARDS_LIMIT;
use rv_book::{Book, Task};
use std::alloc::Global;

/// Makes the first `n` pieces of a task on this thread, one after another, as pass 0.
pub fn run_one<'t, T: Task>(alloc: Global, task: &'t T, n: u32) -> Result<Book<'t, T>, NoMemory>
    requires shards { (1 ≤ n) × (n ≤ SHARDS_LIMIT) }
    requires bound { n ≤ T.bound task.now }
    ensures whole { IfOk result (IsWhole (T.piece task.now) n) }
    ensures journal { IfOk result (λ b. b.journal ≡ map (entry 0) (range_with_len 0 n)) }
{
    let mut book = Book::open(alloc, task, n)?;
    for i in 0..n {
        let piece = task.work(alloc, i)?;
        book.deposit(0, piece);
    }
    Ok(book)
}
