//! The record of a run, put together in memory of the pieces that one thread makes.

ghost use Rattle.std.specs.Prelude.{◌≡◌, ℕ, ◌+◌, ◌*◌, ◌<◌, ◌≤◌, ◌++◌, IfOk, OnOk, Some};
ghost use Rattle.std.specs.List.{flat_map, range_with_len};
ghost use Rattle.rv_base.specs.declared.layout.TheConstants.{ACCESS_BYTES, DIGESTS_BYTES, HEAD_BYTES, ROW_BYTES};
ghost use Rattle.rv_base.specs.declared.limits.TheConstants.{BUDGET_LIMIT, SHARDS_LIMIT};
ghost use Rattle.rv_spec.specs.Record.{header, header_bytes, table_bytes as spelled_table};
ghost use Rattle.rv_spec.specs.Trace.{table};
ghost use Rattle.rv_book.specs.Journal.{piece_at};
ghost use Rattle.rv_book.specs.declared.task.Piece.{Piece as PieceOf};
ghost use Rattle.rv_trial.specs.Trials.{shard_rows};
ghost use Rattle.rv_trial.specs.Recording.{IsSurveyed, IsTaskDue, accesses_of, recorded};

use rv_base::layout::{ACCESS_BYTES, DIGESTS_BYTES, HEAD_BYTES, HEADER_BYTES, ROW_BYTES};
use rv_base::{Header, NoMemory};
use rv_book::{Book, Task};
use rv_file::{table_bytes, write_header};
use rv_point::Points;
use rv_program::Program;
use rv_team::run_one;
use std::alloc::{AllocError, Global};

/// The version of the records: instructions of RV32IM.
const VERSION: u8 = 1;

/// The record of a run, and the accesses of all its rows.
#[derive(Drop)]
pub struct Recorded {
    pub file: Vec<u8>,
    pub accesses: u64,
}

/// The record of a run whose pieces are a task's.
pub fn record_of<T: Task>(
    alloc: Global,
    program: &Program<'_>,
    points: &Points<'_>,
    task: &T,
) -> Result<Recorded, NoMemory>
    requires survey { IsSurveyed program.now points.now }
    requires due { IsTaskDue program.now points.now (T.bound task.now) (T.piece task.now) }
    ensures file { IfOk result (λ r. r.file.items ≡ recorded program.now points.now) }
    ensures accesses { IfOk result (λ r. r.accesses ≡ accesses_of program.now points.now) }
{
    let book = run_one(alloc, task, points.shards())?;
    let mut file = Vec::new(alloc);
    file.extend_from_slice(&front_of(program, points))?;
    file.extend_from_slice(points.output())?;
    let front = file.len();
    push_pieces(&mut file, &book, points.shards())?;
    let bytes = (file.len() - front) as u64;
    let table = table_of(alloc, points)?;
    file.extend_from_slice(&table)?;
    Ok(Recorded {
        file,
        accesses: accesses_within(bytes, points.shards(), points.steps()),
    })
}

/// The 173 bytes of the header.
fn front_of(program: &Program<'_>, points: &Points<'_>) -> [u8; HEADER_BYTES]
    requires { IsSurveyed program.now points.now }
    ensures { result ≡ header_bytes (header 1 program.now.elf program.now.input shard_rows points.now.steps points.now.end) }
{
    write_header(&Header {
        version: VERSION,
        elf: program.elf_hash(),
        input: program.input_hash(),
        size: points.size(),
        steps: points.steps(),
        shards: points.shards(),
        end: points.end(),
        consumed: points.consumed(),
        length: points.output().len() as u64,
    })
}

/// The bytes of the table. A table of 2^32 entries has no count that could be written.
fn table_of(alloc: Global, points: &Points<'_>) -> Result<Vec<u8>, NoMemory>
    ensures { IfOk result (λ bytes. bytes.items ≡ spelled_table (table points.now.image points.now.input points.now.steps)) }
{
    let entries = points.table();
    if u32::try_from(entries.len()).is_err() {
        return Err(NoMemory);
    }
    table_bytes(alloc, entries)
}

/// Appends the pieces of all shards, in order.
fn push_pieces<T: Task>(
    file: &mut Vec<u8>,
    book: &Book<'_, T>,
    shards: u32,
) -> Result<(), AllocError>
    requires { (i : ℕ) → i < shards → (p : PieceOf) × (piece_at book.now i ≡ Some p) }
    ensures { (piece : ℕ → PieceOf) → ((i : ℕ) → i < shards → piece_at book.now i ≡ Some (piece i))
        → OnOk result (file.new.items ≡ file.old.items ++ flat_map (λ i. (piece i).bytes) (range_with_len 0 shards)) }
{
    for i in 0..shards {
        file.extend_from_slice(bytes_of(book, i))?;
    }
    Ok(())
}

/// The bytes of a piece that the book has.
fn bytes_of<'b, T: Task>(book: &'b Book<'_, T>, i: u32) -> &'b [u8]
    requires { (p : PieceOf) × (piece_at book.now i ≡ Some p) }
    ensures { (p : PieceOf) → piece_at book.now i ≡ Some p → result.now ≡ p.bytes }
{
    match book.piece(i) {
        Some(piece) => piece.bytes.list(),
        None => unreachable!(),
    }
}

/// The accesses of all rows, by the bytes of the shards: each shard has a head and two digests, each row its front.
fn accesses_within(bytes: u64, shards: u32, steps: u64) -> u64
    requires shards { shards ≤ SHARDS_LIMIT }
    requires steps { steps ≤ BUDGET_LIMIT }
    requires room { (HEAD_BYTES + DIGESTS_BYTES) * shards + ROW_BYTES * steps ≤ bytes }
    ensures { (a : ℕ) → bytes ≡ (HEAD_BYTES + DIGESTS_BYTES) * shards + ROW_BYTES * steps + ACCESS_BYTES * a → result ≡ a }
{
    let around = (HEAD_BYTES + DIGESTS_BYTES) as u64 * u64::from(shards) + ROW_BYTES as u64 * steps;
    (bytes - around) / ACCESS_BYTES as u64
}
