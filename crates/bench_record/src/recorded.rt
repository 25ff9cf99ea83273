//! Records in memory, made and checked by the calls that the program makes.

ghost use Rattle.std.specs.Prelude.{◌≡◌, ◌≤◌, IfOk};
ghost use Rattle.std.specs.Int.{IsInRange, div_ceil};

use rv_base::layout::{
    ACCESS_BYTES, COUNT_BYTES, DIGESTS_BYTES, ENTRY_BYTES, HEAD_BYTES, HEADER_BYTES, ROW_BYTES,
};
use rv_base::limits::{SHARD_SIZE_LIMIT, SHARDS_LIMIT, WORKERS_LIMIT};
use rv_base::{Header, NoMemory, Verdict};
use rv_book::{Book, Task};
use rv_digest::{Lanes, ShaLanes};
use rv_file::{table_bytes, write_header};
use rv_host::OpenGate;
use rv_judge::judge;
use rv_panel::panel;
use rv_point::Points;
use rv_program::Program;
use rv_replay::ShardTask;
use rv_team::{run_one, run_team};
use std::alloc::Global;
use std::sync::Wait;
use std::thread::Threads;

/// The pieces of a run, by one thread where there is one worker.
pub(crate) fn pieces_of<'t, R: Threads + Wait + Sync, T: Task>(
    rt: &R,
    alloc: Global,
    task: &'t T,
    shards: u32,
    workers: u32,
) -> Result<Book<'t, T>, NoMemory>
    requires shards { IsInRange 1 SHARDS_LIMIT shards }
    requires bound { shards ≤ T.bound task.now }
    requires workers { IsInRange 1 WORKERS_LIMIT workers }
{
    if workers == 1 {
        return run_one(alloc, task, shards);
    }
    run_team(rt, alloc, task, shards, workers, &OpenGate)
}

/// The header of the record of a run.
fn header_of(program: &Program<'_>, points: &Points<'_>) -> Header
    ensures { result.version ≡ 1 }
{
    Header {
        version: 1,
        elf: program.elf_hash(),
        input: program.input_hash(),
        size: points.size(),
        steps: points.steps(),
        shards: points.shards(),
        end: points.end(),
        consumed: points.consumed(),
        length: points.output().len() as u64,
    }
}

/// The bytes of the header.
fn front_of(program: &Program<'_>, points: &Points<'_>) -> [u8; HEADER_BYTES] {
    write_header(&header_of(program, points))
}

/// The record of a run, of its pieces.
pub(crate) fn file_of<T: Task>(
    alloc: Global,
    program: &Program<'_>,
    points: &Points<'_>,
    book: &Book<'_, T>,
) -> Result<Vec<u8>, NoMemory> {
    let mut file = Vec::new(alloc);
    file.extend_from_slice(&front_of(program, points))?;
    file.extend_from_slice(points.output())?;
    for i in 0..points.shards() {
        if let Some(piece) = book.piece(i) {
            file.extend_from_slice(piece.bytes.list())?;
        }
    }
    let entries = points.table();
    if u32::try_from(entries.len()).is_err() {
        return Err(NoMemory);
    }
    file.extend_from_slice(&table_bytes(alloc, entries)?)?;
    Ok(file)
}

/// The verdict, by one thread where there is one worker.
pub(crate) fn checked<R: Threads + Wait + Sync>(
    rt: &R,
    alloc: Global,
    program: &Program<'_>,
    file: &[u8],
    workers: u32,
) -> Result<Verdict, NoMemory>
    requires { (1 ≤ workers) × (workers ≤ WORKERS_LIMIT) }
{
    if workers == 1 {
        return Ok(judge(program, file, ShaLanes));
    }
    panel(rt, alloc, program, file, &ShaLanes, workers, &OpenGate)
}

/// The number of accesses of the record of a run, by its length in bytes.
pub(crate) fn accesses_of(points: &Points<'_>, file: &[u8]) -> u64 {
    let table = COUNT_BYTES + ENTRY_BYTES.wrapping_mul(points.table().len());
    let shards = (HEAD_BYTES + DIGESTS_BYTES) as u64 * u64::from(points.shards());
    let rows = (ROW_BYTES as u64).wrapping_mul(points.steps());
    let around = (HEADER_BYTES as u64)
        .wrapping_add(points.output().len() as u64)
        .wrapping_add(table as u64)
        .wrapping_add(shards)
        .wrapping_add(rows);
    (file.len() as u64).wrapping_sub(around) / ACCESS_BYTES as u64
}
