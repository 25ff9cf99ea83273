//! `make` and `make2`: write the record of a run.

ghost use Rattle.std.specs.Prelude.{◌≡◌, ℕ, ◌<◌, ◌≤◌, IfOk, IfErr, Some};
ghost use Rattle.std.specs.Int.{IsInRange};
ghost use Rattle.std.specs.List.{flat_map, range_with_len};
ghost use Rattle.rv_spec.specs.Elf.{image};
ghost use Rattle.rv_book.specs.Journal.{piece_at};
ghost use Rattle.rv_book.specs.declared.task.Piece.{Piece as PieceOf};
ghost use Rattle.rv_plan.specs.FileCalls.{Performs};
ghost use Rattle.rv_point.specs.PointsState.{IsSurvey};
ghost use Rattle.rv_commands.specs.CommandLine as command;
ghost use Rattle.rv_commands.specs.Commands.{make_words};
ghost use Rattle.rv_commands.specs.Headline.{Made};
ghost use Rattle.rv_commands.specs.Making.{HasPieces, IsEnded, IsNoSurvey, IsTaskDue, Records};
ghost use Rattle.rv_commands.specs.Outcome.{plan_of};

use crate::commands::Make;
use crate::recording::{Ended, fault_of, write_run};
use rv_base::NoMemory;
use rv_base::limits::{BUDGET_LIMIT, SHARD_SIZE_LIMIT, WORKERS_LIMIT};
use rv_book::{Book, Task};
use rv_digest::ShaLanes;
use rv_elf::Image;
use rv_host::{Gate, Shelf};
use rv_plan::{Fault, Loaded, Told, image_of, load};
use rv_point::{Points, survey};
use rv_replay::ShardTask;
use rv_team::{run_one, run_team};
use std::alloc::Global;
use std::sync::Wait;
use std::thread::Threads;

/// Makes the record by one worker, writes it to its file, and tells of it. All memory is taken before the file is touched.
pub fn make<S: Shelf>(alloc: Global, words: &Make<'_>, shelf: &mut S) -> Result<Told, Fault>
    requires version { IsInRange 1 2 words.now.version }
    requires shard { IsInRange 1 SHARD_SIZE_LIMIT words.now.shard }
    requires budget { IsInRange 1 BUDGET_LIMIT words.now.budget }
    ensures performs { Performs (plan_of (command.make (make_words words.now))) (S.view shelf.old) (S.view shelf.new) result }
    ensures headline { IfOk result (λ told. told.status ≡ 0 → Made (S.view shelf.old) (S.view shelf.new) (make_words words.now)) }
{
    let loaded = load(alloc, shelf, words.elf, words.input)?;
    let image = image_of(loaded.elf.list(), words.version)?;
    let points = survey_run(
        alloc,
        &image,
        loaded.input.list(),
        words.shard,
        words.budget,
    )?;
    let task = ShardTask::new(&points, ShaLanes);
    let told = record_alone(alloc, shelf, words, &loaded, &points, &task)?;
    Ok(told)
}

/// What `make` does, by as many workers as the words ask for.
pub fn make_by_team<R: Threads + Wait + Sync, S: Shelf, G: Gate>(
    rt: &R,
    alloc: Global,
    words: &Make<'_>,
    shelf: &mut S,
    gate: &G,
) -> Result<Told, Fault>
    requires version { IsInRange 1 2 words.now.version }
    requires workers { IsInRange 1 WORKERS_LIMIT words.now.workers }
    requires shard { IsInRange 1 SHARD_SIZE_LIMIT words.now.shard }
    requires budget { IsInRange 1 BUDGET_LIMIT words.now.budget }
    ensures performs { Performs (plan_of (command.make (make_words words.now))) (S.view shelf.old) (S.view shelf.new) result }
    ensures headline { IfOk result (λ told. told.status ≡ 0 → Made (S.view shelf.old) (S.view shelf.new) (make_words words.now)) }
{
    let loaded = load(alloc, shelf, words.elf, words.input)?;
    let image = image_of(loaded.elf.list(), words.version)?;
    let points = survey_run(
        alloc,
        &image,
        loaded.input.list(),
        words.shard,
        words.budget,
    )?;
    let task = ShardTask::new(&points, ShaLanes);
    let told = record_by_team(rt, alloc, shelf, words, &loaded, &points, &task, gate)?;
    Ok(told)
}

/// The record of a run whose pieces one worker makes.
fn record_alone<S: Shelf, T: Task>(
    alloc: Global,
    shelf: &mut S,
    words: &Make<'_>,
    loaded: &Loaded,
    points: &Points<'_>,
    task: &T,
) -> Result<Told, Fault>
    requires version { IsInRange 1 2 words.now.version }
    requires shard { IsInRange 1 SHARD_SIZE_LIMIT words.now.shard }
    requires budget { words.now.budget ≤ BUDGET_LIMIT }
    requires due { IsTaskDue (make_words words.now) loaded.now.elf loaded.now.input points.now (T.bound task.now) (T.piece task.now) }
    ensures { Records (make_words words.now) loaded.now.elf loaded.now.input (S.view shelf.old) (S.view shelf.new) result }
{
    let Ok(book) = run_one(alloc, task, points.shards()) else {
        return Err(Fault::Memory);
    };
    write_record(alloc, shelf, words, loaded, points, &book)
}

/// The record of a run whose pieces workers make.
fn record_by_team<R: Threads + Wait + Sync, S: Shelf, T: Task, G: Gate>(
    rt: &R,
    alloc: Global,
    shelf: &mut S,
    words: &Make<'_>,
    loaded: &Loaded,
    points: &Points<'_>,
    task: &T,
    gate: &G,
) -> Result<Told, Fault>
    requires version { IsInRange 1 2 words.now.version }
    requires workers { IsInRange 1 WORKERS_LIMIT words.now.workers }
    requires shard { IsInRange 1 SHARD_SIZE_LIMIT words.now.shard }
    requires budget { words.now.budget ≤ BUDGET_LIMIT }
    requires due { IsTaskDue (make_words words.now) loaded.now.elf loaded.now.input points.now (T.bound task.now) (T.piece task.now) }
    ensures { Records (make_words words.now) loaded.now.elf loaded.now.input (S.view shelf.old) (S.view shelf.new) result }
{
    let Ok(book) = run_team(rt, alloc, task, points.shards(), words.workers, gate) else {
        return Err(Fault::Memory);
    };
    write_record(alloc, shelf, words, loaded, points, &book)
}

/// Puts the record together of the pieces in a book, writes it to its file, and tells of it.
fn write_record<S: Shelf, T: Task>(
    alloc: Global,
    shelf: &mut S,
    words: &Make<'_>,
    loaded: &Loaded,
    points: &Points<'_>,
    book: &Book<'_, T>,
) -> Result<Told, Fault>
    requires version { IsInRange 1 2 words.now.version }
    requires shard { IsInRange 1 SHARD_SIZE_LIMIT words.now.shard }
    requires budget { words.now.budget ≤ BUDGET_LIMIT }
    requires has { HasPieces (make_words words.now) loaded.now.elf loaded.now.input points.now book.now }
    ensures { Records (make_words words.now) loaded.now.elf loaded.now.input (S.view shelf.old) (S.view shelf.new) result }
{
    let ended = ended_of(words, loaded, points);
    let Ok(shards) = shards_of(alloc, book, ended.shards) else {
        return Err(Fault::Memory);
    };
    write_run(alloc, shelf, words, loaded, &ended, shards.as_slice())
}

/// How the run of a survey ended.
fn ended_of<'p>(words: &Make<'_>, loaded: &Loaded, points: &'p Points<'_>) -> Ended<'p>
    requires { IsSurvey (image words.now.version loaded.now.elf) loaded.now.input words.now.shard words.now.budget points.now }
    ensures ended { IsEnded (make_words words.now) loaded.now.elf loaded.now.input result }
    ensures steps { result.steps ≡ points.now.steps }
{
    Ended {
        steps: points.steps(),
        shards: points.shards(),
        end: points.end(),
        consumed: points.consumed(),
        output: points.output(),
        table: points.table(),
    }
}

/// The bytes of the first pieces of a book, in order.
fn shards_of<'b, T: Task>(
    alloc: Global,
    book: &'b Book<'_, T>,
    shards: u32,
) -> Result<Vec<&'b [u8]>, NoMemory>
    requires { (i : ℕ) → i < shards → (p : PieceOf) × (piece_at book.now i ≡ Some p) }
    ensures { (piece : ℕ → PieceOf) → ((i : ℕ) → i < shards → piece_at book.now i ≡ Some (piece i))
        → IfOk result (λ parts. flat_map (λ part. part.now) parts.items ≡ flat_map (λ i. (piece i).bytes) (range_with_len 0 shards)) }
{
    let mut parts = Vec::new(alloc);
    for i in 0..shards {
        parts.push(bytes_of(book, i))?;
    }
    Ok(parts)
}

/// The bytes of a piece that the book has.
fn bytes_of<'b, T: Task>(book: &'b Book<'_, T>, i: u32) -> &'b [u8]
    requires { (p : PieceOf) × (piece_at book.now i ≡ Some p) }
    ensures { (p : PieceOf) → piece_at book.now i ≡ Some p → result.now ≡ p.bytes }
{
    match book.piece(i) {
        Some(piece) => piece.bytes.list(),
        None => unreachable!(),
    }
}

/// The run in shards, or why there is no record of it.
fn survey_run<'a>(
    alloc: Global,
    image: &Image<'a>,
    input: &'a [u8],
    shard: u32,
    budget: u32,
) -> Result<Points<'a>, Fault>
    requires shard { IsInRange 1 SHARD_SIZE_LIMIT shard }
    requires budget { IsInRange 1 BUDGET_LIMIT budget }
    ensures ok { IfOk result (IsSurvey image.now input.now shard budget) }
    ensures err { IfErr result (IsNoSurvey image.now input.now shard budget) }
{
    match survey(alloc, image, input, shard, u64::from(budget)) {
        Ok(points) => Ok(points),
        Err(fault) => Err(fault_of(fault, budget)),
    }
}
