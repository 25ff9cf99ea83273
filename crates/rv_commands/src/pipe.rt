//! `pipe`: writes the record of a run whose shards are made while the run is still gone through.

ghost use Rattle.std.specs.Prelude.{◌≡◌, ◌≤◌, IfOk, IfErr, None};
ghost use Rattle.std.specs.Int.{IsInRange};
ghost use Rattle.std.specs.List.{flat_map};
ghost use Rattle.rv_spec.specs.Digest.{sha_lanes};
ghost use Rattle.rv_spec.specs.Elf.{first_fault, image};
ghost use Rattle.rv_pipe.specs.Whole.{IsPiped, opened_walk};
ghost use Rattle.rv_point.specs.Walk.{IsWhole};
ghost use Rattle.rv_plan.specs.FileCalls.{Performs};
ghost use Rattle.rv_commands.specs.CommandLine as command;
ghost use Rattle.rv_commands.specs.Commands.{make_words, pipe_words};
ghost use Rattle.rv_commands.specs.Headline.{Made};
ghost use Rattle.rv_commands.specs.Making.{IsEnded, IsNoSurvey, Records};
ghost use Rattle.rv_commands.specs.Outcome.{plan_of};

use crate::commands::{LEAST_PIPE_WORKERS, Make, Pipe};
use crate::recording::{Ended, fault_of, write_run};
use rv_base::NoMemory;
use rv_base::limits::{BUDGET_LIMIT, SHARD_SIZE_LIMIT, WORKERS_LIMIT};
use rv_book::Piece;
use rv_digest::ShaLanes;
use rv_elf::Image;
use rv_host::{Gate, Shelf};
use rv_pipe::Piped;
use rv_plan::{Fault, Loaded, Told, image_of, load};
use rv_point::Whole;
use std::alloc::Global;
use std::sync::Wait;
use std::thread::Threads;

/// Makes the record by workers while the run is gone through, writes it to its file, and tells of it. All memory is taken before
/// the file is touched.
pub fn pipe<R: Threads + Wait + Sync, S: Shelf, G: Gate>(
    rt: &R,
    alloc: Global,
    words: &Pipe<'_>,
    shelf: &mut S,
    gate: &G,
) -> Result<Told, Fault>
    requires version { IsInRange 1 2 words.now.make.version }
    requires workers { IsInRange LEAST_PIPE_WORKERS WORKERS_LIMIT words.now.make.workers }
    requires shard { IsInRange 1 SHARD_SIZE_LIMIT words.now.make.shard }
    requires budget { IsInRange 1 BUDGET_LIMIT words.now.make.budget }
    requires waiting { 1 ≤ words.now.waiting }
    ensures performs { Performs (plan_of (command.pipe (pipe_words words.now))) (S.view shelf.old) (S.view shelf.new) result }
    ensures headline { IfOk result (λ told. told.status ≡ 0 → Made (S.view shelf.old) (S.view shelf.new) (make_words words.now.make)) }
{
    let make = &words.make;
    let loaded = load(alloc, shelf, make.elf, make.input)?;
    let image = image_of(loaded.elf.list(), make.version)?;
    let piped = pipe_run(rt, alloc, words, &image, loaded.input.list(), gate)?;
    let told = record_piped(alloc, shelf, make, &loaded, &piped)?;
    Ok(told)
}

/// The run and the pieces of its shards, or why there is no record of it.
fn pipe_run<R: Threads + Wait + Sync, G: Gate>(
    rt: &R,
    alloc: Global,
    words: &Pipe<'_>,
    image: &Image<'_>,
    input: &[u8],
    gate: &G,
) -> Result<Piped, Fault>
    requires workers { IsInRange LEAST_PIPE_WORKERS WORKERS_LIMIT words.now.make.workers }
    requires shard { IsInRange 1 SHARD_SIZE_LIMIT words.now.make.shard }
    requires budget { IsInRange 1 BUDGET_LIMIT words.now.make.budget }
    requires waiting { 1 ≤ words.now.waiting }
    ensures ok { IfOk result (IsPiped sha_lanes image.now input.now words.now.make.shard words.now.make.budget) }
    ensures err { IfErr result (IsNoSurvey image.now input.now words.now.make.shard words.now.make.budget) }
{
    let make = &words.make;
    match rv_pipe::pipe(
        rt,
        alloc,
        image,
        input,
        make.shard,
        u64::from(make.budget),
        make.workers,
        words.waiting,
        &ShaLanes,
        gate,
    ) {
        Ok(piped) => Ok(piped),
        Err(fault) => Err(fault_of(fault, make.budget)),
    }
}

/// Puts the record together of a run and the pieces of its shards, writes it to its file, and tells of it.
fn record_piped<S: Shelf>(
    alloc: Global,
    shelf: &mut S,
    words: &Make<'_>,
    loaded: &Loaded,
    piped: &Piped,
) -> Result<Told, Fault>
    requires version { IsInRange 1 2 words.now.version }
    requires shard { IsInRange 1 SHARD_SIZE_LIMIT words.now.shard }
    requires budget { words.now.budget ≤ BUDGET_LIMIT }
    requires faultless { first_fault loaded.now.elf ≡ None }
    requires piped { IsPiped sha_lanes (image words.now.version loaded.now.elf) loaded.now.input words.now.shard words.now.budget piped.now }
    ensures { Records (make_words words.now) loaded.now.elf loaded.now.input (S.view shelf.old) (S.view shelf.new) result }
{
    let Ok(shards) = shards_of(alloc, piped.pieces.list()) else {
        return Err(Fault::Memory);
    };
    let ended = ended_of(words, loaded, &piped.whole);
    write_run(alloc, shelf, words, loaded, &ended, shards.as_slice())
}

/// How a run ended.
fn ended_of<'p>(words: &Make<'_>, loaded: &Loaded, whole: &'p Whole) -> Ended<'p>
    requires { IsWhole (opened_walk (image words.now.version loaded.now.elf) loaded.now.input words.now.shard words.now.budget) whole.now }
    ensures ended { IsEnded (make_words words.now) loaded.now.elf loaded.now.input result }
    ensures steps { result.steps ≡ whole.now.steps }
{
    Ended {
        steps: whole.steps,
        shards: whole.shards,
        end: whole.end,
        consumed: whole.consumed,
        output: whole.output.list(),
        table: whole.table.list(),
    }
}

/// The bytes of pieces, in order.
fn shards_of<'p>(alloc: Global, pieces: &'p [Piece]) -> Result<Vec<&'p [u8]>, NoMemory>
    ensures { IfOk result (λ shards. flat_map (λ s. s.now) shards.items ≡ flat_map (λ p. p.bytes) pieces.now) }
{
    let mut shards = Vec::new(alloc);
    for piece in pieces {
        shards.push(piece.bytes.list())?;
    }
    Ok(shards)
}
