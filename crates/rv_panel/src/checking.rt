//! Checking a record file by workers.

ghost use Rattle.std.specs.Prelude.{◌≡◌, ◌≤◌, ◌+◌, ℕ, List, IfOk, drop, length, take};
ghost use Rattle.rv_spec.specs.Digest.{Lanes as LanesOf};
ghost use Rattle.rv_spec.specs.Tuples.{Event};
ghost use Rattle.rv_rules.specs.Verdict.{verdict as verdict_is};
ghost use Rattle.rv_judge.specs.Conclusions.{AcceptsRecords, IsSound};
ghost use Rattle.rv_judge.specs.Subject.{IsChecked};
ghost use Rattle.rv_panel.specs.Chaining.{AreDigests, subject_of, verdict_from};

use crate::chain::{Chained, chain_shards};
use crate::starts::find_starts;
use crate::task::ShardTask;
use rv_base::layout::HEADER_BYTES;
use rv_base::limits::WORKERS_LIMIT;
use rv_base::rules::SHORT;
use rv_base::{Header, NoMemory, Place, Refusal, Verdict};
use rv_digest::Lanes;
use rv_host::Gate;
use rv_judge::laws::verdicts_conclude;
use rv_judge::{check_end, check_table};
use rv_program::{Program, check_front};
use rv_team::run_team;
use std::alloc::Global;
use std::sync::Wait;
use std::thread::Threads;

/// The verdict on the table and the end, behind all shards.
fn finish<L: Lanes>(
    program: &Program<'_>,
    header: &Header,
    chained: &Chained<'_>,
    lanes: &L,
) -> Verdict
    requires { IsChecked header.now }
    ensures { (es : List Event) (output : List ℕ) → AreDigests L.lanes es chained.now.reads.lanes chained.now.writes.lanes
        → result ≡ verdict_from L.lanes (subject_of program.now header.now output) 0 header.now.shards chained.now.place es chained.now.rest.now }
{
    let seen = match check_table(program, header, chained.rest, lanes) {
        Ok(seen) => seen,
        Err(refusal) => return Verdict::Refuse(refusal),
    };
    let mut reads = chained.reads;
    reads.add(&seen.reads);
    let mut writes = chained.writes;
    writes.add(&seen.writes);
    let trailing = seen.used < chained.rest.len();
    check_end(
        header,
        chained.place,
        &reads,
        &writes,
        seen.entries,
        trailing,
    )
}

/// The bytes of the output, and those behind it.
fn behind_header(file: &[u8], size: usize) -> (&[u8], &[u8])
    requires { HEADER_BYTES + size ≤ length file.now }
    ensures output { result.0.now ≡ take size (drop HEADER_BYTES file.now) }
    ensures shards { result.1.now ≡ drop (HEADER_BYTES + size) file.now }
{
    (
        &file[HEADER_BYTES..HEADER_BYTES + size],
        &file[HEADER_BYTES + size..],
    )
}

/// The verdict by the definition.
fn verdict_by_team<L: Lanes + Sync, G: Gate, R: Threads + Wait + Sync>(
    rt: &R,
    alloc: Global,
    program: &Program<'_>,
    file: &[u8],
    lanes: &L,
    workers: u32,
    gate: &G,
) -> Result<Verdict, NoMemory>
    requires { (1 ≤ workers) × (workers ≤ WORKERS_LIMIT) }
    ensures { IfOk result (λ v. v ≡ verdict_is L.lanes program.now.elf program.now.input file.now) }
{
    let header = match check_front(program, file) {
        Ok(header) => header,
        Err(refusal) => return Ok(Verdict::Refuse(refusal)),
    };
    let (output, shards) = behind_header(file, header.length as usize);
    let starts = find_starts(alloc, header.shards, shards)?;
    let found = starts.len() as u32;
    if found == 0 {
        return Ok(Verdict::Refuse(Refusal::at(0, 0, SHORT)));
    }
    let first = Place {
        pc: program.image().entry(),
        input: 0,
        output: 0,
    };
    let task = ShardTask::new(program, &header, output, shards, starts, lanes);
    let book = run_team(rt, alloc, &task, found, workers, gate)?;
    match chain_shards::<L, ShardTask<'_, '_, L>>(program, &header, output, first, shards, &book) {
        Ok(chained) => Ok(finish(program, &header, &chained, lanes)),
        Err(refusal) => Ok(Verdict::Refuse(refusal)),
    }
}

/// What the laws of verdicts say of a program that is open, and a file.
fn concludes(program: &Program<'_>, file: &[u8])
    ensures sound { (lanes : LanesOf) → IsSound lanes program.now.elf program.now.input file.now (verdict_is lanes program.now.elf program.now.input file.now) }
    ensures accepts { (lanes : LanesOf) → AcceptsRecords lanes program.now.elf program.now.input file.now (verdict_is lanes program.now.elf program.now.input file.now) }
{
    verdicts_conclude();
    let _image = program.image();
    let _input = program.input();
}

/// The verdict on a record file, for a program and its input, by `workers` workers, the first in the caller's thread and each other in one of its own where threads can be had: it is the verdict of `rv_judge::judge`. Workers check shards from the places that their heads state, and the caller's thread then chains the shards in order, and judges the table and the end. A worker passes the gate before each shard.
pub fn panel<L: Lanes + Sync, G: Gate, R: Threads + Wait + Sync>(
    rt: &R,
    alloc: Global,
    program: &Program<'_>,
    file: &[u8],
    lanes: &L,
    workers: u32,
    gate: &G,
) -> Result<Verdict, NoMemory>
    requires { (1 ≤ workers) × (workers ≤ WORKERS_LIMIT) }
    ensures verdict { IfOk result (λ v. v ≡ verdict_is L.lanes program.now.elf program.now.input file.now) }
    // What is accepted is the record of the run, or a collision of the digest.
    ensures sound { IfOk result (IsSound L.lanes program.now.elf program.now.input file.now) }
    // The record of a run is accepted.
    ensures accepts { IfOk result (AcceptsRecords L.lanes program.now.elf program.now.input file.now) }
{
    concludes(program, file);
    verdict_by_team(rt, alloc, program, file, lanes, workers, gate)
}
