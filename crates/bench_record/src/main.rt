//! How long records take to make and to check, beside bare SHA-512 calls: four an access. With a size it times the generated program
//! of that size, with the names of an ELF file and an input the run of these; with no word it makes and checks one small record.
#![tactic(auto)]

ghost use Rattle.std.specs.Prelude.{◌≡◌, ◌≤◌, length, IfOk};
ghost use Rattle.std.specs.Int.{IsInRange};

mod recorded;

use recorded::{accesses_of, checked, file_of, pieces_of};
use rv_base::limits::{BUDGET_LIMIT, ELF_LIMIT, INPUT_LIMIT, SHARD_SIZE_LIMIT, WORKERS_LIMIT};
use rv_base::{NoMemory, Verdict};
use rv_digest::{ShaLanes, TinyLanes};
use rv_gen::program;
use rv_host::RealShelf;
use rv_isa::Machine;
use rv_judge::judge;
use rv_plan::load;
use rv_point::{Points, survey};
use rv_program::Program;
use rv_replay::ShardTask;
use rv_team::run_one;
use sha2::{Digest, Sha512};
use std::alloc::Global;
use std::rt::Clock;
use std::sync::Wait;
use std::thread::Threads;
use std::time::Instant;
use std::{env, io};

/// The number of the generated program.
const NUMBER: u32 = 7;

/// The size of the program whose record is made and checked without times.
const SMALL: u32 = 84;

/// The rows of a shard that are tried.
const SIZES: [u32; 4] = [1, 64, 1024, 65_536];

/// The numbers of workers that are tried.
const WORKERS: [u32; 3] = [1, 2, 4];

/// How often each is timed; the least time counts.
const ROUNDS: u32 = 5;

/// Want of memory as a failure of the whole.
fn no_memory(_: NoMemory) -> io::Error {
    io::Error::from(io::ErrorKind::OutOfMemory)
}

/// The run of a program in shards; None where it needs too many, or goes on past the budget.
fn run_of<'a>(alloc: Global, program: &Program<'a>, size: u32) -> Option<Points<'a>>
    requires { IsInRange 1 SHARD_SIZE_LIMIT size }
{
    survey(
        alloc,
        program.image(),
        program.input(),
        size,
        u64::from(BUDGET_LIMIT),
    )
    .ok()
}

/// A program and its input, within their limits and without a fault.
fn opened<'a>(elf: &'a [u8], input: &'a [u8]) -> Option<Program<'a>> {
    if elf.len() > ELF_LIMIT || input.len() > INPUT_LIMIT {
        return None;
    }
    Program::open(elf, input).ok()
}

/// SHA-512 of so many messages of 17 bytes.
#[inline(never)]
fn bare_hashes(count: u64) -> u64 {
    let mut sum = 0u64;
    let mut message = [0; 17];
    for i in 0..count {
        message[1..9].copy_from_slice(&i.to_le_bytes());
        sum = sum.wrapping_add(u64::from(Sha512::digest(&message)[0]));
    }
    sum
}

/// The least seconds of making and of checking a record by some workers.
#[derive(Clone, Copy)]
struct Least {
    make: f64,
    check: f64,
}

/// A count, as a number to divide by.
fn float_of(count: u64) -> f64 {
    f64::from(u32::try_from(count).unwrap_or(u32::MAX))
}

/// What a time is of, in nanoseconds a step, and as a part of the time of the bare hashes.
fn print_time<R: Print>(rt: &R, what: &str, seconds: f64, steps: f64, bare: f64) -> io::Result<()> {
    println!(rt;
        "  {what}: {:.1} ns a step, ratio {:.3}",
        seconds * 1e9 / steps,
        seconds / bare
    )
}

/// The least seconds of a run by the plain machine, of going through it for its record, of replaying and of judging it by lanes that hash
/// nothing, and of as many bare hashes as four an access.
#[derive(Clone, Copy)]
struct Parts {
    machine: f64,
    walk: f64,
    replay: f64,
    judge: f64,
    bare: f64,
}

/// The seconds of a run by the plain machine.
fn time_machine<R: Clock>(rt: &R, alloc: Global, program: &Program<'_>) -> io::Result<f64> {
    let start = Instant::now(rt)?;
    let machine = Machine::start(alloc, program.image(), program.input());
    let ran = machine.run(u64::from(BUDGET_LIMIT));
    let seconds = start.elapsed(rt)?.as_secs_f64();
    if ran.is_err() {
        return Err(no_memory(NoMemory));
    }
    Ok(seconds)
}

/// The seconds of judging a file by lanes that hash nothing.
fn time_judge<R: Clock>(rt: &R, program: &Program<'_>, file: &[u8]) -> io::Result<f64> {
    let start = Instant::now(rt)?;
    let verdict = judge(program, file, TinyLanes);
    let seconds = start.elapsed(rt)?.as_secs_f64();
    if !is_accepted(verdict) {
        return Err(io::Error::from(io::ErrorKind::InvalidData));
    }
    Ok(seconds)
}

fn time_parts<R: Clock>(
    rt: &R,
    alloc: Global,
    program: &Program<'_>,
    points: &Points<'_>,
    accesses: u64,
) -> io::Result<Parts> {
    let mut least = Parts {
        machine: 1e9,
        walk: 1e9,
        replay: 1e9,
        judge: 1e9,
        bare: 1e9,
    };
    let task = ShardTask::new(points, TinyLanes);
    let hashes = accesses.wrapping_mul(4);
    let book = run_one(alloc, &task, points.shards()).map_err(no_memory)?;
    let file = file_of(alloc, program, points, &book).map_err(no_memory)?;
    let mut sum = 0u64;
    for _ in 0..ROUNDS {
        least.machine = least.machine.min(time_machine(rt, alloc, program)?);
        least.judge = least.judge.min(time_judge(rt, program, &file)?);
        let start = Instant::now(rt)?;
        let walked = run_of(alloc, program, points.size());
        least.walk = least.walk.min(start.elapsed(rt)?.as_secs_f64());
        let start = Instant::now(rt)?;
        let book = run_one(alloc, &task, points.shards()).map_err(no_memory)?;
        least.replay = least.replay.min(start.elapsed(rt)?.as_secs_f64());
        let start = Instant::now(rt)?;
        sum = sum.wrapping_add(bare_hashes(hashes));
        least.bare = least.bare.min(start.elapsed(rt)?.as_secs_f64());
        // What was made is used, so that it has to be made.
        if walked.is_none() || book.count() == 0 || sum == 0 {
            return Err(no_memory(NoMemory));
        }
    }
    Ok(least)
}

/// The record of a run, made by some workers.
fn made<R: Threads + Wait + Sync>(
    rt: &R,
    alloc: Global,
    program: &Program<'_>,
    size: u32,
    workers: u32,
) -> io::Result<Vec<u8>>
    requires size { IsInRange 1 SHARD_SIZE_LIMIT size }
    requires workers { (1 ≤ workers) × (workers ≤ WORKERS_LIMIT) }
{
    let Some(points) = run_of(alloc, program, size) else {
        return Err(no_memory(NoMemory));
    };
    let task = ShardTask::new(&points, ShaLanes);
    let book = pieces_of(rt, alloc, &task, points.shards(), workers).map_err(no_memory)?;
    file_of(alloc, program, &points, &book).map_err(no_memory)
}

fn is_accepted(verdict: Verdict) -> bool {
    matches!(verdict, Verdict::Accept { .. })
}

fn time_workers<R: Threads + Wait + Sync + Clock>(
    rt: &R,
    alloc: Global,
    program: &Program<'_>,
    points: &Points<'_>,
    file: &[u8],
    workers: u32,
) -> io::Result<Least>
    requires { (1 ≤ workers) × (workers ≤ WORKERS_LIMIT) }
{
    let mut least = Least {
        make: 1e9,
        check: 1e9,
    };
    for _ in 0..ROUNDS {
        let start = Instant::now(rt)?;
        let made = made(rt, alloc, program, points.size(), workers)?;
        least.make = least.make.min(start.elapsed(rt)?.as_secs_f64());
        let start = Instant::now(rt)?;
        let verdict = checked(rt, alloc, program, file, workers).map_err(no_memory)?;
        least.check = least.check.min(start.elapsed(rt)?.as_secs_f64());
        if made.as_slice() != file || !is_accepted(verdict) {
            return Err(io::Error::from(io::ErrorKind::InvalidData));
        }
    }
    Ok(least)
}

/// What is timed.
fn print_run<R: Print>(
    rt: &R,
    points: &Points<'_>,
    accesses: u64,
    bytes: usize,
    bare: f64,
) -> io::Result<()> {
    let size = points.size();
    let steps = points.steps();
    let shards = points.shards();
    let hash = bare * 1e9 / float_of(accesses) / 4.0;
    println!(rt;
        "shards of {size}: {steps} steps, {shards} shards, {accesses} accesses, {bytes} bytes, {hash:.1} ns a bare hash"
    )
}

/// Times making and checking by each number of workers.
fn time_teams<R: Threads + Wait + Sync + Clock + Print>(
    rt: &R,
    alloc: Global,
    program: &Program<'_>,
    points: &Points<'_>,
    file: &[u8],
    bare: f64,
) -> io::Result<()> {
    let steps = float_of(points.steps());
    for workers in WORKERS {
        let least = time_workers(rt, alloc, program, points, file, workers)?;
        println!(rt; "  workers {workers}")?;
        print_time(rt, "  make", least.make, steps, bare)?;
        print_time(rt, "  check", least.check, steps, bare)?;
    }
    Ok(())
}

/// What the parts of making and checking take that hash nothing, beside the plain machine.
fn print_parts<R: Print>(rt: &R, parts: &Parts, steps: f64) -> io::Result<()> {
    for (what, seconds) in [
        ("the plain machine", parts.machine),
        ("the run gone through", parts.walk),
        ("replayed without hashes", parts.replay),
        ("judged without hashes", parts.judge),
    ] {
        print_time(rt, what, seconds, steps, parts.bare)?;
    }
    Ok(())
}

/// Times a run at one shard size.
fn time_size<R: Threads + Wait + Sync + Clock + Print>(
    rt: &R,
    alloc: Global,
    program: &Program<'_>,
    size: u32,
) -> io::Result<()>
    requires { IsInRange 1 SHARD_SIZE_LIMIT size }
{
    let Some(points) = run_of(alloc, program, size) else {
        return println!(rt; "shards of {size}: no record");
    };
    let file = made(rt, alloc, program, size, 1)?;
    let accesses = accesses_of(&points, &file);
    let steps = float_of(points.steps());
    let parts = time_parts(rt, alloc, program, &points, accesses)?;
    print_run(rt, &points, accesses, file.len(), parts.bare)?;
    print_parts(rt, &parts, steps)?;
    time_teams(rt, alloc, program, &points, &file, parts.bare)
}

/// Times a run at all shard sizes.
fn time_sizes<R: Threads + Wait + Sync + Clock + Print>(
    rt: &R,
    alloc: Global,
    elf: &[u8],
    input: &[u8],
) -> io::Result<()> {
    let Some(program) = opened(elf, input) else {
        return println!(rt; "the ELF file has a fault, or a file is too long");
    };
    for size in SIZES {
        time_size(rt, alloc, &program, size)?;
    }
    Ok(())
}

/// Times the generated program of a size.
fn time_generated<R: Threads + Wait + Sync + Clock + Print>(
    rt: &R,
    alloc: Global,
    size: u32,
) -> io::Result<()>
    requires { IsInRange 42 84000 size }
{
    let generated = program(alloc, NUMBER, size).map_err(no_memory)?;
    time_sizes(rt, alloc, generated.elf.list(), generated.input.list())
}

/// Makes and checks a small record by each number of workers, and prints no times.
fn try_small<R: Threads + Wait + Sync + Print>(rt: &R, alloc: Global) -> io::Result<()> {
    let generated = program(alloc, NUMBER, SMALL).map_err(no_memory)?;
    let Some(program) = opened(generated.elf.list(), generated.input.list()) else {
        return Ok(());
    };
    for workers in WORKERS {
        let file = made(rt, alloc, &program, 64, workers)?;
        let verdict = checked(rt, alloc, &program, &file, workers).map_err(no_memory)?;
        println!(rt; "workers {workers}: accepted {}", is_accepted(verdict))?;
    }
    Ok(())
}

fn main(rt: HostRuntime) -> io::Result<()> {
    let alloc = rt.alloc();
    let mut words = env::args(&rt)?.skip(1);
    match (words.next(), words.next()) {
        (None, _) => try_small(&rt, alloc),
        (Some(size), None) => match size.parse::<u32>() {
            Ok(size) if size >= 42 && size <= 84_000 => time_generated(&rt, alloc, size),
            _ => println!(rt; "usage: bench_record [SIZE | ELF INPUT], with a size of 42 to 84000"),
        },
        (Some(elf), Some(input)) => {
            let mut shelf = RealShelf::new(rt);
            match load(alloc, &mut shelf, &elf, &input) {
                Ok(loaded) => time_sizes(&rt, alloc, loaded.elf.list(), loaded.input.list()),
                Err(_) => println!(rt; "a file can't be read"),
            }
        }
    }
}
