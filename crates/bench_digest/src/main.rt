//! How long digests take, a hash: bare hashes, tuples added one by one and in a list, and accesses each alone and paired. With a
//! number N it times N rounds and prints the least times; with no word it prints first lanes of a few, by both ways.
#![tactic(auto)]

use rv_base::Tuple;
use rv_digest::{SetDigest, ShaLanes};
use rv_pairs::Pairing;
use sha2::{Digest, Sha512};
use std::alloc::{AllocError, Global};
use std::time::Instant;
use std::{env, io};

const ACCESSES: u32 = 4096;

/// The tuples that a made-up run reads and those that it writes.
#[derive(Drop)]
struct Run {
    reads: Vec<Tuple>,
    writes: Vec<Tuple>,
}

/// A run of so many accesses, of which one of ten is of a word of memory and the others are of registers.
fn run_of(alloc: Global, accesses: u32) -> Result<Run, AllocError> {
    let mut reads = Vec::new(alloc);
    let mut writes = Vec::new(alloc);
    let mut last = [(0u32, 0u64); 2080];
    let mut seed = 12345u32;
    for i in 0..accesses {
        seed = seed.wrapping_mul(1_664_525).wrapping_add(1_013_904_223);
        let draw = seed >> 16;
        let (cell, at) = if draw % 10 == 0 {
            (draw % 2048, (draw % 2048) as usize + 32)
        } else {
            (0x4000_0000 + draw % 32, (draw % 32) as usize)
        };
        let (value, time) = last[at];
        reads.push(Tuple { cell, value, time })?;
        let time = 5 * u64::from(i) + 1;
        last[at] = (seed, time);
        writes.push(Tuple {
            cell,
            value: seed,
            time,
        })?;
    }
    Ok(Run { reads, writes })
}

/// Two hashes of 17 bytes for each tuple.
#[inline(never)]
fn bare_hashes(tuples: &[Tuple]) -> u64 {
    let mut sum = 0u64;
    for t in tuples {
        let mut message = [0; 17];
        message[1..5].copy_from_slice(&t.value.to_le_bytes());
        sum = sum.wrapping_add(u64::from(Sha512::digest(&message)[0]));
        message[0] = 1;
        sum = sum.wrapping_add(u64::from(Sha512::digest(&message)[0]));
    }
    sum
}

#[inline(never)]
fn one_by_one(tuples: &[Tuple]) -> SetDigest {
    let mut sum = SetDigest::zero();
    for t in tuples {
        sum.add_tuple(&ShaLanes, *t);
    }
    sum
}

#[inline(never)]
fn as_a_list(tuples: &[Tuple]) -> SetDigest {
    let mut sum = SetDigest::zero();
    sum.add_tuples(&ShaLanes, tuples);
    sum
}

#[inline(never)]
fn paired(pairing: &mut Pairing, run: &Run) -> (SetDigest, SetDigest) {
    pairing.clear();
    for (read, written) in run.reads.iter().zip(run.writes.iter()) {
        pairing.access(&ShaLanes, *read, *written);
    }
    pairing.digests(&ShaLanes)
}

/// The least seconds of each way.
#[derive(Clone, Copy)]
struct Least {
    bare: f64,
    singles: f64,
    list: f64,
    unpaired: f64,
    paired: f64,
}

fn least_of(rt: &HostRuntime, run: &Run, pairing: &mut Pairing, rounds: u32) -> io::Result<Least> {
    let mut least = Least {
        bare: 1e9,
        singles: 1e9,
        list: 1e9,
        unpaired: 1e9,
        paired: 1e9,
    };
    for _ in 0..rounds {
        let start = Instant::now(rt)?;
        let hashes = bare_hashes(&run.writes);
        least.bare = least.bare.min(start.elapsed(rt)?.as_secs_f64());
        let start = Instant::now(rt)?;
        let singles = one_by_one(&run.writes);
        least.singles = least.singles.min(start.elapsed(rt)?.as_secs_f64());
        let start = Instant::now(rt)?;
        let list = as_a_list(&run.writes);
        least.list = least.list.min(start.elapsed(rt)?.as_secs_f64());
        let start = Instant::now(rt)?;
        let unpaired = (as_a_list(&run.reads), as_a_list(&run.writes));
        least.unpaired = least.unpaired.min(start.elapsed(rt)?.as_secs_f64());
        let start = Instant::now(rt)?;
        let together = paired(pairing, run);
        least.paired = least.paired.min(start.elapsed(rt)?.as_secs_f64());
        if !singles.same(&list) || !unpaired.0.same(&together.0) || !unpaired.1.same(&together.1) {
            println!(rt; "the sums differ, {hashes}")?;
        }
    }
    Ok(least)
}

fn print_lanes(rt: &HostRuntime, run: &Run, pairing: &mut Pairing) -> io::Result<()> {
    let read = one_by_one(&run.reads).lanes[0];
    let written = one_by_one(&run.writes).lanes[0];
    println!(rt; "one by one {read:016x} {written:016x}")?;
    let read = as_a_list(&run.reads).lanes[0];
    let written = as_a_list(&run.writes).lanes[0];
    println!(rt; "as a list  {read:016x} {written:016x}")?;
    let (read, written) = paired(pairing, run);
    println!(rt;
        "paired     {:016x} {:016x}",
        read.lanes[0], written.lanes[0]
    )?;
    println!(rt; "bare hashes {}", bare_hashes(&run.reads))
}

fn main(rt: HostRuntime) -> io::Result<()> {
    let alloc = rt.alloc();
    let mut pairing = Pairing::new();
    let Some(word) = env::args(&rt)?.nth(1) else {
        let run = run_of(alloc, 99)?;
        return print_lanes(&rt, &run, &mut pairing);
    };
    let Ok(rounds) = word.parse::<u32>() else {
        println!(rt; "usage: bench_digest [ROUNDS]")?;
        return Ok(());
    };
    let run = run_of(alloc, ACCESSES)?;
    let least = least_of(&rt, &run, &mut pairing, rounds)?;
    let each = 1e9 / f64::from(ACCESSES);
    let bare = least.bare * each / 2.0;
    println!(rt; "a bare hash: {bare:.1} ns")?;
    for (name, time, hashes) in [
        ("added one by one", least.singles, 2.0),
        ("added in a list", least.list, 2.0),
        ("an access, unpaired", least.unpaired, 4.0),
        ("an access, paired", least.paired, 4.0),
    ] {
        let time = time * each;
        println!(rt;
            "{name}: {time:.1} ns for {hashes} hashes, ratio {:.3}",
            time / hashes / bare
        )?;
    }
    Ok(())
}
