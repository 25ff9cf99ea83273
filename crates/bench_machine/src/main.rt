//! How long steps of the machine take, beside as many bare decodings of words. With a number N it
//! takes N steps of three programs and prints times; with no word it takes four steps of the first.
#![tactic(auto)]

ghost use Rattle.std.specs.Prelude.{◌≤◌, length, IfOk};

use rv_base::NoMemory;
use rv_decode::decode;
use rv_elf::{Part, read, write};
use rv_isa::{Machine, Turn};
use std::alloc::Global;
use std::time::Instant;
use std::{env, io};

/// `jal x0, 0`.
const JUMPS: [u32; 1] = [0x0000_006F];

/// Loads one word, raises it by 1 and stores it, again and again.
const ONE_WORD: [u32; 5] = [
    0x0002_02B7,
    0x0002_A303,
    0x0013_0313,
    0x0062_A023,
    0xFF5F_F06F,
];

/// Stores into each word from 0x20000 on its address, which counts them.
const NEW_WORDS: [u32; 4] = [0x0002_02B7, 0x0052_A023, 0x0042_8293, 0xFF9F_F06F];

/// The executable of some words at 0x10000.
fn executable(alloc: Global, words: &[u32]) -> Result<Vec<u8>, NoMemory>
    requires { length words.now ≤ 100 }
    ensures { IfOk result (λ file. length file.items ≤ 1000) }
{
    let mut bytes = Vec::new(alloc);
    for word in words {
        let Ok(()) = bytes.extend_from_slice(&word.to_le_bytes()) else {
            return Err(NoMemory);
        };
    }
    let len = 4 * words.len() as u32;
    let part = Part {
        addr: 0x10000,
        len,
        size: len,
    };
    write(alloc, 0x10000, &[part], bytes.as_slice())
}

/// Takes so many steps, and gives the number of those after which the run went on.
fn steps_of(alloc: Global, words: &[u32], steps: u32) -> Result<u32, NoMemory>
    requires { length words.now ≤ 100 }
{
    let file = executable(alloc, words)?;
    let Ok(image) = read(file.as_slice()) else {
        return Ok(0);
    };
    let mut machine = Machine::start(alloc, &image, &[]);
    let mut taken: u32 = 0;
    for _ in 0..steps {
        if machine.step()? == Turn::Next {
            taken = taken.wrapping_add(1);
        }
    }
    Ok(taken)
}

/// Decodes so many words, and gives the number of those that are instructions.
fn decodings(words: &[u32], count: u32) -> u32 {
    let mut legal: u32 = 0;
    for i in 0..count {
        let word = words.get(i as usize % 8).copied().unwrap_or(i);
        if decode(word).is_some() {
            legal = legal.wrapping_add(1);
        }
    }
    legal
}

fn main(rt: HostRuntime) -> io::Result<()> {
    let Some(word) = env::args(&rt)?.nth(1) else {
        let taken = steps_of(rt.alloc(), &JUMPS, 4).unwrap_or(0);
        println!(rt; "{taken} steps")?;
        return Ok(());
    };
    let Ok(steps) = word.parse::<u32>() else {
        println!(rt; "usage: bench_machine [STEPS]")?;
        return Ok(());
    };
    let start = Instant::now(&rt)?;
    let legal = decodings(&ONE_WORD, steps);
    let bare = start.elapsed(&rt)?.as_secs_f64();
    println!(rt; "bare decodings: {bare:.3} s, {legal} legal")?;
    for (name, words) in [
        ("jumps", JUMPS.as_slice()),
        ("a load and a store of one word", ONE_WORD.as_slice()),
        ("stores of new words", NEW_WORDS.as_slice()),
    ] {
        let start = Instant::now(&rt)?;
        let taken = steps_of(rt.alloc(), words, steps).unwrap_or(0);
        let time = start.elapsed(&rt)?.as_secs_f64();
        println!(rt;
            "{name}: {taken} steps in {time:.3} s, ratio {:.1}",
            time / bare
        )?;
    }
    Ok(())
}
