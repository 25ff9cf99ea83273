//! Fuzakhi: records the run of a RISC-V program, so that others can check it.
#![tactic(auto)]

#[cfg(test)]
mod tests;

pub use rv_commands::{needs_team, tool, tool_one};
use rv_host::{OpenGate, RealShelf, RealSink};
use rv_plan::print_no_memory;
use std::fs::File;
use std::process::ExitCode;
use std::{env, io};

/// The status where the system doesn't give the words of the command line as text.
const NO_WORDS: u8 = 20;

/// Why there are no words.
enum Wordless {
    /// The system doesn't give them as text.
    NotText,
    /// Want of memory.
    Memory,
}

fn main(rt: HostRuntime) -> ExitCode {
    // The root folder, which can't be written, takes the place of each standard stream that is
    // closed: else a file that stays open would, and the line would go into it.
    let _streams = [
        File::open(&rt, "/").ok(),
        File::open(&rt, "/").ok(),
        File::open(&rt, "/").ok(),
    ];
    let mut shelf = RealShelf::new(rt);
    let mut out = RealSink::new(rt);
    let words = match command_words(&rt) {
        Ok(words) => words,
        Err(Wordless::NotText) => return ExitCode::from(NO_WORDS),
        Err(Wordless::Memory) => return ExitCode::from(print_no_memory(&mut out)),
    };
    ExitCode::from(tool(
        &rt,
        rt.alloc(),
        words.as_slice(),
        &mut shelf,
        &mut out,
        &OpenGate,
    ))
}

/// The words behind the program's own name.
fn command_words(rt: &HostRuntime) -> Result<Vec<String>, Wordless> {
    let mut words = Vec::new(rt.alloc());
    for word in env::args(rt).map_err(why_none)?.skip(1) {
        words.push(word).map_err(|_| Wordless::Memory)?;
    }
    Ok(words)
}

fn why_none(error: io::Error) -> Wordless {
    match error.kind() {
        io::ErrorKind::OutOfMemory => Wordless::Memory,
        _ => Wordless::NotText,
    }
}
