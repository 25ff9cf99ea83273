//! Worked runs.

ghost use Rattle.std.specs.Prelude.{◌≤◌, length, IfOk};
ghost use Rattle.std.specs.Int.{IsInRange};

use super::*;
use rv_base::limits::BUDGET_LIMIT;
use rv_base::machine::{
    BAD_DESCRIPTOR, BREAKPOINT, EXIT, ILLEGAL_WORD, MISALIGNED_JUMP, MISALIGNED_LOAD,
    MISALIGNED_STORE, NO_SUCH_CALL,
};
use rv_elf::{Part, read, write};
use std::alloc::Global;
use std::test::Fail;

/// `ebreak`.
const EBREAK: u32 = 0x0010_0073;

/// `addi x10, x0, 42`, and an exit.
pub const EXITS: [u32; 3] = [0x02A0_0513, 0x05D0_0893, 0x73];

/// Stores 0 onto its own word, jumps back to it, and fetches the 0.
pub const OVERWRITE: [u32; 3] = [0x0001_02B7, 0x0062_A223, 0xFFDF_F06F];

/// `lw x6, 2(x5)`, where x5 is a multiple of 4.
const ODD_LOAD: [u32; 2] = [0x0001_02B7, 0x0022_A303];

/// `sw x6, 2(x5)`, where x5 is a multiple of 4.
const ODD_STORE: [u32; 2] = [0x0001_02B7, 0x0062_A123];

/// Writes the three bytes behind its code, and exits with the answer.
const HELLO: [u32; 9] = [
    0x0010_0513,
    0x0001_05B7,
    0x0205_8593,
    0x0030_0613,
    0x0400_0893,
    0x73,
    0x05D0_0893,
    0x73,
    0x000A_6968,
];

/// Reads three times into byte 3 of a word, and exits with that word.
const READS: [u32; 13] = [
    0x0002_05B7,
    0x0035_8593,
    0x00A0_0613,
    0x03F0_0893,
    0x0000_0513,
    0x73,
    0x0000_0513,
    0x73,
    0x0000_0513,
    0x73,
    0xFFD5_A503,
    0x05D0_0893,
    0x73,
];

/// Exits with what a write of 9 bytes to standard error answers.
const TO_ERROR: [u32; 6] = [
    0x0020_0513,
    0x0090_0613,
    0x0400_0893,
    0x73,
    0x05D0_0893,
    0x73,
];

/// Exits with what a write to 5 answers.
const TO_FIVE: [u32; 5] = [0x0050_0513, 0x0400_0893, 0x73, 0x05D0_0893, 0x73];

/// Exits with what call 214 answers.
const UNKNOWN: [u32; 4] = [0x0D60_0893, 0x73, 0x05D0_0893, 0x73];

/// A word is reserved and stored, and then a word that is no instruction is fetched.
const RESERVED: [u32; 3] = [0x0002_02B7, 0x1002_A32F, 0x1862_A3AF];

/// Exits with what SC.W answers where its word is reserved.
const STORED: [u32; 6] = [
    0x0070_0513,
    0x0002_02B7,
    0x1002_A32F,
    0x1862_A52F,
    0x05D0_0893,
    0x73,
];

/// Exits with what SC.W answers where nothing is reserved.
const REFUSED: [u32; 4] = [0x0002_02B7, 0x1862_A52F, 0x05D0_0893, 0x73];

/// The executable of some words at 0x10000.
pub fn file_of(alloc: Global, words: &[u32]) -> Result<Vec<u8>, Fail>
    requires { length words.now ≤ 100 }
    ensures { IfOk result (λ file. length file.items ≤ 1000) }
{
    let mut bytes = Vec::new(alloc);
    for word in words {
        bytes.extend_from_slice(&word.to_le_bytes())?;
    }
    let len = 4 * words.len() as u32;
    let part = Part {
        addr: 0x10000,
        len,
        size: len,
    };
    Ok(write(alloc, 0x10000, &[part], bytes.as_slice())?)
}

/// The run of some words.
fn run(
    alloc: Global,
    version: u8,
    words: &[u32],
    input: &[u8],
    budget: u64,
) -> Result<Result<Ran, RunStop>, Fail>
    requires version { IsInRange 1 2 version }
    requires few { length words.now ≤ 100 }
    requires budget { IsInRange 1 BUDGET_LIMIT budget }
{
    let file = file_of(alloc, words)?;
    let image = read(file.as_slice())?.with_version(version);
    Ok(Machine::start(alloc, &image, input).run(budget))
}

#[test]
fn ends(rt: HostRuntime) -> Result<(), Fail> {
    for (version, words, steps, kind, code) in [
        (1, EXITS.as_slice(), 3, EXIT, 42),
        (1, OVERWRITE.as_slice(), 4, ILLEGAL_WORD, 0),
        (1, [EBREAK].as_slice(), 1, BREAKPOINT, 0),
        (1, [0x0020_00E7].as_slice(), 1, MISALIGNED_JUMP, 0),
        (1, ODD_LOAD.as_slice(), 2, MISALIGNED_LOAD, 0),
        (1, ODD_STORE.as_slice(), 2, MISALIGNED_STORE, 0),
        (1, TO_ERROR.as_slice(), 6, EXIT, 9),
        (1, TO_FIVE.as_slice(), 5, EXIT, BAD_DESCRIPTOR),
        (1, UNKNOWN.as_slice(), 4, EXIT, NO_SUCH_CALL),
        (1, RESERVED.as_slice(), 2, ILLEGAL_WORD, 0),
        (2, RESERVED.as_slice(), 4, ILLEGAL_WORD, 0),
        (2, STORED.as_slice(), 6, EXIT, 0),
        (2, REFUSED.as_slice(), 4, EXIT, 1),
    ] {
        let ran = run(rt.alloc(), version, words, &[], 100)??;
        assert_eq!(rt; (ran.steps, ran.end), (steps, End { kind, code }));
        assert_eq!(rt; (ran.consumed, ran.output.list().len()), (0, 0));
    }
    Ok(())
}

#[test]
fn reads_and_writes(rt: HostRuntime) -> Result<(), Fail> {
    let hello = run(rt.alloc(), 1, &HELLO, &[], 100)??;
    assert_eq!(rt;
        (hello.steps, hello.end),
        (
            8,
            End {
                kind: EXIT,
                code: 3
            }
        )
    );
    assert_eq!(rt; hello.output.list(), b"hi\n".as_slice());

    let reads = run(rt.alloc(), 1, &READS, &[0x41, 0x42], 100)??;
    assert_eq!(rt; (reads.end.code, reads.consumed), (0x4200_0000, 2));
    Ok(())
}

#[test]
fn budgets(rt: HostRuntime) -> Result<(), Fail> {
    let jump_to_itself = [0x6F];
    for (words, budget) in [(EXITS.as_slice(), 2), (jump_to_itself.as_slice(), 1000)] {
        let ran = run(rt.alloc(), 1, words, &[], budget)?;
        assert!(rt; matches!(ran, Err(RunStop::Budget)));
    }
    Ok(())
}

#[test]
fn steps_after_the_end(rt: HostRuntime) -> Result<(), Fail> {
    let file = file_of(rt.alloc(), &EXITS)?;
    let image = read(file.as_slice())?;
    let mut machine = Machine::start(rt.alloc(), &image, &[]);
    let exit = Turn::Ends(End {
        kind: EXIT,
        code: 42,
    });
    for turn in [Turn::Next, Turn::Next, exit, exit] {
        assert_eq!(rt; machine.step()?, turn);
    }
    Ok(())
}
