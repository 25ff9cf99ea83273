//! A program and its input.

ghost use Rattle.std.specs.Prelude.{◌≡◌, ◌*◌, ◌/◌, ◌^◌, ◌<◌, ◌≤◌, [], ◌∷◌, length, IfOk};
ghost use Rattle.std.specs.Int.{IsInRange};
ghost use Rattle.std.specs.List.{AllByRecursion};
ghost use Rattle.rv_elf.specs.ElfFile.{elf_file};
ghost use Rattle.rv_elf.specs.Written.{words_bytes};
ghost use Rattle.rv_gen.specs.Draws.{bytes as bytes_of};
ghost use Rattle.rv_gen.specs.Programs.{IsProgram, executable_of};

use crate::draws::Generator;
use crate::words::code;
use rv_base::{Bytes, NoMemory};
use rv_elf::{Part, write};
use std::alloc::{AllocError, Global};

/// The address of the first instruction.
const CODE_START: u32 = 0x1_0000;

/// The bytes of the input.
const INPUT_BYTES: u32 = 256;

/// The sizes of a round of the loop.
const SIZE_OF_ROUND: u32 = 42;

/// An executable and the input that it is to be run on.
#[derive(Debug, Drop)]
pub struct Made {
    pub elf: Bytes,
    pub input: Bytes,
}

/// The program of a number, which runs about as many steps as its size, and its input of 256 bytes.
pub fn program(alloc: Global, number: u32, size: u32) -> Result<Made, NoMemory>
    requires { IsInRange 42 84000 size }
    ensures { IfOk result (λ m. IsProgram number size m.elf m.input) }
{
    let mut draws = Generator { state: number };
    let words = code(alloc, &mut draws, size / SIZE_OF_ROUND)?;
    let input = input(alloc, &mut draws)?;
    let elf = executable(alloc, &words)?;
    Ok(Made {
        elf: Bytes::of(elf),
        input: Bytes::of(input),
    })
}

/// Drawn bytes.
fn input(alloc: Global, draws: &mut Generator) -> Result<Vec<u8>, AllocError>
    ensures { IfOk result (λ v. (v.items, draws.new.state) ≡ bytes_of INPUT_BYTES draws.old.state) }
{
    let mut input = Vec::new(alloc);
    for _ in 0..INPUT_BYTES {
        input.push(draws.draw(256) as u8)?;
    }
    Ok(input)
}

/// The bytes of words, the least significant of each first.
fn bytes(alloc: Global, words: &[u32]) -> Result<Vec<u8>, AllocError>
    ensures { IfOk result (λ v. v.items ≡ words_bytes words.now) }
{
    let mut bytes = Vec::new(alloc);
    for word in words {
        bytes.extend_from_slice(&word.to_le_bytes())?;
    }
    Ok(bytes)
}

/// The executable of these words.
fn executable(alloc: Global, words: &[u32]) -> Result<Vec<u8>, NoMemory>
    requires { length words.now ≤ 200 }
    ensures file { IfOk result (λ v. v.items ≡ executable_of words.now) }
    ensures numbers { AllByRecursion (λ w. w < 2 ^ 32) words.now }
{
    let bytes = bytes(alloc, words)?;
    let len = bytes.len() as u32;
    let part = Part {
        addr: CODE_START,
        len,
        size: len,
    };
    write(alloc, CODE_START, &[part], &bytes)
}
