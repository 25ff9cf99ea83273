//! A program and its input.

ghost use Rattle.std.specs.Prelude.{◌≡◌, ◌≤◌, ℕ, IfErr, IfOk, None, Some, length};
ghost use Rattle.std.specs.Int.{IsInRange};
ghost use Rattle.sha2.specs.Sha512.{sha512};
ghost use Rattle.rv_spec.specs.Words.{AreBytes};
ghost use Rattle.rv_spec.specs.Elf.{first_fault, image};
ghost use Rattle.rv_spec.specs.Cells.{initial_value};
ghost use Rattle.rv_rules.specs.Agreement.{IsProgram};
ghost use Rattle.rv_elf.specs.Faults.{number_of};

use rv_base::cells::{REGISTER_CELLS, STACK_TOP};
use rv_base::limits::{ELF_LIMIT, INPUT_LIMIT};
use rv_elf::{ElfFault, Image};
use sha2::{Digest, Sha512};
use std::marker::Model;

/// The number of the register x2.
const STACK_POINTER: u32 = 2;

/// A program in an ELF file without a fault, and its input. Contracts see the bytes of both files. Their SHA-512 (FIPS 180-4) is taken once, when they are opened.
#[derive(Drop)]
pub struct Program<'a> {
    elf: &'a [u8],
    input: &'a [u8],
    image: Image<'a>,
    elf_hash: [u8; 64],
    input_hash: [u8; 64],
}

impl<'a> Model for Program<'a> {
    ghost use Rattle.rv_program.specs.Files.{Files};

    ghost Value = { Files };

    ghost use Rattle.rv_program.specs.Opened.{IsOpened};

    ghost view = { λ p. record { elf = p.elf.now; input = p.input.now } };

    ghost invariant = { λ p. IsOpened p.elf.now p.input.now p.image p.elf_hash p.input_hash };
}

impl<'a> Program<'a> {
    /// The program of an ELF file of at most 67,108,864 bytes and its input of at most 16,777,216 bytes, or the fault of the ELF file with the least number. It takes no memory, and its time is linear in both.
    pub fn open(elf: &'a [u8], input: &'a [u8]) -> Result<Program<'a>, ElfFault>
        requires elf_within { length elf.now ≤ ELF_LIMIT }
        requires input_within { length input.now ≤ INPUT_LIMIT }
        ensures files { IfOk result (λ p. p ≡ record { elf = elf.now; input = input.now }) }
        ensures faultless { IfOk result (λ _. first_fault elf.now ≡ None) }
        ensures fault { IfErr result (λ e. first_fault elf.now ≡ Some (number_of e)) }
    {
        let image = rv_elf::read(elf)?;
        Ok(Program {
            elf,
            input,
            image,
            elf_hash: Sha512::digest(elf),
            input_hash: Sha512::digest(input),
        })
    }

    /// What the ELF file loads, at version 1.
    pub fn image(&self) -> &Image<'a>
        ensures value { result.now ≡ image 1 self.now.elf }
        ensures faultless { first_fault self.now.elf ≡ None }
        ensures bytes { AreBytes self.now.elf }
        ensures within { length self.now.elf ≤ ELF_LIMIT }
    {
        &self.image
    }

    /// What the ELF file loads, at a version: 1 for the instructions RV32IM, 2 for RV32IMA. A record has the one of its header.
    pub fn image_of(&self, version: u8) -> Image<'a>
        requires { IsInRange 1 2 version }
        ensures value { result ≡ image version self.now.elf }
        ensures program { IsProgram result }
    {
        self.image.copy().with_version(version)
    }

    /// What a cell holds before the first step, in either version: a word of memory what the ELF file loads there, x2 the top of the stack, and each other register and the reservation 0. A number that is no cell's has 0.
    pub fn initial_value(&self, cell: u32) -> u32
        ensures { (version : ℕ) → result ≡ initial_value (image version self.now.elf) cell }
    {
        if cell < REGISTER_CELLS {
            self.image.word(cell)
        } else if cell == REGISTER_CELLS + STACK_POINTER {
            STACK_TOP
        } else {
            0
        }
    }

    /// The bytes of the input.
    pub fn input(&self) -> &'a [u8]
        ensures value { result.now ≡ self.now.input }
        ensures bytes { AreBytes self.now.input }
        ensures within { length self.now.input ≤ INPUT_LIMIT }
    {
        self.input
    }

    /// The SHA-512 of the ELF file.
    pub fn elf_hash(&self) -> [u8; 64]
        ensures { result ≡ sha512 self.now.elf }
    {
        self.elf_hash
    }

    /// The SHA-512 of the input.
    pub fn input_hash(&self) -> [u8; 64]
        ensures { result ≡ sha512 self.now.input }
    {
        self.input_hash
    }
}
