//! `state` and `cell`.

use super::programs::{COUNT, PROGRAM, RECORD, spelled};
use super::{expect, shelf_with};
use rv_base::TableEntry;
use rv_base::cells::REGISTER_CELLS;
use rv_base::limits::{ELF_LIMIT, INPUT_LIMIT};
use rv_file::{Parsed, parse};
use rv_isa::Hart;
use rv_program::Program;
use rv_query::{CellSeen, cell_at, state_at};
use rv_row::no_row;
use std::alloc::Global;
use std::process::Abort;
use std::test::Fail;

/// The state before the last step of `PROGRAM`.
pub const STATE: &str = "\
state step=2 pc=00010008
  x2 7ffff000
  x10 0000002a
  x17 0000005d
";

#[test]
fn the_first_record_is_asked(rt: HostRuntime) -> Result<(), Fail> {
    let mut shelf = shelf_with(&rt, &PROGRAM)?;
    shelf.put("record", &spelled(&rt, &RECORD)?)?;
    let answers = [
        (
            "state elf input record 0",
            0,
            "state step=0 pc=00010000\n  x2 7ffff000\n",
        ),
        ("state elf input record 2", 0, STATE),
        ("state elf input record 3", 12, "fault step 3\n"),
        ("state elf input record 4294967295", 12, "fault step 3\n"),
        (
            "cell elf input record x10 0",
            0,
            "cell x10 value=00000000 time=0 changed=never\n",
        ),
        (
            "cell elf input record x10 2",
            0,
            "cell x10 value=0000002a time=7 changed=0\n",
        ),
        (
            "cell elf input record m00010004 1",
            0,
            "cell m00010004 value=05d00893 time=0 changed=never\n",
        ),
        // a read sets the time
        (
            "cell elf input record m00010004 2",
            0,
            "cell m00010004 value=05d00893 time=17 changed=never\n",
        ),
        (
            "cell elf input record mfffffffc 2",
            0,
            "cell mfffffffc value=00000000 time=0 changed=never\n",
        ),
        ("cell elf input record x10 3", 12, "fault step 3\n"),
    ];
    for (line, status, text) in answers {
        expect(&rt, line, &mut shelf, status, text)?;
    }
    Ok(())
}

#[test]
fn words_that_ask_for_nothing(rt: HostRuntime) -> Result<(), Fail> {
    let mut shelf = shelf_with(&rt, &PROGRAM)?;
    let cells = [
        "x",
        "x0",
        "x01",
        "x32",
        "x+1",
        "X1",
        "m",
        "m0001000",
        "m000100000",
        "m00010001",
        "m00010002",
        "m0001000A",
        "m0001000g",
        "M00010000",
        "00010000",
        "c1073741856",
    ];
    for cell in cells {
        let line = format!(in rt.alloc(); "cell elf input record {cell} 0")?;
        expect(&rt, &line, &mut shelf, 2, "fault words\n")?;
    }
    for line in [
        "state elf input record",
        "state elf input record 00",
        "state elf input record 4294967296",
        "state elf input record 0 0",
        "cell elf input record x1",
        "cell elf input record x1 4294967296",
        "cell elf input record 0 x1",
    ] {
        expect(&rt, line, &mut shelf, 2, "fault words\n")?;
    }
    Ok(())
}

#[test]
fn what_cannot_be_asked(rt: HostRuntime) -> Result<(), Fail> {
    let mut longer = spelled(&rt, &RECORD)?;
    longer.push(0)?;
    for line in ["state elf input record 9", "cell elf input record x10 9"] {
        let mut shelf = shelf_with(&rt, &PROGRAM)?;
        // the verdict comes before the step
        shelf.put("record", &longer)?;
        let refused = "refused shard=1 row=5 rule=27 Trailing\n";
        expect(&rt, line, &mut shelf, 1, refused)?;
        shelf.put("input", &[0])?;
        let refused = "refused shard=0 row=0 rule=4 Input\n";
        expect(&rt, line, &mut shelf, 1, refused)?;
        shelf.put("elf", &[])?;
        expect(&rt, line, &mut shelf, 3, "fault elf 1 Short\n")?;
    }
    Ok(())
}

/// A program and its input, which are within their limits.
fn opened<'a>(elf: &'a [u8], input: &'a [u8]) -> Result<Program<'a>, Fail> {
    if elf.len() > ELF_LIMIT || input.len() > INPUT_LIMIT {
        return Err("a file is too long".into());
    }
    Ok(Program::open(elf, input)?)
}

/// The cells that a program uses in its first steps, with their values and times.
fn touched(alloc: Global, program: &Program<'_>, steps: u32) -> Result<Vec<TableEntry>, Fail> {
    let mut hart = Hart::start(alloc, program.image(), program.input());
    let mut row = no_row();
    for number in 0..steps {
        hart.step(u64::from(number), &mut row)?;
    }
    Ok(hart.touched()?)
}

/// What a record shows of a word of memory before a step.
fn word_seen(program: &Program<'_>, parsed: &Parsed<'_>, cell: u32, step: u32) -> Option<CellSeen> {
    if cell < REGISTER_CELLS {
        cell_at(program, parsed, cell, u64::from(step))
    } else {
        None
    }
}

/// Each register before a step, and each word that was used before it, is what the machine has.
fn expect_as_run<R: Abort + AllocGlobal>(
    rt: &R,
    program: &Program<'_>,
    parsed: &Parsed<'_>,
    step: u32,
) -> Result<(), Fail> {
    let mut registers = [0; 32];
    registers[2] = 0x7FFF_F000;
    for entry in touched(rt.alloc(), program, step)?.as_slice() {
        let register = entry.cell.wrapping_sub(REGISTER_CELLS) as usize;
        if register < 32 {
            registers[register] = entry.value;
        } else {
            let seen = word_seen(program, parsed, entry.cell, step);
            let seen = seen.map(|seen| (seen.value, seen.time));
            assert_eq!(rt; seen, Some((entry.value, entry.time)));
        }
    }
    let state = state_at(program, parsed, u64::from(step));
    assert_eq!(rt; state.map(|state| state.regs), Some(registers));
    Ok(())
}

#[test]
fn a_longer_run_is_asked(rt: HostRuntime) -> Result<(), Fail> {
    let elf = spelled(&rt, &COUNT)?;
    let input = b"It was the best of times,\nit was the worst of times.\n";
    let mut shelf = shelf_with(&rt, &elf)?;
    shelf.put("input", input)?;
    let made = "made steps=1038 shards=11 end=0 code=0 bytes=81493\n";
    expect(&rt, "make elf input record 1 100 2000", &mut shelf, 0, made)?;
    let program = opened(&elf, input)?;
    let parsed = parse(shelf.file("record").ok_or("no record")?)?;
    for step in [1, 100, 519, 1037] {
        expect_as_run(&rt, &program, &parsed, step)?;
    }
    assert_eq!(rt; state_at(&program, &parsed, 1038), None);
    Ok(())
}
