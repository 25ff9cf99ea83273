//! The lines of answers to questions on a record.

ghost use Rattle.std.specs.Prelude.{◌≡◌, ◌++◌, IfOk, OnOk, string_bytes, length};
ghost use Rattle.rv_text.specs.Listing.{hex8};
ghost use Rattle.rv_commands.specs.Lines as lines;

use crate::spelled_cells::LAST_REGISTER;
use rv_base::{NoMemory, Text};
use rv_query::{CellSeen, Snapshot};
use std::alloc::{AllocError, Global};
use std::fmt::Write;

/// The lines of the state before a step: one of its address, and one for each register that isn't 0.
pub fn state_lines(alloc: Global, step: u32, seen: &Snapshot) -> Result<Text, NoMemory>
    ensures { IfOk result (λ text. text ≡ lines.state_lines step seen.now) }
{
    match state_text(alloc, step, seen) {
        Ok(text) => Ok(Text::of(text)),
        Err(_) => Err(NoMemory),
    }
}

/// The line of what a cell, spelled so, held before a step.
pub fn cell_line(alloc: Global, name: &str, seen: &CellSeen) -> Result<Text, NoMemory>
    ensures { IfOk result (λ text. text ≡ lines.cell_line name.now seen.now) }
{
    match cell_text(alloc, name, seen) {
        Ok(text) => Ok(Text::of(text)),
        Err(_) => Err(NoMemory),
    }
}

fn state_text(alloc: Global, step: u32, seen: &Snapshot) -> Result<String, AllocError>
    ensures { IfOk result (λ text. string_bytes text ≡ lines.state_lines step seen.now) }
{
    let mut text = state_line(alloc, step, seen.pc)?;
    for r in 1..LAST_REGISTER + 1 {
        push_register(&mut text, r, seen.regs[r as usize])?;
    }
    Ok(text)
}

/// The line of the address of a step's instruction.
fn state_line(alloc: Global, step: u32, pc: u32) -> Result<String, AllocError>
    ensures { IfOk result (λ text. string_bytes text ≡ lines.state_line step pc) }
{
    let mut text = String::new(alloc);
    write!(text, "state step={step} pc=")?;
    push_hex8(&mut text, pc)?;
    text.push_str("\n")?;
    Ok(text)
}

/// The line of a register that isn't 0.
fn push_register(text: &mut String, r: u32, value: u32) -> Result<(), AllocError>
    ensures { OnOk result (string_bytes text.new ≡ string_bytes text.old ++ lines.register_line r value) }
{
    if value == 0 {
        return Ok(());
    }
    write!(text, "  x{r} ")?;
    push_hex8(text, value)?;
    text.push_str("\n")?;
    Ok(())
}

fn cell_text(alloc: Global, name: &str, seen: &CellSeen) -> Result<String, AllocError>
    ensures { IfOk result (λ text. string_bytes text ≡ lines.cell_line name.now seen.now) }
{
    let time = seen.time;
    let mut text = String::new(alloc);
    write!(text, "cell {name} value=")?;
    push_hex8(&mut text, seen.value)?;
    write!(text, " time={time}")?;
    push_change(&mut text, seen.changed)?;
    text.push_str("\n")?;
    Ok(text)
}

/// The step of the last change, where there is one.
fn push_change(text: &mut String, changed: Option<u64>) -> Result<(), AllocError>
    ensures { OnOk result (string_bytes text.new ≡ string_bytes text.old ++ lines.change_field changed) }
{
    match changed {
        Some(step) => write!(text, " changed={step}"),
        None => text.push_str(" changed=never"),
    }
}

/// Eight hexadecimal digits in lower case.
fn push_hex8(text: &mut String, n: u32) -> Result<(), AllocError>
    ensures { OnOk result (string_bytes text.new ≡ string_bytes text.old ++ hex8 n) }
{
    write!(text, "{n:08x}")
}
