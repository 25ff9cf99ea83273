//! Questions on a record file.

ghost use Rattle.std.specs.Prelude.{◌≡◌, ◌+◌, ℕ, List, [], ◌++◌, ◌==◌, if◌then◌else◌, IsTrue, length, map};
ghost use Rattle.std.specs.List.{range_with_len};
ghost use Rattle.rv_spec.specs.Cells.{is_cell, initial_value};
ghost use Rattle.rv_spec.specs.Elf.{image};
ghost use Rattle.rv_spec.specs.Trace.{Row};
ghost use Rattle.rv_spec.specs.Record.{Parts, row_bytes};
ghost use Rattle.rv_spec.specs.Grammar.{RowFits};
ghost use Rattle.rv_query.specs.Following.{AreTrails};
ghost use Rattle.rv_query.specs.Questions.{cell_answer, state_answer};
ghost use Rattle.rv_query.specs.OfRun.{CellIsOfRun, StateIsOfRun};

use crate::following::follow;
use crate::laws::answers_are_of_run;
use crate::trail::Trail;
use rv_base::cells::REGISTER_CELLS;
use rv_file::Parsed;
use rv_program::Program;
use rv_row::{RowRead, read_row};

/// The registers of a machine with x0.
const REGISTERS: usize = 32;

/// The state before a step, as a file shows it: the address of the instruction, and the registers x0 to x31.
#[derive(Clone, Copy, PartialEq, Eq, Debug)]
pub struct Snapshot {
    pub pc: u32,
    pub regs: [u32; 32],
}

/// What a file shows of a cell before a step: its value and the time of its last access, or its initial value and 0; and the step of the last access that changed it.
#[derive(Clone, Copy, PartialEq, Eq, Debug)]
pub struct CellSeen {
    pub value: u32,
    pub time: u64,
    pub changed: Option<u64>,
}

/// The law of the answers, of a program that was opened and its input.
fn of_run(program: &Program<'_>)
    ensures states { (p : Parts) (step : ℕ) → StateIsOfRun program.now.elf program.now.input p step (state_answer program.now.elf p step) }
    ensures cells { (p : Parts) (cell step : ℕ) → CellIsOfRun program.now.elf program.now.input p cell step (cell_answer program.now.elf p cell step) }
{
    let _image = program.image();
    let _input = program.input();
    answers_are_of_run();
}

/// The trails of the registers before the first step, with one for the cell that x0 would have.
fn register_trails(program: &Program<'_>) -> [Trail; 32]
    ensures count { length result ≡ 32 }
    ensures first { (version until : ℕ) → AreTrails (initial_value (image version program.now.elf)) [] REGISTER_CELLS until result }
{
    let mut trails = [Trail::of(0); REGISTERS];
    for r in 0..REGISTERS {
        trails[r] = Trail::of(program.initial_value(REGISTER_CELLS + r as u32));
    }
    trails
}

/// The values of the registers, with 0 for x0.
fn register_values(trails: &[Trail; 32]) -> [u32; 32]
    ensures { (seen : ℕ → Trail) → trails.now ≡ map seen (range_with_len 0 32) → result ≡ map (λ r. if r == 0 then 0 else (seen r).value) (range_with_len 0 32) }
{
    let mut values = [0; REGISTERS];
    for r in 1..REGISTERS {
        values[r] = trails[r].value;
    }
    values
}

/// The address of the instruction of the row at the front of the bytes.
fn pc_of(bytes: &[u8]) -> u32
    ensures { (r : Row) (rest : List ℕ) → RowFits r → bytes.now ≡ row_bytes r ++ rest → result ≡ r.pc }
{
    match read_row(bytes) {
        RowRead::Row(row, _) => row.pc,
        RowRead::Short | RowRead::Shape => 0,
    }
}

/// The state before a step, by the accesses of a file: none exactly where the file has no such step. One pass over the file from the front to the step; it takes no memory.
pub fn state_at(program: &Program<'_>, parsed: &Parsed<'_>, step: u64) -> Option<Snapshot>
    ensures exact { result ≡ state_answer program.now.elf parsed.now step }
    ensures of_run { StateIsOfRun program.now.elf program.now.input parsed.now step result }
{
    of_run(program);
    if step >= parsed.header().steps {
        return None;
    }
    let mut trails = register_trails(program);
    let row = follow(&mut trails, REGISTER_CELLS, step, parsed);
    Some(Snapshot {
        pc: pc_of(row),
        regs: register_values(&trails),
    })
}

/// A cell before a step, by the accesses of a file: none exactly where the file has no such step. A cell is the number of a word of memory (below 2^30),
/// 2^30 and the number of a register (1 to 31), or in version 2 that of the reservation, 2^30 + 32. One pass over the file from the front to the step; it takes no memory.
pub fn cell_at(program: &Program<'_>, parsed: &Parsed<'_>, cell: u32, step: u64) -> Option<CellSeen>
    requires { IsTrue (is_cell parsed.now.header.version cell) }
    ensures exact { result ≡ cell_answer program.now.elf parsed.now cell step }
    ensures of_run { CellIsOfRun program.now.elf program.now.input parsed.now cell step result }
{
    of_run(program);
    if step >= parsed.header().steps {
        return None;
    }
    let mut trails = [Trail::of(program.initial_value(cell))];
    follow(&mut trails, cell, step, parsed);
    let trail = trails[0];
    Some(CellSeen {
        value: trail.value,
        time: trail.time,
        changed: trail.changed,
    })
}
