//! How a command ended is told: by a text, which is printed by one call, and by a status.

ghost use Rattle.std.specs.Prelude.{◌≡◌, Ok};
ghost use Rattle.rv_host.specs.Views.{ShelfView};
ghost use Rattle.rv_plan.specs.Answers.{AllListed, Answers, Prints, PrintsFault};
ghost use Rattle.rv_plan.specs.Faults.{line_of};
ghost use Rattle.rv_plan.specs.FileCalls.{Performs};
ghost use Rattle.rv_plan.specs.Plan.{Plan};
ghost use Rattle.rv_plan.specs.declared.faults.Fault.TheVariants as fault;
ghost use Rattle.rv_plan.specs.declared.told.Told.{Told as ToldText};

use crate::faults::Fault;
use crate::told::Told;
use rv_base::NoMemory;
use rv_host::Sink;
use std::alloc::Global;

/// Prints what a command tells, or the line of what it ended for, and gives the status to end with.
pub fn tell<K: Sink>(alloc: Global, out: &mut K, performed: Result<Told, Fault>) -> u8
    ensures answers { (plan : Plan) (before after : ShelfView) → AllListed plan → Performs plan before after performed → Answers plan before after (K.view out.old) (K.view out.new) result }
    // Success is told by a command alone that succeeded.
    ensures success { result ≡ 0 → (told : ToldText) × (performed ≡ Ok told) × (told.status ≡ 0) }
{
    match performed {
        Ok(told) => print(out, told.status, told.text.text()),
        Err(fault) => print_fault(alloc, out, fault),
    }
}

/// Prints the line of a fault. Where it has a number, there may be no memory for it.
fn print_fault<K: Sink>(alloc: Global, out: &mut K, fault: Fault) -> u8
    ensures { PrintsFault (K.view out.old) (K.view out.new) fault result }
{
    if let Some(line) = fault.fixed_line() {
        return print(out, fault.status(), line);
    }
    match fault.numbered_line(alloc) {
        Ok(line) => print(out, fault.status(), line.text()),
        Err(NoMemory) => print_no_memory(out),
    }
}

/// Prints the line of want of memory, and gives its status.
pub fn print_no_memory<K: Sink>(out: &mut K) -> u8
    ensures { Prints (K.view out.old) (K.view out.new) 7 (line_of fault.Memory) result }
{
    print(out, Fault::Memory.status(), "fault memory\n")
}

/// Puts a text by one call. Where that fails, nothing more is printed and the status is that of a failed write.
fn print<K: Sink>(out: &mut K, status: u8, text: &str) -> u8
    ensures { Prints (K.view out.old) (K.view out.new) status text.now result }
{
    match out.put(text.as_bytes()) {
        Ok(()) => status,
        Err(_) => Fault::Write.status(),
    }
}
