//! Why a command ends without doing its work, with the status and the line of each cause.

ghost use Rattle.std.specs.Prelude.{◌≡◌, ◌++◌, IfOk, IsTrue, MatchOption, OnOk, string_bytes};
ghost use Rattle.rv_elf.specs.Faults.{number_of};
ghost use Rattle.rv_plan.specs.Lines.{name_at, fault_names, assembly_line as assembly_line_of, elf_line as elf_line_of, hex8, kind_names, part_line as part_line_of, version_line};
ghost use Rattle.rv_plan.specs.Faults.{status_of, line_of, has_number, reason_of, what_of};
ghost use Rattle.rv_plan.specs.declared.faults.VersionFault.TheVariants as version;

use rv_base::{NoMemory, Text};
use rv_elf::ElfFault;
use std::alloc::{AllocError, Global};
use std::fmt::Write;

/// What is held to a limit.
#[derive(Clone, Copy, Debug)]
pub enum Limited {
    /// 67,108,864 bytes of an ELF file.
    Elf,
    /// 16,777,216 bytes of an input.
    Input,
    /// 2,147,483,648 bytes of a record that is held whole.
    Record,
    /// 65,536 shards of a run.
    Shards,
    /// As many parts of a record as it has shards.
    Parts,
    /// 1,048,576 bytes of a source.
    Source,
}

/// Why a file is not the part of a record that its number says.
#[derive(Clone, Copy, Debug)]
pub enum PartFault {
    /// It doesn't begin with the head of that part.
    Head,
    /// Behind the head it doesn't begin with the record's header and output.
    Front,
    /// Its shards don't follow those of the parts before, or the parts don't cover the record's shards.
    Cover,
    /// It ends elsewhere than its shards do.
    Cut,
}

/// Why a record has no upgrade.
#[derive(Clone, Copy, Debug)]
pub enum VersionFault {
    /// It has version 2 already.
    New,
    /// Its run ends at this word of extension A, which is illegal in version 1 and an instruction in version 2.
    Atomic(u32),
}

/// Why a command ended without doing its work.
#[derive(Clone, Copy, Debug)]
pub enum Fault {
    /// The words are no command.
    Words,
    /// The ELF file has a fault.
    Elf(ElfFault),
    /// The run doesn't end within this number of steps.
    Budget(u32),
    /// A file couldn't be read.
    Read,
    /// The file that the command writes, or its line, couldn't be written.
    Write,
    /// Want of memory.
    Memory,
    /// A file, or what a run needs, is above its limit.
    Limit(Limited),
    /// A record of version 1 is asked for one of version 2, and has none.
    Version(VersionFault),
    /// The part of this number has a fault.
    Part(u32, PartFault),
    /// A step is asked for that the record doesn't have; it has this number of steps.
    Step(u64),
    /// A source isn't assembled: the line, counted from 1, of its first fault, and the kind of that, from 1 on.
    Assembly(u32, u8),
}

impl Fault {
    /// The status that the program ends with.
    pub fn status(&self) -> u8
        ensures { result ≡ status_of self.now }
    {
        match self {
            Fault::Words => 2,
            Fault::Elf(_) => 3,
            Fault::Budget(_) => 4,
            Fault::Read => 5,
            Fault::Write => 6,
            Fault::Memory => 7,
            Fault::Limit(_) => 8,
            Fault::Version(_) => 10,
            Fault::Part(_, _) => 11,
            Fault::Step(_) => 12,
            Fault::Assembly(_, _) => 13,
        }
    }

    /// The line that the program prints, where it has no number.
    pub fn fixed_line(&self) -> Option<&'static str>
        ensures { MatchOption result (IsTrue (has_number self.now)) (λ line. line.now ≡ line_of self.now) }
    {
        match self {
            Fault::Words => Some("fault words\n"),
            Fault::Elf(_)
            | Fault::Budget(_)
            | Fault::Version(VersionFault::Atomic(_))
            | Fault::Part(_, _)
            | Fault::Step(_)
            | Fault::Assembly(_, _) => None,
            Fault::Read => Some("fault read\n"),
            Fault::Write => Some("fault write\n"),
            Fault::Memory => Some("fault memory\n"),
            Fault::Limit(Limited::Elf) => Some("fault limit elf\n"),
            Fault::Limit(Limited::Input) => Some("fault limit input\n"),
            Fault::Limit(Limited::Record) => Some("fault limit record\n"),
            Fault::Limit(Limited::Shards) => Some("fault limit shards\n"),
            Fault::Limit(Limited::Parts) => Some("fault limit parts\n"),
            Fault::Limit(Limited::Source) => Some("fault limit source\n"),
            Fault::Version(VersionFault::New) => Some("fault version new\n"),
        }
    }

    /// The line that the program prints, where it has a number.
    pub fn numbered_line(&self, alloc: Global) -> Result<Text, NoMemory>
        requires { IsTrue (has_number self.now) }
        ensures { IfOk result (λ text. text ≡ line_of self.now) }
    {
        let line = match self {
            Fault::Elf(fault) => elf_line(alloc, *fault),
            Fault::Budget(steps) => format!(in alloc; "fault budget {steps}\n"),
            Fault::Version(VersionFault::Atomic(word)) => atomic_line(alloc, *word),
            Fault::Part(number, fault) => part_line(alloc, *number, *fault),
            Fault::Step(steps) => format!(in alloc; "fault step {steps}\n"),
            Fault::Assembly(at, kind) => assembly_line(alloc, *at, *kind),
            _ => unreachable!(),
        };
        match line {
            Ok(text) => Ok(Text::of(text)),
            Err(_) => Err(NoMemory),
        }
    }
}

fn elf_line(alloc: Global, fault: ElfFault) -> Result<String, AllocError>
    ensures { IfOk result (λ text. string_bytes text ≡ elf_line_of (number_of fault)) }
{
    let number = fault.number();
    let name = fault_name(fault);
    let line = format!(in alloc; "fault elf {number} {name}\n")?;
    Ok(line)
}

fn atomic_line(alloc: Global, word: u32) -> Result<String, AllocError>
    ensures { IfOk result (λ text. string_bytes text ≡ version_line (reason_of (version.Atomic word))) }
{
    let mut line = String::new(alloc);
    line.push_str("fault version atomic ")?;
    push_hex8(&mut line, word)?;
    line.push_str("\n")?;
    Ok(line)
}

/// Eight hexadecimal digits in lower case.
fn push_hex8(text: &mut String, n: u32) -> Result<(), AllocError>
    ensures { OnOk result (string_bytes text.new ≡ string_bytes text.old ++ hex8 n) }
{
    write!(text, "{n:08x}")
}

fn part_line(alloc: Global, number: u32, fault: PartFault) -> Result<String, AllocError>
    ensures { IfOk result (λ text. string_bytes text ≡ part_line_of number (what_of fault)) }
{
    let what = part_fault_name(fault);
    let line = format!(in alloc; "fault part {number} {what}\n")?;
    Ok(line)
}

fn assembly_line(alloc: Global, at: u32, kind: u8) -> Result<String, AllocError>
    ensures { IfOk result (λ text. string_bytes text ≡ assembly_line_of at kind) }
{
    let name = kind_name(kind);
    let line = format!(in alloc; "fault asm {at} {kind} {name}\n")?;
    Ok(line)
}

/// The name of a kind of an assembler's faults, as the line prints it. A number of no kind has none.
fn kind_name(kind: u8) -> &'static str
    ensures { result.now ≡ name_at kind_names kind }
{
    match kind {
        1 => "Bytes",
        2 => "Label",
        3 => "Statement",
        4 => "Operands",
        5 => "Undefined",
        6 => "Range",
        7 => "TooLong",
        _ => "",
    }
}

/// The name of a fault of a part, as the line prints it.
fn part_fault_name(fault: PartFault) -> &'static str
    ensures { result.now ≡ what_of fault }
{
    match fault {
        PartFault::Head => "head",
        PartFault::Front => "front",
        PartFault::Cover => "cover",
        PartFault::Cut => "cut",
    }
}

/// The name of a fault of an ELF file, as the line prints it.
fn fault_name(fault: ElfFault) -> &'static str
    ensures { result.now ≡ name_at fault_names (number_of fault) }
{
    match fault {
        ElfFault::Short => "Short",
        ElfFault::Magic => "Magic",
        ElfFault::Class => "Class",
        ElfFault::Order => "Order",
        ElfFault::Version => "Version",
        ElfFault::Kind => "Kind",
        ElfFault::Machine => "Machine",
        ElfFault::HeaderSize => "HeaderSize",
        ElfFault::Headers => "Headers",
        ElfFault::Interpreter => "Interpreter",
        ElfFault::SegmentFile => "SegmentFile",
        ElfFault::SegmentSize => "SegmentSize",
        ElfFault::SegmentWrap => "SegmentWrap",
        ElfFault::TooMany => "TooMany",
        ElfFault::Overlap => "Overlap",
        ElfFault::Entry => "Entry",
    }
}
