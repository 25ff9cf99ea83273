//! Why a file is no executable that can be loaded.

ghost use Rattle.std.specs.Prelude.{◌≡◌};
ghost use Rattle.rv_elf.specs.Faults.{number_of};

use thiserror::Error;

/// What is wrong with a file. The discriminants are the faults' numbers: of several faults the least is told.
#[derive(Clone, Copy, PartialEq, Eq, Debug, Error)]
pub enum ElfFault {
    /// Fewer than 52 bytes.
    #[error("Short")]
    Short = 1,
    /// The first four bytes aren't those of ELF.
    #[error("Magic")]
    Magic = 2,
    /// EI_CLASS isn't that of 32 bits.
    #[error("Class")]
    Class = 3,
    /// EI_DATA isn't the least significant byte first.
    #[error("Order")]
    Order = 4,
    /// EI_VERSION or e_version isn't 1.
    #[error("Version")]
    Version = 5,
    /// e_type isn't ET_EXEC.
    #[error("Kind")]
    Kind = 6,
    /// e_machine isn't that of RISC-V.
    #[error("Machine")]
    Machine = 7,
    /// e_phentsize isn't 32.
    #[error("HeaderSize")]
    HeaderSize = 8,
    /// The program headers reach past the file's end.
    #[error("Headers")]
    Headers = 9,
    /// A program header is of type PT_INTERP.
    #[error("Interpreter")]
    Interpreter = 10,
    /// The bytes of a PT_LOAD segment reach past the file's end.
    #[error("SegmentFile")]
    SegmentFile = 11,
    /// A PT_LOAD segment has more bytes in the file than in memory.
    #[error("SegmentSize")]
    SegmentSize = 12,
    /// A PT_LOAD segment reaches past address 2^32.
    #[error("SegmentWrap")]
    SegmentWrap = 13,
    /// There are more than 64 PT_LOAD segments.
    #[error("TooMany")]
    TooMany = 14,
    /// Two PT_LOAD segments share an address.
    #[error("Overlap")]
    Overlap = 15,
    /// e_entry isn't a multiple of 4.
    #[error("Entry")]
    Entry = 16,
}

impl ElfFault {
    /// The fault's number, from 1 to 16.
    pub fn number(&self) -> u8
        ensures { result ≡ number_of self.now }
    {
        *self as u8
    }
}
