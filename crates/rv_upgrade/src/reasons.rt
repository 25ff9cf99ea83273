//! What the question for an upgrade answers.

/// Why a record file has no upgrade.
#[derive(Clone, Copy, PartialEq, Eq, Debug)]
pub enum Blocked {
    /// It has version 2 already.
    New,
    /// Its run ends at a word of extension A, which is illegal in version 1 and an instruction in version 2.
    Atomic { word: u32 },
}
