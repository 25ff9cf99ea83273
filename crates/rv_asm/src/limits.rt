//! Limits of a source, and where its code stands.

/// The most bytes of a source.
pub const SOURCE_LIMIT: usize = 1_048_576;

/// The most statements of a source.
pub const STATEMENTS_LIMIT: u32 = 65_536;

/// The address of the first statement.
pub const CODE_START: u32 = 0x1_0000;
