//! The registers that have a part of their own, by their names in the RISC-V calling convention.

/// The stack pointer.
pub(crate) const SP: u8 = 2;

/// The first argument of a call of the environment, and what it returns.
pub(crate) const A0: u8 = 10;

/// The second argument of a call.
pub(crate) const A1: u8 = 11;

/// The third argument of a call.
pub(crate) const A2: u8 = 12;

/// The number of a call.
pub(crate) const A7: u8 = 17;
