//! Plain data that every crate shares, numbers in a file, and the named constants of the record and the machine.
#![tactic(auto)]

mod bytes;
pub mod cells;
mod fields;
mod instr;
pub mod layout;
pub mod limits;
pub mod machine;
mod record;
pub mod rules;
#[cfg(test)]
mod tests;

pub use bytes::{Bytes, Text};
pub use fields::{get16, get32, get64, set16, set32, set64, time_of};
pub use instr::{Atomic, AtomicOp, Cond, Instr, LoadKind, Op, StoreKind};
pub use record::{
    Access, End, Header, NoMemory, Place, Refusal, Seen, ShardHead, TableEntry, Touch, Tuple,
    Verdict,
};
