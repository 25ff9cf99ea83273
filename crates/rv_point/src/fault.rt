//! Why a run isn't given in shards.

ghost use Rattle.std.specs.Prelude.{◌≡◌};
ghost use Rattle.rv_point.specs.declared.fault.RunFault.TheVariants as fault;

use rv_base::NoMemory;
use std::alloc::{AllocError, AllocFailed};

/// Why a run isn't given in shards: it goes on past its budget of steps, it needs more shards than a record has,
/// and how many, or there is no memory.
#[derive(Clone, Copy, PartialEq, Eq, Debug)]
pub enum RunFault {
    Budget,
    Shards { needed: u64 },
    NoMemory,
}

impl From<NoMemory> for RunFault {
    ghost from_gives = { λ _ e. e ≡ fault.NoMemory };

    fn from(_e: NoMemory) -> RunFault {
        RunFault::NoMemory
    }
}

impl From<AllocError> for RunFault {
    ghost from_gives = { λ _ e. e ≡ fault.NoMemory };

    fn from(_e: AllocError) -> RunFault {
        RunFault::NoMemory
    }
}

impl<T: Drop> From<AllocFailed<T>> for RunFault {
    ghost from_gives = { λ _ e. e ≡ fault.NoMemory };

    fn from(_e: AllocFailed<T>) -> RunFault {
        RunFault::NoMemory
    }
}
