//! What a worker passes before each piece of work.

ghost use Rattle.std.specs.Prelude.{◌≡◌};

use std::sync::atomic::{AtomicBool, Ordering};

/// A worker passes the gate before each piece of work. It says nothing of what it does, and a call
/// of it may wait.
pub trait Gate: Sync {
    fn pass(&self, worker: u32, shard: u32);
}

/// A gate that does nothing.
#[derive(Clone, Copy, PartialEq, Eq, Debug)]
pub struct OpenGate;

impl Gate for OpenGate {
    fn pass(&self, _worker: u32, _shard: u32) {}
}

/// A gate at which worker 0 and worker 1 wait for one another, for tests: it holds the first pass of
/// each until the other of the two has called `pass` too, or until it has looked for that so many
/// times. It holds no other pass, and no pass for good.
#[derive(Drop)]
pub struct HoldGate {
    /// The most loads of one pass.
    turns: u64,
    zero: Caller,
    one: Caller,
}

/// One of the two workers that wait for one another.
#[derive(Drop)]
struct Caller {
    has_called: AtomicBool,
    /// Whether its first pass saw that the other had called.
    has_met: AtomicBool,
}

impl Caller {
    fn absent() -> Caller {
        Caller {
            has_called: AtomicBool::new(false),
            has_met: AtomicBool::new(false),
        }
    }

    /// Whether one of so many loads shows that this worker has called.
    fn comes_within(&self, turns: u64) -> bool {
        for _ in 0..turns {
            if self.has_called.load(Ordering::SeqCst) {
                return true;
            }
        }
        false
    }

    /// Calls as this worker, and waits for the other where it is the first call.
    fn meet(&self, other: &Caller, turns: u64) {
        let is_first = !self.has_called.swap(true, Ordering::SeqCst);
        if is_first && other.comes_within(turns) {
            self.has_met.store(true, Ordering::SeqCst);
        }
    }
}

impl HoldGate {
    /// A gate that nobody has passed. A pass that it holds loads a shared word at most `turns` times.
    pub fn new(turns: u64) -> HoldGate
        ensures { result.turns ≡ turns }
    {
        HoldGate {
            turns,
            zero: Caller::absent(),
            one: Caller::absent(),
        }
    }

    /// Whether the first passes of both workers have ended, and neither used up its turns.
    pub fn met(&self) -> bool {
        self.zero.has_met.load(Ordering::SeqCst) && self.one.has_met.load(Ordering::SeqCst)
    }
}

impl Gate for HoldGate {
    fn pass(&self, worker: u32, _shard: u32) {
        match worker {
            0 => self.zero.meet(&self.one, self.turns),
            1 => self.one.meet(&self.zero, self.turns),
            _ => {}
        }
    }
}
