//! What a judge holds between pieces.

ghost use Rattle.std.specs.Prelude.{◌≡◌, ◌<◌, ◌∷◌, ◌++◌, [], length};
ghost use Rattle.rv_reading.specs.Stream.{with_patience};
ghost use Rattle.rv_reading.specs.Machine.{told};
ghost use Rattle.rv_judge.specs.Phases.{Fits, stopped};
ghost use Rattle.rv_judge.specs.Held.{IsReading, ReadsOn, comes, held_of};

use crate::phases::{Extent, Machine};
use crate::subject::Subject;
use arrayvec::ArrayVec;
use rv_base::rules::SHORT;
use rv_base::{Header, Refusal, Verdict};
use rv_digest::Lanes;

/// More bytes than any phase waits with.
pub(crate) const BUFFER: usize = 256;

/// The machine, and the bytes that don't decide its phase.
#[derive(Drop)]
pub(crate) struct Reading<'c, 'p> {
    pub subject: Subject<'c, 'p>,
    pub machine: Machine,
    pub buffer: ArrayVec<u8, BUFFER>,
}

impl<'c, 'p> Reading<'c, 'p> {
    /// Reads bytes in front of which none are held.
    fn read_on<L: Lanes>(&mut self, lanes: &L, bytes: &[u8]) -> Result<(), Refusal>
        requires { Fits self.old.subject self.old.machine }
        ensures { ReadsOn L.lanes self.old self.new bytes.now result }
    {
        let stop = self.machine.read(&self.subject, lanes, Extent::File, bytes);
        if let Some(refusal) = lasting(stop.refusal) {
            return Err(refusal);
        }
        self.buffer = kept(stop.left);
        Ok(())
    }

    /// Reads a byte behind those that are held.
    fn take<L: Lanes>(&mut self, lanes: &L, byte: u8) -> Result<(), Refusal>
        requires { IsReading L.lanes self.old }
        ensures { ReadsOn L.lanes self.old self.new (self.old.buffer.items ++ byte ∷ []) result }
    {
        let mut bytes = kept(self.buffer.as_slice());
        bytes.push(byte);
        self.read_on(lanes, bytes.as_slice())
    }

    /// Reads a piece behind the bytes that are held. What lies whole in the piece is read from there, and only what is cut is held.
    pub fn feed<L: Lanes>(&mut self, lanes: &L, piece: &[u8]) -> Result<(), Refusal>
        requires { IsReading L.lanes self.old }
        ensures { ReadsOn L.lanes self.old self.new (self.old.buffer.items ++ piece.now) result }
    {
        for (at, byte) in piece.iter().enumerate() {
            if self.buffer.is_empty() {
                return self.read_on(lanes, &piece[at..]);
            }
            self.take(lanes, *byte)?;
        }
        Ok(())
    }

    /// The verdict where no more bytes follow.
    pub fn finish<L: Lanes>(&self, lanes: &L) -> Verdict
        requires { IsReading L.lanes self.now }
        ensures { result ≡ comes L.lanes (Ok (held_of L.lanes self.now)) [] }
    {
        let mut machine = self.machine;
        let stop = machine.read(&self.subject, lanes, Extent::File, self.buffer.as_slice());
        verdict_on(self.subject.header(), stop.refusal)
    }
}

/// The refusal that bytes which follow don't change.
fn lasting(refusal: Option<Refusal>) -> Option<Refusal>
    ensures { stopped result ≡ with_patience (stopped refusal) }
{
    match refusal {
        Some(refusal) => {
            if refusal.rule == SHORT {
                None
            } else {
                Some(refusal)
            }
        }
        None => None,
    }
}

/// The verdict where the reading of a whole file stops.
pub(crate) fn verdict_on(header: &Header, refusal: Option<Refusal>) -> Verdict
    ensures { result ≡ told header.now (stopped refusal) }
{
    match refusal {
        Some(refusal) => Verdict::Refuse(refusal),
        None => Verdict::Accept {
            steps: header.steps,
            shards: header.shards,
            end: header.end,
        },
    }
}

/// The bytes, of which there are fewer than a buffer holds.
fn kept(bytes: &[u8]) -> ArrayVec<u8, BUFFER>
    requires { length bytes.now < BUFFER }
    ensures { result.items ≡ bytes.now }
{
    let mut buffer = ArrayVec::new();
    if buffer.try_extend_from_slice(bytes).is_err() {
        unreachable!();
    }
    buffer
}
