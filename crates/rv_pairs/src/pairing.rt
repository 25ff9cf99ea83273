//! Tuples read and written, paired.

ghost use Rattle.std.specs.Prelude.{◌≡◌, ◌≤◌, ◌<◌, ◌^◌, ◌∷◌, ◌++◌, List, [], IfSome, map};
ghost use Rattle.rv_base.specs.declared.record.Tuple.{Tuple as TupleOf};
ghost use Rattle.rv_spec.specs.Digest.{Lanes as LanesOf};
ghost use Rattle.rv_spec.specs.Tuples.{event, tuple_read, tuple_written};

use crate::adder::{Adder, NO_TUPLE};
use rv_base::cells::REGISTER_CELLS;
use rv_base::{Access, Tuple, time_of};
use rv_digest::{Lanes, SetDigest};

// The places of the registers, and behind them those of the words of memory.
const REGISTERS: usize = 32;

const WORDS: usize = 1024;

const PLACES: usize = REGISTERS + WORDS;

/// The tuples that accesses read and write, in outline after the offline memory checking of Blum et al. 1991. A tuple that was
/// written waits until the next access of its cell. Where this reads the tuple that waits, it is added to `both`, and so hashed once;
/// else what waits is added to `writes`, and what is read to `reads`. Each register has a place of its own, and a word of memory
/// shares one with those whose numbers differ by a multiple of 1,024; each place has at most one tuple that waits. Takes no memory.
#[derive(Clone, Copy)]
pub struct Pairing {
    pub reads: Adder,
    pub writes: Adder,
    pub both: Adder,
    pub waiting: [Tuple; PLACES],
    pub count: usize,
    // Which of those that wait was the last of a place, if it still waits: what stands here is looked up and not believed, so it
    // need not be cleared.
    pub hints: [u16; PLACES],
    pub ghost few: { count ≤ 1056 },
}

impl Pairing {
    ghost use Rattle.rv_pairs.specs.Covers.{Covers, read_digest, with_tuples, written_digest};

    /// No access.
    pub fn new() -> Pairing
        ensures { (lanes : LanesOf) → Covers lanes result [] [] }
    {
        Pairing {
            reads: Adder::new(),
            writes: Adder::new(),
            both: Adder::new(),
            waiting: [NO_TUPLE; PLACES],
            count: 0,
            hints: [0; PLACES],
        }
    }

    /// No access again, in constant time.
    pub fn clear(&mut self)
        ensures { (lanes : LanesOf) → Covers lanes self.new [] [] }
    {
        self.reads.clear();
        self.writes.clear();
        self.both.clear();
        self.count = 0;
    }

    /// Takes an access, by the tuple that it reads and the tuple that it writes.
    pub fn access<L: Lanes>(&mut self, l: &L, read: Tuple, written: Tuple)
        ensures reads { read_digest L.lanes self.new ≡ with_tuples L.lanes (read_digest L.lanes self.old) (read ∷ []) }
        ensures writes { written_digest L.lanes self.new ≡ with_tuples L.lanes (written_digest L.lanes self.old) (written ∷ []) }
    {
        let place = place_of(written.cell);
        match self.waits_at(place) {
            Some(at) => {
                let last = self.waiting[at];
                if last == read {
                    self.both.add(l, read);
                } else {
                    self.writes.add(l, last);
                    self.reads.add(l, read);
                }
                self.waiting[at] = written;
            }
            None => {
                self.reads.add(l, read);
                self.wait(l, place, written);
            }
        }
    }

    /// Takes the accesses of a step, in order.
    pub fn accesses<L: Lanes>(&mut self, l: &L, step: u64, accesses: &[Access])
        requires { step < 2 ^ 32 }
        ensures reads { read_digest L.lanes self.new ≡ with_tuples L.lanes (read_digest L.lanes self.old) (map tuple_read (map (event step) accesses.now)) }
        ensures writes { written_digest L.lanes self.new ≡ with_tuples L.lanes (written_digest L.lanes self.old) (map tuple_written (map (event step) accesses.now)) }
        ensures covers { (rs ws : List TupleOf) → Covers L.lanes self.old rs ws
            → Covers L.lanes self.new (rs ++ map tuple_read (map (event step) accesses.now)) (ws ++ map tuple_written (map (event step) accesses.now)) }
    {
        for access in accesses {
            let read = Tuple {
                cell: access.cell,
                value: access.old,
                time: access.prev,
            };
            let written = Tuple {
                cell: access.cell,
                value: access.new,
                time: time_of(step, access.slot),
            };
            self.access(l, read, written);
        }
    }

    /// The digests of the tuples read and of the tuples written, in time linear in how many still have to be hashed.
    pub fn digests<L: Lanes>(&self, l: &L) -> (SetDigest, SetDigest)
        ensures reads { result.0.lanes ≡ read_digest L.lanes self.now }
        ensures writes { result.1.lanes ≡ written_digest L.lanes self.now }
    {
        let shared = self.both.total(l);
        let mut read = self.reads.total(l);
        read.add(&shared);
        let mut written = self.writes.total(l);
        written.add(&shared);
        written.add_tuples(l, &self.waiting[..self.count]);
        (read, written)
    }

    // Where a tuple of a place waits, if one does.
    fn waits_at(&self, place: usize) -> Option<usize>
        requires { place < PLACES }
        ensures { IfSome result (λ at. at < self.now.count) }
    {
        let at = self.hints[place] as usize;
        if at < self.count && place_of(self.waiting[at].cell) == place {
            Some(at)
        } else {
            None
        }
    }

    // Lets a tuple wait, where there is room.
    fn wait<L: Lanes>(&mut self, l: &L, place: usize, written: Tuple)
        requires { place < PLACES }
        ensures reads { read_digest L.lanes self.new ≡ read_digest L.lanes self.old }
        ensures writes { written_digest L.lanes self.new ≡ with_tuples L.lanes (written_digest L.lanes self.old) (written ∷ []) }
    {
        if self.count < PLACES {
            self.hints[place] = self.count as u16;
            self.waiting[self.count] = written;
            self.count += 1;
        } else {
            self.writes.add(l, written);
        }
    }
}

// Where the last tuple of a cell waits.
fn place_of(cell: u32) -> usize
    ensures { result < PLACES }
{
    if cell < REGISTER_CELLS {
        REGISTERS + cell as usize % WORDS
    } else {
        cell as usize % REGISTERS
    }
}
