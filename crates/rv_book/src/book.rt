//! The book of a task's pieces.

ghost use Rattle.std.specs.Prelude.{◌≡◌, ◌≤◌, ◌<◌, true, [], Some, IfOk, MatchOption, None, replicate, length, slice_get};
ghost use Rattle.rv_book.specs.Journal.{BookState, IsDeposit, is_entered, named_once, pieces_of, piece_at, read_lanes, total_of, write_lanes};

use crate::entry::{Deposited, Entry};
use crate::task::{Piece, Task};
use rv_base::NoMemory;
use rv_base::limits::SHARDS_LIMIT;
use rv_digest::SetDigest;
use std::alloc::Global;
use std::marker::Model;

/// The pieces of a task that were entered, the sums of their digests, and a journal of which pass
/// entered which piece.
#[derive(Drop)]
pub struct Book<'t, T: Task> {
    task: &'t T,
    shards: u32,
    slots: Vec<Option<Piece>>,
    journal: Vec<Entry>,
    reads: SetDigest,
    writes: SetDigest,
}

impl<'t, T: Task> Model for Book<'t, T> {
    ghost use Rattle.std.specs.Prelude.{◌≤◌, vec_capacity};
    ghost use Rattle.rv_book.specs.Journal.{BookState, pieces_of};
    ghost use Rattle.rv_base.specs.declared.limits.TheConstants.{SHARDS_LIMIT};
    ghost use Rattle.rv_book.specs.Book.{RepresentsBook};

    ghost Value = { BookState };

    ghost view = { λ b. record { pieces = pieces_of (T.piece b.task.now) b.shards; journal = b.journal.items } };

    ghost invariant = { λ b. RepresentsBook (pieces_of (T.piece b.task.now) b.shards) b.slots.items b.journal.items b.reads.lanes b.writes.lanes
        × (b.shards ≤ vec_capacity b.journal) × (b.shards ≤ SHARDS_LIMIT) };
}

impl<'t, T: Task> Book<'t, T> {
    /// An empty book for the first `n` pieces of a task. It takes all the memory that the book ever
    /// needs, but for that of the pieces.
    pub fn open(alloc: Global, task: &'t T, n: u32) -> Result<Book<'t, T>, NoMemory>
        requires shards { (1 ≤ n) × (n ≤ SHARDS_LIMIT) }
        requires bound { n ≤ T.bound task.now }
        ensures { IfOk result (λ b. b ≡ record { pieces = pieces_of (T.piece task.now) n; journal = [] }) }
    {
        let journal = Vec::with_capacity(alloc, n as usize)?;
        let slots = empty_slots(alloc, n)?;
        Ok(Book {
            task,
            shards: n,
            slots,
            journal,
            reads: SetDigest::zero(),
            writes: SetDigest::zero(),
        })
    }

    /// Enters a piece of the task, unless its index is in the book: then the piece is dropped and
    /// the book stays as it is. It takes no memory.
    pub fn deposit(&mut self, pass: u32, piece: Piece) -> Deposited
        requires { slice_get self.old.pieces piece.index ≡ Some piece }
        ensures { IsDeposit self.old pass piece.index result self.new }
    {
        let index = piece.index;
        if self.slots[index as usize].is_some() {
            return Deposited::There(index);
        }
        self.reads.add(&piece.reads);
        self.writes.add(&piece.writes);
        self.slots[index as usize] = Some(piece);
        self.journal.push_reserved(Entry { pass, index });
        Deposited::New
    }

    /// The piece of an index, if it is in the book.
    pub fn piece(&self, i: u32) -> Option<&Piece>
        ensures { MatchOption result (piece_at self.now i ≡ None) (λ p. piece_at self.now i ≡ Some p.now) }
    {
        match self.slots.get(i as usize) {
            Some(Some(piece)) => Some(piece),
            _ => None,
        }
    }

    /// How many pieces are in the book.
    pub fn count(&self) -> u32
        ensures { result ≡ length self.now.journal }
    {
        self.journal.len() as u32
    }

    /// The sum of the digests of what the entered pieces read.
    pub fn reads(&self) -> SetDigest
        ensures { result.lanes ≡ total_of read_lanes self.now.pieces self.now.journal }
    {
        self.reads
    }

    /// The sum of the digests of what the entered pieces wrote.
    pub fn writes(&self) -> SetDigest
        ensures { result.lanes ≡ total_of write_lanes self.now.pieces self.now.journal }
    {
        self.writes
    }

    /// Which pass entered which piece, in the order of the deposits. No index is named twice.
    pub fn journal(&self) -> &[Entry]
        ensures entries { result.now ≡ self.now.journal }
        ensures once { named_once result.now ≡ true }
    {
        self.journal.as_slice()
    }
}

// A slot for each of n pieces, with nothing in it.
fn empty_slots(alloc: Global, n: u32) -> Result<Vec<Option<Piece>>, NoMemory>
    ensures { IfOk result (λ v. v.items ≡ replicate n None) }
{
    let mut slots = Vec::new(alloc);
    for _ in 0..n {
        slots.push(None)?;
    }
    Ok(slots)
}
