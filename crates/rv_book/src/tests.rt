//! A book of three pieces, whose digests are small numbers.

ghost use Rattle.std.specs.Prelude.{◌≡◌, ◌<◌, Some, slice_get};

use crate::{Book, Deposited, Entry, Piece, Task};
use rv_base::{Bytes, NoMemory, Place};
use rv_digest::SetDigest;
use std::alloc::Global;
use std::test::Fail;

// The piece of i has i in each lane of what it reads, and 1 in each lane of what it writes.
struct Numbers;

impl Task for Numbers {
    ghost use Rattle.std.specs.Prelude.{[], None, replicate, refl};
    ghost use Rattle.rv_book.specs.declared.task.Piece.{Piece};

    ghost bound = { λ t. 65536 };

    ghost piece = { λ t i. record {
      index = i;
      bytes = [];
      reads = record { lanes = replicate 16 i };
      writes = record { lanes = replicate 16 1 };
      place = record { pc = 0; input = 0; output = 0 };
      fault = None;
    } };

    fn work(&self, alloc: Global, i: u32) -> Result<Piece, NoMemory> {
        Ok(Piece {
            index: i,
            bytes: Bytes::of(Vec::new(alloc)),
            reads: SetDigest {
                lanes: [i as u64; 16],
            },
            writes: SetDigest { lanes: [1; 16] },
            place: Place {
                pc: 0,
                input: 0,
                output: 0,
            },
            fault: None,
        })
    }

    ghost numbered = { λ t i lt. refl };
}

// Makes the piece of an index, and deposits it.
fn enter<T: Task>(
    alloc: Global,
    task: &T,
    book: &mut Book<'_, T>,
    pass: u32,
    i: u32,
) -> Result<Deposited, NoMemory>
    requires bound { i < T.bound task.now }
    requires known { slice_get book.old.pieces i ≡ Some (T.piece task.now i) }
    ensures { book.new.pieces ≡ book.old.pieces }
{
    let piece = task.work(alloc, i)?;
    Ok(book.deposit(pass, piece))
}

#[test]
fn each_piece_is_entered_once(rt: HostRuntime) -> Result<(), Fail> {
    let mut book = Book::open(rt.alloc(), &Numbers, 3)?;
    assert_eq!(rt; book.reads().lanes, [0; 16]);
    assert_eq!(rt;
        enter(rt.alloc(), &Numbers, &mut book, 1, 2)?,
        Deposited::New
    );
    assert_eq!(rt;
        enter(rt.alloc(), &Numbers, &mut book, 0, 0)?,
        Deposited::New
    );
    assert_eq!(rt;
        enter(rt.alloc(), &Numbers, &mut book, 0, 2)?,
        Deposited::There(2)
    );
    assert_eq!(rt; book.count(), 2);
    assert!(rt; book.piece(1).is_none() && book.piece(3).is_none());
    assert_eq!(rt;
        enter(rt.alloc(), &Numbers, &mut book, 0, 1)?,
        Deposited::New
    );
    assert_eq!(rt; book.piece(1).map(|piece| piece.index), Some(1));
    assert_eq!(rt; book.reads().lanes, [3; 16]);
    assert_eq!(rt; book.writes().lanes, [3; 16]);
    let order = [(1, 2), (0, 0), (0, 1)].map(|(pass, index)| Entry { pass, index });
    assert!(rt; book.journal() == order.as_slice());
    Ok(())
}
