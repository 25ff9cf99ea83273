//! A board of three pieces with two passes. Deposits and the end of a board are tested with the workers.

use crate::Board;
use rv_base::{Bytes, NoMemory, Place};
use rv_book::{Piece, Task};
use rv_digest::SetDigest;
use std::alloc::Global;
use std::test::Fail;

// Pieces without bytes.
struct Empty;

impl Task for Empty {
    ghost use Rattle.std.specs.Prelude.{[], None, replicate, refl};
    ghost use Rattle.rv_book.specs.declared.task.Piece.{Piece};

    ghost bound = { λ t. 65536 };

    ghost piece = { λ t i. record {
      index = i;
      bytes = [];
      reads = record { lanes = replicate 16 0 };
      writes = record { lanes = replicate 16 0 };
      place = record { pc = 0; input = 0; output = 0 };
      fault = None;
    } };

    fn work(&self, alloc: Global, i: u32) -> Result<Piece, NoMemory> {
        Ok(Piece {
            index: i,
            bytes: Bytes::of(Vec::new(alloc)),
            reads: SetDigest::zero(),
            writes: SetDigest::zero(),
            place: Place {
                pc: 0,
                input: 0,
                output: 0,
            },
            fault: None,
        })
    }

    ghost numbered = { λ t i lt. refl };
}

#[test]
fn numbers_are_drawn_once(rt: HostRuntime) -> Result<(), Fail> {
    let (board, mut passes) = Board::open(rt.alloc(), &Empty, 3, 2)?;
    let Some(mut second) = passes.pop() else {
        return Ok(());
    };
    let Some(mut first) = passes.pop() else {
        return Ok(());
    };
    assert_eq!(rt; (first.number(), second.number()), (0, 1));
    assert_eq!(rt; board.claim(&mut second), Some(0));
    assert_eq!(rt; board.claim(&mut first), Some(1));
    assert_eq!(rt; board.claim(&mut second), Some(2));
    assert_eq!(rt; board.claim(&mut second), None);
    assert_eq!(rt; board.claim(&mut first), None);
    assert_eq!(rt; board.claim(&mut second), None);
    Ok(())
}
