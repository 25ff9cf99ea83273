//! What several workers did, put together.

ghost use Rattle.std.specs.Prelude.{◌+◌, ℕ, Bool, false, IfOk};
ghost use Rattle.crossbeam_queue.specs.Passes.{IsPassOf};
ghost use Rattle.rv_book.specs.declared.task.Piece.{Piece as PieceOf};
ghost use Rattle.rv_pipe.specs.Took.{HasMade};

use crate::rules::{Gathers, Line, Run};
use crate::working::Took;
use rv_base::NoMemory;

/// What one worker did, and then what another did, by the pass of the one.
pub fn gather<J: Run>(line: &Line<J>, mine: Took, theirs: Took) -> Result<Took, NoMemory>
    requires { IsPassOf line.now mine.pass × IsPassOf line.now theirs.pass }
    ensures pass { IfOk result (λ t. IsPassOf line.now t.pass) }
    ensures made { (piece : ℕ → PieceOf) (walks : Bool) (parts more pushed : ℕ)
        → HasMade piece walks parts pushed mine → HasMade piece false more 0 theirs → IfOk result (HasMade piece walks (parts + more) pushed) }
{
    let Took {
        mut pass,
        mut pieces,
    } = mine;
    let Took {
        pass: other,
        pieces: mut more,
    } = theirs;
    line.absorb::<Gathers>(&mut pass, other);
    pieces.append(&mut more)?;
    Ok(Took { pass, pieces })
}
