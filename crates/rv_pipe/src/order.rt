//! Pieces in the order of their indices.

ghost use Rattle.std.specs.Prelude.{◌≡◌, ℕ, List, map, nat_lt};
ghost use Rattle.std.specs.List.{range_with_len};
ghost use Rattle.rv_book.specs.BoardLaws.{one, times};
ghost use Rattle.rv_book.specs.declared.task.Piece.{Piece as PieceOf};

use rv_book::Piece;

/// Puts pieces into the order of their indices.
pub fn sort_pieces(pieces: &mut Vec<Piece>)
    ensures { (piece : ℕ → PieceOf) (n : ℕ) (taken : List ℕ)
        → pieces.old.items ≡ map piece taken → ((i : ℕ) → (piece i).index ≡ i) → ((x : ℕ) → times x taken ≡ one (nat_lt x n))
        → pieces.new.items ≡ map piece (range_with_len 0 n) }
{
    pieces.sort_unstable_by_key(|piece| piece.index);
}
