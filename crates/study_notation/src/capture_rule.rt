//! Which legal moves are captures.
ghost use Rattle.std.specs.Prelude.{◌≡◌};
ghost use Rattle.study_board.specs.Position.{is_occupied};
ghost use Rattle.study_moves.specs.LegalList.{is_capture};

use study_board::{Man, Position, Square, is_occupied};
use study_moves::is_en_passant;

/// Whether a legal move of the man to the square is a capture.
#[tactic(auto, unfolding(study_moves::specs::LegalList::is_capture))]
pub fn is_capture(p: &Position, man: &Man, x: Square) -> bool
    ensures { result ≡ is_capture p.now man.now x }
{
    is_occupied(p.men(), x.number()) || is_en_passant(p.passed(), man, x)
}
