//! Which legal moves are captures.
ghost use Rattle.std.specs.Prelude.{◌≡◌};
ghost use Rattle.study_moves.specs.LegalList.{is_capture};

use study_board::{Man, Square, is_occupied};
use study_moves::is_en_passant;
use study_wide::WidePosition;

/// Whether a legal move of the man to the square is a capture.
#[tactic(auto, unfolding(study_moves::specs::LegalList::is_capture))]
pub fn is_capture(p: &WidePosition, man: &Man, x: Square) -> bool
    ensures { result ≡ is_capture p.now.board man.now x }
{
    is_occupied(p.men(), x.number()) || is_en_passant(p.passed(), man, x)
}
