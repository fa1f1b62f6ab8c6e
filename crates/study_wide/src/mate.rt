//! Check, checkmate and stalemate.
ghost use Rattle.std.specs.Prelude.{◌≡◌, ◌==◌, ◌↔◌, IsTrue, length};
ghost use Rattle.study_wide.specs.LegalList.{is_in_check, is_wide_mate, wide_legal_list};
ghost use Rattle.study_wide.specs.Game.{HasNoWideMove, IsWideMate, IsWideStalemate};

use crate::{WidePosition, legal_moves};

/// Whether the king of the side to move is attacked.
pub fn in_check(p: &WidePosition) -> bool
    ensures { result ≡ is_in_check p.now }
{
    study_board::in_check(p.men(), p.to_move())
}

/// Whether the side to move has no legal move.
fn has_no_move(p: &WidePosition) -> bool
    ensures listed { result ≡ (length (wide_legal_list p.now) == 0) }
    ensures none { IsTrue result ↔ HasNoWideMove p.now }
{
    legal_moves(p).is_empty()
}

/// Whether the side to move is checkmated.
pub fn is_mate(p: &WidePosition) -> bool
    ensures listed { result ≡ is_wide_mate p.now }
    ensures mate { IsTrue result ↔ IsWideMate p.now }
{
    in_check(p) && has_no_move(p)
}

/// Whether the side to move is stalemated.
pub fn is_stalemate(p: &WidePosition) -> bool
    ensures { IsTrue result ↔ IsWideStalemate p.now }
{
    !in_check(p) && has_no_move(p)
}
