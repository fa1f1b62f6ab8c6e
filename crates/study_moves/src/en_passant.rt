//! Whether a capture in passing is legal.
ghost use Rattle.std.specs.Prelude.{◌≡◌, ◌&&◌, Some};
ghost use Rattle.study_moves.specs.Rules.{is_en_passant, is_legal};
ghost use Rattle.study_moves.specs.EnPassant.{has_legal_en_passant, is_capturable_en_passant};

use crate::legal::{is_en_passant, is_legal};
use crate::moves::Move;
use study_board::{Man, Position, Square};

/// Whether the man is a pawn that captures on the passed square by a legal move.
#[inline]
fn captures(p: &Position, man: &Man, x: Square) -> bool
    ensures { result
        ≡ (is_en_passant p.now.passed man.now x
        && is_legal p.now (record { origin = man.now.at; target = x; promoted = None })) }
{
    is_en_passant(p.passed(), man, x)
        && is_legal(
            p,
            Move {
                origin: man.at,
                target: x,
                promoted: None,
            },
        )
}

/// Whether some man captures on this passed square.
fn is_capturable_en_passant(p: &Position, x: Square) -> bool
    ensures { result ≡ is_capturable_en_passant p.now (Some x) }
{
    p.men().iter().any(|man| captures(p, man, x))
}

/// Whether a capture in passing is legal.
#[inline]
pub fn has_legal_en_passant(p: &Position) -> bool
    ensures { result ≡ has_legal_en_passant p.now }
{
    match p.passed() {
        None => false,
        Some(x) => is_capturable_en_passant(p, x),
    }
}
