//! The number of a filling.
ghost use Rattle.study_board.specs.Men.{is_pawn};
ghost use Rattle.std.specs.Prelude.{◌≡◌, ◌+◌, ◌*◌, ◌^◌, ◌≤◌, ◌<◌, length, IfSome};
ghost use Rattle.study_board.specs.Symmetry.{turned_square};
ghost use Rattle.study_values.specs.Number.{place, king_places, side_number, has_pawn, places_before};
ghost use Rattle.study_index.specs.Squares.{counted_at, number_at};

use crate::transform::turned_square;
use study_board::{Kind, Man, Side, Square, Symmetry};

/// The offset of a rank in the triangle a1, d1, d4: added to the file, it gives the square's place.
#[inline]
fn places_before(rank: u8) -> u8
    ensures value { result ≡ places_before rank }
    ensures small { result ≤ 6 }
{
    match rank {
        0 => 0,
        1 => 3,
        2 => 5,
        _ => 6,
    }
}

/// The place of a square, if it is listed.
#[inline]
#[tactic(auto, unfolding(study_values::specs::Number::place))]
pub fn place(pawns: bool, s: Square) -> Option<u8>
    ensures value { result ≡ place pawns s }
    ensures small { IfSome result (λ q. q < king_places pawns) }
{
    let (file, rank) = (s.file(), s.rank());
    if pawns {
        if file < 4 {
            Some(4 * rank + file)
        } else {
            None
        }
    } else if file < 4 && !(file < rank) {
        Some(places_before(rank) + file)
    } else {
        None
    }
}

#[inline]
fn is_pawn(m: &Man) -> bool
    ensures { result ≡ is_pawn m.now }
{
    m.kind == Kind::Pawn
}

/// Whether some man is a pawn.
#[inline]
pub fn has_pawn(men: &[Man]) -> bool
    requires { length men.now ≤ 4 }
    ensures { result ≡ has_pawn men.now }
{
    match men {
        [] => false,
        [a] => is_pawn(a),
        [a, b] => is_pawn(a) | is_pawn(b),
        [a, b, c] => is_pawn(a) | is_pawn(b) | is_pawn(c),
        [a, b, c, d] => is_pawn(a) | is_pawn(b) | is_pawn(c) | is_pawn(d),
        _ => unreachable!(),
    }
}

/// Appends one square as a digit in base 64.
#[inline]
fn append_square(t: Symmetry, n: u32, x: Square) -> u32
    requires { n < 2 ^ 18 }
    ensures value { result ≡ n * 64 + turned_square t x }
    ensures small { result < n * 64 + 64 }
{
    n * 64 + u32::from(turned_square(t, x).number())
}

/// Appends further squares as digits in base 64.
#[inline(always)]
fn append_squares(t: Symmetry, n: u32, squares: &[Square]) -> u32
    requires small { n < 64 }
    requires few { length squares.now ≤ 3 }
    ensures value { result ≡ counted_at (turned_square t) n squares.now }
    ensures small { result < 16777216 }
{
    match squares {
        [] => n,
        [a] => append_square(t, n, *a),
        [a, b] => append_square(t, append_square(t, n, *a), *b),
        [a, b, c] => append_square(t, append_square(t, append_square(t, n, *a), *b), *c),
        _ => unreachable!(),
    }
}

#[inline]
pub fn side_number(side: Side) -> u32
    ensures value { result ≡ side_number side }
    ensures small { result < 2 }
{
    match side {
        Side::White => 0,
        Side::Black => 1,
    }
}

/// The number of listed squares of the white king.
#[inline]
pub fn king_places(pawns: bool) -> u32
    ensures value { result ≡ king_places pawns }
    ensures some { 0 < result }
    ensures small { result ≤ 32 }
{
    if pawns { 32 } else { 10 }
}

/// The parameters of a number beside its squares: whether some man is a pawn, the side to move, and whether the colours are swapped so that the side
/// with more men, or earlier ones, is White.
#[derive(Clone, Copy)]
pub struct Frame {
    pub has_pawns: bool,
    pub to_move: Side,
    pub swap_colours: bool,
}

/// The number that encodes squares in the order of their slots, turned; `None` if the white king does not come to a listed square.
#[inline(always)]
#[tactic(auto, unfolding(crate::specs::Squares::number_at))]
pub fn number(frame: Frame, t: Symmetry, squares: &[Square]) -> Option<u32>
    requires { length squares.now ≤ 4 }
    ensures value { result ≡ number_at frame.has_pawns frame.to_move (turned_square t) squares.now }
    ensures small { IfSome result (λ n. n < 16777216) }
{
    match squares {
        [] => None,
        [king, rest @ ..] => match place(frame.has_pawns, turned_square(t, *king)) {
            None => None,
            Some(q) => Some(append_squares(
                t,
                side_number(frame.to_move) * king_places(frame.has_pawns) + u32::from(q),
                rest,
            )),
        },
    }
}
