//! The index of a position.
ghost use Rattle.std.specs.Prelude.{◌≡◌, ◌≤◌, ◌<◌, length, [], ◌∷◌};
ghost use Rattle.study_values.specs.Number.{IsLeastNumber, IsIndex};
ghost use Rattle.study_values.specs.Index.{least_number, index_of, sort_by_slot};
ghost use Rattle.study_board.specs.Symmetry.{turned_square};
ghost use Rattle.study_values.specs.Canonical.{option_min, canonical_number};
ghost use Rattle.study_index.specs.Squares.{square_symmetry, exchanged_at, descends_at, number_at, least_turned, least_at};

use crate::colour_swap::is_swapped;
use crate::numbering::{Frame, has_pawn, number};
use crate::slot_order::{
    insert_into_three, insert_into_two, man_slot_number, placed_man, side_after, sort_two,
    square_of_man,
};
use crate::transform::turned_square;
use study_board::{Man, Position, Square, Symmetry};
use study_moves::has_legal_en_passant;
use study_values::EN_PASSANT_BIT;

/// The symmetry that brings the square to a listed one, if there is one, written without a swap of colours: if there is no pawn, the
/// ranks that a swap mirrors are mirrored back.
#[inline]
#[tactic(auto, unfolding(crate::specs::Squares::square_symmetry))]
fn square_symmetry(frame: Frame, diagonal: bool, s: Square) -> Symmetry
    ensures { result ≡ square_symmetry frame.has_pawns diagonal frame.swap_colours s }
{
    let (right, top) = (s.file() > 3, s.rank() > 3);
    if frame.has_pawns {
        Symmetry {
            files: right,
            ranks: frame.swap_colours,
            diagonal: false,
            colours: false,
        }
    } else {
        Symmetry {
            files: right,
            ranks: top,
            diagonal,
            colours: false,
        }
    }
}

/// The lesser of two optional numbers, or the only one.
#[inline]
fn option_min(a: Option<u32>, b: Option<u32>) -> Option<u32>
    ensures { result ≡ option_min a b }
{
    match (a, b) {
        (None, b) => b,
        (Some(x), None) => Some(x),
        (Some(x), Some(y)) => if y < x { Some(y) } else { Some(x) },
    }
}

/// The least number by one symmetry, if the last two of four squares can be exchanged.
#[inline(always)]
#[tactic(auto, unfolding(crate::specs::Squares::least_turned))]
fn least_by(frame: Frame, t: Symmetry, like: bool, squares: &[Square]) -> Option<u32>
    requires { length squares.now ≤ 4 }
    ensures { result ≡ least_turned frame.has_pawns frame.to_move
        (turned_square t) like squares.now }
{
    if like && descends(t, squares) {
        exchanged_number(frame, t, squares)
    } else {
        number(frame, t, squares)
    }
}

/// Whether the last of four squares goes to a lower one than the square before it.
#[inline]
fn descends(t: Symmetry, squares: &[Square]) -> bool
    ensures { result ≡ descends_at (turned_square t) squares.now }
{
    match squares {
        [_, _, x, y] => turned_square(t, *y).number() < turned_square(t, *x).number(),
        _ => false,
    }
}

/// The number with the last two of four squares exchanged.
#[inline]
fn exchanged_number(frame: Frame, t: Symmetry, squares: &[Square]) -> Option<u32>
    requires { length squares.now ≤ 4 }
    ensures { result ≡ number_at frame.has_pawns frame.to_move (turned_square t)
        (exchanged_at squares.now) }
{
    match squares {
        [a, b, x, y] => number(frame, t, &[*a, *b, *y, *x]),
        _ => number(frame, t, squares),
    }
}

/// The least number by the symmetries that bring the first square, the white king's, to a listed one.
#[inline(always)]
#[tactic(auto, unfolding(crate::specs::Squares::least_at))]
fn least_at(frame: Frame, like: bool, squares: &[Square]) -> Option<u32>
    requires { length squares.now ≤ 4 }
    ensures { result ≡ least_at frame.has_pawns frame.to_move frame.swap_colours like squares.now }
{
    match squares {
        [] => None,
        [king, ..] => {
            let t = square_symmetry(frame, false, *king);
            let straight = least_by(frame, t, like, squares);
            if frame.has_pawns {
                straight
            } else {
                let t = square_symmetry(frame, true, *king);
                option_min(straight, least_by(frame, t, like, squares))
            }
        }
    }
}

/// The least number of men who stand in the order of their slots.
#[inline(always)]
#[tactic(auto, unfolding(crate::specs::Squares::least_at, study_values::specs::Canonical::canonical_number))]
pub fn canonical_number(frame: Frame, men: &[Man]) -> Option<u32>
    requires { length men.now ≤ 4 }
    ensures { result ≡ canonical_number frame.has_pawns frame.to_move frame.swap_colours men.now }
{
    match men {
        [] => None,
        [a] => least_of_king(frame, *a),
        [a, b] => least_of_kings(frame, *a, *b),
        [a, b, c] => least_with_one(frame, *a, *b, *c),
        [a, b, c, d] => least_with_two(frame, *a, *b, *c, *d),
        _ => unreachable!(),
    }
}

#[inline]
fn least_of_king(frame: Frame, a: Man) -> Option<u32>
    ensures { result ≡ canonical_number frame.has_pawns frame.to_move frame.swap_colours (a ∷ []) }
{
    least_at(frame, false, &[square_of_man(a)])
}

#[inline]
fn least_of_kings(frame: Frame, a: Man, b: Man) -> Option<u32>
    ensures { result
        ≡ canonical_number frame.has_pawns frame.to_move frame.swap_colours (a ∷ b ∷ []) }
{
    let squares = [square_of_man(a), square_of_man(b)];
    least_at(frame, false, &squares)
}

#[inline(always)]
fn least_with_one(frame: Frame, a: Man, b: Man, c: Man) -> Option<u32>
    ensures { result
        ≡ canonical_number frame.has_pawns frame.to_move frame.swap_colours (a ∷ b ∷ c ∷ []) }
{
    let squares = [square_of_man(a), square_of_man(b), square_of_man(c)];
    least_at(frame, false, &squares)
}

#[inline(always)]
fn least_with_two(frame: Frame, a: Man, b: Man, c: Man, d: Man) -> Option<u32>
    ensures { result
        ≡ canonical_number frame.has_pawns frame.to_move frame.swap_colours (a ∷ b ∷ c ∷ d ∷ []) }
{
    let like = man_slot_number(frame.swap_colours, &c) == man_slot_number(frame.swap_colours, &d);
    let squares = [
        square_of_man(a),
        square_of_man(b),
        square_of_man(c),
        square_of_man(d),
    ];
    least_at(frame, like, &squares)
}

/// The least number of the men, put in the order of their slots.
#[inline]
#[tactic(auto, unfolding(study_values::specs::Canonical::canonical_number))]
fn least_in_slots(frame: Frame, men: &[Man]) -> Option<u32>
    requires { length men.now ≤ 4 }
    ensures { result ≡ canonical_number frame.has_pawns frame.to_move frame.swap_colours
        (sort_by_slot frame.swap_colours men.now) }
{
    match men {
        [] => None,
        [a] => canonical_number(frame, &[*a]),
        [a, b] => least_of_two(frame, *a, *b),
        [a, b, c] => least_of_three(frame, *a, *b, *c),
        [a, b, c, d] => least_of_four(frame, *a, *b, *c, *d),
        _ => unreachable!(),
    }
}

#[inline]
fn least_of_two(frame: Frame, a: Man, b: Man) -> Option<u32>
    ensures { result ≡ canonical_number frame.has_pawns frame.to_move frame.swap_colours
        (sort_by_slot frame.swap_colours (a ∷ b ∷ [])) }
{
    let swap = frame.swap_colours;
    let (a, b) = sort_two(&placed_man(swap, &a), &placed_man(swap, &b));
    least_at(frame, false, &[a.square, b.square])
}

#[inline]
fn least_of_three(frame: Frame, a: Man, b: Man, c: Man) -> Option<u32>
    ensures { result ≡ canonical_number frame.has_pawns frame.to_move frame.swap_colours
        (sort_by_slot frame.swap_colours (a ∷ b ∷ c ∷ [])) }
{
    let swap = frame.swap_colours;
    let (b, c) = sort_two(&placed_man(swap, &b), &placed_man(swap, &c));
    let (a, b, c) = insert_into_two(&placed_man(swap, &a), &b, &c);
    let squares = [a.square, b.square, c.square];
    least_at(frame, false, &squares)
}

#[inline]
fn least_of_four(frame: Frame, a: Man, b: Man, c: Man, d: Man) -> Option<u32>
    ensures { result ≡ canonical_number frame.has_pawns frame.to_move frame.swap_colours
        (sort_by_slot frame.swap_colours (a ∷ b ∷ c ∷ d ∷ [])) }
{
    let swap = frame.swap_colours;
    let (c, d) = sort_two(&placed_man(swap, &c), &placed_man(swap, &d));
    let (b, c, d) = insert_into_two(&placed_man(swap, &b), &c, &d);
    let (a, b, c, d) = insert_into_three(&placed_man(swap, &a), &b, &c, &d);
    let squares = [a.square, b.square, c.square, d.square];
    least_at(frame, c.slot == d.slot, &squares)
}

/// The least number of the images of a position that its class admits. The passed square is ignored.
fn least_number(p: &Position) -> u32
    ensures least { IsLeastNumber p.now result }
    ensures value { result ≡ least_number p.now }
    ensures small { result < 16777216 }
{
    let men = p.men();
    let colours = is_swapped(p);
    let frame = Frame {
        has_pawns: has_pawn(men),
        to_move: side_after(colours, p.to_move()),
        swap_colours: colours,
    };
    match least_in_slots(frame, men) {
        Some(n) => n,
        None => unreachable!(),
    }
}

/// The number of a position in the tables of its class: the least number of the images that the class admits, and
/// 16,777,216 more if a capture in passing is legal.
#[tactic(auto, unfolding(study_values::specs::Index::index_of))]
pub fn index(p: &Position) -> u32
    ensures least { IsIndex p.now result }
    ensures value { result ≡ index_of p.now }
{
    let least = least_number(p);
    if has_legal_en_passant(p) {
        EN_PASSANT_BIT + least
    } else {
        least
    }
}
