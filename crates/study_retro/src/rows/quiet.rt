//! Rows of numbers, 64 that differ only in the square of the man of the last slot: the squares of that man with which nothing is known before the levels
//! are found for all numbers of a row at once.
ghost use Rattle.std.specs.Prelude.{◌≡◌, ◌<◌, ◌+◌, ◌*◌, ◌&&◌, ◌⊎◌, ◌==◌, ℕ, true, [], ◌∷◌, ◌++◌, Some};
ghost use Rattle.std.specs.List.{list_any, All};
ghost use Rattle.study_board.specs.Geometry.{rank_of};
ghost use Rattle.study_board.specs.Men.{attacks_square, other_side};
ghost use Rattle.study_board.specs.Position.{Position as Seen, in_check, is_occupied};
ghost use Rattle.study_board.specs.Sets.{has};
ghost use Rattle.study_index.specs.Computed.{position_numbered};
ghost use Rattle.study_retro.specs.Still.{AreQuietPositions, AreStillOrNone, IsQuietPosition, opposing_man, is_capturable_or_promotes, has_forcing_move};
ghost use Rattle.study_retro.specs.Still.{is_relevant_target, on_square, rank_before_last};

use crate::numbers::moves::occupied_squares;
use crate::numbers::quiet::{
    attacked_squares, has_king_in, has_man_in, may_promote, rank_before_last,
};
use crate::rows::checks::squares_of_check;
use study_board::{Kind, Man, Side, Square, SquareSet, attacks, between};
use study_index::decode_men;
use study_material::Class;

/// Whether the men are not still if the man of the last slot bears on the other one.
#[inline]
fn is_relevant_target(last: &Man, to_move: Side, m: &Man) -> bool
    ensures { result ≡ is_relevant_target last.now to_move m.now }
{
    m.side != last.side && (last.side == to_move || m.kind == Kind::King)
}

/// The squares from which the man of the last slot would bear on the other one on an empty board, if that matters.
#[inline]
fn squares_against(last: &Man, to_move: Side, m: &Man) -> SquareSet
    ensures { (y : ℕ) → y < 64
        → has result y
        ≡ (is_relevant_target last.now to_move m.now
        && attacks_square [] (opposing_man last.now m.now.at) y) }
{
    if !is_relevant_target(last, to_move, m) {
        return SquareSet::empty();
    }
    let facing = Man {
        side: last.side.other(),
        kind: last.kind,
        at: m.at,
    };
    attacks(&[], &facing)
}

/// The squares from which the man of the last slot would, on an empty board, bear on a man for which that matters.
#[inline]
fn squares_bearing(others: &[Man], last: &Man, to_move: Side) -> SquareSet
    ensures { (y : ℕ) → y < 64
        → has result y ≡ list_any (λ m.
        is_relevant_target last.now to_move m
        && attacks_square [] (opposing_man last.now m.at) y) others.now }
{
    let mut set = SquareSet::empty();
    for m in others {
        set = set.union(squares_against(last, to_move, m));
    }
    set
}

/// The squares of the rank from which a pawn of the side promotes.
#[inline]
fn promoting_squares(side: Side) -> SquareSet
    ensures { (y : ℕ) → y < 64 → has result y ≡ (rank_of y == rank_before_last side) }
{
    let start = 8 * rank_before_last(side);
    let (first, last) = (Square::at(start), Square::at(start + 7));
    SquareSet::of(first)
        .union(between(first, last))
        .union(SquareSet::of(last))
}

/// The squares that the man of the last slot must avoid: those from which it promotes, or on which it can be taken.
#[inline]
fn squares_exposed(last: &Man, to_move: Side, attacked: SquareSet) -> SquareSet
    ensures { (y : ℕ) → y < 64
        → has result y ≡ is_capturable_or_promotes last.now to_move attacked y }
{
    if last.side != to_move {
        attacked
    } else if last.kind == Kind::Pawn {
        promoting_squares(to_move)
    } else {
        SquareSet::empty()
    }
}

/// Whether the men may not be still wherever the man of the last slot stands, by the squares on which the side to move and
/// the other side bear without it.
#[inline]
fn are_restless(
    others: &[Man],
    last: &Man,
    to_move: Side,
    ours: SquareSet,
    theirs: SquareSet,
) -> bool
    ensures { result ≡ has_forcing_move others.now last.now to_move ours theirs }
{
    last.kind == Kind::King
        || has_man_in(others, to_move.other(), ours)
        || may_promote(others, to_move)
        || has_king_in(others, to_move, theirs)
}

/// Squares of the man of the last slot with which the other king could be taken; empty if that man is a king.
#[inline]
fn squares_without_position(others: &[Man], last: &Man, to_move: Side) -> SquareSet
    ensures { (y : ℕ) → y < 64 → has result y ≡ true
        → in_check (others.now ++ on_square last.now y ∷ []) (other_side to_move) ≡ true }
{
    if last.kind == Kind::King {
        SquareSet::empty()
    } else {
        squares_of_check(others, last, to_move.other())
    }
}

/// Squares of the man of the last slot with which the men are still, by the squares on which each side bears without it.
#[inline]
fn still_squares(others: &[Man], last: &Man, to_move: Side) -> SquareSet
    ensures { (y : ℕ) → y < 64 → has result y ≡ true → All (λ m. m.at < 64) others.now
        → AreQuietPositions (others.now ++ on_square last.now y ∷ []) to_move }
{
    let ours = attacked_squares(others, to_move);
    let theirs = attacked_squares(others, to_move.other());
    if are_restless(others, last, to_move, ours, theirs) {
        return SquareSet::empty();
    }
    squares_bearing(others, last, to_move)
        .union(squares_exposed(last, to_move, ours))
        .complement()
}

/// Squares of the man of the last slot with which the men are still, or are not a valid position.
#[inline]
fn undecided_squares(others: &[Man], last: &Man, to_move: Side) -> SquareSet
    ensures { (y : ℕ) → y < 64 → has result y ≡ true → All (λ m. m.at < 64) others.now
        → AreStillOrNone (others.now ++ on_square last.now y ∷ []) to_move
        ⊎ (is_occupied others.now y ≡ true) }
{
    still_squares(others, last, to_move)
        .union(squares_without_position(others, last, to_move))
        .union(occupied_squares(others))
}

/// Squares of the man of the last slot in a row of numbers with which nothing is known before the levels.
pub fn quiet_squares_in_row(class: Class, row: u32) -> SquareSet
    requires { row < 262144 }
    ensures { (y : ℕ) → y < 64 → has result y ≡ true → (q : Seen)
        → position_numbered class (64 * row + y) ≡ Some q → IsQuietPosition q }
{
    let setup = decode_men(class, 64 * row);
    match setup.men.as_slice() {
        [others @ .., last] => undecided_squares(others, last, setup.to_move),
        [] => SquareSet::empty(),
    }
}
