//! Which lists of men are valid positions.
ghost use Rattle.std.specs.Prelude.{◌≡◌, ◌≤◌, ◌&&◌, true, length, is_some};
ghost use Rattle.study_board.specs.declared.men.Side.TheVariants.{White, Black};
ghost use Rattle.study_board.specs.Position.{is_occupied, has_man, has_square_twice, has_one_king, is_end_pawn};
ghost use Rattle.study_board.specs.Sound.{fault_among};
ghost use Rattle.study_board.specs.Position.{has_end_pawn, in_check, could_be_passed, passed_possible, first_fault};

use crate::men::is_attacked;
use crate::{Kind, Man, PositionFault, Side, Square};

/// Whether some man stands on the square of this number.
#[inline]
#[tactic(auto, unfolding(crate::specs::Position::is_occupied))]
pub fn is_occupied(men: &[Man], number: u8) -> bool
    ensures { result ≡ is_occupied men.now number }
{
    men.iter().any(|m| m.at.number() == number)
}

/// Whether a man of that side and kind stands on the square of this number.
#[inline]
#[tactic(auto, unfolding(crate::specs::Position::has_man))]
pub fn has_man(men: &[Man], side: Side, kind: Kind, number: u8) -> bool
    ensures { result ≡ has_man men.now side kind number }
{
    men.iter()
        .any(|m| m.is(side, kind) && m.at.number() == number)
}

#[inline]
#[tactic(auto, unfolding(crate::specs::Position::has_square_twice))]
fn has_square_twice(men: &[Man]) -> bool
    ensures { result ≡ has_square_twice men.now }
{
    men.iter()
        .any(|x| men.iter().filter(|y| y.at == x.at).count() > 1)
}

#[inline]
#[tactic(auto, unfolding(crate::specs::Position::has_one_king))]
fn has_one_king(men: &[Man], side: Side) -> bool
    ensures { result ≡ has_one_king men.now side }
{
    men.iter().filter(|m| m.is(side, Kind::King)).count() == 1
}

#[inline]
#[tactic(auto, unfolding(crate::specs::Position::is_end_pawn))]
fn is_end_pawn(m: &Man) -> bool
    ensures { result ≡ is_end_pawn m.now }
{
    (m.is(Side::White, Kind::Pawn) || m.is(Side::Black, Kind::Pawn))
        && (m.at.rank() == 0 || m.at.rank() == 7)
}

#[inline]
#[tactic(auto, unfolding(crate::specs::Position::has_end_pawn))]
fn has_end_pawn(men: &[Man]) -> bool
    ensures { result ≡ has_end_pawn men.now }
{
    men.iter().any(|m| is_end_pawn(m))
}

/// Whether a king of the side is attacked.
#[inline]
#[tactic(auto, unfolding(crate::specs::Position::in_check))]
pub fn in_check(men: &[Man], side: Side) -> bool
    ensures { result ≡ in_check men.now side }
{
    men.iter().any(|k| k.is(side, Kind::King) && is_attacked(men, side.other(), k.at))
}

/// Whether a pawn of the side not to move may have passed the square in a double step just before.
#[inline]
#[tactic(auto, unfolding(crate::specs::Position::could_be_passed))]
pub fn could_be_passed(men: &[Man], to_move: Side, x: Square) -> bool
    ensures { result ≡ could_be_passed men.now to_move x }
{
    let n = x.number();
    match to_move {
        Side::White => {
            x.rank() == 5
                && !is_occupied(men, n)
                && !is_occupied(men, n + 8)
                && has_man(men, Side::Black, Kind::Pawn, n - 8)
        }
        Side::Black => {
            x.rank() == 2
                && !is_occupied(men, n)
                && !is_occupied(men, n - 8)
                && has_man(men, Side::White, Kind::Pawn, n + 8)
        }
    }
}

#[inline]
fn passed_possible(men: &[Man], to_move: Side, passed: Option<Square>) -> bool
    ensures { result ≡ passed_possible men.now to_move passed }
{
    match passed {
        None => true,
        Some(x) => could_be_passed(men, to_move, x),
    }
}

/// Whether at most four men, with one king of each side, are not a valid position. It reports no reason, and checks fewer faults than `first_fault`.
#[inline]
#[tactic(auto, unfolding(crate::specs::Position::first_fault))]
pub fn has_fault(men: &[Man], to_move: Side, passed: Option<Square>) -> bool
    requires few { length men.now ≤ 4 }
    requires kings { (has_one_king men.now White && has_one_king men.now Black) ≡ true }
    ensures { result ≡ is_some (first_fault men.now to_move passed) }
{
    has_square_twice(men)
        || has_end_pawn(men)
        || in_check(men, to_move.other())
        || !passed_possible(men, to_move, passed)
}

/// The first reason why these men, in any order, are not a valid position.
#[tactic(auto, unfolding(crate::specs::Position::first_fault))]
pub fn first_fault(men: &[Man], to_move: Side, passed: Option<Square>) -> Option<PositionFault>
    ensures { result ≡ first_fault men.now to_move passed }
{
    if men.len() > 4 {
        Some(PositionFault::TooManyMen)
    } else if has_square_twice(men) {
        Some(PositionFault::SquareTwice)
    } else if !(has_one_king(men, Side::White) && has_one_king(men, Side::Black)) {
        Some(PositionFault::KingCount)
    } else if has_end_pawn(men) {
        Some(PositionFault::PawnOnEndRank)
    } else if in_check(men, to_move.other()) {
        Some(PositionFault::OpponentInCheck)
    } else if !passed_possible(men, to_move, passed) {
        Some(PositionFault::EnPassantImpossible)
    } else {
        None
    }
}

/// The first reason, apart from their number, why these men, in any order, are not a position.
#[tactic(auto, unfolding(crate::specs::Sound::fault_among))]
pub fn fault_among(men: &[Man], to_move: Side, passed: Option<Square>) -> Option<PositionFault>
    ensures { result ≡ fault_among men.now to_move passed }
{
    if has_square_twice(men) {
        Some(PositionFault::SquareTwice)
    } else if !(has_one_king(men, Side::White) && has_one_king(men, Side::Black)) {
        Some(PositionFault::KingCount)
    } else if has_end_pawn(men) {
        Some(PositionFault::PawnOnEndRank)
    } else if in_check(men, to_move.other()) {
        Some(PositionFault::OpponentInCheck)
    } else if !passed_possible(men, to_move, passed) {
        Some(PositionFault::EnPassantImpossible)
    } else {
        None
    }
}
