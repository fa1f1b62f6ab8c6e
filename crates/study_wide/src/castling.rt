//! Castling.
ghost use Rattle.std.specs.Prelude.{◌≡◌, ◌<◌, ◌≤◌, true, not, length};
ghost use Rattle.std.specs.List.{All};
ghost use Rattle.study_board.specs.Sets.{has};
ghost use Rattle.study_wide.specs.declared.castling.Wing.{Wing as AWing};
ghost use Rattle.study_wide.specs.Castling.{home, corner, king_target, rook_target, man_after_castling, men_after_castling, is_clear, is_crossing_safe};
ghost use Rattle.study_wide.specs.Castling.{can_castle, no_promotion, is_castling_move, castling_move};

use crate::{MAX_MEN, WidePosition};
use arrayvec::ArrayVec;
use study_board::{
    Kind, Man, Side, Square, SquareSet, in_check, in_order, is_attacked, is_occupied,
};
use study_moves::Move;

/// A wing to which a king castles.
#[derive(Clone, Copy, PartialEq, Eq)]
pub enum Wing {
    Short,
    Long,
}

fn home(side: Side) -> u8
    ensures value { result ≡ home side }
    ensures small { result < 61 }
{
    match side {
        Side::White => 4,
        Side::Black => 60,
    }
}

fn corner(side: Side, wing: Wing) -> u8
    ensures value { result ≡ corner side wing }
    ensures small { result < 64 }
{
    match (side, wing) {
        (Side::White, Wing::Short) => 7,
        (Side::White, Wing::Long) => 0,
        (Side::Black, Wing::Short) => 63,
        (Side::Black, Wing::Long) => 56,
    }
}

fn king_target(side: Side, wing: Wing) -> u8
    ensures value { result ≡ king_target side wing }
    ensures small { result < 64 }
{
    match (side, wing) {
        (Side::White, Wing::Short) => 6,
        (Side::White, Wing::Long) => 2,
        (Side::Black, Wing::Short) => 62,
        (Side::Black, Wing::Long) => 58,
    }
}

fn rook_target(side: Side, wing: Wing) -> u8
    ensures value { result ≡ rook_target side wing }
    ensures small { result < 64 }
{
    match (side, wing) {
        (Side::White, Wing::Short) => 5,
        (Side::White, Wing::Long) => 3,
        (Side::Black, Wing::Short) => 61,
        (Side::Black, Wing::Long) => 59,
    }
}

/// The targets of the king in castling.
pub fn castling_targets(side: Side) -> SquareSet
    ensures { (w : AWing) → has result (king_target side w) ≡ true }
{
    let short = SquareSet::of(Square::at(king_target(side, Wing::Short)));
    short.union(SquareSet::of(Square::at(king_target(side, Wing::Long))))
}

/// Whether the squares between king and rook are empty.
#[tactic(auto, unfolding(crate::specs::Castling::is_clear))]
fn is_clear(men: &[Man], side: Side, wing: Wing) -> bool
    ensures { result ≡ is_clear men.now side wing }
{
    !is_occupied(men, king_target(side, wing))
        && !is_occupied(men, rook_target(side, wing))
        && (wing == Wing::Short || !is_occupied(men, corner(side, wing) + 1))
}

/// A man after castling: the king and the rook on their targets, any other where it was.
fn man_after_castling(side: Side, wing: Wing, m: &Man) -> Man
    ensures { result ≡ man_after_castling side wing m.now }
{
    m.moved_if(
        Square::at(corner(side, wing)),
        Square::at(rook_target(side, wing)),
    )
    .moved_if(Square::at(home(side)), Square::at(king_target(side, wing)))
}

/// The men after castling, in order.
#[tactic(auto, unfolding(crate::specs::Castling::men_after_castling))]
pub fn men_after_castling(men: &[Man], side: Side, wing: Wing) -> ArrayVec<Man, MAX_MEN>
    requires { length men.now ≤ 32 }
    ensures value { result.items ≡ men_after_castling men.now side wing }
    ensures on_board { All (λ m. m.at < 64) result.items }
{
    let mut list: ArrayVec<Man, MAX_MEN> = ArrayVec::new();
    for m in men {
        list.push(man_after_castling(side, wing, m));
    }
    in_order(list.as_slice())
}

/// Whether the king's square and the one that it crosses are not attacked.
#[tactic(auto, unfolding(crate::specs::Castling::is_crossing_safe))]
fn is_crossing_safe(men: &[Man], side: Side, wing: Wing) -> bool
    ensures { result ≡ is_crossing_safe men.now side wing }
{
    !is_attacked(men, side.other(), Square::at(home(side)))
        && !is_attacked(men, side.other(), Square::at(rook_target(side, wing)))
}

/// Whether the side to move may castle to this wing.
#[tactic(auto, unfolding(crate::specs::Castling::can_castle))]
pub fn can_castle(p: &WidePosition, wing: Wing) -> bool
    ensures { result ≡ can_castle p.now wing }
{
    let side = p.to_move();
    let men = p.men();
    p.rights().has(side, wing)
        && is_clear(men, side, wing)
        && is_crossing_safe(men, side, wing)
        && !in_check(men_after_castling(men, side, wing).as_slice(), side)
}

fn promotes(promoted: Option<Kind>) -> bool
    ensures { result ≡ not (no_promotion promoted) }
{
    promoted.is_some()
}

/// Whether the move is the king's move of two squares by which castling is named.
pub fn is_castling_move(side: Side, wing: Wing, m: &Move) -> bool
    ensures { result ≡ is_castling_move side wing m.now }
{
    m.origin.number() == home(side)
        && m.target.number() == king_target(side, wing)
        && !promotes(m.promoted)
}

/// The castling of a side to a wing: the king's move of two squares.
pub fn castling_move(side: Side, wing: Wing) -> Move
    ensures { result ≡ castling_move side wing }
{
    Move {
        origin: Square::at(home(side)),
        target: Square::at(king_target(side, wing)),
        promoted: None,
    }
}
