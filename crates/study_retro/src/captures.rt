//! The captures and promotions of a position in which no capture in passing is legal.
ghost use Rattle.std.specs.Prelude.{◌≡◌, ◌≤◌, ◌<◌, ◌+◌, ◌++◌, ◌&&◌, ℕ, List, None, not, true, Contains};
ghost use Rattle.arrayvec.specs.ArrayVec.{array_vec_len};
ghost use Rattle.study_board.specs.declared.men.Man.{Man as AMan};
ghost use Rattle.study_board.specs.Men.{same_side};
ghost use Rattle.study_board.specs.Sets.{has};
ghost use Rattle.study_moves.specs.declared.moves.Move.{Move as AMove};
ghost use Rattle.study_moves.specs.Rules.{is_legal, reaches_last_rank, reaches_target};
ghost use Rattle.study_moves.specs.AnyOrder.{HasSafeTargets};
ghost use Rattle.study_moves.specs.Unmoves.{IsQuiet};
ghost use Rattle.study_retro.specs.Still.{GoesWithoutPromotion, is_about_to_promote, move_to, promotion_to, promotions_to};

use crate::numbers::moves::reaches_last_rank;
use crate::numbers::quiet::{has_man_in, rank_before_last};
use arrayvec::ArrayVec;
use study_board::{Kind, Man, Position, Side, Square, SquareSet, attacks};
use study_moves::{MAX_MOVES, Move, MoveList, safe_targets};

/// Whether the square is in the set, and the man is not a pawn that reaches its last rank there.
#[inline]
fn goes_without_promotion(safe: SquareSet, man: &Man, target: Square) -> bool
    ensures { result ≡ (has safe target && not (reaches_last_rank man.now target)) }
{
    safe.contains(target) && !reaches_last_rank(man, target)
}

/// The move of the man to the square, without a promotion.
#[inline]
pub fn move_to(man: &Man, target: Square) -> Move
    ensures { result ≡ move_to man.now target }
{
    Move {
        origin: man.at,
        target,
        promoted: None,
    }
}

/// Whether the man is a pawn one step from its last rank.
#[inline]
fn is_about_to_promote(man: &Man) -> bool
    ensures { result ≡ is_about_to_promote man.now }
{
    man.kind == Kind::Pawn && man.at.rank() == rank_before_last(man.side)
}

/// Adds the captures of a man of the side to move that do not promote. Most men bear on no man of the other side.
fn add_captures_of(at: &Position, man: &Man, list: &mut MoveList)
    requires room { array_vec_len list.old + 4 ≤ MAX_MOVES }
    requires tells { HasSafeTargets at.now at.now.men }
    requires man { Contains at.now.men man.now }
    requires side { same_side man.now.side at.now.to_move ≡ true }
    requires only { (m : AMove) → Contains list.old.items m → is_legal at.now m ≡ true }
    ensures only { (m : AMove) → Contains list.new.items m → is_legal at.now m ≡ true }
    ensures kept { (m : AMove) → Contains list.old.items m → Contains list.new.items m }
    ensures all { (other : AMan) → Contains at.now.men other
        → GoesWithoutPromotion at.now man.now other.at
        → Contains list.new.items (move_to man.now other.at) }
    ensures few { array_vec_len list.new ≤ array_vec_len list.old + 4 }
{
    let side = at.to_move();
    let men = at.men();
    if !has_man_in(men, side.other(), attacks(men, man)) {
        return;
    }
    let safe = safe_targets(men, side, man);
    for other in men {
        if goes_without_promotion(safe, man, other.at) {
            list.push(move_to(man, other.at));
        }
    }
}

/// A range of squares that contains each target of a pawn one step from its last rank.
#[inline]
fn promotion_range(pawn: &Man) -> (u8, u8)
    requires { is_about_to_promote pawn.now ≡ true }
    ensures range { result.0 ≤ result.1 × result.1 ≤ 64 }
    ensures short { result.1 ≤ result.0 + 3 }
    ensures all { (men : List AMan) (x : ℕ) → x < 64 → reaches_target men None pawn.now x ≡ true
        → result.0 ≤ x × x < result.1 }
{
    let a = pawn.at.number();
    match pawn.side {
        Side::White => (a + 7, (a + 10).min(64)),
        Side::Black => (a.saturating_sub(9), a - 6),
    }
}

/// The move of the man to the square with a promotion.
#[inline]
fn promotion_to(man: &Man, target: Square, kind: Kind) -> Move
    ensures { result ≡ promotion_to man.now target kind }
{
    Move {
        origin: man.at,
        target,
        promoted: Some(kind),
    }
}

/// Adds the four promotions of a pawn on a square.
#[inline]
fn add_promotions_to(pawn: &Man, target: Square, list: &mut MoveList)
    requires { array_vec_len list.old + 4 ≤ MAX_MOVES }
    ensures { list.new.items ≡ list.old.items ++ promotions_to pawn.now target }
{
    list.push(promotion_to(pawn, target, Kind::Queen));
    list.push(promotion_to(pawn, target, Kind::Rook));
    list.push(promotion_to(pawn, target, Kind::Bishop));
    list.push(promotion_to(pawn, target, Kind::Knight));
}

/// Adds the promotions of a pawn of the side to move that is one step from its last rank.
fn add_promotions_of(at: &Position, pawn: &Man, list: &mut MoveList)
    // Many clauses: what the caller has already found of the numbers is required, fact by fact.
    requires room { array_vec_len list.old + 12 ≤ MAX_MOVES }
    requires tells { HasSafeTargets at.now at.now.men }
    requires pawn { Contains at.now.men pawn.now }
    requires side { same_side pawn.now.side at.now.to_move ≡ true }
    requires near { is_about_to_promote pawn.now ≡ true }
    requires only { (m : AMove) → Contains list.old.items m → is_legal at.now m ≡ true }
    ensures only { (m : AMove) → Contains list.new.items m → is_legal at.now m ≡ true }
    ensures kept { (m : AMove) → Contains list.old.items m → Contains list.new.items m }
    ensures all { (m : AMove) → m.origin ≡ pawn.now.at → is_legal at.now m ≡ true
        → Contains list.new.items m }
    ensures few { array_vec_len list.new ≤ array_vec_len list.old + 12 }
{
    let safe = safe_targets(at.men(), at.to_move(), pawn);
    let (start, end) = promotion_range(pawn);
    for number in start..end {
        let target = Square::at(number);
        if safe.contains(target) {
            add_promotions_to(pawn, target, list);
        }
    }
}

/// Adds the captures and the promotions of a man of the side to move.
#[inline]
fn add_conversions_of(at: &Position, man: &Man, list: &mut MoveList)
    requires room { array_vec_len list.old + 12 ≤ MAX_MOVES }
    requires tells { HasSafeTargets at.now at.now.men }
    requires man { Contains at.now.men man.now }
    requires side { same_side man.now.side at.now.to_move ≡ true }
    requires only { (m : AMove) → Contains list.old.items m → is_legal at.now m ≡ true }
    ensures only { (m : AMove) → Contains list.new.items m → is_legal at.now m ≡ true }
    ensures kept { (m : AMove) → Contains list.old.items m → Contains list.new.items m }
    ensures all { (m : AMove) → m.origin ≡ man.now.at → is_legal at.now m ≡ true
        → (IsQuiet at.now m → ⊥) → Contains list.new.items m }
    ensures few { array_vec_len list.new ≤ array_vec_len list.old + 12 }
{
    if is_about_to_promote(man) {
        add_promotions_of(at, man, list);
    } else {
        add_captures_of(at, man, list);
    }
}

/// The captures and the promotions of the side to move, if no capture in passing is legal.
pub fn captures_and_promotions(at: &Position) -> MoveList
    requires { HasSafeTargets at.now at.now.men }
    ensures only { (m : AMove) → Contains result.items m → is_legal at.now m ≡ true }
    ensures all { (m : AMove) → is_legal at.now m ≡ true → (IsQuiet at.now m → ⊥)
        → Contains result.items m }
{
    let side = at.to_move();
    let mut list = ArrayVec::new();
    let men = at.men();
    for man in men {
        if man.side == side {
            add_conversions_of(at, man, &mut list);
        }
    }
    list
}
