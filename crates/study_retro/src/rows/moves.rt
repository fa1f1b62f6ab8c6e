//! Unmoves and moves of the men of a row of numbers, as sets of squares of the man of the last slot with which they are possible.
ghost use Rattle.std.specs.Prelude.{◌≡◌, ◌<◌, ◌&&◌, ℕ, not, true, [], ◌∷◌, ◌++◌};
ghost use Rattle.std.specs.List.{Contains};
ghost use Rattle.study_board.specs.declared.men.Side.{Side};
ghost use Rattle.study_board.specs.Men.{other_side, same_side};
ghost use Rattle.study_board.specs.Position.{in_check, is_occupied};
ghost use Rattle.study_board.specs.Sets.{has};
ghost use Rattle.study_moves.specs.AnyOrder.{is_safe_target};
ghost use Rattle.study_moves.specs.Unmoves.{is_unmove_origin, comes};
ghost use Rattle.study_retro.specs.RowMoves.{AreOnDistinctSquares, goes_quietly, does_not_interfere};
ghost use Rattle.study_retro.specs.Still.{on_square};

use crate::numbers::moves::occupied_squares;
use crate::rows::checks::{CheckInfo, squares_of_check_after};
use study_board::{Kind, Man, Side, Square, SquareSet, attacks, between};
use study_moves::{origins_of_kind, pawn_step_targets};

/// The squares from which the man can have come, by the moves of its kind, with only the others on the board.
#[inline]
pub fn origins_among(others: &[Man], man: &Man) -> SquareSet
    ensures { (a : ℕ) → a < 64 → has result a ≡ comes others.now man.now a }
{
    origins_of_kind(others, man)
}

/// The squares of the man of the last slot on which it neither stands in the way of the man nor leaves a king of the side
/// attacked with the man on the other square.
#[inline(always)]
fn squares_not_interfering(checks: &CheckInfo, to: Square) -> SquareSet
    requires { Contains checks.now.others.now checks.now.man.now }
    ensures { (y : ℕ) → y < 64
        → AreOnDistinctSquares (checks.now.others.now ++ on_square checks.now.last.now y ∷ [])
        → has result y ≡ does_not_interfere checks.now.others.now checks.now.last.now
        checks.now.side checks.now.man.now.at to y }
{
    between(checks.man.at, to)
        .union(SquareSet::of(to))
        .union(squares_of_check_after(checks, to))
        .complement()
}

/// The squares of the man of the last slot with which the man can have come from the square by a quiet move.
#[inline]
pub fn squares_allowing_unmove(checks: &CheckInfo, origin: Square) -> SquareSet
    requires man { Contains checks.now.others.now checks.now.man.now }
    requires side { same_side checks.now.man.now.side (other_side checks.now.side) ≡ true }
    requires comes { comes checks.now.others.now checks.now.man.now origin ≡ true }
    ensures { (y : ℕ) → y < 64
        → AreOnDistinctSquares (checks.now.others.now ++ on_square checks.now.last.now y ∷ [])
        → has result y ≡ is_unmove_origin
        (checks.now.others.now ++ on_square checks.now.last.now y ∷ [])
        checks.now.side checks.now.man.now origin }
{
    squares_not_interfering(checks, origin)
}

/// The empty squares to which the man goes, by the moves of its kind, with only the others on the board.
#[inline]
pub fn targets_among(others: &[Man], man: &Man) -> SquareSet
    ensures { (x : ℕ) → x < 64 → has result x ≡ goes_quietly others.now man.now x }
{
    if man.kind == Kind::Pawn {
        pawn_step_targets(others, man.side, man.at)
    } else {
        attacks(others, man).without(occupied_squares(others))
    }
}

/// The squares of the man of the last slot with which the man can go to the square without a capture.
#[inline]
pub fn squares_allowing_move(checks: &CheckInfo, target: Square) -> SquareSet
    requires man { Contains checks.now.others.now checks.now.man.now }
    requires side { same_side checks.now.man.now.side checks.now.side ≡ true }
    requires goes { goes_quietly checks.now.others.now checks.now.man.now target ≡ true }
    ensures { (y : ℕ) → y < 64
        → AreOnDistinctSquares (checks.now.others.now ++ on_square checks.now.last.now y ∷ [])
        → has result y ≡ (is_safe_target
        (checks.now.others.now ++ on_square checks.now.last.now y ∷ [])
        checks.now.side checks.now.man.now target && not (is_occupied
        (checks.now.others.now ++ on_square checks.now.last.now y ∷ []) target)) }
{
    squares_not_interfering(checks, target)
}

/// The man on another square.
#[inline]
fn on(man: &Man, square: Square) -> Man
    ensures { result ≡ on_square man.now square }
{
    Man {
        side: man.side,
        kind: man.kind,
        at: square,
    }
}

/// The squares from which the man of the last slot can have come to the square by a quiet move, given the squares on which it
/// leaves a king of the side to move attacked.
#[inline]
pub fn origins_of_last(others: &[Man], last: &Man, square: Square, check: SquareSet) -> SquareSet
    ensures { (side : Side) → same_side last.now.side (other_side side) ≡ true
        → ((a : ℕ) → a < 64 → has check a ≡ in_check (others.now ++ on_square last.now a ∷ []) side)
        → AreOnDistinctSquares (others.now ++ on_square last.now square ∷ [])
        → (a : ℕ) → a < 64
        → has result a ≡ is_unmove_origin (others.now ++ on_square last.now square ∷ []) side
        (on_square last.now square) a }
{
    origins_among(others, &on(last, square)).without(check)
}

/// The squares to which the man of the last slot can go from the square without a capture, given the squares on which it leaves a king of its side attacked.
#[inline]
pub fn targets_of_last(others: &[Man], last: &Man, square: Square, check: SquareSet) -> SquareSet
    ensures { (side : Side) → same_side last.now.side side ≡ true
        → ((x : ℕ) → x < 64 → has check x ≡ in_check (others.now ++ on_square last.now x ∷ []) side)
        → AreOnDistinctSquares (others.now ++ on_square last.now square ∷ [])
        → (x : ℕ) → x < 64 → has result x
        ≡ (is_safe_target (others.now ++ on_square last.now square ∷ []) side
        (on_square last.now square) x
        && not (is_occupied (others.now ++ on_square last.now square ∷ []) x)) }
{
    targets_among(others, &on(last, square)).without(check)
}
