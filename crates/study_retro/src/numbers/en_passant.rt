//! The positions of a class that lead to the position of a number.
ghost use Rattle.std.specs.Prelude.{◌≡◌, ◌≢◌, ◌+◌, ◌*◌, ◌≤◌, ◌<◌, ◌⊎◌, ◌↔◌, ℕ, true, false, Some, None, IfSome, IfNone, IsTrue, Contains};
ghost use Rattle.arrayvec.specs.ArrayVec.{array_vec_len};
ghost use Rattle.study_board.specs.Position.{Position as Seen};
ghost use Rattle.study_board.specs.Geometry.{files_apart, rank_of};
ghost use Rattle.study_board.specs.Sets.{has};
ghost use Rattle.study_moves.specs.Rules.{after, is_legal};
ghost use Rattle.study_moves.specs.Unmoves.{LeadsQuietly, CanHaveLed, move_from};
ghost use Rattle.study_material.specs.Class.{lists_of};
ghost use Rattle.study_values.specs.Number.{has_both_pawns};
ghost use Rattle.study_index.specs.Computed.{position_numbered};
ghost use Rattle.study_values.specs.Index.{index_of};
ghost use Rattle.study_retro.specs.Predecessors.{IsPlainNumber, IsNumberBefore, ComesBefore, PassesNone, IsWithoutEnPassant, LeavesNone};

use arrayvec::ArrayVec;
use study_board::{Man, Position, Square, SquareSet};
use study_index::{decode, index, index_after_move};
use study_material::Class;
use study_moves::{Move, played, position_before, unmoves};
use study_values::{EN_PASSANT_BIT, cells};

/// The numbers of the positions from which a quiet move leads to the position of this number.
pub fn predecessor_numbers(class: Class, at: &Position, number: u32) -> ArrayVec<u32, 384>
    requires { position_numbered class number ≡ Some at.now }
    ensures { (n : ℕ) → Contains result.items n ↔ ComesBefore class at.now number n }
{
    let moves = unmoves(at);
    let mut list = ArrayVec::new();
    for by in moves.as_slice() {
        add_predecessor(class, at, number, by, &mut list);
    }
    list
}

/// Adds the numbers of the positions from which this move leads to the position of this number.
fn add_predecessor(
    class: Class,
    at: &Position,
    number: u32,
    by: &Move,
    list: &mut ArrayVec<u32, 384>,
)
    requires at { position_numbered class number ≡ Some at.now }
    requires by { CanHaveLed at.now by.now }
    requires room { array_vec_len list.old ≤ 382 }
    ensures few { array_vec_len list.new ≤ array_vec_len list.old + 2 }
    ensures more { (n : ℕ) → Contains list.new.items n ↔ Contains list.old.items n
        ⊎ IsNumberBefore class at.now number by.now n }
{
    if let Some(plain) = plain_number(class, at, number, by) {
        list.push(plain);
        if has_en_passant(class, plain) {
            list.push(plain + EN_PASSANT_BIT);
        }
    }
}

/// The number of the position before the move, if the move leads from there to the position of this number.
#[inline]
fn plain_number(class: Class, at: &Position, number: u32, by: &Move) -> Option<u32>
    requires at { position_numbered class number ≡ Some at.now }
    requires by { CanHaveLed at.now by.now }
    ensures small { IfSome result (λ n. n < 16777216) }
    ensures some { IfSome result (λ n. IsPlainNumber at.now number by.now n) }
    ensures none { IfNone result ((p : Seen) → LeadsQuietly p by.now at.now
        → index_of (after p by.now) ≢ number) }
{
    if leads_to_number(class, at, number, by) {
        Some(index_after_move(class, number, by.target, by.origin))
    } else {
        None
    }
}

/// Whether the move leads to the position of this number. If only one side has pawns no capture in passing is legal, and every such move does.
#[inline]
fn leads_to_number(class: Class, at: &Position, number: u32, by: &Move) -> bool
    requires at { position_numbered class number ≡ Some at.now }
    requires by { CanHaveLed at.now by.now }
    ensures { (p : Seen) → LeadsQuietly p by.now at.now
        → (IsTrue result ↔ (index_of (after p by.now) ≡ number)) }
{
    if !has_both_pawns(class) {
        return true;
    }
    leads_to(at, &position_before(at, *by), *by, number)
}

/// Whether the quiet move of the man from the square leads to the position of the number, if no capture in passing is legal in that position.
#[inline]
pub fn leads_to_number_from(class: Class, number: u32, man: &Man, origin: Square) -> bool
    requires numbered { (q : Seen) × (position_numbered class number ≡ Some q) }
    requires plain { number < 16777216 }
    requires led { (q : Seen) → position_numbered class number ≡ Some q
        → CanHaveLed q (move_from man.now origin) }
    ensures { (q p : Seen) → position_numbered class number ≡ Some q
        → LeadsQuietly p (move_from man.now origin) q
        → (IsTrue result ↔ (index_of (after p (move_from man.now origin)) ≡ number)) }
{
    if !may_leave_capture(class, origin, man.at, number) {
        return true;
    }
    match decode(class, number) {
        None => unreachable!(),
        Some(at) => leads_to_number(class, &at, number, &move_from(man, origin)),
    }
}

/// The quiet move of the man from the square to its own square.
#[inline]
fn move_from(man: &Man, origin: Square) -> Move
    ensures { result ≡ move_from man.now origin }
{
    Move {
        origin,
        target: man.at,
        promoted: None,
    }
}

/// Whether the move leads to the position of this number: the number is computed only if a square is passed after the move.
#[inline]
fn leads_to(at: &Position, from: &Position, by: Move, number: u32) -> bool
    requires at { index_of at.now ≡ number }
    requires leads { LeadsQuietly from.now by at.now }
    ensures { IsTrue result ↔ (index_of (after from.now by) ≡ number) }
{
    if at.passed().is_none() && !leaves_passed_square(from, &by) {
        return true;
    }
    index(&played(from, by)) == number
}

/// Whether a square is passed after a legal move. The ranks of the move decide it for most moves.
#[inline]
fn leaves_passed_square(from: &Position, by: &Move) -> bool
    requires { is_legal from.now by.now ≡ true }
    ensures { result ≡ false → (after from.now by.now).passed ≡ None }
{
    if by.origin.rank().abs_diff(by.target.rank()) != 2 {
        return false;
    }
    played(from, *by).passed().is_some()
}

/// Whether both sides of a class have a pawn.
#[inline]
pub fn has_both_pawns(class: Class) -> bool
    ensures { result ≡ has_both_pawns (lists_of class) }
{
    match class {
        Class::KPKP => true,
        _ => false,
    }
}

/// Whether a quiet move from the one square to the other may allow the other side a capture in passing.
#[inline]
pub fn may_allow_en_passant(class: Class, origin: Square, target: Square) -> bool
    ensures { result ≡ false → PassesNone class origin target }
{
    has_both_pawns(class) && origin.rank().abs_diff(target.rank()) == 2
}

/// Whether two squares are side by side on a rank from which a pawn can capture in passing.
#[inline]
fn are_adjacent_on_rank(a: u32, b: u32) -> bool
    ensures { result ≡ false → rank_of a ≡ rank_of b → files_apart a b ≡ 1
        → (3 ≤ rank_of a) → (rank_of a ≤ 4) → ⊥ }
{
    let rank = a / 8;
    (rank == 3 || rank == 4) && rank == b / 8 && (a + 1 == b || b + 1 == a)
}

/// Whether a capture in passing may be legal with the men and the side to move of the number, by the squares of its pawns.
#[inline]
pub fn may_have_en_passant(class: Class, number: u32) -> bool
    ensures { result ≡ false → IsWithoutEnPassant class number }
{
    has_both_pawns(class) && are_adjacent_on_rank(number / 64 % 64, number % 64)
}

/// The squares beside this one from which a pawn can capture in passing; at the edge of the board one of them is the next square by number.
#[inline]
fn adjacent_squares(a: Square) -> SquareSet
    ensures { (y : ℕ) → y < 64 → has result y ≡ false → rank_of a ≡ rank_of y → files_apart a y ≡ 1
        → (3 ≤ rank_of a) → (rank_of a ≤ 4) → ⊥ }
{
    let number = a.number();
    if number < 24 || number > 39 {
        return SquareSet::empty();
    }
    SquareSet::of(Square::at(number - 1)).union(SquareSet::of(Square::at(number + 1)))
}

/// Squares of the man of the last slot in a row of numbers with which no capture in passing is legal, by the squares of the pawns.
#[inline]
pub fn squares_without_en_passant(class: Class, row: u32) -> SquareSet
    ensures { (y : ℕ) → y < 64 → has result y ≡ true → IsWithoutEnPassant class (64 * row + y) }
{
    if !has_both_pawns(class) {
        return SquareSet::empty().complement();
    }
    let pawn = Square::at((row % 64) as u8);
    adjacent_squares(pawn).complement()
}

/// Whether a quiet move from the one square to the other, after which the men are those of the number, may allow the other side a legal capture in passing.
#[inline]
pub fn may_leave_capture(class: Class, origin: Square, target: Square, number: u32) -> bool
    ensures { result ≡ false → LeavesNone class origin target number }
{
    may_allow_en_passant(class, origin, target) && may_have_en_passant(class, number)
}

/// Whether a position with the men and the side to move of the number has a legal capture in passing.
#[inline]
pub fn has_en_passant(class: Class, number: u32) -> bool
    requires { number < 16777216 }
    ensures { IsTrue result
        ↔ ((p : Seen) × (position_numbered class (number + 16777216) ≡ Some p)) }
{
    may_have_en_passant(class, number) && is_numbered(class, number + EN_PASSANT_BIT)
}

#[inline]
fn is_numbered(class: Class, number: u32) -> bool
    ensures { IsTrue result ↔ ((p : Seen) × (position_numbered class number ≡ Some p)) }
{
    number < cells(class) && decode(class, number).is_some()
}
