//! The lost positions of a row of numbers, if no capture in passing is legal: each man except the last is moved in all of them at once.
ghost use Rattle.std.specs.Prelude.{◌≡◌, ◌≤◌, ◌<◌, ◌+◌, ◌*◌, ◌==◌, ◌&&◌, ◌||◌, ◌⊎◌, ◌++◌, ◌∷◌, [], ℕ};
ghost use Rattle.std.specs.Prelude.{not, true, false, length, slice_index, IsTrue, Some, Contains};
ghost use Rattle.study_board.specs.Men.{same_side};
ghost use Rattle.study_board.specs.Geometry.{rank_of};
ghost use Rattle.study_board.specs.Position.{Position as Seen, in_check};
ghost use Rattle.study_board.specs.Sets.{has};
ghost use Rattle.study_moves.specs.Rules.{last_rank, reaches_last_rank};
ghost use Rattle.study_values.specs.Number.{cells_of};
ghost use Rattle.study_index.specs.Computed.{position_numbered};
ghost use Rattle.study_values.specs.Cells.{value_of};
ghost use Rattle.study_retro.specs.ClassGame.{class_game};
ghost use Rattle.study_levels.specs.Numbered.{HasPosition, HavePositions, IsNumberedClass, LosesBy, NoLossBy};
ghost use Rattle.study_retro.specs.Predecessors.{PassesNone};
ghost use Rattle.study_retro.specs.RowEscapes.{AllLose, AllLoseBy, AllLoseByLast, AreAmong, AreWonAfter, CanAllGo};
ghost use Rattle.study_retro.specs.RowEscapes.{Goes, GoesInRow, GoesOutside, HaveMoves, OthersHold, goes_beside};
ghost use Rattle.study_retro.specs.RowLevels.{AreNumbered};
ghost use Rattle.study_retro.specs.Still.{HasMove, QuietMovesLose, on_square};
ghost use Rattle.study_values.specs.declared.value.Value.TheVariants.{Win};

use crate::class_game::ClassGame;
use crate::mover::Mover;
use crate::numbers::en_passant::{has_both_pawns, may_allow_en_passant};
use crate::numbers::moves::{QuietMoves, has_move, loses_after, quiet_moves_of, reaches_last_rank};
use crate::numbers::quiet::stays;
use crate::rows::checks::{CheckInfo, squares_of_check};
use crate::rows::levels::lost_plainly_each;
use crate::rows::moves::{squares_allowing_move, targets_among, targets_of_last};
use crate::rows::row::Row;
use std::alloc::Allocator;
use study_board::{Kind, Man, Side, Square, SquareSet, between};
use study_index::{IndexAfterMove, RowIndexAfterMove, decode_men, row_of_last_man};
use study_levels::{is_lost_by_moves, tells_win};

/// The squares, among some of a row, whose cell has a win within `level` plies.
#[inline]
fn squares_won(cells: &[u8], row: u32, set: SquareSet, level: u8) -> SquareSet
    requires row { row < 1048576 }
    requires cells { (y : ℕ) → y < 64 → has set y ≡ true → 64 * row + y < length cells.now }
    ensures yes { (y : ℕ) → y < 64 → has result y ≡ true
        → (has set y ≡ true)
        × ((m : ℕ) × (value_of (slice_index cells.now (64 * row + y)) ≡ Win m) × (m ≤ level)) }
    ensures no { (y m : ℕ) → y < 64 → has set y ≡ true → has result y ≡ false
        → value_of (slice_index cells.now (64 * row + y)) ≡ Win m → m ≤ level → ⊥ }
{
    let mut won = SquareSet::empty();
    for square in set {
        let number = 64 * row + u32::from(square.number());
        if tells_win(cells[number as usize], level) {
            won = won.union(SquareSet::of(square));
        }
    }
    won
}

/// The squares of some numbers of a row at which the legal move of the man to the square, which is empty, is not quiet, or lets the other side
/// win within `level` plies: number by number.
fn losing_each<A: Allocator>(
    game: &ClassGame<A>,
    cells: &[u8],
    departure: &RowIndexAfterMove,
    going: SquareSet,
    man: &Man,
    slot: u32,
    target: Square,
    level: u8,
) -> SquareSet
    requires laws { IsNumberedClass (class_game game.now.class game.now.tables.now) }
    requires plain { departure.now.row < 262144 }
    requires numbered { AreNumbered game.now.class departure.now.row going }
    requires going { CanAllGo game.now.class departure.now.row going man.now target }
    requires cells { length cells.now ≡ cells_of game.now.class }
    ensures only { AreAmong result going }
    ensures yes { reaches_last_rank man.now target ≡ false
        → AreWonAfter (class_game game.now.class game.now.tables.now) cells.now level
        departure.now.row result man.now target }
    ensures no { OthersHold (class_game game.now.class game.now.tables.now) cells.now level
        departure.now.row going result }
{
    let mut losing = SquareSet::empty();
    for square in going {
        let number = 64 * departure.row + u32::from(square.number());
        let setup = decode_men(game.class, number);
        let one = IndexAfterMove::new(game.class, number, man.at, slot);
        let mover = Mover { setup: &setup, man };
        if loses_after(game, cells, &one, mover, target, level) {
            losing = losing.union(SquareSet::of(square));
        }
    }
    losing
}

/// `losing_each` for a quiet move that leaves no capture in passing.
#[inline]
fn losing_each_moved<A: Allocator>(
    game: &ClassGame<A>,
    cells: &[u8],
    departure: &RowIndexAfterMove,
    going: SquareSet,
    man: &Man,
    target: Square,
    level: u8,
) -> SquareSet
    // Many clauses: what the caller has already found of the numbers is required, fact by fact.
    requires laws { IsNumberedClass (class_game game.now.class game.now.tables.now) }
    requires class { departure.now.class ≡ game.now.class }
    requires from { departure.now.from ≡ man.now.at }
    requires passes { PassesNone game.now.class man.now.at target }
    requires stays { reaches_last_rank man.now target ≡ false }
    requires plain { departure.now.row < 262144 }
    requires on { target < 64 }
    requires numbered { AreNumbered game.now.class departure.now.row going }
    requires going { CanAllGo game.now.class departure.now.row going man.now target }
    requires cells { length cells.now ≡ cells_of game.now.class }
    ensures only { AreAmong result going }
    ensures yes { AreWonAfter (class_game game.now.class game.now.tables.now) cells.now level
        departure.now.row result man.now target }
    ensures no { OthersHold (class_game game.now.class game.now.tables.now) cells.now level
        departure.now.row going result }
{
    let _read = (game.class, man.at);
    let mut losing = SquareSet::empty();
    for square in going {
        let after = departure.number_to(target, square);
        if tells_win(cells[after as usize], level) {
            losing = losing.union(SquareSet::of(square));
        }
    }
    losing
}

/// `losing_each`, at once if the numbers after the move are a row and leave no capture in passing.
#[inline]
fn losing_after<A: Allocator>(
    game: &ClassGame<A>,
    cells: &[u8],
    departure: &RowIndexAfterMove,
    going: SquareSet,
    man: &Man,
    slot: u32,
    target: Square,
    level: u8,
) -> SquareSet
    // Many clauses: what the caller has already found of the numbers is required, fact by fact.
    requires laws { IsNumberedClass (class_game game.now.class game.now.tables.now) }
    requires class { departure.now.class ≡ game.now.class }
    requires from { departure.now.from ≡ man.now.at }
    requires plain { departure.now.row < 262144 }
    requires on { target < 64 }
    requires numbered { AreNumbered game.now.class departure.now.row going }
    requires going { CanAllGo game.now.class departure.now.row going man.now target }
    requires cells { length cells.now ≡ cells_of game.now.class }
    ensures only { AreAmong result going }
    ensures yes { reaches_last_rank man.now target ≡ false
        → AreWonAfter (class_game game.now.class game.now.tables.now) cells.now level
        departure.now.row result man.now target }
    ensures no { OthersHold (class_game game.now.class game.now.tables.now) cells.now level
        departure.now.row going result }
{
    if reaches_last_rank(man, target) {
        return going;
    }
    if may_allow_en_passant(game.class, man.at, target) {
        return losing_each(game, cells, departure, going, man, slot, target, level);
    }
    match departure.row_to(target) {
        Some(after) => squares_won(cells, after, going, level),
        None => losing_each_moved(game, cells, departure, going, man, target, level),
    }
}

/// The result of the quiet moves seen in a row: the squares of the numbers at which no move escapes, and of those at which a legal move was seen.
#[derive(Clone, Copy)]
struct RowMoves {
    losing: SquareSet,
    some: SquareSet,
}

/// The set, with the square if `more`.
#[inline]
fn with_square_if(set: SquareSet, square: Square, more: bool) -> SquareSet
    ensures { (x : ℕ) → x < 64 → has result x ≡ (has set x || (more && (square == x))) }
{
    if more {
        set.union(SquareSet::of(square))
    } else {
        set
    }
}

impl RowMoves {
    /// The result with the moves seen at one more square.
    #[inline]
    fn with(self, square: Square, moves: QuietMoves) -> RowMoves
        ensures losing { (x : ℕ) → x < 64 → has result.losing x
            ≡ (has self.losing x || (not moves.escape && (square == x))) }
        ensures some { (x : ℕ) → x < 64 → has result.some x
            ≡ (has self.some x || (moves.some && (square == x))) }
    {
        RowMoves {
            losing: with_square_if(self.losing, square, !moves.escape),
            some: with_square_if(self.some, square, moves.some),
        }
    }
}

/// The result with the moves of one of the other men added: number by number.
fn quiet_moves_of_man_each<A: Allocator>(
    game: &ClassGame<A>,
    cells: &[u8],
    row: &Row,
    so_far: RowMoves,
    man: &Man,
    slot: u32,
    level: u8,
) -> RowMoves
    // Many clauses: what the caller has already found of the numbers is required, fact by fact.
    requires laws { IsNumberedClass (class_game game.now.class game.now.tables.now) }
    requires class { row.now.class ≡ game.now.class }
    requires numbered { AreNumbered game.now.class row.now.number so_far.losing }
    requires man { Contains row.now.others.items man.now }
    requires some { HaveMoves game.now.class row.now.number so_far.some }
    requires cells { length cells.now ≡ cells_of game.now.class }
    ensures only { AreAmong result.losing so_far.losing }
    ensures no { OthersHold (class_game game.now.class game.now.tables.now) cells.now level
        row.now.number so_far.losing result.losing }
    ensures yes { AllLoseBy (class_game game.now.class game.now.tables.now) cells.now level
        row.now.number result.losing man.now }
    ensures some { HaveMoves game.now.class row.now.number result.some }
{
    let mut seen = RowMoves {
        losing: SquareSet::empty(),
        some: so_far.some,
    };
    for square in so_far.losing {
        let number = 64 * row.number + u32::from(square.number());
        let setup = decode_men(game.class, number);
        let mover = Mover { setup: &setup, man };
        let moves = quiet_moves_of(game, cells, number, mover, slot, level);
        seen = seen.with(square, moves);
    }
    seen
}

/// `quiet_moves_of_man_each` with the common part of the numbers computed once.
fn quiet_moves_of_man_from<A: Allocator>(
    game: &ClassGame<A>,
    cells: &[u8],
    row: &Row,
    so_far: RowMoves,
    man: &Man,
    slot: u32,
    departure: &RowIndexAfterMove,
    level: u8,
) -> RowMoves
    // Many clauses: what the caller has already found of the numbers is required, fact by fact.
    requires laws { IsNumberedClass (class_game game.now.class game.now.tables.now) }
    requires class { row.now.class ≡ game.now.class }
    requires departure { departure.now.class ≡ row.now.class }
    requires row { departure.now.row ≡ row.now.number }
    requires from { departure.now.from ≡ man.now.at }
    requires side { same_side man.now.side row.now.to_move ≡ true }
    requires numbered { AreNumbered game.now.class row.now.number so_far.losing }
    requires man { Contains row.now.others.items man.now }
    requires some { HaveMoves game.now.class row.now.number so_far.some }
    requires cells { length cells.now ≡ cells_of game.now.class }
    ensures only { AreAmong result.losing so_far.losing }
    ensures no { OthersHold (class_game game.now.class game.now.tables.now) cells.now level
        row.now.number so_far.losing result.losing }
    ensures yes { AllLoseBy (class_game game.now.class game.now.tables.now) cells.now level
        row.now.number result.losing man.now }
    ensures some { HaveMoves game.now.class row.now.number result.some }
{
    let others = row.others.as_slice();
    let checks = CheckInfo::new(others, &row.last, man, row.to_move);
    let mut losing = so_far.losing;
    let mut some = so_far.some;
    for target in targets_among(others, man) {
        if losing.is_empty() {
            return RowMoves { losing, some };
        }
        let going = losing.intersection(squares_allowing_move(&checks, target));
        let lost = losing_after(game, cells, departure, going, man, slot, target, level);
        losing = losing.without(going).union(lost);
        some = some.union(going);
    }
    RowMoves { losing, some }
}

/// `quiet_moves_of_man_from` for a man of any side: only men of the side to move go, and only if some numbers may still lose.
fn quiet_moves_of_row<A: Allocator>(
    game: &ClassGame<A>,
    cells: &[u8],
    row: &Row,
    so_far: RowMoves,
    man: &Man,
    slot: u32,
    level: u8,
) -> RowMoves
    // Many clauses: what the caller has already found of the numbers is required, fact by fact.
    requires laws { IsNumberedClass (class_game game.now.class game.now.tables.now) }
    requires class { row.now.class ≡ game.now.class }
    requires numbered { AreNumbered game.now.class row.now.number so_far.losing }
    requires man { Contains row.now.others.items man.now }
    requires some { HaveMoves game.now.class row.now.number so_far.some }
    requires cells { length cells.now ≡ cells_of game.now.class }
    ensures only { AreAmong result.losing so_far.losing }
    ensures no { OthersHold (class_game game.now.class game.now.tables.now) cells.now level
        row.now.number so_far.losing result.losing }
    ensures yes { AllLoseBy (class_game game.now.class game.now.tables.now) cells.now level
        row.now.number result.losing man.now }
    ensures some { HaveMoves game.now.class row.now.number result.some }
{
    if man.side != row.to_move {
        return so_far;
    }
    if so_far.losing.is_empty() {
        return so_far;
    }
    match RowIndexAfterMove::new(row.class, row.number, man.at, slot) {
        None => quiet_moves_of_man_each(game, cells, row, so_far, man, slot, level),
        Some(departure) => quiet_moves_of_man_from(
            game, cells, row, so_far, man, slot, &departure, level,
        ),
    }
}

/// The result with the moves of the last man added, on each of its squares in turn.
fn quiet_moves_of_last_each<A: Allocator>(
    game: &ClassGame<A>,
    cells: &[u8],
    row: &Row,
    so_far: RowMoves,
    level: u8,
) -> RowMoves
    requires laws { IsNumberedClass (class_game game.now.class game.now.tables.now) }
    requires class { row.now.class ≡ game.now.class }
    requires numbered { AreNumbered game.now.class row.now.number so_far.losing }
    requires some { HaveMoves game.now.class row.now.number so_far.some }
    requires cells { length cells.now ≡ cells_of game.now.class }
    ensures only { AreAmong result.losing so_far.losing }
    ensures no { OthersHold (class_game game.now.class game.now.tables.now) cells.now level
        row.now.number so_far.losing result.losing }
    ensures yes { AllLoseByLast (class_game game.now.class game.now.tables.now) cells.now level
        row.now.number result.losing row.now.last }
    ensures some { HaveMoves game.now.class row.now.number result.some }
{
    let slot = row.others.len() as u32;
    let mut seen = RowMoves {
        losing: SquareSet::empty(),
        some: so_far.some,
    };
    for square in so_far.losing {
        let number = 64 * row.number + u32::from(square.number());
        let last = Man {
            side: row.last.side,
            kind: row.last.kind,
            at: square,
        };
        let setup = decode_men(game.class, number);
        let mover = Mover {
            setup: &setup,
            man: &last,
        };
        let moves = quiet_moves_of(game, cells, number, mover, slot, level);
        seen = seen.with(square, moves);
    }
    seen
}

/// The last rank of the side.
#[inline]
fn last_rank(side: Side) -> u8
    ensures { result ≡ last_rank side }
{
    match side {
        Side::White => 7,
        Side::Black => 0,
    }
}

/// The squares of the last rank of the side.
#[inline]
fn last_rank_squares(side: Side) -> SquareSet
    ensures { (x : ℕ) → x < 64 → has result x ≡ (rank_of x == last_rank side) }
{
    let start = 8 * last_rank(side);
    let (first, last) = (Square::at(start), Square::at(start + 7));
    SquareSet::of(first)
        .union(between(first, last))
        .union(SquareSet::of(last))
}

/// The squares on which the man promotes: its last rank, if it is a pawn.
#[inline]
fn promotion_squares(man: &Man) -> SquareSet
    ensures { (x : ℕ) → x < 64 → has result x ≡ reaches_last_rank man.now x }
{
    if man.kind == Kind::Pawn {
        last_rank_squares(man.side)
    } else {
        SquareSet::empty()
    }
}

/// Whether the set is not empty.
#[inline]
fn has_any(set: SquareSet) -> bool
    ensures some { IsTrue result → (x : ℕ) × (x < 64) × (has set x ≡ true) }
    ensures none { result ≡ false → (x : ℕ) → has set x ≡ false }
{
    if set.is_empty() {
        return false;
    }
    let _square = set.first();
    true
}

/// The squares to which the last man, of the side to move, goes without a capture in some positions of a row, given the squares on
/// which it leaves a king of its side attacked.
fn targets_in_row(row: &Row, set: SquareSet, check: SquareSet) -> SquareSet
    requires side { same_side row.now.last.side row.now.to_move ≡ true }
    requires check { (x : ℕ) → x < 64
        → has check x
        ≡ in_check (row.now.others.items ++ on_square row.now.last x ∷ []) row.now.to_move }
    requires numbered { AreNumbered row.now.class row.now.number set }
    ensures only { (x : ℕ) → x < 64 → has result x ≡ true
        → GoesInRow row.now.others.items row.now.last row.now.to_move set x }
    ensures all { (x : ℕ) → x < 64
        → GoesInRow row.now.others.items row.now.last row.now.to_move set x → has result x ≡ true }
{
    let others = row.others.as_slice();
    let mut squares = SquareSet::empty();
    for square in set {
        let targets = targets_of_last(others, &row.last, square, check);
        squares = squares.union(targets);
    }
    squares
}

/// The result with the moves of the last man, of the side to move, added, given the squares on which it does not escape.
fn moves_of_last(row: &Row, so_far: RowMoves, check: SquareSet, lost: SquareSet) -> RowMoves
    requires side { same_side row.now.last.side row.now.to_move ≡ true }
    requires check { (x : ℕ) → x < 64
        → has check x
        ≡ in_check (row.now.others.items ++ on_square row.now.last x ∷ []) row.now.to_move }
    requires numbered { AreNumbered row.now.class row.now.number so_far.losing }
    ensures only { AreAmong result.losing so_far.losing }
    ensures yes { (y x : ℕ) → y < 64 → has result.losing y ≡ true → x < 64
        → goes_beside row.now.others.items row.now.last row.now.to_move y x
        ≡ true → has lost x ≡ true }
    ensures no { (y : ℕ) → y < 64 → has so_far.losing y ≡ true → has result.losing y ≡ false
        → GoesOutside row.now.others.items row.now.last row.now.to_move lost y }
    ensures some { (y : ℕ) → y < 64 → has result.some y ≡ true
        → (has so_far.some y ≡ true) ⊎ (has so_far.losing y ≡ true)
        × Goes row.now.others.items row.now.last row.now.to_move y }
{
    let others = row.others.as_slice();
    let mut seen = RowMoves {
        losing: SquareSet::empty(),
        some: so_far.some,
    };
    for square in so_far.losing {
        let targets = targets_of_last(others, &row.last, square, check);
        let moves = QuietMoves {
            escape: has_any(targets.without(lost)),
            some: has_any(targets),
        };
        seen = seen.with(square, moves);
    }
    seen
}

/// The result with the moves of the last man added: at once if the numbers after are a row and no move leaves a capture in passing.
fn quiet_moves_of_last<A: Allocator>(
    game: &ClassGame<A>,
    cells: &[u8],
    row: &Row,
    so_far: RowMoves,
    level: u8,
) -> RowMoves
    requires laws { IsNumberedClass (class_game game.now.class game.now.tables.now) }
    requires class { row.now.class ≡ game.now.class }
    requires numbered { AreNumbered game.now.class row.now.number so_far.losing }
    requires some { HaveMoves game.now.class row.now.number so_far.some }
    requires cells { length cells.now ≡ cells_of game.now.class }
    ensures only { AreAmong result.losing so_far.losing }
    ensures no { OthersHold (class_game game.now.class game.now.tables.now) cells.now level
        row.now.number so_far.losing result.losing }
    ensures yes { AllLoseByLast (class_game game.now.class game.now.tables.now) cells.now level
        row.now.number result.losing row.now.last }
    ensures some { HaveMoves game.now.class row.now.number result.some }
{
    if row.last.side != row.to_move {
        return so_far;
    }
    if has_both_pawns(row.class) {
        return quiet_moves_of_last_each(game, cells, row, so_far, level);
    }
    match row_of_last_man(row.class, row.number) {
        None => quiet_moves_of_last_each(game, cells, row, so_far, level),
        Some(after) => {
            let check = squares_of_check(row.others.as_slice(), &row.last, row.to_move);
            let promoting = promotion_squares(&row.last);
            let quiet = targets_in_row(row, so_far.losing, check).without(promoting);
            let won = squares_won(cells, after, quiet, level);
            moves_of_last(row, so_far, check, won.union(promoting))
        }
    }
}

/// The result for the quiet moves of all men, at some numbers of a row.
fn quiet_moves_in_row<A: Allocator>(
    game: &ClassGame<A>,
    cells: &[u8],
    row: &Row,
    candidates: SquareSet,
    level: u8,
) -> RowMoves
    requires laws { IsNumberedClass (class_game game.now.class game.now.tables.now) }
    requires class { row.now.class ≡ game.now.class }
    requires numbered { AreNumbered game.now.class row.now.number candidates }
    requires cells { length cells.now ≡ cells_of game.now.class }
    ensures only { AreAmong result.losing candidates }
    ensures no { OthersHold (class_game game.now.class game.now.tables.now) cells.now level
        row.now.number candidates result.losing }
    ensures yes { AllLose (class_game game.now.class game.now.tables.now) cells.now level
        row.now.number result.losing }
    ensures some { HaveMoves game.now.class row.now.number result.some }
{
    let mut moves = RowMoves {
        losing: candidates,
        some: SquareSet::empty(),
    };
    for (slot, man) in row.others.as_slice().iter().enumerate() {
        moves = quiet_moves_of_row(game, cells, row, moves, man, slot as u32, level);
    }
    quiet_moves_of_last(game, cells, row, moves, level)
}

/// Whether the position of a number whose quiet moves each lead to a win within `level` plies has a move, and all its moves lead to such a win.
fn is_lost_after_quiet<A: Allocator>(
    game: &ClassGame<A>,
    cells: &[u8],
    number: u32,
    some: bool,
    level: u8,
) -> bool
    requires laws { IsNumberedClass (class_game game.now.class game.now.tables.now) }
    requires numbered { HasPosition (class_game game.now.class game.now.tables.now) number }
    requires plain { number < 16777216 }
    requires quiet { (q : Seen) → position_numbered game.now.class number ≡ Some q
        → QuietMovesLose (class_game game.now.class game.now.tables.now) cells.now level q }
    requires some { IsTrue some → (q : Seen)
        → position_numbered game.now.class number ≡ Some q → HasMove q }
    requires cells { length cells.now ≡ cells_of game.now.class }
    ensures yes { IsTrue result → (p : Seen) × (position_numbered game.now.class number ≡ Some p)
        × LosesBy (class_game game.now.class game.now.tables.now) cells.now level p }
    ensures no { result ≡ false
        → NoLossBy (class_game game.now.class game.now.tables.now) cells.now level number }
{
    let setup = decode_men(game.class, number);
    if stays(game.class, number, &setup) {
        return some || has_move(game.class, number, &setup);
    }
    is_lost_by_moves(game, cells, number, level)
}

/// The numbers, among those of a row at which no quiet move escapes, whose position has a move, and whose moves each lead to a win within `level` plies.
fn lost_after_quiet<A: Allocator>(
    game: &ClassGame<A>,
    cells: &[u8],
    row: u32,
    losing: SquareSet,
    some: SquareSet,
    level: u8,
) -> SquareSet
    requires laws { IsNumberedClass (class_game game.now.class game.now.tables.now) }
    requires plain { row < 262144 }
    requires numbered { AreNumbered game.now.class row losing }
    requires quiet { AllLose (class_game game.now.class game.now.tables.now)
        cells.now level row losing }
    requires some { HaveMoves game.now.class row some }
    requires cells { length cells.now ≡ cells_of game.now.class }
    ensures only { AreAmong result losing }
    ensures yes { (y : ℕ) → y < 64 → has result y ≡ true → (p : Seen)
        × (position_numbered game.now.class (64 * row + y) ≡ Some p)
        × LosesBy (class_game game.now.class game.now.tables.now) cells.now level p }
    ensures no { OthersHold (class_game game.now.class game.now.tables.now)
        cells.now level row losing result }
{
    let mut lost = SquareSet::empty();
    for square in losing {
        let number = 64 * row + u32::from(square.number());
        if is_lost_after_quiet(game, cells, number, some.contains(square), level) {
            lost = lost.union(SquareSet::of(square));
        }
    }
    lost
}

/// The positions, among some of a row, that have a move, and whose moves each lead to a win within `level` plies, if no capture in passing
/// is legal and the last man is not a king.
fn lost_of_row<A: Allocator>(
    game: &ClassGame<A>,
    cells: &[u8],
    row: &Row,
    candidates: SquareSet,
    level: u8,
) -> SquareSet
    requires laws { IsNumberedClass (class_game game.now.class game.now.tables.now) }
    requires class { row.now.class ≡ game.now.class }
    requires numbered { AreNumbered game.now.class row.now.number candidates }
    requires cells { length cells.now ≡ cells_of game.now.class }
    ensures only { AreAmong result candidates }
    ensures yes { (y : ℕ) → y < 64 → has result y ≡ true → (p : Seen)
        × (position_numbered game.now.class (64 * row.now.number + y) ≡ Some p)
        × LosesBy (class_game game.now.class game.now.tables.now) cells.now level p }
    ensures no { OthersHold (class_game game.now.class game.now.tables.now) cells.now level
        row.now.number candidates result }
{
    let moves = quiet_moves_in_row(game, cells, row, candidates, level);
    lost_after_quiet(game, cells, row.number, moves.losing, moves.some, level)
}

/// The positions, among some of a row, that have a move, and whose moves each lead to a win within `level` plies, if no capture in passing is legal.
pub fn lost_in_row_without_en_passant<A: Allocator>(
    game: &ClassGame<A>,
    cells: &[u8],
    row: u32,
    candidates: SquareSet,
    level: u8,
) -> SquareSet
    requires laws { IsNumberedClass (class_game game.now.class game.now.tables.now) }
    requires numbered { HavePositions
        (class_game game.now.class game.now.tables.now) row candidates }
    requires plain { 64 * row < 16777216 }
    requires cells { length cells.now ≡ (class_game game.now.class game.now.tables.now).size }
    ensures only { (y : ℕ) → y < 64 → has result y ≡ true → has candidates y ≡ true }
    ensures yes { (y : ℕ) → y < 64 → has result y ≡ true → (p : Seen)
        × (position_numbered game.now.class (64 * row + y) ≡ Some p)
        × LosesBy (class_game game.now.class game.now.tables.now) cells.now level p }
    ensures no { (y : ℕ) → y < 64 → has candidates y ≡ true → has result y ≡ false
        → NoLossBy (class_game game.now.class game.now.tables.now) cells.now level (64 * row + y) }
{
    if candidates.is_empty() {
        return candidates;
    }
    let _square = candidates.first();
    match Row::new(game.class, row) {
        None => lost_plainly_each(game, cells, row, candidates, level),
        Some(row) => lost_of_row(game, cells, &row, candidates, level),
    }
}
