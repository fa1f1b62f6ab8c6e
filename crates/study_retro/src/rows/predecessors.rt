//! Steps back from decided positions of a row of numbers: each man except the last goes back from all of them at once.
ghost use Rattle.std.specs.Prelude.{◌≡◌, ◌==◌, ◌<◌, ◌+◌, ◌*◌, ℕ, true, false, length, Contains};
ghost use Rattle.study_board.specs.Geometry.{rank_of};
ghost use Rattle.study_board.specs.Position.{Position as Seen};
ghost use Rattle.study_values.specs.Index.{index_of};
ghost use Rattle.study_index.specs.Moved.{IsMoved};
ghost use Rattle.study_board.specs.Men.{other_side, same_side};
ghost use Rattle.study_board.specs.Sets.{has};
ghost use Rattle.study_values.specs.Number.{cells_of};
ghost use Rattle.study_retro.specs.Predecessors.{IsBefore, IsBeforeBy, IsBeforeFrom, PassesNone};
ghost use Rattle.study_levels.specs.Propagation.{AreSet, IsSetWhere};
ghost use Rattle.study_retro.specs.RowBack.{CanAllHaveLed, ComesWithoutEnPassant, IsBeforeRowBy, IsBeforeRowFrom};
ghost use Rattle.study_retro.specs.RowBack.{IsInRowOrTwin, IsItOrTwin, IsOriginInRow, double_step_rank};
ghost use Rattle.study_retro.specs.RowLevels.{AreNumbered, IsBeforeRow};
ghost use Rattle.study_retro.specs.Still.{on_square};

use crate::mover::Mover;
use crate::numbers::en_passant::{has_both_pawns, has_en_passant, may_allow_en_passant};
use crate::numbers::predecessors::{CellWrite, write_before_man, write_cell, write_from};
use crate::rows::checks::{CheckInfo, squares_of_check};
use crate::rows::levels::write_before_each;
use crate::rows::moves::{origins_among, origins_of_last, squares_allowing_unmove};
use crate::rows::row::Row;
use std::alloc::Allocator;
use study_board::{Kind, Man, Side, Square, SquareSet, between};
use study_index::{IndexAfterMove, RowIndexAfterMove, decode_men, row_of_last_man};
use study_levels::LevelCells;
use study_material::Class;
use study_values::EN_PASSANT_BIT;

/// Sets the cell of a number without the bit of a capture in passing, and the cell of the number with the bit, if that has a position: each unless it has a
/// mate already, or, if `over`, one as near.
#[inline(always)]
fn write_with_twin<A: Allocator>(
    class: Class,
    cells: &mut LevelCells<'_, A>,
    number: u32,
    change: CellWrite,
)
    requires number { number < cells_of class }
    requires plain { number < 16777216 }
    requires cell { 0 < change.cell }
    requires cells { length cells.old ≡ cells_of class }
    ensures size { length cells.new ≡ length cells.old }
    ensures rise { AreSet (IsItOrTwin class number) change.cell change.over cells.old cells.new }
    ensures done { (n : ℕ) → IsItOrTwin class number n
        → IsSetWhere change.cell change.over cells.new n }
{
    write_cell(cells, number, change);
    if has_en_passant(class, number) {
        write_cell(cells, number + EN_PASSANT_BIT, change);
    }
}

/// Sets the cells of some numbers of a row, each as `write_with_twin` does.
#[inline]
fn write_row<A: Allocator>(
    class: Class,
    cells: &mut LevelCells<'_, A>,
    row: u32,
    set: SquareSet,
    change: CellWrite,
)
    requires numbers { (y : ℕ) → y < 64 → has set y ≡ true → (64 * row + y < cells_of class)
        × (64 * row + y < 16777216) }
    requires row { row < 1048576 }
    requires cell { 0 < change.cell }
    requires cells { length cells.old ≡ cells_of class }
    ensures size { length cells.new ≡ length cells.old }
    ensures rise { AreSet (IsInRowOrTwin class row set) change.cell
        change.over cells.old cells.new }
    ensures done { (n y : ℕ) → y < 64 → has set y ≡ true → IsItOrTwin class (64 * row + y) n
        → IsSetWhere change.cell change.over cells.new n }
{
    for square in set {
        let number = 64 * row + u32::from(square.number());
        write_with_twin(class, cells, number, change);
    }
}

/// Sets the cells of the positions from which a quiet move of the man, from the square, leads to positions of the row that the
/// departure goes back from: number by number.
#[inline]
fn write_predecessors_one_by_one<A: Allocator>(
    cells: &mut LevelCells<'_, A>,
    departure: &RowIndexAfterMove,
    led: SquareSet,
    man: &Man,
    slot: u32,
    origin: Square,
    change: CellWrite,
)
    requires numbered { AreNumbered departure.now.class departure.now.row led }
    requires plain { departure.now.row < 262144 }
    requires led { CanAllHaveLed departure.now.class departure.now.row led man.now origin }
    requires cell { 0 < change.cell }
    requires cells { length cells.old ≡ cells_of departure.now.class }
    ensures size { length cells.new ≡ length cells.old }
    ensures rise { AreSet (IsBeforeRowFrom departure.now.class departure.now.row led man.now origin)
        change.cell change.over cells.old cells.new }
    ensures done { (n y : ℕ) → y < 64 → has led y ≡ true
        → IsBeforeFrom departure.now.class (64 * departure.now.row + y) man.now origin n
        → IsSetWhere change.cell change.over cells.new n }
{
    let class = departure.class;
    for square in led {
        let number = 64 * departure.row + u32::from(square.number());
        let one = IndexAfterMove::new(class, number, man.at, slot);
        write_from(class, cells, man, &one, origin, change);
    }
}

/// `write_predecessors_one_by_one` for a move that leaves no capture in passing: the numbers come from the departure.
#[inline]
fn write_moved_one_by_one<A: Allocator>(
    cells: &mut LevelCells<'_, A>,
    departure: &RowIndexAfterMove,
    led: SquareSet,
    man: &Man,
    origin: Square,
    change: CellWrite,
)
    // Many clauses: what the caller has already found of the numbers is required, fact by fact.
    requires from { departure.now.from ≡ man.now.at }
    requires passes { PassesNone departure.now.class origin man.now.at }
    requires numbered { AreNumbered departure.now.class departure.now.row led }
    requires plain { departure.now.row < 262144 }
    requires led { CanAllHaveLed departure.now.class departure.now.row led man.now origin }
    requires cell { 0 < change.cell }
    requires cells { length cells.old ≡ cells_of departure.now.class }
    ensures size { length cells.new ≡ length cells.old }
    ensures rise { AreSet (IsBeforeRowFrom departure.now.class departure.now.row led man.now origin)
        change.cell change.over cells.old cells.new }
    ensures done { (n y : ℕ) → y < 64 → has led y ≡ true
        → IsBeforeFrom departure.now.class (64 * departure.now.row + y) man.now origin n
        → IsSetWhere change.cell change.over cells.new n }
{
    let _man = man.at;
    for square in led {
        let before = departure.number_to(origin, square);
        write_with_twin(departure.class, cells, before, change);
    }
}

/// `write_predecessors_one_by_one`, at once if the numbers before are a row and the move leaves no capture in passing.
#[inline]
fn write_predecessors<A: Allocator>(
    cells: &mut LevelCells<'_, A>,
    departure: &RowIndexAfterMove,
    led: SquareSet,
    man: &Man,
    slot: u32,
    origin: Square,
    change: CellWrite,
)
    requires from { departure.now.from ≡ man.now.at }
    requires numbered { AreNumbered departure.now.class departure.now.row led }
    requires plain { departure.now.row < 262144 }
    requires led { CanAllHaveLed departure.now.class departure.now.row led man.now origin }
    requires cell { 0 < change.cell }
    requires cells { length cells.old ≡ cells_of departure.now.class }
    ensures size { length cells.new ≡ length cells.old }
    ensures rise { AreSet (IsBeforeRowFrom departure.now.class departure.now.row led man.now origin)
        change.cell change.over cells.old cells.new }
    ensures done { (n y : ℕ) → y < 64 → has led y ≡ true
        → IsBeforeFrom departure.now.class (64 * departure.now.row + y) man.now origin n
        → IsSetWhere change.cell change.over cells.new n }
{
    if may_allow_en_passant(departure.class, origin, man.at) {
        return write_predecessors_one_by_one(cells, departure, led, man, slot, origin, change);
    }
    match departure.row_to(origin) {
        Some(before) => write_row(departure.class, cells, before, led, change),
        None => write_moved_one_by_one(cells, departure, led, man, origin, change),
    }
}

/// Sets the cells of the positions from which a quiet move of one of the other men leads to some positions of a row, and returns the
/// number of these positions: number by number.
fn write_before_man_each<A: Allocator>(
    row: &Row,
    cells: &mut LevelCells<'_, A>,
    decided: SquareSet,
    man: &Man,
    slot: u32,
    change: CellWrite,
) -> u64
    requires numbered { AreNumbered row.now.class row.now.number decided }
    requires man { Contains row.now.others.items man.now }
    requires cell { 0 < change.cell }
    requires cells { length cells.old ≡ cells_of row.now.class }
    ensures size { length cells.new ≡ length cells.old }
    ensures rise { AreSet (IsBeforeRowBy row.now.class row.now.number decided man.now) change.cell
        change.over cells.old cells.new }
    ensures done { (n y : ℕ) → y < 64 → has decided y ≡ true
        → IsBeforeBy row.now.class (64 * row.now.number + y) man.now n
        → IsSetWhere change.cell change.over cells.new n }
{
    let mut count = 0u64;
    for square in decided {
        let number = 64 * row.number + u32::from(square.number());
        let setup = decode_men(row.class, number);
        let mover = Mover { setup: &setup, man };
        let more = write_before_man(row.class, cells, number, mover, slot, change);
        count = count.saturating_add(more);
    }
    count
}

/// `write_before_man_each` with the common part of the numbers computed once.
fn write_before_man_from<A: Allocator>(
    row: &Row,
    cells: &mut LevelCells<'_, A>,
    decided: SquareSet,
    man: &Man,
    slot: u32,
    departure: &RowIndexAfterMove,
    change: CellWrite,
) -> u64
    // Many clauses: what the caller has already found of the numbers is required, fact by fact.
    requires class { departure.now.class ≡ row.now.class }
    requires row { departure.now.row ≡ row.now.number }
    requires from { departure.now.from ≡ man.now.at }
    requires side { same_side man.now.side (other_side row.now.to_move) ≡ true }
    requires numbered { AreNumbered row.now.class row.now.number decided }
    requires man { Contains row.now.others.items man.now }
    requires cell { 0 < change.cell }
    requires cells { length cells.old ≡ cells_of row.now.class }
    ensures size { length cells.new ≡ length cells.old }
    ensures rise { AreSet (IsBeforeRowBy row.now.class row.now.number decided man.now) change.cell
        change.over cells.old cells.new }
    ensures done { (n y : ℕ) → y < 64 → has decided y ≡ true
        → IsBeforeBy row.now.class (64 * row.now.number + y) man.now n
        → IsSetWhere change.cell change.over cells.new n }
{
    let others = row.others.as_slice();
    let checks = CheckInfo::new(others, &row.last, man, row.to_move);
    let mut count = 0u64;
    for origin in origins_among(others, man) {
        let led = decided.intersection(squares_allowing_unmove(&checks, origin));
        write_predecessors(cells, departure, led, man, slot, origin, change);
        count = count.saturating_add(u64::from(led.len()));
    }
    count
}

/// `write_before_man_from` for a man of any side: only men of the side that moved go back.
fn write_before_man_of_row<A: Allocator>(
    row: &Row,
    cells: &mut LevelCells<'_, A>,
    decided: SquareSet,
    man: &Man,
    slot: u32,
    change: CellWrite,
) -> u64
    requires numbered { AreNumbered row.now.class row.now.number decided }
    requires man { Contains row.now.others.items man.now }
    requires cell { 0 < change.cell }
    requires cells { length cells.old ≡ cells_of row.now.class }
    ensures size { length cells.new ≡ length cells.old }
    ensures rise { AreSet (IsBeforeRowBy row.now.class row.now.number decided man.now) change.cell
        change.over cells.old cells.new }
    ensures done { (n y : ℕ) → y < 64 → has decided y ≡ true
        → IsBeforeBy row.now.class (64 * row.now.number + y) man.now n
        → IsSetWhere change.cell change.over cells.new n }
{
    if man.side != row.to_move.other() {
        return 0;
    }
    match RowIndexAfterMove::new(row.class, row.number, man.at, slot) {
        None => write_before_man_each(row, cells, decided, man, slot, change),
        Some(departure) => write_before_man_from(
            row, cells, decided, man, slot, &departure, change,
        ),
    }
}

/// Sets the cells of the positions from which a quiet move of the last man leads to some positions of a row, and returns the
/// number of these positions: number by number.
fn write_before_last_each<A: Allocator>(
    row: &Row,
    cells: &mut LevelCells<'_, A>,
    decided: SquareSet,
    change: CellWrite,
) -> u64
    requires numbered { AreNumbered row.now.class row.now.number decided }
    requires cell { 0 < change.cell }
    requires cells { length cells.old ≡ cells_of row.now.class }
    ensures size { length cells.new ≡ length cells.old }
    ensures rise { AreSet (IsBeforeRow row.now.class row.now.number decided) change.cell
        change.over cells.old cells.new }
    ensures done { (n y : ℕ) → y < 64 → has decided y ≡ true
        → IsBeforeBy row.now.class (64 * row.now.number + y) (on_square row.now.last y) n
        → IsSetWhere change.cell change.over cells.new n }
{
    let slot = row.others.len() as u32;
    let mut count = 0u64;
    for square in decided {
        let number = 64 * row.number + u32::from(square.number());
        let last = Man {
            side: row.last.side,
            kind: row.last.kind,
            at: square,
        };
        let setup = decode_men(row.class, number);
        let mover = Mover {
            setup: &setup,
            man: &last,
        };
        let more = write_before_man(row.class, cells, number, mover, slot, change);
        count = count.saturating_add(more);
    }
    count
}

/// The squares from which the last man can have come to some squares, and the number of pairs of an origin and a target.
#[derive(Clone, Copy)]
struct LastManOrigins {
    squares: SquareSet,
    count: u64,
}

/// The squares from which the last man, of the side that moved, can have come in some positions of a row.
fn origins_in_row(row: &Row, decided: SquareSet) -> LastManOrigins
    requires side { same_side row.now.last.side (other_side row.now.to_move) ≡ true }
    requires numbered { AreNumbered row.now.class row.now.number decided }
    ensures only { (a : ℕ) → a < 64 → has result.squares a ≡ true
        → IsOriginInRow row.now.others.items row.now.last row.now.to_move decided a }
    ensures all { (a : ℕ) → a < 64
        → IsOriginInRow row.now.others.items row.now.last row.now.to_move decided a
        → has result.squares a ≡ true }
{
    let others = row.others.as_slice();
    let check = squares_of_check(others, &row.last, row.to_move);
    let mut squares = SquareSet::empty();
    let mut count = 0u64;
    for square in decided {
        let origins = origins_of_last(others, &row.last, square, check);
        squares = squares.union(origins);
        count = count.saturating_add(u64::from(origins.len()));
    }
    LastManOrigins { squares, count }
}

/// The rank to which a double step of the side leads.
#[inline]
fn double_step_rank(side: Side) -> u8
    ensures { result ≡ double_step_rank side }
{
    match side {
        Side::White => 3,
        Side::Black => 4,
    }
}

/// The squares of the rank to which a double step of the side leads.
#[inline]
fn double_step_squares(side: Side) -> SquareSet
    ensures { (y : ℕ) → y < 64 → has result y ≡ (rank_of y == double_step_rank side) }
{
    let start = 8 * double_step_rank(side);
    let (first, last) = (Square::at(start), Square::at(start + 7));
    SquareSet::of(first)
        .union(between(first, last))
        .union(SquareSet::of(last))
}

/// Squares to which the last man may have come by a move that leaves a capture in passing; no move to any other square does.
#[inline]
fn passing_squares(class: Class, last: &Man) -> SquareSet
    ensures { (y : ℕ) → y < 64 → has result y ≡ false → ComesWithoutEnPassant class last.now y }
{
    if !has_both_pawns(class) {
        SquareSet::empty()
    } else if last.kind == Kind::Pawn {
        double_step_squares(last.side)
    } else {
        SquareSet::empty().complement()
    }
}

/// Steps back by the last man at once, if the numbers before are a row and no move leaves a capture in passing.
fn write_before_last_at_once<A: Allocator>(
    row: &Row,
    cells: &mut LevelCells<'_, A>,
    decided: SquareSet,
    before: u32,
    change: CellWrite,
) -> u64
    // Many clauses: what the caller has already found of the numbers is required, fact by fact.
    requires side { same_side row.now.last.side (other_side row.now.to_move) ≡ true }
    requires numbered { AreNumbered row.now.class row.now.number decided }
    requires plainly { (y : ℕ) → y < 64 → has decided y ≡ true
        → ComesWithoutEnPassant row.now.class row.now.last y }
    requires before { (y a : ℕ) (p : Seen) → y < 64 → a < 64
        → IsMoved row.now.class (64 * row.now.number + y) y a p
        → index_of p ≡ 64 * before + a }
    requires small { before < 1048576 }
    requires cell { 0 < change.cell }
    requires cells { length cells.old ≡ cells_of row.now.class }
    ensures size { length cells.new ≡ length cells.old }
    ensures rise { AreSet (IsBeforeRow row.now.class row.now.number decided) change.cell
        change.over cells.old cells.new }
    ensures done { (n y : ℕ) → y < 64 → has decided y ≡ true
        → IsBeforeBy row.now.class (64 * row.now.number + y) (on_square row.now.last y) n
        → IsSetWhere change.cell change.over cells.new n }
{
    let origins = origins_in_row(row, decided);
    write_row(row.class, cells, before, origins.squares, change);
    origins.count
}

/// Steps back by the last man at once, except from the squares to which a move may leave a capture in passing.
fn write_before_last_apart<A: Allocator>(
    row: &Row,
    cells: &mut LevelCells<'_, A>,
    decided: SquareSet,
    before: u32,
    change: CellWrite,
) -> u64
    requires side { same_side row.now.last.side (other_side row.now.to_move) ≡ true }
    requires numbered { AreNumbered row.now.class row.now.number decided }
    requires before { (y a : ℕ) (p : Seen) → y < 64 → a < 64
        → IsMoved row.now.class (64 * row.now.number + y) y a p
        → index_of p ≡ 64 * before + a }
    requires small { before < 1048576 }
    requires cell { 0 < change.cell }
    requires cells { length cells.old ≡ cells_of row.now.class }
    ensures size { length cells.new ≡ length cells.old }
    ensures rise { AreSet (IsBeforeRow row.now.class row.now.number decided) change.cell
        change.over cells.old cells.new }
    ensures done { (n y : ℕ) → y < 64 → has decided y ≡ true
        → IsBeforeBy row.now.class (64 * row.now.number + y) (on_square row.now.last y) n
        → IsSetWhere change.cell change.over cells.new n }
{
    let passing = passing_squares(row.class, &row.last);
    let count = write_before_last_each(row, cells, decided.intersection(passing), change);
    let plain = decided.without(passing);
    count.saturating_add(write_before_last_at_once(row, cells, plain, before, change))
}

/// Steps back by the last man, of any side: at once if the numbers before are a row and no move leaves a capture in passing.
fn write_before_last<A: Allocator>(
    row: &Row,
    cells: &mut LevelCells<'_, A>,
    decided: SquareSet,
    change: CellWrite,
) -> u64
    requires numbered { AreNumbered row.now.class row.now.number decided }
    requires cell { 0 < change.cell }
    requires cells { length cells.old ≡ cells_of row.now.class }
    ensures size { length cells.new ≡ length cells.old }
    ensures rise { AreSet (IsBeforeRow row.now.class row.now.number decided) change.cell
        change.over cells.old cells.new }
    ensures done { (n y : ℕ) → y < 64 → has decided y ≡ true
        → IsBeforeBy row.now.class (64 * row.now.number + y) (on_square row.now.last y) n
        → IsSetWhere change.cell change.over cells.new n }
{
    if row.last.side != row.to_move.other() {
        return 0;
    }
    match row_of_last_man(row.class, row.number) {
        None => write_before_last_each(row, cells, decided, change),
        Some(before) => write_before_last_apart(row, cells, decided, before, change),
    }
}

/// Steps back by all men.
fn write_before_men<A: Allocator>(
    row: &Row,
    cells: &mut LevelCells<'_, A>,
    decided: SquareSet,
    change: CellWrite,
) -> u64
    requires numbered { AreNumbered row.now.class row.now.number decided }
    requires cell { 0 < change.cell }
    requires cells { length cells.old ≡ cells_of row.now.class }
    ensures size { length cells.new ≡ length cells.old }
    ensures rise { AreSet (IsBeforeRow row.now.class row.now.number decided) change.cell
        change.over cells.old cells.new }
    ensures done { (n y : ℕ) → y < 64 → has decided y ≡ true
        → IsBefore row.now.class (64 * row.now.number + y) n
        → IsSetWhere change.cell change.over cells.new n }
{
    let mut count = write_before_last(row, cells, decided, change);
    for (slot, man) in row.others.as_slice().iter().enumerate() {
        let more = write_before_man_of_row(row, cells, decided, man, slot as u32, change);
        count = count.saturating_add(more);
    }
    count
}

/// Sets the cells of the positions from which a quiet move leads to the position of a number of the row whose square is in the set,
/// and returns the number of these positions.
pub fn write_before_row<A: Allocator>(
    class: Class,
    cells: &mut LevelCells<'_, A>,
    row: u32,
    decided: SquareSet,
    change: CellWrite,
) -> u64
    requires numbered { AreNumbered class row decided }
    requires plain { 64 * row < 16777216 }
    requires cell { 0 < change.cell }
    requires cells { length cells.old ≡ cells_of class }
    ensures size { length cells.new ≡ length cells.old }
    ensures rise { AreSet (IsBeforeRow class row decided) change.cell
        change.over cells.old cells.new }
    ensures done { (n y : ℕ) → y < 64 → has decided y ≡ true → IsBefore class (64 * row + y) n
        → IsSetWhere change.cell change.over cells.new n }
{
    if decided.is_empty() {
        return 0;
    }
    let _square = decided.first();
    match Row::new(class, row) {
        None => write_before_each(class, cells, row, decided, change),
        Some(row) => write_before_men(&row, cells, decided, change),
    }
}
