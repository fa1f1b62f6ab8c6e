//! Steps back from decided positions of a row of numbers, and tests of positions that may be lost: each number of a set in turn.
ghost use Rattle.std.specs.Prelude.{◌≡◌, ◌≢◌, ◌+◌, ◌*◌, ◌<◌, ℕ, true, false, length, slice_index, IsTrue, Some};
ghost use Rattle.study_board.specs.Position.{Position as Seen};
ghost use Rattle.study_board.specs.Sets.{has};
ghost use Rattle.study_values.specs.Number.{cells_of};
ghost use Rattle.study_index.specs.Computed.{position_numbered};
ghost use Rattle.study_retro.specs.ClassGame.{class_game};
ghost use Rattle.study_levels.specs.Numbered.{HasPosition, HavePositions, IsNumberedClass, LeadsIntoRow, LosesBy, NoLossBy, StepLeads};
ghost use Rattle.study_retro.specs.Predecessors.{IsBefore};
ghost use Rattle.study_levels.specs.Propagation.{AreAdded, AreLowered, AreSet, IsSetBy, IsSetWhere};
ghost use Rattle.study_retro.specs.RowLevels.{AreNumbered, IsBeforeRow};

use crate::class_game::ClassGame;
use crate::numbers::moves::{has_move, quiet_moves};
use crate::numbers::predecessors::{CellWrite, write_before};
use crate::numbers::quiet::stays;
use std::alloc::Allocator;
use study_board::SquareSet;
use study_index::decode_men;
use study_levels::{
    Game, LabelledGame, LevelCells, is_lost_by_moves, lower_by_moves, mark_by_moves,
};
use study_material::Class;

/// For positions of a row that are lost in `level` plies: the positions before them are won in one more. Each is gone back from by its moves.
pub fn lower_one_by_one<G: Game, A: Allocator>(
    game: &G,
    cells: &mut LevelCells<'_, A>,
    row: u32,
    decided: SquareSet,
    level: u8,
) -> u64
    requires laws { IsNumberedClass (G.numbered game.now) }
    requires level { level < 254 }
    requires numbered { HavePositions (G.numbered game.now) row decided }
    requires cells { length cells.old ≡ (G.numbered game.now).size }
    ensures size { length cells.new ≡ length cells.old }
    ensures rise { AreLowered (LeadsIntoRow (G.numbered game.now) row decided)
        level cells.old cells.new }
    ensures done { (i y : ℕ) → y < 64 → has decided y ≡ true
        → StepLeads (G.numbered game.now) i (64 * row + y) → IsSetBy (level + 2) cells.new i }
{
    let _size = game.cells();
    let mut count = 0u64;
    for square in decided {
        let number = 64 * row + u32::from(square.number());
        count = count.saturating_add(lower_by_moves(game, cells, number, level));
    }
    count
}

/// For positions of a row that are won in `level` plies: the positions before them are marked, if they have no mate yet. Each is gone back from by its moves.
pub fn mark_one_by_one<G: Game, A: Allocator>(
    game: &G,
    cells: &mut LevelCells<'_, A>,
    row: u32,
    decided: SquareSet,
    level: u8,
) -> u64
    requires laws { IsNumberedClass (G.numbered game.now) }
    requires level { level < 254 }
    requires numbered { HavePositions (G.numbered game.now) row decided }
    requires cells { length cells.old ≡ (G.numbered game.now).size }
    ensures size { length cells.new ≡ length cells.old }
    ensures rise { AreAdded (LeadsIntoRow (G.numbered game.now) row decided)
        level cells.old cells.new }
    ensures done { (i y : ℕ) → y < 64 → has decided y ≡ true
        → StepLeads (G.numbered game.now) i (64 * row + y) → slice_index cells.new i ≢ 0 }
{
    let _size = game.cells();
    let mut count = 0u64;
    for square in decided {
        let number = 64 * row + u32::from(square.number());
        count = count.saturating_add(mark_by_moves(game, cells, number, level));
    }
    count
}

/// The positions, among some of a row, that have a move, and whose moves each lead to a win within `level` plies: each tested by its moves.
pub fn lost_one_by_one<G: LabelledGame>(
    game: &G,
    cells: &[u8],
    row: u32,
    candidates: SquareSet,
    level: u8,
) -> SquareSet
    requires laws { IsNumberedClass (G.numbered game.now) }
    requires numbered { HavePositions (G.numbered game.now) row candidates }
    requires cells { length cells.now ≡ (G.numbered game.now).size }
    ensures only { (y : ℕ) → y < 64 → has result y ≡ true → has candidates y ≡ true }
    ensures yes { (y : ℕ) → y < 64 → has result y ≡ true → (p : G.Position)
        × ((G.numbered game.now).position (64 * row + y) ≡ Some p)
        × LosesBy (G.numbered game.now) cells.now level p }
    ensures no { (y : ℕ) → y < 64 → has candidates y ≡ true → has result y ≡ false
        → NoLossBy (G.numbered game.now) cells.now level (64 * row + y) }
{
    let _size = game.cells();
    let mut lost = SquareSet::empty();
    for square in candidates {
        let number = 64 * row + u32::from(square.number());
        if is_lost_by_moves(game, cells, number, level) {
            lost = lost.union(SquareSet::of(square));
        }
    }
    lost
}

/// Sets the cells of the positions from which a quiet move leads to the position of a number of the row whose square is in the set,
/// and returns the number of these positions.
pub fn write_before_each<A: Allocator>(
    class: Class,
    cells: &mut LevelCells<'_, A>,
    row: u32,
    decided: SquareSet,
    change: CellWrite,
) -> u64
    requires numbered { AreNumbered class row decided }
    requires plain { 64 * row < 16777216 }
    requires cell { 0 < change.cell }
    requires cells { length cells.old ≡ cells_of class }
    ensures size { length cells.new ≡ length cells.old }
    ensures rise { AreSet (IsBeforeRow class row decided) change.cell
        change.over cells.old cells.new }
    ensures done { (n y : ℕ) → y < 64 → has decided y ≡ true → IsBefore class (64 * row + y) n
        → IsSetWhere change.cell change.over cells.new n }
{
    let mut count = 0u64;
    for square in decided {
        let number = 64 * row + u32::from(square.number());
        count = count.saturating_add(write_before(class, cells, number, change));
    }
    count
}

/// Whether the position of a number has a move, and each move leads to a win within `level` plies, if no capture in passing is legal.
fn is_lost_plainly<A: Allocator>(game: &ClassGame<A>, cells: &[u8], number: u32, level: u8) -> bool
    requires laws { IsNumberedClass (class_game game.now.class game.now.tables.now) }
    requires numbered { HasPosition (class_game game.now.class game.now.tables.now) number }
    requires plain { number < 16777216 }
    requires cells { length cells.now ≡ (class_game game.now.class game.now.tables.now).size }
    ensures yes { IsTrue result → (p : Seen) × (position_numbered game.now.class number ≡ Some p)
        × LosesBy (class_game game.now.class game.now.tables.now) cells.now level p }
    ensures no { result ≡ false
        → NoLossBy (class_game game.now.class game.now.tables.now) cells.now level number }
{
    let setup = decode_men(game.class, number);
    let moves = quiet_moves(game, cells, number, &setup, level);
    if moves.escape {
        return false;
    }
    if stays(game.class, number, &setup) {
        return moves.some || has_move(game.class, number, &setup);
    }
    is_lost_by_moves(game, cells, number, level)
}

/// The positions, among some of a row, that have a move, and whose moves each lead to a win within `level` plies, if no capture in passing is legal.
pub fn lost_plainly_each<A: Allocator>(
    game: &ClassGame<A>,
    cells: &[u8],
    row: u32,
    candidates: SquareSet,
    level: u8,
) -> SquareSet
    requires laws { IsNumberedClass (class_game game.now.class game.now.tables.now) }
    requires numbered { HavePositions
        (class_game game.now.class game.now.tables.now) row candidates }
    requires plain { 64 * row < 16777216 }
    requires cells { length cells.now ≡ (class_game game.now.class game.now.tables.now).size }
    ensures only { (y : ℕ) → y < 64 → has result y ≡ true → has candidates y ≡ true }
    ensures yes { (y : ℕ) → y < 64 → has result y ≡ true → (p : Seen)
        × (position_numbered game.now.class (64 * row + y) ≡ Some p)
        × LosesBy (class_game game.now.class game.now.tables.now) cells.now level p }
    ensures no { (y : ℕ) → y < 64 → has candidates y ≡ true → has result y ≡ false
        → NoLossBy (class_game game.now.class game.now.tables.now) cells.now level (64 * row + y) }
{
    let mut lost = SquareSet::empty();
    for square in candidates {
        let number = 64 * row + u32::from(square.number());
        if is_lost_plainly(game, cells, number, level) {
            lost = lost.union(SquareSet::of(square));
        }
    }
    lost
}
