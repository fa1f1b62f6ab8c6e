//! Levels: from the mates in at most so many plies to the mates in one more.
ghost use Rattle.std.specs.Prelude.{◌≡◌, ◌+◌, ◌*◌, ◌^◌, ◌<◌, ◌≤◌, ◌⊎◌, ◌%◌, ℕ, false, length, slice_index, IsTrue};
ghost use Rattle.study_levels.specs.Propagation.{AreAdded, AreDropped, AreLowered};
ghost use Rattle.study_levels.specs.Numbered.{CellsAreRight, CellsHavePositions, EndsRight, HasFarMate, IsNumberedClass};
ghost use Rattle.study_levels.specs.Numbered.{LossesAreKept, LossesAreTrue, LossesGoBack, RowLossesAreKept, RowLossesAreTrue};
ghost use Rattle.study_levels.specs.Numbered.{OutsideIsRight, RaisesLevel, StepLeads, WhereWinsAreEncoded, WinsGoBack};

use crate::cell_blocks::row_with;
use crate::consistency::first_inconsistent;
use crate::initial::initialise;
use crate::level_cells::LevelCells;
use crate::level_game::LevelGame;
use crate::propagate::clear_in_row;
use std::alloc::Allocator;
use study_values::MAX_DISTANCE;

/// Goes back from all positions that are lost in `level` plies.
pub fn propagate_losses<G: LevelGame, A: Allocator>(
    game: &G,
    cells: &mut LevelCells<'_, A>,
    level: u8,
) -> u64
    requires laws { IsNumberedClass (G.numbered game.now) }
    requires level { level < 254 }
    requires cells { length cells.old ≡ (G.numbered game.now).size }
    requires numbered { CellsHavePositions (G.numbered game.now) cells.old }
    ensures size { length cells.new ≡ length cells.old }
    ensures rise { AreLowered (λ i. (j : ℕ) × (slice_index cells.old j ≡ level + 1)
        × StepLeads (G.numbered game.now) i j) level cells.old cells.new }
    ensures done { LossesGoBack (G.numbered game.now) level cells.old cells.new }
{
    let mut examined = 0u64;
    let _size = game.cells();
    let rows = cells.rows();
    let mut row = cells.next_due_row(0, level + 1);
    while row < rows {
        let decided = row_with(cells.as_slice(), row, level + 1);
        let more = game.lower_before(cells, row, decided, level);
        examined = examined
            .saturating_add(more)
            .saturating_add(u64::from(decided.len()));
        cells.look_at(row);
        row = cells.next_due_row(row + 1, level + 1);
    }
    examined
}

/// Marks all positions before one that is won in `level` plies and that have no mate yet: they may be lost in one more.
pub fn propagate_wins<G: LevelGame, A: Allocator>(
    game: &G,
    cells: &mut LevelCells<'_, A>,
    level: u8,
) -> u64
    requires laws { IsNumberedClass (G.numbered game.now) }
    requires level { level < 254 }
    requires cells { length cells.old ≡ (G.numbered game.now).size }
    requires numbered { CellsHavePositions (G.numbered game.now) cells.old }
    ensures size { length cells.new ≡ length cells.old }
    ensures rise { AreAdded (λ i. (j : ℕ)
        × StepLeads (G.numbered game.now) i j) level cells.old cells.new }
    ensures done { WinsGoBack (G.numbered game.now) level cells.old cells.new }
{
    let mut examined = 0u64;
    let _size = game.cells();
    let rows = cells.rows();
    let mut row = cells.next_due_row(0, level + 1);
    while row < rows {
        let decided = row_with(cells.as_slice(), row, level + 1);
        let more = game.mark_before(cells, row, decided, level);
        examined = examined
            .saturating_add(more)
            .saturating_add(u64::from(decided.len()));
        cells.look_at(row);
        row = cells.next_due_row(row + 1, level + 1);
    }
    examined
}

/// Tests the numbers of a row that may be lost in `level + 1` plies: the cells of those that are lost stay, the others are set to 0.
fn confirm_row<G: LevelGame, A: Allocator>(
    game: &G,
    cells: &mut LevelCells<'_, A>,
    row: u32,
    level: u8,
) -> u64
    // Many clauses: which cells may change, which must, and which stay.
    requires laws { IsNumberedClass (G.numbered game.now) }
    requires level { level < 254 }
    requires row { 64 * row < (G.numbered game.now).size }
    requires cells { length cells.old ≡ (G.numbered game.now).size }
    requires small { length cells.old < 2 ^ 32 }
    requires numbered { CellsHavePositions (G.numbered game.now) cells.old }
    ensures size { length cells.new ≡ length cells.old }
    ensures fall { AreDropped level cells.old cells.new }
    ensures other { (i : ℕ) → (i < 64 * row) ⊎ (64 * row + 64 ≤ i)
        → slice_index cells.new i ≡ slice_index cells.old i }
    ensures lost { WhereWinsAreEncoded (G.numbered game.now) level cells.old
        (RowLossesAreTrue (G.numbered game.now) level row cells.new) }
    ensures kept { WhereWinsAreEncoded (G.numbered game.now) level cells.old
        (RowLossesAreKept (G.numbered game.now) level row cells.old cells.new) }
{
    let candidates = row_with(cells.as_slice(), row, level + 2);
    let lost = game.lost_in_row(cells.as_slice(), row, candidates, level);
    clear_in_row(cells, row, candidates.without(lost));
    if lost.is_empty() {
        cells.look_at(row);
    }
    u64::from(candidates.len())
}

/// Tests all numbers that may be lost in `level + 1` plies: the marked ones, and those that moves out of the class make due. Each is tested once.
pub fn confirm_losses<G: LevelGame, A: Allocator>(
    game: &G,
    cells: &mut LevelCells<'_, A>,
    level: u8,
) -> u64
    requires laws { IsNumberedClass (G.numbered game.now) }
    requires level { level < 254 }
    requires odd { level % 2 ≡ 1 }
    requires cells { length cells.old ≡ (G.numbered game.now).size }
    requires numbered { CellsHavePositions (G.numbered game.now) cells.old }
    ensures size { length cells.new ≡ length cells.old }
    ensures fall { AreDropped level cells.old cells.new }
    ensures lost { WhereWinsAreEncoded (G.numbered game.now) level cells.old
        (LossesAreTrue (G.numbered game.now) level cells.new) }
    ensures kept { WhereWinsAreEncoded (G.numbered game.now) level cells.old
        (LossesAreKept (G.numbered game.now) level cells.old cells.new) }
{
    let mut examined = 0u64;
    let _size = game.cells();
    let rows = cells.rows();
    let mut row = cells.next_due_row(0, level + 2);
    while row < rows {
        examined = examined.saturating_add(confirm_row(game, cells, row, level));
        row = cells.next_due_row(row + 1, level + 2);
    }
    examined
}

/// One level.
pub fn step<G: LevelGame, A: Allocator>(game: &G, cells: &mut LevelCells<'_, A>, level: u8) -> u64
    requires laws { IsNumberedClass (G.numbered game.now) }
    requires level { level < 254 }
    requires cells { length cells.old ≡ (G.numbered game.now).size }
    requires numbered { CellsHavePositions (G.numbered game.now) cells.old }
    ensures size { length cells.new ≡ length cells.old }
    ensures held { RaisesLevel (G.numbered game.now) level (level + 1) cells.old cells.new }
    ensures numbered { CellsHavePositions (G.numbered game.now) cells.new }
{
    if level % 2 == 0 {
        propagate_losses(game, cells, level)
    } else {
        let marked = propagate_wins(game, cells, level);
        marked.saturating_add(confirm_losses(game, cells, level))
    }
}

/// The result of the levels: whether they ended with no mate left to come, and the number of positions examined.
#[derive(Clone, Copy)]
pub struct LevelsDone {
    pub silent: bool,
    pub examined: u64,
}

/// All levels.
pub fn all_levels<G: LevelGame, A: Allocator>(game: &G, cells: &mut LevelCells<'_, A>) -> LevelsDone
    requires laws { IsNumberedClass (G.numbered game.now) }
    requires cells { length cells.old ≡ (G.numbered game.now).size }
    requires numbered { CellsHavePositions (G.numbered game.now) cells.old }
    ensures size { length cells.new ≡ length cells.old }
    ensures held { RaisesLevel (G.numbered game.now) 0 254 cells.old cells.new }
    ensures bytes { (i : ℕ) → slice_index cells.new i ≤ 255 }
    ensures right { EndsRight (G.numbered game.now) result.silent cells.old cells.new }
    ensures numbered { CellsHavePositions (G.numbered game.now) cells.new }
{
    let mut examined = 0u64;
    for level in 0..MAX_DISTANCE {
        if !cells.has_longer_mate(level) {
            return LevelsDone {
                silent: true,
                examined,
            };
        }
        examined = examined.saturating_add(step(game, cells, level));
        cells.raise(level + 1);
    }
    LevelsDone {
        silent: false,
        examined,
    }
}

/// The result of filling a table: whether every distance fits a cell, and the number of numbers decoded and positions gone back to.
#[derive(Clone, Copy)]
pub struct FillReport {
    pub fits: bool,
    pub examined: u64,
}

/// Fills cells with the values of a class, whatever bytes they were.
pub fn solve_cells<G: LevelGame, A: Allocator>(
    game: &G,
    cells: &mut LevelCells<'_, A>,
) -> FillReport
    requires laws { IsNumberedClass (G.numbered game.now) }
    requires cells { length cells.old ≡ (G.numbered game.now).size }
    ensures size { length cells.new ≡ length cells.old }
    ensures right { OutsideIsRight (G.numbered game.now) → IsTrue result.fits
        → CellsAreRight (G.numbered game.now) cells.new }
    ensures far { OutsideIsRight (G.numbered game.now) → result.fits ≡ false
        → HasFarMate (G.numbered game.now) }
{
    let far = initialise(game, cells);
    let ended = all_levels(game, cells);
    let examined = ended.examined.saturating_add(u64::from(game.cells()));
    if ended.silent && !far {
        return FillReport {
            fits: true,
            examined,
        };
    }
    let examined = examined.saturating_add(u64::from(game.cells()));
    match first_inconsistent(game, cells.as_slice()) {
        None => FillReport {
            fits: true,
            examined,
        },
        Some(_) => FillReport {
            fits: false,
            examined,
        },
    }
}
