//! Steps back from one decided position.
ghost use Rattle.std.specs.Prelude.{◌≡◌, ◌≢◌, ◌↔◌, ◌+◌, ◌*◌, ◌^◌, ◌<◌, ◌≤◌, ◌⊎◌, ℕ, true, false, length, slice_index, Some, IsTrue};
ghost use Rattle.study_board.specs.Sets.{has};
ghost use Rattle.study_values.specs.Cells.{value_of};
ghost use Rattle.study_levels.specs.Propagation.{AreAdded, AreLowered, IsLowered, IsMarked, IsSetBy};
ghost use Rattle.study_levels.specs.Numbered.{IsNumberedClass, LosesBy, NoLossBy, StepLeads};

use crate::game::Game;
use crate::level_cells::LevelCells;
use crate::level_game::LabelledGame;
use std::alloc::Allocator;
use study_board::SquareSet;
use study_values::Value;

/// Sets a cell, unless it has as near a mate already.
#[inline]
pub fn lower_cell<A: Allocator>(cells: &mut LevelCells<'_, A>, number: u32, cell: u8)
    requires number { number < length cells.old }
    requires cell { 0 < cell }
    ensures size { length cells.new ≡ length cells.old }
    ensures rise { IsLowered number cell cells.old cells.new }
    ensures done { IsSetBy cell cells.new number }
{
    let known = cells.as_slice()[number as usize];
    if known == 0 || cell < known {
        cells.set(number, cell);
    }
}

/// Sets a cell, unless it has a mate already.
#[inline]
pub fn mark_cell<A: Allocator>(cells: &mut LevelCells<'_, A>, number: u32, cell: u8)
    requires number { number < length cells.old }
    requires cell { 0 < cell }
    ensures size { length cells.new ≡ length cells.old }
    ensures rise { IsMarked number cell cells.old cells.new }
    ensures done { slice_index cells.new number ≢ 0 }
{
    if cells.as_slice()[number as usize] == 0 {
        cells.set(number, cell);
    }
}

/// Sets a cell to 0.
fn clear_cell<A: Allocator>(cells: &mut LevelCells<'_, A>, number: u32)
    requires number { number < length cells.old }
    ensures size { length cells.new ≡ length cells.old }
    ensures each { (i : ℕ) → (slice_index cells.new i ≡ slice_index cells.old i) ⊎ (i ≡ number)
        × (slice_index cells.new i ≡ 0) }
    ensures here { slice_index cells.new number ≡ 0 }
{
    cells.set(number, 0);
}

/// Sets to 0 the cells of a row whose squares are in the set.
pub fn clear_in_row<A: Allocator>(cells: &mut LevelCells<'_, A>, row: u32, squares: SquareSet)
    requires row { 64 * row ≤ length cells.old }
    requires small { length cells.old < 2 ^ 32 }
    requires squares { (y : ℕ) → y < 64 → has squares y ≡ true → 64 * row + y < length cells.old }
    ensures size { length cells.new ≡ length cells.old }
    ensures each { (i : ℕ) → (slice_index cells.new i ≡ slice_index cells.old i)
        ⊎ ((y : ℕ) × (y < 64) × (has squares y ≡ true) × (i ≡ 64 * row + y))
        × (slice_index cells.new i ≡ 0) }
    ensures done { (y : ℕ) → y < 64 → has squares y ≡ true
        → slice_index cells.new (64 * row + y) ≡ 0 }
{
    for square in squares {
        clear_cell(cells, 64 * row + u32::from(square.number()));
    }
}

/// For a position that is lost in `level` plies: the positions before it are won in one more.
pub fn lower_by_moves<G: Game, A: Allocator>(
    game: &G,
    cells: &mut LevelCells<'_, A>,
    number: u32,
    level: u8,
) -> u64
    requires laws { IsNumberedClass (G.numbered game.now) }
    requires level { level < 254 }
    requires number { number < (G.numbered game.now).size }
    requires cells { length cells.old ≡ (G.numbered game.now).size }
    ensures size { length cells.new ≡ length cells.old }
    ensures rise { AreLowered (λ i.
        StepLeads (G.numbered game.now) i number) level cells.old cells.new }
    ensures done { (i : ℕ) → StepLeads (G.numbered game.now) i number
        → IsSetBy (level + 2) cells.new i }
{
    let before = game.earlier(number);
    for from in before.as_slice() {
        lower_cell(cells, *from, level + 2);
    }
    before.len() as u64
}

/// For a position that is won in `level` plies: the positions before it are marked, unless they have a mate.
pub fn mark_by_moves<G: Game, A: Allocator>(
    game: &G,
    cells: &mut LevelCells<'_, A>,
    number: u32,
    level: u8,
) -> u64
    requires laws { IsNumberedClass (G.numbered game.now) }
    requires level { level < 254 }
    requires number { number < (G.numbered game.now).size }
    requires cells { length cells.old ≡ (G.numbered game.now).size }
    ensures size { length cells.new ≡ length cells.old }
    ensures rise { AreAdded (λ i.
        StepLeads (G.numbered game.now) i number) level cells.old cells.new }
    ensures done { (i : ℕ) → StepLeads (G.numbered game.now) i number
        → slice_index cells.new i ≢ 0 }
{
    let before = game.earlier(number);
    for from in before.as_slice() {
        mark_cell(cells, *from, level + 2);
    }
    before.len() as u64
}

/// Whether a position has a move, and each move leads to a win within `level` plies.
pub fn is_lost<G: LabelledGame>(
    game: &G,
    cells: &[u8],
    number: u32,
    at: &G::Position,
    level: u8,
) -> bool
    requires laws { IsNumberedClass (G.numbered game.now) }
    requires at { (G.numbered game.now).position number ≡ Some at.now }
    requires cells { length cells.now ≡ (G.numbered game.now).size }
    ensures { IsTrue result ↔ LosesBy (G.numbered game.now) cells.now level at.now }
{
    let moves = game.moves(at);
    for by in moves.as_slice() {
        if !is_won(game.label_after(cells, number, at, by), level) {
            return false;
        }
    }
    !moves.is_empty()
}

/// Whether a value is a win within `level` plies.
#[inline]
pub fn is_won(value: Value, level: u8) -> bool
    ensures { IsTrue result ↔ ((m : ℕ) × (value ≡ Value.Win m) × (m ≤ level)) }
{
    match value {
        Value::Win(n) => n <= level,
        _ => false,
    }
}

/// Whether a cell has a win within `level` plies, without decoding its value, so that many are tested fast.
#[inline]
pub fn tells_win(cell: u8, level: u8) -> bool
    ensures { IsTrue result ↔ ((m : ℕ) × (value_of cell ≡ Value.Win m) × (m ≤ level)) }
{
    cell != 0 && cell % 2 == 0 && cell - 1 <= level
}

/// Whether the position of a number has a move, and each move leads to a win within `level` plies.
pub fn is_lost_by_moves<G: LabelledGame>(game: &G, cells: &[u8], number: u32, level: u8) -> bool
    requires laws { IsNumberedClass (G.numbered game.now) }
    requires number { number < (G.numbered game.now).size }
    requires cells { length cells.now ≡ (G.numbered game.now).size }
    ensures yes { IsTrue result → (p : G.Position)
        × ((G.numbered game.now).position number ≡ Some p)
        × LosesBy (G.numbered game.now) cells.now level p }
    ensures no { result ≡ false → NoLossBy (G.numbered game.now) cells.now level number }
{
    match game.decode(number) {
        None => false,
        Some(at) => is_lost(game, cells, number, &at, level),
    }
}
