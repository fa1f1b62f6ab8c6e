//! The value of a number before the levels: mates, and the result of the moves out of the class alone.
ghost use Rattle.std.specs.Prelude.{◌≡◌, ◌≢◌, ◌+◌, ◌*◌, ◌<◌, ◌≤◌, ◌⊎◌, ℕ, true, false, length, slice_index, None, Some};
ghost use Rattle.study_board.specs.Sets.{has};
ghost use Rattle.study_levels.specs.Propagation.{IsInitial};
ghost use Rattle.study_levels.specs.Numbered.{CellIsHeld, CellsAreHeld, CellsHavePositions, HasPosition, IsNumberedClass, OutsideGives};
ghost use Rattle.study_levels.specs.Numbered.{OutsideIsRight};
ghost use Rattle.study_levels.specs.BestReplies.{drawn_with, lost_with, won_with};

use crate::best_replies::BestReplies;
use crate::cell_blocks::row_end;
use crate::game::{Game, Location};
use crate::level_cells::LevelCells;
use crate::level_game::LevelGame;
use std::alloc::Allocator;
use study_board::SquareSet;
use study_values::{MAX_DISTANCE, Value};

/// Takes the value of a position outside the class into account.
pub fn with_conversion<G: Game>(game: &G, replies: BestReplies, at: &G::Position) -> BestReplies
    requires { (G.numbered game.now).known at.now }
    ensures in_lost { (G.numbered game.now).home at.now ≡ true → result.lost ≡ replies.lost }
    ensures in_won { (G.numbered game.now).home at.now ≡ true → result.won ≡ replies.won }
    ensures in_drawn { (G.numbered game.now).home at.now ≡ true → result.drawn ≡ replies.drawn }
    ensures out_lost { (G.numbered game.now).home at.now ≡ false
        → result.lost ≡ lost_with replies.lost ((G.numbered game.now).outside at.now) }
    ensures out_won { (G.numbered game.now).home at.now ≡ false
        → result.won ≡ won_with replies.won ((G.numbered game.now).outside at.now) }
    ensures out_drawn { (G.numbered game.now).home at.now ≡ false
        → result.drawn ≡ drawn_with replies.drawn ((G.numbered game.now).outside at.now) }
{
    match game.place(at) {
        Location::Cell(_) => replies,
        Location::Outside(value) => replies.with(value),
    }
}

/// The value of a position from its moves out of the class alone.
pub fn value_by_conversion<G: Game>(game: &G, at: &G::Position) -> Value
    requires laws { IsNumberedClass (G.numbered game.now) }
    requires numbered { (n : ℕ) × ((G.numbered game.now).position n ≡ Some at.now) }
    requires known { (G.numbered game.now).known at.now }
    requires home { (G.numbered game.now).home at.now ≡ true }
    ensures { OutsideGives (G.numbered game.now) at.now result }
{
    let moves = game.conversions(at);
    let mut replies = BestReplies::new();
    for by in moves.as_slice() {
        if game.may_convert(at, *by) {
            let to = game.played(at, *by);
            replies = with_conversion(game, replies, &to);
        }
    }
    replies.value(false)
}

/// The initial state of a number: its cell, and whether it has a mate that no cell can encode.
#[derive(Clone, Copy)]
pub struct Initial {
    pub cell: u8,
    pub far: bool,
}

/// The initial state for a value.
pub fn initial_by_value(value: Value) -> Initial
    ensures { IsInitial value result.cell result.far }
{
    match value.distance() {
        None => Initial {
            cell: 0,
            far: false,
        },
        Some(n) => {
            if n <= MAX_DISTANCE {
                Initial {
                    cell: n + 1,
                    far: false,
                }
            } else {
                Initial { cell: 0, far: true }
            }
        }
    }
}

/// The initial state of a number, computed from its moves.
pub fn initial_by_moves<G: Game>(game: &G, number: u32) -> Initial
    requires laws { IsNumberedClass (G.numbered game.now) }
    requires number { number < (G.numbered game.now).size }
    ensures held { OutsideIsRight (G.numbered game.now)
        → CellIsHeld (G.numbered game.now) result.far 0 number result.cell }
    ensures none { (G.numbered game.now).position number ≡ None → result.cell ≡ 0 }
{
    let Some(at) = game.decode(number) else {
        return Initial {
            cell: 0,
            far: false,
        };
    };
    if game.is_mate(&at) {
        return Initial {
            cell: 1,
            far: false,
        };
    }
    initial_by_value(value_by_conversion(game, &at))
}

/// Writes the initial cell of a number, if the class has that number, and returns whether it has a mate that no cell can encode.
#[inline]
fn write_first<G: LevelGame, A: Allocator>(
    game: &G,
    cells: &mut LevelCells<'_, A>,
    number: u32,
) -> bool
    requires laws { IsNumberedClass (G.numbered game.now) }
    requires cells { length cells.old ≡ (G.numbered game.now).size }
    ensures size { length cells.new ≡ length cells.old }
    ensures other { (i : ℕ) → i ≢ number → slice_index cells.new i ≡ slice_index cells.old i }
    ensures held { number < (G.numbered game.now).size → OutsideIsRight (G.numbered game.now)
        → CellIsHeld (G.numbered game.now) result 0 number (slice_index cells.new number) }
    ensures numbered { number < (G.numbered game.now).size → slice_index cells.new number ≢ 0
        → HasPosition (G.numbered game.now) number }
{
    if number as usize >= cells.as_slice().len() {
        return false;
    }
    let first = game.first(number);
    cells.set(number, first.cell);
    first.far
}

/// Writes the initial cells of the numbers of a row whose squares are in the set, and returns whether some have a mate that no cell can encode.
#[inline]
fn write_each_first<G: LevelGame, A: Allocator>(
    game: &G,
    cells: &mut LevelCells<'_, A>,
    row: u32,
    squares: SquareSet,
) -> bool
    requires laws { IsNumberedClass (G.numbered game.now) }
    requires row { 64 * row < (G.numbered game.now).size }
    requires cells { length cells.old ≡ (G.numbered game.now).size }
    ensures size { length cells.new ≡ length cells.old }
    ensures other { (i : ℕ) → (i < 64 * row) ⊎ (64 * row + 64 ≤ i)
        → slice_index cells.new i ≡ slice_index cells.old i }
    ensures kept { (y : ℕ) → y < 64 → has squares y ≡ false
        → slice_index cells.new (64 * row + y) ≡ slice_index cells.old (64 * row + y) }
    ensures held { OutsideIsRight (G.numbered game.now) → (y : ℕ) → y < 64 → has squares y ≡ true
        → 64 * row + y < (G.numbered game.now).size
        → CellIsHeld (G.numbered game.now) result 0 (64 * row + y)
        (slice_index cells.new (64 * row + y)) }
    ensures numbered { (y : ℕ) → y < 64 → has squares y ≡ true
        → 64 * row + y < (G.numbered game.now).size
        → slice_index cells.new (64 * row + y) ≢ 0
        → HasPosition (G.numbered game.now) (64 * row + y) }
{
    let mut far = false;
    let _size = game.cells();
    for square in squares {
        let number = 64 * row + u32::from(square.number());
        far |= write_first(game, cells, number);
    }
    far
}

/// Writes the initial cells of the numbers of a row whose cells are 0, and returns whether some mate cannot be encoded.
#[inline]
fn initialise_row<G: LevelGame, A: Allocator>(
    game: &G,
    cells: &mut LevelCells<'_, A>,
    row: u32,
) -> bool
    requires laws { IsNumberedClass (G.numbered game.now) }
    requires row { 64 * row < (G.numbered game.now).size }
    requires cells { length cells.old ≡ (G.numbered game.now).size }
    requires zero { (y : ℕ) → y < 64 → slice_index cells.old (64 * row + y) ≡ 0 }
    ensures size { length cells.new ≡ length cells.old }
    ensures other { (i : ℕ) → (i < 64 * row) ⊎ (64 * row + 64 ≤ i)
        → slice_index cells.new i ≡ slice_index cells.old i }
    ensures held { OutsideIsRight (G.numbered game.now) → (y : ℕ) → y < 64
        → 64 * row + y < (G.numbered game.now).size
        → CellIsHeld (G.numbered game.now) result 0 (64 * row + y)
        (slice_index cells.new (64 * row + y)) }
    ensures numbered { (y : ℕ) → y < 64 → 64 * row + y < (G.numbered game.now).size
        → slice_index cells.new (64 * row + y) ≢ 0
        → HasPosition (G.numbered game.now) (64 * row + y) }
{
    let unknown = game.undecided_in_row(row);
    write_each_first(game, cells, row, unknown.complement())
}

/// Writes the initial cells of all numbers, and returns whether some mate cannot be encoded.
pub fn initialise<G: LevelGame, A: Allocator>(game: &G, cells: &mut LevelCells<'_, A>) -> bool
    requires laws { IsNumberedClass (G.numbered game.now) }
    requires cells { length cells.old ≡ (G.numbered game.now).size }
    ensures size { length cells.new ≡ length cells.old }
    ensures held { OutsideIsRight (G.numbered game.now)
        → CellsAreHeld (G.numbered game.now) result 0 cells.new }
    ensures numbered { CellsHavePositions (G.numbered game.now) cells.new }
{
    cells.clear();
    let mut far = false;
    let size = game.cells();
    let mut number = 0;
    while number < size {
        if initialise_row(game, cells, number / 64) {
            far = true;
        }
        number = row_end(number, size);
    }
    far
}
