//! The value that the cells of a table give a number, and whether its own cell has that value.
ghost use Rattle.std.specs.Prelude.{◌≡◌, ◌<◌, ◌↔◌, false, length, Some, IsTrue, IfSome, IfNone, ℕ};
ghost use Rattle.study_values.specs.Cells.{distance_of};
ghost use Rattle.study_levels.specs.Numbered.{CellsAreRight, CellsGive, IsGivenAt, IsNumberedClass, IsOtherAt, OutsideIsRight, label_by};

use crate::best_replies::BestReplies;
use crate::game::{Game, Location};
use crate::level_game::LabelledGame;
use study_values::{Value, value_at};

/// The label of a position.
pub fn label<G: Game>(game: &G, cells: &[u8], at: &G::Position) -> Value
    requires known { (G.numbered game.now).known at.now }
    requires cells { length cells.now ≡ (G.numbered game.now).size }
    ensures value { result ≡ label_by (G.numbered game.now) cells.now at.now }
    ensures near { distance_of result < 255 }
{
    match game.place(at) {
        Location::Cell(number) => value_at(cells[number as usize]),
        Location::Outside(value) => value,
    }
}

/// The value of a position from the labels after its moves.
pub fn value_from_moves<G: LabelledGame>(
    game: &G,
    cells: &[u8],
    number: u32,
    at: &G::Position,
) -> Value
    requires laws { IsNumberedClass (G.numbered game.now) }
    requires at { (G.numbered game.now).position number ≡ Some at.now }
    requires cells { length cells.now ≡ (G.numbered game.now).size }
    ensures { CellsGive (G.numbered game.now) cells.now at.now result }
{
    let moves = game.moves(at);
    let mut replies = BestReplies::new();
    for by in moves.as_slice() {
        let value = game.label_after(cells, number, at, by);
        replies = replies.with(value);
    }
    replies.value(game.is_mate(at))
}

/// Whether a number's cell has the value that the cells give it.
pub fn is_consistent<G: LabelledGame>(game: &G, cells: &[u8], number: u32) -> bool
    requires laws { IsNumberedClass (G.numbered game.now) }
    requires number { number < (G.numbered game.now).size }
    requires cells { length cells.now ≡ (G.numbered game.now).size }
    ensures yes { IsTrue result → IsGivenAt (G.numbered game.now) cells.now number }
    ensures no { result ≡ false → IsOtherAt (G.numbered game.now) cells.now number }
{
    let cell = cells[number as usize];
    match game.decode(number) {
        None => cell == 0,
        Some(at) => value_from_moves(game, cells, number, &at) == value_at(cell),
    }
}

/// The first number whose cell has another value than the cells give it.
pub fn first_inconsistent<G: LabelledGame>(game: &G, cells: &[u8]) -> Option<u32>
    requires laws { IsNumberedClass (G.numbered game.now) }
    requires cells { length cells.now ≡ (G.numbered game.now).size }
    ensures other { IfSome result (λ n. (n < (G.numbered game.now).size)
        × IsOtherAt (G.numbered game.now) cells.now n) }
    ensures given { IfNone result ((n : ℕ) → n < (G.numbered game.now).size
        → IsGivenAt (G.numbered game.now) cells.now n) }
{
    for number in 0..game.cells() {
        if !is_consistent(game, cells, number) {
            return Some(number);
        }
    }
    None
}

/// Whether cells are right, whatever bytes they are.
pub fn are_right<G: LabelledGame>(game: &G, cells: &[u8]) -> bool
    requires laws { IsNumberedClass (G.numbered game.now) }
    requires cells { length cells.now ≡ (G.numbered game.now).size }
    ensures { OutsideIsRight (G.numbered game.now) → IsTrue result
        ↔ CellsAreRight (G.numbered game.now) cells.now }
{
    match first_inconsistent(game, cells) {
        None => true,
        Some(_) => false,
    }
}
