//! The requirements of the levels on a game besides its rules: a game that computes with its numbers may be faster than one with lists of moves.
ghost use Rattle.std.specs.Prelude.{◌≡◌, ◌≢◌, ◌+◌, ◌*◌, ◌<◌, ℕ, true, false, length, slice_index, None, Some};
ghost use Rattle.study_board.specs.Sets.{has};
ghost use Rattle.study_values.specs.Cells.{distance_of};
ghost use Rattle.study_levels.specs.Propagation.{AreAdded, AreLowered, IsSetBy};
ghost use Rattle.study_levels.specs.Numbered.{CellIsHeld, HavePositions, IsNumberedClass, IsUnknownIn, LeadsIntoRow, LosesBy, NoLossBy};
ghost use Rattle.study_levels.specs.Numbered.{OutsideIsRight, StepLeads, label_by};

use crate::game::Game;
use crate::initial::Initial;
use crate::level_cells::LevelCells;
use std::alloc::Allocator;
use study_board::SquareSet;
use study_moves::Move;
use study_values::Value;

/// A game that computes the number after a move from the number before it.
pub trait LabelledGame: Game {
    /// The label of the position after a move from the position of a number.
    fn label_after(&self, cells: &[u8], number: u32, at: &Self::Position, by: &Move) -> Value
        requires laws { IsNumberedClass (Self.numbered self.now) }
        requires at { (Self.numbered self.now).position number ≡ Some at.now }
        requires by { (Self.numbered self.now).legal at.now by.now }
        requires cells { length cells.now ≡ (Self.numbered self.now).size }
        ensures value { result
            ≡ label_by (Self.numbered self.now) cells.now
            ((Self.numbered self.now).after at.now by.now) }
        ensures near { distance_of result < 255 };
}

/// A game whose positions are tested, and gone back from, by their numbers.
pub trait LevelGame: LabelledGame {
    /// The initial state of a number.
    fn first(&self, number: u32) -> Initial
        requires laws { IsNumberedClass (Self.numbered self.now) }
        requires number { number < (Self.numbered self.now).size }
        ensures held { OutsideIsRight (Self.numbered self.now)
            → CellIsHeld (Self.numbered self.now) result.far 0 number result.cell }
        ensures none { (Self.numbered self.now).position number ≡ None → result.cell ≡ 0 };

    /// Squares of a row at whose numbers nothing is known before the levels; a row is 64 numbers, one for each square. Not all such squares need be in it.
    fn undecided_in_row(&self, row: u32) -> SquareSet
        requires laws { IsNumberedClass (Self.numbered self.now) }
        ensures { IsUnknownIn (Self.numbered self.now) row result };

    /// For positions of a row that are lost in `level` plies: the positions before them are won in one more.
    fn lower_before<A: Allocator>(
        &self,
        cells: &mut LevelCells<'_, A>,
        row: u32,
        decided: SquareSet,
        level: u8,
    ) -> u64
        requires laws { IsNumberedClass (Self.numbered self.now) }
        requires level { level < 254 }
        requires numbered { HavePositions (Self.numbered self.now) row decided }
        requires cells { length cells.old ≡ (Self.numbered self.now).size }
        ensures size { length cells.new ≡ length cells.old }
        ensures rise { AreLowered (LeadsIntoRow (Self.numbered self.now) row decided)
            level cells.old cells.new }
        ensures done { (i y : ℕ) → y < 64 → has decided y ≡ true
            → StepLeads (Self.numbered self.now) i (64 * row + y)
            → IsSetBy (level + 2) cells.new i };

    /// For positions of a row that are won in `level` plies: the positions before them are marked, if they have no mate yet.
    fn mark_before<A: Allocator>(
        &self,
        cells: &mut LevelCells<'_, A>,
        row: u32,
        decided: SquareSet,
        level: u8,
    ) -> u64
        requires laws { IsNumberedClass (Self.numbered self.now) }
        requires level { level < 254 }
        requires numbered { HavePositions (Self.numbered self.now) row decided }
        requires cells { length cells.old ≡ (Self.numbered self.now).size }
        ensures size { length cells.new ≡ length cells.old }
        ensures rise { AreAdded (LeadsIntoRow (Self.numbered self.now) row decided)
            level cells.old cells.new }
        ensures done { (i y : ℕ) → y < 64 → has decided y ≡ true
            → StepLeads (Self.numbered self.now) i (64 * row + y) → slice_index cells.new i ≢ 0 };

    /// The positions, among some of a row, that have a move, and whose moves each lead to a win within `level` plies.
    fn lost_in_row(&self, cells: &[u8], row: u32, candidates: SquareSet, level: u8) -> SquareSet
        requires laws { IsNumberedClass (Self.numbered self.now) }
        requires numbered { HavePositions (Self.numbered self.now) row candidates }
        requires cells { length cells.now ≡ (Self.numbered self.now).size }
        ensures only { (y : ℕ) → y < 64 → has result y ≡ true → has candidates y ≡ true }
        ensures yes { (y : ℕ) → y < 64 → has result y ≡ true → (p : Self.Position)
            × ((Self.numbered self.now).position (64 * row + y) ≡ Some p)
            × LosesBy (Self.numbered self.now) cells.now level p }
        ensures no { (y : ℕ) → y < 64 → has candidates y ≡ true → has result y ≡ false
            → NoLossBy (Self.numbered self.now) cells.now level (64 * row + y) };
}
