//! The game of a table: the positions of a class, by numbers.
ghost use Rattle.std.specs.Prelude.{◌≡◌, ◌↔◌, ◌<◌, ℕ, true, false, IsTrue, Some, Contains};
ghost use Rattle.study_levels.specs.Numbered.{Numbered, StandsAt, StepLeads};
ghost use Rattle.study_values.specs.declared.value.Value.{Value};
ghost use Rattle.study_moves.specs.declared.moves.Move.{Move};

use arrayvec::ArrayVec;
use study_moves::{Move, MoveList};
use study_values::Value;

/// The location of a position's value.
#[derive(Clone, Copy)]
pub enum Location {
    Cell(u32),
    Outside(Value),
}

/// The positions of a class, by numbers, and the moves among them and out of the class.
pub trait Game {
    type Position: Drop;

    /// The rules, the numbers and the images.
    ghost numbered: { Self → Numbered Self.Position };

    fn cells(&self) -> u32
        ensures { result ≡ (numbered self.now).size };

    fn decode(&self, number: u32) -> Option<Self::Position>
        requires { number < (numbered self.now).size }
        ensures { result ≡ (numbered self.now).position number };

    fn moves(&self, at: &Self::Position) -> MoveList
        ensures all { (m : Move) → (numbered self.now).legal at.now m → Contains result.items m }
        ensures only { (m : Move) → Contains result.items m → (numbered self.now).legal at.now m };

    fn played(&self, at: &Self::Position, by: Move) -> Self::Position
        requires { (numbered self.now).legal at.now by }
        ensures { result ≡ (numbered self.now).after at.now by };

    fn is_mate(&self, at: &Self::Position) -> bool
        ensures { IsTrue result ↔ (numbered self.now).mate at.now };

    fn place(&self, at: &Self::Position) -> Location
        requires { (numbered self.now).known at.now }
        ensures { StandsAt (numbered self.now) at.now result };

    /// Legal moves, among them each one that leads out of the class.
    fn conversions(&self, at: &Self::Position) -> MoveList
        requires numbered { (n : ℕ) × ((numbered self.now).position n ≡ Some at.now) }
        ensures all { (m : Move) → (numbered self.now).legal at.now m
            → (numbered self.now).home ((numbered self.now).after at.now m) ≡ false
            → Contains result.items m }
        ensures only { (m : Move) → Contains result.items m → (numbered self.now).legal at.now m };

    /// Whether the move may lead out of the class.
    fn may_convert(&self, at: &Self::Position, by: Move) -> bool
        requires numbered { (n : ℕ) × ((numbered self.now).position n ≡ Some at.now) }
        requires legal { (numbered self.now).legal at.now by }
        ensures { result ≡ false
            → (numbered self.now).home ((numbered self.now).after at.now by) ≡ true };

    /// The numbers of the positions from which a move leads to the position of this number.
    fn earlier(&self, number: u32) -> ArrayVec<u32, 384>
        requires { number < (numbered self.now).size }
        ensures all { (n : ℕ) → StepLeads (numbered self.now) n number → Contains result.items n }
        ensures only { (n : ℕ) → Contains result.items n → StepLeads (numbered self.now) n number };
}
