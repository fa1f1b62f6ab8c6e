//! A row of numbers: 64 numbers that differ only in the square of the man of the last slot.
ghost use Rattle.std.specs.Prelude.{◌≡◌, ◌<◌, ◌+◌, ◌*◌, ℕ, false, [], ◌∷◌, ◌++◌, IfSome};
ghost use Rattle.study_board.specs.declared.men.Kind.TheVariants.{King};
ghost use Rattle.study_board.specs.Men.{same_kind};
ghost use Rattle.study_values.specs.Number.{cells_of};
ghost use Rattle.study_retro.specs.Predecessors.{AreEncoded};
ghost use Rattle.study_retro.specs.Still.{on_square};

use arrayvec::ArrayVec;
use study_board::{Kind, Man, Side};
use study_index::decode_men;
use study_material::Class;

/// A row of a class, without the bit of a capture in passing: its men without the last, and the last one, whose square varies.
#[derive(Drop)]
pub struct Row {
    pub class: Class,
    pub number: u32,
    pub others: ArrayVec<Man, 4>,
    pub last: Man,
    pub to_move: Side,
    ghost plain: { number < 262144 },
    ghost cell: { 64 * number < cells_of class },
    ghost piece: { same_kind last.kind King ≡ false },
    ghost encoded: { (y : ℕ) → y < 64
        → AreEncoded class (64 * number + y) (others.items ++ on_square last y ∷ []) to_move },
}

impl Row {
    /// The row of this number, counted from 0; `None` if the last man is a king.
    pub fn new(class: Class, number: u32) -> Option<Self>
        requires plain { number < 262144 }
        requires cell { 64 * number < cells_of class }
        ensures class { IfSome result (λ r. r.class ≡ class) }
        ensures number { IfSome result (λ r. r.number ≡ number) }
    {
        let setup = decode_men(class, 64 * number);
        let to_move = setup.to_move;
        let mut others = setup.men;
        let last = others.pop()?;
        if last.kind == Kind::King {
            return None;
        }
        Some(Row {
            class,
            number,
            others,
            last,
            to_move,
        })
    }
}
