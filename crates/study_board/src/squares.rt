//! The squares of a set, one by one.
ghost use Rattle.std.specs.Prelude.{◌≡◌};
ghost use Rattle.std.specs.Iterator.{YieldsFirst, item_count};
ghost use Rattle.study_board.specs.Squares.{squares_of};

use crate::{Square, SquareSet};
use std::marker::Model;

/// The squares of a set that are left, in the order a1, b1, .., h8.
#[derive(Drop)]
pub struct Squares {
    rest: SquareSet,
}

impl Model for Squares {
    ghost use Rattle.std.specs.Prelude.{ℕ};

    ghost Value = { ℕ };

    ghost view = { λ s. s.rest };
}

impl Iterator for Squares {
    type Item = Square;

    ghost next_gives = { YieldsFirst squares_of };

    ghost remaining = { item_count squares_of };

    #[inline]
    fn next(&mut self) -> Option<Square> {
        if self.rest.is_empty() {
            return None;
        }
        let square = self.rest.first();
        self.rest = self.rest.without(SquareSet::of(square));
        Some(square)
    }
}

impl IntoIterator for SquareSet {
    type Item = Square;

    type IntoIter = Squares;

    ghost into_iter_gives = { λ set rest. rest ≡ set };

    #[inline]
    fn into_iter(self) -> Squares {
        Squares { rest: self }
    }
}
