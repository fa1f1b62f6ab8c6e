//! The legal moves of a position by their results.
ghost use Rattle.std.specs.Prelude.{◌≡◌, ◌+◌, ◌<◌, ◌≤◌, [], length};
ghost use Rattle.study_marks.specs.MoveOutcomes.{tally_of, with_last_value};

use arrayvec::ArrayVec;
use std::marker::Model;
use study_moves::MAX_MOVES;
use study_values::Value;

/// The legal moves of a position by their results: the plies to mate after each winning move, and the number of drawing moves.
#[derive(Drop)]
pub struct MoveOutcomes {
    mates: ArrayVec<u8, MAX_MOVES>,
    draws: u8,
}

impl Model for MoveOutcomes {
    ghost use Rattle.std.specs.Prelude.{◌+◌, ◌≤◌, length};
    ghost use Rattle.study_moves.specs.declared.movegen.TheConstants.{MAX_MOVES};
    ghost use Rattle.study_marks.specs.MoveOutcomes.{MoveOutcomes as Seen};

    ghost Value = { Seen };

    ghost view = { λ t. record { mates = t.mates.items; draws = t.draws } };

    ghost invariant = { λ t. length t.mates.items + t.draws ≤ MAX_MOVES };
}

impl MoveOutcomes {
    /// The tally without moves.
    pub fn new() -> MoveOutcomes
        ensures { result ≡ tally_of [] }
    {
        MoveOutcomes {
            mates: ArrayVec::new(),
            draws: 0,
        }
    }

    /// Adds a move, with the value of the position that it leads to.
    pub fn add(&mut self, value: Value)
        requires { length self.old.mates + self.old.draws < MAX_MOVES }
        ensures { self.new ≡ with_last_value self.old value }
    {
        match value {
            Value::Win(_) => {}
            Value::Loss(plies) => self.mates.push(plies),
            Value::Draw => self.draws += 1,
        }
    }

    /// The same tally.
    pub fn copied(&self) -> MoveOutcomes
        ensures { result ≡ self.now }
    {
        let mut mates = ArrayVec::new();
        for plies in self.mates.as_slice() {
            mates.push(*plies);
        }
        MoveOutcomes {
            mates,
            draws: self.draws,
        }
    }

    /// The plies to mate of the winning moves, in the order of the moves.
    pub fn mates(&self) -> &[u8]
        ensures value { result.now ≡ self.now.mates }
        ensures few { length self.now.mates + self.now.draws ≤ MAX_MOVES }
    {
        self.mates.as_slice()
    }

    /// The number of drawing moves.
    pub fn draws(&self) -> u8
        ensures { result ≡ self.now.draws }
    {
        self.draws
    }
}
