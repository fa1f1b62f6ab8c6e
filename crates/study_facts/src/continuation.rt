//! Moves with the values after them.
ghost use Rattle.std.specs.Prelude.{◌≡◌, ◌+◌, ◌<◌, ◌^◌};
ghost use Rattle.study_facts.specs.Continuations.{is_draw, is_wanted};

use study_board::Position;
use study_marks::{Aim, holds};
use study_moves::Move;
use study_values::Value;

/// A move, and the value of the position after it, for the side to move there.
#[derive(Clone, Copy, Debug, PartialEq, Eq)]
pub struct EvaluatedMove {
    pub played: Move,
    pub value: Value,
}

impl Default for EvaluatedMove {
    ghost use Rattle.std.specs.Prelude.{◌≡◌};
    ghost use Rattle.study_values.specs.declared.value.Value.TheVariants.{Draw};

    ghost is_default = { λ a. a.value ≡ Draw };

    fn default() -> Self {
        EvaluatedMove {
            played: Move::default(),
            value: Value::Draw,
        }
    }
}

/// A position at a depth of a study, and the stipulation.
#[derive(Clone, Copy)]
pub struct NodeContext<'n> {
    pub aim: &'n Aim,
    pub depth: usize,
    pub position: &'n Position,
}

pub fn is_draw(value: Value) -> bool
    ensures { result ≡ is_draw value }
{
    value == Value::Draw
}

/// The moves that are wanted: those after which the position holds, those after which it does not, those after which it is drawn, or all.
#[derive(Clone, Copy, Debug, PartialEq, Eq)]
pub enum MoveFilter {
    Holding,
    Failing,
    Drawing,
    All,
}

/// Whether a move from this depth to a position with this value is wanted.
pub fn is_wanted(wanted: MoveFilter, aim: &Aim, depth: usize, value: Value) -> bool
    requires { depth + 1 < 2 ^ 64 }
    ensures { result ≡ is_wanted wanted aim.now depth value }
{
    match wanted {
        MoveFilter::Holding => holds(aim, depth + 1, value),
        MoveFilter::Failing => !holds(aim, depth + 1, value),
        MoveFilter::Drawing => is_draw(value),
        MoveFilter::All => true,
    }
}
