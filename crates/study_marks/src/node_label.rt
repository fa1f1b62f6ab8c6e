//! The label of a node.
ghost use Rattle.std.specs.Prelude.{◌≡◌};

use crate::mark::{Mark, MoveMark};
use crate::move_outcomes::MoveOutcomes;
use study_values::Value;

/// The evaluation of a position: its value, and what its legal moves lead to.
#[derive(Drop)]
pub struct Evaluation {
    pub value: Value,
    pub tally: MoveOutcomes,
}

impl Evaluation {
    /// The same evaluation.
    pub fn copied(&self) -> Evaluation
        ensures { result ≡ self.now }
    {
        Evaluation {
            value: self.value,
            tally: self.tally.copied(),
        }
    }
}

/// The label of a node: its evaluation and its faults.
#[derive(Drop)]
pub struct NodeLabel {
    pub evaluated: Evaluation,
    pub faults: u32,
}

impl NodeLabel {
    /// The mark that is shown, with the mark of the move that led here.
    pub fn mark(&self, on_move: Option<MoveMark>) -> Mark
        ensures { result ≡ record {
          value = self.now.evaluated.value;
          on_move = on_move;
          faults = self.now.faults;
        } }
    {
        Mark {
            value: self.evaluated.value,
            on_move,
            faults: self.faults,
        }
    }
}
