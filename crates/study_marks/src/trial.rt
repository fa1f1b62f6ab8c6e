//! A move that is tried at a node.
ghost use Rattle.std.specs.Prelude.{◌≡◌, ◌≤◌, length, Err, true, IsTrue, IsOk, OnOk, IfOk, MatchOption};
ghost use Rattle.study_moves.specs.Rules.{is_legal};
ghost use Rattle.study_tree.specs.Tree.{has_spot};
ghost use Rattle.study_marks.specs.Study.{plain_study, position_at};
ghost use Rattle.study_marks.specs.BenchState.{marked_study};
ghost use Rattle.study_marks.specs.Trial.{trial_refusal};

use crate::bench::Bench;
use crate::refusal::Refusal;
use crate::replay::position_at as node_position;
use std::alloc::Allocator;
use study_board::Position;
use study_moves::{Move, is_legal};
use study_tree::MAX_DEPTH;

impl<'a, A: Allocator> Bench<'a, A> {
    /// The position of the node, if the move is legal there.
    pub(crate) fn check_move(&self, steps: &[u16], m: &Move) -> Result<Position, Refusal<'a, A>>
        ensures refusal { MatchOption
            (trial_refusal (plain_study (marked_study self.now)) steps.now m.now) (IsOk result)
            (λ fault. result ≡ Err fault) }
        ensures short { OnOk result (length steps.now ≤ 256) }
        ensures found { OnOk result (IsTrue (has_spot self.now.study.tree steps.now)) }
        ensures legal { OnOk result (is_legal (position_at self.now.study steps.now) m.now ≡ true) }
        ensures position { IfOk result (λ p. p ≡ position_at self.now.study steps.now) }
    {
        if steps.len() > MAX_DEPTH || self.tree.node(steps).is_none() {
            return Err(Refusal::NoSuchNode);
        }
        let before = node_position(&self.start.position, &self.tree, steps);
        if !is_legal(&before, *m) {
            return Err(Refusal::IllegalMove);
        }
        Ok(before)
    }
}
