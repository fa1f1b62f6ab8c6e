//! The whole tree: its first move that is not legal, and new labels of all nodes.
ghost use Rattle.std.specs.Prelude.{◌≡◌, ◌-◌, ◌≤◌, ◌++◌, ℕ, List, IsTrue, length, Some, None, false};
ghost use Rattle.study_tree.specs.Edits.{IsWithin};
ghost use Rattle.study_tree.specs.Tree.{plain_tree, size_of};
ghost use Rattle.study_marks.specs.Edits.{first_illegal_from};
ghost use Rattle.study_marks.specs.Queries.{counted_up_by};
ghost use Rattle.study_marks.specs.BenchState.{AllAddUp, evaluation_tree};
ghost use Rattle.study_marks.specs.Relabelled.{evaluation_in, reevaluated_tree};

use crate::fault_sums::counted_faults;
use crate::mark_rules::{Aim, own_faults};
use crate::node_label::{Evaluation, NodeLabel};
use arrayvec::ArrayVec;
use std::alloc::Allocator;
use study_board::Position;
use study_moves::{is_legal, played};
use study_tree::{Rewriting, Subtree, Tree};

/// A path from the root that takes no memory.
pub type Steps = ArrayVec<u16, 256>;

/// Goes to the first node in written order, below this one, whose move is not legal; stays if there is none.
pub fn find_illegal_move<'t, 'a, A: Allocator>(
    node: &Subtree<'t, 'a, NodeLabel, A>,
    position: &Position,
    steps: &mut Steps,
) -> bool
    requires short { length steps.old.items ≤ 256 }
    requires shallow { IsWithin (256 - length steps.old.items) node.now.below }
    ensures broken { IsTrue result
        → (path : List ℕ) × (first_illegal_from 0 position.now node.now.below ≡ Some path)
        × (steps.new.items ≡ steps.old.items ++ path) }
    ensures whole { result ≡ false → (first_illegal_from 0 position.now node.now.below ≡ None)
        × (steps.new.items ≡ steps.old.items) }
{
    let count = node.width();
    let mut place = 0u16;
    while place < count {
        let Some(child) = node.child(place) else {
            unreachable!()
        };
        steps.push(place);
        if !is_legal(position, child.played) {
            return true;
        }
        let next = played(position, child.played);
        if find_illegal_move(&child.node, &next, steps) {
            return true;
        }
        let _place = steps.pop();
        place += 1;
    }
    false
}

/// The new labels of all nodes: the evaluations of the list, or the present ones if it is shorter, with the faults counted anew.
#[derive(Clone, Copy)]
struct RelabelPass<'r> {
    aim: &'r Aim,
    all: &'r [Evaluation],
}

impl<'r> Rewriting<NodeLabel> for RelabelPass<'r> {
    ghost use Rattle.study_marks.specs.Relabelled.{fault_pass};

    ghost pass = { λ s. fault_pass s.all.now s.aim.now };

    fn begin(&self, label: &mut NodeLabel) {
        set_evaluation(self.all, 0, &mut label.evaluated);
        label.faults = 0;
    }

    fn enter(&self, depth: usize, number: usize, parent: &NodeLabel, label: &mut NodeLabel) {
        set_evaluation(self.all, number, &mut label.evaluated);
        label.faults = own_faults(self.aim, depth, &parent.evaluated, label.evaluated.value);
    }

    fn join(&self, depth: usize, place: u16, parent: &mut NodeLabel, child: &NodeLabel) {
        let counted = counted_faults(self.aim, depth, place, child.faults);
        parent.faults = parent.faults.saturating_add(counted);
    }
}

/// Writes the list's evaluation of the node with this number; the present one stays if the list is shorter.
fn set_evaluation(all: &[Evaluation], number: usize, evaluated: &mut Evaluation)
    ensures { evaluated.new ≡ evaluation_in all.now number evaluated.old }
{
    if number < all.len() {
        *evaluated = all[number].copied();
    }
}

/// Writes all labels: the evaluations come from the list, one for each node in written order, or stay if the list is empty; the faults are counted anew.
pub fn relabel_all<'a, A: Allocator>(
    aim: &Aim,
    tree: &mut Tree<'a, NodeLabel, A>,
    all: &[Evaluation],
)
    ensures evaluated { evaluation_tree (plain_tree tree.new)
        ≡ reevaluated_tree all.now (evaluation_tree (plain_tree tree.old)) }
    ensures right { AllAddUp aim.now (plain_tree tree.new) }
    ensures count { tree.new.relabelled
        ≡ counted_up_by (size_of (plain_tree tree.old)) tree.old.relabelled }
{
    let _few = tree.size();
    tree.rewrite(&RelabelPass { aim, all });
}
