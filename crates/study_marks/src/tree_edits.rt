//! Edits of the tree with the faults updated along the path.
ghost use Rattle.std.specs.Prelude.{◌≡◌, ◌+◌, ◌<◌, IsOk, OnOk, OnErr, MatchOption, Err, None, length};
ghost use Rattle.study_tree.specs.Edits.{children_at};
ghost use Rattle.study_tree.specs.Tree.{plain_tree, spot_at, spare_of, with_child, without, moved_up, child_refusal, removal_refusal, move_up_refusal};
ghost use Rattle.study_marks.specs.Queries.{counted_up_by};
ghost use Rattle.study_marks.specs.BenchState.{AllAddUp, evaluation_tree};
ghost use Rattle.study_marks.specs.FaultSums.{faults_of};

use crate::fault_sums::{counted_faults, faults_newly_first, faults_of_first, update_faults};
use crate::mark_rules::{Aim, own_faults};
use crate::node_label::{Evaluation, NodeLabel};
use std::alloc::Allocator;
use study_moves::Move;
use study_tree::{Tree, TreeFault};

/// Adds a last child, for which there is room, to the node, and returns its place.
pub fn add_node<'a, A: Allocator>(
    aim: &Aim,
    tree: &mut Tree<'a, NodeLabel, A>,
    steps: &[u16],
    m: &Move,
    evaluated: Evaluation,
) -> u16
    requires free { child_refusal (plain_tree tree.old) steps.now ≡ None }
    requires room { 0 < spare_of tree.old steps.now }
    requires right { AllAddUp aim.now (plain_tree tree.old) }
    ensures added { evaluation_tree (plain_tree tree.new)
        ≡ with_child (evaluation_tree (plain_tree tree.old)) steps.now m.now evaluated }
    ensures right { AllAddUp aim.now (plain_tree tree.new) }
    ensures place { result ≡ children_at (plain_tree tree.old).below steps.now }
    ensures count { tree.new.relabelled ≡ counted_up_by (length steps.now + 2) tree.old.relabelled }
{
    let faults = match tree.node(steps) {
        None => unreachable!(),
        Some(node) => own_faults(aim, steps.len(), &node.label.evaluated, evaluated.value),
    };
    match tree.add_last(steps, *m, NodeLabel { evaluated, faults }) {
        Err(_) => unreachable!(),
        Ok(place) => {
            let plus = counted_faults(aim, steps.len(), place, faults);
            update_faults(aim, tree, steps, 0, plus);
            place
        }
    }
}

/// The faults of the node, 0 if there is no such node.
fn faults_at<'a, A: Allocator>(tree: &Tree<'a, NodeLabel, A>, steps: &[u16]) -> u32
    ensures { result ≡ faults_of (spot_at (plain_tree tree.now) steps.now) }
{
    match tree.node(steps) {
        None => 0,
        Some(node) => node.label.faults,
    }
}

/// Removes the node, with all nodes below it.
pub fn remove_node<'a, A: Allocator>(
    aim: &Aim,
    tree: &mut Tree<'a, NodeLabel, A>,
    steps: &[u16],
) -> Result<(), TreeFault>
    requires { AllAddUp aim.now (plain_tree tree.old) }
    ensures refusal { MatchOption (removal_refusal (plain_tree tree.old) steps.now) (IsOk result)
        (λ fault. result ≡ Err fault) }
    ensures removed { OnOk result
        (evaluation_tree (plain_tree tree.new)
        ≡ without (evaluation_tree (plain_tree tree.old)) steps.now) }
    ensures right { AllAddUp aim.now (plain_tree tree.new) }
    ensures count { OnOk result
        (tree.new.relabelled ≡ counted_up_by (length steps.now) tree.old.relabelled) }
    ensures same { OnErr result (tree.new ≡ tree.old) }
{
    let gone = faults_at(tree, steps);
    tree.remove(steps)?;
    if let Some((place, front)) = steps.split_last() {
        let depth = front.len();
        let minus = counted_faults(aim, depth, *place, gone);
        let next = faults_at(tree, steps);
        let plus = faults_newly_first(aim, depth, *place, next);
        update_faults(aim, tree, front, minus, plus);
    }
    Ok(())
}

/// Exchanges the node with the one before it.
pub fn promote_node<'a, A: Allocator>(
    aim: &Aim,
    tree: &mut Tree<'a, NodeLabel, A>,
    steps: &[u16],
) -> Result<(), TreeFault>
    requires { AllAddUp aim.now (plain_tree tree.old) }
    ensures refusal { MatchOption (move_up_refusal (plain_tree tree.old) steps.now) (IsOk result)
        (λ fault. result ≡ Err fault) }
    ensures raised { OnOk result
        (evaluation_tree (plain_tree tree.new)
        ≡ moved_up (evaluation_tree (plain_tree tree.old)) steps.now) }
    ensures right { AllAddUp aim.now (plain_tree tree.new) }
    ensures count { OnOk result
        (tree.new.relabelled ≡ counted_up_by (length steps.now) tree.old.relabelled) }
    ensures same { OnErr result (tree.new ≡ tree.old) }
{
    let raised = faults_at(tree, steps);
    tree.move_up(steps)?;
    if let Some((place, front)) = steps.split_last() {
        let depth = front.len();
        let lowered = faults_at(tree, steps);
        let minus = faults_of_first(aim, depth, *place, lowered);
        let plus = faults_of_first(aim, depth, *place, raised);
        update_faults(aim, tree, front, minus, plus);
    }
    Ok(())
}
