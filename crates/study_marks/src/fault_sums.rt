//! Faults updated along a path to the root.
ghost use Rattle.std.specs.Prelude.{◌≡◌, ◌+◌, ◌<◌, ◌^◌, IsTrue, length};
ghost use Rattle.study_tree.specs.Tree.{plain_tree, has_spot};
ghost use Rattle.study_marks.specs.Queries.{counted_up_by};
ghost use Rattle.study_marks.specs.Goals.{hero_moves};
ghost use Rattle.study_marks.specs.BenchState.{AllAddUp, evaluation_tree};
ghost use Rattle.study_marks.specs.FaultSums.{counted_faults, faults_newly_first, faults_of_first, FaultsAreOffBy};
ghost use Rattle.study_marks.specs.FaultSums.{counts_all, counted_from_depth, faults_after_change};

use crate::mark_rules::{Aim, hero_moves};
use crate::node_label::NodeLabel;
use std::alloc::Allocator;
use study_tree::{LabelChange, Tree};

/// The faults that a child at this place, with these faults, counts for its parent at this depth.
pub fn counted_faults(aim: &Aim, depth: usize, place: u16, faults: u32) -> u32
    ensures { result ≡ counted_faults (hero_moves aim.now depth) place faults }
{
    if place == 0 || !hero_moves(aim, depth) {
        faults
    } else {
        0
    }
}

/// After a node at this place was deleted: the faults of its successor, if they are new to the parent.
pub fn faults_newly_first(aim: &Aim, depth: usize, place: u16, faults: u32) -> u32
    ensures { result ≡ faults_newly_first (hero_moves aim.now depth) place faults }
{
    if place == 0 && hero_moves(aim, depth) {
        faults
    } else {
        0
    }
}

/// When a node at this place is exchanged with the one before it: its faults, if the parent's change by them.
pub fn faults_of_first(aim: &Aim, depth: usize, place: u16, faults: u32) -> u32
    ensures { result ≡ faults_of_first (hero_moves aim.now depth) place faults }
{
    if place == 1 && hero_moves(aim, depth) {
        faults
    } else {
        0
    }
}

/// Whether a child at this place counts all its faults for its parent at this depth.
fn counts_all(aim: &Aim, depth: usize, place: u16) -> bool
    ensures { result ≡ counts_all (hero_moves aim.now depth) place }
{
    place == 0 || !hero_moves(aim, depth)
}

/// The least depth from which on a change of the faults of the path's node counts at each node of the path, which begins at this depth.
fn counted_from_depth(aim: &Aim, depth: usize, steps: &[u16]) -> usize
    requires short { depth + length steps.now < 2 ^ 64 }
    ensures { result ≡ counted_from_depth aim.now depth steps.now }
{
    match steps.split_first() {
        None => depth,
        Some((place, rest)) => {
            let from = counted_from_depth(aim, depth + 1, rest);
            if from <= depth + 1 && counts_all(aim, depth, *place) {
                depth
            } else {
                from
            }
        }
    }
}

/// A change of faults, by so many removed and so many added, at each node of a path from this depth on.
#[derive(Clone, Copy)]
struct FaultChange {
    from: usize,
    minus: u32,
    plus: u32,
}

impl LabelChange<NodeLabel> for FaultChange {
    ghost use Rattle.study_marks.specs.FaultSums.{label_moved};

    ghost changed = { λ s d l. label_moved s.from s.minus s.plus d l };

    fn change(&self, depth: usize, label: &mut NodeLabel) {
        if self.from <= depth {
            label.faults = faults_after_change(label.faults, self.minus, self.plus);
        }
    }
}

/// These faults with `minus` removed and `plus` added.
fn faults_after_change(faults: u32, minus: u32, plus: u32) -> u32
    ensures { result ≡ faults_after_change minus plus faults }
{
    let now = (faults as u64 + plus as u64).saturating_sub(minus as u64);
    now.min(u32::MAX as u64) as u32
}

/// Writes the faults of the path's node, with `minus` removed and `plus` added; then those of its parent, as far as the node
/// counts for it; and so on up to the root.
pub fn update_faults<'a, A: Allocator>(
    aim: &Aim,
    tree: &mut Tree<'a, NodeLabel, A>,
    steps: &[u16],
    minus: u32,
    plus: u32,
)
    requires found { IsTrue (has_spot (plain_tree tree.old) steps.now) }
    requires off { FaultsAreOffBy aim.now (plain_tree tree.old) steps.now minus plus }
    ensures evaluated { evaluation_tree (plain_tree tree.new) ≡ evaluation_tree
        (plain_tree tree.old) }
    ensures right { AllAddUp aim.now (plain_tree tree.new) }
    ensures count { tree.new.relabelled ≡ counted_up_by (length steps.now + 1) tree.old.relabelled }
{
    let _few = tree.size();
    let from = counted_from_depth(aim, 0, steps);
    let change = FaultChange { from, minus, plus };
    let _changed = tree.change_along(steps, &change);
}
