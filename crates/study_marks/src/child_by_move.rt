//! The child of a node with a move.
ghost use Rattle.std.specs.Prelude.{◌≡◌, ◌≤◌, ◌++◌, ◌∷◌, [], IsTrue, length};
ghost use Rattle.study_tree.specs.Edits.{children_at};
ghost use Rattle.study_tree.specs.Tree.{plain_tree, has_spot, spot_at};
ghost use Rattle.study_marks.specs.Study.{place_from, place_at};
ghost use Rattle.study_marks.specs.Bench.{played_by};
ghost use Rattle.study_marks.specs.FaultSums.{below_at, siblings_from};

use crate::node_label::NodeLabel;
use arrayvec::ArrayVec;
use std::alloc::Allocator;
use study_moves::Move;
use study_tree::Tree;

/// The move of the node's child at this place, if there is one.
fn child_move<'a, A: Allocator>(
    tree: &Tree<'a, NodeLabel, A>,
    steps: &[u16],
    place: u16,
) -> Option<Move>
    requires { length steps.now ≤ 256 }
    ensures { result ≡ played_by (spot_at (plain_tree tree.now) (steps.now ++ place ∷ [])) }
{
    let mut child = ArrayVec::<u16, 257>::new();
    for step in steps {
        child.push(*step);
    }
    child.push(place);
    match tree.node(child.as_slice()) {
        None => None,
        Some(node) => node.played,
    }
}

/// The place of the first child with the move, from a place on.
fn find_from<'a, A: Allocator>(
    tree: &Tree<'a, NodeLabel, A>,
    steps: &[u16],
    m: &Move,
    place: u16,
    count: u16,
) -> Option<u16>
    requires short { length steps.now ≤ 256 }
    requires found { IsTrue (has_spot (plain_tree tree.now) steps.now) }
    requires within { place ≤ count }
    requires all { count ≡ children_at (plain_tree tree.now).below steps.now }
    ensures { result ≡ place_from place m.now
        (siblings_from place (below_at (plain_tree tree.now).below steps.now)) }
{
    if place >= count {
        return None;
    }
    match child_move(tree, steps, place) {
        None => None,
        Some(other) => {
            if *m == other {
                Some(place)
            } else {
                find_from(tree, steps, m, place + 1, count)
            }
        }
    }
}

/// The place of the node's child with this move, if there is one.
pub fn find_child<'a, A: Allocator>(
    tree: &Tree<'a, NodeLabel, A>,
    steps: &[u16],
    m: &Move,
) -> Option<u16>
    requires short { length steps.now ≤ 256 }
    requires found { IsTrue (has_spot (plain_tree tree.now) steps.now) }
    ensures { result ≡ place_at (plain_tree tree.now).below steps.now m.now }
{
    let count = match tree.node(steps) {
        None => 0,
        Some(node) => node.children,
    };
    find_from(tree, steps, m, 0, count)
}
