//! Labels changed in place: along a path, or all in written order.
ghost use Rattle.std.specs.Prelude.{◌≡◌, ◌+◌, ◌<◌, ◌^◌, IsTrue, ◌∷◌, ℕ, length};
ghost use Rattle.study_tree.specs.Forest.{forest_of, nodes_in};
ghost use Rattle.study_tree.specs.Edits.{has_node, without_spares};
ghost use Rattle.study_tree.specs.Changes.{Pass, changed_along, rewritten};

use crate::node::Node;
use std::alloc::Allocator;

/// A change of the labels along a path.
pub trait LabelChange<L> {
    /// The new label at a depth.
    ghost changed: { Self → ℕ → L → L };

    /// Changes the label of the path's node at this depth.
    fn change(&self, depth: usize, label: &mut L)
        ensures { label.new ≡ changed self.now depth label.old };
}

/// A rewriting of all labels, in written order.
pub trait Rewriting<L> {
    /// The new labels.
    ghost pass: { Self → Pass L };

    /// Writes the root's label, before all others.
    fn begin(&self, label: &mut L)
        ensures { label.new ≡ (pass self.now).begun label.old };

    /// Writes the label of the node with this number, before the labels below it. Its parent is at this depth.
    fn enter(&self, depth: usize, number: usize, parent: &L, label: &mut L)
        requires { depth < 2 ^ 16 }
        ensures { label.new ≡ (pass self.now).entered depth number parent.now label.old };

    /// Adds the count of its child at this place to the label of a node at this depth, once all labels below the child are written.
    fn join(&self, depth: usize, place: u16, parent: &mut L, child: &L)
        ensures { parent.new ≡ (pass self.now).joined depth place parent.old child.now };
}

/// Changes the labels along the path, from these siblings, which are at this depth: the label of the one at place `first`, and then along the rest.
pub fn update_below<'a, L, A: Allocator, C: LabelChange<L>>(
    children: &mut Vec<Node<'a, L, A>, &'a A>,
    depth: usize,
    first: u16,
    rest: &[u16],
    change: &C,
)
    requires found { IsTrue (has_node (forest_of children.old.items) (first ∷ rest.now)) }
    requires short { depth + length rest.now < 2 ^ 64 }
    ensures { without_spares (forest_of children.new.items)
        ≡ changed_along (C.changed change.now) depth
        (without_spares (forest_of children.old.items)) (first ∷ rest.now) }
{
    let child = &mut children[first as usize];
    change.change(depth, &mut child.label);
    if let Some((next, rest)) = rest.split_first() {
        update_below(&mut child.children, depth + 1, *next, rest, change);
    }
}

/// Writes the labels of all these nodes and below them, from this number on, and adds their counts to their parent, which is at this depth; returns the
/// number of the first node that is not below it.
pub fn rewrite_below<'a, L, A: Allocator, W: Rewriting<L>>(
    by: &W,
    depth: usize,
    number: usize,
    parent: &mut L,
    children: &mut Vec<Node<'a, L, A>, &'a A>,
) -> usize
    requires deep { depth + nodes_in (forest_of children.old.items) < 2 ^ 16 }
    requires numbers { number + nodes_in (forest_of children.old.items) < 2 ^ 16 }
    ensures label { parent.new
        ≡ (rewritten (W.pass by.now) depth 0 number parent.old
        (without_spares (forest_of children.old.items))).0 }
    ensures below { without_spares (forest_of children.new.items)
        ≡ (rewritten (W.pass by.now) depth 0 number parent.old
        (without_spares (forest_of children.old.items))).1 }
    ensures number { result ≡ number + nodes_in (forest_of children.old.items) }
{
    let mut next = number;
    let mut place = 0;
    while place < children.len() {
        let child = &mut children[place];
        by.enter(depth, next, parent, &mut child.label);
        next = rewrite_below(
            by,
            depth + 1,
            next + 1,
            &mut child.label,
            &mut child.children,
        );
        by.join(depth, place as u16, parent, &child.label);
        place += 1;
    }
    next
}
