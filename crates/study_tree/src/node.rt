//! Nodes, and the nodes that paths lead to.
ghost use Rattle.std.specs.Prelude.{◌≡◌, ◌+◌, ◌-◌, ◌<◌, ◌^◌, IsTrue, IsOk, IfOk, IsSome, IfSome, OnErr, OnOk, [], ◌∷◌, vec_len, vec_capacity, remove};
ghost use Rattle.std.specs.Prelude.{slice_index_or};
ghost use Rattle.std.specs.Option.{option_copied};
ghost use Rattle.study_tree.specs.Forest.{forest_of, nodes_in, nodes_from};
ghost use Rattle.study_tree.specs.Edits.{has_node, node_in, add_last, children_at, without_spares, spare_at};
ghost use Rattle.study_tree.specs.Edits.{place_edited, labelled_at, dropped_at, raised_at, last_place};

use std::alloc::{AllocError, Allocator};
use std::marker::Model;
use study_moves::Move;

/// A node other than the root.
#[derive(Drop)]
pub struct Node<'a, L, A: Allocator> {
    pub played: Move,
    pub label: L,
    pub children: Vec<Node<'a, L, A>, &'a A>,
}

impl<'a, L, A: Allocator> Model for Node<'a, L, A> {
    ghost use Rattle.std.specs.Prelude.{ℕ, ◌-◌, vec_len, vec_capacity};
    ghost use Rattle.std.specs.Coded.{coded×, coded_ℕ};
    ghost use Rattle.std.proofs.Common.{arith};
    ghost use Rattle.study_tree.specs.Forest.{Twig, forest_of, nodes_from};
    ghost use Rattle.study_tree.specs.Codes.{twig_code, most_le-nodes_in};

    ghost Value = { Twig (L × ℕ) };

    ghost coded = { twig_code (coded× L.code coded_ℕ) };

    ghost view = { λ a. record {
      played = a.played;
      label = (a.label, vec_capacity a.children - vec_len a.children);
      below = forest_of a.children.items;
    } };

    ghost size = { nodes_from };

    ghost size_decreases = { λ a h. omega (arith, most_le-nodes_in a.children.items) };
}

/// The node that the path leads to: place `first` among the siblings, and then the rest of the path.
pub fn node_in<'n, 'a, L, A: Allocator>(
    siblings: &'n [Node<'a, L, A>],
    first: u16,
    rest: &[u16],
) -> Option<&'n Node<'a, L, A>>
    ensures { option_copied result ≡ node_in (forest_of siblings.now) first rest.now }
{
    let node = siblings.get(first as usize)?;
    match rest.split_first() {
        None => Some(node),
        Some((next, rest)) => node_in(&node.children, *next, rest),
    }
}

/// Appends a node to its siblings, and returns its place. Not inlined, so that the way down to it keeps no node on the stack.
#[inline(never)]
fn push_node<'a, L: Drop, A: Allocator>(
    alloc: &'a A,
    siblings: &mut Vec<Node<'a, L, A>, &'a A>,
    played: Move,
    label: &mut Option<L>,
) -> Result<u16, AllocError>
    requires few { vec_len siblings.old < 2 ^ 16 }
    requires given { IsSome label.old }
    ensures place { IfOk result (λ k. k ≡ vec_len siblings.old) }
    ensures added { IfSome label.old
        (λ l. OnOk result (without_spares (forest_of siblings.new.items)
        ≡ add_last (without_spares (forest_of siblings.old.items)) [] played l)) }
    ensures room { 0 < vec_capacity siblings.old - vec_len siblings.old → IsOk result }
    ensures err { OnErr result (siblings.new.items ≡ siblings.old.items) }
{
    let place = siblings.len() as u16;
    let Some(label) = label.take() else {
        unreachable!()
    };
    siblings.push(Node {
        played,
        label,
        children: Vec::new(alloc),
    })?;
    Ok(place)
}

/// Adds a last child to the node at the path, and returns its place. The label is passed by reference and moved at the end of the path,
/// so that the way down uses no stack for it.
pub fn add_below<'a, L: Drop, A: Allocator>(
    alloc: &'a A,
    children: &mut Vec<Node<'a, L, A>, &'a A>,
    steps: &[u16],
    played: Move,
    label: &mut Option<L>,
) -> Result<u16, AllocError>
    requires found { IsTrue (has_node (forest_of children.old.items) steps.now) }
    requires few { children_at (forest_of children.old.items) steps.now < 2 ^ 16 }
    requires given { IsSome label.old }
    ensures place { IfOk result (λ k. k ≡ children_at (forest_of children.old.items) steps.now) }
    ensures added { IfSome label.old
        (λ l. OnOk result (without_spares (forest_of children.new.items)
        ≡ add_last (without_spares (forest_of children.old.items)) steps.now played l)) }
    ensures room { 0 < spare_at (vec_capacity children.old - vec_len children.old)
        (forest_of children.old.items) steps.now → IsOk result }
    ensures err { OnErr result (without_spares (forest_of children.new.items)
        ≡ without_spares (forest_of children.old.items)) }
{
    match steps.split_first() {
        None => push_node(alloc, children, played, label),
        Some((first, rest)) => {
            let child = &mut children[*first as usize];
            add_below(alloc, &mut child.children, rest, played, label)
        }
    }
}

/// Makes room for one more child of the node at the path.
pub fn reserve_below<'a, L, A: Allocator>(
    children: &mut Vec<Node<'a, L, A>, &'a A>,
    steps: &[u16],
) -> Result<(), AllocError>
    requires found { IsTrue (has_node (forest_of children.old.items) steps.now) }
    ensures same { without_spares (forest_of children.new.items)
        ≡ without_spares (forest_of children.old.items) }
    ensures room { OnOk result
        (0 < spare_at (vec_capacity children.new - vec_len children.new)
        (forest_of children.new.items) steps.now) }
{
    match steps.split_first() {
        None => children.reserve_exact(1),
        Some((first, rest)) => {
            let child = &mut children[*first as usize];
            reserve_below(&mut child.children, rest)
        }
    }
}

/// Writes another label of the node at place `first`, and then the rest of the path. The label is exchanged with the node's own and passed by reference,
/// so that the way down uses no stack for it.
pub fn relabel_below<'a, L, A: Allocator>(
    children: &mut Vec<Node<'a, L, A>, &'a A>,
    first: u16,
    rest: &[u16],
    label: &mut L,
)
    requires found { IsTrue (has_node (forest_of children.old.items) (first ∷ rest.now)) }
    ensures { without_spares (forest_of children.new.items)
        ≡ place_edited (labelled_at label.old)
        (without_spares (forest_of children.old.items)) first rest.now }
{
    let child = &mut children[first as usize];
    match rest.split_first() {
        None => std::mem::swap(&mut child.label, label),
        Some((next, rest)) => relabel_below(&mut child.children, *next, rest, label),
    }
}

/// Removes the node at the place. Not inlined, as `push_node`.
#[inline(never)]
fn take_node<'a, L, A: Allocator>(
    siblings: &mut Vec<Node<'a, L, A>, &'a A>,
    place: usize,
) -> Node<'a, L, A>
    requires there { place < vec_len siblings.old }
    ensures value { result ≡ slice_index_or siblings.old.items place result }
    ensures items { siblings.new.items ≡ remove siblings.old.items place }
{
    siblings.remove(place)
}

/// Removes the node, with all nodes below it.
pub fn remove_below<'a, L, A: Allocator>(
    children: &mut Vec<Node<'a, L, A>, &'a A>,
    first: u16,
    rest: &[u16],
) -> Node<'a, L, A>
    requires found { IsTrue (has_node (forest_of children.old.items) (first ∷ rest.now)) }
    ensures removed { without_spares (forest_of children.new.items)
        ≡ place_edited dropped_at (without_spares (forest_of children.old.items)) first rest.now }
    ensures counted { nodes_in (forest_of children.new.items) + nodes_from result
        ≡ nodes_in (forest_of children.old.items) }
{
    match rest.split_first() {
        None => take_node(children, first as usize),
        Some((next, rest)) => {
            let child = &mut children[first as usize];
            remove_below(&mut child.children, *next, rest)
        }
    }
}

/// Exchanges the node with the one before it.
pub fn move_up_below<'a, L, A: Allocator>(
    children: &mut Vec<Node<'a, L, A>, &'a A>,
    first: u16,
    rest: &[u16],
)
    requires found { IsTrue (has_node (forest_of children.old.items) (first ∷ rest.now)) }
    requires not_first { 0 < last_place first rest.now }
    ensures { without_spares (forest_of children.new.items)
        ≡ place_edited raised_at (without_spares (forest_of children.old.items)) first rest.now }
{
    match rest.split_first() {
        None => children.swap(first as usize - 1, first as usize),
        Some((next, rest)) => {
            let child = &mut children[first as usize];
            move_up_below(&mut child.children, *next, rest);
        }
    }
}

/// The number of nodes among these and below them.
pub fn count_in<'a, L, A: Allocator>(nodes: &[Node<'a, L, A>]) -> usize
    requires { nodes_in (forest_of nodes.now) < 2 ^ 32 }
    ensures { result ≡ nodes_in (forest_of nodes.now) }
{
    let mut count = 0;
    for node in nodes {
        count += 1 + count_in(&node.children);
    }
    count
}
