//! Borrowed nodes, and the way from each to its children.
ghost use Rattle.std.specs.Prelude.{◌≡◌, [], MatchOption, Some, None};
ghost use Rattle.study_tree.specs.Edits.{node_in, width};

use crate::node::Node;
use std::alloc::Allocator;
use std::marker::Model;
use study_moves::Move;

/// A borrowed node, and all nodes below it, seen as a tree of its own.
#[derive(Drop)]
pub struct Subtree<'t, 'a, L, A: Allocator> {
    pub(crate) label: &'t L,
    pub(crate) children: &'t [Node<'a, L, A>],
}

impl<'t, 'a, L, A: Allocator> Model for Subtree<'t, 'a, L, A> {
    ghost use Rattle.std.specs.Prelude.{◌<◌};
    ghost use Rattle.study_tree.specs.Forest.{forest_of, nodes_in};
    ghost use Rattle.study_tree.specs.Edits.{without_spares};
    ghost use Rattle.study_tree.specs.Tree.{Plain};
    ghost use Rattle.study_tree.specs.Codes.{plain_code};

    ghost Value = { Plain L };

    ghost coded = { plain_code L.code };

    ghost view = { λ b. record { label = b.label.now; below = without_spares (forest_of b.children.now) } };

    ghost invariant = { λ b. nodes_in (forest_of b.children.now) < 4096 };
}

/// A borrowed child, and the move that led to it.
#[derive(Drop)]
pub struct Child<'t, 'a, L, A: Allocator> {
    pub played: Move,
    pub node: Subtree<'t, 'a, L, A>,
}

impl<'t, 'a, L, A: Allocator> Subtree<'t, 'a, L, A> {
    /// The node's label.
    pub fn label(&self) -> &'t L
        ensures { result.now ≡ self.now.label }
    {
        self.label
    }

    /// The number of children of the node.
    pub fn width(&self) -> u16
        ensures { result ≡ width self.now.below }
    {
        self.children.len() as u16
    }

    /// The child at this place, `None` if there is no such child.
    pub fn child(&self, place: u16) -> Option<Child<'t, 'a, L, A>>
        ensures { MatchOption result (node_in self.now.below place [] ≡ None)
            (λ c. node_in self.now.below place []
            ≡ Some (record { played = c.played; label = c.node.label; below = c.node.below })) }
    {
        match self.children.get(place as usize) {
            None => None,
            Some(node) => Some(Child {
                played: node.played,
                node: Subtree {
                    label: &node.label,
                    children: &node.children,
                },
            }),
        }
    }
}
