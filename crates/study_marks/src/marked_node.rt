//! Borrowed nodes with their marks, and the way from each to its children.
ghost use Rattle.std.specs.Prelude.{◌≡◌, [], MatchOption, Some, None};
ghost use Rattle.study_tree.specs.Edits.{IsWithin, node_in, width};
ghost use Rattle.study_marks.specs.BenchState.{shown_tree};

use crate::mark::Mark;
use crate::mark_rules::{Aim, mark_of_move};
use crate::node_label::NodeLabel;
use std::alloc::Allocator;
use std::marker::Model;
use study_moves::Move;
use study_tree::Subtree;

/// A borrowed node, and all nodes below it, seen as an annotated tree of its own.
#[derive(Drop)]
pub struct MarkedNode<'t, 'a, A: Allocator> {
    aim: Aim,
    depth: usize,
    mark: Mark,
    branch: Subtree<'t, 'a, NodeLabel, A>,
}

impl<'t, 'a, A: Allocator> Model for MarkedNode<'t, 'a, A> {
    ghost use Rattle.std.specs.Prelude.{◌-◌, ◌≤◌};
    ghost use Rattle.study_tree.specs.Edits.{IsWithin};
    ghost use Rattle.study_tree.specs.Tree.{Plain};
    ghost use Rattle.study_marks.specs.declared.mark.Mark.{Mark as AMark};
    ghost use Rattle.study_marks.specs.Bench.{marked_code};
    ghost use Rattle.study_marks.specs.BenchState.{shown_marks};

    ghost Value = { Plain AMark };

    ghost coded = { marked_code };

    ghost view = { λ n. record {
      label = n.mark;
      below = shown_marks n.aim n.depth n.branch.label.evaluated n.branch.below;
    } };

    ghost invariant = { λ n. (n.depth ≤ 256) × IsWithin (256 - n.depth) n.branch.below };
}

/// A borrowed child with its mark, and the move that led to it.
#[derive(Drop)]
pub struct MarkedChild<'t, 'a, A: Allocator> {
    pub played: Move,
    pub node: MarkedNode<'t, 'a, A>,
}

impl<'t, 'a, A: Allocator> MarkedNode<'t, 'a, A> {
    /// The root of a tree, to which no move led.
    pub(crate) fn of_root(aim: Aim, branch: Subtree<'t, 'a, NodeLabel, A>) -> Self
        requires { IsWithin 256 branch.below }
        ensures { result ≡ shown_tree aim branch.entry }
    {
        MarkedNode {
            aim,
            depth: 0,
            mark: branch.label().mark(None),
            branch,
        }
    }

    /// The node's mark.
    pub fn mark(&self) -> Mark
        ensures { result ≡ self.now.label }
    {
        self.mark
    }

    /// The number of children of the node.
    pub fn width(&self) -> u16
        ensures { result ≡ width self.now.below }
    {
        self.branch.width()
    }

    /// The child at this place, `None` if there is no such child.
    pub fn child(&self, place: u16) -> Option<MarkedChild<'t, 'a, A>>
        ensures { MatchOption result (node_in self.now.below place [] ≡ None)
            (λ c. node_in self.now.below place []
            ≡ Some (record { played = c.played; label = c.node.label; below = c.node.below })) }
    {
        match self.branch.child(place) {
            None => None,
            Some(child) => {
                let label = child.node.label();
                let before = &self.branch.label().evaluated;
                let on_move = mark_of_move(&self.aim, self.depth, before, label.evaluated.value);
                Some(MarkedChild {
                    played: child.played,
                    node: MarkedNode {
                        aim: self.aim,
                        depth: self.depth + 1,
                        mark: label.mark(Some(on_move)),
                        branch: child.node,
                    },
                })
            }
        }
    }
}
