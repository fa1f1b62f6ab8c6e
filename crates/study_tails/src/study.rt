//! A study that begins with any number of men.
ghost use Rattle.std.specs.Prelude.{◌≡◌, ◌≤◌, ◌∷◌, [], MatchOption, IfSome, None, Some};
ghost use Rattle.study_tree.specs.Forest.{none};
ghost use Rattle.study_tree.specs.Tree.{size_of};
ghost use Rattle.study_tails.specs.Study.{IsWideStudy, IsWidePlayable, node_from, node_at};

use crate::tags::Tags;
use std::alloc::Allocator;
use std::marker::Model;
use study_marks::Stipulation;
use study_tree::{Subtree, Tree};
use study_wide_text::WideStart;

/// A study that may begin with more than four men and rights to castle.
#[derive(Drop)]
pub struct WideStudy<'a, A: Allocator> {
    pub(crate) start: WideStart,
    pub(crate) stipulation: Stipulation,
    pub(crate) tags: Tags,
    pub(crate) tree: Tree<'a, (), A>,
}

impl<'a, A: Allocator> Model for WideStudy<'a, A> {
    ghost use Rattle.study_tails.specs.Study.{WideStudy as AStudy, IsWideStudy, study_of};
    ghost use Rattle.study_tails.specs.Codes.{study_code};

    ghost Value = { AStudy };

    ghost coded = { study_code };

    ghost view = { λ s. study_of s.start s.stipulation s.tags s.tree };

    ghost invariant = { λ s. IsWideStudy (study_of s.start s.stipulation s.tags s.tree) };
}

/// A node: the start after the moves that lead to it, and the moves below it.
#[derive(Drop)]
pub struct WideNode<'t, 'a, A: Allocator> {
    pub start: WideStart,
    pub tree: Subtree<'t, 'a, (), A>,
}

/// A copy of the start.
pub fn copied_start(start: &WideStart) -> WideStart
    ensures { result ≡ start.now }
{
    WideStart {
        position: start.position.copied(),
        clock: start.clock,
        number: start.number,
    }
}

/// The node that the path leads to from a node.
pub fn descend<'t, 'a, A: Allocator>(
    from: WideNode<'t, 'a, A>,
    steps: &[u16],
) -> Option<WideNode<'t, 'a, A>>
    requires { IsWidePlayable from.start.position from.tree.below }
    ensures found { MatchOption result
        (node_from from.entry.start from.entry.tree.below steps.now ≡ None)
        (λ n. node_from from.entry.start from.entry.tree.below steps.now
        ≡ Some (record { start = n.start; below = n.tree.below })) }
    ensures playable { IfSome result (λ n. IsWidePlayable n.start.position n.tree.below) }
{
    match steps.split_first() {
        None => Some(from),
        Some((first, rest)) => match from.tree.child(*first) {
            None => None,
            Some(child) => descend(
                WideNode {
                    start: from.start.played(child.played),
                    tree: child.node,
                },
                rest,
            ),
        },
    }
}

impl<'a, A: Allocator> WideStudy<'a, A> {
    /// A study with the root alone and no tags.
    pub fn new(alloc: &'a A, start: WideStart, stipulation: Stipulation) -> Self
        ensures { result ≡ record {
          start = start;
          stipulation = stipulation;
          tags = None ∷ None ∷ None ∷ None ∷ None ∷ None ∷ [];
          tree = record { label = tt; below = none };
        } }
    {
        WideStudy {
            start,
            stipulation,
            tags: [None; 6],
            tree: Tree::new(alloc, ()),
        }
    }

    /// The start of the study.
    pub fn start(&self) -> &WideStart
        ensures value { result.now ≡ self.now.start }
        ensures study { IsWideStudy self.now }
    {
        &self.start
    }

    /// The stipulation of the study.
    pub fn stipulation(&self) -> Stipulation
        ensures { result ≡ self.now.stipulation }
    {
        self.stipulation
    }

    /// The number of nodes, the root included.
    pub fn size(&self) -> usize
        ensures size { result ≡ size_of self.now.tree }
        ensures few { result ≤ 4096 }
    {
        self.tree.size()
    }

    /// The node that the path leads to, `None` if there is no such node.
    pub fn node(&self, steps: &[u16]) -> Option<WideNode<'_, 'a, A>>
        ensures found { MatchOption result (node_at self.now steps.now ≡ None)
            (λ n. node_at self.now steps.now
            ≡ Some (record { start = n.start; below = n.tree.below })) }
        ensures playable { IfSome result (λ n. IsWidePlayable n.start.position n.tree.below) }
    {
        descend(
            WideNode {
                start: copied_start(&self.start),
                tree: self.tree.root(),
            },
            steps,
        )
    }
}
