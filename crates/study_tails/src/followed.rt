//! A study while a game is read.
ghost use Rattle.std.specs.Prelude.{◌≡◌, ◌++◌, MatchOption, IfOk, IfErr, IfSome, None, Some, Ok, Err};
ghost use Rattle.study_marks.specs.FaultSums.{below_at};
ghost use Rattle.study_tails.specs.Study.{IsWidePlayable, node_at};
ghost use Rattle.study_tails.specs.Moves.{WideComes, IsLegalAt, IsMeantAt, wide_after_move_text};
ghost use Rattle.study_tails.specs.Laws.{wide_start_at};

use crate::moves::{Meant, find_child};
use crate::study::{WideNode, WideStudy, copied_start, descend};
use arrayvec::ArrayVec;
use std::alloc::Allocator;
use std::marker::Model;
use study_reading::{MoveFault, Step};
use study_tree::{MAX_DEPTH, Subtree};
use study_wide_text::{WideStart, read_wide_san};

/// A study that remembers the start of the node at which the last move was made, so that a line is followed without being played again from its first move.
#[derive(Drop)]
pub struct FollowedStudy<'a, A: Allocator> {
    study: WideStudy<'a, A>,
    steps: ArrayVec<u16, MAX_DEPTH>,
    start: WideStart,
}

impl<'a, A: Allocator> Model for FollowedStudy<'a, A> {
    ghost use Rattle.std.specs.Prelude.{◌≡◌, Some};
    ghost use Rattle.study_tails.specs.Study.{WideStudy as AStudy};
    ghost use Rattle.study_tails.specs.Laws.{wide_start_at};
    ghost use Rattle.study_tails.specs.Codes.{study_code};

    ghost Value = { AStudy };

    ghost coded = { study_code };

    ghost view = { λ f. f.study };

    ghost invariant = { λ f. wide_start_at f.study f.steps.items ≡ Some f.start };
}

/// The move that a text means at a node, and the start there.
#[derive(Drop)]
struct Reached {
    meant: Meant,
    start: WideStart,
}

/// What is behind these first places of a path, if it begins with them.
fn behind<'t>(first: &[u16], steps: &'t [u16]) -> Option<&'t [u16]>
    ensures { IfSome result (λ rest. steps.now ≡ first.now ++ rest.now) }
{
    match first.split_first() {
        None => Some(steps),
        Some((place, later)) => match steps.split_first() {
            None => None,
            Some((step, rest)) => {
                if *place == *step {
                    behind(later, rest)
                } else {
                    None
                }
            }
        },
    }
}

/// The node that the path leads to from a node, without its start.
fn subtree_at<'t, 'a, A: Allocator>(
    from: Subtree<'t, 'a, (), A>,
    steps: &[u16],
) -> Option<Subtree<'t, 'a, (), A>>
    ensures { IfSome result (λ tree. tree.below ≡ below_at from.entry.below steps.now) }
{
    match steps.split_first() {
        None => Some(from),
        Some((first, rest)) => match from.child(*first) {
            None => None,
            Some(child) => subtree_at(child.node, rest),
        },
    }
}

impl<'a, A: Allocator> FollowedStudy<'a, A> {
    /// The study, at its start.
    pub fn new(study: WideStudy<'a, A>) -> Self
        ensures { result ≡ study.entry }
    {
        let start = copied_start(&study.start);
        FollowedStudy {
            study,
            steps: ArrayVec::new(),
            start,
        }
    }

    /// The study so far.
    pub fn study(&self) -> &WideStudy<'a, A>
        ensures { result.now ≡ self.now }
    {
        &self.study
    }

    /// The study, read.
    pub fn into_study(self) -> WideStudy<'a, A>
        ensures { result ≡ self.entry }
    {
        self.study
    }

    /// The node that the path leads to, `None` if there is no such node.
    pub fn node(&self, steps: &[u16]) -> Option<WideNode<'_, 'a, A>>
        ensures found { MatchOption result (node_at self.now steps.now ≡ None)
            (λ n. node_at self.now steps.now
            ≡ Some (record { start = n.start; below = n.tree.below })) }
        ensures playable { IfSome result (λ n. IsWidePlayable n.start.position n.tree.below) }
    {
        let _start = self.study.start();
        let Some(rest) = behind(self.steps.as_slice(), steps) else {
            return self.study.node(steps);
        };
        match subtree_at(self.study.tree.root(), self.steps.as_slice()) {
            None => self.study.node(steps),
            Some(tree) => descend(
                WideNode {
                    start: copied_start(&self.start),
                    tree,
                },
                rest,
            ),
        }
    }

    /// The move that the text means at the node, and the start there.
    fn reach(&self, steps: &[u16], san: &str) -> Result<Reached, MoveFault>
        ensures meant { IfOk result (λ r. IsMeantAt (Ok r.meant) self.now steps.now san.now) }
        ensures start { IfOk result (λ r. wide_start_at self.now steps.now ≡ Some r.start) }
        ensures fault { IfErr result (λ e. IsMeantAt (Err e) self.now steps.now san.now) }
    {
        let Some(node) = self.node(steps) else {
            return Err(MoveFault::NoSuchNode);
        };
        match read_wide_san(&node.start.position, san) {
            Ok(played) => Ok(Reached {
                meant: Meant {
                    played,
                    place: find_child(&node.tree, &played),
                },
                start: node.start,
            }),
            Err(fault) => Err(MoveFault::San(fault)),
        }
    }

    /// Remembers the start at the node, if its path has at most 256 places.
    fn remember(&mut self, steps: &[u16], start: WideStart)
        requires { wide_start_at self.old steps.now ≡ Some start }
        ensures { self.new ≡ self.old }
    {
        if steps.len() <= MAX_DEPTH {
            let mut places = ArrayVec::new();
            let _fits = places.try_extend_from_slice(steps);
            self.steps = places;
            self.start = start;
        }
    }

    /// Goes from the node to the child with the move that the text means; if there is none, to a new child, the last.
    #[tactic(auto, unfolding(crate::specs::Moves::wide_after_move_text))]
    pub fn play(&mut self, steps: &[u16], san: &str) -> Result<Step, MoveFault>
        ensures legal { IfOk result (λ step.
            IfSome step.added (λ m. IsLegalAt m (node_at self.old steps.now))) }
        ensures comes { WideComes result self.old self.new
            (wide_after_move_text self.old steps.now san.now) }
    {
        let reached = self.reach(steps, san)?;
        self.remember(steps, reached.start);
        match reached.meant.place {
            Some(place) => Ok(Step { place, added: None }),
            None => self.study.add_child(steps, &reached.meant.played),
        }
    }
}
