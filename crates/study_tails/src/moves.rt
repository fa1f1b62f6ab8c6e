//! The effect of a move in a game's text.
ghost use Rattle.std.specs.Prelude.{◌≡◌, IfOk, OnErr, OnOk, None, Some};
ghost use Rattle.study_marks.specs.Study.{place_from, place_at};
ghost use Rattle.study_tails.specs.Study.{node_at};
ghost use Rattle.study_tails.specs.Moves.{WideComes, IsLegalAt, move_fault_of, with_wide_insertion, wide_moved_by};

use crate::study::WideStudy;
use std::alloc::Allocator;
use study_moves::Move;
use study_reading::{MoveFault, Step};
use study_tree::{Subtree, TreeFault};

/// The fault of a move for the fault of a tree that gets one more child.
fn move_fault(fault: TreeFault) -> MoveFault
    ensures { result ≡ move_fault_of fault }
{
    match fault {
        TreeFault::TooDeep => MoveFault::TooDeep,
        TreeFault::TreeFull => MoveFault::TreeFull,
        TreeFault::OutOfMemory => MoveFault::OutOfMemory,
        _ => MoveFault::NoSuchNode,
    }
}

/// The place of the first child with the move.
pub fn find_child<'t, 'a, A: Allocator>(node: &Subtree<'t, 'a, (), A>, m: &Move) -> Option<u16>
    ensures { result ≡ place_from 0 m.now node.now.below }
{
    let mut place = 0;
    while place < node.width() {
        match node.child(place) {
            None => return None,
            Some(child) => {
                if *m == child.played {
                    return Some(place);
                }
            }
        }
        place += 1;
    }
    None
}

/// The move that a text means at a node, and the place of the child that has it.
#[derive(Clone, Copy)]
pub struct Meant {
    pub played: Move,
    pub place: Option<u16>,
}

impl<'a, A: Allocator> WideStudy<'a, A> {
    /// Adds a legal move that no child of the node has, as its last child.
    pub(crate) fn add_child(&mut self, steps: &[u16], m: &Move) -> Result<Step, MoveFault>
        requires legal { IsLegalAt m.now (node_at self.old steps.now) }
        requires fresh { place_at self.old.tree.below steps.now m.now ≡ None }
        ensures added { IfOk result (λ step. step.added ≡ Some m.now) }
        ensures grown { OnOk result
            (self.new ≡ with_wide_insertion self.old steps.now m.now) }
        ensures same { OnErr result (self.new ≡ self.old) }
        ensures comes { WideComes result self.old self.new
            (wide_moved_by self.old steps.now m.now) }
    {
        match self.tree.add_last(steps, *m, ()) {
            Ok(place) => Ok(Step {
                place,
                added: Some(*m),
            }),
            Err(fault) => Err(move_fault(fault)),
        }
    }
}
