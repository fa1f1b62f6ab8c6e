//! The moves of a study: the one to a node, and those of its children.
ghost use Rattle.std.specs.Prelude.{◌≡◌, ◌≤◌, ◌++◌, ◌∷◌, [], None, length, OnOk, IfOk, MatchOption};
ghost use Rattle.study_tree.specs.Edits.{children_at, width};
ghost use Rattle.study_tree.specs.Tree.{spot_at};
ghost use Rattle.study_marks.specs.Bench.{played_by};
ghost use Rattle.study_marks.specs.FaultSums.{below_at, siblings_from};
ghost use Rattle.study_marks.specs.BenchState.{marked_study};
ghost use Rattle.study_facts.specs.Line.{moves_of};

use arrayvec::ArrayVec;
use std::alloc::{AllocError, Allocator};
use study_marks::Bench;
use study_moves::Move;

/// The move that led to the node, `None` if there is no such node, or it is the root.
pub fn move_to<'b, B: Allocator>(bench: &Bench<'b, B>, steps: &[u16]) -> Option<Move>
    ensures { result ≡ played_by (spot_at (marked_study bench.now).tree steps.now) }
{
    match bench.node_view(steps) {
        None => None,
        Some(node) => node.played,
    }
}

/// The path of the node's child at this place.
fn child_path(steps: &[u16], place: u16) -> ArrayVec<u16, 257>
    requires { length steps.now ≤ 256 }
    ensures { result.items ≡ steps.now ++ place ∷ [] }
{
    let mut child = ArrayVec::<u16, 257>::new();
    for step in steps {
        child.push(*step);
    }
    child.push(place);
    child
}

/// The move of the node's child at this place, if there is one.
fn child_move<'b, B: Allocator>(bench: &Bench<'b, B>, steps: &[u16], place: u16) -> Option<Move>
    requires { length steps.now ≤ 256 }
    ensures { result ≡ played_by (spot_at (marked_study bench.now).tree (steps.now ++ place ∷ [])) }
{
    move_to(bench, child_path(steps, place).as_slice())
}

/// The number of children of the node's child at this place.
pub fn grandchild_count<'b, B: Allocator>(bench: &Bench<'b, B>, steps: &[u16], place: u16) -> u16
    requires { length steps.now ≤ 256 }
    ensures { result ≡ width
        (below_at (marked_study bench.now).tree.below (steps.now ++ place ∷ [])) }
{
    child_count(bench, child_path(steps, place).as_slice())
}

/// Appends a move to the list.
fn push_move<'a, A: Allocator>(moves: &mut Vec<Move, &'a A>, m: Move) -> Result<(), AllocError>
    ensures { OnOk result (moves.new.items ≡ moves.old.items ++ m ∷ []) }
{
    match moves.push(m) {
        Err(_) => Err(AllocError),
        Ok(_) => Ok(()),
    }
}

/// Adds the moves of the node's children from a place on.
fn add_children<'a, 'b, A: Allocator, B: Allocator>(
    bench: &Bench<'b, B>,
    steps: &[u16],
    place: u16,
    count: u16,
    moves: &mut Vec<Move, &'a A>,
) -> Result<(), AllocError>
    requires short { length steps.now ≤ 256 }
    requires within { place ≤ count }
    requires all { count ≡ children_at (marked_study bench.now).tree.below steps.now }
    ensures { OnOk result (moves.new.items ≡ moves.old.items
        ++ moves_of (siblings_from place (below_at (marked_study bench.now).tree.below steps.now))) }
{
    if place >= count {
        return Ok(());
    }
    match child_move(bench, steps, place) {
        None => Ok(()),
        Some(m) => {
            push_move(moves, m)?;
            add_children(bench, steps, place + 1, count, moves)
        }
    }
}

/// The moves of the children of the node at the path, in order; empty if there is no such node.
pub fn children_in<'a, 'b, A: Allocator, B: Allocator>(
    alloc: &'a A,
    bench: &Bench<'b, B>,
    steps: &[u16],
) -> Result<Option<Vec<Move, &'a A>>, AllocError>
    ensures { IfOk result (λ found.
        MatchOption found (spot_at (marked_study bench.now).tree steps.now ≡ None)
        (λ moves. moves.items ≡ moves_of
        (below_at (marked_study bench.now).tree.below steps.now))) }
{
    let first = bench.start();
    match bench.node_view(steps) {
        None => Ok(None),
        Some(node) => {
            let mut moves = Vec::new(alloc);
            add_children(bench, steps, 0, node.children, &mut moves)?;
            Ok(Some(moves))
        }
    }
}

/// The number of children of the node, 0 if there is no such node.
#[inline(never)]
pub fn child_count<'b, B: Allocator>(bench: &Bench<'b, B>, steps: &[u16]) -> u16
    ensures { result ≡ width (below_at (marked_study bench.now).tree.below steps.now) }
{
    match bench.node_view(steps) {
        None => 0,
        Some(node) => node.children,
    }
}
