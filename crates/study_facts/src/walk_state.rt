//! The state of a walk of a study.
ghost use Rattle.std.specs.Prelude.{◌≡◌, ◌==◌, ◌<◌, not, ◌||◌, ◌&&◌, [], length, Some};
ghost use Rattle.study_tree.specs.Edits.{width};
ghost use Rattle.study_tree.specs.Tree.{spot_at};
ghost use Rattle.study_marks.specs.Bench.{node_seen};
ghost use Rattle.study_marks.specs.Goals.{aim_of, hero_moves};
ghost use Rattle.study_marks.specs.BenchState.{marked_study};
ghost use Rattle.study_facts.specs.Nodes.{parent_path, is_idle};
ghost use Rattle.study_facts.specs.WalkState.{arrival_of, IsStateAt};

use crate::mark_tests::is_idle;
use std::alloc::Allocator;
use study_board::Position;
use study_marks::{Aim, Bench, Mark, MoveMark, NodeView, hero_moves};
use study_moves::{Move, played};

/// The state of a walk at a node: its position, its number of children, and, of the moves to it, whether all are in the solution, and whether none is idle.
#[derive(Drop)]
pub struct WalkState {
    pub position: Position,
    pub children: u16,
    pub solution: bool,
    pub quiet: bool,
}

/// The contents of a node other than the root.
#[derive(Clone, Copy)]
pub struct MoveToNode {
    pub played: Move,
    pub mark: Mark,
    pub children: u16,
}

/// The contents of the node at the path, `None` if there is no such node, or it is the root.
pub fn move_to_node<'b, B: Allocator>(bench: &Bench<'b, B>, steps: &[u16]) -> Option<MoveToNode>
    ensures { result ≡ arrival_of (spot_at (marked_study bench.now).tree steps.now) }
{
    match bench.node_view(steps) {
        None => None,
        Some(node) => arrival_of(&node),
    }
}

fn arrival_of(node: &NodeView) -> Option<MoveToNode>
    ensures { result ≡ arrival_of (Some (node_seen node.now)) }
{
    match node.played {
        None => None,
        Some(m) => Some(MoveToNode {
            played: m,
            mark: node.mark,
            children: node.children,
        }),
    }
}

/// Whether all moves are in the solution after one more, which is made at this depth, to the child at this place.
fn is_solution(before: &WalkState, aim: &Aim, depth: usize, place: u16) -> bool
    ensures { result ≡ (before.now.solution && (not (hero_moves aim.now depth) || (place == 0))) }
{
    before.solution && (!hero_moves(aim, depth) || place == 0)
}

/// Whether none is idle after a move with this mark.
fn is_quiet(before: &WalkState, mark: Option<MoveMark>) -> bool
    ensures { result ≡ (before.now.quiet && not (is_idle mark)) }
{
    before.quiet && !is_idle(mark)
}

/// The walk state after the last move of the path.
pub fn walk_state_after<'b, B: Allocator>(
    bench: &Bench<'b, B>,
    aim: &Aim,
    steps: &[u16],
    before: &WalkState,
    by: &MoveToNode,
) -> WalkState
    requires aim { aim.now ≡ aim_of (marked_study bench.now) }
    requires some { 0 < length steps.now }
    requires before { IsStateAt (marked_study bench.now) (parent_path steps.now) before.now }
    requires by { arrival_of (spot_at (marked_study bench.now).tree steps.now) ≡ Some by.now }
    ensures { IsStateAt (marked_study bench.now) steps.now result }
{
    let first = bench.start();
    match steps.split_last() {
        None => unreachable!(),
        Some((place, front)) => WalkState {
            position: played(&before.position, by.played),
            children: by.children,
            solution: is_solution(before, aim, front.len(), *place),
            quiet: is_quiet(before, by.mark.on_move),
        },
    }
}

/// The walk state at the root.
pub fn root_walk_state<'b, B: Allocator>(bench: &Bench<'b, B>, children: u16) -> WalkState
    requires { children ≡ width (marked_study bench.now).tree.below }
    ensures { IsStateAt (marked_study bench.now) [] result }
{
    WalkState {
        position: bench.start().position.copied(),
        children,
        solution: true,
        quiet: true,
    }
}
