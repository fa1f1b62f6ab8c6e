//! A node and a move of a study, as a walk reaches them: the tests of their marks, by what the walk knows.
ghost use Rattle.std.specs.Prelude.{◌≡◌, []};
ghost use Rattle.study_marks.specs.declared.mark.Mark.{Mark as AMark};
ghost use Rattle.study_marks.specs.Goals.{aim_of};
ghost use Rattle.study_marks.specs.BenchState.{marked_study};
ghost use Rattle.study_marks.specs.Study.{Study};
ghost use Rattle.study_facts.specs.Nodes.{is_defended, is_open_end};
ghost use Rattle.study_facts.specs.StudyNode.{IsStudyNode, IsStudyMove};
ghost use Rattle.study_facts.specs.Walk.{IsWalkStep};
ghost use Rattle.study_facts.specs.WalkState.{IsStateAt};

use crate::continuation::NodeContext;
use crate::mark_tests::{is_solution_move, is_try, value_at};
use crate::walk::WalkStep;
use crate::walk_state::WalkState;
use std::alloc::Allocator;
use study_board::Position;
use study_marks::{Aim, Bench, Mark, MoveMark, hero_moves, holds};
use study_moves::{Move, legal_moves};
use study_values::Value;

/// A node of a study: its position, at its depth, its path, its value, its number of children, whether its path is in the solution, and whether the
/// move to it is a try.
#[derive(Clone, Copy)]
pub struct StudyNode<'n> {
    pub node: NodeContext<'n>,
    pub steps: &'n [u16],
    pub value: Value,
    pub children: u16,
    pub solution: bool,
    pub tried: bool,
}

/// A move of a study: the node before it, the positions from the root to that node, both included, the path of the node that it leads to, the move, the
/// mark of that node, and whether the move is the hero's, and in the solution.
#[derive(Clone, Copy)]
pub struct StudyMove<'n> {
    pub before: NodeContext<'n>,
    pub line: &'n [Position],
    pub steps: &'n [u16],
    pub played: Move,
    pub mark: Mark,
    pub solution: bool,
}

impl<'n> StudyNode<'n> {
    /// Whether the opponent is to move at the node, which is in the solution and holds.
    pub fn is_defended(&self) -> bool
        ensures { (s : Study AMark) → IsStudyNode s self.now
            → result ≡ is_defended s self.now.steps.now }
    {
        !hero_moves(self.node.aim, self.node.depth)
            && holds(self.node.aim, self.node.depth, self.value)
            && self.solution
    }

    /// Whether the tree ends at the node, but not the game.
    #[inline(never)]
    pub fn is_open_end(&self) -> bool
        ensures { (s : Study AMark) → IsStudyNode s self.now
            → result ≡ is_open_end s self.now.steps.now }
    {
        self.children == 0 && !legal_moves(self.node.position).is_empty()
    }
}

impl<'n> StudyMove<'n> {
    /// The mark of the move.
    pub fn on_move(&self) -> Option<MoveMark>
        ensures { result ≡ self.now.mark.on_move }
    {
        self.mark.on_move
    }
}

/// The root, at which a walk has this state.
pub fn root_node<'n, 'b, B: Allocator>(
    bench: &Bench<'b, B>,
    aim: &'n Aim,
    root: &'n WalkState,
) -> StudyNode<'n>
    requires aim { aim.now ≡ aim_of (marked_study bench.now) }
    requires root { IsStateAt (marked_study bench.now) [] root.now }
    ensures node { IsStudyNode (marked_study bench.now) result }
    ensures path { result.steps.now ≡ [] }
{
    StudyNode {
        node: NodeContext {
            aim,
            depth: 0,
            position: &root.position,
        },
        steps: &[],
        value: value_at(bench, &[]),
        children: root.children,
        solution: true,
        tried: false,
    }
}

/// The node that a walk reaches by this step.
pub fn node_after<'n, 'b, B: Allocator>(bench: &Bench<'b, B>, step: &WalkStep<'n>) -> StudyNode<'n>
    requires { IsWalkStep (marked_study bench.now) step.now.steps.now step.now.aim.now
        step.now.line.now step.now.before.now step.now.here.now step.now.by }
    ensures node { IsStudyNode (marked_study bench.now) result }
    ensures path { result.steps.now ≡ step.now.steps.now }
{
    let depth = step.steps.len();
    let made = hero_moves(step.aim, depth - 1);
    StudyNode {
        node: NodeContext {
            aim: step.aim,
            depth,
            position: &step.here.position,
        },
        steps: step.steps,
        value: step.by.mark.value,
        children: step.by.children,
        solution: step.here.solution,
        tried: is_try(made, step.by.mark.on_move, step.before),
    }
}

/// The move of this step of a walk.
pub fn move_of<'n, 'b, B: Allocator>(bench: &Bench<'b, B>, step: &WalkStep<'n>) -> StudyMove<'n>
    requires { IsWalkStep (marked_study bench.now) step.now.steps.now step.now.aim.now
        step.now.line.now step.now.before.now step.now.here.now step.now.by }
    ensures made { IsStudyMove (marked_study bench.now) result }
    ensures path { result.steps.now ≡ step.now.steps.now }
{
    let first = bench.start();
    let depth = step.steps.len() - 1;
    let made = hero_moves(step.aim, depth);
    StudyMove {
        before: NodeContext {
            aim: step.aim,
            depth,
            position: &step.before.position,
        },
        line: step.line,
        steps: step.steps,
        played: step.by.played,
        mark: step.by.mark,
        solution: is_solution_move(made, step.here),
    }
}
