//! The facts of a study that follow from its marks.
ghost use Rattle.std.specs.Prelude.{◌≡◌, ◌&&◌, ◌||◌};
ghost use Rattle.study_marks.specs.Goals.{aim_of};
ghost use Rattle.study_marks.specs.BenchState.{marked_study};
ghost use Rattle.study_facts.specs.Nodes.{is_mistake, is_idle, value_at};

use crate::walk_state::WalkState;
use std::alloc::Allocator;
use study_marks::{Aim, Bench, MoveMark};
use study_values::Value;

/// Whether the move is a mistake.
pub fn is_mistake(mark: Option<MoveMark>) -> bool
    ensures { result ≡ is_mistake mark }
{
    match mark {
        Some(MoveMark::Mistake) => true,
        _ => false,
    }
}

/// Whether the move is idle.
pub fn is_idle(mark: Option<MoveMark>) -> bool
    ensures { result ≡ is_idle mark }
{
    match mark {
        Some(MoveMark::Idle) => true,
        _ => false,
    }
}

/// Whether a move with this mark is a try: the hero's, and a mistake, or an idle move that the solution leads to, the first on its path.
pub fn is_try(made: bool, mark: Option<MoveMark>, before: &WalkState) -> bool
    ensures { result
        ≡ (made
        && (is_mistake mark || (is_idle mark && (before.now.solution && before.now.quiet)))) }
{
    made && (is_mistake(mark) || (is_idle(mark) && before.solution && before.quiet))
}

/// Whether a move is the hero's, and in the solution.
pub fn is_solution_move(made: bool, here: &WalkState) -> bool
    ensures { result ≡ (made && here.now.solution) }
{
    made && here.solution
}

/// The stipulation's goal, and whether the hero makes the first move.
pub fn aim_in<'b, B: Allocator>(bench: &Bench<'b, B>) -> Aim
    ensures { result ≡ aim_of (marked_study bench.now) }
{
    let first = bench.start();
    let stipulation = bench.stipulation();
    study_marks::aim_of(&stipulation, first.position.to_move())
}

/// The value of the node, a draw if there is no such node.
pub fn value_at<'b, B: Allocator>(bench: &Bench<'b, B>, steps: &[u16]) -> Value
    ensures { result ≡ value_at (marked_study bench.now) steps.now }
{
    match bench.node_view(steps) {
        None => Value::Draw,
        Some(node) => node.mark.value,
    }
}
