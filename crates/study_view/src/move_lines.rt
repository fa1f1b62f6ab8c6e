//! The mark of a move, by the values after all legal moves.
ghost use Rattle.std.specs.Prelude.{◌≡◌, ◌+◌, ◌≤◌, ◌<◌, ◌^◌, ◌++◌, true, length, OnOk};
ghost use Rattle.std.specs.List.{All, flat_map};
ghost use Rattle.study_moves.specs.Rules.{is_legal};
ghost use Rattle.study_view.specs.Marking.{holding_count, line_of_move};

use crate::words::add_move;
use std::alloc::{AllocError, Allocator};
use study_facts::EvaluatedMove;
use study_marks::{Aim, holds, mark_of};
use study_moves::MAX_MOVES;
use study_notation::Start;
use study_text::Text;
use study_values::Value;

/// A node: the stipulation, the node's depth, its position with the counts, and its value.
#[derive(Clone, Copy)]
pub struct ViewNode<'n> {
    pub aim: &'n Aim,
    pub depth: usize,
    pub start: &'n Start,
    pub value: Value,
}

/// The number of these moves from this depth that hold.
fn holding_count(aim: &Aim, depth: usize, list: &[EvaluatedMove]) -> usize
    requires depth { depth + 1 < 2 ^ 64 }
    requires few { length list.now ≤ MAX_MOVES }
    ensures value { result ≡ holding_count aim.now depth list.now }
    ensures few { result ≤ length list.now }
{
    match list.split_first() {
        None => 0,
        Some((x, rest)) => {
            let more = if holds(aim, depth + 1, x.value) { 1 } else { 0 };
            more + holding_count(aim, depth, rest)
        }
    }
}

/// The line of a move.
fn add_reported<A: Allocator>(
    text: &mut Text<'_, A>,
    here: &ViewNode<'_>,
    count: usize,
    x: &EvaluatedMove,
) -> Result<(), AllocError>
    requires depth { here.now.depth + 1 < 2 ^ 64 }
    requires few { count ≤ MAX_MOVES }
    requires legal { is_legal here.now.start.now.position x.now.played ≡ true }
    ensures { OnOk result (text.new ≡ text.old
        ++ line_of_move here.now.aim.now here.now.depth here.now.start.now
        here.now.value count x.now) }
{
    let mark = mark_of(here.aim, here.depth, here.value, x.value, count);
    add_move(text, here.start, &x.played, x.value, Some(mark))
}

/// A line for each of the moves, if so many of the legal moves hold.
fn add_each<A: Allocator>(
    text: &mut Text<'_, A>,
    here: &ViewNode<'_>,
    count: usize,
    list: &[EvaluatedMove],
) -> Result<(), AllocError>
    requires depth { here.now.depth + 1 < 2 ^ 64 }
    requires few { count ≤ MAX_MOVES }
    requires legal { All (λ x. is_legal here.now.start.now.position x.played ≡ true) list.now }
    ensures { OnOk result (text.new ≡ text.old
        ++ flat_map
        (line_of_move here.now.aim.now here.now.depth here.now.start.now
        here.now.value count) list.now) }
{
    for x in list {
        add_reported(text, here, count, x)?;
    }
    Ok(())
}

/// A line for each legal move, with the value after it.
pub fn add_moves<A: Allocator>(
    text: &mut Text<'_, A>,
    here: &ViewNode<'_>,
    list: &[EvaluatedMove],
) -> Result<(), AllocError>
    requires depth { here.now.depth + 1 < 2 ^ 64 }
    requires few { length list.now ≤ MAX_MOVES }
    requires legal { All (λ x. is_legal here.now.start.now.position x.played ≡ true) list.now }
    ensures { OnOk result (text.new ≡ text.old
        ++ flat_map (line_of_move here.now.aim.now here.now.depth here.now.start.now here.now.value
        (holding_count here.now.aim.now here.now.depth list.now)) list.now) }
{
    let count = holding_count(here.aim, here.depth, list);
    add_each(text, here, count, list)
}
