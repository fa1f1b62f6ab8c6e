//! The mark of a move, from the evaluation of the node before it.
ghost use Rattle.std.specs.Prelude.{◌≡◌, ℕ, ◌+◌, ◌^◌, ◌≤◌, ◌<◌, length, nat_le, unwrap_or};
ghost use Rattle.std.specs.List.{count_by};
ghost use Rattle.study_board.specs.Men.{same_side};
ghost use Rattle.study_marks.specs.Goals.{hero_moves, hero_mates, hero_loses, plies_of, holds};
ghost use Rattle.study_marks.specs.Marks.{mark_of, only_or_dual, is_fault};
ghost use Rattle.study_marks.specs.BenchState.{count_holding, mark_by_label, own_fault};

use crate::mark::MoveMark;
use crate::move_outcomes::MoveOutcomes;
use crate::node_label::Evaluation;
use crate::stipulation::{Goal, MateMoves, Stipulation};
use study_board::Side;
use study_moves::MAX_MOVES;
use study_values::Value;

/// The goal, and whether the hero makes the first move.
#[derive(Clone, Copy)]
pub struct Aim {
    pub goal: Goal,
    pub hero_first: bool,
}

/// The aim of a study with this stipulation in which this side moves first.
pub fn aim_of(stipulation: &Stipulation, first: Side) -> Aim
    ensures { result ≡ record {
      goal = stipulation.now.goal;
      hero_first = same_side stipulation.now.hero first;
    } }
{
    Aim {
        goal: stipulation.goal,
        hero_first: stipulation.hero == first,
    }
}

/// Whether the hero moves at this depth.
pub fn hero_moves(aim: &Aim, depth: usize) -> bool
    ensures { result ≡ hero_moves aim.now depth }
{
    if depth % 2 == 0 {
        aim.hero_first
    } else {
        !aim.hero_first
    }
}

/// The number of plies in which the hero mates; `hero`: the side to move is the hero.
pub fn hero_mates(hero: bool, value: Value) -> Option<u8>
    ensures { result ≡ hero_mates hero value }
{
    match value {
        Value::Win(plies) if hero => Some(plies),
        Value::Loss(plies) if !hero => Some(plies),
        _ => None,
    }
}

/// Whether the hero is mated.
pub fn hero_loses(hero: bool, value: Value) -> bool
    ensures { result ≡ hero_loses hero value }
{
    match value {
        Value::Win(_) => !hero,
        Value::Loss(_) => hero,
        Value::Draw => false,
    }
}

/// The plies from the root up to the last of the hero's moves.
fn plies_of(hero_first: bool, moves: MateMoves) -> usize
    ensures value { result ≡ plies_of hero_first moves }
    ensures few { result ≤ 254 }
{
    let count = moves.count() as usize;
    if hero_first { 2 * count - 1 } else { 2 * count }
}

/// Whether so many plies after this depth are within the limit.
fn is_within(depth: usize, plies: u8, limit: usize) -> bool
    ensures { result ≡ nat_le (depth + plies) limit }
{
    depth <= limit && plies as usize <= limit - depth
}

/// Whether a position at this depth with this value holds.
pub fn holds(aim: &Aim, depth: usize, value: Value) -> bool
    ensures { result ≡ holds aim.now depth value }
{
    let hero = hero_moves(aim, depth);
    let goal = aim.goal;
    match goal {
        Goal::Win => hero_mates(hero, value).is_some(),
        Goal::Draw => !hero_loses(hero, value),
        Goal::MateIn(moves) => match hero_mates(hero, value) {
            None => false,
            Some(plies) => is_within(depth, plies, plies_of(aim.hero_first, moves)),
        },
    }
}

/// The number of the distances, counted from this depth, that are within the limit.
fn count_within(mates: &[u8], depth: usize, limit: usize) -> usize
    requires { length mates.now ≤ MAX_MOVES }
    ensures { result ≡ count_by (λ n. nat_le (depth + n) limit) mates.now }
{
    let mut count = 0;
    for plies in mates {
        if is_within(depth, *plies, limit) {
            count += 1;
        }
    }
    count
}

/// The number of tallied moves of the hero that lead to a position at this depth that holds.
fn count_holding(aim: &Aim, depth: usize, tally: &MoveOutcomes) -> usize
    ensures value { result ≡ count_holding aim.now.goal aim.now.hero_first depth tally.now }
    ensures few { result ≤ MAX_MOVES }
{
    let goal = aim.goal;
    match goal {
        Goal::Win => tally.mates().len(),
        Goal::Draw => tally.mates().len() + tally.draws() as usize,
        Goal::MateIn(moves) => {
            let limit = plies_of(aim.hero_first, moves);
            count_within(tally.mates(), depth, limit)
        }
    }
}

/// The mark of a move that holds, if so many of the legal moves hold.
fn only_or_dual(count: usize) -> MoveMark
    requires { count ≤ 256 }
    ensures { result ≡ only_or_dual count }
{
    if count == 1 {
        MoveMark::Only
    } else {
        MoveMark::Dual(count.saturating_sub(1) as u8)
    }
}

/// The mark of a move by the values before and after it, or `None` if the number of the legal moves that hold decides.
fn mark_by_values(aim: &Aim, depth: usize, before: Value, after: Value) -> Option<MoveMark>
    requires { depth + 1 < 2 ^ 64 }
    ensures { (n : ℕ) → unwrap_or result (only_or_dual n)
        ≡ mark_of (hero_moves aim.now depth)
        (holds aim.now depth before) (holds aim.now (depth + 1) after) n }
{
    let held = holds(aim, depth, before);
    let holds_after = holds(aim, depth + 1, after);
    if hero_moves(aim, depth) {
        if !held {
            Some(MoveMark::Idle)
        } else if holds_after {
            None
        } else {
            Some(MoveMark::Mistake)
        }
    } else if !held && holds_after {
        Some(MoveMark::Mistake)
    } else {
        Some(MoveMark::Reply)
    }
}

/// The mark of a move at this depth from a position with the value `before` to one with the value `after`, if so many of the legal moves hold.
pub fn mark_of(aim: &Aim, depth: usize, before: Value, after: Value, count: usize) -> MoveMark
    requires deep { depth + 1 < 2 ^ 64 }
    requires few { count ≤ MAX_MOVES }
    ensures { result ≡ mark_of (hero_moves aim.now depth)
        (holds aim.now depth before) (holds aim.now (depth + 1) after) count }
{
    match mark_by_values(aim, depth, before, after) {
        Some(mark) => mark,
        None => only_or_dual(count),
    }
}

/// The mark of a move from a node at this depth to a position with this value.
pub fn mark_of_move(aim: &Aim, depth: usize, before: &Evaluation, after: Value) -> MoveMark
    requires { depth + 1 < 2 ^ 64 }
    ensures { result ≡ mark_by_label aim.now depth before.now after }
{
    match mark_by_values(aim, depth, before.value, after) {
        Some(mark) => mark,
        None => only_or_dual(count_holding(aim, depth + 1, &before.tally)),
    }
}

/// Whether a move of the hero with this mark is a fault.
fn is_fault(mark: MoveMark) -> bool
    ensures { result ≡ is_fault mark }
{
    match mark {
        MoveMark::Dual(_) | MoveMark::Mistake => true,
        _ => false,
    }
}

/// The faults of a node for the move that led to it: 1 or 0.
pub fn own_faults(aim: &Aim, depth: usize, before: &Evaluation, after: Value) -> u32
    requires { depth + 1 < 2 ^ 64 }
    ensures value { result ≡ own_fault aim.now depth before.now after }
    ensures few { result ≤ 1 }
{
    if hero_moves(aim, depth) && is_fault(mark_of_move(aim, depth, before, after)) {
        1
    } else {
        0
    }
}
