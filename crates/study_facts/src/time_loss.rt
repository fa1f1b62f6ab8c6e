//! Alternatives with the time that they lose.
ghost use Rattle.std.specs.Prelude.{◌≡◌, ◌+◌, ◌++◌, ◌∷◌, [], ◌≤◌, ◌<◌, ◌^◌, List, true, false, length, IfOk, OnOk, IfErr, IsErrOf, if◌then◌else◌};
ghost use Rattle.std.specs.List.{All};
ghost use Rattle.arrayvec.specs.ArrayVec.{array_vec_len};
ghost use Rattle.study_values.specs.Values.{IsNotDamage};
ghost use Rattle.study_material.specs.declared.class.Class.{Class as AClass};
ghost use Rattle.study_moves.specs.Rules.{is_legal};
ghost use Rattle.study_marks.specs.Evaluated.{failures_of};
ghost use Rattle.study_facts.specs.Asked.{HasProbed, within};
ghost use Rattle.study_facts.specs.TimeFaults.{all_lose_time};
ghost use Rattle.study_facts.specs.Time.{IsTimeGiven, AreTimed, AreTimedAlternatives};
ghost use Rattle.study_facts.specs.declared.time_loss.Alternative.{Alternative as AnAlternative};

use crate::continuation::{EvaluatedMove, NodeContext};
use crate::move_filters::alternatives;
use crate::repetition::waste_of_time;
use arrayvec::ArrayVec;
use study_board::Position;
use study_marks::Goal;
use study_moves::{MAX_MOVES, Move, played};
use study_values::{ProbeFault, Value, Values};

/// Another move that holds: the value of the position after it, for the side to move there, and, if the move only loses time, the least number of moves of
/// the opponent, not counting the last, by which he forces a position of the line.
#[derive(Clone, Copy, Debug, PartialEq, Eq)]
pub struct Alternative {
    pub played: Move,
    pub value: Value,
    pub time: Option<u8>,
}

impl Default for Alternative {
    ghost use Rattle.std.specs.Prelude.{◌≡◌, None};

    ghost is_default = { λ a. a.time ≡ None };

    fn default() -> Self {
        Alternative {
            played: Move::default(),
            value: Value::Draw,
            time: None,
        }
    }
}

/// Whether each of these other moves loses time.
pub fn all_lose_time(list: &[Alternative]) -> bool
    ensures { result ≡ all_lose_time list.now }
{
    list.iter().all(|x| x.time.is_some())
}

/// The time that is lost by a move to this position, if the hero is to win, otherwise `None`.
pub fn waste_of_time_for_goal<V: Values>(
    goal: Goal,
    line: &[Position],
    q: &Position,
    values: &mut V,
) -> Result<Option<u8>, ProbeFault>
    ensures game { V.source.is_honest values.old → IfOk result (IsTimeGiven goal line.now q.now) }
    ensures no_value { (c : AClass) → IsErrOf result (ProbeFault.NoTable c)
        → V.source.held values.old c ≡ false }
    ensures evaluated { HasProbed (within q.now V.source) values.old result values.new }
    ensures no_damage { V.source.is_honest values.old → IfErr result IsNotDamage }
    ensures failures { V.source.failed_of values.new
        ≡ failures_of result (V.source.failed_of values.old) }
    ensures honest { V.source.is_honest values.old → V.source.is_honest values.new }
    ensures tables { (c : AClass) → V.source.held values.new c ≡ V.source.held values.old c }
{
    match goal {
        Goal::Win => waste_of_time(line, q, values),
        Goal::Draw => Ok(None),
        Goal::MateIn(_) => Ok(None),
    }
}

/// Adds a move with the time that it loses.
fn push_timed(
    p: &Position,
    x: &EvaluatedMove,
    time: Option<u8>,
    list: &mut ArrayVec<Alternative, MAX_MOVES>,
)
    requires { array_vec_len list.old < MAX_MOVES }
    ensures items { list.new.items ≡ list.old.items
        ++ (record { played = x.now.played; value = x.now.value; time = time }) ∷ [] }
    ensures len { array_vec_len list.new ≡ array_vec_len list.old + 1 }
    ensures legal { is_legal p.now x.now.played ≡ true
        → All (λ y. is_legal p.now y.played ≡ true) list.old.items
        → All (λ y. is_legal p.now y.played ≡ true) list.new.items }
{
    list.push(Alternative {
        played: x.played,
        value: x.value,
        time,
    });
}

/// Adds these moves with the time that each loses, from a node whose line this is.
fn time_each<V: Values>(
    before: &NodeContext<'_>,
    line: &[Position],
    moves: &[EvaluatedMove],
    values: &mut V,
    list: &mut ArrayVec<Alternative, MAX_MOVES>,
) -> Result<(), ProbeFault>
    // Many clauses: callers use each fact of the probes by itself.
    requires legal { All (λ x. is_legal before.now.position.now x.played ≡ true) moves.now }
    requires room { array_vec_len list.old + length moves.now ≤ MAX_MOVES }
    requires listed { All (λ y. is_legal before.now.position.now y.played ≡ true) list.old.items }
    ensures listed { All (λ y. is_legal before.now.position.now y.played ≡ true) list.new.items }
    ensures game { V.source.is_honest values.old → OnOk result ((timed : List AnAlternative)
        × AreTimed before.now.aim.now.goal line.now before.now.position.now moves.now timed
        × (list.new.items ≡ list.old.items ++ timed)) }
    ensures no_value { (c : AClass) → IsErrOf result (ProbeFault.NoTable c)
        → V.source.held values.old c ≡ false }
    ensures evaluated { HasProbed (within before.now.position.now V.source)
        values.old result values.new }
    ensures no_damage { V.source.is_honest values.old → IfErr result IsNotDamage }
    ensures failures { V.source.failed_of values.new
        ≡ failures_of result (V.source.failed_of values.old) }
    ensures honest { V.source.is_honest values.old → V.source.is_honest values.new }
    ensures tables { (c : AClass) → V.source.held values.new c ≡ V.source.held values.old c }
{
    match moves.split_first() {
        None => Ok(()),
        Some((x, rest)) => {
            let next = played(before.position, x.played);
            match waste_of_time_for_goal(before.aim.goal, line, &next, values) {
                Err(fault) => Err(fault),
                Ok(time) => {
                    push_timed(before.position, x, time, list);
                    time_each(before, line, rest, values, list)
                }
            }
        }
    }
}

/// The other legal moves than this one after which the position of a node holds, each with the time that it loses; the line has the positions from the
/// root to that node, both included.
#[inline(never)]
pub fn timed_alternatives<V: Values>(
    before: &NodeContext<'_>,
    line: &[Position],
    m: Move,
    values: &mut V,
) -> Result<ArrayVec<Alternative, MAX_MOVES>, ProbeFault>
    requires depth { before.now.depth + 1 < 2 ^ 64 }
    ensures game { V.source.is_honest values.old → IfOk result (λ list. AreTimedAlternatives
        before.now.aim.now before.now.depth line.now before.now.position.now m list.items) }
    ensures no_value { (c : AClass) → IsErrOf result (ProbeFault.NoTable c)
        → V.source.held values.old c ≡ false }
    ensures evaluated { HasProbed (within before.now.position.now V.source)
        values.old result values.new }
    ensures no_damage { V.source.is_honest values.old → IfErr result IsNotDamage }
    ensures failures { V.source.failed_of values.new
        ≡ failures_of result (V.source.failed_of values.old) }
    ensures honest { V.source.is_honest values.old → V.source.is_honest values.new }
    ensures tables { (c : AClass) → V.source.held values.new c ≡ V.source.held values.old c }
    ensures legal { IfOk result (λ list.
        All (λ y. is_legal before.now.position.now y.played ≡ true) list.items) }
{
    match alternatives(before, m, values) {
        Err(fault) => Err(fault),
        Ok(others) => {
            let mut list = ArrayVec::new();
            match time_each(before, line, others.as_slice(), values, &mut list) {
                Err(fault) => Err(fault),
                Ok(_) => Ok(list),
            }
        }
    }
}

/// The count plus one if the test is true; it stays at the last value of its type.
pub fn count_where(count: u32, so: bool) -> u32
    ensures { count + (if so then 1 else 0) < 2 ^ 32 → result ≡ count + (if so then 1 else 0) }
{
    if so { count.saturating_add(1) } else { count }
}
