//! Missing defences, with their answers.
ghost use Rattle.std.specs.Prelude.{◌≡◌, ◌+◌, ◌++◌, ◌∷◌, [], ◌≤◌, ◌<◌, ◌^◌, List, true, false, length, IfOk, OnOk, IfErr, IsErrOf};
ghost use Rattle.std.specs.List.{All};
ghost use Rattle.arrayvec.specs.ArrayVec.{array_vec_len};
ghost use Rattle.study_values.specs.Values.{IsNotDamage};
ghost use Rattle.study_material.specs.declared.class.Class.{Class as AClass};
ghost use Rattle.study_moves.specs.Rules.{is_legal, after};
ghost use Rattle.study_marks.specs.Evaluated.{failures_of};
ghost use Rattle.study_facts.specs.Asked.{HasProbed, within};
ghost use Rattle.study_facts.specs.Defences.{only_move, AreAnswered, AreDefences};
ghost use Rattle.study_facts.specs.declared.missing_defences.Defence.{Defence as ADefence};
ghost use Rattle.study_facts.specs.Play.{IsPlayed};

use crate::continuation::{EvaluatedMove, NodeContext};
use crate::move_filters::{holding_moves, missing_moves};
use arrayvec::ArrayVec;
use study_board::Position;
use study_moves::{MAX_MOVES, Move, played};
use study_values::{ProbeFault, Value, Values};

/// A move of the opponent: the value of the position after it, for the hero, the number of the hero's moves that hold
/// there, and that move if it is the only one.
#[derive(Clone, Copy, Debug, PartialEq, Eq)]
pub struct Defence {
    pub played: Move,
    pub value: Value,
    pub answers: u16,
    pub only: Option<Move>,
}

impl Default for Defence {
    ghost use Rattle.std.specs.Prelude.{◌≡◌, None};

    ghost is_default = { λ a. a.only ≡ None };

    fn default() -> Self {
        Defence {
            played: Move::default(),
            value: Value::Draw,
            answers: 0,
            only: None,
        }
    }
}

/// The move, if there is exactly one.
fn only_move(list: &[EvaluatedMove]) -> Option<Move>
    ensures { result ≡ only_move list.now }
{
    match list.split_first() {
        None => None,
        Some((x, rest)) => {
            if rest.is_empty() {
                Some(x.played)
            } else {
                None
            }
        }
    }
}

/// Adds a move to this position with its answers.
fn push_defence(
    p: &Position,
    x: &EvaluatedMove,
    answers: &[EvaluatedMove],
    list: &mut ArrayVec<Defence, MAX_MOVES>,
)
    requires few { length answers.now ≤ MAX_MOVES }
    requires room { array_vec_len list.old < MAX_MOVES }
    ensures items { list.new.items ≡ list.old.items
        ++ (record {
          played = x.now.played;
          value = x.now.value;
          answers = length answers.now;
          only = only_move answers.now;
        }) ∷ [] }
    ensures len { array_vec_len list.new ≡ array_vec_len list.old + 1 }
    ensures legal { is_legal p.now x.now.played ≡ true
        → All (λ y. is_legal (after p.now x.now.played) y.played ≡ true) answers.now
        → All (IsPlayed p.now) list.old.items → All (IsPlayed p.now) list.new.items }
{
    list.push(Defence {
        played: x.played,
        value: x.value,
        answers: answers.len() as u16,
        only: only_move(answers),
    });
}

/// Adds these moves from the node with their answers.
fn push_defences<V: Values>(
    node: &NodeContext<'_>,
    moves: &[EvaluatedMove],
    values: &mut V,
    list: &mut ArrayVec<Defence, MAX_MOVES>,
) -> Result<(), ProbeFault>
    // Many clauses: callers use each fact of the probes by itself.
    requires depth { node.now.depth + 2 < 2 ^ 64 }
    requires legal { All (λ x. is_legal node.now.position.now x.played ≡ true) moves.now }
    requires room { array_vec_len list.old + length moves.now ≤ MAX_MOVES }
    requires listed { All (IsPlayed node.now.position.now) list.old.items }
    ensures listed { All (IsPlayed node.now.position.now) list.new.items }
    ensures game { V.source.is_honest values.old → OnOk result ((answered : List ADefence)
        × AreAnswered node.now.aim.now node.now.depth node.now.position.now moves.now answered
        × (list.new.items ≡ list.old.items ++ answered)) }
    ensures no_value { (c : AClass) → IsErrOf result (ProbeFault.NoTable c)
        → V.source.held values.old c ≡ false }
    ensures evaluated { HasProbed (within node.now.position.now V.source) values.old result
        values.new }
    ensures no_damage { V.source.is_honest values.old → IfErr result IsNotDamage }
    ensures failures { V.source.failed_of values.new
        ≡ failures_of result (V.source.failed_of values.old) }
    ensures honest { V.source.is_honest values.old → V.source.is_honest values.new }
    ensures tables { (c : AClass) → V.source.held values.new c ≡ V.source.held values.old c }
{
    match moves.split_first() {
        None => Ok(()),
        Some((x, rest)) => {
            let next = played(node.position, x.played);
            let after = NodeContext {
                aim: node.aim,
                depth: node.depth + 1,
                position: &next,
            };
            match holding_moves(&after, values) {
                Err(fault) => Err(fault),
                Ok(answers) => {
                    push_defence(node.position, x, answers.as_slice(), list);
                    push_defences(node, rest, values, list)
                }
            }
        }
    }
}

/// The legal moves that are not in this list, the moves of the tree, each with its answers.
#[inline(never)]
pub fn defences<V: Values>(
    node: &NodeContext<'_>,
    there: &[Move],
    values: &mut V,
) -> Result<ArrayVec<Defence, MAX_MOVES>, ProbeFault>
    requires depth { node.now.depth + 2 < 2 ^ 64 }
    ensures game { V.source.is_honest values.old → IfOk result (λ list. AreDefences
        node.now.aim.now node.now.depth node.now.position.now there.now list.items) }
    ensures no_value { (c : AClass) → IsErrOf result (ProbeFault.NoTable c)
        → V.source.held values.old c ≡ false }
    ensures evaluated { HasProbed (within node.now.position.now V.source) values.old result
        values.new }
    ensures no_damage { V.source.is_honest values.old → IfErr result IsNotDamage }
    ensures failures { V.source.failed_of values.new
        ≡ failures_of result (V.source.failed_of values.old) }
    ensures honest { V.source.is_honest values.old → V.source.is_honest values.new }
    ensures tables { (c : AClass) → V.source.held values.new c ≡ V.source.held values.old c }
    ensures legal { IfOk result (λ list. All (IsPlayed node.now.position.now) list.items) }
{
    match missing_moves(node, there, values) {
        Err(fault) => Err(fault),
        Ok(moves) => {
            let mut list = ArrayVec::new();
            match push_defences(node, moves.as_slice(), values, &mut list) {
                Err(fault) => Err(fault),
                Ok(_) => Ok(list),
            }
        }
    }
}
