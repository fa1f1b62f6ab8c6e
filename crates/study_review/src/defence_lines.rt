//! Missing defences, each with its answers.
ghost use Rattle.std.specs.Prelude.{◌≡◌, ◌+◌, ◌++◌, ◌≤◌, ◌<◌, ◌^◌, ◌==◌, if◌then◌else◌, true, length, Some, None, OnOk, IfOk, IfSome};
ghost use Rattle.std.specs.List.{All};
ghost use Rattle.study_moves.specs.Rules.{is_legal, after};
ghost use Rattle.study_facts.specs.Asked.{within};
ghost use Rattle.study_facts.specs.declared.missing_defences.Defence.{Defence as ADefence};
ghost use Rattle.study_marks.specs.Goals.{holds};
ghost use Rattle.study_facts.specs.Defences.{IsAnswered};
ghost use Rattle.study_facts.specs.Made.{Grew, HasAsked};
ghost use Rattle.study_review.specs.NodeFacts.{AreAnswers, AreMissingLines};
ghost use Rattle.study_facts.specs.Words.{missing_line};

use crate::lines::add_missing_line;
use crate::probe::value_of;
use std::alloc::Allocator;
use study_facts::{Defence, EvaluatedMove, NodeContext, TextFault, contains_move};
use study_marks::holds;
use study_moves::{MAX_MOVES, Move, legal_moves, played};
use study_text::Text;
use study_values::Values;

/// The number of moves that hold, and the move if it is the only one.
#[derive(Clone, Copy)]
pub struct Answers {
    pub count: u16,
    pub only: Option<Move>,
}

/// The answers with one more move that holds, before these.
fn with_one_more(m: Move, later: Answers) -> Answers
    requires { later.count + 1 < 2 ^ 16 }
    ensures count { result.count ≡ later.count + 1 }
    ensures only { result.only ≡ (if later.count == 0 then Some m else None) }
{
    let only = if later.count == 0 { Some(m) } else { None };
    Answers {
        count: later.count + 1,
        only,
    }
}

/// The answers among these moves: those after which the position holds.
fn answers_among<V: Values>(
    node: &NodeContext<'_>,
    moves: &[Move],
    values: &mut V,
) -> Result<Answers, TextFault>
    requires depth { node.now.depth + 1 < 2 ^ 64 }
    requires legal { All (λ m. is_legal node.now.position.now m ≡ true) moves.now }
    requires few { length moves.now ≤ MAX_MOVES }
    ensures game { V.source.is_honest values.old
        → IfOk result (λ y.
        AreAnswers node.now.aim.now node.now.depth node.now.position.now moves.now y) }
    ensures few { IfOk result (λ y. y.count ≤ length moves.now) }
    ensures legal { IfOk result (λ y.
        IfSome y.only (λ m. is_legal node.now.position.now m ≡ true)) }
    ensures asked { HasAsked (within node.now.position.now V.source) values.old result values.new }
{
    match moves.split_first() {
        None => Ok(Answers {
            count: 0,
            only: None,
        }),
        Some((m, rest)) => {
            let next = played(node.position, *m);
            let value = value_of(&next, values)?;
            let later = answers_among(node, rest, values)?;
            if holds(node.aim, node.depth + 1, value) {
                Ok(with_one_more(*m, later))
            } else {
                Ok(later)
            }
        }
    }
}

/// A line for a defence, with its answers.
fn add_defence<A: Allocator, V: Values>(
    text: &mut Text<'_, A>,
    steps: &[u16],
    node: &NodeContext<'_>,
    x: &EvaluatedMove,
    values: &mut V,
) -> Result<(), TextFault>
    requires depth { node.now.depth + 2 < 2 ^ 64 }
    requires legal { is_legal node.now.position.now x.now.played ≡ true }
    ensures text { V.source.is_honest values.old
        → OnOk result ((y : ADefence) × (y.played ≡ x.now.played) × (y.value ≡ x.now.value)
        × IsAnswered node.now.aim.now (node.now.depth + 1)
        (after node.now.position.now x.now.played) y
        × (text.new ≡ text.old ++ missing_line steps.now node.now.position.now y)) }
    ensures asked { HasAsked (within node.now.position.now V.source) values.old result values.new }
{
    let next = played(node.position, x.played);
    let after = NodeContext {
        aim: node.aim,
        depth: node.depth + 1,
        position: &next,
    };
    let moves = legal_moves(&next);
    let answers = answers_among(&after, moves.as_slice(), values)?;
    let y = Defence {
        played: x.played,
        value: x.value,
        answers: answers.count,
        only: answers.only,
    };
    add_missing_line(text, steps, node.position, &y)?;
    Ok(())
}

/// A line for each of these moves that is not in the tree.
pub fn add_defences<A: Allocator, V: Values>(
    text: &mut Text<'_, A>,
    steps: &[u16],
    node: &NodeContext<'_>,
    there: &[Move],
    evaluated: &[EvaluatedMove],
    values: &mut V,
) -> Result<(), TextFault>
    requires depth { node.now.depth + 2 < 2 ^ 64 }
    requires legal { All (λ x. is_legal node.now.position.now x.played ≡ true) evaluated.now }
    ensures text { V.source.is_honest values.old
        → OnOk result
        (Grew (AreMissingLines steps.now node.now.aim.now node.now.depth node.now.position.now
        there.now evaluated.now) text.old text.new) }
    ensures asked { HasAsked (within node.now.position.now V.source) values.old result values.new }
{
    match evaluated.split_first() {
        None => Ok(()),
        Some((x, rest)) => {
            if contains_move(&x.played, there) {
                return add_defences(text, steps, node, there, rest, values);
            }
            add_defence(text, steps, node, x, values)?;
            add_defences(text, steps, node, there, rest, values)
        }
    }
}
