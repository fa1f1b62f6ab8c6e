//! The legal moves of a position with the values after them, probed once and read for all lines of the position.
ghost use Rattle.std.specs.Prelude.{◌≡◌, ◌+◌, ◌≤◌, ◌++◌, ◌∷◌, [], true, length, vec_len, OnOk, IfOk};
ghost use Rattle.std.specs.List.{All};
ghost use Rattle.study_moves.specs.Rules.{is_legal, after};
ghost use Rattle.study_moves.specs.LegalList.{legal_list};
ghost use Rattle.study_values.specs.Game.{IsValueOf};
ghost use Rattle.study_values.specs.declared.value.Value.{Value as AValue};
ghost use Rattle.study_facts.specs.Asked.{within};
ghost use Rattle.study_facts.specs.Continuations.{AreChosen};
ghost use Rattle.study_facts.specs.Made.{HasAsked};
ghost use Rattle.study_review.specs.NodeFacts.{AreReported};

use std::alloc::Allocator;
use study_board::Position;
use study_facts::{EvaluatedMove, TextFault};
use study_moves::{MAX_MOVES, Move, legal_moves, played};
use study_values::{Value, Values};

/// The value of a position.
pub fn value_of<V: Values>(q: &Position, values: &mut V) -> Result<Value, TextFault>
    ensures game { V.source.is_honest values.old → IfOk result (IsValueOf q.now) }
    ensures asked { HasAsked (within q.now V.source) values.old result values.new }
{
    // (the clauses of `men` say that the position is valid)
    let _men = q.men();
    match values.value(q) {
        Err(fault) => Err(TextFault::NoValue(fault)),
        Ok(value) => Ok(value),
    }
}

/// Adds a move with the value after it.
fn push_evaluated<'a, A: Allocator, V: Values>(
    p: &Position,
    m: &Move,
    values: &mut V,
    evaluated: &mut Vec<EvaluatedMove, &'a A>,
) -> Result<(), TextFault>
    requires { is_legal p.now m.now ≡ true }
    ensures game { V.source.is_honest values.old
        → OnOk result ((v : AValue) × IsValueOf (after p.now m.now) v
        × (evaluated.new.items ≡ evaluated.old.items
        ++ (record { played = m.now; value = v }) ∷ [])) }
    ensures legal { All (λ x. is_legal p.now x.played ≡ true) evaluated.old.items
        → OnOk result (All (λ x. is_legal p.now x.played ≡ true) evaluated.new.items) }
    ensures len { OnOk result (vec_len evaluated.new ≡ vec_len evaluated.old + 1) }
    ensures asked { HasAsked (within p.now V.source) values.old result values.new }
{
    let next = played(p, *m);
    let value = value_of(&next, values)?;
    evaluated.push(EvaluatedMove { played: *m, value })?;
    Ok(())
}

/// Adds these moves with the values after them.
fn evaluate_moves<'a, A: Allocator, V: Values>(
    p: &Position,
    moves: &[Move],
    values: &mut V,
    evaluated: &mut Vec<EvaluatedMove, &'a A>,
) -> Result<(), TextFault>
    requires moves { All (λ m. is_legal p.now m ≡ true) moves.now }
    requires legal { All (λ x. is_legal p.now x.played ≡ true) evaluated.old.items }
    ensures game { V.source.is_honest values.old
        → OnOk result (AreReported p.now moves.now evaluated.old.items evaluated.new.items) }
    ensures legal { OnOk result (All (λ x. is_legal p.now x.played ≡ true) evaluated.new.items) }
    ensures len { OnOk result (vec_len evaluated.new ≡ vec_len evaluated.old + length moves.now) }
    ensures asked { HasAsked (within p.now V.source) values.old result values.new }
{
    match moves.split_first() {
        None => Ok(()),
        Some((m, rest)) => {
            push_evaluated(p, m, values, evaluated)?;
            evaluate_moves(p, rest, values, evaluated)
        }
    }
}

/// The legal moves of the position with the values after them, in place of those of the position before.
pub fn evaluate_legal_moves<'a, A: Allocator, V: Values>(
    p: &Position,
    values: &mut V,
    evaluated: &mut Vec<EvaluatedMove, &'a A>,
) -> Result<(), TextFault>
    ensures game { V.source.is_honest values.old
        → OnOk result (AreChosen (λ v. true) p.now (legal_list p.now) evaluated.new.items) }
    ensures legal { OnOk result (All (λ x. is_legal p.now x.played ≡ true) evaluated.new.items) }
    ensures all { OnOk result (length evaluated.new.items ≡ length (legal_list p.now)) }
    ensures few { OnOk result (length evaluated.new.items ≤ MAX_MOVES) }
    ensures asked { HasAsked (within p.now V.source) values.old result values.new }
{
    evaluated.clear();
    let moves = legal_moves(p);
    evaluate_moves(p, moves.as_slice(), values, evaluated)
}
