//! Probing values.
ghost use Rattle.std.specs.Prelude.{◌≡◌, ◌+◌, ◌≤◌, true, List, length, map, is_ok, OnOk, IfOk, IfErr};
ghost use Rattle.std.specs.List.{All};
ghost use Rattle.study_material.specs.declared.class.Class.{Class as AClass};
ghost use Rattle.study_moves.specs.Rules.{is_legal, after};
ghost use Rattle.study_values.specs.declared.value.Value.{Value as AValue};
ghost use Rattle.study_marks.specs.Annotated.{AreValuesAfter};
ghost use Rattle.study_marks.specs.MoveOutcomes.{tally_of, tallies_joined};
ghost use Rattle.study_marks.specs.Queries.{asked_at, AreTablesHeld};
ghost use Rattle.study_marks.specs.Evaluated.{IsEvaluationOf, IsProbeFaultOf, ProbeCount, failures_of};
ghost use Rattle.study_values.specs.Values.{IsNotDamage};
ghost use Rattle.study_values.specs.declared.fault.SourceFault.{SourceFault as ASourceFault};
ghost use Rattle.study_marks.specs.Answers.{IsFirstFault, WereEvaluated};

use crate::move_outcomes::MoveOutcomes;
use crate::node_label::Evaluation;
use study_board::Position;
use study_moves::{MAX_MOVES, Move, legal_moves, played};
use study_values::{ProbeFault, Values};

/// Probes the values after these moves, and adds them to the tally.
fn tally_moves<V: Values>(
    p: &Position,
    moves: &[Move],
    values: &mut V,
    tally: &mut MoveOutcomes,
) -> Result<(), ProbeFault>
    // Many clauses: callers use each fact of the probes by itself.
    requires legal { All (λ m. is_legal p.now m ≡ true) moves.now }
    requires room { length tally.old.mates + tally.old.draws + length moves.now ≤ MAX_MOVES }
    ensures game { V.source.is_honest values.old
        → OnOk result ((all : List AValue) × AreValuesAfter p.now moves.now all
        × (tally.new ≡ tallies_joined tally.old (tally_of all))) }
    ensures no_value { IfErr result
        (IsProbeFaultOf (V.source.held values.old) (map (after p.now) moves.now)) }
    ensures held { OnOk result
        (AreTablesHeld (V.source.held values.old) (map (after p.now) moves.now)) }
    ensures evaluated { OnOk result
        (WereEvaluated V.source values.old (map (after p.now) moves.now) values.new) }
    ensures no_damage { V.source.is_honest values.old → IfErr result IsNotDamage }
    ensures first { IfErr result (λ f.
        IsFirstFault V.source values.old (map (after p.now) moves.now) f values.new) }
    ensures asked { ProbeCount (length moves.now) (is_ok result) (V.source.asked_of values.old)
        (V.source.asked_of values.new) }
    ensures failures { V.source.failed_of values.new
        ≡ failures_of result (V.source.failed_of values.old) }
    ensures honest { V.source.is_honest values.old → V.source.is_honest values.new }
    ensures fails_as_before { (c : AClass) (f : ASourceFault) → V.source.may_fail values.new c f
        → V.source.may_fail values.old c f }
    ensures tables { (c : AClass) → V.source.held values.new c ≡ V.source.held values.old c }
{
    match moves.split_first() {
        None => Ok(()),
        Some((m, rest)) => {
            let next = played(p, *m);
            match values.value(&next) {
                Err(fault) => Err(fault),
                Ok(value) => {
                    tally.add(value);
                    tally_moves(p, rest, values, tally)
                }
            }
        }
    }
}

/// Evaluates a position: its value, and the values after its legal moves.
pub fn evaluate<V: Values>(p: &Position, values: &mut V) -> Result<Evaluation, ProbeFault>
    // Many clauses: callers use each fact of the probes by itself.
    ensures game { V.source.is_honest values.old → IfOk result (IsEvaluationOf p.now) }
    ensures no_value { IfErr result (IsProbeFaultOf (V.source.held values.old) (asked_at p.now)) }
    ensures held { OnOk result (AreTablesHeld (V.source.held values.old) (asked_at p.now)) }
    ensures evaluated { OnOk result (WereEvaluated V.source values.old (asked_at p.now)
        values.new) }
    ensures no_damage { V.source.is_honest values.old → IfErr result IsNotDamage }
    ensures first { IfErr result (λ f.
        IsFirstFault V.source values.old (asked_at p.now) f values.new) }
    ensures asked { ProbeCount (length (asked_at p.now)) (is_ok result)
        (V.source.asked_of values.old) (V.source.asked_of values.new) }
    ensures failures { V.source.failed_of values.new
        ≡ failures_of result (V.source.failed_of values.old) }
    ensures honest { V.source.is_honest values.old → V.source.is_honest values.new }
    ensures fails_as_before { (c : AClass) (f : ASourceFault) → V.source.may_fail values.new c f
        → V.source.may_fail values.old c f }
    ensures tables { (c : AClass) → V.source.held values.new c ≡ V.source.held values.old c }
{
    // (the clauses of `men` say that the position is valid)
    let _men = p.men();
    match values.value(p) {
        Err(fault) => Err(fault),
        Ok(value) => {
            let moves = legal_moves(p);
            let mut tally = MoveOutcomes::new();
            match tally_moves(p, moves.as_slice(), values, &mut tally) {
                Err(fault) => Err(fault),
                Ok(_) => Ok(Evaluation { value, tally }),
            }
        }
    }
}
