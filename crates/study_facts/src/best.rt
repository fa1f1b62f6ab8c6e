//! Best play.
ghost use Rattle.std.specs.Prelude.{◌≡◌, ◌+◌, ◌++◌, ◌≤◌, true, List, length, map, is_ok, OnOk, IfOk, IfErr, IfSome, IfNone, IsErrOf, false};
ghost use Rattle.std.specs.List.{All};
ghost use Rattle.arrayvec.specs.ArrayVec.{array_vec_len};
ghost use Rattle.study_values.specs.Values.{IsNotDamage};
ghost use Rattle.study_marks.specs.Answers.{WereEvaluated, IsFirstFault};
ghost use Rattle.study_facts.specs.Asked.{HasProbed, within};
ghost use Rattle.study_material.specs.declared.class.Class.{Class as AClass};
ghost use Rattle.study_moves.specs.Rules.{is_legal, after};
ghost use Rattle.study_moves.specs.LegalList.{legal_list};
ghost use Rattle.study_marks.specs.Evaluated.{IsProbeFaultOf, ProbeCount, failures_of};
ghost use Rattle.study_facts.specs.declared.continuation.EvaluatedMove.{EvaluatedMove as AContinuation};
ghost use Rattle.study_facts.specs.Continuations.{AreChosen};
ghost use Rattle.study_facts.specs.Best.{is_better, better_of, first_best, IsBestMove, IsBestPlay, IsFirstBestMove};
ghost use Rattle.study_moves.specs.Game.{HasNoMove};
ghost use Rattle.study_facts.specs.Play.{ArePlayed};

use crate::continuation::EvaluatedMove;
use arrayvec::ArrayVec;
use study_board::Position;
use study_moves::{Move, legal_moves, played, values_are_unique};
use study_values::{ProbeFault, Value, Values};

/// Whether the first of two values after moves is better for the side that made them.
fn is_better(v: Value, w: Value) -> bool
    ensures { result ≡ is_better v w }
{
    match (v, w) {
        (Value::Loss(n), Value::Loss(k)) => n < k,
        (Value::Loss(_), _) => true,
        (Value::Draw, Value::Win(_)) => true,
        (Value::Win(n), Value::Win(k)) => k < n,
        _ => false,
    }
}

/// The move, unless the best of the later ones is better.
pub fn better_of(x: EvaluatedMove, later: Option<EvaluatedMove>) -> EvaluatedMove
    ensures { result ≡ better_of x later }
{
    match later {
        None => x,
        Some(y) => { if is_better(y.value, x.value) { y } else { x } }
    }
}

/// The first of these moves with the best value.
fn best_among<V: Values>(
    p: &Position,
    moves: &[Move],
    values: &mut V,
) -> Result<Option<EvaluatedMove>, ProbeFault>
    // Many clauses: callers use each fact of the probes by itself.
    requires { All (λ m. is_legal p.now m ≡ true) moves.now }
    ensures game { V.source.is_honest values.old → IfOk result (λ best. (list : List AContinuation)
        × AreChosen (λ v. true) p.now moves.now list × (best ≡ first_best list)) }
    ensures no_value { IfErr result
        (IsProbeFaultOf (V.source.held values.old) (map (after p.now) moves.now)) }
    ensures evaluated { OnOk result
        (WereEvaluated V.source values.old (map (after p.now) moves.now) values.new) }
    ensures first { IfErr result (λ f.
        IsFirstFault V.source values.old (map (after p.now) moves.now) f values.new) }
    ensures no_damage { V.source.is_honest values.old → IfErr result IsNotDamage }
    ensures asked { ProbeCount (length moves.now) (is_ok result) (V.source.asked_of values.old)
        (V.source.asked_of values.new) }
    ensures failures { V.source.failed_of values.new
        ≡ failures_of result (V.source.failed_of values.old) }
    ensures honest { V.source.is_honest values.old → V.source.is_honest values.new }
    ensures tables { (c : AClass) → V.source.held values.new c ≡ V.source.held values.old c }
    ensures legal { IfOk result (λ best. IfSome best (λ x. is_legal p.now x.played ≡ true)) }
{
    match moves.split_first() {
        None => Ok(None),
        Some((m, rest)) => {
            let next = played(p, *m);
            match values.value(&next) {
                Err(fault) => Err(fault),
                Ok(value) => match best_among(p, rest, values) {
                    Err(fault) => Err(fault),
                    Ok(later) => {
                        let first = EvaluatedMove { played: *m, value };
                        Ok(Some(better_of(first, later)))
                    }
                },
            }
        }
    }
}

/// The first legal move with the best value, `None` if there is no legal move.
pub fn best_move<V: Values>(
    p: &Position,
    values: &mut V,
) -> Result<Option<EvaluatedMove>, ProbeFault>
    // Many clauses: callers use each fact of the probes by itself.
    ensures game { V.source.is_honest values.old → IfOk result (IsBestMove p.now) }
    ensures best { V.source.is_honest values.old
        → IfOk result (λ best. IfSome best (IsFirstBestMove p.now)) }
    ensures none { V.source.is_honest values.old
        → IfOk result (λ best. IfNone best (HasNoMove p.now)) }
    ensures no_value { IfErr result
        (IsProbeFaultOf (V.source.held values.old) (map (after p.now) (legal_list p.now))) }
    ensures evaluated { OnOk result
        (WereEvaluated V.source values.old (map (after p.now) (legal_list p.now)) values.new) }
    ensures first { IfErr result (λ f.
        IsFirstFault V.source values.old (map (after p.now) (legal_list p.now)) f values.new) }
    ensures no_damage { V.source.is_honest values.old → IfErr result IsNotDamage }
    ensures asked { ProbeCount (length (legal_list p.now)) (is_ok result)
        (V.source.asked_of values.old) (V.source.asked_of values.new) }
    ensures failures { V.source.failed_of values.new
        ≡ failures_of result (V.source.failed_of values.old) }
    ensures honest { V.source.is_honest values.old → V.source.is_honest values.new }
    ensures tables { (c : AClass) → V.source.held values.new c ≡ V.source.held values.old c }
    ensures legal { IfOk result (λ best. IfSome best (λ x. is_legal p.now x.played ≡ true)) }
{
    values_are_unique();
    let moves = legal_moves(p);
    best_among(p, moves.as_slice(), values)
}

/// Adds best play of at most so many plies.
pub fn play_on<V: Values>(
    p: &Position,
    plies: u8,
    values: &mut V,
    list: &mut ArrayVec<EvaluatedMove, 20>,
) -> Result<(), ProbeFault>
    requires { array_vec_len list.old + plies ≤ 20 }
    ensures game { V.source.is_honest values.old → OnOk result ((play : List AContinuation)
        × IsBestPlay plies p.now play × (list.new.items ≡ list.old.items ++ play)) }
    ensures no_value { (c : AClass) → IsErrOf result (ProbeFault.NoTable c)
        → V.source.held values.old c ≡ false }
    ensures evaluated { HasProbed (within p.now V.source) values.old result values.new }
    ensures no_damage { V.source.is_honest values.old → IfErr result IsNotDamage }
    ensures failures { V.source.failed_of values.new
        ≡ failures_of result (V.source.failed_of values.old) }
    ensures honest { V.source.is_honest values.old → V.source.is_honest values.new }
    ensures tables { (c : AClass) → V.source.held values.new c ≡ V.source.held values.old c }
    ensures legal { OnOk result ((play : List AContinuation) × ArePlayed p.now play
        × (list.new.items ≡ list.old.items ++ play)) }
{
    if plies == 0 {
        return Ok(());
    }
    match best_move(p, values) {
        Err(fault) => Err(fault),
        Ok(None) => Ok(()),
        Ok(Some(best)) => {
            let next = played(p, best.played);
            list.push(best);
            play_on(&next, plies - 1, values, list)
        }
    }
}

/// Best play of at most 20 plies, up to a position without legal moves.
#[inline(never)]
pub fn best_play<V: Values>(
    p: &Position,
    values: &mut V,
) -> Result<ArrayVec<EvaluatedMove, 20>, ProbeFault>
    ensures game { V.source.is_honest values.old
        → IfOk result (λ list. IsBestPlay 20 p.now list.items) }
    ensures no_value { (c : AClass) → IsErrOf result (ProbeFault.NoTable c)
        → V.source.held values.old c ≡ false }
    ensures evaluated { HasProbed (within p.now V.source) values.old result values.new }
    ensures no_damage { V.source.is_honest values.old → IfErr result IsNotDamage }
    ensures failures { V.source.failed_of values.new
        ≡ failures_of result (V.source.failed_of values.old) }
    ensures honest { V.source.is_honest values.old → V.source.is_honest values.new }
    ensures tables { (c : AClass) → V.source.held values.new c ≡ V.source.held values.old c }
    ensures legal { IfOk result (λ list. ArePlayed p.now list.items) }
{
    let mut list = ArrayVec::new();
    match play_on(p, 20, values, &mut list) {
        Err(fault) => Err(fault),
        Ok(_) => Ok(list),
    }
}
