//! Moves listed with the values after them.
ghost use Rattle.std.specs.Prelude.{◌≡◌, ◌+◌, ◌++◌, ◌∷◌, [], ◌<◌, ◌≤◌, ◌^◌, true, List, length, is_ok, OnOk, IfOk, IfErr};
ghost use Rattle.std.specs.List.{All};
ghost use Rattle.arrayvec.specs.ArrayVec.{array_vec_len};
ghost use Rattle.study_values.specs.Values.{IsNotDamage};
ghost use Rattle.study_marks.specs.Answers.{WereEvaluated, IsFirstFault};
ghost use Rattle.study_material.specs.declared.class.Class.{Class as AClass};
ghost use Rattle.study_moves.specs.Rules.{is_legal};
ghost use Rattle.study_moves.specs.LegalList.{legal_list};
ghost use Rattle.study_values.specs.declared.value.Value.{Value as AValue};
ghost use Rattle.study_marks.specs.Annotated.{AreValuesAfter};
ghost use Rattle.study_marks.specs.Evaluated.{IsProbeFaultOf, ProbeCount, failures_of};
ghost use Rattle.study_facts.specs.Continuations.{positions_after, is_wanted, if_wanted, wanted_moves, moves_except};
ghost use Rattle.study_facts.specs.Continuations.{AreChosen, AreAlternatives, AreRefutations, AreMissing, AreHoldingMoves, AreDrawingMoves};

use crate::continuation::{EvaluatedMove, MoveFilter, NodeContext, is_wanted};
use crate::move_lists::moves_except;
use arrayvec::ArrayVec;
use study_moves::{MAX_MOVES, Move, legal_moves, played};
use study_values::{ProbeFault, Value, Values};

/// Adds the move with the value after it, if it is wanted.
fn push_if_wanted(
    node: &NodeContext<'_>,
    wanted: MoveFilter,
    m: Move,
    value: Value,
    list: &mut ArrayVec<EvaluatedMove, MAX_MOVES>,
)
    requires depth { node.now.depth + 1 < 2 ^ 64 }
    requires room { array_vec_len list.old < MAX_MOVES }
    ensures items { list.new.items ≡ list.old.items
        ++ if_wanted (is_wanted wanted node.now.aim.now node.now.depth) m value }
    ensures len { array_vec_len list.new ≤ array_vec_len list.old + 1 }
    ensures legal { is_legal node.now.position.now m ≡ true
        → All (λ x. is_legal node.now.position.now x.played ≡ true) list.old.items
        → All (λ x. is_legal node.now.position.now x.played ≡ true) list.new.items }
{
    if is_wanted(wanted, node.aim, node.depth, value) {
        list.push(EvaluatedMove { played: m, value });
    }
}

/// Probes the values after these moves, and adds the wanted ones.
fn push_wanted<V: Values>(
    node: &NodeContext<'_>,
    wanted: MoveFilter,
    moves: &[Move],
    values: &mut V,
    list: &mut ArrayVec<EvaluatedMove, MAX_MOVES>,
) -> Result<(), ProbeFault>
    // Many clauses: callers use each fact of the probes by itself.
    requires depth { node.now.depth + 1 < 2 ^ 64 }
    requires legal { All (λ m. is_legal node.now.position.now m ≡ true) moves.now }
    requires room { array_vec_len list.old + length moves.now ≤ MAX_MOVES }
    requires listed { All (λ x. is_legal node.now.position.now x.played ≡ true) list.old.items }
    ensures listed { All (λ x. is_legal node.now.position.now x.played ≡ true) list.new.items }
    ensures game { V.source.is_honest values.old
        → OnOk result ((all : List AValue) × AreValuesAfter node.now.position.now moves.now all
        × (list.new.items ≡ list.old.items
        ++ wanted_moves (is_wanted wanted node.now.aim.now node.now.depth) moves.now all)) }
    ensures no_value { IfErr result
        (IsProbeFaultOf (V.source.held values.old)
        (positions_after node.now.position.now moves.now)) }
    ensures evaluated { OnOk result
        (WereEvaluated V.source values.old
        (positions_after node.now.position.now moves.now) values.new) }
    ensures first { IfErr result (λ f.
        IsFirstFault V.source values.old
        (positions_after node.now.position.now moves.now) f values.new) }
    ensures no_damage { V.source.is_honest values.old → IfErr result IsNotDamage }
    ensures asked { ProbeCount (length moves.now) (is_ok result) (V.source.asked_of values.old)
        (V.source.asked_of values.new) }
    ensures failures { V.source.failed_of values.new
        ≡ failures_of result (V.source.failed_of values.old) }
    ensures honest { V.source.is_honest values.old → V.source.is_honest values.new }
    ensures tables { (c : AClass) → V.source.held values.new c ≡ V.source.held values.old c }
{
    match moves.split_first() {
        None => Ok(()),
        Some((m, rest)) => {
            let next = played(node.position, *m);
            match values.value(&next) {
                Err(fault) => Err(fault),
                Ok(value) => {
                    push_if_wanted(node, wanted, *m, value, list);
                    push_wanted(node, wanted, rest, values, list)
                }
            }
        }
    }
}

/// The wanted moves among these.
fn wanted_moves<V: Values>(
    node: &NodeContext<'_>,
    wanted: MoveFilter,
    moves: &[Move],
    values: &mut V,
) -> Result<ArrayVec<EvaluatedMove, MAX_MOVES>, ProbeFault>
    // Many clauses: callers use each fact of the probes by itself.
    requires depth { node.now.depth + 1 < 2 ^ 64 }
    requires legal { All (λ m. is_legal node.now.position.now m ≡ true) moves.now }
    requires room { length moves.now ≤ MAX_MOVES }
    ensures game { V.source.is_honest values.old → IfOk result (λ list. AreChosen
        (is_wanted wanted node.now.aim.now node.now.depth)
        node.now.position.now moves.now list.items) }
    ensures no_value { IfErr result
        (IsProbeFaultOf (V.source.held values.old)
        (positions_after node.now.position.now moves.now)) }
    ensures evaluated { OnOk result
        (WereEvaluated V.source values.old
        (positions_after node.now.position.now moves.now) values.new) }
    ensures first { IfErr result (λ f.
        IsFirstFault V.source values.old
        (positions_after node.now.position.now moves.now) f values.new) }
    ensures no_damage { V.source.is_honest values.old → IfErr result IsNotDamage }
    ensures asked { ProbeCount (length moves.now) (is_ok result) (V.source.asked_of values.old)
        (V.source.asked_of values.new) }
    ensures failures { V.source.failed_of values.new
        ≡ failures_of result (V.source.failed_of values.old) }
    ensures honest { V.source.is_honest values.old → V.source.is_honest values.new }
    ensures tables { (c : AClass) → V.source.held values.new c ≡ V.source.held values.old c }
    ensures legal { IfOk result (λ list.
        All (λ x. is_legal node.now.position.now x.played ≡ true) list.items) }
{
    let mut list = ArrayVec::new();
    match push_wanted(node, wanted, moves, values, &mut list) {
        Err(fault) => Err(fault),
        Ok(_) => Ok(list),
    }
}

/// The legal moves after which the position holds.
pub fn holding_moves<V: Values>(
    node: &NodeContext<'_>,
    values: &mut V,
) -> Result<ArrayVec<EvaluatedMove, MAX_MOVES>, ProbeFault>
    // Many clauses: callers use each fact of the probes by itself.
    requires depth { node.now.depth + 1 < 2 ^ 64 }
    ensures game { V.source.is_honest values.old
        → IfOk result (λ list.
        AreHoldingMoves node.now.aim.now node.now.depth node.now.position.now list.items) }
    ensures no_value { IfErr result
        (IsProbeFaultOf (V.source.held values.old)
        (positions_after node.now.position.now (legal_list node.now.position.now))) }
    ensures evaluated { OnOk result (WereEvaluated V.source values.old
        (positions_after node.now.position.now (legal_list node.now.position.now)) values.new) }
    ensures first { IfErr result (λ f. IsFirstFault V.source values.old
        (positions_after node.now.position.now (legal_list node.now.position.now)) f values.new) }
    ensures no_damage { V.source.is_honest values.old → IfErr result IsNotDamage }
    ensures asked { ProbeCount (length (legal_list node.now.position.now)) (is_ok result)
        (V.source.asked_of values.old) (V.source.asked_of values.new) }
    ensures failures { V.source.failed_of values.new
        ≡ failures_of result (V.source.failed_of values.old) }
    ensures honest { V.source.is_honest values.old → V.source.is_honest values.new }
    ensures tables { (c : AClass) → V.source.held values.new c ≡ V.source.held values.old c }
    ensures legal { IfOk result (λ list.
        All (λ x. is_legal node.now.position.now x.played ≡ true) list.items) }
{
    let moves = legal_moves(node.position);
    wanted_moves(node, MoveFilter::Holding, moves.as_slice(), values)
}

/// The legal moves after which the position does not hold.
#[inline(never)]
pub fn refutations<V: Values>(
    node: &NodeContext<'_>,
    values: &mut V,
) -> Result<ArrayVec<EvaluatedMove, MAX_MOVES>, ProbeFault>
    // Many clauses: callers use each fact of the probes by itself.
    requires depth { node.now.depth + 1 < 2 ^ 64 }
    ensures game { V.source.is_honest values.old
        → IfOk result (λ list.
        AreRefutations node.now.aim.now node.now.depth node.now.position.now list.items) }
    ensures no_value { IfErr result
        (IsProbeFaultOf (V.source.held values.old)
        (positions_after node.now.position.now (legal_list node.now.position.now))) }
    ensures evaluated { OnOk result (WereEvaluated V.source values.old
        (positions_after node.now.position.now (legal_list node.now.position.now)) values.new) }
    ensures first { IfErr result (λ f. IsFirstFault V.source values.old
        (positions_after node.now.position.now (legal_list node.now.position.now)) f values.new) }
    ensures no_damage { V.source.is_honest values.old → IfErr result IsNotDamage }
    ensures asked { ProbeCount (length (legal_list node.now.position.now)) (is_ok result)
        (V.source.asked_of values.old) (V.source.asked_of values.new) }
    ensures failures { V.source.failed_of values.new
        ≡ failures_of result (V.source.failed_of values.old) }
    ensures honest { V.source.is_honest values.old → V.source.is_honest values.new }
    ensures tables { (c : AClass) → V.source.held values.new c ≡ V.source.held values.old c }
    ensures legal { IfOk result (λ list.
        All (λ x. is_legal node.now.position.now x.played ≡ true) list.items) }
{
    let moves = legal_moves(node.position);
    wanted_moves(node, MoveFilter::Failing, moves.as_slice(), values)
}

/// The legal moves after which the position is drawn.
#[inline(never)]
pub fn drawing_moves<V: Values>(
    node: &NodeContext<'_>,
    values: &mut V,
) -> Result<ArrayVec<EvaluatedMove, MAX_MOVES>, ProbeFault>
    // Many clauses: callers use each fact of the probes by itself.
    requires depth { node.now.depth + 1 < 2 ^ 64 }
    ensures game { V.source.is_honest values.old
        → IfOk result (λ list. AreDrawingMoves node.now.position.now list.items) }
    ensures no_value { IfErr result
        (IsProbeFaultOf (V.source.held values.old)
        (positions_after node.now.position.now (legal_list node.now.position.now))) }
    ensures evaluated { OnOk result (WereEvaluated V.source values.old
        (positions_after node.now.position.now (legal_list node.now.position.now)) values.new) }
    ensures first { IfErr result (λ f. IsFirstFault V.source values.old
        (positions_after node.now.position.now (legal_list node.now.position.now)) f values.new) }
    ensures no_damage { V.source.is_honest values.old → IfErr result IsNotDamage }
    ensures asked { ProbeCount (length (legal_list node.now.position.now)) (is_ok result)
        (V.source.asked_of values.old) (V.source.asked_of values.new) }
    ensures failures { V.source.failed_of values.new
        ≡ failures_of result (V.source.failed_of values.old) }
    ensures honest { V.source.is_honest values.old → V.source.is_honest values.new }
    ensures tables { (c : AClass) → V.source.held values.new c ≡ V.source.held values.old c }
    ensures legal { IfOk result (λ list.
        All (λ x. is_legal node.now.position.now x.played ≡ true) list.items) }
{
    let moves = legal_moves(node.position);
    wanted_moves(node, MoveFilter::Drawing, moves.as_slice(), values)
}

/// The other legal moves than this one after which the position holds.
pub fn alternatives<V: Values>(
    node: &NodeContext<'_>,
    m: Move,
    values: &mut V,
) -> Result<ArrayVec<EvaluatedMove, MAX_MOVES>, ProbeFault>
    // Many clauses: callers use each fact of the probes by itself.
    requires depth { node.now.depth + 1 < 2 ^ 64 }
    ensures game { V.source.is_honest values.old
        → IfOk result (λ list.
        AreAlternatives node.now.aim.now node.now.depth node.now.position.now m list.items) }
    ensures no_value { IfErr result (IsProbeFaultOf (V.source.held values.old)
        (positions_after node.now.position.now (moves_except (m ∷ []) node.now.position.now))) }
    ensures evaluated { OnOk result (WereEvaluated V.source values.old
        (positions_after node.now.position.now
        (moves_except (m ∷ []) node.now.position.now)) values.new) }
    ensures first { IfErr result (λ f. IsFirstFault V.source values.old
        (positions_after node.now.position.now
        (moves_except (m ∷ []) node.now.position.now)) f values.new) }
    ensures no_damage { V.source.is_honest values.old → IfErr result IsNotDamage }
    ensures asked { ProbeCount (length (moves_except (m ∷ []) node.now.position.now)) (is_ok result)
        (V.source.asked_of values.old)
        (V.source.asked_of values.new) }
    ensures failures { V.source.failed_of values.new
        ≡ failures_of result (V.source.failed_of values.old) }
    ensures honest { V.source.is_honest values.old → V.source.is_honest values.new }
    ensures tables { (c : AClass) → V.source.held values.new c ≡ V.source.held values.old c }
    ensures legal { IfOk result (λ list.
        All (λ x. is_legal node.now.position.now x.played ≡ true) list.items) }
{
    let moves = moves_except(node.position, &[m]);
    wanted_moves(node, MoveFilter::Holding, moves.as_slice(), values)
}

/// The legal moves that are not in this list, the moves of the tree.
pub fn missing_moves<V: Values>(
    node: &NodeContext<'_>,
    there: &[Move],
    values: &mut V,
) -> Result<ArrayVec<EvaluatedMove, MAX_MOVES>, ProbeFault>
    // Many clauses: callers use each fact of the probes by itself.
    requires depth { node.now.depth + 1 < 2 ^ 64 }
    ensures game { V.source.is_honest values.old
        → IfOk result (λ list. AreMissing node.now.position.now there.now list.items) }
    ensures no_value { IfErr result (IsProbeFaultOf (V.source.held values.old)
        (positions_after node.now.position.now (moves_except there.now node.now.position.now))) }
    ensures evaluated { OnOk result (WereEvaluated V.source values.old
        (positions_after node.now.position.now
        (moves_except there.now node.now.position.now)) values.new) }
    ensures first { IfErr result (λ f. IsFirstFault V.source values.old
        (positions_after node.now.position.now
        (moves_except there.now node.now.position.now)) f values.new) }
    ensures no_damage { V.source.is_honest values.old → IfErr result IsNotDamage }
    ensures asked { ProbeCount (length (moves_except there.now node.now.position.now))
        (is_ok result) (V.source.asked_of values.old)
        (V.source.asked_of values.new) }
    ensures failures { V.source.failed_of values.new
        ≡ failures_of result (V.source.failed_of values.old) }
    ensures honest { V.source.is_honest values.old → V.source.is_honest values.new }
    ensures tables { (c : AClass) → V.source.held values.new c ≡ V.source.held values.old c }
    ensures legal { IfOk result (λ list.
        All (λ x. is_legal node.now.position.now x.played ≡ true) list.items) }
{
    let moves = moves_except(node.position, there);
    wanted_moves(node, MoveFilter::All, moves.as_slice(), values)
}
