//! Evaluations of all nodes, in written order.
ghost use Rattle.std.specs.Prelude.{◌≡◌, ◌+◌, ◌<◌, ◌≤◌, ◌++◌, ◌∷◌, [], List, OnOk, IfOk, IfErr, length, is_ok, vec_len, vec_capacity};
ghost use Rattle.study_material.specs.declared.class.Class.{Class as AClass};
ghost use Rattle.study_tree.specs.Tree.{plain_tree};
ghost use Rattle.study_marks.specs.declared.node_label.Evaluation.{Evaluation as AnEvaluation};
ghost use Rattle.study_marks.specs.Study.{IsPlayable};
ghost use Rattle.study_marks.specs.Queries.{asked_at, asked_below, AreTablesHeld, IsOutside, HasAsked, failures_after};
ghost use Rattle.study_values.specs.Values.{IsNotDamage};
ghost use Rattle.study_values.specs.declared.fault.SourceFault.{SourceFault as ASourceFault};
ghost use Rattle.study_marks.specs.Answers.{IsUndamaged, WereEvaluated, IsFirstFault, TellsFirstFault};
ghost use Rattle.study_marks.specs.Evaluated.{IsEvaluationOf, AllAreEvaluated, IsProbeFaultOf, ProbeCount, failures_of};
ghost use Rattle.study_marks.specs.BenchState.{evaluation_tree};
ghost use Rattle.study_marks.specs.Relabelled.{positions_in, asked_each, AreEvaluationsOf, reevaluated_tree};

use crate::evaluate::evaluate;
use crate::node_label::{Evaluation, NodeLabel};
use crate::refusal::Refusal;
use std::alloc::{AllocError, Allocator};
use study_board::Position;
use study_moves::played;
use study_tree::{Subtree, Tree};
use study_values::{ProbeFault, Values};

/// Appends a position to the list.
fn push_position<'a, A: Allocator>(
    all: &mut Vec<Position, &'a A>,
    position: &Position,
) -> Result<(), AllocError>
    ensures { OnOk result (all.new.items ≡ all.old.items ++ position.now ∷ []) }
{
    match all.push(position.copied()) {
        Err(_) => Err(AllocError),
        Ok(_) => Ok(()),
    }
}

/// Lists the positions of all nodes below the node, which has this position, in written order.
fn list_positions_below<'t, 'a, A: Allocator>(
    node: &Subtree<'t, 'a, NodeLabel, A>,
    position: &Position,
    all: &mut Vec<Position, &'a A>,
) -> Result<(), AllocError>
    requires playable { IsPlayable position.now node.now.below }
    ensures listed { OnOk result
        (all.new.items ≡ all.old.items ++ positions_in position.now node.now.below) }
{
    let count = node.width();
    let mut place = 0u16;
    while place < count {
        let Some(child) = node.child(place) else {
            unreachable!()
        };
        let next = played(position, child.played);
        push_position(all, &next)?;
        list_positions_below(&child.node, &next, all)?;
        place += 1;
    }
    Ok(())
}

/// The positions of all nodes in written order; this is the root's.
fn list_positions<'a, A: Allocator>(
    alloc: &'a A,
    tree: &Tree<'a, NodeLabel, A>,
    position: &Position,
) -> Result<Vec<Position, &'a A>, AllocError>
    requires playable { IsPlayable position.now (plain_tree tree.now).below }
    ensures { IfOk result (λ all.
        all.items ≡ position.now ∷ positions_in position.now (plain_tree tree.now).below) }
{
    let mut all = Vec::with_capacity(alloc, tree.size())?;
    push_position(&mut all, position)?;
    list_positions_below(&tree.root(), position, &mut all)?;
    Ok(all)
}

/// Evaluates a position and appends the result; the list must have room.
fn evaluate_one<'a, A: Allocator, V: Values>(
    p: &Position,
    values: &mut V,
    all: &mut Vec<Evaluation, &'a A>,
) -> Result<(), ProbeFault>
    // Many clauses: callers use each fact of the probes by itself.
    requires room { vec_len all.old < vec_capacity all.old }
    ensures game { V.source.is_honest values.old
        → OnOk result ((t : AnEvaluation) × IsEvaluationOf p.now t
        × (all.new.items ≡ all.old.items ++ t ∷ [])) }
    ensures no_value { IfErr result (IsProbeFaultOf (V.source.held values.old) (asked_at p.now)) }
    ensures held { OnOk result (AreTablesHeld (V.source.held values.old) (asked_at p.now)) }
    ensures evaluated { OnOk result (WereEvaluated V.source values.old (asked_at p.now)
        values.new) }
    ensures no_damage { V.source.is_honest values.old → IfErr result IsNotDamage }
    ensures first { IfErr result (λ f.
        IsFirstFault V.source values.old (asked_at p.now) f values.new) }
    ensures asked { ProbeCount (length (asked_at p.now)) (is_ok result)
        (V.source.asked_of values.old) (V.source.asked_of values.new) }
    ensures failures { V.source.failed_of values.new
        ≡ failures_of result (V.source.failed_of values.old) }
    ensures honest { V.source.is_honest values.old → V.source.is_honest values.new }
    ensures fails_as_before { (c : AClass) (f : ASourceFault) → V.source.may_fail values.new c f
        → V.source.may_fail values.old c f }
    ensures tables { (c : AClass) → V.source.held values.new c ≡ V.source.held values.old c }
    ensures len { OnOk result (vec_len all.new ≡ vec_len all.old + 1) }
    ensures capacity { vec_capacity all.new ≡ vec_capacity all.old }
{
    let evaluated = evaluate(p, values)?;
    all.push_reserved(evaluated);
    Ok(())
}

/// Evaluates these positions, one after the other; the list must have room for all.
fn evaluate_positions<'a, A: Allocator, V: Values>(
    positions: &[Position],
    values: &mut V,
    all: &mut Vec<Evaluation, &'a A>,
) -> Result<(), ProbeFault>
    // Many clauses: callers use each fact of the probes by itself.
    requires room { vec_len all.old + length positions.now ≤ vec_capacity all.old }
    ensures game { V.source.is_honest values.old
        → OnOk result ((evaluated : List AnEvaluation) × AreEvaluationsOf positions.now evaluated
        × (all.new.items ≡ all.old.items ++ evaluated)) }
    ensures no_value { IfErr result
        (IsProbeFaultOf (V.source.held values.old) (asked_each positions.now)) }
    ensures held { OnOk result
        (AreTablesHeld (V.source.held values.old) (asked_each positions.now)) }
    ensures no_damage { V.source.is_honest values.old → IfErr result IsNotDamage }
    ensures first { IfErr result (λ f.
        IsFirstFault V.source values.old (asked_each positions.now) f values.new) }
    ensures asked { ProbeCount (length (asked_each positions.now)) (is_ok result)
        (V.source.asked_of values.old) (V.source.asked_of values.new) }
    ensures failures { V.source.failed_of values.new
        ≡ failures_of result (V.source.failed_of values.old) }
    ensures honest { V.source.is_honest values.old → V.source.is_honest values.new }
    ensures fails_as_before { (c : AClass) (f : ASourceFault) → V.source.may_fail values.new c f
        → V.source.may_fail values.old c f }
    ensures tables { (c : AClass) → V.source.held values.new c ≡ V.source.held values.old c }
{
    for p in positions {
        evaluate_one(p, values, all)?;
    }
    Ok(())
}

/// Evaluates all nodes of the tree, whose root has this position, in written order. All memory is allocated before the first value is probed.
pub fn evaluate_all<'a, A: Allocator, V: Values>(
    alloc: &'a A,
    tree: &Tree<'a, NodeLabel, A>,
    position: &Position,
    values: &mut V,
) -> Result<Vec<Evaluation, &'a A>, Refusal<'a, A>>
    // Many clauses: callers use each fact of the probes by itself.
    requires playable { IsPlayable position.now (plain_tree tree.now).below }
    ensures game { V.source.is_honest values.old → IfOk result (λ all.
        AllAreEvaluated position.now
        (reevaluated_tree all.items (evaluation_tree (plain_tree tree.now)))) }
    ensures refusal { IfErr result
        (IsOutside (V.source.held values.old)
        (asked_at position.now ++ asked_below position.now (plain_tree tree.now).below)) }
    ensures no_damage { V.source.is_honest values.old → IfErr result IsUndamaged }
    ensures first { IfErr result (TellsFirstFault V.source values.old
        (asked_at position.now
        ++ asked_below position.now (plain_tree tree.now).below) values.new) }
    ensures found { OnOk result
        (AreTablesHeld (V.source.held values.old)
        (asked_at position.now ++ asked_below position.now (plain_tree tree.now).below)) }
    ensures asked { HasAsked
        (length (asked_at position.now
        ++ asked_below position.now (plain_tree tree.now).below)) result
        (V.source.asked_of values.old) (V.source.asked_of values.new) }
    ensures failures { V.source.failed_of values.new
        ≡ failures_after result (V.source.failed_of values.old) }
    ensures honest { V.source.is_honest values.old → V.source.is_honest values.new }
    ensures fails_as_before { (c : AClass) (f : ASourceFault) → V.source.may_fail values.new c f
        → V.source.may_fail values.old c f }
    ensures tables { (c : AClass) → V.source.held values.new c ≡ V.source.held values.old c }
{
    let positions = match list_positions(alloc, tree, position) {
        Err(_) => return Err(Refusal::OutOfMemory),
        Ok(positions) => positions,
    };
    let mut all = match Vec::with_capacity(alloc, positions.len()) {
        Err(_) => return Err(Refusal::OutOfMemory),
        Ok(all) => all,
    };
    evaluate_positions(positions.as_slice(), values, &mut all)?;
    Ok(all)
}
