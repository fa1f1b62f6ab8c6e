//! The lines of a node: refutations, missing defences, and the play after an end of the tree.
ghost use Rattle.std.specs.Prelude.{◌≡◌, ◌++◌, Option, ◌+◌, ◌^◌, ◌<◌, true, length, OnOk};
ghost use Rattle.std.specs.List.{All};
ghost use Rattle.study_moves.specs.Rules.{is_legal};
ghost use Rattle.study_moves.specs.LegalList.{legal_list};
ghost use Rattle.study_marks.specs.BenchState.{marked_study};
ghost use Rattle.study_facts.specs.Asked.{within};
ghost use Rattle.study_facts.specs.Continuations.{AreChosen};
ghost use Rattle.study_facts.specs.Made.{Grew, HasAsked};
ghost use Rattle.study_facts.specs.Nodes.{RefutedLines, MissingLines, EndLines, is_stalemate, refuted_text};
ghost use Rattle.study_facts.specs.StudyNode.{IsStudyNode};
ghost use Rattle.study_review.specs.NodeFacts.{OwnLines, HereLines, failing_moves};
ghost use Rattle.study_facts.specs.Zugzwang.{IsZugzwangOf, zugzwang_line};
ghost use Rattle.study_facts.specs.declared.zugzwang.Zugzwang.{Zugzwang as AZugzwang};

use crate::best_play_lines::add_best_play_or_draws;
use crate::defence_lines::add_defences;
use crate::lines::{add_refuted_lines, add_stalemate};
use crate::probe::evaluate_legal_moves;
use std::alloc::{AllocError, Allocator};
use study_board::Position;
use study_facts::{
    EvaluatedMove, NodeContext, StudyNode, TextFault, add_zugzwang_line, children_in, zugzwang_at,
};
use study_marks::Bench;
use study_moves::in_check;
use study_text::Text;
use study_values::Values;

#[tactic(auto, unfolding(study_facts::specs::Nodes::is_stalemate))]
fn is_stalemate(q: &Position, evaluated: &[EvaluatedMove]) -> bool
    requires { length evaluated.now ≡ length (legal_list q.now) }
    ensures { result ≡ is_stalemate q.now }
{
    evaluated.is_empty() && !in_check(q)
}

/// A line for each of these moves that refutes, or the line that the move to the node stalemates.
fn add_refutations<A: Allocator>(
    text: &mut Text<'_, A>,
    steps: &[u16],
    node: &NodeContext<'_>,
    evaluated: &[EvaluatedMove],
) -> Result<(), AllocError>
    requires depth { node.now.depth + 1 < 2 ^ 64 }
    requires legal { All (λ x. is_legal node.now.position.now x.played ≡ true) evaluated.now }
    requires all { length evaluated.now ≡ length (legal_list node.now.position.now) }
    ensures { OnOk result (text.new ≡ text.old
        ++ refuted_text steps.now node.now.position.now
        (failing_moves node.now.aim.now node.now.depth evaluated.now)) }
{
    if is_stalemate(node.position, evaluated) {
        return add_stalemate(text, steps);
    }
    add_refuted_lines(text, steps, node, evaluated)
}

/// The refutations of a try.
fn add_refuted<'b, A: Allocator, B: Allocator>(
    text: &mut Text<'_, A>,
    bench: &Bench<'b, B>,
    here: &StudyNode<'_>,
    evaluated: &[EvaluatedMove],
) -> Result<(), AllocError>
    requires here { IsStudyNode (marked_study bench.now) here.now }
    requires legal { All (λ x. is_legal here.now.node.position.now x.played ≡ true) evaluated.now }
    requires all { length evaluated.now ≡ length (legal_list here.now.node.position.now) }
    ensures { AreChosen (λ v. true) here.now.node.position.now
        (legal_list here.now.node.position.now) evaluated.now
        → OnOk result
        (Grew (RefutedLines (marked_study bench.now) here.now.steps.now) text.old text.new) }
{
    if !here.tried {
        return Ok(());
    }
    add_refutations(text, here.steps, &here.node, evaluated)
}

/// The lines of the missing defences.
fn add_missing<'a, 'b, A: Allocator, B: Allocator, V: Values>(
    alloc: &'a A,
    text: &mut Text<'_, A>,
    bench: &Bench<'b, B>,
    here: &StudyNode<'_>,
    evaluated: &[EvaluatedMove],
    values: &mut V,
) -> Result<(), TextFault>
    requires here { IsStudyNode (marked_study bench.now) here.now }
    requires legal { All (λ x. is_legal here.now.node.position.now x.played ≡ true) evaluated.now }
    ensures text { AreChosen (λ v.
        true) here.now.node.position.now (legal_list here.now.node.position.now) evaluated.now
        → V.source.is_honest values.old
        → OnOk result
        (Grew (MissingLines (marked_study bench.now) here.now.steps.now) text.old text.new) }
    ensures asked { HasAsked (within here.now.node.position.now V.source)
        values.old result values.new }
{
    if !here.is_defended() {
        return Ok(());
    }
    match children_in(alloc, bench, here.steps)? {
        None => Ok(()),
        Some(there) => add_defences(
            text,
            here.steps,
            &here.node,
            there.as_slice(),
            evaluated,
            values,
        ),
    }
}

/// The line of the play after an end of the tree.
fn add_end<'b, A: Allocator, B: Allocator, V: Values>(
    text: &mut Text<'_, A>,
    bench: &Bench<'b, B>,
    here: &StudyNode<'_>,
    evaluated: &[EvaluatedMove],
    values: &mut V,
) -> Result<(), TextFault>
    requires here { IsStudyNode (marked_study bench.now) here.now }
    requires legal { All (λ x. is_legal here.now.node.position.now x.played ≡ true) evaluated.now }
    requires all { length evaluated.now ≡ length (legal_list here.now.node.position.now) }
    requires few { length evaluated.now < 2 ^ 32 }
    ensures text { AreChosen (λ v.
        true) here.now.node.position.now (legal_list here.now.node.position.now) evaluated.now
        → V.source.is_honest values.old
        → OnOk result (Grew (EndLines (marked_study bench.now) here.now.steps.now) text.old
        text.new) }
    ensures asked { HasAsked (within here.now.node.position.now V.source)
        values.old result values.new }
{
    if !here.is_open_end() {
        return Ok(());
    }
    add_best_play_or_draws(
        text,
        here.steps,
        here.node.position,
        here.value,
        evaluated,
        values,
    )
}

/// The lines of a node from the values after its legal moves.
fn add_reported<'a, 'b, A: Allocator, B: Allocator, V: Values>(
    alloc: &'a A,
    text: &mut Text<'_, A>,
    bench: &Bench<'b, B>,
    here: &StudyNode<'_>,
    evaluated: &[EvaluatedMove],
    values: &mut V,
) -> Result<(), TextFault>
    // Many clauses: one for each group of lines, and those of the probes.
    requires here { IsStudyNode (marked_study bench.now) here.now }
    requires legal { All (λ x. is_legal here.now.node.position.now x.played ≡ true) evaluated.now }
    requires all { length evaluated.now ≡ length (legal_list here.now.node.position.now) }
    requires few { length evaluated.now < 2 ^ 32 }
    ensures text { AreChosen (λ v.
        true) here.now.node.position.now (legal_list here.now.node.position.now) evaluated.now
        → V.source.is_honest values.old
        → OnOk result (Grew (OwnLines (marked_study bench.now) here.now.steps.now) text.old
        text.new) }
    ensures asked { HasAsked (within here.now.node.position.now V.source)
        values.old result values.new }
{
    add_refuted(text, bench, here, evaluated)?;
    add_missing(alloc, text, bench, here, evaluated, values)?;
    add_end(text, bench, here, evaluated, values)
}

/// The lines of a node from the values after its legal moves, which are evaluated once, if any line may need them.
fn add_node_lines<'a, 'b, A: Allocator, B: Allocator, V: Values>(
    alloc: &'a A,
    text: &mut Text<'_, A>,
    bench: &Bench<'b, B>,
    here: &StudyNode<'_>,
    evaluated: &mut Vec<EvaluatedMove, &'a A>,
    values: &mut V,
) -> Result<(), TextFault>
    requires here { IsStudyNode (marked_study bench.now) here.now }
    ensures text { V.source.is_honest values.old
        → OnOk result (Grew (OwnLines (marked_study bench.now) here.now.steps.now) text.old
        text.new) }
    ensures asked { HasAsked (within here.now.node.position.now V.source)
        values.old result values.new }
{
    if here.children != 0 && !here.tried && !here.is_defended() {
        return Ok(());
    }
    evaluate_legal_moves(here.node.position, values, evaluated)?;
    add_reported(alloc, text, bench, here, evaluated.as_slice(), values)
}

/// The line of a mutual zugzwang.
fn add_zugzwang<A: Allocator, V: Values>(
    text: &mut Text<'_, A>,
    here: &StudyNode<'_>,
    values: &mut V,
) -> Result<(), TextFault>
    ensures text { V.source.is_honest values.old
        → OnOk result ((z : Option AZugzwang) × IsZugzwangOf here.now.node.position.now z
        × (text.new ≡ text.old ++ zugzwang_line here.now.steps.now z)) }
    ensures asked { HasAsked (within here.now.node.position.now V.source)
        values.old result values.new }
{
    match zugzwang_at(here.node.position, values) {
        Err(fault) => Err(TextFault::NoValue(fault)),
        Ok(zugzwang) => {
            add_zugzwang_line(text, here.steps, zugzwang)?;
            Ok(())
        }
    }
}

/// The lines of a node except those of the move to it.
pub fn add_here<'a, 'b, A: Allocator, B: Allocator, V: Values>(
    alloc: &'a A,
    text: &mut Text<'_, A>,
    bench: &Bench<'b, B>,
    here: &StudyNode<'_>,
    evaluated: &mut Vec<EvaluatedMove, &'a A>,
    values: &mut V,
) -> Result<(), TextFault>
    requires here { IsStudyNode (marked_study bench.now) here.now }
    ensures text { V.source.is_honest values.old
        → OnOk result (Grew (HereLines (marked_study bench.now) here.now.steps.now) text.old
        text.new) }
    ensures asked { HasAsked (within here.now.node.position.now V.source)
        values.old result values.new }
{
    add_node_lines(alloc, text, bench, here, evaluated, values)?;
    add_zugzwang(text, here, values)
}
