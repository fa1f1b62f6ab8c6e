//! The lines of a move: its fault, and its alternatives.
ghost use Rattle.std.specs.Prelude.{◌≡◌, ◌+◌, ◌++◌, ◌∷◌, [], ◌<◌, ◌≤◌, ◌^◌, ◌==◌, not, ◌&&◌, true, length, Some, OnOk, IfOk, if◌then◌else◌};
ghost use Rattle.std.specs.List.{All};
ghost use Rattle.study_moves.specs.Rules.{is_legal};
ghost use Rattle.study_marks.specs.BenchState.{marked_study};
ghost use Rattle.study_marks.specs.Goals.{holds};
ghost use Rattle.study_facts.specs.Asked.{within};
ghost use Rattle.study_facts.specs.Continuations.{contains_move};
ghost use Rattle.study_facts.specs.Made.{Grew, Rose, HasAsked};
ghost use Rattle.study_facts.specs.Nodes.{AlsoLines, FaultLines};
ghost use Rattle.study_review.specs.NodeFacts.{AreAlsoLines, besides};
ghost use Rattle.study_facts.specs.StudyNode.{IsStudyMove};
ghost use Rattle.study_facts.specs.TimeFaults.{IsTimeFault};
ghost use Rattle.study_facts.specs.Words.{dual_line};

use crate::lines::{add_also_line, add_dual, add_mistake};
use crate::probe::evaluate_legal_moves;
use crate::review_lines::ReviewLines;
use std::alloc::{AllocError, Allocator};
use study_facts::{
    Alternative, EvaluatedMove, StudyMove, TextFault, contains_move, count_where,
    waste_of_time_for_goal,
};
use study_marks::{Bench, MoveMark, holds};
use study_moves::played;
use study_text::Text;
use study_values::Values;

/// A line for another move, with the time that it loses, and 1 if it loses time; no line, and 0, if it is the move itself or does not hold.
fn add_alternative<A: Allocator, V: Values>(
    text: &mut Text<'_, A>,
    step: &StudyMove<'_>,
    x: &EvaluatedMove,
    values: &mut V,
) -> Result<u16, TextFault>
    requires depth { step.now.before.depth + 1 < 2 ^ 64 }
    requires legal { is_legal step.now.before.position.now x.now.played ≡ true }
    ensures text { V.source.is_honest values.old
        → IfOk result (λ n. Grew (AreAlsoLines step.now.steps.now step.now.before.aim.now
        step.now.before.depth step.now.line.now step.now.before.position.now step.now.played
        (x.now ∷ []) n) text.old text.new) }
    ensures few { IfOk result (λ n. n ≤ 1) }
    ensures asked { HasAsked (within step.now.before.position.now V.source)
        values.old result values.new }
{
    let before = &step.before;
    if contains_move(&x.played, &[step.played]) || !holds(before.aim, before.depth + 1, x.value) {
        return Ok(0);
    }
    let next = played(before.position, x.played);
    match waste_of_time_for_goal(before.aim.goal, step.line, &next, values) {
        Err(fault) => Err(TextFault::NoValue(fault)),
        Ok(time) => {
            let y = Alternative {
                played: x.played,
                value: x.value,
                time,
            };
            add_also_line(text, step.steps, before.position, &y)?;
            Ok(if time.is_some() { 1 } else { 0 })
        }
    }
}

/// A line for each of these moves that is an alternative, and the number of them that lose time.
pub fn add_alternatives<A: Allocator, V: Values>(
    text: &mut Text<'_, A>,
    step: &StudyMove<'_>,
    evaluated: &[EvaluatedMove],
    values: &mut V,
) -> Result<u16, TextFault>
    requires depth { step.now.before.depth + 1 < 2 ^ 64 }
    requires legal { All (λ x. is_legal step.now.before.position.now x.played ≡ true)
        evaluated.now }
    requires few { length evaluated.now < 2 ^ 16 }
    ensures text { V.source.is_honest values.old
        → IfOk result (λ n. Grew (AreAlsoLines step.now.steps.now step.now.before.aim.now
        step.now.before.depth step.now.line.now step.now.before.position.now step.now.played
        evaluated.now n) text.old text.new) }
    ensures few { IfOk result (λ n. n ≤ length evaluated.now) }
    ensures asked { HasAsked (within step.now.before.position.now V.source)
        values.old result values.new }
{
    match evaluated.split_first() {
        None => Ok(0),
        Some((x, rest)) => {
            let here = add_alternative(text, step, x, values)?;
            let later = add_alternatives(text, step, rest, values)?;
            Ok(here + later)
        }
    }
}

/// The line of a dual with so many others, so many of which lose time, if it is a move of the solution.
fn add_listed_dual<A: Allocator>(
    text: &mut Text<'_, A>,
    step: &StudyMove<'_>,
    counts: (u8, u16),
) -> Result<(), AllocError>
    requires { is_legal step.now.before.position.now step.now.played ≡ true }
    ensures { OnOk result (text.new ≡ text.old
        ++ (if step.now.solution then dual_line step.now.steps.now step.now.before.position.now
        step.now.played step.now.mark.value counts.0 counts.1 else [])) }
{
    if !step.solution {
        return Ok(());
    }
    let x = EvaluatedMove {
        played: step.played,
        value: step.mark.value,
    };
    add_dual(text, step.steps, step.before.position, &x, counts)
}

/// Whether this is another move, and one that holds.
fn is_alternative(step: &StudyMove<'_>, x: &EvaluatedMove) -> bool
    requires { step.now.before.depth + 1 < 2 ^ 64 }
    ensures { result ≡ (not (contains_move x.now.played (step.now.played ∷ []))
        && holds step.now.before.aim.now (step.now.before.depth + 1) x.now.value) }
{
    let before = &step.before;
    !contains_move(&x.played, &[step.played]) && holds(before.aim, before.depth + 1, x.value)
}

/// The number of alternatives among these moves.
fn count_alternatives(step: &StudyMove<'_>, evaluated: &[EvaluatedMove]) -> u16
    requires depth { step.now.before.depth + 1 < 2 ^ 64 }
    requires few { length evaluated.now < 2 ^ 16 }
    ensures count { result
        ≡ length (besides step.now.before.aim.now step.now.before.depth
        (step.now.played ∷ []) evaluated.now) }
    ensures few { result ≤ length evaluated.now }
{
    match evaluated.split_first() {
        None => 0,
        Some((x, rest)) => {
            count_alternatives(step, rest) + if is_alternative(step, x) { 1 } else { 0 }
        }
    }
}

/// Whether a dual with so many others, so many of which lose time, is listed and loses time alone.
fn loses_time_alone(listed: bool, others: u16, time: u16) -> bool
    ensures { result ≡ (listed && (time == others)) }
{
    listed && time == others
}

/// A line for each alternative of a dual with so many others, and the line of the dual, if it is a move of the solution.
fn add_dual_lines<'a, 'b, A: Allocator, B: Allocator, V: Values>(
    draft: &mut ReviewLines<'a, A>,
    bench: &Bench<'b, B>,
    step: &StudyMove<'_>,
    others: u8,
    values: &mut V,
) -> Result<(), TextFault>
    // Many clauses: one for each group of lines, and those of the probes.
    requires made { IsStudyMove (marked_study bench.now) step.now }
    requires mark { step.now.mark.on_move ≡ Some (MoveMark.Dual others) }
    ensures also { V.source.is_honest values.old
        → OnOk result
        (Grew (AlsoLines (marked_study bench.now) step.now.steps.now) draft.old.nodes draft.new.nodes) }
    ensures fault { V.source.is_honest values.old
        → OnOk result
        (Grew (FaultLines (marked_study bench.now) step.now.steps.now)
        draft.old.faults draft.new.faults) }
    ensures time { V.source.is_honest values.old
        → OnOk result
        (Rose (IsTimeFault (marked_study bench.now) step.now.steps.now) draft.old.time_faults
        draft.new.time_faults) }
    ensures asked { HasAsked (within step.now.before.position.now V.source)
        values.old result values.new }
{
    evaluate_legal_moves(step.before.position, values, &mut draft.evaluated)?;
    let time = add_alternatives(&mut draft.nodes, step, draft.evaluated.as_slice(), values)?;
    add_listed_dual(&mut draft.faults, step, (others, time))?;
    let alone = loses_time_alone(
        step.solution,
        count_alternatives(step, draft.evaluated.as_slice()),
        time,
    );
    draft.time_faults = count_where(draft.time_faults, alone);
    Ok(())
}

/// The line of a mistake, if it is a move of the solution.
fn add_listed_mistake<'b, A: Allocator, B: Allocator>(
    text: &mut Text<'_, A>,
    bench: &Bench<'b, B>,
    step: &StudyMove<'_>,
) -> Result<(), AllocError>
    requires made { IsStudyMove (marked_study bench.now) step.now }
    requires mark { step.now.mark.on_move ≡ Some MoveMark.Mistake }
    ensures { OnOk result
        (Grew (FaultLines (marked_study bench.now) step.now.steps.now) text.old text.new) }
{
    if !step.solution {
        return Ok(());
    }
    let x = EvaluatedMove {
        played: step.played,
        value: step.mark.value,
    };
    add_mistake(text, step.steps, step.before.position, &x)
}

/// The line of a fault of the solution, and a line for each alternative of a dual.
pub fn add_move<'a, 'b, A: Allocator, B: Allocator, V: Values>(
    draft: &mut ReviewLines<'a, A>,
    bench: &Bench<'b, B>,
    step: &StudyMove<'_>,
    values: &mut V,
) -> Result<(), TextFault>
    // Many clauses: one for each group of lines, and those of the probes.
    requires made { IsStudyMove (marked_study bench.now) step.now }
    ensures also { V.source.is_honest values.old
        → OnOk result
        (Grew (AlsoLines (marked_study bench.now) step.now.steps.now) draft.old.nodes draft.new.nodes) }
    ensures fault { V.source.is_honest values.old
        → OnOk result
        (Grew (FaultLines (marked_study bench.now) step.now.steps.now)
        draft.old.faults draft.new.faults) }
    ensures time { V.source.is_honest values.old
        → OnOk result
        (Rose (IsTimeFault (marked_study bench.now) step.now.steps.now) draft.old.time_faults
        draft.new.time_faults) }
    ensures asked { HasAsked (within step.now.before.position.now V.source)
        values.old result values.new }
{
    match step.on_move() {
        Some(MoveMark::Dual(others)) => add_dual_lines(draft, bench, step, others, values),
        Some(MoveMark::Mistake) => {
            add_listed_mistake(&mut draft.faults, bench, step)?;
            Ok(())
        }
        Some(MoveMark::Only) => Ok(()),
        Some(MoveMark::Idle) => Ok(()),
        Some(MoveMark::Reply) => Ok(()),
        None => Ok(()),
    }
}
