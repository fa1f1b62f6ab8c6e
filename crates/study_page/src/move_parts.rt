//! What the parts of a page have of one move: the item of a fault of the solution, and the card of a dual.
ghost use Rattle.std.specs.Prelude.{◌≡◌, ◌++◌, ◌+◌, ◌^◌, ◌<◌, ◌≤◌, [], true, Some, length, OnOk, if◌then◌else◌};
ghost use Rattle.std.specs.List.{All};
ghost use Rattle.study_moves.specs.Rules.{is_legal};
ghost use Rattle.study_marks.specs.BenchState.{marked_study};
ghost use Rattle.study_facts.specs.Asked.{within};
ghost use Rattle.study_facts.specs.Made.{Grew, HasAsked};
ghost use Rattle.study_facts.specs.Nodes.{EmptyUnless};
ghost use Rattle.study_facts.specs.StudyNode.{IsStudyMove};
ghost use Rattle.study_page.specs.Rows.{IsFaultOf, FaultItems, IsCardOf, Cards, dual_item, mistake_item, card};

use crate::cards_and_tries::put_card;
use crate::draft::Sections;
use crate::fault_list::{put_dual, put_mistake};
use std::alloc::{AllocError, Allocator};
use study_facts::{Alternative, EvaluatedMove, StudyMove, TextFault, timed_alternatives};
use study_head::Ply;
use study_html::Html;
use study_marks::{Bench, MoveMark};
use study_notation::Start;
use study_values::Values;

/// The item of a dual, where it is of the solution.
fn put_listed_dual<'a, A: Allocator>(
    alloc: &'a A,
    html: &mut Html<'_, A>,
    ply: &Ply<'_>,
    x: &EvaluatedMove,
    list: &[Alternative],
    listed: bool,
) -> Result<(), AllocError>
    requires few { length list.now < 2 ^ 32 }
    requires legal { is_legal ply.now.position.now x.now.played ≡ true }
    requires others { All (λ y. is_legal ply.now.position.now y.played ≡ true) list.now }
    ensures { OnOk result (html.new ≡ html.old
        ++ (if listed then dual_item ply.now.start.now ply.now.depth ply.now.position.now
        x.now.played x.now.value list.now else [])) }
{
    if !listed {
        return Ok(());
    }
    put_dual(alloc, html, ply, x, list)
}

/// The item and the card of a dual beside which so many moves hold, of which these are the others.
fn put_dual_parts<'a, A: Allocator>(
    alloc: &'a A,
    parts: &mut Sections<'_, A>,
    start: &Start,
    step: &StudyMove<'_>,
    others: u8,
    list: &[Alternative],
) -> Result<(), AllocError>
    // Many clauses: one for each part of the page, and those of the probes.
    requires few { length list.now < 2 ^ 32 }
    requires legal { is_legal step.now.before.position.now step.now.played ≡ true }
    requires others { All (λ y. is_legal step.now.before.position.now y.played ≡ true) list.now }
    ensures faults { OnOk result
        (parts.new.faults ≡ parts.old.faults
        ++ (if step.now.solution then dual_item start.now step.now.before.depth
        step.now.before.position.now step.now.played step.now.mark.value list.now else [])) }
    ensures duals { OnOk result (parts.new.duals ≡ parts.old.duals
        ++ card start.now step.now.before.depth step.now.before.position.now step.now.played
        others step.now.mark.value list.now) }
    ensures tries { parts.new.tries ≡ parts.old.tries }
    ensures zugzwangs { parts.new.zugzwangs ≡ parts.old.zugzwangs }
    ensures defences { parts.new.defences ≡ parts.old.defences }
    ensures ends { parts.new.ends ≡ parts.old.ends }
{
    let ply = Ply {
        start,
        depth: step.before.depth,
        position: step.before.position,
    };
    let x = EvaluatedMove {
        played: step.played,
        value: step.mark.value,
    };
    put_listed_dual(alloc, &mut parts.faults, &ply, &x, list, step.solution)?;
    put_card(alloc, &mut parts.duals, &ply, &x, others, list)
}

/// What the parts have of a dual beside which so many moves hold.
#[inline(never)]
fn add_dual<'a, A: Allocator, V: Values>(
    alloc: &'a A,
    parts: &mut Sections<'_, A>,
    start: &Start,
    step: &StudyMove<'_>,
    others: u8,
    values: &mut V,
) -> Result<(), TextFault>
    // Many clauses: one for each part of the page, and those of the probes.
    requires depth { step.now.before.depth + 1 < 2 ^ 64 }
    requires legal { is_legal step.now.before.position.now step.now.played ≡ true }
    ensures faults { V.source.is_honest values.old
        → OnOk result (Grew (EmptyUnless step.now.solution (IsFaultOf start.now
        step.now.before.aim.now step.now.before.depth step.now.line.now
        step.now.before.position.now step.now.played step.now.mark.value
        (Some (MoveMark.Dual others))))
        parts.old.faults parts.new.faults) }
    ensures duals { V.source.is_honest values.old
        → OnOk result (Grew (IsCardOf start.now step.now.before.aim.now step.now.before.depth
        step.now.line.now step.now.before.position.now step.now.played step.now.mark.value
        (Some (MoveMark.Dual others)))
        parts.old.duals parts.new.duals) }
    ensures tries { parts.new.tries ≡ parts.old.tries }
    ensures zugzwangs { parts.new.zugzwangs ≡ parts.old.zugzwangs }
    ensures defences { parts.new.defences ≡ parts.old.defences }
    ensures ends { parts.new.ends ≡ parts.old.ends }
    ensures asked { HasAsked (within step.now.before.position.now V.source)
        values.old result values.new }
{
    match timed_alternatives(&step.before, step.line, step.played, values) {
        Err(fault) => Err(TextFault::NoValue(fault)),
        Ok(list) => {
            put_dual_parts(alloc, parts, start, step, others, list.as_slice())?;
            Ok(())
        }
    }
}

/// The item of a mistake, where it is of the solution.
fn put_listed_mistake<'a, A: Allocator>(
    alloc: &'a A,
    html: &mut Html<'_, A>,
    start: &Start,
    step: &StudyMove<'_>,
) -> Result<(), AllocError>
    requires shallow { step.now.before.depth ≤ 256 }
    requires legal { is_legal step.now.before.position.now step.now.played ≡ true }
    ensures { OnOk result (html.new ≡ html.old
        ++ (if step.now.solution then mistake_item start.now step.now.before.aim.now
        step.now.before.depth step.now.before.position.now step.now.played step.now.mark.value
        else [])) }
{
    if !step.solution {
        return Ok(());
    }
    let ply = Ply {
        start,
        depth: step.before.depth,
        position: step.before.position,
    };
    put_mistake(
        alloc,
        html,
        step.before.aim,
        &ply,
        step.played,
        step.mark.value,
    )
}

/// What the parts have of a move: the item of a fault of the solution, and the card of a dual.
#[inline(never)]
pub fn add_move<'a, 'b, A: Allocator, B: Allocator, V: Values>(
    alloc: &'a A,
    parts: &mut Sections<'_, A>,
    bench: &Bench<'b, B>,
    step: &StudyMove<'_>,
    values: &mut V,
) -> Result<(), TextFault>
    // Many clauses: one for each part of the page, and those of the probes.
    requires { IsStudyMove (marked_study bench.now) step.now }
    ensures faults { V.source.is_honest values.old
        → OnOk result (Grew (FaultItems (marked_study bench.now) step.now.steps.now)
        parts.old.faults parts.new.faults) }
    ensures duals { V.source.is_honest values.old
        → OnOk result
        (Grew (Cards (marked_study bench.now) step.now.steps.now) parts.old.duals parts.new.duals) }
    ensures tries { parts.new.tries ≡ parts.old.tries }
    ensures zugzwangs { parts.new.zugzwangs ≡ parts.old.zugzwangs }
    ensures defences { parts.new.defences ≡ parts.old.defences }
    ensures ends { parts.new.ends ≡ parts.old.ends }
    ensures asked { HasAsked (within (marked_study bench.now).start.position V.source)
        values.old result values.new }
{
    let first = bench.start();
    match step.on_move() {
        Some(MoveMark::Dual(others)) => add_dual(alloc, parts, first, step, others, values),
        Some(MoveMark::Mistake) => {
            put_listed_mistake(alloc, &mut parts.faults, first, step)?;
            Ok(())
        }
        Some(MoveMark::Only) => Ok(()),
        Some(MoveMark::Idle) => Ok(()),
        Some(MoveMark::Reply) => Ok(()),
        None => Ok(()),
    }
}
