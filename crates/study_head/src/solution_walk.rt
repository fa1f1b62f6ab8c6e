//! The walk of a study that finds the facts of its solution.
ghost use Rattle.std.specs.Prelude.{◌≡◌, ◌+◌, ◌≤◌, ◌<◌, ◌^◌, ◌++◌, ◌∷◌, [], ℕ, length, OnOk, IfOk};
ghost use Rattle.study_marks.specs.BenchState.{marked_study};
ghost use Rattle.study_facts.specs.Asked.{within};
ghost use Rattle.study_facts.specs.Made.{HasAsked};
ghost use Rattle.study_facts.specs.Nodes.{mark_at};
ghost use Rattle.study_facts.specs.StudyNode.{IsStudyMove, IsStudyNode};
ghost use Rattle.study_head.specs.Solution.{AddsDual, AddsMistake, AddsHeroMove, AddsDefence, AreSolutionFacts};

use crate::reached::{Reached, reached_in};
use crate::solution::{SolutionFacts, dual_at, first_reply, is_given_defence, missing_beside};
use std::alloc::Allocator;
use study_facts::{
    Findings, StudyMove, StudyNode, TextFault, WalkState, WalkStep, children_in, defences, move_of,
    node_after, refutations, timed_alternatives, walk_study,
};
use study_marks::{Aim, Bench, MoveMark};
use study_values::Values;

/// The facts that a walk has found, what allocates the lists that it needs, and the positions that the moves of the study lead to.
#[derive(Drop)]
struct SolutionFindings<'a, 'k, A: Allocator> {
    alloc: &'a A,
    known: &'k [Reached],
    facts: SolutionFacts,
}

/// Adds a dual.
#[inline(never)]
fn add_dual<'b, B: Allocator, V: Values>(
    facts: &mut SolutionFacts,
    bench: &Bench<'b, B>,
    step: &StudyMove<'_>,
    values: &mut V,
) -> Result<(), TextFault>
    requires { IsStudyMove (marked_study bench.now) step.now }
    ensures added { V.source.is_honest values.old
        → OnOk result (AddsDual (marked_study bench.now) step.now.steps.now step.now.played
        facts.old facts.new) }
    ensures asked { HasAsked (within step.now.before.position.now V.source)
        values.old result values.new }
{
    match timed_alternatives(&step.before, step.line, step.played, values) {
        Err(fault) => Err(TextFault::NoValue(fault)),
        Ok(list) => {
            facts.note_dual(dual_at(bench, step, list.as_slice()));
            Ok(())
        }
    }
}

/// Adds a mistake that leads to this node.
#[inline(never)]
fn add_mistake<'b, B: Allocator, V: Values>(
    facts: &mut SolutionFacts,
    bench: &Bench<'b, B>,
    node: &StudyNode<'_>,
    values: &mut V,
) -> Result<(), TextFault>
    requires node { IsStudyNode (marked_study bench.now) node.now }
    requires shallow { length node.now.steps.now ≤ 256 }
    ensures added { V.source.is_honest values.old
        → OnOk result (AddsMistake (marked_study bench.now) node.now.steps.now
        facts.old facts.new) }
    ensures asked { HasAsked (within node.now.node.position.now V.source)
        values.old result values.new }
{
    match refutations(&node.node, values) {
        Err(fault) => Err(TextFault::NoValue(fault)),
        Ok(list) => {
            facts.note_mistake(first_reply(bench, node, list.as_slice()));
            Ok(())
        }
    }
}

/// Adds what a move of the hero in the solution adds.
fn add_hero_move<'b, B: Allocator, V: Values>(
    facts: &mut SolutionFacts,
    bench: &Bench<'b, B>,
    step: &StudyMove<'_>,
    node: &StudyNode<'_>,
    values: &mut V,
) -> Result<(), TextFault>
    requires step { IsStudyMove (marked_study bench.now) step.now }
    requires node { IsStudyNode (marked_study bench.now) node.now }
    requires path { node.now.steps.now ≡ step.now.steps.now }
    ensures added { V.source.is_honest values.old
        → OnOk result (AddsHeroMove (marked_study bench.now) step.now.steps.now step.now.played
        (mark_at (marked_study bench.now) step.now.steps.now) facts.old facts.new) }
    ensures asked { HasAsked (within (marked_study bench.now).start.position V.source)
        values.old result values.new }
{
    let first = bench.start();
    match step.on_move() {
        Some(MoveMark::Dual(_)) => add_dual(facts, bench, step, values),
        Some(MoveMark::Mistake) => add_mistake(facts, bench, node, values),
        Some(MoveMark::Only) => Ok(()),
        Some(MoveMark::Idle) => Ok(()),
        Some(MoveMark::Reply) => Ok(()),
        None => Ok(()),
    }
}

/// Adds the first main defence beside the one by this step, which begins at the node with this path.
fn add_beside<'a, 'k, 'b, A: Allocator, B: Allocator, V: Values>(
    findings: &mut SolutionFindings<'a, 'k, A>,
    bench: &Bench<'b, B>,
    step: &StudyMove<'_>,
    front: &[u16],
    values: &mut V,
) -> Result<(), TextFault>
    requires step { IsStudyMove (marked_study bench.now) step.now }
    requires front { (k : ℕ) × (step.now.steps.now ≡ front.now ++ k ∷ []) }
    requires depth { step.now.before.depth + 2 < 2 ^ 64 }
    ensures known { findings.new.known ≡ findings.old.known }
    ensures added { V.source.is_honest values.old
        → OnOk result (AddsDefence (marked_study bench.now) findings.old.known.now
        step.now.steps.now findings.old.facts findings.new.facts) }
    ensures asked { HasAsked (within step.now.before.position.now V.source)
        values.old result values.new }
{
    match children_in(findings.alloc, bench, front)? {
        None => Ok(()),
        Some(there) => match defences(&step.before, there.as_slice(), values) {
            Err(fault) => Err(TextFault::NoValue(fault)),
            Ok(list) => {
                let missing = missing_beside(bench, findings.known, step, list.as_slice());
                findings.facts.note_missing(missing);
                Ok(())
            }
        },
    }
}

/// Adds the first main defence beside the one by this step, if there is such a defence.
#[inline(never)]
fn add_defence<'a, 'k, 'b, A: Allocator, B: Allocator, V: Values>(
    findings: &mut SolutionFindings<'a, 'k, A>,
    bench: &Bench<'b, B>,
    step: &StudyMove<'_>,
    values: &mut V,
) -> Result<(), TextFault>
    requires step { IsStudyMove (marked_study bench.now) step.now }
    requires some { 0 < length step.now.steps.now }
    ensures known { findings.new.known ≡ findings.old.known }
    ensures added { V.source.is_honest values.old
        → OnOk result (AddsDefence (marked_study bench.now) findings.old.known.now
        step.now.steps.now findings.old.facts findings.new.facts) }
    ensures asked { HasAsked (within step.now.before.position.now V.source)
        values.old result values.new }
{
    match step.steps.split_last() {
        None => unreachable!(),
        Some((_, front)) => add_beside(findings, bench, step, front, values),
    }
}

impl<'a, 'k, A: Allocator> Findings for SolutionFindings<'a, 'k, A> {
    ghost use Rattle.std.specs.Prelude.{◌≡◌};
    ghost use Rattle.study_head.specs.Solution.{AddsNode};

    ghost adds = { λ s path old new.
        AddsNode s old.known.now path old.facts new.facts × (new.known ≡ old.known) };

    fn add_root<'b, B: Allocator, V: Values>(
        &mut self,
        bench: &Bench<'b, B>,
        aim: &Aim,
        root: &WalkState,
        values: &mut V,
    ) -> Result<(), TextFault> {
        Ok(())
    }

    #[inline(never)]
    fn add_node<'b, B: Allocator, V: Values>(
        &mut self,
        bench: &Bench<'b, B>,
        step: &WalkStep<'_>,
        values: &mut V,
    ) -> Result<(), TextFault> {
        let first = bench.start();
        let made = move_of(bench, step);
        if made.solution {
            let node = node_after(bench, step);
            return add_hero_move(&mut self.facts, bench, &made, &node, values);
        }
        if is_given_defence(bench, &made) {
            return add_defence(self, bench, &made, values);
        }
        Ok(())
    }
}

/// The facts of the solution, which walks of the study find: they ask values of no class that the start does not lead to.
pub fn solution_facts<'a, 'b, A: Allocator, B: Allocator, V: Values>(
    alloc: &'a A,
    bench: &Bench<'b, B>,
    values: &mut V,
) -> Result<SolutionFacts, TextFault>
    ensures facts { V.source.is_honest values.old
        → IfOk result (AreSolutionFacts (marked_study bench.now)) }
    ensures asked { HasAsked (within (marked_study bench.now).start.position V.source)
        values.old result values.new }
{
    let known = reached_in(alloc, bench, values)?;
    let mut findings = SolutionFindings {
        alloc,
        known: known.as_slice(),
        facts: SolutionFacts::none(),
    };
    walk_study(alloc, &mut findings, bench, values)?;
    Ok(findings.facts)
}
