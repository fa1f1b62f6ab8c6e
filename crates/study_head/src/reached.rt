//! Where the moves of a study lead.
ghost use Rattle.std.specs.Prelude.{◌≡◌, ◌++◌, ◌∷◌, [], IfOk, OnOk};
ghost use Rattle.std.specs.Option.{option_map};
ghost use Rattle.study_marks.specs.BenchState.{marked_study};
ghost use Rattle.study_facts.specs.Asked.{within};
ghost use Rattle.study_facts.specs.Made.{HasAsked};
ghost use Rattle.study_facts.specs.StudyNode.{IsStudyMove};
ghost use Rattle.study_head.specs.Reached.{named_at, first_to, all_reached};

use crate::mistake::NamedMove;
use crate::words::number_at;
use std::alloc::{AllocError, Allocator};
use study_board::Position;
use study_facts::{
    Findings, StudyMove, TextFault, WalkState, WalkStep, move_of, node_after, walk_study,
};
use study_marks::{Aim, Bench};
use study_moves::Move;
use study_values::Values;

/// A position that a move of a study leads to, and this move.
#[derive(Drop)]
pub struct Reached {
    pub position: Position,
    pub by: NamedMove,
}

/// What a walk has reached.
#[derive(Drop)]
struct ReachedFindings<'a, A: Allocator> {
    list: Vec<Reached, &'a A>,
}

/// The name of a move that is made where a step begins.
pub fn named_at<'b, B: Allocator>(bench: &Bench<'b, B>, step: &StudyMove<'_>, m: Move) -> NamedMove
    requires { IsStudyMove (marked_study bench.now) step.now }
    ensures { result ≡ named_at (marked_study bench.now) step.now.steps.now m }
{
    NamedMove {
        number: number_at(bench.start(), step.before.depth),
        position: step.before.position.copied(),
        played: m,
    }
}

/// The first of these moves that leads to the position.
pub fn first_to<'r>(known: &'r [Reached], position: &Position) -> Option<&'r NamedMove>
    ensures { option_map (λ m. m.now) result ≡ first_to known.now position.now }
{
    let (first, rest) = known.split_first()?;
    if first.position == *position {
        return Some(&first.by);
    }
    first_to(rest, position)
}

fn push_reached<'a, A: Allocator>(
    list: &mut Vec<Reached, &'a A>,
    reached: Reached,
) -> Result<(), AllocError>
    ensures { OnOk result (list.new.items ≡ list.old.items ++ reached ∷ []) }
{
    match list.push(reached) {
        Err(_) => Err(AllocError),
        Ok(_) => Ok(()),
    }
}

impl<'a, A: Allocator> Findings for ReachedFindings<'a, A> {
    ghost use Rattle.std.specs.Prelude.{◌≡◌, ◌++◌};
    ghost use Rattle.study_head.specs.Reached.{reached_by};

    ghost adds = { λ s path old new. new.list.items ≡ old.list.items ++ reached_by s path };

    fn add_root<'b, B: Allocator, V: Values>(
        &mut self,
        _bench: &Bench<'b, B>,
        _aim: &Aim,
        _root: &WalkState,
        _values: &mut V,
    ) -> Result<(), TextFault> {
        Ok(())
    }

    fn add_node<'b, B: Allocator, V: Values>(
        &mut self,
        bench: &Bench<'b, B>,
        step: &WalkStep<'_>,
        _values: &mut V,
    ) -> Result<(), TextFault> {
        let made = move_of(bench, step);
        let node = node_after(bench, step);
        let reached = Reached {
            position: node.node.position.copied(),
            by: named_at(bench, &made, made.played),
        };
        push_reached(&mut self.list, reached)?;
        Ok(())
    }
}

/// The positions that the moves of a study lead to, in written order. A walk finds them, and asks no value.
pub fn reached_in<'a, 'b, A: Allocator, B: Allocator, V: Values>(
    alloc: &'a A,
    bench: &Bench<'b, B>,
    values: &mut V,
) -> Result<Vec<Reached, &'a A>, TextFault>
    ensures list { V.source.is_honest values.old
        → IfOk result (λ list. list.items ≡ all_reached (marked_study bench.now)) }
    ensures asked { HasAsked (within (marked_study bench.now).start.position V.source)
        values.old result values.new }
{
    let mut findings = ReachedFindings {
        list: Vec::new(alloc),
    };
    walk_study(alloc, &mut findings, bench, values)?;
    Ok(findings.list)
}
