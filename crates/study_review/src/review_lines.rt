//! The lines of a review before it is whole.
ghost use Rattle.std.specs.Prelude.{◌≡◌, [], OnOk};
ghost use Rattle.study_marks.specs.BenchState.{marked_study};
ghost use Rattle.study_facts.specs.Asked.{within};
ghost use Rattle.study_facts.specs.Made.{Grew, Rose, HasAsked};
ghost use Rattle.study_facts.specs.Nodes.{FaultLines, NodeLines};
ghost use Rattle.study_facts.specs.Order.{LinesOfEach, AreTimeFaults, written_order};
ghost use Rattle.study_facts.specs.TimeFaults.{IsTimeFault};

use crate::fault_lines::add_move;
use crate::node_lines::add_here;
use std::alloc::Allocator;
use study_facts::{
    EvaluatedMove, Findings, TextFault, WalkState, WalkStep, move_of, node_after, root_node,
    walk_study,
};
use study_marks::{Aim, Bench};
use study_text::Text;
use study_values::Values;

/// The lines of the faults, the number of faults that lose time alone, the lines of the nodes, and the buffer of evaluated moves.
#[derive(Drop)]
pub struct ReviewLines<'a, A: Allocator> {
    pub alloc: &'a A,
    pub faults: Text<'a, A>,
    pub time_faults: u32,
    pub nodes: Text<'a, A>,
    pub evaluated: Vec<EvaluatedMove, &'a A>,
}

impl<'a, A: Allocator> ReviewLines<'a, A> {
    /// No line of any node.
    pub fn new(alloc: &'a A) -> Self
        ensures faults { result.faults ≡ [] }
        ensures time { result.time_faults ≡ 0 }
        ensures nodes { result.nodes ≡ [] }
    {
        ReviewLines {
            alloc,
            faults: Text::new(alloc),
            time_faults: 0,
            nodes: Text::new(alloc),
            evaluated: Vec::new(alloc),
        }
    }
}

impl<'a, A: Allocator> Findings for ReviewLines<'a, A> {
    ghost use Rattle.std.specs.Prelude.{◌≡◌};
    ghost use Rattle.study_facts.specs.Made.{Grew, Rose};
    ghost use Rattle.study_facts.specs.Nodes.{FaultLines, NodeLines};
    ghost use Rattle.study_facts.specs.TimeFaults.{IsTimeFault};

    ghost adds = { λ s path old new. Grew (FaultLines s path) old.faults new.faults
        × Rose (IsTimeFault s path) old.time_faults new.time_faults
        × Grew (NodeLines s path) old.nodes new.nodes };

    fn add_root<'b, B: Allocator, V: Values>(
        &mut self,
        bench: &Bench<'b, B>,
        aim: &Aim,
        root: &WalkState,
        values: &mut V,
    ) -> Result<(), TextFault> {
        let first = bench.start();
        let here = root_node(bench, aim, root);
        add_here(
            self.alloc,
            &mut self.nodes,
            bench,
            &here,
            &mut self.evaluated,
            values,
        )
    }

    fn add_node<'b, B: Allocator, V: Values>(
        &mut self,
        bench: &Bench<'b, B>,
        step: &WalkStep<'_>,
        values: &mut V,
    ) -> Result<(), TextFault> {
        let first = bench.start();
        let made = move_of(bench, step);
        add_move(self, bench, &made, values)?;
        let here = node_after(bench, step);
        add_here(
            self.alloc,
            &mut self.nodes,
            bench,
            &here,
            &mut self.evaluated,
            values,
        )
    }
}

/// The lines of all nodes.
pub fn add_all<'a, 'b, A: Allocator, B: Allocator, V: Values>(
    alloc: &'a A,
    draft: &mut ReviewLines<'a, A>,
    bench: &Bench<'b, B>,
    values: &mut V,
) -> Result<(), TextFault>
    ensures faults { V.source.is_honest values.old
        → OnOk result
        (Grew (LinesOfEach (FaultLines (marked_study bench.now)) (written_order (marked_study bench.now)))
        draft.old.faults draft.new.faults) }
    ensures time { V.source.is_honest values.old
        → OnOk result
        (Rose (AreTimeFaults (marked_study bench.now)) draft.old.time_faults draft.new.time_faults) }
    ensures nodes { V.source.is_honest values.old
        → OnOk result
        (Grew (LinesOfEach (NodeLines (marked_study bench.now)) (written_order (marked_study bench.now)))
        draft.old.nodes draft.new.nodes) }
    ensures asked { HasAsked (within (marked_study bench.now).start.position V.source)
        values.old result values.new }
{
    walk_study(alloc, draft, bench, values)
}
