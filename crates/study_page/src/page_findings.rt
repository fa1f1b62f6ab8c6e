//! What a walk of a study adds to the sections of a page.
ghost use Rattle.std.specs.Prelude.{◌≡◌, []};

use crate::draft::Sections;
use crate::move_parts::add_move;
use crate::node_rows::{PageNode, add_rows};
use std::alloc::Allocator;
use study_facts::{Findings, TextFault, WalkState, WalkStep, move_of, node_after, root_node};
use study_head::Reached;
use study_marks::{Aim, Bench};
use study_values::Values;

/// The sections of a page, what allocates their texts, and the positions that the moves of the study lead to.
#[derive(Drop)]
pub struct PageFindings<'a, 'k, A: Allocator> {
    pub alloc: &'a A,
    pub known: &'k [Reached],
    pub sections: Sections<'a, A>,
}

impl<'a, 'k, A: Allocator> PageFindings<'a, 'k, A> {
    /// Nothing of any node.
    pub fn new(alloc: &'a A, known: &'k [Reached]) -> Self
        ensures known { result.known ≡ known.entry }
        ensures faults { result.sections.faults ≡ [] }
        ensures duals { result.sections.duals ≡ [] }
        ensures tries { result.sections.tries ≡ [] }
        ensures zugzwangs { result.sections.zugzwangs ≡ [] }
        ensures defences { result.sections.defences ≡ [] }
        ensures ends { result.sections.ends ≡ [] }
    {
        PageFindings {
            alloc,
            known,
            sections: Sections::new(alloc),
        }
    }
}

impl<'a, 'k, A: Allocator> Findings for PageFindings<'a, 'k, A> {
    ghost use Rattle.std.specs.Prelude.{◌≡◌};
    ghost use Rattle.study_facts.specs.Made.{Grew};
    ghost use Rattle.study_page.specs.Rows.{FaultItems, Cards, TryRows, ZugzwangRows, DefenceRowsAmong, EndRows};

    ghost adds = { λ s path old new.
        (Grew (FaultItems s path) old.sections.faults new.sections.faults
        × Grew (Cards s path) old.sections.duals new.sections.duals
        × Grew (TryRows s path) old.sections.tries new.sections.tries
        × Grew (ZugzwangRows s path) old.sections.zugzwangs new.sections.zugzwangs
        × Grew (DefenceRowsAmong old.known.now s path) old.sections.defences new.sections.defences
        × Grew (EndRows s path) old.sections.ends new.sections.ends)
        × (new.known ≡ old.known) };

    #[inline(never)]
    fn add_root<'b, B: Allocator, V: Values>(
        &mut self,
        bench: &Bench<'b, B>,
        aim: &Aim,
        root: &WalkState,
        values: &mut V,
    ) -> Result<(), TextFault> {
        let first = bench.start();
        let node = PageNode {
            here: root_node(bench, aim, root),
            by: None,
            known: self.known,
        };
        add_rows(self.alloc, &mut self.sections, bench, &node, values)
    }

    #[inline(never)]
    fn add_node<'b, B: Allocator, V: Values>(
        &mut self,
        bench: &Bench<'b, B>,
        step: &WalkStep<'_>,
        values: &mut V,
    ) -> Result<(), TextFault> {
        let first = bench.start();
        let made = move_of(bench, step);
        add_move(self.alloc, &mut self.sections, bench, &made, values)?;
        let node = PageNode {
            here: node_after(bench, step),
            by: Some(made),
            known: self.known,
        };
        add_rows(self.alloc, &mut self.sections, bench, &node, values)
    }
}
