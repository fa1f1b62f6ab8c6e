//! Whether a study has a solution, and where its lines end.
ghost use Rattle.std.specs.Prelude.{◌≡◌, ◌≤◌, length};
ghost use Rattle.study_tree.specs.Edits.{width};
ghost use Rattle.study_marks.specs.Goals.{aim_of};
ghost use Rattle.study_marks.specs.BenchState.{marked_study};
ghost use Rattle.study_marks.specs.FaultSums.{below_at, siblings_from};
ghost use Rattle.study_facts.specs.Order.{is_empty, has_no_grandchild};

use crate::children::{child_count, grandchild_count};
use crate::mark_tests::aim_in;
use std::alloc::Allocator;
use study_marks::{Bench, hero_moves};

/// Whether no child of the node from a place on has a child.
fn has_no_grandchild<'b, B: Allocator>(
    bench: &Bench<'b, B>,
    steps: &[u16],
    place: u16,
    count: u16,
) -> bool
    requires short { length steps.now ≤ 256 }
    requires within { place ≤ count }
    requires all { count ≡ width (below_at (marked_study bench.now).tree.below steps.now) }
    ensures { result ≡ has_no_grandchild
        (siblings_from place (below_at (marked_study bench.now).tree.below steps.now)) }
{
    if place >= count {
        return true;
    }
    grandchild_count(bench, steps, place) == 0 && has_no_grandchild(bench, steps, place + 1, count)
}

/// Whether the node, or each of its children, is an end of the tree: no move comes after the answers that are given there.
#[inline(never)]
pub fn ends_with<'b, B: Allocator>(bench: &Bench<'b, B>, steps: &[u16]) -> bool
    ensures { result ≡ has_no_grandchild
        (below_at (marked_study bench.now).tree.below steps.now) }
{
    let first = bench.start();
    match bench.node_view(steps) {
        None => true,
        Some(node) => has_no_grandchild(bench, steps, 0, node.children),
    }
}

/// Whether the solution has no move of the hero.
pub fn is_empty<'b, B: Allocator>(bench: &Bench<'b, B>) -> bool
    ensures { result ≡ is_empty (aim_of (marked_study bench.now)).hero_first
        (marked_study bench.now).tree.below }
{
    let aim = aim_in(bench);
    if hero_moves(&aim, 0) {
        child_count(bench, &[]) == 0
    } else {
        ends_with(bench, &[])
    }
}
