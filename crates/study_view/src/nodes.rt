//! The lines of all nodes, in written order.
ghost use Rattle.std.specs.Prelude.{◌≡◌, ◌++◌, ◌∷◌, [], Option, IsTrue, OnOk};
ghost use Rattle.study_tree.specs.Tree.{has_spot};
ghost use Rattle.study_marks.specs.BenchState.{marked_study};
ghost use Rattle.study_marks.specs.FaultSums.{below_at};
ghost use Rattle.study_facts.specs.Made.{Grew};
ghost use Rattle.study_facts.specs.Asked.{within};
ghost use Rattle.study_facts.specs.Nodes.{parent_path};
ghost use Rattle.study_facts.specs.Zugzwang.{IsZugzwangOf, zugzwang_line, ZugzwangLines};
ghost use Rattle.study_facts.specs.declared.zugzwang.Zugzwang.{Zugzwang as AZugzwang};
ghost use Rattle.study_view.specs.Asked.{HasWalked};
ghost use Rattle.study_facts.specs.Order.{paths_from, LinesOfEach};
ghost use Rattle.study_view.specs.View.{start_to, node_line};
ghost use Rattle.study_view.specs.Nodes.{IsNodeLine};

use crate::fault::ViewFault;
use crate::words::add_node;
use std::alloc::{AllocError, Allocator};
use study_board::Position;
use study_facts::{add_zugzwang_line, child_count, move_to, zugzwang_at};
use study_marks::Bench;
use study_notation::Start;
use study_text::Text;
use study_values::Values;

/// The start at a node, from that of the node before it.
fn start_from<'b, B: Allocator>(bench: &Bench<'b, B>, steps: &[u16], before: &Start) -> Start
    requires found { IsTrue (has_spot (marked_study bench.now).tree steps.now) }
    requires before { before.now ≡ start_to (marked_study bench.now) (parent_path steps.now) }
    ensures { result ≡ start_to (marked_study bench.now) steps.now }
{
    let first = bench.start();
    match steps.split_last() {
        None => first.copied(),
        Some((_, front)) => match move_to(bench, steps) {
            None => unreachable!(),
            Some(m) => before.played(m),
        },
    }
}

/// The line of the node at the path.
fn add_node_at<'b, A: Allocator, B: Allocator>(
    text: &mut Text<'_, A>,
    bench: &Bench<'b, B>,
    steps: &[u16],
    before: &Start,
    here: &Start,
) -> Result<(), AllocError>
    requires before { before.now ≡ start_to (marked_study bench.now) (parent_path steps.now) }
    requires here { here.now ≡ start_to (marked_study bench.now) steps.now }
    ensures { OnOk result (text.new ≡ text.old ++ node_line (marked_study bench.now) steps.now) }
{
    let first = bench.start();
    match bench.node_view(steps) {
        None => Ok(()),
        Some(node) => add_node(text, steps, &before.position, &node, here),
    }
}

/// Goes to the child at this place.
fn go_down<A: Allocator>(steps: &mut Vec<u16, &A>, place: u16) -> Result<(), AllocError>
    ensures { OnOk result (steps.new.items ≡ steps.old.items ++ place ∷ []) }
{
    match steps.push(place) {
        Err(_) => Err(AllocError),
        Ok(_) => Ok(()),
    }
}

/// The line of a mutual zugzwang.
fn add_zugzwang<A: Allocator, V: Values>(
    text: &mut Text<'_, A>,
    steps: &[u16],
    p: &Position,
    values: &mut V,
) -> Result<(), ViewFault>
    ensures text { V.source.is_honest values.old
        → OnOk result ((z : Option AZugzwang) × IsZugzwangOf p.now z
        × (text.new ≡ text.old ++ zugzwang_line steps.now z)) }
    ensures asked { HasWalked (within p.now V.source) values.old result values.new }
{
    match zugzwang_at(p, values) {
        Err(fault) => Err(ViewFault::Values(fault)),
        Ok(zugzwang) => {
            add_zugzwang_line(text, steps, zugzwang)?;
            Ok(())
        }
    }
}

/// The lines of the nodes, and those of the mutual zugzwangs.
#[derive(Drop)]
pub struct Lines<'a, A: Allocator> {
    pub nodes: Text<'a, A>,
    pub zugzwangs: Text<'a, A>,
}

/// The lines of the node at the path.
fn add_own<'b, A: Allocator, B: Allocator, V: Values>(
    lines: &mut Lines<'_, A>,
    bench: &Bench<'b, B>,
    steps: &[u16],
    before: &Start,
    here: &Start,
    values: &mut V,
) -> Result<(), ViewFault>
    requires before { before.now ≡ start_to (marked_study bench.now) (parent_path steps.now) }
    requires here { here.now ≡ start_to (marked_study bench.now) steps.now }
    ensures nodes { OnOk result
        (lines.new.nodes ≡ lines.old.nodes ++ node_line (marked_study bench.now) steps.now) }
    ensures zugzwangs { V.source.is_honest values.old
        → OnOk result
        (Grew (ZugzwangLines (marked_study bench.now) steps.now)
        lines.old.zugzwangs lines.new.zugzwangs) }
    ensures asked { HasWalked (within (marked_study bench.now).start.position V.source)
        values.old result values.new }
{
    let first = bench.start();
    add_node_at(&mut lines.nodes, bench, steps, before, here)?;
    add_zugzwang(&mut lines.zugzwangs, steps, &here.position, values)
}

/// The lines of the node at the path and of all below it.
pub fn add_nodes<'b, A: Allocator, B: Allocator, V: Values>(
    lines: &mut Lines<'_, A>,
    bench: &Bench<'b, B>,
    steps: &mut Vec<u16, &A>,
    before: &Start,
    here: &Start,
    values: &mut V,
) -> Result<(), ViewFault>
    requires found { IsTrue (has_spot (marked_study bench.now).tree steps.old.items) }
    requires before { before.now ≡ start_to (marked_study bench.now) (parent_path steps.old.items) }
    requires here { here.now ≡ start_to (marked_study bench.now) steps.old.items }
    ensures nodes { OnOk result (Grew (LinesOfEach (IsNodeLine (marked_study bench.now))
        (steps.old.items
        ∷ paths_from steps.old.items 0 (below_at (marked_study bench.now).tree.below steps.old.items)))
        lines.old.nodes lines.new.nodes) }
    ensures zugzwangs { V.source.is_honest values.old
        → OnOk result (Grew (LinesOfEach (ZugzwangLines (marked_study bench.now))
        (steps.old.items
        ∷ paths_from steps.old.items 0 (below_at (marked_study bench.now).tree.below steps.old.items)))
        lines.old.zugzwangs lines.new.zugzwangs) }
    ensures path { OnOk result (steps.new.items ≡ steps.old.items) }
    ensures asked { HasWalked (within (marked_study bench.now).start.position V.source)
        values.old result values.new }
{
    add_own(lines, bench, steps.as_slice(), before, here, values)?;
    let count = child_count(bench, steps.as_slice());
    for place in 0..count {
        go_down(steps, place)?;
        let next = start_from(bench, steps.as_slice(), here);
        add_nodes(lines, bench, steps, here, &next, values)?;
        steps.pop();
    }
    Ok(())
}
