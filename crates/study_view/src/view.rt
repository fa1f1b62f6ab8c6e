//! The view of a study at a path, and writing it.
ghost use Rattle.std.specs.Prelude.{◌≡◌, ◌++◌, ◌≤◌, ◌↔◌, List, ℕ, true, length, OnOk, IfOk, Err, None, IsTrue};
ghost use Rattle.std.specs.List.{All, flat_map};
ghost use Rattle.std.specs.Io.KnownBytes.{Appends};
ghost use Rattle.study_moves.specs.Rules.{is_legal};
ghost use Rattle.study_text.specs.Taken.{TakesPrefix};
ghost use Rattle.study_tree.specs.Tree.{has_spot, spot_at};
ghost use Rattle.study_marks.specs.BenchState.{marked_study, IsKeptRight};
ghost use Rattle.study_marks.specs.Study.{plain_study};
ghost use Rattle.study_values.specs.declared.values.ProbeFault.{ProbeFault as AProbeFault};
ghost use Rattle.study_facts.specs.Asked.{within};
ghost use Rattle.study_facts.specs.Order.{LinesOfEach, written_order};
ghost use Rattle.study_facts.specs.Zugzwang.{ZugzwangLines};
ghost use Rattle.study_view.specs.Asked.{HasViewed, HasWalked};
ghost use Rattle.study_view.specs.Marking.{holding_count, line_of_move};
ghost use Rattle.study_view.specs.View.{start_to, node_line, judged_lines, head_lines, IsView, IsViewOf, asked_at};
ghost use Rattle.study_head.specs.Solution.{AreSolutionFacts};
ghost use Rattle.study_head.specs.Verdict.{IsLegalStamp};
ghost use Rattle.study_view.specs.Words.{at_line};

use crate::fault::ViewFault;
use crate::move_lines::{ViewNode, add_moves};
use crate::nodes::{Lines, add_nodes};
use crate::probe::evaluate_legal_moves;
use crate::words::{add_move_count, add_sentence_line, add_stamp_line, add_start, add_worst_line};
use std::alloc::{AllocError, Allocator};
use std::io::Write;
use study_facts::{EvaluatedMove, NodeContext, TextFault, value_at};
use study_head::{Judgement, SolutionFacts, add_first_fault, judgement_of, solution_facts};
use study_marks::{Bench, aim_of};
use study_moves::MAX_MOVES;
use study_notation::Start;
use study_pgn::root_mark;
use study_review::add_stipulation_line;
use study_text::{Text, write_text};
use study_tree::Path;
use study_values::Values;

/// The verdict as a judge reads it, as a stamp, with the worst dual and in sentences.
#[tactic(auto, unfolding(crate::specs::View::judged_lines))]
fn add_judged<'a, A: Allocator>(
    alloc: &'a A,
    text: &mut Text<'_, A>,
    judged: &Judgement,
    facts: &SolutionFacts,
) -> Result<(), AllocError>
    requires { IsLegalStamp judged.now.stamp }
    ensures { OnOk result (text.new ≡ text.old ++ judged_lines judged.now facts.now) }
{
    let mut worst = Text::new(alloc);
    add_first_fault(&mut worst, &judged.stamp, facts)?;
    add_stamp_line(text, &judged.stamp)?;
    add_worst_line(text, worst.as_slice())?;
    add_sentence_line(text, judged)
}

/// The start with its counts of men, the verdict as scripts have it, and as a judge reads it.
#[tactic(auto, unfolding(crate::specs::View::head_lines))]
fn add_head<'a, 'b, A: Allocator, B: Allocator>(
    alloc: &'a A,
    text: &mut Text<'_, A>,
    bench: &Bench<'b, B>,
    facts: &SolutionFacts,
) -> Result<(), AllocError>
    ensures { OnOk result (text.new ≡ text.old
        ++ head_lines (marked_study bench.now) facts.now) }
{
    add_start(text, bench.start())?;
    add_stipulation_line(text, bench, root_mark(bench))?;
    add_judged(alloc, text, &judgement_of(bench, facts), facts)
}

/// The lines of all nodes.
fn tree_lines<'a, 'b, A: Allocator, B: Allocator, V: Values>(
    alloc: &'a A,
    bench: &Bench<'b, B>,
    values: &mut V,
) -> Result<Lines<'a, A>, ViewFault>
    ensures nodes { IfOk result (λ lines.
        lines.nodes ≡ flat_map (node_line (marked_study bench.now))
        (written_order (marked_study bench.now))) }
    ensures zugzwangs { V.source.is_honest values.old → IfOk result (λ lines.
        LinesOfEach (ZugzwangLines (marked_study bench.now))
        (written_order (marked_study bench.now)) lines.zugzwangs) }
    ensures asked { HasWalked (within (marked_study bench.now).start.position V.source)
        values.old result values.new }
{
    let mut lines = Lines {
        nodes: Text::new(alloc),
        zugzwangs: Text::new(alloc),
    };
    let mut steps = Vec::new(alloc);
    let first = bench.start();
    add_nodes(&mut lines, bench, &mut steps, first, first, values)?;
    Ok(lines)
}

/// The facts of the solution.
fn facts_of<'a, 'b, A: Allocator, B: Allocator, V: Values>(
    alloc: &'a A,
    bench: &Bench<'b, B>,
    values: &mut V,
) -> Result<SolutionFacts, ViewFault>
    ensures facts { V.source.is_honest values.old
        → IfOk result (AreSolutionFacts (marked_study bench.now)) }
    ensures asked { HasWalked (within (marked_study bench.now).start.position V.source)
        values.old result values.new }
{
    match solution_facts(alloc, bench, values) {
        Ok(facts) => Ok(facts),
        Err(TextFault::OutOfMemory) => Err(ViewFault::OutOfMemory),
        Err(TextFault::NoValue(no_value)) => Err(ViewFault::Values(no_value)),
    }
}

/// What walks of a study find: the facts of its solution, and the lines of all nodes.
#[derive(Drop)]
struct Found<'a, A: Allocator> {
    facts: SolutionFacts,
    lines: Lines<'a, A>,
}

fn found_in<'a, 'b, A: Allocator, B: Allocator, V: Values>(
    alloc: &'a A,
    bench: &Bench<'b, B>,
    values: &mut V,
) -> Result<Found<'a, A>, ViewFault>
    ensures facts { V.source.is_honest values.old
        → IfOk result (λ found. AreSolutionFacts (marked_study bench.now) found.facts) }
    ensures nodes { IfOk result (λ found.
        found.lines.nodes ≡ flat_map (node_line (marked_study bench.now))
        (written_order (marked_study bench.now))) }
    ensures zugzwangs { V.source.is_honest values.old → IfOk result (λ found.
        LinesOfEach (ZugzwangLines (marked_study bench.now))
        (written_order (marked_study bench.now)) found.lines.zugzwangs) }
    ensures asked { HasWalked (within (marked_study bench.now).start.position V.source)
        values.old result values.new }
{
    let facts = facts_of(alloc, bench, values)?;
    let lines = tree_lines(alloc, bench, values)?;
    Ok(Found { facts, lines })
}

/// The text of the view, from all legal moves with the values after them, and the lines of all nodes.
fn text_of<'a, 'b, A: Allocator, B: Allocator>(
    alloc: &'a A,
    bench: &Bench<'b, B>,
    steps: &[u16],
    here: &ViewNode<'_>,
    list: &[EvaluatedMove],
    found: &Found<'_, A>,
) -> Result<Text<'a, A>, AllocError>
    requires short { length steps.now ≤ 256 }
    requires depth { here.now.depth ≡ length steps.now }
    requires few { length list.now ≤ MAX_MOVES }
    requires legal { All (λ x. is_legal here.now.start.now.position x.played ≡ true) list.now }
    ensures { IfOk result (λ text. text ≡ head_lines (marked_study bench.now) found.now.facts
        ++ (found.now.lines.nodes ++ (at_line steps.now here.now.start.now.position
        ++ (flat_map (line_of_move here.now.aim.now here.now.depth here.now.start.now here.now.value
        (holding_count here.now.aim.now here.now.depth list.now)) list.now
        ++ found.now.lines.zugzwangs)))) }
{
    let mut text = Text::new(alloc);
    add_head(alloc, &mut text, bench, &found.facts)?;
    text.add(found.lines.nodes.as_slice())?;
    add_move_count(&mut text, steps, &here.start.position)?;
    add_moves(&mut text, here, list)?;
    text.add(found.lines.zugzwangs.as_slice())?;
    Ok(text)
}

/// The view at a node with this start.
fn view_from<'a, 'b, A: Allocator, B: Allocator, V: Values>(
    alloc: &'a A,
    bench: &Bench<'b, B>,
    steps: &[u16],
    start: &Start,
    values: &mut V,
) -> Result<Text<'a, A>, ViewFault>
    requires short { length steps.now ≤ 256 }
    requires found { IsTrue (has_spot (marked_study bench.now).tree steps.now) }
    requires start { start.now ≡ start_to (marked_study bench.now) steps.now }
    ensures text { V.source.is_honest values.old
        → IfOk result (IsView (marked_study bench.now) steps.now) }
    ensures found { ¬ (result ≡ Err ViewFault.NoSuchNode) }
    ensures device { ¬ (result ≡ Err ViewFault.Device) }
    ensures asked { HasViewed V.source
        (marked_study bench.now).start.position
        (asked_at (marked_study bench.now) steps.now) values.old result values.new }
{
    let stipulation = bench.stipulation();
    let aim = aim_of(&stipulation, bench.start().position.to_move());
    let node = NodeContext {
        aim: &aim,
        depth: steps.len(),
        position: &start.position,
    };
    let moves = evaluate_legal_moves(&node, values)?;
    let here = ViewNode {
        aim: &aim,
        depth: steps.len(),
        start,
        value: value_at(bench, steps),
    };
    let found = found_in(alloc, bench, values)?;
    let text = text_of(alloc, bench, steps, &here, moves.as_slice(), &found)?;
    Ok(text)
}

/// The view at the path.
fn view_at<'a, 'b, A: Allocator, B: Allocator, V: Values>(
    alloc: &'a A,
    bench: &Bench<'b, B>,
    path: &Path<'b, B>,
    values: &mut V,
) -> Result<Text<'a, A>, ViewFault>
    ensures text { V.source.is_honest values.old
        → IfOk result (IsView (marked_study bench.now) path.now) }
    ensures no_node { (result ≡ Err ViewFault.NoSuchNode)
        ↔ (spot_at (marked_study bench.now).tree path.now ≡ None) }
    ensures device { ¬ (result ≡ Err ViewFault.Device) }
    ensures asked { HasViewed V.source
        (marked_study bench.now).start.position
        (asked_at (marked_study bench.now) path.now) values.old result values.new }
{
    let _first = bench.start();
    match bench.start_at(path) {
        None => Err(ViewFault::NoSuchNode),
        Some(start) => view_from(alloc, bench, path.steps(), &start, values),
    }
}

/// Writes the view of a study at a path.
///
/// The values after all legal moves at the path are read, then those of the nodes and of the same men with the other side to move, and the text is
/// completed in memory: want of memory, and a value that cannot be read, are reported before the first byte. A writer that fails or accepts nothing
/// ends the call; it then has a prefix of the text.
pub fn write_view<'a, 'b, A: Allocator, B: Allocator, V: Values, W: Write>(
    alloc: &'a A,
    bench: &Bench<'b, B>,
    path: &Path<'b, B>,
    values: &mut V,
    out: &mut W,
) -> Result<(), ViewFault>
    ensures ok { V.source.is_honest values.old
        → OnOk result ((text : List ℕ) × IsView (marked_study bench.now) path.now text
        × Appends (W.contents out.old) (W.contents out.new) text) }
    ensures plain { V.source.is_honest values.old → IsKeptRight bench.now
        → OnOk result ((text : List ℕ)
        × IsViewOf (plain_study (marked_study bench.now)) path.now text
        × Appends (W.contents out.old) (W.contents out.new) text) }
    ensures no_node { (result ≡ Err ViewFault.NoSuchNode)
        ↔ (spot_at (marked_study bench.now).tree path.now ≡ None) }
    ensures device { V.source.is_honest values.old → result ≡ Err ViewFault.Device → (text : List ℕ)
        × IsView (marked_study bench.now) path.now text
        × TakesPrefix (W.contents out.old) (W.contents out.new) text }
    ensures gone { result ≡ Err ViewFault.NoSuchNode → out.new ≡ out.old }
    ensures memory { result ≡ Err ViewFault.OutOfMemory → out.new ≡ out.old }
    ensures no_value { (fault : AProbeFault)
        → result ≡ Err (ViewFault.Values fault) → out.new ≡ out.old }
    ensures asked { HasViewed V.source
        (marked_study bench.now).start.position
        (asked_at (marked_study bench.now) path.now) values.old result values.new }
{
    let text = view_at(alloc, bench, path, values)?;
    match write_text(out, text.as_slice()) {
        Ok(()) => Ok(()),
        Err(_) => Err(ViewFault::Device),
    }
}
