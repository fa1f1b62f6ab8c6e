//! The walk of a study, in written order: what is known of a node is passed on to the nodes below it.
ghost use Rattle.std.specs.Prelude.{◌≡◌, ◌<◌, ◌-◌, ℕ, List, ◌++◌, ◌∷◌, [], length, take, vec_len, Some, OnOk, IfOk, IfErr};
ghost use Rattle.study_board.specs.Position.{Position as APosition};
ghost use Rattle.study_tree.specs.Edits.{width};
ghost use Rattle.study_tree.specs.Tree.{spot_at};
ghost use Rattle.study_marks.specs.declared.mark.Mark.{Mark as AMark};
ghost use Rattle.study_marks.specs.Goals.{aim_of};
ghost use Rattle.study_marks.specs.BenchState.{marked_study};
ghost use Rattle.study_marks.specs.FaultSums.{below_at};
ghost use Rattle.study_marks.specs.Study.{Study};
ghost use Rattle.study_facts.specs.Asked.{within};
ghost use Rattle.study_facts.specs.Line.{line_to};
ghost use Rattle.study_facts.specs.Made.{HasAsked};
ghost use Rattle.study_facts.specs.Nodes.{parent_path};
ghost use Rattle.study_facts.specs.Order.{paths_from, written_order};
ghost use Rattle.study_facts.specs.Walk.{AddsEach, IsAt, IsBefore, IsWalkStep, WentTo};
ghost use Rattle.study_facts.specs.WalkState.{arrival_of, IsStateAt};
ghost use Rattle.study_facts.specs.declared.walk_state.WalkState.{WalkState as AWalkState};

use crate::children::child_count;
use crate::fault::TextFault;
use crate::mark_tests::aim_in;
use crate::walk_state::{MoveToNode, WalkState, move_to_node, root_walk_state, walk_state_after};
use std::alloc::Allocator;
use study_board::Position;
use study_marks::{Aim, Bench};
use study_values::Values;

/// A node other than the root that a walk reaches: the aim, its path, the positions from the root to the node before it, both included, the walk states
/// of that node and of its own, and the move between them.
#[derive(Clone, Copy)]
pub struct WalkStep<'n> {
    pub aim: &'n Aim,
    pub steps: &'n [u16],
    pub line: &'n [Position],
    pub before: &'n WalkState,
    pub here: &'n WalkState,
    pub by: MoveToNode,
}

/// What a walk of a study finds, node by node.
pub trait Findings {
    /// What the node at a path of a study adds.
    ghost adds: { Study AMark → List ℕ → Self → Self → Type 0 };

    /// Adds what is found at the root.
    fn add_root<'b, B: Allocator, V: Values>(
        &mut self,
        bench: &Bench<'b, B>,
        aim: &Aim,
        root: &WalkState,
        values: &mut V,
    ) -> Result<(), TextFault>
        requires aim { aim.now ≡ aim_of (marked_study bench.now) }
        requires root { IsStateAt (marked_study bench.now) [] root.now }
        ensures adds { V.source.is_honest values.old
            → OnOk result (adds (marked_study bench.now) [] self.old self.new) }
        ensures asked { HasAsked (within (marked_study bench.now).start.position V.source)
            values.old result values.new };

    /// Adds what is found at another node.
    fn add_node<'b, B: Allocator, V: Values>(
        &mut self,
        bench: &Bench<'b, B>,
        step: &WalkStep<'_>,
        values: &mut V,
    ) -> Result<(), TextFault>
        requires { IsWalkStep (marked_study bench.now) step.now.steps.now step.now.aim.now
            step.now.line.now step.now.before.now step.now.here.now step.now.by }
        ensures adds { V.source.is_honest values.old
            → OnOk result (adds (marked_study bench.now) step.now.steps.now self.old self.new) }
        ensures asked { HasAsked (within (marked_study bench.now).start.position V.source)
            values.old result values.new };
}

/// The path of a node, and the positions and the walk states from the root to it, both included.
#[derive(Drop)]
struct Trail<'a, A: Allocator> {
    steps: Vec<u16, &'a A>,
    line: Vec<Position, &'a A>,
    states: Vec<WalkState, &'a A>,
}

/// The walk state of the node where the walk is.
fn last_state<'t, A: Allocator>(trail: &'t Trail<'_, A>) -> &'t WalkState
    requires { 0 < length trail.now.states.items }
    ensures { (front : List AWalkState) × (trail.now.states.items ≡ front ++ result.now ∷ []) }
{
    match trail.states.as_slice().split_last() {
        None => unreachable!(),
        Some((last, _)) => last,
    }
}

/// A node that the walk has reached: its walk state, and the move to it.
#[derive(Drop)]
struct Reached {
    here: WalkState,
    by: MoveToNode,
}

/// The node at the end of the trail's path, whose positions and walk states end at the node before it.
fn reached_by<'a, 'b, A: Allocator, B: Allocator>(
    trail: &Trail<'a, A>,
    bench: &Bench<'b, B>,
    aim: &Aim,
) -> Reached
    requires aim { aim.now ≡ aim_of (marked_study bench.now) }
    requires states { IsBefore (marked_study bench.now) trail.now.steps.items
        trail.now.states.items }
    ensures here { IsStateAt (marked_study bench.now) trail.now.steps.items result.here }
    ensures by { arrival_of (spot_at (marked_study bench.now).tree trail.now.steps.items)
        ≡ Some result.by }
{
    let steps = trail.steps.as_slice();
    match move_to_node(bench, steps) {
        None => unreachable!(),
        Some(by) => Reached {
            here: walk_state_after(bench, aim, steps, last_state(trail), &by),
            by,
        },
    }
}

/// Adds what is found at the node that the walk has reached.
fn add_reached<'a, 'b, A: Allocator, B: Allocator, V: Values, F: Findings>(
    findings: &mut F,
    trail: &Trail<'a, A>,
    bench: &Bench<'b, B>,
    aim: &Aim,
    reached: &Reached,
    values: &mut V,
) -> Result<(), TextFault>
    requires aim { aim.now ≡ aim_of (marked_study bench.now) }
    requires line { trail.now.line.items
        ≡ line_to (marked_study bench.now) (parent_path trail.now.steps.items) }
    requires states { IsBefore (marked_study bench.now) trail.now.steps.items
        trail.now.states.items }
    requires here { IsStateAt (marked_study bench.now) trail.now.steps.items reached.now.here }
    requires by { arrival_of (spot_at (marked_study bench.now).tree trail.now.steps.items)
        ≡ Some reached.now.by }
    ensures adds { V.source.is_honest values.old
        → OnOk result
        (F.adds (marked_study bench.now) trail.now.steps.items findings.old findings.new) }
    ensures asked { HasAsked (within (marked_study bench.now).start.position V.source)
        values.old result values.new }
{
    let step = WalkStep {
        aim,
        steps: trail.steps.as_slice(),
        line: trail.line.as_slice(),
        before: last_state(trail),
        here: &reached.here,
        by: reached.by,
    };
    findings.add_node(bench, &step, values)
}

/// Goes to the child at this place, and adds what is found there. It is a call of its own, and its walk state goes to the trail, so that a ply of
/// `walk_below` takes little of the stack.
#[inline(never)]
fn descend<'a, 'b, A: Allocator, B: Allocator, V: Values, F: Findings>(
    findings: &mut F,
    trail: &mut Trail<'a, A>,
    bench: &Bench<'b, B>,
    aim: &Aim,
    place: u16,
    values: &mut V,
) -> Result<(), TextFault>
    // Many clauses: each list of the trail by itself, before and after.
    requires aim { aim.now ≡ aim_of (marked_study bench.now) }
    requires line { trail.old.line.items ≡ line_to (marked_study bench.now) trail.old.steps.items }
    requires states { IsAt (marked_study bench.now) trail.old.steps.items trail.old.states.items }
    requires there { place < width
        (below_at (marked_study bench.now).tree.below trail.old.steps.items) }
    ensures steps { OnOk result (trail.new.steps.items ≡ trail.old.steps.items ++ place ∷ []) }
    ensures line { OnOk result ((p : APosition)
        × (trail.new.line.items ≡ trail.old.line.items ++ p ∷ [])) }
    ensures line_to { OnOk result
        (trail.new.line.items ≡ line_to (marked_study bench.now) trail.new.steps.items) }
    ensures states { OnOk result
        (WentTo (marked_study bench.now) trail.new.steps.items
        trail.old.states.items trail.new.states.items) }
    ensures adds { V.source.is_honest values.old
        → OnOk result
        (F.adds (marked_study bench.now) trail.new.steps.items findings.old findings.new) }
    ensures asked { HasAsked (within (marked_study bench.now).start.position V.source)
        values.old result values.new }
{
    let first = bench.start();
    trail.steps.push(place)?;
    let reached = reached_by(trail, bench, aim);
    add_reached(findings, trail, bench, aim, &reached, values)?;
    trail.line.push(reached.here.position.copied())?;
    trail.states.push(reached.here)?;
    Ok(())
}

/// Goes back to the node before the one where the walk is. It is a call of its own, since what a `pop` returns would take of the stack of each ply.
#[inline(never)]
fn leave<A: Allocator>(trail: &mut Trail<'_, A>)
    ensures steps { trail.new.steps.items
        ≡ take (vec_len trail.old.steps - 1) trail.old.steps.items }
    ensures line { trail.new.line.items ≡ take (vec_len trail.old.line - 1) trail.old.line.items }
    ensures states { trail.new.states.items
        ≡ take (vec_len trail.old.states - 1) trail.old.states.items }
{
    trail.states.pop();
    trail.line.pop();
    trail.steps.pop();
}

/// Adds what is found at all nodes below the one where the walk is.
fn walk_below<'a, 'b, A: Allocator, B: Allocator, V: Values, F: Findings>(
    findings: &mut F,
    trail: &mut Trail<'a, A>,
    bench: &Bench<'b, B>,
    aim: &Aim,
    values: &mut V,
) -> Result<(), TextFault>
    requires aim { aim.now ≡ aim_of (marked_study bench.now) }
    requires line { trail.old.line.items ≡ line_to (marked_study bench.now) trail.old.steps.items }
    requires states { IsAt (marked_study bench.now) trail.old.steps.items trail.old.states.items }
    ensures steps { OnOk result (trail.new.steps.items ≡ trail.old.steps.items) }
    ensures line { OnOk result (trail.new.line.items ≡ trail.old.line.items) }
    ensures states { OnOk result (trail.new.states.items ≡ trail.old.states.items) }
    ensures adds { V.source.is_honest values.old
        → OnOk result (AddsEach (F.adds (marked_study bench.now))
        (paths_from trail.old.steps.items 0
        (below_at (marked_study bench.now).tree.below trail.old.steps.items))
        findings.old findings.new) }
    ensures asked { HasAsked (within (marked_study bench.now).start.position V.source)
        values.old result values.new }
{
    for place in 0..last_state(trail).children {
        descend(findings, trail, bench, aim, place, values)?;
        walk_below(findings, trail, bench, aim, values)?;
        leave(trail);
    }
    Ok(())
}

/// The trail of the root, whose walk state this is.
fn root_trail<'a, A: Allocator>(alloc: &'a A, root: WalkState) -> Result<Trail<'a, A>, TextFault>
    ensures steps { IfOk result (λ trail. trail.steps.items ≡ []) }
    ensures line { IfOk result (λ trail. trail.line.items ≡ root.position ∷ []) }
    ensures states { IfOk result (λ trail. trail.states.items ≡ root ∷ []) }
    ensures memory { IfErr result (λ reason. reason ≡ TextFault.OutOfMemory) }
{
    let mut line = Vec::new(alloc);
    line.push(root.position.copied())?;
    let mut states = Vec::new(alloc);
    states.push(root)?;
    Ok(Trail {
        steps: Vec::new(alloc),
        line,
        states,
    })
}

/// Walks a study in written order: adds what is found at the root and at each node, one after the other.
///
/// The walk takes memory for one path. It ends at the first fault, of memory or of a value; what was added by then stays.
pub fn walk_study<'a, 'b, A: Allocator, B: Allocator, V: Values, F: Findings>(
    alloc: &'a A,
    findings: &mut F,
    bench: &Bench<'b, B>,
    values: &mut V,
) -> Result<(), TextFault>
    ensures adds { V.source.is_honest values.old
        → OnOk result (AddsEach (F.adds (marked_study bench.now))
        (written_order (marked_study bench.now))
        findings.old findings.new) }
    ensures asked { HasAsked (within (marked_study bench.now).start.position V.source)
        values.old result values.new }
{
    let aim = aim_in(bench);
    let root = root_walk_state(bench, child_count(bench, &[]));
    findings.add_root(bench, &aim, &root, values)?;
    let mut trail = root_trail(alloc, root)?;
    walk_below(findings, &mut trail, bench, &aim, values)?;
    Ok(())
}
