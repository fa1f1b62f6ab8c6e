//! What a judge asks of a solution beside the marks of its moves.
ghost use Rattle.std.specs.Prelude.{◌≡◌, ◌<◌, ◌≤◌, ◌^◌, length};
ghost use Rattle.std.specs.List.{All};
ghost use Rattle.study_marks.specs.BenchState.{marked_study};
ghost use Rattle.study_facts.specs.Play.{IsPlayed};
ghost use Rattle.study_facts.specs.StudyNode.{IsStudyMove, IsStudyNode};
ghost use Rattle.study_head.specs.Reached.{named_at};
ghost use Rattle.study_head.specs.Solution.{kind_at, dual_kind, one_more, counted, rank, turn_depth, turn_at};
ghost use Rattle.study_head.specs.Solution.{first_lasting, first_other, dual_at, is_worse, worse_of, with_dual, first_reply, with_mistake, lasts_as_long};
ghost use Rattle.study_head.specs.Solution.{is_main_defence, main_defence, named_defence, with_missing, is_given_defence, no_facts};
ghost use Rattle.study_head.specs.MainLine.{is_main};

use crate::mistake::NamedMove;
use crate::reached::{Reached, first_to, named_at};
use crate::words::number_at;
use std::alloc::Allocator;
use study_board::Position;
use study_facts::{
    Alternative, Defence, EvaluatedMove, StudyMove, StudyNode, all_lose_time, ends_with, move_to,
};
use study_marks::{Bench, hero_moves};
use study_moves::{Move, played};
use study_values::Value;

/// How a judge counts a dual.
#[derive(Clone, Copy, Debug, PartialEq, Eq)]
pub enum DualKind {
    /// Another first move works.
    Cook,
    /// Another move of the main line works.
    MainLine,
    /// Another move of a variation works.
    Variation,
    /// Another move works where the hero makes no more.
    LastMove,
    /// The other moves only waste time.
    WastesTime,
}

/// How many duals of each kind a solution has.
#[derive(Clone, Copy, Debug, PartialEq, Eq)]
pub struct DualCounts {
    pub cooks: u32,
    pub main: u32,
    pub variations: u32,
    pub last: u32,
    pub time: u32,
}

/// A dual: its kind, the author's move, the first of the other moves and their number, and, in a variation, the move with which that begins.
#[derive(Drop)]
pub struct NamedDual {
    pub kind: DualKind,
    pub author: NamedMove,
    pub other: Option<Move>,
    pub others: u16,
    pub turn: Option<NamedMove>,
}

/// What a judge asks of a solution beside the marks of its moves.
#[derive(Drop)]
pub struct SolutionFacts {
    pub counts: DualCounts,
    /// The worst dual, the first of its kind.
    pub worst: Option<NamedDual>,
    /// Whether some move of the hero is a mistake.
    pub fails: bool,
    /// A refutation of the first mistake. There is none if it stalemates, or mates too late.
    pub refutation: Option<NamedMove>,
    /// The first main defence that is not given: it lasts at least as long as the one of the main line, has one answer, and leads to no position that a
    /// move of the study leads to.
    pub missing: Option<NamedMove>,
}

impl SolutionFacts {
    /// Of a solution without a move.
    pub fn none() -> Self
        ensures { result ≡ no_facts }
    {
        SolutionFacts {
            counts: DualCounts {
                cooks: 0,
                main: 0,
                variations: 0,
                last: 0,
                time: 0,
            },
            worst: None,
            fails: false,
            refutation: None,
            missing: None,
        }
    }

    /// Adds a dual.
    pub fn note_dual(&mut self, dual: NamedDual)
        ensures { self.new ≡ with_dual self.old dual }
    {
        self.counts = counted(self.counts, dual.kind);
        keep_worse(&mut self.worst, dual);
    }

    /// Adds a mistake with this refutation.
    pub fn note_mistake(&mut self, reply: Option<NamedMove>)
        ensures { self.new ≡ with_mistake self.old reply }
    {
        if !self.fails {
            self.refutation = reply;
        }
        self.fails = true;
    }

    /// Adds the first main defence beside a given one, if there is such a defence.
    pub fn note_missing(&mut self, defence: Option<NamedMove>)
        ensures { self.new ≡ with_missing self.old defence }
    {
        if self.missing.is_none() {
            self.missing = defence;
        }
    }
}

fn kind_at(first: bool, last: bool, main: bool) -> DualKind
    ensures { result ≡ kind_at first last main }
{
    if first {
        DualKind::Cook
    } else if last {
        DualKind::LastMove
    } else if main {
        DualKind::MainLine
    } else {
        DualKind::Variation
    }
}

/// Whether each move of a path is a first child.
pub fn is_main(steps: &[u16]) -> bool
    ensures { result ≡ is_main steps.now }
{
    match steps.split_first() {
        None => true,
        Some((place, rest)) => *place == 0 && is_main(rest),
    }
}

fn dual_kind<'b, B: Allocator>(bench: &Bench<'b, B>, steps: &[u16], wastes: bool) -> DualKind
    ensures { result ≡ dual_kind (marked_study bench.now) steps.now wastes }
{
    if wastes {
        return DualKind::WastesTime;
    }
    kind_at(steps.len() < 3, ends_with(bench, steps), is_main(steps))
}

fn one_more(count: u32) -> u32
    ensures { result ≡ one_more count }
{
    if count < u32::MAX { count + 1 } else { count }
}

fn counted(counts: DualCounts, kind: DualKind) -> DualCounts
    ensures { result ≡ counted counts kind }
{
    let mut counts = counts;
    match kind {
        DualKind::Cook => counts.cooks = one_more(counts.cooks),
        DualKind::MainLine => counts.main = one_more(counts.main),
        DualKind::Variation => counts.variations = one_more(counts.variations),
        DualKind::LastMove => counts.last = one_more(counts.last),
        DualKind::WastesTime => counts.time = one_more(counts.time),
    }
    counts
}

/// How bad a dual is: the least number is the worst.
fn rank(kind: DualKind) -> u8
    ensures { result ≡ rank kind }
{
    match kind {
        DualKind::Cook => 0,
        DualKind::MainLine => 1,
        DualKind::Variation => 2,
        DualKind::LastMove => 3,
        DualKind::WastesTime => 4,
    }
}

/// Whether a dual of this kind is worse than the one that is known.
fn is_worse(known: &Option<NamedDual>, kind: DualKind) -> bool
    ensures { result ≡ is_worse known.now kind }
{
    match known {
        None => true,
        Some(known) => rank(kind) < rank(known.kind),
    }
}

/// Keeps the worse of two duals, the earlier of two of one kind.
fn keep_worse(worst: &mut Option<NamedDual>, dual: NamedDual)
    ensures { worst.new ≡ worse_of worst.old dual }
{
    if is_worse(worst, dual.kind) {
        *worst = Some(dual);
    }
}

/// How many moves of a path lead to its last move that is not a first child.
fn turn_depth(steps: &[u16]) -> usize
    ensures depth { result ≡ turn_depth steps.now }
    ensures within { result ≤ length steps.now }
{
    let Some((place, rest)) = steps.split_first() else {
        return 0;
    };
    let below = turn_depth(rest);
    if below != 0 {
        below + 1
    } else if *place != 0 {
        1
    } else {
        0
    }
}

/// The move with which the last variation on the way to a move begins, if it is so deep.
fn turn_at<'b, B: Allocator>(
    bench: &Bench<'b, B>,
    step: &StudyMove<'_>,
    depth: usize,
) -> Option<NamedMove>
    requires step { IsStudyMove (marked_study bench.now) step.now }
    requires within { depth ≤ length step.now.steps.now }
    ensures { result ≡ turn_at (marked_study bench.now) step.now.steps.now depth }
{
    if depth == 0 {
        return None;
    }
    let position = step.line.get(depth - 1)?;
    let played = move_to(bench, &step.steps[..depth])?;
    Some(NamedMove {
        number: number_at(bench.start(), depth - 1),
        position: position.copied(),
        played,
    })
}

/// The first of these moves that does more than waste time.
fn first_lasting(list: &[Alternative]) -> Option<Move>
    ensures { result ≡ first_lasting list.now }
{
    match list.split_first() {
        None => None,
        Some((first, rest)) => {
            if first.time.is_some() {
                first_lasting(rest)
            } else {
                Some(first.played)
            }
        }
    }
}

/// The move that is named beside a dual: none that only wastes time, if another does more.
fn first_other(list: &[Alternative]) -> Option<Move>
    ensures { result ≡ first_other list.now }
{
    match first_lasting(list) {
        Some(played) => Some(played),
        None => match list.split_first() {
            None => None,
            Some((first, _)) => Some(first.played),
        },
    }
}

/// The dual by a step, beside which these moves hold.
pub fn dual_at<'b, B: Allocator>(
    bench: &Bench<'b, B>,
    step: &StudyMove<'_>,
    list: &[Alternative],
) -> NamedDual
    requires step { IsStudyMove (marked_study bench.now) step.now }
    requires few { length list.now < 2 ^ 16 }
    ensures { result ≡ dual_at (marked_study bench.now) step.now.steps.now step.now.played
        list.now }
{
    NamedDual {
        kind: dual_kind(bench, step.steps, all_lose_time(list)),
        author: named_at(bench, step, step.played),
        other: first_other(list),
        others: list.len() as u16,
        turn: turn_at(bench, step, turn_depth(step.steps)),
    }
}

/// The first of these moves at a node, by its name.
pub fn first_reply<'b, B: Allocator>(
    bench: &Bench<'b, B>,
    node: &StudyNode<'_>,
    list: &[EvaluatedMove],
) -> Option<NamedMove>
    requires { IsStudyNode (marked_study bench.now) node.now }
    ensures { result ≡ first_reply (marked_study bench.now) node.now.steps.now list.now }
{
    let (first, _) = list.split_first()?;
    Some(NamedMove {
        number: number_at(bench.start(), node.node.depth),
        position: node.node.position.copied(),
        played: first.played,
    })
}

/// Whether, by the values after two defences, the second keeps the hero at least as long from mate as the first: a draw lasts for ever.
fn lasts_as_long(given: Value, other: Value) -> bool
    ensures { result ≡ lasts_as_long given other }
{
    match other {
        Value::Win(more) => match given {
            Value::Win(plies) => more >= plies,
            Value::Loss(_) => false,
            Value::Draw => false,
        },
        Value::Loss(_) => false,
        Value::Draw => match given {
            Value::Win(_) => true,
            Value::Loss(_) => false,
            Value::Draw => true,
        },
    }
}

/// Whether a defence lasts at least as long as the one with this value, has one answer, and leads to no position that a move of the study leads to.
pub fn is_main_defence(known: &[Reached], p: &Position, given: Value, y: &Defence) -> bool
    requires { IsPlayed p.now y.now }
    ensures { result ≡ is_main_defence known.now p.now given y.now }
{
    if y.only.is_none() || !lasts_as_long(given, y.value) {
        return false;
    }
    first_to(known, &played(p, y.played)).is_none()
}

/// The first main defence of these, beside the one with this value.
fn main_defence(known: &[Reached], p: &Position, given: Value, list: &[Defence]) -> Option<Move>
    requires { All (IsPlayed p.now) list.now }
    ensures { result ≡ main_defence known.now p.now given list.now }
{
    match list.split_first() {
        None => None,
        Some((y, rest)) => {
            if is_main_defence(known, p, given, y) {
                return Some(y.played);
            }
            main_defence(known, p, given, rest)
        }
    }
}

/// The first main defence beside a given one, of a study whose moves lead to these positions.
pub fn missing_beside<'b, B: Allocator>(
    bench: &Bench<'b, B>,
    known: &[Reached],
    step: &StudyMove<'_>,
    list: &[Defence],
) -> Option<NamedMove>
    requires step { IsStudyMove (marked_study bench.now) step.now }
    requires legal { All (IsPlayed step.now.before.position.now) list.now }
    ensures { result ≡ named_defence (marked_study bench.now) step.now.steps.now
        (main_defence known.now step.now.before.position.now step.now.mark.value list.now) }
{
    let defence = main_defence(known, step.before.position, step.mark.value, list)?;
    Some(named_at(bench, step, defence))
}

/// Whether a step is the opponent's, in the main line.
pub fn is_given_defence<'b, B: Allocator>(bench: &Bench<'b, B>, step: &StudyMove<'_>) -> bool
    requires { IsStudyMove (marked_study bench.now) step.now }
    ensures { result ≡ is_given_defence (marked_study bench.now) step.now.steps.now }
{
    !hero_moves(step.before.aim, step.before.depth) && is_main(step.steps)
}
