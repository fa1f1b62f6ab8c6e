//! The verdict on a study, and its words.
ghost use Rattle.std.specs.Prelude.{◌≡◌, IfSome};
ghost use Rattle.study_marks.specs.BenchState.{marked_study};
ghost use Rattle.study_head.specs.Verdict.{asks_too_little, excess_stamp, wrong_stamp, other_named, cook_of, are_minor, missing_beside, dual_stamp};
ghost use Rattle.study_head.specs.Verdict.{solution_stamp, stamp_of, IsLegalStamp, judgement_of, standing_stamp, is_whole, entry_judgement};

use crate::mistake::{NamedMove, copy_of, first_mistake};
use crate::solution::{DualCounts, DualKind, NamedDual, SolutionFacts};
use std::alloc::Allocator;
use study_board::Side;
use study_entry::Standing;
use study_facts::is_empty;
use study_marks::{Bench, Goal, Stipulation, hero_mates};
use study_moves::Move;
use study_pgn::{meets_stipulation, root_mark};
use study_values::Value;

/// The verdict on a study.
#[derive(Drop)]
pub enum Stamp {
    /// The stipulation is wrong: this side is to draw, and wins.
    Wins(Side),
    /// The stipulation is wrong: mate comes in fewer moves. The value is that of the start, where this side is to move.
    Mates(Side, Value),
    /// The stipulation is wrong: the hero does not reach his goal.
    Misses(Stipulation),
    /// The author's first mistake, and a refutation of it, if there is one.
    Fails(NamedMove, Option<NamedMove>),
    /// Another first move that works.
    Cooked(NamedMove),
    /// Each move of the solution is the only one, or the duals only waste time. A main defence may not be given.
    Sound(bool, Option<NamedMove>),
    /// The stipulation is correct, and no move of the hero is given.
    Correct,
    /// The number of duals, and how many there are of each kind. Beside minor ones a main defence may not be given.
    Duals(u32, DualCounts, Option<NamedMove>),
    /// No verdict is given, since this line of the script could not be read.
    NotRead(u32),
    /// A line beside the solution, from which the goal is not reached.
    Refuted,
    /// A line beside the solution, from which the goal is reached. What the other side could have done before is not known.
    Works,
}

/// Whether the hero, who is to move or not, reaches more than he is asked for.
fn asks_too_little(goal: Goal, first: bool, value: Value) -> bool
    ensures { result ≡ asks_too_little goal first value }
{
    match goal {
        Goal::Win => false,
        Goal::Draw => hero_mates(first, value).is_some(),
        Goal::MateIn(moves) => match hero_mates(first, value) {
            None => false,
            Some(plies) => {
                let limit = 2 * moves.count();
                plies < if first { limit - 1 } else { limit }
            }
        },
    }
}

fn excess_stamp(goal: Goal, hero: Side, first: Side, value: Value) -> Stamp
    ensures stamp { result ≡ excess_stamp goal hero first value }
    ensures legal { IsLegalStamp result }
{
    match goal {
        Goal::Draw => Stamp::Wins(hero),
        Goal::Win => Stamp::Mates(first, value),
        Goal::MateIn(_) => Stamp::Mates(first, value),
    }
}

/// What is wrong with the stipulation, if anything is, at a start of this value where this side is to move.
fn wrong_stamp(stipulation: Stipulation, first: Side, value: Value) -> Option<Stamp>
    ensures stamp { result ≡ wrong_stamp stipulation first value }
    ensures legal { IfSome result IsLegalStamp }
{
    let hero_first = stipulation.hero == first;
    if asks_too_little(stipulation.goal, hero_first, value) {
        return Some(excess_stamp(stipulation.goal, stipulation.hero, first, value));
    }
    if meets_stipulation(stipulation.goal, hero_first, value) {
        return None;
    }
    Some(Stamp::Misses(stipulation))
}

/// The other first move of a cook.
fn other_named(dual: &NamedDual) -> Option<NamedMove>
    ensures { result ≡ other_named dual.now.author dual.now.other }
{
    match dual.other {
        None => None,
        Some(played) => Some(NamedMove {
            number: dual.author.number,
            position: dual.author.position.copied(),
            played,
        }),
    }
}

fn cook_of(worst: &Option<NamedDual>) -> Option<NamedMove>
    ensures { result ≡ cook_of worst.now }
{
    match worst {
        None => None,
        Some(dual) => match dual.kind {
            DualKind::Cook => other_named(dual),
            _ => None,
        },
    }
}

/// Whether all duals are in last moves, or waste time.
fn are_minor(counts: &DualCounts) -> bool
    ensures { result ≡ are_minor counts.now }
{
    counts.cooks == 0 && counts.main == 0 && counts.variations == 0
}

/// A main defence that is not given is said beside minor duals.
fn missing_beside(facts: &SolutionFacts) -> Option<NamedMove>
    ensures { result ≡ missing_beside facts.now }
{
    if are_minor(&facts.counts) {
        copy_of(&facts.missing)
    } else {
        None
    }
}

/// Of so many duals, some of which do more than waste time.
fn dual_stamp(duals: u32, facts: &SolutionFacts) -> Stamp
    ensures stamp { result ≡ dual_stamp duals facts.now }
    ensures legal { IsLegalStamp result }
{
    match cook_of(&facts.worst) {
        Some(other) => Stamp::Cooked(other),
        None => Stamp::Duals(duals, facts.counts, missing_beside(facts)),
    }
}

/// Of a solution without a mistake.
fn solution_stamp(duals: u32, empty: bool, facts: &SolutionFacts) -> Stamp
    ensures stamp { result ≡ solution_stamp duals empty facts.now }
    ensures legal { IsLegalStamp result }
{
    if duals != 0 {
        if facts.counts.time == duals {
            return Stamp::Sound(true, copy_of(&facts.missing));
        }
        return dual_stamp(duals, facts);
    }
    if empty {
        return Stamp::Correct;
    }
    Stamp::Sound(false, copy_of(&facts.missing))
}

/// The verdict on a study with these facts.
fn stamp_of<'b, B: Allocator>(bench: &Bench<'b, B>, facts: &SolutionFacts) -> Stamp
    ensures stamp { result ≡ stamp_of (marked_study bench.now) facts.now }
    ensures legal { IsLegalStamp result }
{
    let first = bench.start().position.to_move();
    let root = root_mark(bench);
    match wrong_stamp(bench.stipulation(), first, root.value) {
        Some(wrong) => wrong,
        None => match first_mistake(bench) {
            Some(mistake) => Stamp::Fails(mistake, copy_of(&facts.refutation)),
            None => solution_stamp(root.faults, is_empty(bench), facts),
        },
    }
}

/// What a judge reads of a study.
#[derive(Drop)]
pub struct Judgement {
    pub stamp: Stamp,
    pub empty: bool,
    pub first: Side,
    pub value: Value,
}

/// What a judge reads of the study, which has these facts.
pub fn judgement_of<'b, B: Allocator>(bench: &Bench<'b, B>, facts: &SolutionFacts) -> Judgement
    ensures judged { result ≡ judgement_of (marked_study bench.now) facts.now }
    ensures legal { IsLegalStamp result.stamp }
{
    Judgement {
        stamp: stamp_of(bench, facts),
        empty: is_empty(bench),
        first: bench.start().position.to_move(),
        value: root_mark(bench).value,
    }
}

/// The verdict on an entry that is not a whole study may not be the one on its moves.
fn standing_stamp(standing: Standing, stamp: Stamp) -> Stamp
    requires { IsLegalStamp stamp }
    ensures stamp { result ≡ standing_stamp standing stamp }
    ensures legal { IsLegalStamp result }
{
    match standing {
        Standing::Whole => stamp,
        Standing::NotRead(line) => Stamp::NotRead(line),
        Standing::BesideSolution => match stamp {
            Stamp::Misses(_) => Stamp::Refuted,
            _ => Stamp::Works,
        },
    }
}

fn is_whole(standing: Standing) -> bool
    ensures { result ≡ is_whole standing }
{
    match standing {
        Standing::Whole => true,
        Standing::NotRead(_) => false,
        Standing::BesideSolution => false,
    }
}

/// What a judge reads of an entry. No verdict is given on a study that was not read to its end, and of a try it is only said whether it is refuted.
pub fn entry_judgement<'b, B: Allocator>(
    bench: &Bench<'b, B>,
    facts: &SolutionFacts,
    standing: Standing,
) -> Judgement
    ensures judged { result ≡ entry_judgement (marked_study bench.now) facts.now standing }
    ensures legal { IsLegalStamp result.stamp }
{
    Judgement {
        stamp: standing_stamp(standing, stamp_of(bench, facts)),
        empty: is_whole(standing) && is_empty(bench),
        first: bench.start().position.to_move(),
        value: root_mark(bench).value,
    }
}
