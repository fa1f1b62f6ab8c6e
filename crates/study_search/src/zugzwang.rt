//! Mutual zugzwangs: either side can be to move and has a legal move, and the two sides to move score less than one point between them.
#![tactic(auto, using(crate::proofs::Faults::can_report, crate::proofs::Faults::if_reported))]

ghost use Rattle.std.specs.Prelude.{◌≡◌, ◌<◌, ◌↔◌, true, IfOk, IfErr};
ghost use Rattle.study_board.specs.Position.{IsValid};
ghost use Rattle.study_zugzwang.specs.Zugzwang.{Scores, ScoresLessThan, handed_on, IsZugzwang};
ghost use Rattle.study_material.specs.Needs.{NeedsClass};
ghost use Rattle.study_search.specs.Faults.{CanReport, HasSameTables};
ghost use Rattle.study_search.specs.Listed.{OtherScoresLess};
ghost use Rattle.study_search.specs.OnlyMoves.{Holds};
ghost use Rattle.study_search.specs.Themes.{IsZugzwangOf};

use crate::only_moves::{Outcome, holds};
use crate::value::value_of;
use study_board::Position;
use study_moves::{has_legal_en_passant, values_are_unique};
use study_values::{ProbeFault, Values};
use study_zugzwang::{half_points, handed_on, with_other_to_move};

/// The number of half points that the side to move scores.
fn score<V: Values>(p: &Position, values: &mut V) -> Result<u8, ProbeFault>
    ensures game { V.source.is_honest values.old → IfOk result (Scores p.now) }
    ensures few { IfOk result (λ k. k < 3) }
    ensures faults { IfErr result (CanReport V.source (NeedsClass p.now) values.old) }
    ensures honest { V.source.is_honest values.old → V.source.is_honest values.new }
    ensures tables { HasSameTables V.source values.old values.new }
{
    match value_of(p, values) {
        Err(fault) => Err(fault),
        Ok(value) => Ok(half_points(value)),
    }
}

fn scores_less_than<V: Values>(p: &Position, limit: u8, values: &mut V) -> Result<bool, ProbeFault>
    ensures game { V.source.is_honest values.old
        → IfOk result (λ b. (b ≡ true) ↔ ScoresLessThan p.now limit) }
    ensures faults { IfErr result (CanReport V.source (NeedsClass p.now) values.old) }
    ensures honest { V.source.is_honest values.old → V.source.is_honest values.new }
    ensures tables { HasSameTables V.source values.old values.new }
{
    values_are_unique();
    match score(p, values) {
        Err(fault) => Err(fault),
        Ok(points) => Ok(points < limit),
    }
}

/// Whether no capture in passing is legal, either side has a legal move, and with the other side to move that side scores less.
fn other_scores_less<V: Values>(p: &Position, limit: u8, values: &mut V) -> Result<bool, ProbeFault>
    ensures game { V.source.is_honest values.old
        → IfOk result (λ b. (b ≡ true) ↔ OtherScoresLess p.now limit) }
    ensures faults { IfErr result (CanReport V.source (NeedsClass p.now) values.old) }
    ensures honest { V.source.is_honest values.old → V.source.is_honest values.new }
    ensures tables { HasSameTables V.source values.old values.new }
{
    let passing = has_legal_en_passant(p);
    if passing {
        return Ok(false);
    }
    match with_other_to_move(p) {
        None => Ok(false),
        Some(q) => scores_less_than(&q, limit, values),
    }
}

/// Whether the position is a mutual zugzwang, whoever is to move. If the side to move wins, nothing else is evaluated.
pub fn is_zugzwang<V: Values>(p: &Position, values: &mut V) -> Result<bool, ProbeFault>
    ensures game { V.source.is_honest values.old
        → IfOk result (λ b. (b ≡ true) ↔ IsZugzwang p.now) }
    ensures faults { IfErr result (CanReport V.source (NeedsClass p.now) values.old) }
    ensures honest { V.source.is_honest values.old → V.source.is_honest values.new }
    ensures tables { HasSameTables V.source values.old values.new }
{
    values_are_unique();
    match score(p, values) {
        Err(fault) => Err(fault),
        Ok(points) => {
            if points == 2 {
                return Ok(false);
            }
            other_scores_less(p, 2 - points, values)
        }
    }
}

/// Whether the hero, who is to move, would keep the outcome if the opponent were to move.
fn holds_on<V: Values>(p: &Position, outcome: Outcome, values: &mut V) -> Result<bool, ProbeFault>
    ensures game { V.source.is_honest values.old → IsValid (handed_on p.now)
        → IfOk result (λ b. (b ≡ true) ↔ Holds outcome (handed_on p.now)) }
    ensures faults { IfErr result (CanReport V.source (NeedsClass p.now) values.old) }
    ensures honest { V.source.is_honest values.old → V.source.is_honest values.new }
    ensures tables { HasSameTables V.source values.old values.new }
{
    match handed_on(p) {
        None => Ok(false),
        Some(q) => holds(&q, outcome, values),
    }
}

/// Whether the position is a mutual zugzwang in which the hero, who is to move, would keep the outcome if the opponent were to move.
pub(crate) fn is_zugzwang_of<V: Values>(
    p: &Position,
    outcome: Outcome,
    values: &mut V,
) -> Result<bool, ProbeFault>
    ensures game { V.source.is_honest values.old
        → IfOk result (λ b. (b ≡ true) ↔ IsZugzwangOf outcome p.now) }
    ensures faults { IfErr result (CanReport V.source (NeedsClass p.now) values.old) }
    ensures honest { V.source.is_honest values.old → V.source.is_honest values.new }
    ensures tables { HasSameTables V.source values.old values.new }
{
    match is_zugzwang(p, values) {
        Err(fault) => Err(fault),
        Ok(false) => Ok(false),
        Ok(true) => holds_on(p, outcome, values),
    }
}
