//! The row of only moves that is shown with a position.
#![tactic(auto, using(study_search::proofs::Faults::can_report, study_search::proofs::Faults::if_reported))]

ghost use Rattle.std.specs.Prelude.{◌≡◌, ◌↔◌, true, Some, IfOk, IfErr};
ghost use Rattle.study_material.specs.Needs.{NeedsClass};
ghost use Rattle.study_search.specs.Faults.{CanReport, HasSameTables};
ghost use Rattle.study_search.specs.OnlyMoves.{Has};
ghost use Rattle.study_search.specs.Rows.{IsLine};
ghost use Rattle.study_values.specs.Game.{IsValueOf};
ghost use Rattle.study_listing.specs.Facts.{outcome_by, IsMainLine};
ghost use Rattle.study_listing.specs.Features.{IsShownRow, is_on_row, HasWantedRow};

use crate::features::row_has_all;
use crate::filters::Filters;
use arrayvec::ArrayVec;
use study_board::Position;
use study_moves::values_are_unique;
use study_search::{LongestRow, Outcome, Row, longest_row, value_of};
use study_values::{ProbeFault, Value, Values};

/// The most only moves in a row that a study has as its main line.
const LONGEST: u8 = 12;

/// What the side to move has to keep.
fn outcome_by(value: Value) -> Option<Outcome>
    ensures { result ≡ outcome_by value }
{
    match value {
        Value::Win(_) => Some(Outcome::Win),
        Value::Loss(_) => None,
        Value::Draw => Some(Outcome::Draw),
    }
}

/// The longest row of only moves that keep an outcome that the side to move has.
fn row_to_keep<V: Values>(p: &Position, outcome: Outcome, values: &mut V) -> Result<Row, ProbeFault>
    ensures game { V.source.is_honest values.old → Has outcome p.now
        → IfOk result (λ row. IsMainLine p.now (Some outcome) row.items) }
    ensures legal { IfOk result (λ row. IsLine p.now row.items) }
    ensures faults { IfErr result (CanReport V.source (NeedsClass p.now) values.old) }
    ensures honest { V.source.is_honest values.old → V.source.is_honest values.new }
    ensures tables { HasSameTables V.source values.old values.new }
{
    match longest_row(p, outcome, LONGEST, values) {
        Err(fault) => Err(fault),
        Ok(None) => Ok(ArrayVec::new()),
        Ok(Some(LongestRow { count: _, row })) => Ok(row),
    }
}

/// The longest row of only moves that keep the value; none if the side to move loses.
pub(crate) fn main_line_of<V: Values>(
    p: &Position,
    value: Value,
    values: &mut V,
) -> Result<Row, ProbeFault>
    ensures game { V.source.is_honest values.old → IsValueOf p.now value
        → IfOk result (λ row. IsMainLine p.now (outcome_by value) row.items) }
    ensures legal { IfOk result (λ row. IsLine p.now row.items) }
    ensures faults { IfErr result (CanReport V.source (NeedsClass p.now) values.old) }
    ensures honest { V.source.is_honest values.old → V.source.is_honest values.new }
    ensures tables { HasSameTables V.source values.old values.new }
{
    match outcome_by(value) {
        None => Ok(ArrayVec::new()),
        Some(outcome) => row_to_keep(p, outcome, values),
    }
}

/// The row that is shown with a position.
fn shown_row<V: Values>(p: &Position, values: &mut V) -> Result<Row, ProbeFault>
    ensures game { V.source.is_honest values.old
        → IfOk result (λ row. IsShownRow p.now row.items) }
    ensures legal { IfOk result (λ row. IsLine p.now row.items) }
    ensures faults { IfErr result (CanReport V.source (NeedsClass p.now) values.old) }
    ensures honest { V.source.is_honest values.old → V.source.is_honest values.new }
    ensures tables { HasSameTables V.source values.old values.new }
{
    match value_of(p, values) {
        Err(fault) => Err(fault),
        Ok(value) => main_line_of(p, value, values),
    }
}

/// Whether some feature of the row is wanted.
fn is_on_row(filters: &Filters) -> bool
    ensures { result ≡ is_on_row filters.now.row }
{
    filters.row.iter().any(|wanted| wanted.is_some())
}

/// Whether the row that is shown with the position has the wanted features, if some are wanted.
pub(crate) fn has_wanted_row<V: Values>(
    filters: &Filters,
    p: &Position,
    values: &mut V,
) -> Result<bool, ProbeFault>
    ensures game { V.source.is_honest values.old
        → IfOk result (λ b. (b ≡ true) ↔ HasWantedRow filters.now.row p.now) }
    ensures faults { IfErr result (CanReport V.source (NeedsClass p.now) values.old) }
    ensures honest { V.source.is_honest values.old → V.source.is_honest values.new }
    ensures tables { HasSameTables V.source values.old values.new }
{
    let asked = is_on_row(filters);
    if !asked {
        return Ok(true);
    }
    values_are_unique();
    match shown_row(p, values) {
        Err(fault) => Err(fault),
        Ok(row) => row_has_all(filters.row.as_slice(), p, row.as_slice(), values),
    }
}
