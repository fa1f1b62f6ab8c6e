//! The facts in the text of a position.
#![tactic(auto, using(study_search::proofs::Faults::can_report, study_search::proofs::Faults::if_reported))]

ghost use Rattle.std.specs.Prelude.{◌≡◌, true, IfOk, IfErr, IfSome};
ghost use Rattle.study_moves.specs.Rules.{is_legal};
ghost use Rattle.study_values.specs.Game.{IsValueOf};
ghost use Rattle.study_material.specs.Needs.{NeedsClass};
ghost use Rattle.study_search.specs.Faults.{CanReport, HasSameTables};
ghost use Rattle.study_listing.specs.Facts.{AreFacts, IsOtherValue, IsOneKey, SaidIf, has_other, has_key};

use study_board::Position;
use study_moves::{Move, values_are_unique};
use study_search::{Outcome, Theme, key_move, value_of};
use study_values::{ProbeFault, Value, Values};
use study_zugzwang::handed_on;

/// The facts in the text of a position.
#[derive(Clone, Copy, Debug, PartialEq, Eq)]
pub struct Facts {
    /// The value of the position.
    pub value: Value,
    /// The value of the same men with the other side to move.
    pub other: Option<Value>,
    /// The only move that keeps the result of the side to move.
    pub key: Option<Move>,
}

/// The facts wanted beside the value.
#[derive(Clone, Copy, Debug, PartialEq, Eq)]
pub struct Wanted {
    pub other: bool,
    pub key: bool,
}

/// The facts in a line for a position with this theme.
pub fn wanted_for(theme: Theme) -> Wanted
    ensures other { result.other ≡ has_other theme }
    ensures key { result.key ≡ has_key theme }
{
    match theme {
        Theme::Zugzwang => Wanted {
            other: true,
            key: false,
        },
        Theme::MateIn(_) => Wanted {
            other: false,
            key: false,
        },
        _ => Wanted {
            other: false,
            key: true,
        },
    }
}

/// The only move that keeps the result of the side to move, by its value.
fn find_key<V: Values>(
    p: &Position,
    value: Value,
    values: &mut V,
) -> Result<Option<Move>, ProbeFault>
    ensures game { V.source.is_honest values.old → IsValueOf p.now value
        → IfOk result (IsOneKey p.now) }
    ensures legal { IfOk result (λ key. IfSome key (λ m. is_legal p.now m ≡ true)) }
    ensures faults { IfErr result (CanReport V.source (NeedsClass p.now) values.old) }
    ensures honest { V.source.is_honest values.old → V.source.is_honest values.new }
    ensures tables { HasSameTables V.source values.old values.new }
{
    values_are_unique();
    match value {
        Value::Win(_) => key_move(p, Outcome::Win, values),
        Value::Draw => key_move(p, Outcome::Draw, values),
        Value::Loss(_) => Ok(None),
    }
}

/// The one key, if it is wanted.
fn key_if<V: Values>(
    wanted: bool,
    p: &Position,
    value: Value,
    values: &mut V,
) -> Result<Option<Move>, ProbeFault>
    ensures game { V.source.is_honest values.old → IsValueOf p.now value
        → IfOk result (SaidIf wanted (IsOneKey p.now)) }
    ensures legal { IfOk result (λ key. IfSome key (λ m. is_legal p.now m ≡ true)) }
    ensures faults { IfErr result (CanReport V.source (NeedsClass p.now) values.old) }
    ensures honest { V.source.is_honest values.old → V.source.is_honest values.new }
    ensures tables { HasSameTables V.source values.old values.new }
{
    if wanted {
        return find_key(p, value, values);
    }
    Ok(None)
}

/// The value with the other side to move, if that position is valid.
fn other_value<V: Values>(p: &Position, values: &mut V) -> Result<Option<Value>, ProbeFault>
    ensures game { V.source.is_honest values.old → IfOk result (IsOtherValue p.now) }
    ensures faults { IfErr result (CanReport V.source (NeedsClass p.now) values.old) }
    ensures honest { V.source.is_honest values.old → V.source.is_honest values.new }
    ensures tables { HasSameTables V.source values.old values.new }
{
    match handed_on(p) {
        None => Ok(None),
        Some(q) => match value_of(&q, values) {
            Err(fault) => Err(fault),
            Ok(value) => Ok(Some(value)),
        },
    }
}

/// The other value, if it is wanted.
fn other_if<V: Values>(
    wanted: bool,
    p: &Position,
    values: &mut V,
) -> Result<Option<Value>, ProbeFault>
    ensures game { V.source.is_honest values.old
        → IfOk result (SaidIf wanted (IsOtherValue p.now)) }
    ensures faults { IfErr result (CanReport V.source (NeedsClass p.now) values.old) }
    ensures honest { V.source.is_honest values.old → V.source.is_honest values.new }
    ensures tables { HasSameTables V.source values.old values.new }
{
    if wanted {
        return other_value(p, values);
    }
    Ok(None)
}

/// The wanted facts of a position.
pub fn facts_of<V: Values>(
    p: &Position,
    wanted: Wanted,
    values: &mut V,
) -> Result<Facts, ProbeFault>
    ensures game { V.source.is_honest values.old
        → IfOk result (AreFacts wanted.other wanted.key p.now) }
    ensures legal { IfOk result (λ f. IfSome f.key (λ m. is_legal p.now m ≡ true)) }
    ensures faults { IfErr result (CanReport V.source (NeedsClass p.now) values.old) }
    ensures honest { V.source.is_honest values.old → V.source.is_honest values.new }
    ensures tables { HasSameTables V.source values.old values.new }
{
    match value_of(p, values) {
        Err(fault) => Err(fault),
        Ok(value) => match other_if(wanted.other, p, values) {
            Err(fault) => Err(fault),
            Ok(other) => match key_if(wanted.key, p, value, values) {
                Err(fault) => Err(fault),
                Ok(key) => Ok(Facts { value, other, key }),
            },
        },
    }
}
