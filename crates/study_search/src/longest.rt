//! The longest mate of a side in a class.
#![tactic(auto, using(crate::proofs::Faults::can_report, crate::proofs::Faults::if_reported))]

ghost use Rattle.std.specs.Prelude.{◌≡◌, ◌↔◌, ℕ, Some, IfOk, IfErr};
ghost use Rattle.study_moves.specs.Game.{IsWon};
ghost use Rattle.study_material.specs.Needs.{IsNeeded, NeedsClass};
ghost use Rattle.study_search.specs.Faults.{CanReport, HasSameTables};
ghost use Rattle.study_search.specs.Longest.{option_max, mate_by, MatesIn, MatesAt, IsLongest};

use crate::finding::{is_for, side_at};
use crate::value::value_of;
use study_board::{Position, Side};
use study_index::decode;
use study_material::Class;
use study_moves::values_are_unique;
use study_values::{ProbeFault, Value, Values, cells};

/// The longer of two mates; `None` if there is neither.
fn option_max(a: Option<u8>, b: Option<u8>) -> Option<u8>
    ensures { result ≡ option_max a b }
{
    match (a, b) {
        (Some(x), Some(y)) => { if x < y { Some(y) } else { Some(x) } }
        (Some(x), None) => Some(x),
        (None, b) => b,
    }
}

/// The number of plies in which the side to move mates, by the value.
fn mate_by(value: Value) -> Option<u8>
    ensures { result ≡ mate_by value }
{
    match value {
        Value::Win(plies) => Some(plies),
        Value::Loss(_) => None,
        Value::Draw => None,
    }
}

/// The number of plies in which the side to move mates, if it does.
pub fn mate_of<V: Values>(p: &Position, values: &mut V) -> Result<Option<u8>, ProbeFault>
    ensures game { V.source.is_honest values.old
        → IfOk result (λ mate. (k : ℕ) → (mate ≡ Some k) ↔ IsWon p.now k) }
    ensures faults { IfErr result (CanReport V.source (NeedsClass p.now) values.old) }
    ensures honest { V.source.is_honest values.old → V.source.is_honest values.new }
    ensures tables { HasSameTables V.source values.old values.new }
{
    values_are_unique();
    match value_of(p, values) {
        Err(fault) => Err(fault),
        Ok(value) => Ok(mate_by(value)),
    }
}

/// The number of plies in which the side mates, if it is to move and does.
fn mate_for<V: Values>(p: &Position, side: Side, values: &mut V) -> Result<Option<u8>, ProbeFault>
    ensures game { V.source.is_honest values.old
        → IfOk result (λ mate. (k : ℕ) → (mate ≡ Some k) ↔ MatesIn side k p.now) }
    ensures faults { IfErr result (CanReport V.source (NeedsClass p.now) values.old) }
    ensures honest { V.source.is_honest values.old → V.source.is_honest values.new }
    ensures tables { HasSameTables V.source values.old values.new }
{
    let wanted = is_for(Some(side), p.to_move());
    if wanted {
        return mate_of(p, values);
    }
    Ok(None)
}

/// The number of plies in which the side mates in the number's position, if it is to move and does.
fn mate_at<V: Values>(
    class: Class,
    side: Side,
    number: u32,
    values: &mut V,
) -> Result<Option<u8>, ProbeFault>
    ensures game { V.source.is_honest values.old
        → IfOk result (λ mate. (k : ℕ) → (mate ≡ Some k) ↔ MatesAt class side number k) }
    ensures faults { IfErr result (CanReport V.source (IsNeeded class) values.old) }
    ensures honest { V.source.is_honest values.old → V.source.is_honest values.new }
    ensures tables { HasSameTables V.source values.old values.new }
{
    let wanted = is_for(Some(side), side_at(class, number));
    if !wanted {
        return Ok(None);
    }
    match decode(class, number) {
        None => Ok(None),
        Some(p) => mate_for(&p, side, values),
    }
}

/// The longest mate, in plies, among the positions of the class with this side to move; `None` if the side mates in none.
pub fn longest_mate<V: Values>(
    class: Class,
    side: Side,
    values: &mut V,
) -> Result<Option<u8>, ProbeFault>
    ensures game { V.source.is_honest values.old → IfOk result (IsLongest class side) }
    ensures faults { IfErr result (CanReport V.source (IsNeeded class) values.old) }
    ensures honest { V.source.is_honest values.old → V.source.is_honest values.new }
    ensures tables { HasSameTables V.source values.old values.new }
{
    let mut longest = None;
    for number in 0..cells(class) {
        match mate_at(class, side, number, values) {
            Err(fault) => return Err(fault),
            Ok(mate) => longest = option_max(longest, mate),
        }
    }
    Ok(longest)
}
