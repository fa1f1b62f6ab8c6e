//! Which of the two placements of a mutual zugzwang is listed if both sides have the same men.
#![tactic(auto, using(crate::proofs::Faults::can_report, crate::proofs::Faults::if_reported))]

ghost use Rattle.std.specs.Prelude.{◌≡◌, ◌⊎◌, ◌↔◌, ◌≤◌, true, IfOk, IfErr};
ghost use Rattle.study_board.specs.Position.{IsValid};
ghost use Rattle.study_moves.specs.Game.{IsDrawn};
ghost use Rattle.study_values.specs.Index.{index_of};
ghost use Rattle.study_zugzwang.specs.Zugzwang.{handed_on};
ghost use Rattle.study_material.specs.Needs.{NeedsClass};
ghost use Rattle.study_search.specs.Faults.{CanReport, HasSameTables};
ghost use Rattle.study_search.specs.Pairs.{ComesFirst, IsListedOfTwo};

use crate::only_moves::{Outcome, has};
use study_board::{Position, Symmetry};
use study_index::index;
use study_values::{ProbeFault, Values};
use study_zugzwang::handed_on;

/// Whether the second of two positions is not drawn, and the number of the first is no higher.
fn has_lower_number<V: Values>(
    p: &Position,
    q: &Position,
    values: &mut V,
) -> Result<bool, ProbeFault>
    ensures game { V.source.is_honest values.old
        → IfOk result (λ b. (b ≡ true) ↔ (¬ (IsDrawn q.now) × (index_of p.now ≤ index_of q.now))) }
    ensures faults { IfErr result (CanReport V.source (NeedsClass q.now) values.old) }
    ensures honest { V.source.is_honest values.old → V.source.is_honest values.new }
    ensures tables { HasSameTables V.source values.old values.new }
{
    match has(q, Outcome::Draw, values) {
        Err(fault) => Err(fault),
        Ok(true) => Ok(false),
        Ok(false) => {
            let own = index(p);
            let other = index(q);
            Ok(own <= other)
        }
    }
}

/// Whether the first of two positions is drawn or, if neither is, has the lower number.
fn comes_first<V: Values>(p: &Position, q: &Position, values: &mut V) -> Result<bool, ProbeFault>
    ensures game { V.source.is_honest values.old
        → IfOk result (λ b. (b ≡ true) ↔ ComesFirst p.now q.now) }
    ensures faults { IfErr result
        (CanReport V.source (λ c. NeedsClass p.now c ⊎ NeedsClass q.now c) values.old) }
    ensures honest { V.source.is_honest values.old → V.source.is_honest values.new }
    ensures tables { HasSameTables V.source values.old values.new }
{
    match has(p, Outcome::Draw, values) {
        Err(fault) => Err(fault),
        Ok(true) => Ok(true),
        Ok(false) => has_lower_number(p, q, values),
    }
}

/// Whether, of a mutual zugzwang with White to move and its colour image with the other side to move, this one is listed.
pub fn is_listed_of_two<V: Values>(p: &Position, values: &mut V) -> Result<bool, ProbeFault>
    ensures game { V.source.is_honest values.old → IsValid (handed_on p.now)
        → IfOk result (λ b. (b ≡ true) ↔ IsListedOfTwo p.now) }
    ensures faults { IfErr result (CanReport V.source (NeedsClass p.now) values.old) }
    ensures honest { V.source.is_honest values.old → V.source.is_honest values.new }
    ensures tables { HasSameTables V.source values.old values.new }
{
    match handed_on(p) {
        None => Ok(false),
        Some(q) => {
            let swapped = Symmetry {
                files: false,
                ranks: false,
                diagonal: false,
                colours: true,
            };
            let other = q.turned(&swapped);
            comes_first(p, &other, values)
        }
    }
}
