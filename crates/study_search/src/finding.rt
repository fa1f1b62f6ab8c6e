//! The positions of a class that have a theme, one after the other.
#![tactic(auto, using(crate::proofs::Faults::can_report, crate::proofs::Faults::if_reported))]

ghost use Rattle.std.specs.Prelude.{◌≡◌, ◌≤◌, ◌<◌, ◌↔◌, true, IfOk, IfErr, IfSome};
ghost use Rattle.study_values.specs.Number.{without_bit};
ghost use Rattle.study_index.specs.Decoded.{slots_of, decoded_side};
ghost use Rattle.study_material.specs.Needs.{IsNeeded, NeedsClass};
ghost use Rattle.study_search.specs.Faults.{CanReport, HasSameTables};
ghost use Rattle.study_search.specs.OnlyMoves.{IsMost};
ghost use Rattle.study_search.specs.Finding.{is_for, IsLookedFor, IsFound, IsNext};

use crate::by_cells::{is_by_cells, next_zugzwang};
use crate::only_moves::{Outcome, has_only_moves};
use crate::themes::{Theme, has_theme};
use study_board::{Position, Side};
use study_index::{decode, decode_men};
use study_material::Class;
use study_prober::CellPages;
use study_values::{ProbeFault, Values};

/// A search: the positions of a class that have a theme, with one side to move or with either.
#[derive(Clone, Copy, Debug, PartialEq, Eq)]
pub struct Search {
    pub class: Class,
    pub theme: Theme,
    pub side: Option<Side>,
}

/// Whether this side to move matches the search.
pub fn is_for(wanted: Option<Side>, to_move: Side) -> bool
    ensures { result ≡ is_for wanted to_move }
{
    match wanted {
        None => true,
        Some(side) => to_move == side,
    }
}

/// The side to move in the position of a number, if there is one: it is decoded before the men are.
#[inline]
pub fn side_at(class: Class, number: u32) -> Side
    ensures { result ≡ decoded_side (slots_of class) (without_bit number) }
{
    let setup = decode_men(class, number);
    setup.to_move
}

/// Whether the position matches the search.
fn is_looked_for<V: Values>(
    p: &Position,
    search: &Search,
    values: &mut V,
) -> Result<bool, ProbeFault>
    ensures game { V.source.is_honest values.old
        → IfOk result (λ b. (b ≡ true) ↔ IsLookedFor search.now p.now) }
    ensures faults { IfErr result (CanReport V.source (NeedsClass p.now) values.old) }
    ensures honest { V.source.is_honest values.old → V.source.is_honest values.new }
    ensures tables { HasSameTables V.source values.old values.new }
{
    let wanted = is_for(search.side, p.to_move());
    if wanted {
        return has_theme(p, search.theme, values);
    }
    Ok(false)
}

/// Whether the number is that of a matching position.
fn is_found<V: Values>(search: &Search, number: u32, values: &mut V) -> Result<bool, ProbeFault>
    ensures game { V.source.is_honest values.old
        → IfOk result (λ b. (b ≡ true) ↔ IsFound search.now number) }
    ensures faults { IfErr result (CanReport V.source (IsNeeded search.now.class) values.old) }
    ensures honest { V.source.is_honest values.old → V.source.is_honest values.new }
    ensures tables { HasSameTables V.source values.old values.new }
{
    let wanted = is_for(search.side, side_at(search.class, number));
    if !wanted {
        return Ok(false);
    }
    match decode(search.class, number) {
        None => Ok(false),
        Some(p) => is_looked_for(&p, search, values),
    }
}

/// The first number from `from` on and below `to` of a matching position, each position evaluated by itself.
fn next_by_values<V: Values>(
    search: &Search,
    from: u32,
    to: u32,
    values: &mut V,
) -> Result<Option<u32>, ProbeFault>
    ensures game { V.source.is_honest values.old
        → IfOk result (IsNext (IsFound search.now) from to) }
    ensures within { IfOk result (λ next. IfSome next (λ n. (from ≤ n) × (n < to))) }
    ensures faults { IfErr result (CanReport V.source (IsNeeded search.now.class) values.old) }
    ensures honest { V.source.is_honest values.old → V.source.is_honest values.new }
    ensures tables { HasSameTables V.source values.old values.new }
{
    for number in from..to {
        match is_found(search, number, values) {
            Err(fault) => return Err(fault),
            Ok(true) => return Ok(Some(number)),
            Ok(false) => {}
        }
    }
    Ok(None)
}

/// The first number from `from` on and below `to` of a matching position. Mutual zugzwangs are found by the pages of the tables.
pub fn next_found<V: CellPages>(
    search: &Search,
    from: u32,
    to: u32,
    values: &mut V,
) -> Result<Option<u32>, ProbeFault>
    ensures game { V.source.is_honest values.old
        → IfOk result (IsNext (IsFound search.now) from to) }
    ensures within { IfOk result (λ next. IfSome next (λ n. (from ≤ n) × (n < to))) }
    ensures faults { IfErr result (CanReport V.source (IsNeeded search.now.class) values.old) }
    ensures honest { V.source.is_honest values.old → V.source.is_honest values.new }
    ensures tables { HasSameTables V.source values.old values.new }
{
    let by_cells = is_by_cells(search);
    if by_cells {
        next_zugzwang(search, from, to, values)
    } else {
        next_by_values(search, from, to, values)
    }
}

/// The number of only moves in a row that the defender can make the hero find, up to a limit; `None` if the hero lacks the outcome.
pub fn most_only_moves<V: Values>(
    p: &Position,
    outcome: Outcome,
    limit: u8,
    values: &mut V,
) -> Result<Option<u8>, ProbeFault>
    ensures game { V.source.is_honest values.old → IfOk result (IsMost outcome p.now limit) }
    ensures faults { IfErr result (CanReport V.source (NeedsClass p.now) values.old) }
    ensures honest { V.source.is_honest values.old → V.source.is_honest values.new }
    ensures tables { HasSameTables V.source values.old values.new }
{
    match has_only_moves(p, outcome, 0, values) {
        Err(fault) => return Err(fault),
        Ok(false) => return Ok(None),
        Ok(true) => {}
    }
    for n in 0..limit {
        match has_only_moves(p, outcome, n + 1, values) {
            Err(fault) => return Err(fault),
            Ok(false) => return Ok(Some(n)),
            Ok(true) => {}
        }
    }
    Ok(Some(limit))
}
