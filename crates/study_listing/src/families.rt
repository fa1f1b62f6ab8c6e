//! Families: of the positions that differ in the square of one man, and have the same key, the first is listed.
#![tactic(auto, using(study_search::proofs::Faults::can_report, study_search::proofs::Faults::if_reported))]

ghost use Rattle.std.specs.Prelude.{◌≡◌, ◌⊎◌, ◌↔◌, ◌<◌, ◌≤◌, ℕ, true, length, None, Some, IfOk, IfErr, IfSome, IfNone};
ghost use Rattle.study_board.specs.Position.{first_fault};
ghost use Rattle.study_material.specs.Needs.{NeedsClass};
ghost use Rattle.study_values.specs.Index.{index_of};
ghost use Rattle.study_search.specs.Faults.{CanReport, HasSameTables, NeedsNoMore};
ghost use Rattle.study_search.specs.Finding.{is_for, IsLookedFor};
ghost use Rattle.study_listing.specs.Families.{moved_men, with_man_moved, IsMovedTo, SomeMoved};
ghost use Rattle.study_listing.specs.Lists.{listed_image, IsListed, IsEarlierKin, HasEarlierKin, IsFirstOfFamily};

use crate::filters::Selection;
use crate::listed::image_listed;
use arrayvec::ArrayVec;
use study_board::{Man, Position, Side, Square};
use study_index::index;
use study_moves::Move;
use study_search::{Outcome, has_theme, key_move};
use study_values::{ProbeFault, Values};

/// The only move that keeps an outcome.
#[derive(Clone, Copy, Debug, PartialEq, Eq)]
pub struct Key {
    pub outcome: Outcome,
    pub played: Move,
}

fn moved_men(from: Square, to: Square, men: &[Man]) -> ArrayVec<Man, 4>
    requires { length men.now ≤ 4 }
    ensures { result.items ≡ moved_men from to men.now }
{
    let mut list = ArrayVec::new();
    for man in men {
        list.push(man.moved_if(from, to));
    }
    list
}

/// The position with the man of one square on another, if it is valid.
fn with_man_moved(p: &Position, from: Square, to: Square) -> Option<Position>
    ensures none { IfNone result
        (¬ (first_fault (moved_men from to p.now.men) p.now.to_move p.now.passed ≡ None)) }
    ensures some { IfSome result (λ q.
        (first_fault (moved_men from to p.now.men) p.now.to_move p.now.passed ≡ None)
        × (q ≡ with_man_moved p.now from to)) }
    ensures needs { IfSome result (λ q. NeedsNoMore p.now q) }
{
    let men = moved_men(from, to, p.men());
    match Position::new(men.as_slice(), p.to_move(), p.passed()) {
        Ok(q) => Some(q),
        Err(_) => None,
    }
}

/// Whether this side to move is wanted.
fn is_for(wanted: Option<Side>, to_move: Side) -> bool
    ensures { result ≡ is_for wanted to_move }
{
    match wanted {
        None => true,
        Some(side) => to_move == side,
    }
}

/// Whether a position with the wanted side to move has the theme and passes the filters.
fn passes<V: Values>(
    selection: &Selection,
    q: &Position,
    values: &mut V,
) -> Result<bool, ProbeFault>
    requires side { is_for selection.now.search.side q.now.to_move ≡ true }
    ensures game { V.source.is_honest values.old
        → IfOk result (λ b. (b ≡ true) ↔ IsListed selection.now q.now) }
    ensures faults { IfErr result (CanReport V.source (NeedsClass q.now) values.old) }
    ensures honest { V.source.is_honest values.old → V.source.is_honest values.new }
    ensures tables { HasSameTables V.source values.old values.new }
{
    match has_theme(q, selection.search.theme, values) {
        Err(fault) => Err(fault),
        Ok(false) => Ok(false),
        Ok(true) => match image_listed(selection, q, values) {
            Err(fault) => Err(fault),
            Ok(None) => Ok(false),
            Ok(Some(_)) => Ok(true),
        },
    }
}

/// Whether a position has the theme and passes the filters.
fn is_listed_too<V: Values>(
    selection: &Selection,
    q: &Position,
    values: &mut V,
) -> Result<bool, ProbeFault>
    ensures game { V.source.is_honest values.old
        → IfOk result (λ b. (b ≡ true) ↔ IsListed selection.now q.now) }
    ensures faults { IfErr result (CanReport V.source (NeedsClass q.now) values.old) }
    ensures honest { V.source.is_honest values.old → V.source.is_honest values.new }
    ensures tables { HasSameTables V.source values.old values.new }
{
    let wanted = is_for(selection.search.side, q.to_move());
    if !wanted {
        return Ok(false);
    }
    passes(selection, q, values)
}

/// Whether a position has a lower number than this, the same key, the theme, and passes the filters.
fn is_earlier_kin<V: Values>(
    selection: &Selection,
    q: &Position,
    number: u32,
    key: &Key,
    values: &mut V,
) -> Result<bool, ProbeFault>
    ensures game { V.source.is_honest values.old → IfOk result (λ b. (b ≡ true)
        ↔ IsEarlierKin selection.now number key.now.outcome key.now.played q.now) }
    ensures faults { IfErr result (CanReport V.source (NeedsClass q.now) values.old) }
    ensures honest { V.source.is_honest values.old → V.source.is_honest values.new }
    ensures tables { HasSameTables V.source values.old values.new }
{
    let own = index(q);
    if number <= own {
        return Ok(false);
    }
    match key_move(q, key.outcome, values) {
        Err(fault) => Err(fault),
        Ok(None) => Ok(false),
        Ok(Some(m)) => {
            if m != key.played {
                return Ok(false);
            }
            is_listed_too(selection, q, values)
        }
    }
}

/// Whether the position with the man of one square on another comes earlier, and has the same key.
fn has_kin_at<V: Values>(
    selection: &Selection,
    p: &Position,
    key: &Key,
    from: Square,
    to: Square,
    values: &mut V,
) -> Result<bool, ProbeFault>
    ensures game { V.source.is_honest values.old → IfOk result (λ b. (b ≡ true) ↔ IsMovedTo
        (IsEarlierKin selection.now (index_of p.now) key.now.outcome key.now.played) p.now from to) }
    ensures faults { IfErr result (CanReport V.source (NeedsClass p.now) values.old) }
    ensures honest { V.source.is_honest values.old → V.source.is_honest values.new }
    ensures tables { HasSameTables V.source values.old values.new }
{
    match with_man_moved(p, from, to) {
        None => Ok(false),
        Some(q) => is_earlier_kin(selection, &q, index(p), key, values),
    }
}

/// The same for one of the squares below a number.
fn has_kin_below<V: Values>(
    selection: &Selection,
    p: &Position,
    key: &Key,
    from: Square,
    end: u8,
    values: &mut V,
) -> Result<bool, ProbeFault>
    requires { end ≤ 64 }
    ensures game { V.source.is_honest values.old → IfOk result (λ b. (b ≡ true)
        ↔ ((to : ℕ) × (to < end) × IsMovedTo
        (IsEarlierKin selection.now (index_of p.now) key.now.outcome key.now.played) p.now from to)) }
    ensures faults { IfErr result (CanReport V.source (NeedsClass p.now) values.old) }
    ensures honest { V.source.is_honest values.old → V.source.is_honest values.new }
    ensures tables { HasSameTables V.source values.old values.new }
{
    if end == 0 {
        return Ok(false);
    }
    let last = end - 1;
    match has_kin_at(selection, p, key, from, Square::at(last), values) {
        Err(fault) => Err(fault),
        Ok(true) => Ok(true),
        Ok(false) => has_kin_below(selection, p, key, from, last, values),
    }
}

/// The same with one of these men on another square.
fn has_kin_among<V: Values>(
    selection: &Selection,
    p: &Position,
    key: &Key,
    men: &[Man],
    values: &mut V,
) -> Result<bool, ProbeFault>
    ensures game { V.source.is_honest values.old → IfOk result (λ b. (b ≡ true) ↔ SomeMoved
        (IsEarlierKin selection.now (index_of p.now) key.now.outcome key.now.played) p.now men.now) }
    ensures faults { IfErr result (CanReport V.source (NeedsClass p.now) values.old) }
    ensures honest { V.source.is_honest values.old → V.source.is_honest values.new }
    ensures tables { HasSameTables V.source values.old values.new }
{
    match men.split_first() {
        None => Ok(false),
        Some((man, rest)) => match has_kin_below(selection, p, key, man.at, 64, values) {
            Err(fault) => Err(fault),
            Ok(true) => Ok(true),
            Ok(false) => has_kin_among(selection, p, key, rest, values),
        },
    }
}

/// Whether the position with one man on another square comes earlier, and the same move alone keeps this outcome.
fn has_earlier_kin<V: Values>(
    selection: &Selection,
    p: &Position,
    outcome: Outcome,
    values: &mut V,
) -> Result<bool, ProbeFault>
    ensures game { V.source.is_honest values.old
        → IfOk result (λ b. (b ≡ true) ↔ HasEarlierKin selection.now outcome p.now) }
    ensures faults { IfErr result (CanReport V.source (NeedsClass p.now) values.old) }
    ensures honest { V.source.is_honest values.old → V.source.is_honest values.new }
    ensures tables { HasSameTables V.source values.old values.new }
{
    match key_move(p, outcome, values) {
        Err(fault) => Err(fault),
        Ok(None) => Ok(false),
        Ok(Some(played)) => {
            let key = Key { outcome, played };
            has_kin_among(selection, p, &key, p.men(), values)
        }
    }
}

/// Whether the position with one man on another square comes earlier, and has the same key.
fn has_any_earlier_kin<V: Values>(
    selection: &Selection,
    p: &Position,
    values: &mut V,
) -> Result<bool, ProbeFault>
    ensures game { V.source.is_honest values.old → IfOk result (λ b. (b ≡ true)
        ↔ (HasEarlierKin selection.now Outcome.Win p.now
        ⊎ HasEarlierKin selection.now Outcome.Draw p.now)) }
    ensures faults { IfErr result (CanReport V.source (NeedsClass p.now) values.old) }
    ensures honest { V.source.is_honest values.old → V.source.is_honest values.new }
    ensures tables { HasSameTables V.source values.old values.new }
{
    match has_earlier_kin(selection, p, Outcome::Win, values) {
        Err(fault) => Err(fault),
        Ok(true) => Ok(true),
        Ok(false) => has_earlier_kin(selection, p, Outcome::Draw, values),
    }
}

/// Whether the position is the first of its family, if families are wanted.
fn is_first_of_family<V: Values>(
    selection: &Selection,
    p: &Position,
    values: &mut V,
) -> Result<bool, ProbeFault>
    ensures game { V.source.is_honest values.old
        → IfOk result (λ b. (b ≡ true) ↔ IsFirstOfFamily selection.now p.now) }
    ensures faults { IfErr result (CanReport V.source (NeedsClass p.now) values.old) }
    ensures honest { V.source.is_honest values.old → V.source.is_honest values.new }
    ensures tables { HasSameTables V.source values.old values.new }
{
    if !selection.filters.families {
        return Ok(true);
    }
    match has_any_earlier_kin(selection, p, values) {
        Err(fault) => Err(fault),
        Ok(some) => Ok(!some),
    }
}

/// The image of a position that is listed, or `None`.
pub(crate) fn first_image<V: Values>(
    selection: &Selection,
    p: &Position,
    values: &mut V,
) -> Result<Option<Position>, ProbeFault>
    ensures some { V.source.is_honest values.old → IsLookedFor selection.now.search p.now
        → IfOk result (λ at. IfSome at (λ q.
        IsListed selection.now p.now × IsFirstOfFamily selection.now p.now)) }
    ensures image { V.source.is_honest values.old → IsLookedFor selection.now.search p.now
        → IfOk result (λ at. IfSome at (λ q. listed_image selection.now p.now ≡ Some q)) }
    ensures none { V.source.is_honest values.old → IsLookedFor selection.now.search p.now
        → IfOk result (λ at. IfNone at
        (¬ (IsListed selection.now p.now × IsFirstOfFamily selection.now p.now))) }
    ensures needs { IfOk result (λ at. IfSome at (λ q. NeedsNoMore p.now q)) }
    ensures faults { IfErr result (CanReport V.source (NeedsClass p.now) values.old) }
    ensures honest { V.source.is_honest values.old → V.source.is_honest values.new }
    ensures tables { HasSameTables V.source values.old values.new }
{
    match image_listed(selection, p, values) {
        Err(fault) => Err(fault),
        Ok(None) => Ok(None),
        Ok(Some(image)) => match is_first_of_family(selection, p, values) {
            Err(fault) => Err(fault),
            Ok(true) => Ok(Some(image)),
            Ok(false) => Ok(None),
        },
    }
}
