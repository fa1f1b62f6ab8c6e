//! Filters: the squares of men, the kind of key, the result, and what the row of only moves has.
#![tactic(auto, using(study_search::proofs::Faults::can_report, study_search::proofs::Faults::if_reported))]

ghost use Rattle.std.specs.Prelude.{◌≡◌, ◌↔◌, true, IfOk, IfErr, IfSome};
ghost use Rattle.std.specs.List.{list_any};
ghost use Rattle.study_moves.specs.Rules.{is_legal};
ghost use Rattle.study_material.specs.Needs.{NeedsClass};
ghost use Rattle.study_search.specs.Faults.{CanReport, HasSameTables, NeedsNoMore};
ghost use Rattle.study_listing.specs.Filters.{is_from_to, is_within, is_placed, has_placed, are_placed, turned_by, turns};
ghost use Rattle.study_listing.specs.Filters.{image_placed, first_placed, is_let_through, is_key_let_through, HasKeyLetThrough, HasWantedKey};
ghost use Rattle.study_listing.specs.Filters.{promotes_as_wanted, is_on_key, HasWantedResult, no_filters};

use crate::facts::{Wanted, facts_of};
use crate::features::Feature;
use study_board::{Kind, Man, Position, Side, Square, Symmetry};
use study_moves::{Move, in_check, played};
use study_search::{Outcome, Search, has_only_moves};
use study_values::{ProbeFault, Values};

/// A man wanted on one of the squares of a rectangle.
#[derive(Clone, Copy, Debug, PartialEq, Eq)]
pub struct Placed {
    pub side: Side,
    pub kind: Kind,
    /// The rectangle's lower left square.
    pub from: Square,
    /// Its upper right square.
    pub to: Square,
}

/// The filters of a list: it keeps the positions that have an image with these men on their squares, and such a key.
#[derive(Clone, Copy, Debug, PartialEq, Eq)]
pub struct Filters {
    /// The wanted men, each by itself.
    pub men: [Option<Placed>; 4],
    /// The key, the only move that holds, must not capture.
    pub no_capture: bool,
    /// The key must not give check.
    pub no_check: bool,
    /// The key must promote to this man.
    pub promoted: Option<Kind>,
    /// The side to move must win, or must draw.
    pub result: Option<Outcome>,
    /// What the row of only moves that is shown must have.
    pub row: [Option<Feature>; 4],
    /// Of the positions that differ in the square of one man, and have the same key, the first is enough.
    pub families: bool,
    /// A position with Black to move is shown with colours exchanged, so that White is the hero.
    pub as_white: bool,
}

/// A search and its filters.
#[derive(Clone, Copy, Debug, PartialEq, Eq)]
pub struct Selection {
    pub search: Search,
    pub filters: Filters,
}

impl Filters {
    /// Every position passes.
    pub fn none() -> Filters
        ensures { result ≡ no_filters }
    {
        Filters {
            men: [None; 4],
            no_capture: false,
            no_check: false,
            promoted: None,
            result: None,
            row: [None; 4],
            families: false,
            as_white: false,
        }
    }
}

fn is_from_to(low: u8, high: u8, n: u8) -> bool
    ensures { result ≡ is_from_to low high n }
{
    low <= n && n <= high
}

/// Whether the square lies in the rectangle.
fn is_within(w: &Placed, x: Square) -> bool
    ensures { result ≡ is_within w.now x }
{
    is_from_to(w.from.file(), w.to.file(), x.file())
        && is_from_to(w.from.rank(), w.to.rank(), x.rank())
}

/// Whether the man is of the wanted kind on a wanted square.
fn is_placed(w: &Placed, man: &Man) -> bool
    ensures { result ≡ is_placed w.now man.now }
{
    man.side == w.side && man.kind == w.kind && is_within(w, man.at)
}

/// Whether there is such a man.
fn has_man(men: &[Man], w: &Placed) -> bool
    ensures { result ≡ list_any (is_placed w.now) men.now }
{
    men.iter().any(|man| is_placed(w, man))
}

/// The same, if there is such a filter.
fn has_placed(men: &[Man], wanted: &Option<Placed>) -> bool
    ensures { result ≡ has_placed men.now wanted.now }
{
    match wanted {
        None => true,
        Some(w) => has_man(men, w),
    }
}

/// Whether all men that the filters name are there.
fn are_placed(wanted: &[Option<Placed>], p: &Position) -> bool
    ensures { result ≡ are_placed wanted.now p.now }
{
    wanted.iter().all(|w| has_placed(p.men(), w))
}

fn turned_by(files: bool, ranks: bool, diagonal: bool) -> Symmetry
    ensures { result ≡ turned_by files ranks diagonal }
{
    Symmetry {
        files,
        ranks,
        diagonal,
        colours: false,
    }
}

/// The board mirrored and turned in each way, the identity first.
#[tactic(auto, unfolding(crate::specs::Filters::turns))]
fn turns() -> [Symmetry; 8]
    ensures { result ≡ turns }
{
    [
        turned_by(false, false, false),
        turned_by(true, false, false),
        turned_by(false, true, false),
        turned_by(true, true, false),
        turned_by(false, false, true),
        turned_by(true, false, true),
        turned_by(false, true, true),
        turned_by(true, true, true),
    ]
}

/// The image, if the men admit it and it has the men that the filters name.
fn image_placed(wanted: &[Option<Placed>], p: &Position, by: &Symmetry) -> Option<Position>
    ensures { result ≡ image_placed wanted.now p.now by.now }
{
    if !p.admits(by) {
        return None;
    }
    let turned = p.turned(by);
    if are_placed(wanted, &turned) {
        Some(turned)
    } else {
        None
    }
}

fn first_of(wanted: &[Option<Placed>], p: &Position, by: &[Symmetry]) -> Option<Position>
    ensures { result ≡ first_placed wanted.now p.now by.now }
{
    match by.split_first() {
        None => None,
        Some((first, rest)) => match image_placed(wanted, p, first) {
            Some(turned) => Some(turned),
            None => first_of(wanted, p, rest),
        },
    }
}

/// The first image of a position, starting with the identity, that has the men that the filters name.
pub(crate) fn first_placed(wanted: &[Option<Placed>], p: &Position) -> Option<Position>
    ensures value { result ≡ first_placed wanted.now p.now turns }
    ensures needs { IfSome result (λ q. NeedsNoMore p.now q) }
{
    first_of(wanted, p, turns().as_slice())
}

/// Whether the move promotes to the wanted man, if one is wanted.
fn promotes_as_wanted(wanted: Option<Kind>, promoted: Option<Kind>) -> bool
    ensures { result ≡ promotes_as_wanted wanted promoted }
{
    match (wanted, promoted) {
        (None, _) => true,
        (Some(_), None) => false,
        (Some(kind), Some(to)) => to == kind,
    }
}

/// Whether a legal move passes: neither a capture nor a check, and a promotion to the wanted man, if the filters require that.
fn is_let_through(filters: &Filters, p: &Position, m: Move) -> bool
    requires { is_legal p.now m ≡ true }
    ensures { result ≡ is_let_through filters.now p.now m }
{
    let next = played(p, m);
    let captures = next.men().len() < p.men().len();
    !(filters.no_capture && captures)
        && !(filters.no_check && in_check(&next))
        && promotes_as_wanted(filters.promoted, m.promoted)
}

/// Whether the position has exactly one key, and the key passes.
#[tactic(auto, using(crate::proofs::Keys::has_key_let_through))]
fn has_key_let_through<V: Values>(
    filters: &Filters,
    p: &Position,
    values: &mut V,
) -> Result<bool, ProbeFault>
    ensures game { V.source.is_honest values.old
        → IfOk result (λ b. (b ≡ true) ↔ HasKeyLetThrough filters.now p.now) }
    ensures faults { IfErr result (CanReport V.source (NeedsClass p.now) values.old) }
    ensures honest { V.source.is_honest values.old → V.source.is_honest values.new }
    ensures tables { HasSameTables V.source values.old values.new }
{
    let wanted = Wanted {
        other: false,
        key: true,
    };
    match facts_of(p, wanted, values) {
        Err(fault) => Err(fault),
        Ok(facts) => Ok(is_key_let_through(filters, p, facts.key)),
    }
}

/// Whether it has such a key, if a filter concerns the key move.
pub(crate) fn has_wanted_key<V: Values>(
    filters: &Filters,
    p: &Position,
    values: &mut V,
) -> Result<bool, ProbeFault>
    ensures game { V.source.is_honest values.old
        → IfOk result (λ b. (b ≡ true) ↔ HasWantedKey filters.now p.now) }
    ensures faults { IfErr result (CanReport V.source (NeedsClass p.now) values.old) }
    ensures honest { V.source.is_honest values.old → V.source.is_honest values.new }
    ensures tables { HasSameTables V.source values.old values.new }
{
    if is_on_key(filters) {
        return has_key_let_through(filters, p, values);
    }
    Ok(true)
}

/// Whether some filter concerns the key move.
fn is_on_key(filters: &Filters) -> bool
    ensures { result ≡ is_on_key filters.now }
{
    filters.no_capture || filters.no_check || filters.promoted.is_some()
}

/// Whether the side to move has the wanted result, if one is wanted.
pub(crate) fn has_wanted_result<V: Values>(
    filters: &Filters,
    p: &Position,
    values: &mut V,
) -> Result<bool, ProbeFault>
    ensures game { V.source.is_honest values.old
        → IfOk result (λ b. (b ≡ true) ↔ HasWantedResult filters.now.result p.now) }
    ensures faults { IfErr result (CanReport V.source (NeedsClass p.now) values.old) }
    ensures honest { V.source.is_honest values.old → V.source.is_honest values.new }
    ensures tables { HasSameTables V.source values.old values.new }
{
    match filters.result {
        None => Ok(true),
        Some(outcome) => has_only_moves(p, outcome, 0, values),
    }
}

/// Whether there is a key, and it passes.
fn is_key_let_through(filters: &Filters, p: &Position, key: Option<Move>) -> bool
    requires { IfSome key (λ m. is_legal p.now m ≡ true) }
    ensures { result ≡ is_key_let_through filters.now p.now key }
{
    match key {
        None => false,
        Some(m) => is_let_through(filters, p, m),
    }
}
