//! Which of the found positions are listed, and which image of each.
#![tactic(auto, using(study_search::proofs::Faults::can_report, study_search::proofs::Faults::if_reported))]

ghost use Rattle.std.specs.Prelude.{◌≡◌, ◌↔◌, true, Some, IfOk, IfErr, IfSome, IfNone};
ghost use Rattle.study_board.specs.Position.{IsValid, Position as APosition};
ghost use Rattle.study_index.specs.Computed.{position_numbered};
ghost use Rattle.study_material.specs.declared.class.Class.{Class as AClass};
ghost use Rattle.study_material.specs.Needs.{IsNeeded, NeedsClass};
ghost use Rattle.study_search.specs.Faults.{CanReport, HasSameTables, NeedsNoMore};
ghost use Rattle.study_search.specs.Finding.{IsFound, IsLookedFor};
ghost use Rattle.study_search.specs.Laws.{with_white_to_move};
ghost use Rattle.study_search.specs.Pairs.{counterpart};
ghost use Rattle.study_zugzwang.specs.Zugzwang.{handed_on};
ghost use Rattle.study_listing.specs.Filters.{first_placed, turns};
ghost use Rattle.study_listing.specs.Lists.{has_like_sides, is_of_zugzwangs, is_for_white, is_paired, second_placed, hero_image, listed_image};
ghost use Rattle.study_listing.specs.Lists.{IsOneOfPair, IsListed, IsListedAt, IsTextAt};
ghost use Rattle.study_listing.specs.LetThrough.{IsLetThrough};

use crate::families::first_image;
use crate::filters::{Selection, first_placed, has_wanted_key, has_wanted_result};
use crate::main_line::has_wanted_row;
use crate::text::{Form, Listed, text_of};
use study_board::{Position, Side, Symmetry};
use study_index::decode;
use study_material::Class;
use study_search::{Search, Theme, is_listed_of_two};
use study_values::{ProbeFault, Values};
use study_zugzwang::handed_on;

/// Whether both sides have the same men, so that each position has a colour image in the class.
pub fn has_like_sides(class: Class) -> bool
    ensures { result ≡ has_like_sides class }
{
    matches!(
        class,
        Class::KK | Class::KQKQ | Class::KRKR | Class::KBKB | Class::KNKN | Class::KPKP
    )
}

pub(crate) fn is_of_zugzwangs(theme: Theme) -> bool
    ensures { result ≡ is_of_zugzwangs theme }
{
    match theme {
        Theme::Zugzwang => true,
        _ => false,
    }
}

fn is_for_white(side: Option<Side>) -> bool
    ensures { result ≡ is_for_white side }
{
    match side {
        Some(Side::White) => true,
        _ => false,
    }
}

/// Whether each mutual zugzwang is found in two placements.
fn is_paired(search: &Search) -> bool
    ensures { result ≡ is_paired search.now }
{
    is_of_zugzwangs(search.theme) && is_for_white(search.side) && has_like_sides(search.class)
}

/// Whether a position that matches the search is listed as the first of two placements, if it has two.
fn is_one_of_pair<V: Values>(
    search: &Search,
    p: &Position,
    values: &mut V,
) -> Result<bool, ProbeFault>
    ensures game { V.source.is_honest values.old → IsLookedFor search.now p.now
        → IfOk result (λ b. (b ≡ true) ↔ IsOneOfPair search.now p.now) }
    ensures faults { IfErr result (CanReport V.source (NeedsClass p.now) values.old) }
    ensures honest { V.source.is_honest values.old → V.source.is_honest values.new }
    ensures tables { HasSameTables V.source values.old values.new }
{
    let paired = is_paired(search);
    if paired {
        return is_listed_of_two(p, values);
    }
    Ok(true)
}

/// The colour image of a position with the other side to move, if it has men on the wanted squares.
fn counterpart_placed(selection: &Selection, p: &Position) -> Option<Position>
    ensures value { IsValid (handed_on p.now)
        → result ≡ first_placed selection.now.filters.men (counterpart p.now) turns }
    ensures needs { IfSome result (λ q. NeedsNoMore p.now q) }
{
    let other = handed_on(p)?;
    let swapped = Symmetry {
        files: false,
        ranks: false,
        diagonal: false,
        colours: true,
    };
    first_placed(selection.filters.men.as_slice(), &other.turned(&swapped))
}

/// The same for a mutual zugzwang that has two placements.
fn second_placed(selection: &Selection, p: &Position) -> Option<Position>
    ensures value { (is_paired selection.now.search ≡ true → IsValid (handed_on p.now))
        → result ≡ second_placed selection.now p.now }
    ensures needs { IfSome result (λ q. NeedsNoMore p.now q) }
{
    let paired = is_paired(&selection.search);
    if paired {
        return counterpart_placed(selection, p);
    }
    None
}

/// A position equal to this one.
fn same(p: &Position) -> Position
    ensures value { result ≡ p.now }
    ensures needs { NeedsNoMore p.now result }
{
    p.copied()
}

/// The position, or its colour image with White to move.
fn with_white_to_move(p: &Position) -> Position
    ensures value { result ≡ with_white_to_move p.now }
    ensures needs { NeedsNoMore p.now result }
{
    match p.to_move() {
        Side::White => same(p),
        Side::Black => {
            let swapped = Symmetry {
                files: false,
                ranks: false,
                diagonal: false,
                colours: true,
            };
            p.turned(&swapped)
        }
    }
}

/// The position, or its colour image with White to move, if White is to be the hero.
fn hero_image(selection: &Selection, p: &Position) -> Position
    ensures value { result ≡ hero_image selection.now p.now }
    ensures needs { NeedsNoMore p.now result }
{
    if selection.filters.as_white {
        return with_white_to_move(p);
    }
    same(p)
}

/// The image of a position that is listed: the first with men on the wanted squares.
fn listed_image(selection: &Selection, p: &Position) -> Option<Position>
    ensures value { (is_paired selection.now.search ≡ true → IsValid (handed_on p.now))
        → result ≡ listed_image selection.now p.now }
    ensures needs { IfSome result (λ q. NeedsNoMore p.now q) }
{
    let hero = hero_image(selection, p);
    match first_placed(selection.filters.men.as_slice(), &hero) {
        Some(image) => Some(image),
        None => second_placed(selection, p),
    }
}

/// Whether a position that matches the search passes the filters, but for that of the row.
fn is_let_through<V: Values>(
    selection: &Selection,
    p: &Position,
    values: &mut V,
) -> Result<bool, ProbeFault>
    ensures game { V.source.is_honest values.old → IsLookedFor selection.now.search p.now
        → IfOk result (λ b. (b ≡ true) ↔ IsLetThrough selection.now p.now) }
    ensures faults { IfErr result (CanReport V.source (NeedsClass p.now) values.old) }
    ensures honest { V.source.is_honest values.old → V.source.is_honest values.new }
    ensures tables { HasSameTables V.source values.old values.new }
{
    match is_one_of_pair(&selection.search, p, values) {
        Err(fault) => Err(fault),
        Ok(false) => Ok(false),
        Ok(true) => match has_wanted_key(&selection.filters, p, values) {
            Err(fault) => Err(fault),
            Ok(false) => Ok(false),
            Ok(true) => has_wanted_result(&selection.filters, p, values),
        },
    }
}

/// Whether a position that matches the search, and of which this image is shown, is listed.
fn is_listed<V: Values>(
    selection: &Selection,
    p: &Position,
    image: &Position,
    values: &mut V,
) -> Result<bool, ProbeFault>
    requires needs { NeedsNoMore p.now image.now }
    ensures game { V.source.is_honest values.old → IsLookedFor selection.now.search p.now
        → listed_image selection.now p.now ≡ Some image.now
        → IfOk result (λ b. (b ≡ true) ↔ IsListed selection.now p.now) }
    ensures faults { IfErr result (CanReport V.source (NeedsClass p.now) values.old) }
    ensures honest { V.source.is_honest values.old → V.source.is_honest values.new }
    ensures tables { HasSameTables V.source values.old values.new }
{
    match is_let_through(selection, p, values) {
        Err(fault) => Err(fault),
        Ok(false) => Ok(false),
        Ok(true) => has_wanted_row(&selection.filters, image, values),
    }
}

/// The image of a position that matches the search and passes the filters, or `None`.
pub(crate) fn image_listed<V: Values>(
    selection: &Selection,
    p: &Position,
    values: &mut V,
) -> Result<Option<Position>, ProbeFault>
    ensures some { V.source.is_honest values.old → IsLookedFor selection.now.search p.now
        → IfOk result (λ at. IfSome at (λ q. IsListed selection.now p.now)) }
    ensures image { V.source.is_honest values.old → IsLookedFor selection.now.search p.now
        → IfOk result (λ at. IfSome at (λ q. listed_image selection.now p.now ≡ Some q)) }
    ensures none { V.source.is_honest values.old → IsLookedFor selection.now.search p.now
        → IfOk result (λ at. IfNone at (¬ (IsListed selection.now p.now))) }
    ensures needs { IfOk result (λ at. IfSome at (λ q. NeedsNoMore p.now q)) }
    ensures faults { IfErr result (CanReport V.source (NeedsClass p.now) values.old) }
    ensures honest { V.source.is_honest values.old → V.source.is_honest values.new }
    ensures tables { HasSameTables V.source values.old values.new }
{
    match listed_image(selection, p) {
        None => Ok(None),
        Some(image) => match is_listed(selection, p, &image, values) {
            Err(fault) => Err(fault),
            Ok(true) => Ok(Some(image)),
            Ok(false) => Ok(None),
        },
    }
}

/// The image for a found number, if it is listed.
pub(crate) fn listed_at<V: Values>(
    selection: &Selection,
    number: u32,
    values: &mut V,
) -> Result<Option<Position>, ProbeFault>
    ensures some { V.source.is_honest values.old → IsFound selection.now.search number
        → IfOk result (λ at. IfSome at (λ q. IsListedAt selection.now number)) }
    ensures image { V.source.is_honest values.old → IsFound selection.now.search number
        → IfOk result (λ at. IfSome at (λ q.
        (p : APosition) × (position_numbered selection.now.search.class number ≡ Some p)
        × (listed_image selection.now p ≡ Some q))) }
    ensures none { V.source.is_honest values.old → IsFound selection.now.search number
        → IfOk result (λ at. IfNone at (¬ (IsListedAt selection.now number))) }
    ensures needs { IfOk result (λ at. IfSome at (λ q. (c : AClass)
        → NeedsClass q c → IsNeeded selection.now.search.class c)) }
    ensures faults { IfErr result (CanReport V.source (IsNeeded selection.now.search.class) values.old) }
    ensures honest { V.source.is_honest values.old → V.source.is_honest values.new }
    ensures tables { HasSameTables V.source values.old values.new }
{
    match decode(selection.search.class, number) {
        None => Ok(None),
        Some(p) => first_image(selection, &p, values),
    }
}

/// The text for a found number, if it is listed.
pub(crate) fn text_at<V: Values>(
    selection: &Selection,
    form: Form,
    number: u32,
    values: &mut V,
) -> Result<Option<Listed>, ProbeFault>
    ensures some { V.source.is_honest values.old → IsFound selection.now.search number
        → IfOk result (λ at. IfSome at (λ p. IsListedAt selection.now number)) }
    ensures text { V.source.is_honest values.old → IsFound selection.now.search number
        → IfOk result (λ at. IfSome at (λ text. IsTextAt selection.now form number text.bytes)) }
    ensures none { V.source.is_honest values.old → IsFound selection.now.search number
        → IfOk result (λ at. IfNone at (¬ (IsListedAt selection.now number))) }
    ensures faults { IfErr result (CanReport V.source (IsNeeded selection.now.search.class) values.old) }
    ensures honest { V.source.is_honest values.old → V.source.is_honest values.new }
    ensures tables { HasSameTables V.source values.old values.new }
{
    match listed_at(selection, number, values) {
        Err(fault) => Err(fault),
        Ok(None) => Ok(None),
        Ok(Some(image)) => match text_of(&image, form, selection.search.theme, values) {
            Err(fault) => Err(fault),
            Ok(text) => Ok(Some(text)),
        },
    }
}
