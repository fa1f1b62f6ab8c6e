//! Requests for a search, in words.
ghost use Rattle.std.specs.Prelude.{◌≡◌, map};
ghost use Rattle.study_listing.specs.Requests.{outcome_named, theme_of_one, theme_of_two, only_moves_named, usual_side, positions_of};
ghost use Rattle.study_listing.specs.Requests.{longest_for, by_two, request_of};
ghost use Rattle.study_listing.specs.Filters.{or_else};
ghost use Rattle.study_listing.specs.Requests.{class_of_request, needs_one_table};

use crate::filter_words::{Behind, Unread, with_words};
use crate::filters::Selection;
use crate::listed::{has_like_sides, is_of_zugzwangs};
use study_board::Side;
use study_command::{read_place, read_side};
use study_material::Class;
use study_search::{Outcome, Search, Theme};

/// The request of the words after the class.
#[derive(Clone, Copy, Debug, PartialEq, Eq)]
pub enum Request {
    /// The positions with a theme.
    Positions(Selection),
    /// The positions with the longest mate of this side, which is to move.
    Longest(Class, Side),
}

impl Request {
    /// The class whose positions are searched.
    pub fn class(&self) -> Class
        ensures { result ≡ class_of_request self.now }
    {
        match self {
            Request::Positions(selection) => selection.search.class,
            Request::Longest(class, _) => *class,
        }
    }

    /// Whether the table of the class is enough, without those of the classes that its moves lead to.
    pub fn is_of_one_table(&self) -> bool
        ensures { result ≡ needs_one_table self.now }
    {
        match self {
            Request::Positions(selection) => is_of_zugzwangs(selection.search.theme),
            Request::Longest(_, _) => true,
        }
    }
}

fn outcome_named(word: &[u8]) -> Option<Outcome>
    ensures { result ≡ outcome_named word.now }
{
    if word == b"win".as_slice() {
        Some(Outcome::Win)
    } else if word == b"draw".as_slice() {
        Some(Outcome::Draw)
    } else {
        None
    }
}

/// A theme of one word.
fn theme_of_one(word: &[u8]) -> Option<Theme>
    ensures { result ≡ theme_of_one word.now }
{
    if word == b"zugzwang".as_slice() {
        Some(Theme::Zugzwang)
    } else if word == b"underpromotion".as_slice() {
        Some(Theme::Underpromotion)
    } else {
        None
    }
}

/// So many only moves, at most 255.
fn only_moves_named(outcome: Option<Outcome>, word: &[u8]) -> Option<Theme>
    ensures { result ≡ only_moves_named outcome word.now }
{
    let outcome = outcome?;
    let count = read_place(word)?;
    if count <= 255 {
        Some(Theme::OnlyMoves(outcome, count as u8))
    } else {
        None
    }
}

/// A theme of two words.
fn theme_of_two(first: &[u8], second: &[u8]) -> Option<Theme>
    ensures { result ≡ theme_of_two first.now second.now }
{
    if first == b"into".as_slice() {
        return Some(Theme::IntoZugzwang(outcome_named(second)?));
    }
    if first == b"try".as_slice() {
        return Some(Theme::ZugzwangTry(outcome_named(second)?));
    }
    only_moves_named(outcome_named(first), second)
}

/// The side to move if the words name none: of the two positions of a zugzwang, and of colour images, one is enough.
fn usual_side(class: Class, theme: Theme) -> Option<Side>
    ensures { result ≡ usual_side class theme }
{
    if is_of_zugzwangs(theme) || has_like_sides(class) {
        Some(Side::White)
    } else {
        None
    }
}

/// The positions with a theme, by the words after it.
fn positions_of(class: Class, theme: Theme, rest: &[&[u8]]) -> Result<Request, Unread>
    ensures { result ≡ positions_of class theme (map (λ word. word.now) rest.now) }
{
    match with_words(theme, Behind::nothing(), rest) {
        Err(fault) => Err(fault),
        Ok(behind) => Ok(Request::Positions(Selection {
            search: Search {
                class,
                theme,
                side: side_or(behind.side, usual_side(class, theme)),
            },
            filters: behind.filters,
        })),
    }
}

/// The named side, or the usual one.
fn side_or(named: Option<Side>, usual: Option<Side>) -> Option<Side>
    ensures { result ≡ or_else named usual }
{
    match named {
        None => usual,
        Some(side) => Some(side),
    }
}

fn longest_for(class: Class, side: Option<Side>, rest: &[&[u8]]) -> Result<Request, Unread>
    ensures { result ≡ longest_for class side (map (λ word. word.now) rest.now) }
{
    match side {
        None => Err(Unread::NoSuchTheme),
        Some(side) => {
            if rest.is_empty() {
                Ok(Request::Longest(class, side))
            } else {
                Err(Unread::NoSuchFilter)
            }
        }
    }
}

/// The theme of two words.
fn by_two(class: Class, first: &[u8], rest: &[&[u8]]) -> Result<Request, Unread>
    ensures { result ≡ by_two class first.now (map (λ word. word.now) rest.now) }
{
    let Some((second, rest)) = rest.split_first() else {
        return Err(Unread::NoSuchTheme);
    };
    if first == b"longest".as_slice() {
        return longest_for(class, read_side(second), rest);
    }
    match theme_of_two(first, second) {
        None => Err(Unread::NoSuchTheme),
        Some(theme) => positions_of(class, theme, rest),
    }
}

/// The request that the words after the class spell.
pub fn read_request(class: Class, words: &[&[u8]]) -> Result<Request, Unread>
    ensures { result ≡ request_of class (map (λ word. word.now) words.now) }
{
    let Some((first, rest)) = words.split_first() else {
        return Err(Unread::NoSuchTheme);
    };
    match theme_of_one(first) {
        None => by_two(class, first, rest),
        Some(theme) => positions_of(class, theme, rest),
    }
}
