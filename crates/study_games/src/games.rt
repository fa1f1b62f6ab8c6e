//! The games of a PGN text, cut at lines.
ghost use Rattle.std.specs.Prelude.{◌≡◌, true, false};
ghost use Rattle.std.specs.List.{list_all};
ghost use Rattle.std.specs.Option.{option_map};
ghost use Rattle.study_games.specs.Bytes.{is_blank};
ghost use Rattle.study_games.specs.Games.{without_mark, begins_value, name_of, name_in_brackets, tag_name, is_remark, kind_of, begins_game, seen_then};

use crate::bytes::{is_blank, is_letter};
use crate::runs::{Run, cut_run};

/// The kind of a line, by its beginning.
#[derive(Clone, Copy, Debug, PartialEq, Eq)]
pub enum LineKind {
    /// Blank, an escape line or a remark.
    Silent,
    Tag,
    EventTag,
    Moves,
}

/// What the lines of a game have so far: a line of moves, a tag Event.
#[derive(Clone, Copy, Debug, Default, PartialEq, Eq)]
pub struct Seen {
    pub moves: bool,
    pub event: bool,
}

/// The line without a byte order mark in front, wherever it is in the file: joined files have such marks within the text.
pub fn without_mark(text: &[u8]) -> &[u8]
    ensures { result.now ≡ without_mark text.now }
{
    match text {
        [a, b, c, rest @ ..] if *a == 0xef && *b == 0xbb && *c == 0xbf => rest,
        _ => text,
    }
}

fn begins_value(text: &[u8]) -> bool
    ensures { result ≡ begins_value text.now }
{
    matches!(text, [b'"', ..])
}

fn name_of(text: &[u8]) -> Option<&[u8]>
    ensures { option_map (λ name. name.now) result ≡ name_of text.now }
{
    match text {
        [first, ..] if is_letter(*first) => {
            let (name, rest) = cut_run(Run::Name, text);
            let (_, behind) = cut_run(Run::Gap, rest);
            if begins_value(behind) {
                Some(name)
            } else {
                None
            }
        }
        _ => None,
    }
}

fn name_in_brackets(text: &[u8]) -> Option<&[u8]>
    ensures { option_map (λ name. name.now) result ≡ name_in_brackets text.now }
{
    match text {
        [b'[', rest @ ..] => {
            let (_, behind) = cut_run(Run::Gap, rest);
            name_of(behind)
        }
        _ => None,
    }
}

/// The name of the tag with which the line begins, if its value's quotation mark follows.
#[tactic(auto, unfolding(crate::specs::Games::tag_name))]
fn tag_name(line: &[u8]) -> Option<&[u8]>
    ensures { option_map (λ name. name.now) result ≡ tag_name line.now }
{
    let (_, behind) = cut_run(Run::Gap, line);
    name_in_brackets(behind)
}

fn is_remark(line: &[u8]) -> bool
    ensures { result ≡ is_remark line.now }
{
    matches!(line, [b'%' | b';', ..])
}

fn are_blank(line: &[u8]) -> bool
    ensures { result ≡ list_all is_blank line.now }
{
    line.iter().all(|b| is_blank(*b))
}

/// The kind of the line.
#[tactic(auto, unfolding(crate::specs::Games::kind_of))]
pub fn kind_of(line: &[u8]) -> LineKind
    ensures { result ≡ kind_of line.now }
{
    if is_remark(line) {
        return LineKind::Silent;
    }
    match tag_name(line) {
        Some(name) => {
            if name == b"Event".as_slice() {
                LineKind::EventTag
            } else {
                LineKind::Tag
            }
        }
        None => {
            if are_blank(line) {
                LineKind::Silent
            } else {
                LineKind::Moves
            }
        }
    }
}

/// Whether a line of this kind begins the next game.
pub fn begins_game(seen: Seen, kind: LineKind) -> bool
    ensures { result ≡ begins_game seen kind }
{
    match kind {
        LineKind::Silent | LineKind::Moves => false,
        LineKind::Tag => seen.moves,
        LineKind::EventTag => seen.moves || seen.event,
    }
}

/// What the lines have with this one.
pub fn seen_then(seen: Seen, kind: LineKind) -> Seen
    ensures { result ≡ seen_then seen kind }
{
    match kind {
        LineKind::Silent | LineKind::Tag => seen,
        LineKind::EventTag => Seen {
            moves: seen.moves,
            event: true,
        },
        LineKind::Moves => Seen {
            moves: true,
            event: seen.event,
        },
    }
}
