//! How studies stand as entries, and their names.
ghost use Rattle.std.specs.Prelude.{◌≡◌};
ghost use Rattle.study_report.specs.Unread.{is_edit, is_pgn, first_of, or_try, not_read_from, with_original, with_told, is_later_tail, names_ahead};
ghost use Rattle.study_report.specs.Unread.{none_unread, unread_accepted, unread_try, unread_after, unread_refused};
ghost use Rattle.study_remark.specs.Reading.{remark_in};

use crate::line_outcome::LineOutcome;
use crate::remarks::{begins, is_tail};
use study_command::{CommandKind, Keyword, read_keyword};
use study_entry::{Name, Names, Origin, Standing};
use study_remark::{Original, Remark, read_remark};
use study_script::begins_position;
use study_text::next_word;

/// How the study in the document stands as an entry, and the one after it, with their names: by refused edits, and remarks of games that were read only up
/// to a fault, of tries, and on the originals of tags.
#[derive(Clone, Copy)]
pub struct Unread {
    /// How the study in the document stands.
    pub own: Origin,
    /// How the next study stands, by remarks, or a refused edit after the study was reported, which may belong to the next one.
    pub ahead: Origin,
    /// Whether the study was reported.
    pub reported: bool,
}

impl Unread {
    /// Before the first line.
    pub fn none() -> Unread
        ensures { result ≡ none_unread }
    {
        Unread {
            own: Origin::whole(),
            ahead: Origin::whole(),
            reported: false,
        }
    }
}

/// Whether a line gives something to a study, or was meant to.
#[tactic(auto, unfolding(crate::specs::Unread::is_edit))]
fn is_edit(line: &[u8]) -> bool
    ensures { result ≡ is_edit line.now }
{
    match next_word(line) {
        Some((first, _)) => match read_keyword(first) {
            Some(word) => word.kind() == CommandKind::Edit,
            None => true,
        },
        None => false,
    }
}

/// Whether the first word of a line is `pgn`.
#[tactic(auto, unfolding(crate::specs::Unread::is_pgn))]
fn is_pgn(line: &[u8]) -> bool
    ensures { result ≡ is_pgn line.now }
{
    match next_word(line) {
        Some((first, _)) => match read_keyword(first) {
            Some(Keyword::Pgn) => true,
            _ => false,
        },
        None => false,
    }
}

fn first_of(old: Standing, number: u32) -> Standing
    ensures { result ≡ first_of old number }
{
    match old {
        Standing::NotRead(first) => Standing::NotRead(first),
        Standing::Whole => Standing::NotRead(number),
        Standing::BesideSolution => Standing::NotRead(number),
    }
}

fn or_try(old: Standing) -> Standing
    ensures { result ≡ or_try old }
{
    match old {
        Standing::NotRead(first) => Standing::NotRead(first),
        Standing::Whole => Standing::BesideSolution,
        Standing::BesideSolution => Standing::BesideSolution,
    }
}

fn not_read_from(old: Origin, number: u32) -> Origin
    ensures { result ≡ not_read_from old number }
{
    Origin {
        standing: first_of(old.standing, number),
        names: old.names,
    }
}

/// With the original of a tag that a page shows.
fn with_original(names: Names, name: Original, text: &[u8]) -> Names
    ensures { result ≡ with_original names name text.now }
{
    let own = Name::of(text);
    match name {
        Original::Event => Names {
            event: own,
            ..names
        },
        Original::Site => Names { site: own, ..names },
        Original::Date => Names { date: own, ..names },
        Original::Round => Names {
            round: own,
            ..names
        },
        Original::White => Names {
            white: own,
            ..names
        },
        Original::Black => names,
    }
}

/// With the original in a line, if it is such a remark.
fn with_remark(names: Names, line: &[u8]) -> Names
    ensures { result ≡ with_told names (remark_in line.now) }
{
    match read_remark(line) {
        Some(Remark::Original(name, text)) => with_original(names, name, text),
        _ => names,
    }
}

/// Whether the line is the remark of a tail of a game that has one before.
fn is_later_tail(line: &[u8]) -> bool
    ensures { result ≡ is_later_tail line.now }
{
    is_tail(line) && !begins(line, b"#! tail 1 of ")
}

/// The names of the next study after a line.
fn names_ahead(old: &Unread, line: &[u8]) -> Names
    ensures { result ≡ names_ahead old.now line.now }
{
    if is_later_tail(line) {
        return old.own.names;
    }
    with_remark(old.ahead.names, line)
}

/// After a refused line of this number.
#[tactic(auto, unfolding(crate::specs::Unread::unread_refused))]
fn after_refusal(old: &Unread, number: u32, line: &[u8]) -> Unread
    ensures { result ≡ unread_refused old.now number line.now }
{
    if is_pgn(line) {
        return Unread {
            own: old.own,
            ahead: Origin::whole(),
            reported: old.reported,
        };
    }
    if !is_edit(line) {
        return *old;
    }
    Unread {
        own: not_read_from(old.own, number),
        ahead: if old.reported {
            not_read_from(old.ahead, number)
        } else {
            old.ahead
        },
        reported: old.reported,
    }
}

/// After a line that was accepted and reports nothing, or a comment.
fn after_accepted(old: &Unread, line: &[u8]) -> Unread
    ensures { result ≡ unread_accepted old.now line.now }
{
    if begins_position(line) {
        return Unread {
            own: old.ahead,
            ahead: Origin::whole(),
            reported: false,
        };
    }
    let ahead = Origin {
        standing: old.ahead.standing,
        names: names_ahead(old, line),
    };
    Unread {
        own: old.own,
        ahead,
        reported: old.reported,
    }
}

/// After the remark of a try.
fn after_try(old: &Unread, line: &[u8]) -> Unread
    ensures { result ≡ unread_try old.now line.now }
{
    let ahead = Origin {
        standing: or_try(old.ahead.standing),
        names: names_ahead(old, line),
    };
    Unread {
        own: old.own,
        ahead,
        reported: old.reported,
    }
}

/// How studies stand after the line of this number.
pub fn unread_after(old: &Unread, number: u32, line: &[u8], outcome: LineOutcome) -> Unread
    ensures { result ≡ unread_after old.now number line.now outcome }
{
    match outcome {
        LineOutcome::Nothing => after_accepted(old, line),
        LineOutcome::Study => Unread {
            own: old.own,
            ahead: Origin::whole(),
            reported: true,
        },
        LineOutcome::LeftOut => *old,
        LineOutcome::NotRead => Unread {
            own: old.own,
            ahead: not_read_from(old.ahead, number),
            reported: old.reported,
        },
        LineOutcome::Try => after_try(old, line),
        LineOutcome::Refusal => after_refusal(old, number, line),
    }
}
