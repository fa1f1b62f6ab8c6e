//! Remarks read from a script.
ghost use Rattle.std.specs.Prelude.{◌≡◌, ◌≤◌, length};
ghost use Rattle.std.specs.Option.{option_map};
ghost use Rattle.study_remark.specs.Remarks.{game_seen, remark_seen};
ghost use Rattle.study_remark.specs.Reading.{column_at, colon_in, without_closing, author_in, author_at, game_at, source_in, doubt_in};
ghost use Rattle.study_remark.specs.Reading.{said_of_game, game_told, doubt_told, counts_told, behind_told, original_in, tail_told, total_told, other_told};
ghost use Rattle.study_remark.specs.Reading.{original_with, latin_told, letters_told, told_in, remark_in, old_remark_in};

use crate::numbers::{after_word, number_after, number_at, read_pair};
use crate::{Doubt, Original, Remark, Source, Subject};

/// The column, if one is stated, and the text behind it.
fn read_column(text: &[u8]) -> Option<(Option<u32>, &[u8])>
    ensures { option_map (λ cut. (cut.0, cut.1.now)) result ≡ column_at text.now }
{
    match after_word(text, b", column ") {
        None => Some((None, text)),
        Some(digits) => {
            let (column, rest) = number_at(digits)?;
            Some((Some(column), rest))
        }
    }
}

/// The number of bytes before the first colon.
fn colon_in(text: &[u8]) -> usize
    ensures value { result ≡ colon_in text.now }
    ensures within { result ≤ length text.now }
{
    text.iter().take_while(|b| **b != b':').count()
}

fn without_closing(text: &[u8]) -> Option<&[u8]>
    ensures { option_map (λ t. t.now) result ≡ without_closing text.now }
{
    let n = text.len();
    if n == 0 || text[n - 1] != b')' {
        return None;
    }
    let (front, _) = text.split_at(n - 1);
    Some(front)
}

fn read_author(text: &[u8]) -> Option<&[u8]>
    ensures { option_map (λ t. t.now) result ≡ author_in text.now }
{
    if text.is_empty() {
        return Some(text);
    }
    without_closing(after_word(text, b" (")?)
}

/// The author, and what is said of the game.
fn cut_author(text: &[u8]) -> Option<(&[u8], &[u8])>
    ensures { option_map (λ cut. (cut.0.now, cut.1.now)) result ≡ author_at text.now }
{
    let (front, behind) = text.split_at(colon_in(text));
    let author = read_author(front)?;
    let words = after_word(behind, b": ")?;
    Some((author, words))
}

/// The game of a remark, and what is said of it.
#[tactic(auto, unfolding(crate::specs::Reading::game_at))]
fn read_game(text: &[u8]) -> Option<(Subject<'_>, &[u8])>
    ensures { option_map (λ found. (game_seen found.0, found.1.now)) result ≡ game_at text.now }
{
    let (game, text) = number_after(text, b"game ")?;
    let (line, text) = number_after(text, b", line ")?;
    let (column, text) = read_column(text)?;
    let (author, words) = cut_author(text)?;
    let subject = Subject {
        game,
        line,
        column,
        author,
    };
    Some((subject, words))
}

fn source_in(words: &[u8]) -> Option<Source>
    ensures { result ≡ source_in words.now }
{
    if words == b"its comment".as_slice() {
        Some(Source::Comment)
    } else if words == b"its tag Stipulation".as_slice() {
        Some(Source::StipulationTag)
    } else if words == b"its tag Result".as_slice() {
        Some(Source::ResultTag)
    } else if words == b"its result".as_slice() {
        Some(Source::Result)
    } else if words == b"the option".as_slice() {
        Some(Source::Given)
    } else {
        None
    }
}

fn doubt_in(words: &[u8]) -> Option<Doubt>
    ensures { result ≡ doubt_in words.now }
{
    if words == b"of its comment is not understood".as_slice() {
        Some(Doubt::CommentUnread)
    } else if words == b"of its tag Stipulation is not understood".as_slice() {
        Some(Doubt::TagUnread)
    } else if words == b"differs from its tag Stipulation".as_slice() {
        Some(Doubt::TagDiffers)
    } else if words == b"differs from its tag Result".as_slice() {
        Some(Doubt::ResultTagDiffers)
    } else if words == b"differs from its result".as_slice() {
        Some(Doubt::ResultDiffers)
    } else {
        None
    }
}

/// What is said of a game.
fn said_of<'t>(subject: Subject<'t>, words: &'t [u8]) -> Option<Remark<'t>>
    ensures { option_map remark_seen result
        ≡ said_of_game (game_seen subject.entry) words.now }
{
    if let Some(by) = after_word(words, b"stipulated by ") {
        let source = source_in(by)?;
        return Some(Remark::Stipulated(subject, source));
    }
    match after_word(words, b"not read: ") {
        Some(why) => Some(Remark::NotRead(subject, why)),
        None => Some(Remark::LeftOut(subject, words)),
    }
}

fn read_game_remark(text: &[u8]) -> Option<Remark<'_>>
    ensures { option_map remark_seen result ≡ game_told text.now }
{
    let (subject, words) = read_game(text)?;
    said_of(subject, words)
}

fn read_doubt(text: &[u8]) -> Option<Remark<'_>>
    ensures { option_map remark_seen result ≡ doubt_told text.now }
{
    let doubt = doubt_in(after_word(text, b"the stipulation ")?)?;
    Some(Remark::Doubted(doubt))
}

#[tactic(auto, unfolding(crate::specs::Reading::original_in))]
fn read_original(text: &[u8]) -> Option<Remark<'_>>
    ensures { option_map remark_seen result ≡ original_in text.now }
{
    if let Some(value) = after_word(text, b"Event was: ") {
        return Some(Remark::Original(Original::Event, value));
    }
    if let Some(value) = after_word(text, b"Site was: ") {
        return Some(Remark::Original(Original::Site, value));
    }
    if let Some(value) = after_word(text, b"Date was: ") {
        return Some(Remark::Original(Original::Date, value));
    }
    if let Some(value) = after_word(text, b"Round was: ") {
        return Some(Remark::Original(Original::Round, value));
    }
    if let Some(value) = after_word(text, b"White was: ") {
        return Some(Remark::Original(Original::White, value));
    }
    let value = after_word(text, b"Black was: ")?;
    Some(Remark::Original(Original::Black, value))
}

/// The tag with this name.
fn original_with(name: &[u8]) -> Option<Original>
    ensures { result ≡ original_with name.now }
{
    if name == b"Event".as_slice() {
        Some(Original::Event)
    } else if name == b"Site".as_slice() {
        Some(Original::Site)
    } else if name == b"Date".as_slice() {
        Some(Original::Date)
    } else if name == b"Round".as_slice() {
        Some(Original::Round)
    } else if name == b"White".as_slice() {
        Some(Original::White)
    } else if name == b"Black".as_slice() {
        Some(Original::Black)
    } else {
        None
    }
}

#[tactic(auto, unfolding(crate::specs::Reading::latin_told))]
fn read_latin(text: &[u8]) -> Option<Remark<'_>>
    ensures { option_map remark_seen result ≡ latin_told text.now }
{
    let name = original_with(after_word(text, b"read as Latin 1: ")?)?;
    Some(Remark::Latin1(name))
}

fn read_letters(text: &[u8]) -> Option<Remark<'_>>
    ensures { option_map remark_seen result ≡ letters_told text.now }
{
    let language = after_word(text, b"letters: ")?;
    Some(Remark::Letters(language))
}

fn read_tail(text: &[u8]) -> Option<Remark<'_>>
    ensures { option_map remark_seen result ≡ tail_told text.now }
{
    let (moves, rest) = number_after(text, b"a tail: moves before ")?;
    if rest == b"; its position is another program's word".as_slice() {
        Some(Remark::Tail(moves))
    } else {
        None
    }
}

fn read_counts(text: &[u8]) -> Option<Remark<'_>>
    ensures { option_map remark_seen result ≡ counts_told text.now }
{
    let counts = after_word(text, b"not taken over: ")?;
    Some(Remark::NotTakenOver(counts))
}

fn read_behind(text: &[u8]) -> Option<Remark<'_>>
    ensures { option_map remark_seen result ≡ behind_told text.now }
{
    let (line, column) = read_pair(text, b"behind the result: line ", b", column ")?;
    Some(Remark::BehindResult(line, column))
}

fn read_total(text: &[u8]) -> Option<Remark<'_>>
    ensures { option_map remark_seen result ≡ total_told text.now }
{
    let (games, studies) = read_pair(text, b"games ", b", studies ")?;
    Some(Remark::Total(games, studies))
}

/// A remark on the whole block, or on the whole file.
fn read_other(text: &[u8]) -> Option<Remark<'_>>
    ensures { option_map remark_seen result ≡ other_told text.now }
{
    if let Some(remark) = read_behind(text) {
        return Some(remark);
    }
    if let Some(remark) = read_original(text) {
        return Some(remark);
    }
    if let Some(remark) = read_latin(text) {
        return Some(remark);
    }
    if let Some(remark) = read_letters(text) {
        return Some(remark);
    }
    if let Some(remark) = read_tail(text) {
        return Some(remark);
    }
    read_total(text)
}

#[tactic(auto, unfolding(crate::specs::Reading::told_in))]
fn read_words(text: &[u8]) -> Option<Remark<'_>>
    ensures { option_map remark_seen result ≡ told_in text.now }
{
    if let Some(remark) = read_game_remark(text) {
        return Some(remark);
    }
    if let Some(remark) = read_doubt(text) {
        return Some(remark);
    }
    if let Some(remark) = read_counts(text) {
        return Some(remark);
    }
    read_other(text)
}

/// The remark in a line without its line feed. Any other line is no remark, whatever comment it is.
#[tactic(auto, unfolding(crate::specs::Reading::remark_in))]
pub fn read_remark(line: &[u8]) -> Option<Remark<'_>>
    ensures { option_map remark_seen result ≡ remark_in line.now }
{
    read_words(after_word(line, b"#! ")?)
}

/// The remark in a line of a script of version 1.7, whose remarks begin with `#` alone. A comment of a person may be taken for one.
#[tactic(auto, unfolding(crate::specs::Reading::old_remark_in))]
pub fn read_old_remark(line: &[u8]) -> Option<Remark<'_>>
    ensures { option_map remark_seen result ≡ old_remark_in line.now }
{
    read_words(after_word(line, b"# ")?)
}
