//! A tail of a game: the game from a position that a comment of its main line states.
ghost use Rattle.std.specs.Prelude.{◌≡◌, ◌++◌, ◌-◌, true, false, length, take, OnOk, IfOk};
ghost use Rattle.std.specs.List.{list_all};
ghost use Rattle.study_notation.specs.Fen.{start_of};
ghost use Rattle.study_marks.specs.Edits.{is_printable};
ghost use Rattle.study_games.specs.Tokens.{token_seen};
ghost use Rattle.study_import.specs.Tails.{position_text, is_start, says_mate, is_mate_tag, part_said, part_of, act_before, act_among, act_behind, act_of};
ghost use Rattle.study_import.specs.Tails.{bytes_then, search_then, position_then, tail_from, not_begun, named_seen, EndsNamed};

use crate::masks::{Mask, add_masked};
use std::alloc::{AllocError, Allocator};
use study_board::Side;
use study_command::as_text;
use study_games::{Said, Token, begins_feed, read_token, say, unescape};
use study_marks::{Goal, Stipulation};
use study_notation::read_fen;
use study_reading::aim_stated;
use study_text::Text;

/// The kind of a token in the search for a tail.
#[derive(Clone, Copy)]
pub enum Part {
    /// Not a move, and without effect.
    Quiet,
    /// Digits, as the number of a move.
    Number,
    Move,
    Open,
    Close,
    /// A result.
    End,
    /// Whether it states a mate in so many moves.
    Tag(bool),
    /// Whether it states a mate in so many moves, and whether it is a position of at most four men.
    Comment(bool, bool),
}

/// The action for a token.
#[derive(Clone, Copy)]
pub enum Act {
    Keep,
    /// Replace it by blanks.
    Blank,
    /// Replace a move by blanks.
    Skip,
    /// A variation begins.
    Deepen,
    /// A variation ends.
    Rise,
    /// It states the position.
    Name,
    /// The tail begins before it.
    Begin,
    /// There is no tail.
    Stop,
}

/// The state of a search.
#[derive(Clone, Copy)]
pub struct Search {
    /// The number of moves skipped.
    pub skipped: u32,
    /// The depth of variations.
    pub depth: u32,
    /// The position has been stated.
    pub named: bool,
}

/// The comment that states the position of a tail, and the number of skipped moves.
#[derive(Clone, Copy)]
pub struct Named<'t> {
    pub position: &'t [u8],
    pub skipped: u32,
}

/// A comment as a FEN.
#[tactic(auto, using(crate::proofs::TailFound::all_spaced))]
pub fn position_text<'a, A: Allocator>(
    alloc: &'a A,
    comment: &[u8],
) -> Result<Text<'a, A>, AllocError>
    ensures text { IfOk result (λ fen. fen ≡ position_text comment.now) }
    ensures prints { IfOk result (λ fen. list_all is_printable fen ≡ true) }
{
    let mut out = Text::new(alloc);
    add_masked(&mut out, Mask::Spaced, comment)?;
    Ok(out)
}

/// Whether a comment is a position that the script accepts.
fn is_position<'a, A: Allocator>(alloc: &'a A, comment: &[u8]) -> Result<bool, AllocError>
    ensures { IfOk result (λ is. is ≡ is_start (start_of (position_text comment.now))) }
{
    let fen = position_text(alloc, comment)?;
    Ok(read_fen(as_text(fen.as_slice())).is_ok())
}

fn says_mate(aim: Option<Stipulation>) -> bool
    ensures { result ≡ says_mate aim }
{
    match aim {
        Some(aim) => match aim.goal {
            Goal::MateIn(_) => true,
            _ => false,
        },
        None => false,
    }
}

fn is_mate_tag<'a, A: Allocator>(
    alloc: &'a A,
    name: &[u8],
    value: &[u8],
) -> Result<bool, AllocError>
    ensures { IfOk result (λ is. is ≡ is_mate_tag name.now value.now) }
{
    if name != b"Stipulation".as_slice() {
        return Ok(false);
    }
    let text = unescape(alloc, value)?;
    Ok(says_mate(aim_stated(text.as_slice(), Side::White)))
}

fn part_said(said: Said) -> Part
    ensures { result ≡ part_said said }
{
    match said {
        Said::Number => Part::Number,
        Said::Passing | Said::Aside | Said::Word => Part::Quiet,
        Said::Result(_) => Part::End,
        Said::NullMove | Said::Move => Part::Move,
    }
}

fn part_of<'a, A: Allocator>(alloc: &'a A, token: Token<'_>) -> Result<Part, AllocError>
    ensures { IfOk result (λ part. part ≡ part_of (token_seen token.entry)) }
{
    Ok(match token {
        Token::Blank | Token::Aside | Token::Rest(_) => Part::Quiet,
        Token::Open => Part::Open,
        Token::Close => Part::Close,
        Token::Star => Part::End,
        Token::Sign(text) => {
            if text == b"--".as_slice() {
                Part::Move
            } else {
                Part::Quiet
            }
        }
        Token::Symbol(text) => part_said(say(text)),
        Token::Tag(name, value) => Part::Tag(is_mate_tag(alloc, name, value)?),
        Token::Comment(text) => {
            Part::Comment(
                says_mate(aim_stated(text, Side::White)),
                is_position(alloc, text)?,
            )
        }
    })
}

fn act_before(part: Part) -> Act
    ensures { result ≡ act_before part }
{
    match part {
        Part::Quiet => Act::Keep,
        Part::Number => Act::Blank,
        Part::Tag(is_mate) | Part::Comment(is_mate, _) => {
            if is_mate { Act::Blank } else { Act::Keep }
        }
        Part::Move => Act::Skip,
        _ => Act::Stop,
    }
}

fn act_among(main: bool, part: Part) -> Act
    ensures { result ≡ act_among main part }
{
    match part {
        Part::Quiet | Part::Number => Act::Blank,
        Part::Tag(_) => Act::Stop,
        Part::Comment(_, is_position) if main && is_position => Act::Name,
        Part::Comment(_, _) => Act::Blank,
        Part::Move => Act::Skip,
        Part::Open => Act::Deepen,
        Part::Close => { if main { Act::Stop } else { Act::Rise } }
        Part::End => { if main { Act::Stop } else { Act::Blank } }
    }
}

fn act_behind(part: Part) -> Act
    ensures { result ≡ act_behind part }
{
    match part {
        Part::Quiet | Part::Number | Part::Comment(_, _) => Act::Keep,
        Part::Open => Act::Deepen,
        Part::Move | Part::End => Act::Begin,
        _ => Act::Stop,
    }
}

fn add_bytes<A: Allocator>(out: &mut Text<'_, A>, act: Act, bytes: &[u8]) -> Result<(), AllocError>
    ensures { OnOk result (out.new ≡ out.old ++ bytes_then act bytes.now) }
{
    match act {
        Act::Keep => out.add(bytes),
        _ => add_masked(out, Mask::Blank, bytes),
    }
}

/// The comment that states the position, after a token.
fn position_then<'t>(position: &'t [u8], token: Token<'t>, act: Act) -> &'t [u8]
    ensures { result.now ≡ position_then position.now (token_seen token.entry) act }
{
    match (act, token) {
        (Act::Name, Token::Comment(text)) => text,
        (Act::Name, _) => b"",
        _ => position,
    }
}

impl Search {
    fn new() -> Search
        ensures { result ≡ record { skipped = 0; depth = 0; named = false } }
    {
        Search {
            skipped: 0,
            depth: 0,
            named: false,
        }
    }

    fn act_of(self, part: Part) -> Act
        ensures { result ≡ act_of self part }
    {
        if self.skipped == 0 {
            act_before(part)
        } else if self.named && self.depth == 0 {
            act_behind(part)
        } else {
            act_among(self.depth == 0, part)
        }
    }

    fn then(self, act: Act) -> Search
        ensures { result ≡ search_then self act }
    {
        match act {
            Act::Skip => Search {
                skipped: self.skipped.saturating_add(1),
                ..self
            },
            Act::Deepen => Search {
                depth: self.depth.saturating_add(1),
                ..self
            },
            Act::Rise => Search {
                depth: self.depth.saturating_sub(1),
                ..self
            },
            Act::Name => Search {
                named: true,
                ..self
            },
            _ => self,
        }
    }

    /// The text ends.
    fn named_at_end<'t>(self, position: &'t [u8]) -> Option<Named<'t>>
        ensures { EndsNamed result self position.now }
    {
        if self.named && self.depth == 0 {
            Some(Named {
                position,
                skipped: self.skipped,
            })
        } else {
            None
        }
    }
}

/// The front of a text, before a part that is its end.
fn before<'t>(text: &'t [u8], end: &[u8]) -> &'t [u8]
    ensures { result.now ≡ take (length text.now - length end.now) text.now }
{
    let (front, _) = text.split_at(text.len().saturating_sub(end.len()));
    front
}

/// Adds the text of a game's tail, and returns its position; `None` if the game has no tail.
pub fn add_tail<'t, 'a, A: Allocator>(
    alloc: &'a A,
    out: &mut Text<'_, A>,
    text: &'t [u8],
) -> Result<Option<Named<'t>>, AllocError>
    ensures { IfOk result (λ named.
        named_seen named out.new ≡ tail_from (length text.now) true text.now (not_begun out.old)) }
{
    let mut rest = text;
    let mut fresh = true;
    let mut fuel = text.len();
    let mut search = Search::new();
    let mut position: &'t [u8] = b"";
    while fuel > 0 {
        let Some(found) = read_token(rest, fresh) else {
            break;
        };
        let Ok(cut) = found else {
            return Ok(None);
        };
        let act = search.act_of(part_of(alloc, cut.token)?);
        match act {
            Act::Stop => return Ok(None),
            Act::Begin => {
                out.add(rest)?;
                return Ok(Some(Named {
                    position,
                    skipped: search.skipped,
                }));
            }
            _ => {}
        }
        add_bytes(out, act, before(rest, cut.rest))?;
        search = search.then(act);
        position = position_then(position, cut.token, act);
        fresh = begins_feed(rest);
        rest = cut.rest;
        fuel -= 1;
    }
    Ok(search.named_at_end(position))
}
