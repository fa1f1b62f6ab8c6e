//! The header of a game: its tags.
ghost use Rattle.std.specs.Prelude.{◌≡◌, Some, None, Ok, Err, length, IfOk};
ghost use Rattle.std.specs.Option.{option_map};
ghost use Rattle.study_games.specs.Header.{step_seen, step_at, tags_of, header_fault, value_of, named_count, unescaped_at, unescape};

use crate::token::{Token, TokenFault, begins_feed, read_token};
use std::alloc::{AllocError, Allocator};
use study_text::Text;

/// A faulty tag, and the number of bytes of the game from its place on.
#[derive(Clone, Copy, Debug, PartialEq, Eq)]
pub struct HeaderFault {
    pub why: TokenFault,
    pub left: usize,
}

/// The next token of a header.
#[derive(Clone, Copy)]
pub enum HeaderStep<'t> {
    /// A tag's name and value, or a blank or a comment; and the rest.
    On(Option<(&'t [u8], &'t [u8])>, &'t [u8]),
    NoTag(TokenFault),
    End,
}

fn step_at(text: &[u8], fresh: bool) -> HeaderStep<'_>
    ensures { step_seen result ≡ step_at fresh text.now }
{
    match read_token(text, fresh) {
        None => HeaderStep::End,
        Some(Ok(cut)) => match cut.token {
            Token::Tag(name, value) => HeaderStep::On(Some((name, value)), cut.rest),
            Token::Blank | Token::Comment(_) | Token::Rest(_) => HeaderStep::On(None, cut.rest),
            _ => HeaderStep::End,
        },
        Some(Err(TokenFault::TagForm)) => HeaderStep::NoTag(TokenFault::TagForm),
        Some(Err(TokenFault::OpenString)) => HeaderStep::NoTag(TokenFault::OpenString),
        Some(Err(_)) => HeaderStep::End,
    }
}

/// The first token in the header of a game that should be a tag and is not one.
#[tactic(auto, unfolding(crate::specs::Header::header_fault), using(crate::proofs::Fuel::fault_more))]
pub fn header_fault(game: &[u8]) -> Option<HeaderFault>
    ensures { result ≡ header_fault game.now }
{
    let mut rest = game;
    let mut fresh = true;
    let mut fuel = game.len();
    while fuel > 0 {
        match step_at(rest, fresh) {
            HeaderStep::On(_, behind) => {
                fresh = begins_feed(rest);
                rest = behind;
            }
            HeaderStep::NoTag(why) => {
                return Some(HeaderFault {
                    why,
                    left: rest.len(),
                });
            }
            HeaderStep::End => return None,
        }
        fuel -= 1;
    }
    None
}

/// The number of tags in the header of a game.
#[tactic(auto, unfolding(crate::specs::Header::tags_of), using(crate::proofs::Fuel::tags_more))]
pub fn count_tags(game: &[u8]) -> usize
    ensures { result ≡ length (tags_of game.now) }
{
    let mut rest = game;
    let mut fresh = true;
    let mut fuel = game.len();
    let mut count: usize = 0;
    while fuel > 0 {
        let HeaderStep::On(pair, behind) = step_at(rest, fresh) else {
            return count;
        };
        if pair.is_some() {
            count += 1;
        }
        fresh = begins_feed(rest);
        rest = behind;
        fuel -= 1;
    }
    count
}

/// The number of tags in the header of a game that have the name.
#[tactic(auto, unfolding(crate::specs::Header::tags_of), using(crate::proofs::Fuel::tags_more))]
pub fn count_named(game: &[u8], name: &[u8]) -> usize
    ensures { result ≡ named_count name.now (tags_of game.now) }
{
    let mut rest = game;
    let mut fresh = true;
    let mut fuel = game.len();
    let mut count: usize = 0;
    while fuel > 0 {
        let HeaderStep::On(pair, behind) = step_at(rest, fresh) else {
            return count;
        };
        if let Some((found, _)) = pair {
            if found == name {
                count += 1;
            }
        }
        fresh = begins_feed(rest);
        rest = behind;
        fuel -= 1;
    }
    count
}

/// The value, with its backslashes, of the first tag in a game's header that has the name.
#[tactic(auto, unfolding(crate::specs::Header::tags_of), using(crate::proofs::Fuel::tags_more))]
pub fn tag_value<'t>(game: &'t [u8], name: &[u8]) -> Option<&'t [u8]>
    ensures { option_map (λ value. value.now) result ≡ value_of name.now (tags_of game.now) }
{
    let mut rest = game;
    let mut fresh = true;
    let mut fuel = game.len();
    while fuel > 0 {
        let HeaderStep::On(pair, behind) = step_at(rest, fresh) else {
            return None;
        };
        if let Some((found, value)) = pair {
            if found == name {
                return Some(value);
            }
        }
        fresh = begins_feed(rest);
        rest = behind;
        fuel -= 1;
    }
    None
}

/// The first byte of the text, after a backslash if one escapes it, and the rest.
fn read_unescaped(text: &[u8]) -> Option<(u8, &[u8])>
    ensures { option_map (λ found. (found.0, found.1.now)) result ≡ unescaped_at text.now }
{
    match text {
        [b'\\', c, rest @ ..] if *c == b'"' || *c == b'\\' => Some((*c, rest)),
        [b, rest @ ..] => Some((*b, rest)),
        [] => None,
    }
}

/// The text of a tag's value, without the backslashes that escape.
pub fn unescape<'a, A: Allocator>(alloc: &'a A, value: &[u8]) -> Result<Text<'a, A>, AllocError>
    ensures { IfOk result (λ text. text ≡ unescape value.now) }
{
    let mut out = Text::new(alloc);
    let mut rest = value;
    while let Some((byte, behind)) = read_unescaped(rest) {
        out.add(&[byte])?;
        rest = behind;
    }
    Ok(out)
}
