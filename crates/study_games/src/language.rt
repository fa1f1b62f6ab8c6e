//! Games whose moves name the pieces by letters of another language.
ghost use Rattle.std.specs.Prelude.{◌≡◌, ◌++◌, ◌-◌, length, take, map, OnOk, IfOk};
ghost use Rattle.study_games.specs.Tokens.{token_seen};
ghost use Rattle.study_games.specs.Languages.{language_name, letters_of, byte_for, english_byte, token_in_english, in_english};

use crate::symbols::{Said, say};
use crate::token::{Token, begins_feed, read_token};
use std::alloc::{AllocError, Allocator};
use study_text::Text;

/// A language whose letters of the pieces are not the English ones.
#[derive(Clone, Copy, Debug, PartialEq, Eq)]
pub enum Language {
    /// K D T L S.
    German,
    /// R D T F C.
    French,
    /// R D T A C, as in Italian.
    Spanish,
    /// K D T L P.
    Dutch,
}

/// The English name of the language.
pub fn language_name(language: Language) -> &'static [u8]
    ensures { result.now ≡ language_name language }
{
    match language {
        Language::German => b"German",
        Language::French => b"French",
        Language::Spanish => b"Spanish",
        Language::Dutch => b"Dutch",
    }
}

/// The letters of king, queen, rook, bishop and knight.
fn letters_of(language: Language) -> &'static [u8]
    ensures { result.now ≡ letters_of language }
{
    match language {
        Language::German => b"KDTLS",
        Language::French => b"RDTFC",
        Language::Spanish => b"RDTAC",
        Language::Dutch => b"KDTLP",
    }
}

/// The byte of `values` at the place of `b` in `keys`, or `other`.
fn byte_for(b: u8, keys: &[u8], values: &[u8], other: u8) -> u8
    ensures { result ≡ byte_for b keys.now values.now other }
{
    let [key, keys @ ..] = keys else {
        return other;
    };
    let [value, values @ ..] = values else {
        return other;
    };
    if b == *key {
        *value
    } else {
        byte_for(b, keys, values, other)
    }
}

/// The English letter of the piece with this letter.
#[tactic(auto, unfolding(crate::specs::Languages::english_byte))]
fn english_byte(language: Language, b: u8) -> u8
    ensures { result ≡ english_byte language b }
{
    let unknown = byte_for(b, b"KQRBN", b"YYYYY", b);
    byte_for(b, letters_of(language), b"KQRBN", unknown)
}

/// Adds the bytes of a move in English letters.
fn add_english<A: Allocator>(
    out: &mut Text<'_, A>,
    language: Language,
    bytes: &[u8],
) -> Result<(), AllocError>
    ensures { OnOk result (out.new ≡ out.old ++ map (english_byte language) bytes.now) }
{
    let mut rest = bytes;
    while let [first, more @ ..] = rest {
        out.add(&[english_byte(language, *first)])?;
        rest = more;
    }
    Ok(())
}

/// Adds the bytes of a token: a move in English letters, any other token as it is.
fn add_token<A: Allocator>(
    out: &mut Text<'_, A>,
    language: Language,
    token: Token<'_>,
    bytes: &[u8],
) -> Result<(), AllocError>
    ensures { OnOk result (
        out.new ≡ out.old ++ token_in_english language (token_seen token.entry) bytes.now) }
{
    match token {
        Token::Symbol(text) => match say(text) {
            Said::Move => add_english(out, language, bytes),
            _ => out.add(bytes),
        },
        _ => out.add(bytes),
    }
}

/// The front of a text, before a part that is its end.
fn before<'t>(text: &'t [u8], end: &[u8]) -> &'t [u8]
    ensures { result.now ≡ take (length text.now - length end.now) text.now }
{
    let (front, _) = text.split_at(text.len().saturating_sub(end.len()));
    front
}

/// The text of a game with its moves in English letters.
///
/// If a move has an English letter that is no letter of the language, the letter becomes `Y`, which no move has. So a game in a mixture of two
/// languages is not read. From the first token that cannot be read on, the text is unchanged.
#[tactic(auto, unfolding(crate::specs::Languages::in_english), using(crate::proofs::Fuel::english_more))]
pub fn in_english<'a, A: Allocator>(
    alloc: &'a A,
    text: &[u8],
    language: Language,
) -> Result<Text<'a, A>, AllocError>
    ensures { IfOk result (λ t. t ≡ in_english language text.now) }
{
    let mut out = Text::new(alloc);
    let mut rest = text;
    let mut fresh = true;
    let mut fuel = text.len();
    while fuel > 0 {
        let Some(Ok(cut)) = read_token(rest, fresh) else {
            break;
        };
        add_token(&mut out, language, cut.token, before(rest, cut.rest))?;
        fresh = begins_feed(rest);
        rest = cut.rest;
        fuel -= 1;
    }
    out.add(rest)?;
    Ok(out)
}
