//! The tokens of a PGN text, one by one.
ghost use Rattle.std.specs.Prelude.{◌≡◌, ◌≤◌, ◌∷◌, Some, Ok, true, false, length, drop, IfSome};
ghost use Rattle.std.specs.Option.{option_map};
ghost use Rattle.std.specs.List.{prefix_len};
ghost use Rattle.study_games.specs.Bytes.{is_digit, is_tail, is_glyph};
ghost use Rattle.study_games.specs.Tokens.{is_in_line, ends_tag, value_end, behind_value, comment_at, tag_at, lexed_token, token_seen, lexed_seen};
ghost use Rattle.study_games.specs.Tokens.{lexed_value, lexed_quotation, lexed_name, run_of, ink_of, begins_ellipsis, behind_ellipsis, begins_number, symbol_at, ink_at};
ghost use Rattle.study_games.specs.Spaces.{space_len};
ghost use Rattle.study_games.specs.Tokens.{token_at, begins_feed, blank, aside, sign, rest};

use crate::bytes::{begins_symbol, is_blank, is_digit, is_glyph, is_letter, is_sign};
use crate::runs::{Run, cut_run};
use crate::spaces::{begins_space, ink_len, space_len};
use thiserror::Error;

/// A token of a PGN text. Texts are parts of it.
#[derive(Clone, Copy, Debug)]
pub enum Token<'t> {
    /// Blanks, a space outside of ASCII, a dot, `…`, or an escape line.
    Blank,
    /// A NAG or a glyph as `!?`.
    Aside,
    Open,
    Close,
    Star,
    /// A tag's name, and its value with its backslashes.
    Tag(&'t [u8], &'t [u8]),
    Comment(&'t [u8]),
    /// A comment to the end of the line.
    Rest(&'t [u8]),
    Sign(&'t [u8]),
    Symbol(&'t [u8]),
}

/// A token, and the rest of the text.
#[derive(Clone, Copy, Debug)]
pub struct Cut<'t> {
    pub token: Token<'t>,
    pub rest: &'t [u8],
}

/// Why no token begins here.
#[derive(Clone, Copy, Debug, PartialEq, Eq, Error)]
pub enum TokenFault {
    #[error("a comment is not closed")]
    OpenComment,
    #[error("this is no tag pair")]
    TagForm,
    #[error("the value of a tag is not closed in its line")]
    OpenString,
    #[error("no token begins with this byte")]
    Byte,
}

fn cut_of<'t>(token: Token<'t>, rest: &'t [u8]) -> Result<Cut<'t>, TokenFault>
    ensures { lexed_seen result ≡ Ok (token_seen token.entry, rest.now) }
{
    Ok(Cut { token, rest })
}

/// Whether `]` follows, after spaces and tabs.
#[tactic(auto, unfolding(crate::specs::Tokens::ends_tag))]
fn ends_tag(text: &[u8]) -> bool
    ensures { result ≡ ends_tag text.now }
{
    let (_, behind) = cut_run(Run::Gap, text);
    matches!(behind, [b']', ..])
}

/// The length of a tag's value, after its first quotation mark: up to the first mark in this line that no backslash escapes and after which the tag
/// ends.
///
/// Scid writes the marks inside a value as they are.
fn value_len(text: &[u8]) -> Option<usize>
    ensures value { result ≡ value_end 0 false text.now }
    ensures within { IfSome result (λ n. n ≤ length text.now) }
{
    let mut escaped = false;
    let mut n = 0;
    let mut rest = text;
    while let [b, behind @ ..] = rest {
        let b = *b;
        if b == b'\n' {
            return None;
        }
        if !escaped && b == b'"' && ends_tag(behind) {
            return Some(n);
        }
        escaped = !escaped && b == b'\\';
        n += 1;
        rest = behind;
    }
    None
}

/// The rest after the quotation mark and the `]` of a value.
#[tactic(auto, unfolding(crate::specs::Tokens::behind_value))]
fn behind_value(text: &[u8]) -> &[u8]
    ensures { result.now ≡ behind_value text.now }
{
    let (_, behind) = match text {
        [_, rest @ ..] => cut_run(Run::Gap, rest),
        [] => (text, text),
    };
    match behind {
        [_, rest @ ..] => rest,
        [] => behind,
    }
}

/// The value of a tag, and the rest after the tag.
fn read_value<'t>(name: &'t [u8], text: &'t [u8]) -> Result<Cut<'t>, TokenFault>
    ensures { lexed_seen result ≡ lexed_value name.now text.now (value_end 0 false text.now) }
{
    match value_len(text) {
        None => Err(TokenFault::OpenString),
        Some(n) => {
            let (value, behind) = text.split_at(n);
            cut_of(Token::Tag(name, value), behind_value(behind))
        }
    }
}

fn read_quoted<'t>(name: &'t [u8], text: &'t [u8]) -> Result<Cut<'t>, TokenFault>
    ensures { lexed_seen result ≡ lexed_quotation name.now text.now }
{
    match text {
        [b'"', rest @ ..] => read_value(name, rest),
        _ => Err(TokenFault::TagForm),
    }
}

/// A tag, from its name on.
fn read_named(text: &[u8]) -> Result<Cut<'_>, TokenFault>
    ensures { lexed_seen result ≡ lexed_name text.now }
{
    match text {
        [first, ..] if is_letter(*first) => {
            let (name, behind) = cut_run(Run::Name, text);
            let (_, behind) = cut_run(Run::Gap, behind);
            read_quoted(name, behind)
        }
        _ => Err(TokenFault::TagForm),
    }
}

/// A tag, after its `[`.
#[tactic(auto, unfolding(crate::specs::Tokens::tag_at))]
fn read_tag(text: &[u8]) -> Result<Cut<'_>, TokenFault>
    ensures { lexed_seen result ≡ tag_at text.now }
{
    let (_, behind) = cut_run(Run::Gap, text);
    read_named(behind)
}

/// A comment, after its `{`.
#[tactic(auto, unfolding(crate::specs::Tokens::comment_at))]
fn read_comment(text: &[u8]) -> Result<Cut<'_>, TokenFault>
    ensures { lexed_seen result ≡ comment_at text.now }
{
    let (inside, behind) = cut_run(Run::Comment, text);
    match behind {
        [_, rest @ ..] => cut_of(Token::Comment(inside), rest),
        [] => Err(TokenFault::OpenComment),
    }
}

fn without_line(text: &[u8]) -> &[u8]
    ensures { result.now ≡ drop (prefix_len is_in_line text.now) text.now }
{
    let (_, behind) = cut_run(Run::Line, text);
    behind
}

fn read_rest(text: &[u8]) -> Result<Cut<'_>, TokenFault>
    ensures { lexed_seen result ≡ run_of rest is_in_line text.now }
{
    let (line, behind) = cut_run(Run::Line, text);
    cut_of(Token::Rest(line), behind)
}

/// The rest after a space outside of ASCII.
fn read_space(text: &[u8]) -> Result<Cut<'_>, TokenFault>
    ensures { lexed_seen result ≡ Ok (blank, drop (space_len true text.now) text.now) }
{
    let (_, behind) = text.split_at(space_len(text, true));
    cut_of(Token::Blank, behind)
}

fn read_sign<'t>(text: &'t [u8], first: u8, rest: &[u8]) -> Result<Cut<'t>, TokenFault>
    requires { text.now ≡ first ∷ rest.now }
    ensures { lexed_seen result ≡ ink_of sign is_tail first rest.now }
{
    let (signs, behind) = text.split_at(ink_len(Run::Signs, first, rest) + 1);
    cut_of(Token::Sign(signs), behind)
}

/// Whether the text begins with `…`, the three dots as one character in UTF-8.
pub fn begins_ellipsis(text: &[u8]) -> bool
    ensures { result ≡ begins_ellipsis text.now }
{
    match text {
        [a, b, c, ..] => *a == 0xe2 && *b == 0x80 && *c == 0xa6,
        _ => false,
    }
}

fn read_ellipsis(text: &[u8]) -> Result<Cut<'_>, TokenFault>
    ensures { lexed_seen result ≡ Ok (blank, behind_ellipsis text.now) }
{
    match text {
        [_, _, _, rest @ ..] => cut_of(Token::Blank, rest),
        _ => cut_of(Token::Blank, b""),
    }
}

/// Whether the text begins with digits that have `…` right behind them.
fn begins_number(text: &[u8]) -> bool
    ensures { result ≡ begins_number text.now }
{
    match text {
        [first, ..] if is_digit(*first) => {
            let (_, behind) = cut_run(Run::Digits, text);
            begins_ellipsis(behind)
        }
        _ => false,
    }
}

/// A symbol, or digits before `…`.
fn read_symbol<'t>(text: &'t [u8], first: u8, rest: &[u8]) -> Result<Cut<'t>, TokenFault>
    requires { text.now ≡ first ∷ rest.now }
    ensures { lexed_seen result ≡ symbol_at first rest.now }
{
    if begins_number(text) {
        let (digits, behind) = cut_run(Run::Digits, text);
        return cut_of(Token::Symbol(digits), behind);
    }
    let (bytes, behind) = text.split_at(ink_len(Run::Symbol, first, rest) + 1);
    cut_of(Token::Symbol(bytes), behind)
}

fn read_nag(text: &[u8]) -> Result<Cut<'_>, TokenFault>
    ensures { lexed_seen result ≡ Ok (aside, drop (prefix_len is_digit text.now) text.now) }
{
    let (_, behind) = cut_run(Run::Digits, text);
    cut_of(Token::Aside, behind)
}

fn read_glyphs(text: &[u8]) -> Result<Cut<'_>, TokenFault>
    ensures { lexed_seen result ≡ Ok (aside, drop (prefix_len is_glyph text.now) text.now) }
{
    let (_, behind) = cut_run(Run::Glyphs, text);
    cut_of(Token::Aside, behind)
}

/// Signs, `…`, a space outside of ASCII, or a symbol.
fn read_ink(text: &[u8]) -> Result<Cut<'_>, TokenFault>
    ensures { lexed_seen result ≡ ink_at text.now }
{
    match text {
        [first, rest @ ..] if is_sign(*first) => read_sign(text, *first, rest),
        _ if begins_ellipsis(text) => read_ellipsis(text),
        _ if begins_space(text, true) => read_space(text),
        [first, rest @ ..] if begins_symbol(*first) => read_symbol(text, *first, rest),
        _ => Err(TokenFault::Byte),
    }
}

/// The first token of a text, and the rest; `fresh`: the text begins a line.
pub fn read_token(text: &[u8], fresh: bool) -> Option<Result<Cut<'_>, TokenFault>>
    ensures { option_map lexed_seen result ≡ token_at fresh text.now }
{
    match text {
        [first, rest @ ..] => Some(read_begun(text, *first, rest, fresh)),
        [] => None,
    }
}

/// The token that begins with the byte, before the rest.
#[tactic(auto, unfolding(crate::specs::Tokens::lexed_token))]
fn read_begun<'t>(
    text: &'t [u8],
    first: u8,
    rest: &'t [u8],
    fresh: bool,
) -> Result<Cut<'t>, TokenFault>
    requires { text.now ≡ first ∷ rest.now }
    ensures { lexed_seen result ≡ lexed_token fresh first rest.now }
{
    if fresh && first == b'%' {
        cut_of(Token::Blank, without_line(rest))
    } else if is_blank(first) || first == b'.' {
        cut_of(Token::Blank, rest)
    } else if first == b'{' {
        read_comment(rest)
    } else if first == b';' {
        read_rest(rest)
    } else if first == b'[' {
        read_tag(rest)
    } else if first == b'(' {
        cut_of(Token::Open, rest)
    } else if first == b')' {
        cut_of(Token::Close, rest)
    } else if first == b'*' {
        cut_of(Token::Star, rest)
    } else if first == b'$' {
        read_nag(rest)
    } else if is_glyph(first) {
        read_glyphs(rest)
    } else {
        read_ink(text)
    }
}

/// Whether the text begins with a line feed, so that the rest begins a line.
pub fn begins_feed(text: &[u8]) -> bool
    ensures { result ≡ begins_feed text.now }
{
    matches!(text, [b'\n', ..])
}
