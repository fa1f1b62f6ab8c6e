//! The meaning of a symbol.
ghost use Rattle.std.specs.Prelude.{◌≡◌};
ghost use Rattle.std.specs.List.{list_all};
ghost use Rattle.study_games.specs.Bytes.{is_digit, is_tail};
ghost use Rattle.study_games.specs.Symbols.{begins_figurine, has_figurine, is_drawn, is_dash, is_null_move, is_passing, is_judgement, is_word, said_of};
ghost use Rattle.study_games.specs.Symbols.{is_move_letter, is_piece_letter, is_word_byte, begins_move};

use crate::bytes;
use crate::letters::{is_figurine, spells};
use crate::spelling::{LONGEST_SYMBOL, with_letters};

/// How a game ends.
#[derive(Clone, Copy, Debug, PartialEq, Eq)]
pub enum Outcome {
    WhiteWins,
    BlackWins,
    Drawn,
}

/// The meaning of a symbol.
#[derive(Clone, Copy, Debug, PartialEq, Eq)]
pub enum Said {
    /// The number of a move, which is not compared.
    Number,
    Result(Outcome),
    NullMove,
    /// `e.p.`, which the move says by itself.
    Passing,
    /// A sign of judgement.
    Aside,
    /// Letters alone with which no move begins.
    Word,
    Move,
}

fn are_digits(text: &[u8]) -> bool
    ensures { result ≡ list_all is_digit text.now }
{
    text.iter().all(|b| bytes::is_digit(*b))
}

fn are_tail(text: &[u8]) -> bool
    ensures { result ≡ list_all is_tail text.now }
{
    text.iter().all(|b| bytes::is_tail(*b))
}

/// Whether the text begins with a figurine.
fn begins_figurine(text: &[u8]) -> bool
    ensures { result ≡ begins_figurine text.now }
{
    match text {
        [a, b, c, ..] => is_figurine(*a, *b, *c),
        _ => false,
    }
}

fn has_figurine(text: &[u8]) -> bool
    ensures { result ≡ has_figurine text.now }
{
    let mut rest = text;
    while let [_, more @ ..] = rest {
        if begins_figurine(rest) {
            return true;
        }
        rest = more;
    }
    false
}

/// `1/2-1/2`, `½-½` with any dash, or half of it.
fn is_drawn(symbol: &[u8]) -> bool
    ensures { result ≡ is_drawn symbol.now }
{
    spells(symbol, b"1/2-1/2")
        || symbol == b"1/2".as_slice()
        || spells(symbol, b"\xc2\xbd-\xc2\xbd")
        || symbol == b"\xc2\xbd".as_slice()
}

/// An en dash or an em dash, in UTF-8.
fn is_dash(symbol: &[u8]) -> bool
    ensures { result ≡ is_dash symbol.now }
{
    symbol == b"\xe2\x80\x93".as_slice() || symbol == b"\xe2\x80\x94".as_slice()
}

fn is_null_move(symbol: &[u8]) -> bool
    ensures { result ≡ is_null_move symbol.now }
{
    symbol == b"Z0".as_slice()
        || symbol == b"null".as_slice()
        || symbol == b"pass".as_slice()
        || is_dash(symbol)
}

/// `e.p.`, without its dots.
fn is_passing(symbol: &[u8]) -> bool
    ensures { result ≡ is_passing symbol.now }
{
    symbol == b"e".as_slice() || symbol == b"p".as_slice() || symbol == b"ep".as_slice()
}

/// A sign of judgement, as `±` or `–+`.
fn is_judgement(symbol: &[u8]) -> bool
    ensures { result ≡ is_judgement symbol.now }
{
    are_tail(symbol) && !has_figurine(symbol)
}

/// A letter of a file, `x` or the `O` of castling.
fn is_move_letter(b: u8) -> bool
    ensures { result ≡ is_move_letter b }
{
    (b'a' <= b && b <= b'h') || b == b'x' || b == b'O'
}

fn is_piece_letter(b: u8) -> bool
    ensures { result ≡ is_piece_letter b }
{
    b == b'K' || b == b'Q' || b == b'R' || b == b'B' || b == b'N' || b == b'P'
}

fn is_word_byte(b: u8) -> bool
    ensures { result ≡ is_word_byte b }
{
    bytes::is_letter(b) || bytes::is_high(b)
}

fn are_move_letters(text: &[u8]) -> bool
    ensures { result ≡ list_all is_move_letter text.now }
{
    text.iter().all(|b| is_move_letter(*b))
}

fn are_word_bytes(text: &[u8]) -> bool
    ensures { result ≡ list_all is_word_byte text.now }
{
    text.iter().all(|b| is_word_byte(*b))
}

/// Letters alone as a move begins with them: `K`, `Nb`, `dx`.
fn begins_move(text: &[u8]) -> bool
    ensures { result ≡ begins_move text.now }
{
    match text {
        [first, rest @ ..] => {
            (is_piece_letter(*first) || is_move_letter(*first)) && are_move_letters(rest)
        }
        [] => false,
    }
}

/// A word, such as `wins`.
#[tactic(auto, unfolding(crate::specs::Symbols::is_word))]
fn is_word(symbol: &[u8]) -> bool
    ensures { result ≡ is_word symbol.now }
{
    if symbol.len() > LONGEST_SYMBOL {
        return false;
    }
    let letters = with_letters(symbol);
    let text = letters.as_slice();
    are_word_bytes(text) && !begins_move(text)
}

/// The meaning of the symbol.
#[tactic(auto, unfolding(crate::specs::Symbols::said_of))]
pub fn say(symbol: &[u8]) -> Said
    ensures { result ≡ said_of symbol.now }
{
    if are_digits(symbol) {
        Said::Number
    } else if spells(symbol, b"1-0") {
        Said::Result(Outcome::WhiteWins)
    } else if spells(symbol, b"0-1") {
        Said::Result(Outcome::BlackWins)
    } else if is_drawn(symbol) {
        Said::Result(Outcome::Drawn)
    } else if is_null_move(symbol) {
        Said::NullMove
    } else if is_passing(symbol) {
        Said::Passing
    } else if is_judgement(symbol) {
        Said::Aside
    } else if is_word(symbol) {
        Said::Word
    } else {
        Said::Move
    }
}
