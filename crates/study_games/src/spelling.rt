//! The SAN of a symbol for a move.
ghost use Rattle.std.specs.Prelude.{◌≡◌, ◌≤◌, length, take};
ghost use Rattle.study_games.specs.Symbols.{with_letters, without_tail, without_passing, without_pawn};
ghost use Rattle.study_games.specs.Symbols.{begins_castling, plain_byte, plain_spelling, san_in, claim_of, claim_in};

use crate::bytes::is_tail;
use crate::letters::read_letter;
use arrayvec::ArrayVec;

/// The longest symbol that is read as a move.
pub const LONGEST_SYMBOL: usize = 32;

/// What the signs behind a move claim.
#[derive(Clone, Copy, Debug, PartialEq, Eq)]
pub enum Claim {
    Check,
    Mate,
}

/// Letters in place of figurines, and `-` for dashes.
pub fn with_letters(symbol: &[u8]) -> ArrayVec<u8, 32>
    requires { length symbol.now ≤ 32 }
    ensures { result.items ≡ with_letters symbol.now }
{
    let mut out = ArrayVec::new();
    let mut rest = symbol;
    while let Some((letter, behind)) = read_letter(rest) {
        out.push(letter);
        rest = behind;
    }
    out
}

/// The length of a text without the signs and judgements at its end.
fn len_without_tail(text: &[u8]) -> usize
    ensures value { take result text.now ≡ without_tail text.now }
    ensures within { result ≤ length text.now }
{
    let mut n = text.len();
    while n > 0 && is_tail(text[n - 1]) {
        n -= 1;
    }
    n
}

/// A text without `ep` or `e` at its end.
#[tactic(auto, unfolding(crate::specs::Symbols::without_passing))]
fn strip_passing(text: &[u8]) -> &[u8]
    ensures value { result.now ≡ without_passing text.now }
    ensures within { length result.now ≤ length text.now }
{
    let n = text.len();
    if n >= 2 && text[n - 2] == b'e' && text[n - 1] == b'p' {
        let (front, _) = text.split_at(n - 2);
        front
    } else if n >= 1 && text[n - 1] == b'e' {
        let (front, _) = text.split_at(n - 1);
        front
    } else {
        text
    }
}

/// A text without a `P` in front.
fn strip_pawn(text: &[u8]) -> &[u8]
    ensures value { result.now ≡ without_pawn text.now }
    ensures within { length result.now ≤ length text.now }
{
    match text {
        [b'P', rest @ ..] => rest,
        _ => text,
    }
}

fn begins_castling(text: &[u8]) -> bool
    ensures { result ≡ begins_castling text.now }
{
    matches!(text, [b'O' | b'0', ..])
}

/// A byte of a SAN text: `x` for `:`, `=` for `/`.
fn plain_byte(b: u8) -> u8
    ensures { result ≡ plain_byte b }
{
    if b == b':' {
        b'x'
    } else if b == b'/' {
        b'='
    } else {
        b
    }
}

/// The text with `x` and `=` for its other signs, and without the dashes of long notation.
fn plain_spelling(text: &[u8]) -> ArrayVec<u8, 32>
    requires { length text.now ≤ 32 }
    ensures { result.items ≡ plain_spelling text.now }
{
    let castling = begins_castling(text);
    let mut out = ArrayVec::new();
    let mut rest = text;
    while let [first, more @ ..] = rest {
        if castling || *first != b'-' {
            out.push(plain_byte(*first));
        }
        rest = more;
    }
    out
}

/// The SAN of a symbol for a move.
#[tactic(auto, unfolding(crate::specs::Symbols::san_in))]
pub fn san_in(symbol: &[u8]) -> ArrayVec<u8, 32>
    requires { length symbol.now ≤ 32 }
    ensures { result.items ≡ san_in symbol.now }
{
    let letters = with_letters(symbol);
    let text = letters.as_slice();
    let (front, _) = text.split_at(len_without_tail(text));
    plain_spelling(strip_pawn(strip_passing(front)))
}

fn claim_of(signs: &[u8]) -> Option<Claim>
    ensures { result ≡ claim_of signs.now }
{
    if signs == b"#".as_slice() {
        Some(Claim::Mate)
    } else if signs == b"+".as_slice() || signs == b"++".as_slice() {
        Some(Claim::Check)
    } else {
        None
    }
}

/// What the signs at the end of a symbol claim.
#[tactic(auto, unfolding(crate::specs::Symbols::claim_in))]
pub fn claim_in(symbol: &[u8]) -> Option<Claim>
    ensures { result ≡ claim_in symbol.now }
{
    if symbol.len() > LONGEST_SYMBOL {
        return None;
    }
    let letters = with_letters(symbol);
    let text = letters.as_slice();
    let (_, signs) = text.split_at(len_without_tail(text));
    claim_of(signs)
}
