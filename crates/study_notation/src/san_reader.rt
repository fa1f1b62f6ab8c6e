//! Reading a SAN text.
ghost use Rattle.std.specs.Prelude.{◌≡◌, true, filter, IfOk};
ghost use Rattle.study_moves.specs.Rules.{is_legal};
ghost use Rattle.study_notation.specs.SanParts.{is_castling, is_castling_with};
ghost use Rattle.study_notation.specs.Matching.{fits_given, fits_takes, agrees, matches, only_match, move_of};

use crate::SanFault;
use crate::capture_rule::is_capture;
use crate::san::San;
use crate::san_parser::parse_san;
use crate::san_parts::is_ending;
use study_board::{Kind, Man, Position};
use study_moves::{Move, legal_moves};

/// The legal move that the text means, or why there is none.
///
/// The text is a move of the PGN Standard: kind, origin's file, origin's rank, `x`, target, promotion with `=` or without, `+` or `#`, and at most two of `!`
/// and `?`. Only a pawn's capture must have its `x`, and check and checkmate are not compared.
#[tactic(auto, unfolding(crate::specs::Matching::move_of))]
pub fn read_san(p: &Position, text: &str) -> Result<Move, SanFault>
    ensures value { result ≡ move_of p.now text.now }
    ensures legal { IfOk result (λ m. is_legal p.now m ≡ true) }
{
    let bytes = text.as_bytes();
    match parse_san(bytes) {
        Some(san) => {
            let moves = legal_moves(p);
            find_move(p, moves.as_slice(), &san)
        }
        None => Err(if is_castling(bytes) {
            SanFault::CastlingLeftOut
        } else {
            SanFault::NotSan
        }),
    }
}

/// The one move of the list that agrees with the parts.
fn find_move(p: &Position, moves: &[Move], san: &San) -> Result<Move, SanFault>
    ensures { result ≡ only_match (filter (matches p.now san.now) moves.now) }
{
    let mut found = None;
    for m in moves {
        if matches(p, san, m) {
            if found.is_some() {
                return Err(SanFault::Ambiguous);
            }
            found = Some(*m);
        }
    }
    found.ok_or(SanFault::NoSuchMove)
}

/// Whether the parts agree with a legal move.
#[tactic(auto, unfolding(crate::specs::Matching::matches))]
fn matches(p: &Position, san: &San, m: &Move) -> bool
    ensures { result ≡ matches p.now san.now m.now }
{
    match p.man_at(m.origin) {
        None => false,
        Some(man) => agrees(p, san, &man, m),
    }
}

/// Whether the parts agree with a legal move of this man.
#[tactic(auto, unfolding(crate::specs::Matching::agrees))]
fn agrees(p: &Position, san: &San, man: &Man, m: &Move) -> bool
    ensures { result ≡ agrees p.now san.now man.now m.now }
{
    man.kind == san.kind
        && m.target == san.target
        && fits_given(san.file, m.origin.file())
        && fits_given(san.rank, m.origin.rank())
        && san.promoted == m.promoted
        && fits_takes(
            san.is_capture,
            is_capture(p, man, m.target),
            man.kind == Kind::Pawn,
        )
}

/// Whether a file or rank, if it is written, is this one.
pub fn fits_given(given: Option<u8>, n: u8) -> bool
    ensures { result ≡ fits_given given n }
{
    match given {
        None => true,
        Some(g) => g == n,
    }
}

/// Whether an `x`, written or not, agrees with a move.
pub fn fits_takes(written: bool, capture: bool, pawn: bool) -> bool
    ensures { result ≡ fits_takes written capture pawn }
{
    if capture { written || !pawn } else { !written }
}

fn is_castling_with(o: u8, text: &[u8]) -> bool
    ensures { result ≡ is_castling_with o text.now }
{
    match text {
        [a, b, c, d, e, rest @ ..] => {
            (*a == o && *b == b'-' && *c == o)
                && ((*d == b'-' && *e == o && is_ending(rest)) || is_ending(&text[3..]))
        }
        [a, b, c, rest @ ..] => (*a == o && *b == b'-' && *c == o) && is_ending(rest),
        _ => false,
    }
}

/// Whether the text is castling, to either side, with letters or with digits.
fn is_castling(text: &[u8]) -> bool
    ensures { result ≡ is_castling text.now }
{
    is_castling_with(b'O', text) || is_castling_with(b'0', text)
}
