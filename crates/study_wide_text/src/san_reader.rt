//! Reading a SAN text.
ghost use Rattle.std.specs.Prelude.{◌≡◌, ◌&&◌, true, None, Some, filter, IfOk};
ghost use Rattle.study_board.specs.Position.{man_at};
ghost use Rattle.study_moves.specs.LegalList.{legal_list};
ghost use Rattle.study_moves.specs.Rules.{is_legal};
ghost use Rattle.study_notation.specs.Matching.{agrees, matches, only_match, move_of};
ghost use Rattle.study_wide.specs.Rules.{is_wide_legal};
ghost use Rattle.study_wide_text.specs.Matching.{is_long, wing_behind, wing_spelled_with, castling_wing, wide_move_of};
ghost use Rattle.study_wide_text.specs.Candidates.{move_to};

use crate::capture_rule::is_capture;
use study_board::{Kind, Man};
use study_moves::Move;
use study_notation::{San, SanFault, fits_given, fits_takes, is_ending, parse_san};
use study_wide::{WidePosition, Wing, can_castle, castling_move, is_plain_move};

/// The legal move that the text means, or why there is none.
///
/// The text is a move of the PGN Standard: castling, with letters or with digits, or kind, origin's file, origin's rank, `x`, target, promotion with `=` or
/// without; then `+` or `#`, and at most two of `!` and `?`. Only a pawn's capture must have its `x`, and check and checkmate are not compared. `Kg1` is no
/// castling. `CastlingLeftOut` never comes.
#[tactic(auto, unfolding(crate::specs::Matching::wide_move_of))]
pub fn read_wide_san(p: &WidePosition, text: &str) -> Result<Move, SanFault>
    ensures value { result ≡ wide_move_of p.now text.now }
    ensures legal { IfOk result (λ m. is_wide_legal p.now m ≡ true) }
{
    let bytes = text.as_bytes();
    match castling_wing(bytes) {
        Some(wing) => {
            if can_castle(p, wing) {
                Ok(castling_move(p.to_move(), wing))
            } else {
                Err(SanFault::NoSuchMove)
            }
        }
        None => read_move(p, bytes),
    }
}

/// The wing of a text of castling with this letter or digit.
fn wing_spelled_with(o: u8, text: &[u8]) -> Option<Wing>
    ensures { result ≡ wing_spelled_with o text.now }
{
    match text {
        [a, b, c, rest @ ..] => {
            if *a == o && *b == b'-' && *c == o {
                wing_behind(o, rest)
            } else {
                None
            }
        }
        _ => None,
    }
}

/// The wing of a text of castling that goes on so behind its first three bytes.
#[tactic(auto, unfolding(crate::specs::Matching::wing_behind))]
fn wing_behind(o: u8, rest: &[u8]) -> Option<Wing>
    ensures { result ≡ wing_behind o rest.now }
{
    if is_long(o, rest) {
        Some(Wing::Long)
    } else if is_ending(rest) {
        Some(Wing::Short)
    } else {
        None
    }
}

/// Whether it goes on with one more castle, and an ending.
fn is_long(o: u8, rest: &[u8]) -> bool
    ensures { result ≡ is_long o rest.now }
{
    match rest {
        [d, e, ending @ ..] => *d == b'-' && *e == o && is_ending(ending),
        _ => false,
    }
}

/// The wing of a text of castling, with letters or with digits.
#[tactic(auto, unfolding(crate::specs::Matching::castling_wing))]
fn castling_wing(text: &[u8]) -> Option<Wing>
    ensures { result ≡ castling_wing text.now }
{
    match wing_spelled_with(b'O', text) {
        Some(wing) => Some(wing),
        None => wing_spelled_with(b'0', text),
    }
}

/// The legal move of one man that the text means.
#[tactic(auto, unfolding(study_notation::specs::Matching::move_of))]
fn read_move(p: &WidePosition, text: &[u8]) -> Result<Move, SanFault>
    requires { castling_wing text.now ≡ None }
    ensures { result ≡ move_of p.now.board text.now }
{
    match parse_san(text) {
        Some(san) => find_move(p, &san),
        None => Err(SanFault::NotSan),
    }
}

/// The one legal move that agrees with the parts; each man has at most one.
fn find_move(p: &WidePosition, san: &San) -> Result<Move, SanFault>
    ensures { result
        ≡ only_match (filter (matches p.now.board san.now) (legal_list p.now.board)) }
{
    let _target = san.target.number();
    let men = p.men();
    let mut found = None;
    for man in men {
        let m = move_spelled(san, man);
        if is_meant(p, san, man, &m) {
            if found.is_some() {
                return Err(SanFault::Ambiguous);
            }
            found = Some(m);
        }
    }
    found.ok_or(SanFault::NoSuchMove)
}

/// The move of the man to the target of the parts, with their promotion.
fn move_spelled(san: &San, man: &Man) -> Move
    ensures { result ≡ move_to san.now.target san.now.promoted man.now }
{
    Move {
        origin: man.at,
        target: san.target,
        promoted: san.promoted,
    }
}

/// Whether the man's move is legal and agrees with the parts.
#[tactic(auto, unfolding(study_notation::specs::Matching::matches))]
fn is_meant(p: &WidePosition, san: &San, man: &Man, m: &Move) -> bool
    requires here { man_at p.now.board.men man.now.at ≡ Some man.now }
    requires origin { m.now.origin ≡ man.now.at }
    ensures { result ≡ (is_legal p.now.board m.now && matches p.now.board san.now m.now) }
{
    agrees(p, san, man, m) && is_plain_move(p, m)
}

/// Whether the parts agree with a legal move of this man.
#[tactic(auto, unfolding(study_notation::specs::Matching::agrees))]
fn agrees(p: &WidePosition, san: &San, man: &Man, m: &Move) -> bool
    ensures { result ≡ agrees p.now.board san.now man.now m.now }
{
    man.kind == san.kind
        && m.target == san.target
        && fits_given(san.file, m.origin.file())
        && fits_given(san.rank, m.origin.rank())
        && san.promoted == m.promoted
        && fits_takes(
            san.is_capture,
            is_capture(p, man, m.target),
            man.kind == Kind::Pawn,
        )
}
