//! Writing a SAN text.
ghost use Rattle.std.specs.Prelude.{◌≡◌, ◌<◌, ◌≤◌, ◌+◌, ◌++◌, [], true, Some, IfSome};
ghost use Rattle.arrayvec.specs.ArrayString.{array_string_len};
ghost use Rattle.study_moves.specs.Rules.{is_legal};
ghost use Rattle.study_notation.specs.San.{kind_text, file_text, rank_text, takes_text, promotion_text, san_text};
ghost use Rattle.study_moves.specs.LegalList.{is_mate};
ghost use Rattle.study_notation.specs.SanSpelling.{is_rival, has_rival, has_file_rival, gives_file, gives_rank, GivesOne, san_for, check_text, move_text};

use crate::capture_rule::is_capture;
use crate::push_text::{push_byte, push_square};
use crate::san::San;
use arrayvec::ArrayString;
use study_board::{Kind, Man, Position, Square};
use study_moves::{Move, in_check, is_legal, played};

/// The text of a legal move, in the form of the PGN Standard.
///
/// It has only as much of the origin as distinguishes the man from others that can legally go to the square, and the file of a pawn that captures. It
/// ends in `#` for checkmate or `+` for check.
#[tactic(auto, unfolding(crate::specs::SanSpelling::move_text))]
pub fn write_san(p: &Position, m: Move) -> ArrayString<8>
    requires { is_legal p.now m ≡ true }
    ensures { result.bytes ≡ move_text p.now m }
{
    let mut out = ArrayString::new();
    if let Some(man) = p.man_at(m.origin) {
        let san = describe(p, &man, &m);
        push_san(&mut out, &san);
        push_check(&mut out, &played(p, m));
    }
    out
}

fn push_san(out: &mut ArrayString<8>, san: &San)
    requires empty { out.old.bytes ≡ [] }
    requires file { IfSome san.now.file (λ f. f < 8) }
    requires rank { IfSome san.now.rank (λ r. r < 8) }
    requires one { GivesOne san.now.file san.now.rank }
    ensures bytes { out.new.bytes ≡ san_text san.now true }
    ensures len { array_string_len out.new ≤ 7 }
{
    push_kind(out, san.kind);
    push_origin(out, san.file, san.rank);
    push_takes(out, san.is_capture);
    push_square(out, san.target);
    push_promotion(out, san.promoted);
}

/// Adds the letter of a piece; of a pawn, nothing.
pub fn push_kind<const N: usize>(out: &mut ArrayString<N>, kind: Kind)
    requires { array_string_len out.old < N }
    ensures bytes { out.new.bytes ≡ out.old.bytes ++ kind_text kind }
    ensures len { array_string_len out.new ≤ array_string_len out.old + 1 }
{
    match kind {
        Kind::King => push_byte(out, b'K'),
        Kind::Queen => push_byte(out, b'Q'),
        Kind::Rook => push_byte(out, b'R'),
        Kind::Bishop => push_byte(out, b'B'),
        Kind::Knight => push_byte(out, b'N'),
        Kind::Pawn => {}
    }
}

/// The origin's file or rank.
fn push_origin(out: &mut ArrayString<8>, file: Option<u8>, rank: Option<u8>)
    requires room { array_string_len out.old < 8 }
    requires file { IfSome file (λ f. f < 8) }
    requires rank { IfSome rank (λ r. r < 8) }
    requires one { GivesOne file rank }
    ensures bytes { out.new.bytes ≡ (out.old.bytes ++ file_text file) ++ rank_text rank }
    ensures len { array_string_len out.new ≤ array_string_len out.old + 1 }
{
    match (file, rank) {
        (Some(f), _) => push_byte(out, b'a' + f),
        (None, Some(r)) => push_byte(out, b'1' + r),
        (None, None) => {}
    }
}

/// Adds the `x` of a capture.
pub fn push_takes<const N: usize>(out: &mut ArrayString<N>, is_capture: bool)
    requires { array_string_len out.old < N }
    ensures bytes { out.new.bytes ≡ out.old.bytes ++ takes_text is_capture }
    ensures len { array_string_len out.new ≤ array_string_len out.old + 1 }
{
    if is_capture {
        push_byte(out, b'x');
    }
}

/// Adds `=` and the letter of the piece that a pawn becomes.
pub fn push_promotion<const N: usize>(out: &mut ArrayString<N>, promoted: Option<Kind>)
    requires { array_string_len out.old + 2 ≤ N }
    ensures bytes { out.new.bytes ≡ out.old.bytes ++ promotion_text true promoted }
    ensures len { array_string_len out.new ≤ array_string_len out.old + 2 }
{
    if let Some(kind) = promoted {
        push_byte(out, b'=');
        push_kind(out, kind);
    }
}

/// `#` or `+` for the position after the move.
#[tactic(auto, unfolding(crate::specs::SanSpelling::check_text))]
fn push_check(out: &mut ArrayString<8>, next: &Position)
    requires { array_string_len out.old < 8 }
    ensures { out.new.bytes ≡ out.old.bytes ++ check_text next.now }
{
    if is_mate(next) {
        push_byte(out, b'#');
    } else if in_check(next) {
        push_byte(out, b'+');
    }
}

fn is_mate(p: &Position) -> bool
    ensures { result ≡ is_mate p.now }
{
    let _valid = p.men();
    study_moves::is_mate(p)
}

/// The parts that are written for a legal move of this man.
#[tactic(auto, unfolding(crate::specs::SanSpelling::san_for))]
fn describe(p: &Position, man: &Man, m: &Move) -> San
    ensures value { result ≡ san_for p.now man.now m.now }
    ensures file { IfSome result.file (λ f. f < 8) }
    ensures rank { IfSome result.rank (λ r. r < 8) }
    ensures one { GivesOne result.file result.rank }
{
    let x = m.target;
    San {
        kind: man.kind,
        file: if gives_file(p, man, x) {
            Some(man.at.file())
        } else {
            None
        },
        rank: if gives_rank(p, man, x) {
            Some(man.at.rank())
        } else {
            None
        },
        is_capture: is_capture(p, man, x),
        target: x,
        promoted: m.promoted,
    }
}

/// Whether the origin's file is written.
#[tactic(auto, unfolding(crate::specs::SanSpelling::gives_file))]
fn gives_file(p: &Position, man: &Man, x: Square) -> bool
    ensures { result ≡ gives_file p.now man.now x }
{
    if man.kind == Kind::Pawn {
        is_capture(p, man, x)
    } else {
        has_rival(p, man, x) && !has_file_rival(p, man, x)
    }
}

/// Whether the origin's rank is written.
#[tactic(auto, unfolding(crate::specs::SanSpelling::gives_rank))]
fn gives_rank(p: &Position, man: &Man, x: Square) -> bool
    ensures { result ≡ gives_rank p.now man.now x }
{
    man.kind != Kind::Pawn && has_file_rival(p, man, x)
}

#[tactic(auto, unfolding(crate::specs::SanSpelling::has_rival))]
fn has_rival(p: &Position, man: &Man, x: Square) -> bool
    ensures { result ≡ has_rival p.now man.now x }
{
    p.men().iter().any(|o| is_rival(p, man, x, o))
}

#[tactic(auto, unfolding(crate::specs::SanSpelling::has_file_rival))]
fn has_file_rival(p: &Position, man: &Man, x: Square) -> bool
    ensures { result ≡ has_file_rival p.now man.now x }
{
    p.men()
        .iter()
        .any(|o| is_rival(p, man, x, o) && o.at.file() == man.at.file())
}

/// Whether `o` is another man of the same kind and side that can legally go to the square.
#[tactic(auto, unfolding(crate::specs::SanSpelling::is_rival))]
fn is_rival(p: &Position, man: &Man, x: Square, o: &Man) -> bool
    ensures { result ≡ is_rival p.now man.now x o.now }
{
    let step = Move {
        origin: o.at,
        target: x,
        promoted: None,
    };
    o.at != man.at && o.is(man.side, man.kind) && is_legal(p, step)
}
