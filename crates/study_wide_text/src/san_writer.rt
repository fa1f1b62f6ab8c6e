//! Writing a SAN text.
ghost use Rattle.std.specs.Prelude.{◌≡◌, ◌<◌, ◌≤◌, ◌+◌, ◌++◌, ◌==◌, ◌&&◌, ◌||◌, not, [], true, Some, IfSome, if◌then◌else◌};
ghost use Rattle.arrayvec.specs.ArrayString.{array_string_len};
ghost use Rattle.study_notation.specs.San.{file_text, rank_text, san_text};
ghost use Rattle.study_board.specs.Geometry.{file_of, rank_of};
ghost use Rattle.study_notation.specs.SanSpelling.{is_rival, has_rival, has_file_rival};
ghost use Rattle.study_wide.specs.Rules.{is_wide_legal, wing_of};
ghost use Rattle.study_wide_text.specs.SanSpelling.{has_rank_rival, wide_san_for, castling_san};
ghost use Rattle.study_wide_text.specs.SanSpelling.{wide_check_text, move_parts_text, wide_move_text};

use crate::capture_rule::is_capture;
use arrayvec::ArrayString;
use study_board::{Kind, Man, Square};
use study_moves::Move;
use study_notation::{San, push_byte, push_kind, push_promotion, push_square, push_takes};
use study_wide::{WidePosition, Wing, in_check, is_mate, is_plain_move, played, wing_of};

/// The text of a legal move, in the form of the PGN Standard: at most seven bytes.
///
/// It is `O-O` or `O-O-O` for castling. Else it has only as much of the origin as distinguishes the man from others that can legally go to the square, the
/// file before the rank, and the file of a pawn that captures. It ends in `#` for checkmate or `+` for check.
#[tactic(auto, unfolding(crate::specs::SanSpelling::wide_move_text))]
pub fn write_wide_san(p: &WidePosition, m: Move) -> ArrayString<16>
    requires { is_wide_legal p.now m ≡ true }
    ensures { result.bytes ≡ wide_move_text p.now m }
{
    let mut out = ArrayString::new();
    push_move(&mut out, p, &m);
    push_check(&mut out, &played(p, m));
    out
}

/// Castling, or the parts of a man's move.
fn push_move(out: &mut ArrayString<16>, p: &WidePosition, m: &Move)
    requires { out.old.bytes ≡ [] }
    ensures bytes { out.new.bytes ≡ move_parts_text p.now m.now (wing_of p.now m.now) }
    ensures len { array_string_len out.new ≤ 8 }
{
    match wing_of(p, m) {
        Some(wing) => push_castling(out, wing),
        None => {
            if let Some(man) = p.man_at(m.origin) {
                push_san(out, &describe(p, &man, m));
            }
        }
    }
}

fn push_castling(out: &mut ArrayString<16>, wing: Wing)
    requires { out.old.bytes ≡ [] }
    ensures bytes { out.new.bytes ≡ castling_san wing }
    ensures len { array_string_len out.new ≤ 8 }
{
    match wing {
        Wing::Short => out.push_str("O-O"),
        Wing::Long => out.push_str("O-O-O"),
    }
}

fn push_san(out: &mut ArrayString<16>, san: &San)
    requires empty { out.old.bytes ≡ [] }
    requires file { IfSome san.now.file (λ f. f < 8) }
    requires rank { IfSome san.now.rank (λ r. r < 8) }
    ensures bytes { out.new.bytes ≡ san_text san.now true }
    ensures len { array_string_len out.new ≤ 8 }
{
    push_kind(out, san.kind);
    push_origin(out, san.file, san.rank);
    push_takes(out, san.is_capture);
    push_square(out, san.target);
    push_promotion(out, san.promoted);
}

/// The origin's file, its rank, both or neither.
fn push_origin(out: &mut ArrayString<16>, file: Option<u8>, rank: Option<u8>)
    requires room { array_string_len out.old + 2 ≤ 16 }
    requires file { IfSome file (λ f. f < 8) }
    requires rank { IfSome rank (λ r. r < 8) }
    ensures bytes { out.new.bytes ≡ (out.old.bytes ++ file_text file) ++ rank_text rank }
    ensures len { array_string_len out.new ≤ array_string_len out.old + 2 }
{
    if let Some(f) = file {
        push_byte(out, b'a' + f);
    }
    if let Some(r) = rank {
        push_byte(out, b'1' + r);
    }
}

/// `#` or `+` for the position after the move.
#[tactic(auto, unfolding(crate::specs::SanSpelling::wide_check_text))]
fn push_check(out: &mut ArrayString<16>, next: &WidePosition)
    requires { array_string_len out.old < 16 }
    ensures { out.new.bytes ≡ out.old.bytes ++ wide_check_text next.now }
{
    if is_mate(next) {
        push_byte(out, b'#');
    } else if in_check(next) {
        push_byte(out, b'+');
    }
}

/// The parts that are written for a legal move of this man.
#[tactic(auto, unfolding(crate::specs::SanSpelling::wide_san_for, crate::specs::SanSpelling::gives_wide_file, study_notation::specs::SanSpelling::gives_rank))]
fn describe(p: &WidePosition, man: &Man, m: &Move) -> San
    ensures value { result ≡ wide_san_for p.now.board man.now m.now }
    ensures file { IfSome result.file (λ f. f < 8) }
    ensures rank { IfSome result.rank (λ r. r < 8) }
{
    let x = m.target;
    let rivals = rivals_of(p, man, x);
    let is_capture = is_capture(p, man, x);
    let is_pawn = man.kind == Kind::Pawn;
    San {
        kind: man.kind,
        file: if gives_file(is_pawn, is_capture, &rivals) {
            Some(man.at.file())
        } else {
            None
        },
        rank: if !is_pawn && rivals.on_file {
            Some(man.at.rank())
        } else {
            None
        },
        is_capture,
        target: x,
        promoted: m.promoted,
    }
}

/// Whether the origin's file is written.
fn gives_file(is_pawn: bool, is_capture: bool, rivals: &Rivals) -> bool
    ensures { result ≡ (if is_pawn then is_capture
        else (rivals.now.any && (not rivals.now.on_file || rivals.now.on_rank))) }
{
    if is_pawn {
        is_capture
    } else {
        rivals.any && (!rivals.on_file || rivals.on_rank)
    }
}

/// Whether other men of the same kind and side can legally go to a square: any, one on the man's file, one on its rank.
#[derive(Clone, Copy)]
struct Rivals {
    any: bool,
    on_file: bool,
    on_rank: bool,
}

/// The rivals of a man at a square.
fn rivals_of(p: &WidePosition, man: &Man, x: Square) -> Rivals
    ensures any { result.any ≡ has_rival p.now.board man.now x }
    ensures on_file { result.on_file ≡ has_file_rival p.now.board man.now x }
    ensures on_rank { result.on_rank ≡ has_rank_rival p.now.board man.now x }
{
    let men = p.men();
    let mut found = Rivals {
        any: false,
        on_file: false,
        on_rank: false,
    };
    for o in men {
        found = with_man(found, man, o, is_rival(p, man, x, o));
    }
    found
}

/// The rivals with one more man, if it is one.
fn with_man(found: Rivals, man: &Man, o: &Man, is: bool) -> Rivals
    ensures any { result.any ≡ (found.any || is) }
    ensures on_file { result.on_file ≡ (found.on_file || (is && file_of o.now.at == file_of man.now.at)) }
    ensures on_rank { result.on_rank ≡ (found.on_rank || (is && rank_of o.now.at == rank_of man.now.at)) }
{
    Rivals {
        any: found.any || is,
        on_file: found.on_file || (is && o.at.file() == man.at.file()),
        on_rank: found.on_rank || (is && o.at.rank() == man.at.rank()),
    }
}

/// Whether `o` is another man of the same kind and side that can legally go to the square.
#[tactic(auto, unfolding(study_notation::specs::SanSpelling::is_rival))]
fn is_rival(p: &WidePosition, man: &Man, x: Square, o: &Man) -> bool
    ensures { result ≡ is_rival p.now.board man.now x o.now }
{
    let step = Move {
        origin: o.at,
        target: x,
        promoted: None,
    };
    o.at != man.at && o.is(man.side, man.kind) && is_plain_move(p, &step)
}
