//! Writing a FEN text.
ghost use Rattle.std.specs.Prelude.{◌≡◌, ◌<◌, ◌≤◌, ◌+◌, ◌*◌, ◌++◌, ◌∷◌, [], length, decimal};
ghost use Rattle.arrayvec.specs.ArrayString.{array_string_len};
ghost use Rattle.study_notation.specs.FenSpelling.{man_letter, piece_on, run, rank_field, placement_text, side_text, passed_text, fen_text};

use crate::Start;
use crate::placement::Piece;
use crate::push_text::{push_byte, push_square};
use arrayvec::ArrayString;
use itoa::Buffer;
use study_board::{Kind, Man, Side, Square};

/// The letter of a man.
fn letter_of(piece: Piece) -> u8
    ensures value { result ≡ man_letter piece.side piece.kind }
    ensures ascii { result < 128 }
{
    match (piece.side, piece.kind) {
        (Side::White, Kind::King) => b'K',
        (Side::White, Kind::Queen) => b'Q',
        (Side::White, Kind::Rook) => b'R',
        (Side::White, Kind::Bishop) => b'B',
        (Side::White, Kind::Knight) => b'N',
        (Side::White, Kind::Pawn) => b'P',
        (Side::Black, Kind::King) => b'k',
        (Side::Black, Kind::Queen) => b'q',
        (Side::Black, Kind::Rook) => b'r',
        (Side::Black, Kind::Bishop) => b'b',
        (Side::Black, Kind::Knight) => b'n',
        (Side::Black, Kind::Pawn) => b'p',
    }
}

/// The man on a square, if any, without its square.
fn find_piece(men: &[Man], at: u8) -> Option<Piece>
    ensures { result ≡ piece_on men.now at }
{
    for man in men {
        if man.at.number() == at {
            return Some(Piece {
                side: man.side,
                kind: man.kind,
            });
        }
    }
    None
}

/// One digit for a run of empty squares.
fn push_run<const N: usize>(out: &mut ArrayString<N>, n: u8)
    requires small { n ≤ 8 }
    requires room { array_string_len out.old + length (run n) ≤ N }
    ensures { out.new.bytes ≡ out.old.bytes ++ run n }
{
    if n > 0 {
        push_byte(out, b'0' + n);
    }
}

/// The squares of a rank.
fn write_rank<const N: usize>(out: &mut ArrayString<N>, men: &[Man], rank: u8)
    requires low { rank < 8 }
    requires room { array_string_len out.old + length (rank_field men.now rank) ≤ N }
    ensures { out.new.bytes ≡ out.old.bytes ++ rank_field men.now rank }
{
    let mut empty = 0u8;
    for file in 0..8u8 {
        match find_piece(men, 8 * rank + file) {
            None => empty += 1,
            Some(piece) => {
                push_run(out, empty);
                push_byte(out, letter_of(piece));
                empty = 0;
            }
        }
    }
    push_run(out, empty);
}

/// Adds a number in decimal digits.
pub fn push_number<const N: usize>(out: &mut ArrayString<N>, n: u16)
    requires { array_string_len out.old + 5 ≤ N }
    ensures bytes { out.new.bytes ≡ out.old.bytes ++ decimal n }
    ensures len { array_string_len out.new ≤ array_string_len out.old + 5 }
{
    let mut buffer = Buffer::new();
    out.push_str(buffer.format(n));
}

/// Adds the passed square, or `-`.
pub fn push_passed<const N: usize>(out: &mut ArrayString<N>, passed: Option<Square>)
    requires room { array_string_len out.old + 2 ≤ N }
    ensures bytes { out.new.bytes ≡ out.old.bytes ++ passed_text passed }
    ensures len { array_string_len out.new ≤ array_string_len out.old + 2 }
{
    match passed {
        None => push_byte(out, b'-'),
        Some(at) => push_square(out, at),
    }
}

/// The ranks, the eighth first, separated by strokes.
pub fn write_placement<const N: usize>(out: &mut ArrayString<N>, men: &[Man])
    requires room { length (placement_text men.now) ≤ N }
    requires empty { out.old.bytes ≡ [] }
    ensures bytes { out.new.bytes ≡ placement_text men.now }
    ensures len { array_string_len out.new ≡ length (placement_text men.now) }
{
    write_rank(out, men, 7);
    for down in 1..8u8 {
        push_byte(out, b'/');
        write_rank(out, men, 7 - down);
    }
}

/// The letter of the side to move.
pub fn side_letter(side: Side) -> u8
    ensures value { result ∷ [] ≡ side_text side }
    ensures ascii { result < 128 }
{
    match side {
        Side::White => b'w',
        Side::Black => b'b',
    }
}

/// The FEN text of a start.
///
/// Six fields separated by one space, `-` for castling, one digit for each run of empty squares, the passed square whenever the position
/// has one, and numbers without leading zeros.
#[tactic(auto, unfolding(crate::specs::FenSpelling::fen_text), using(crate::proofs::RowText::placement_is_short))]
pub fn write_fen(start: &Start) -> ArrayString<64>
    ensures { result.bytes ≡ fen_text start.now }
{
    let mut out = ArrayString::new();
    write_placement(&mut out, start.position.men());
    push_byte(&mut out, b' ');
    push_byte(&mut out, side_letter(start.position.to_move()));
    push_byte(&mut out, b' ');
    push_byte(&mut out, b'-');
    push_byte(&mut out, b' ');
    push_passed(&mut out, start.position.passed());
    push_byte(&mut out, b' ');
    push_number(&mut out, start.clock);
    push_byte(&mut out, b' ');
    push_number(&mut out, start.number);
    out
}
