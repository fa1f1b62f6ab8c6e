//! The first field of a FEN text.
ghost use Rattle.std.specs.Prelude.{◌≡◌, true, ◌<◌, ◌≤◌, ◌+◌, ◌++◌, ◌∷◌, [], length, IsTrue, IfSome, IfNone};
ghost use Rattle.std.specs.Option.{option_map};
ghost use Rattle.arrayvec.specs.ArrayVec.{array_vec_len};
ghost use Rattle.study_notation.specs.Fen.{piece_of, parts_of, is_run, is_placement_byte, is_rank, squares, squares_of, men_from, placement};

use arrayvec::ArrayVec;
use study_board::{Kind, Man, Side, Square};

/// A man without its square.
#[derive(Clone, Copy)]
pub struct Piece {
    pub side: Side,
    pub kind: Kind,
}

/// The man that a letter stands for.
fn piece_of(b: u8) -> Option<Piece>
    ensures { result ≡ piece_of b }
{
    let (side, kind) = match b {
        b'K' => (Side::White, Kind::King),
        b'Q' => (Side::White, Kind::Queen),
        b'R' => (Side::White, Kind::Rook),
        b'B' => (Side::White, Kind::Bishop),
        b'N' => (Side::White, Kind::Knight),
        b'P' => (Side::White, Kind::Pawn),
        b'k' => (Side::Black, Kind::King),
        b'q' => (Side::Black, Kind::Queen),
        b'r' => (Side::Black, Kind::Rook),
        b'b' => (Side::Black, Kind::Bishop),
        b'n' => (Side::Black, Kind::Knight),
        b'p' => (Side::Black, Kind::Pawn),
        _ => return None,
    };
    Some(Piece { side, kind })
}

/// Whether the byte is a digit from 1 to 8.
fn is_run(b: u8) -> bool
    ensures { result ≡ is_run b }
{
    b >= b'1' && b <= b'8'
}

/// Adds the squares of one byte, and returns the next file; `None` if the byte is not valid here.
#[tactic(auto, unfolding(crate::specs::Fen::squares_of))]
fn read_square(men: &mut ArrayVec<Man, 64>, b: u8, first: u8, file: u8) -> Option<u8>
    requires low { first ≤ 56 }
    requires inside { file ≤ 8 }
    requires room { array_vec_len men.old ≤ first + file }
    ensures known { IfSome result (λ _. is_placement_byte b ≡ true) }
    ensures next { IfSome result (λ next. (next ≡ file + length (squares_of b)) × (next ≤ 8)) }
    ensures added { IfSome result (λ _.
        men.new.items ≡ men.old.items ++ men_from (first + file) (squares_of b)) }
    ensures none { IfNone result ((is_placement_byte b ≡ true) → 8 < file + length (squares_of b)) }
{
    if is_run(b) {
        let next = file + (b - b'0');
        if next > 8 {
            return None;
        }
        return Some(next);
    }
    let piece = piece_of(b)?;
    if file >= 8 {
        return None;
    }
    men.push(Man {
        side: piece.side,
        kind: piece.kind,
        at: Square::at(first + file),
    });
    Some(file + 1)
}

/// Adds the men of one part, the first of whose squares has the number `first`.
fn read_rank(men: &mut ArrayVec<Man, 64>, part: &[u8], first: u8) -> bool
    requires low { first ≤ 56 }
    requires room { array_vec_len men.old ≤ first }
    ensures tells { result ≡ is_rank part.now }
    ensures added { IsTrue result
        → men.new.items ≡ men.old.items ++ men_from first (squares part.now) }
    ensures room { IsTrue result → array_vec_len men.new ≤ first + 8 }
{
    let mut file = 0u8;
    for b in part {
        let Some(next) = read_square(men, *b, first, file) else {
            return false;
        };
        file = next;
    }
    file == 8
}

/// The text before the last stroke, and the text after it.
fn cut_last(text: &[u8]) -> Option<(&[u8], &[u8])>
    ensures found { IfSome result (λ x. parts_of text.now ≡ parts_of x.0.now ++ x.1.now ∷ []) }
    ensures none { IfNone result (parts_of text.now ≡ text.now ∷ []) }
{
    let mut i = text.len();
    while i > 0 {
        let after = i;
        i -= 1;
        if text[i] == b'/' {
            return Some((&text[..i], &text[after..]));
        }
    }
    None
}

/// The men on ascending squares, if the text is eight ranks of eight squares separated by strokes.
pub fn read_placement(text: &[u8]) -> Option<ArrayVec<Man, 64>>
    ensures { option_map (λ men. men.items) result ≡ placement text.now }
{
    let mut men = ArrayVec::new();
    let mut rest = text;
    for rank in 0..8u8 {
        let Some((front, part)) = cut_last(rest) else {
            if !read_rank(&mut men, rest, 8 * rank) {
                return None;
            }
            return if rank == 7 { Some(men) } else { None };
        };
        if !read_rank(&mut men, part, 8 * rank) {
            return None;
        }
        rest = front;
    }
    None
}
