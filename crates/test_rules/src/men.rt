//! Men and positions in the tests' notation.
use crate::rows::field;
use arrayvec::ArrayVec;
use std::process::Abort;
use study_board::{Kind, Man, Position, PositionFault, Side, Square};

/// The kind of man for a FEN letter.
fn kind(letter: u8) -> Option<Kind> {
    match letter {
        b'K' | b'k' => Some(Kind::King),
        b'Q' | b'q' => Some(Kind::Queen),
        b'R' | b'r' => Some(Kind::Rook),
        b'B' | b'b' => Some(Kind::Bishop),
        b'N' | b'n' => Some(Kind::Knight),
        b'P' | b'p' => Some(Kind::Pawn),
        _ => None,
    }
}

/// The man for a FEN letter, on a square.
pub(crate) fn man_at(letter: u8, at: Square) -> Option<Man> {
    let kind = kind(letter)?;
    let side = if letter.is_ascii_uppercase() {
        Side::White
    } else {
        Side::Black
    };
    Some(Man { side, kind, at })
}

/// The side to move, `w` or `b`.
pub(crate) fn side(text: &str) -> Side {
    if text == "w" {
        Side::White
    } else {
        Side::Black
    }
}

/// The square with this number; `None` for any other text.
pub(crate) fn square(text: &str) -> Option<Square> {
    match text.parse::<u8>() {
        Ok(number) => Square::new(number),
        Err(_) => None,
    }
}

/// The man of a word such as `K0`: a letter and the number of a square.
pub(crate) fn man(word: &str) -> Option<Man> {
    let letter = word.bytes().next()?;
    let at = square(word.get(1..)?)?;
    man_at(letter, at)
}

/// The men of words such as `K0 k63`, at most five.
fn men(words: &str) -> Option<ArrayVec<Man, 5>> {
    let mut men = ArrayVec::new();
    for word in words.split_ascii_whitespace() {
        if men.is_full() {
            return None;
        }
        men.push(man(word)?);
    }
    Some(men)
}

/// The position of a row's first three fields: the men, the side to move and the passed square.
pub(crate) fn position(rt: &impl Abort, row: &str) -> Result<Position, PositionFault> {
    let men = men(field(row, 0)).expect(rt, "men");
    Position::new(men.as_slice(), side(field(row, 1)), square(field(row, 2)))
}

/// The position of a row that has no fault.
pub(crate) fn sound(rt: &impl Abort, row: &str) -> Position {
    match position(rt, row) {
        Ok(p) => p,
        Err(fault) => panic!(rt; "{row}: {fault}"),
    }
}
