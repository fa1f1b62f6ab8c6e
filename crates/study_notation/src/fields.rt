//! The fields of a FEN text.
ghost use Rattle.std.specs.Prelude.{◌≡◌, ◌+◌};
ghost use Rattle.std.specs.Option.{option_map};
ghost use Rattle.study_notation.specs.Fen.{fields_of, side_of, passed_of, count_of, is_dash};
ghost use Rattle.study_notation.specs.FieldsView.{fields_view};
ghost use Rattle.study_text.specs.Words.{words};

use crate::digits::read_digits;
use study_board::{Side, Square};
use study_text::next_word;

/// The six fields of a FEN text.
#[derive(Clone, Copy)]
pub struct FenFields<'a> {
    pub placement: &'a [u8],
    pub side: &'a [u8],
    pub castling: &'a [u8],
    pub passed: &'a [u8],
    pub clock: &'a [u8],
    pub number: &'a [u8],
}

/// The fields of a text that has six or four of them.
#[tactic(auto, unfolding(crate::specs::Fen::fields_of))]
pub fn split_fields(text: &[u8]) -> Option<FenFields<'_>>
    ensures { option_map fields_view result ≡ fields_of (words text.now) }
{
    let (placement, rest) = next_word(text)?;
    let (side, rest) = next_word(rest)?;
    let (castling, rest) = next_word(rest)?;
    let (passed, rest) = next_word(rest)?;
    let Some((clock, rest)) = next_word(rest) else {
        return Some(FenFields {
            placement,
            side,
            castling,
            passed,
            clock: b"0",
            number: b"1",
        });
    };
    let (number, rest) = next_word(rest)?;
    if next_word(rest).is_some() {
        return None;
    }
    Some(FenFields {
        placement,
        side,
        castling,
        passed,
        clock,
        number,
    })
}

/// The side to move.
pub fn read_side(text: &[u8]) -> Option<Side>
    ensures { result ≡ side_of text.now }
{
    match text {
        [b'w'] => Some(Side::White),
        [b'b'] => Some(Side::Black),
        _ => None,
    }
}

/// Whether a field is `-`.
pub fn is_dash(text: &[u8]) -> bool
    ensures { result ≡ is_dash text.now }
{
    matches!(text, [b'-'])
}

/// The passed square, if the field is `-` or a square.
pub fn read_passed(text: &[u8]) -> Option<Option<Square>>
    ensures { result ≡ passed_of text.now }
{
    match text {
        [b'-'] => Some(None),
        [file @ b'a'..=b'h', rank @ b'1'..=b'8'] => {
            Some(Some(Square::at(8 * (*rank - b'1') + (*file - b'a'))))
        }
        _ => None,
    }
}

/// The number that one to four digits spell.
#[tactic(auto, unfolding(crate::specs::Fen::count_of))]
pub fn read_count(text: &[u8]) -> Option<u16>
    ensures { result ≡ count_of text.now }
{
    read_digits(text, 4)
}
