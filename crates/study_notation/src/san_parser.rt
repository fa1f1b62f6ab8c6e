//! Reading the parts of a SAN text.
ghost use Rattle.std.specs.Prelude.{◌≡◌};
ghost use Rattle.study_notation.specs.SanParts.{san_of};

use crate::san::San;
use crate::san_parts::{is_ending, read_kind, read_promotion, read_squares};
use study_board::Square;

/// The parts of a text, if it has the form of a move.
#[tactic(auto, unfolding(crate::specs::SanParts::san_of))]
pub fn parse_san(text: &[u8]) -> Option<San>
    ensures { result ≡ san_of text.now }
{
    let (kind, rest) = read_kind(text);
    let (squares, rest) = read_squares(rest)?;
    let (promoted, rest) = read_promotion(rest)?;
    if is_ending(rest) {
        Some(San {
            kind,
            file: squares.file,
            rank: squares.rank,
            is_capture: squares.is_capture,
            target: Square::at(squares.target),
            promoted,
        })
    } else {
        None
    }
}
