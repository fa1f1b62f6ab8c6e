//! The words of a request.
ghost use Rattle.std.specs.Prelude.{◌≡◌};
ghost use Rattle.study_web.specs.Request.{square_parsed};

use study_board::Square;

/// A file and a rank.
pub fn read_square(word: &[u8]) -> Option<Square>
    ensures { result ≡ square_parsed word.now }
{
    match word {
        [file @ b'a'..=b'h', rank @ b'1'..=b'8'] => {
            Some(Square::at(8 * (*rank - b'1') + (*file - b'a')))
        }
        _ => None,
    }
}
