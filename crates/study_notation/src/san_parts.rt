//! The parts of a SAN text, from the left.
ghost use Rattle.std.specs.Prelude.{◌≡◌, ◌<◌, IfSome};
ghost use Rattle.std.specs.Option.{option_map};
ghost use Rattle.study_notation.specs.San.{is_glyphs, is_ending};
ghost use Rattle.study_notation.specs.SanParts.{promotion_piece, kind_at, file_at, rank_at, takes_at, promotion_piece_at, promotion_at, squares_at};
ghost use Rattle.study_notation.specs.SquaresView.{squares_view};

use study_board::Kind;

/// The kind of the man, a pawn if there is no letter, and the rest.
#[tactic(auto, unfolding(crate::specs::SanParts::kind_at))]
pub fn read_kind(text: &[u8]) -> (Kind, &[u8])
    ensures { (result.0, result.1.now) ≡ kind_at text.now }
{
    match text {
        [b'K', rest @ ..] => (Kind::King, rest),
        [b'Q', rest @ ..] => (Kind::Queen, rest),
        [b'R', rest @ ..] => (Kind::Rook, rest),
        [b'B', rest @ ..] => (Kind::Bishop, rest),
        [b'N', rest @ ..] => (Kind::Knight, rest),
        _ => (Kind::Pawn, text),
    }
}

/// A file, if the text begins with one, and the rest.
#[tactic(auto, unfolding(crate::specs::SanParts::file_at))]
fn read_file(text: &[u8]) -> (Option<u8>, &[u8])
    ensures value { (result.0, result.1.now) ≡ file_at text.now }
    ensures small { IfSome result.0 (λ f. f < 8) }
{
    match text {
        [b @ b'a'..=b'h', rest @ ..] => (Some(*b - b'a'), rest),
        _ => (None, text),
    }
}

#[tactic(auto, unfolding(crate::specs::SanParts::rank_at))]
fn read_rank(text: &[u8]) -> (Option<u8>, &[u8])
    ensures value { (result.0, result.1.now) ≡ rank_at text.now }
    ensures small { IfSome result.0 (λ r. r < 8) }
{
    match text {
        [b @ b'1'..=b'8', rest @ ..] => (Some(*b - b'1'), rest),
        _ => (None, text),
    }
}

#[tactic(auto, unfolding(crate::specs::SanParts::takes_at))]
fn read_takes(text: &[u8]) -> (bool, &[u8])
    ensures { (result.0, result.1.now) ≡ takes_at text.now }
{
    match text {
        [b'x', rest @ ..] => (true, rest),
        _ => (false, text),
    }
}

#[tactic(auto, unfolding(crate::specs::SanParts::promotion_piece))]
fn promotion_piece(b: u8) -> Option<Kind>
    ensures { result ≡ promotion_piece b }
{
    match b {
        b'Q' => Some(Kind::Queen),
        b'R' => Some(Kind::Rook),
        b'B' => Some(Kind::Bishop),
        b'N' => Some(Kind::Knight),
        _ => None,
    }
}

#[tactic(auto, unfolding(crate::specs::SanParts::promotion_piece_at))]
fn read_promotion_piece(text: &[u8]) -> (Option<Kind>, &[u8])
    ensures { (result.0, result.1.now) ≡ promotion_piece_at text.now }
{
    match text {
        [b, rest @ ..] => match promotion_piece(*b) {
            Some(kind) => (Some(kind), rest),
            None => (None, text),
        },
        [] => (None, text),
    }
}

/// The promotion, or none if the text has no kind here, and the rest; `None` if `=` has no kind after it.
#[tactic(auto, unfolding(crate::specs::SanParts::promotion_at))]
pub fn read_promotion(text: &[u8]) -> Option<(Option<Kind>, &[u8])>
    ensures { option_map (λ x. (x.0, x.1.now)) result ≡ promotion_at text.now }
{
    match text {
        [b, rest @ ..] => {
            if *b == b'=' {
                match read_promotion_piece(rest) {
                    (Some(kind), rest) => Some((Some(kind), rest)),
                    (None, _) => None,
                }
            } else {
                Some(read_promotion_piece(text))
            }
        }
        [] => Some((None, text)),
    }
}

fn is_glyphs(text: &[u8]) -> bool
    ensures { result ≡ is_glyphs text.now }
{
    matches!(text, [] | [b'!' | b'?'] | [b'!' | b'?', b'!' | b'?'])
}

/// Whether the rest of a text is an optional `+` or `#`, and then at most two of `!` and `?`.
pub fn is_ending(text: &[u8]) -> bool
    ensures { result ≡ is_ending text.now }
{
    match text {
        [b'+' | b'#', rest @ ..] => is_glyphs(rest),
        _ => is_glyphs(text),
    }
}

/// The coordinates of a move: the given parts of its origin, and its target.
#[derive(Clone, Copy)]
pub struct SanSquares {
    pub file: Option<u8>,
    pub rank: Option<u8>,
    pub is_capture: bool,
    pub target: u8,
}

/// The coordinates, and the rest.
///
/// If no target follows, what was read as the origin is the target.
#[tactic(auto, unfolding(crate::specs::SanParts::squares_at))]
pub fn read_squares(text: &[u8]) -> Option<(SanSquares, &[u8])>
    ensures value { option_map squares_view result ≡ squares_at text.now }
    ensures inside { IfSome result (λ x. x.0.target < 64) }
{
    let (file, rest) = read_file(text);
    let (rank, rest) = read_rank(rest);
    let (is_capture, rest) = read_takes(rest);
    let (target_file, rest) = read_file(rest);
    match target_file {
        Some(f) => {
            let (target_rank, rest) = read_rank(rest);
            let squares = SanSquares {
                file,
                rank,
                is_capture,
                target: 8 * target_rank? + f,
            };
            Some((squares, rest))
        }
        None => match (file, rank, is_capture) {
            (Some(f), Some(r), false) => {
                let squares = SanSquares {
                    file: None,
                    rank: None,
                    is_capture: false,
                    target: 8 * r + f,
                };
                Some((squares, rest))
            }
            _ => None,
        },
    }
}
