//! The words after a theme.
ghost use Rattle.std.specs.Prelude.{◌≡◌, map, true, Ok, Some};
ghost use Rattle.study_command.specs.Parser.{side_parsed};
ghost use Rattle.study_listing.specs.FilterWords.{side_lettered, capital, kind_lettered, square_spelled, are_corners, placed_by, placed_on};
ghost use Rattle.study_listing.specs.FilterWords.{placed_parsed, nothing_behind, put, with_placed, with_side, with_side_or_man};
ghost use Rattle.study_listing.specs.FilterWords.{if_key, promoted_parsed, result_parsed, with_result, with_promoted, with_word, with_words};
ghost use Rattle.study_listing.specs.FilterWords.{feature_parsed, with_row, with_feature};

use crate::facts::wanted_for;
use crate::features::Feature;
use crate::filters::{Filters, Placed};
use study_board::{Kind, Side, Square};
use study_command::read_side;
use study_search::{Outcome, Theme};

/// Why words are not filters.
#[derive(Clone, Copy, Debug, PartialEq, Eq)]
pub enum Unread {
    NoSuchTheme,
    /// A word after the theme is not a filter, or names a second side to move, a fifth man or a fifth feature of the row.
    NoSuchFilter,
    /// A filter concerns the key move or the row that it begins, and the theme has none.
    NoKeyMove,
}

/// The words after the theme: the side to move, and filters.
#[derive(Clone, Copy, Debug, PartialEq, Eq)]
pub struct Behind {
    pub side: Option<Side>,
    pub filters: Filters,
}

impl Behind {
    pub fn nothing() -> Behind
        ensures { result ≡ nothing_behind }
    {
        Behind {
            side: None,
            filters: Filters::none(),
        }
    }
}

fn side_lettered(letter: u8) -> Side
    ensures { result ≡ side_lettered letter }
{
    if b'a' <= letter {
        Side::Black
    } else {
        Side::White
    }
}

fn capital(letter: u8) -> u8
    ensures { result ≡ capital letter }
{
    if b'a' <= letter { letter - 32 } else { letter }
}

fn kind_lettered(letter: u8) -> Option<Kind>
    ensures { result ≡ kind_lettered letter }
{
    match letter {
        b'K' => Some(Kind::King),
        b'Q' => Some(Kind::Queen),
        b'R' => Some(Kind::Rook),
        b'B' => Some(Kind::Bishop),
        b'N' => Some(Kind::Knight),
        b'P' => Some(Kind::Pawn),
        _ => None,
    }
}

/// A file and a rank.
fn square_spelled(file: u8, rank: u8) -> Option<Square>
    ensures { result ≡ square_spelled file rank }
{
    if b'a' <= file && file <= b'h' && b'1' <= rank && rank <= b'8' {
        Some(Square::at(8 * (rank - b'1') + (file - b'a')))
    } else {
        None
    }
}

fn are_corners(from: Square, to: Square) -> bool
    ensures { result ≡ are_corners from to }
{
    from.file() <= to.file() && from.rank() <= to.rank()
}

fn placed_on(
    side: Side,
    kind: Option<Kind>,
    from: Option<Square>,
    to: Option<Square>,
) -> Option<Placed>
    ensures { result ≡ placed_on side kind from to }
{
    match (kind, from, to) {
        (Some(kind), Some(from), Some(to)) => {
            if are_corners(from, to) {
                Some(Placed {
                    side,
                    kind,
                    from,
                    to,
                })
            } else {
                None
            }
        }
        _ => None,
    }
}

fn placed_by(letter: u8, from: Option<Square>, to: Option<Square>) -> Option<Placed>
    ensures { result ≡ placed_by letter from to }
{
    placed_on(
        side_lettered(letter),
        kind_lettered(capital(letter)),
        from,
        to,
    )
}

fn on_square(letter: u8, file: u8, rank: u8) -> Option<Placed>
    ensures { result ≡ placed_by letter (square_spelled file rank) (square_spelled file rank) }
{
    placed_by(
        letter,
        square_spelled(file, rank),
        square_spelled(file, rank),
    )
}

/// A man's letter and a square, `Kf7`, or the two corners of a rectangle, `pa2-h4`.
fn read_placed(word: &[u8]) -> Option<Placed>
    ensures { result ≡ placed_parsed word.now }
{
    match word {
        [letter, file, rank] => on_square(*letter, *file, *rank),
        [letter, file, rank, b'-', last_file, last_rank] => {
            let from = square_spelled(*file, *rank);
            let to = square_spelled(*last_file, *last_rank);
            placed_by(*letter, from, to)
        }
        _ => None,
    }
}

/// One more, if there is room for it.
fn put<T: Copy>(w: T, there: [Option<T>; 4]) -> Option<[Option<T>; 4]>
    ensures { result ≡ put w there }
{
    match there {
        [None, b, c, d] => Some([Some(w), b, c, d]),
        [a, None, c, d] => Some([a, Some(w), c, d]),
        [a, b, None, d] => Some([a, b, Some(w), d]),
        [a, b, c, None] => Some([a, b, c, Some(w)]),
        _ => None,
    }
}

fn with_men(behind: Behind, men: [Option<Placed>; 4]) -> Behind
    ensures { result ≡ record behind { filters = record behind.filters { men = men } } }
{
    let mut filters = behind.filters;
    filters.men = men;
    Behind {
        side: behind.side,
        filters,
    }
}

/// One more man for these filters.
fn put_man(w: Placed, filters: Filters) -> Option<[Option<Placed>; 4]>
    ensures { result ≡ put w filters.men }
{
    put(w, filters.men)
}

fn with_placed(behind: Behind, w: Option<Placed>) -> Result<Behind, Unread>
    ensures { result ≡ with_placed behind w }
{
    let Some(w) = w else {
        return Err(Unread::NoSuchFilter);
    };
    match put_man(w, behind.filters) {
        None => Err(Unread::NoSuchFilter),
        Some(men) => Ok(with_men(behind, men)),
    }
}

/// One side at most.
fn with_side(behind: Behind, side: Side) -> Result<Behind, Unread>
    ensures { result ≡ with_side behind side }
{
    if behind.side.is_some() {
        return Err(Unread::NoSuchFilter);
    }
    Ok(Behind {
        side: Some(side),
        filters: behind.filters,
    })
}

fn with_side_or_man(behind: Behind, word: &[u8]) -> Result<Behind, Unread>
    ensures { result ≡ with_side_or_man behind word.now (side_parsed word.now) }
{
    match read_side(word) {
        Some(side) => with_side(behind, side),
        None => with_placed(behind, read_placed(word)),
    }
}

/// A filter on the key move, the result that it keeps, or the row that it begins, needs a theme that has one.
fn if_key(theme: Theme, behind: Behind) -> Result<Behind, Unread>
    ensures { result ≡ if_key theme behind }
{
    if wanted_for(theme).key {
        Ok(behind)
    } else {
        Err(Unread::NoKeyMove)
    }
}

fn without_capture(behind: Behind) -> Behind
    ensures { result ≡ record behind { filters = record behind.filters { no_capture = true } } }
{
    let mut filters = behind.filters;
    filters.no_capture = true;
    Behind {
        side: behind.side,
        filters,
    }
}

fn as_white(behind: Behind) -> Behind
    ensures { result ≡ record behind { filters = record behind.filters { as_white = true } } }
{
    let mut filters = behind.filters;
    filters.as_white = true;
    Behind {
        side: behind.side,
        filters,
    }
}

fn by_families(behind: Behind) -> Behind
    ensures { result ≡ record behind { filters = record behind.filters { families = true } } }
{
    let mut filters = behind.filters;
    filters.families = true;
    Behind {
        side: behind.side,
        filters,
    }
}

fn without_check(behind: Behind) -> Behind
    ensures { result ≡ record behind { filters = record behind.filters { no_check = true } } }
{
    let mut filters = behind.filters;
    filters.no_check = true;
    Behind {
        side: behind.side,
        filters,
    }
}

/// A man that the key promotes to: `=N`.
fn read_promoted(word: &[u8]) -> Option<Kind>
    ensures { result ≡ promoted_parsed word.now }
{
    if word == b"=Q".as_slice() {
        Some(Kind::Queen)
    } else if word == b"=R".as_slice() {
        Some(Kind::Rook)
    } else if word == b"=B".as_slice() {
        Some(Kind::Bishop)
    } else if word == b"=N".as_slice() {
        Some(Kind::Knight)
    } else {
        None
    }
}

/// `wins` or `draws`.
fn read_result(word: &[u8]) -> Option<Outcome>
    ensures { result ≡ result_parsed word.now }
{
    if word == b"wins".as_slice() {
        Some(Outcome::Win)
    } else if word == b"draws".as_slice() {
        Some(Outcome::Draw)
    } else {
        None
    }
}

fn with_outcome(behind: Behind, outcome: Outcome) -> Behind
    ensures { result ≡ record behind { filters = record behind.filters { result = Some outcome } } }
{
    let mut filters = behind.filters;
    filters.result = Some(outcome);
    Behind {
        side: behind.side,
        filters,
    }
}

/// One result at most.
fn with_result(theme: Theme, behind: Behind, word: &[u8]) -> Result<Behind, Unread>
    ensures { result ≡ with_result theme behind word.now (result_parsed word.now) }
{
    match read_result(word) {
        None => with_side_or_man(behind, word),
        Some(outcome) => {
            if behind.filters.result.is_some() {
                return Err(Unread::NoSuchFilter);
            }
            if_key(theme, with_outcome(behind, outcome))
        }
    }
}

fn with_kind(behind: Behind, kind: Kind) -> Behind
    ensures { result ≡ record behind { filters = record behind.filters { promoted = Some kind } } }
{
    let mut filters = behind.filters;
    filters.promoted = Some(kind);
    Behind {
        side: behind.side,
        filters,
    }
}

/// One promoted man at most.
fn with_promoted(theme: Theme, behind: Behind, word: &[u8]) -> Result<Behind, Unread>
    ensures { result ≡ with_promoted theme behind word.now (promoted_parsed word.now) }
{
    match read_promoted(word) {
        None => with_result(theme, behind, word),
        Some(kind) => {
            if behind.filters.promoted.is_some() {
                return Err(Unread::NoSuchFilter);
            }
            if_key(theme, with_kind(behind, kind))
        }
    }
}

/// A feature of the row of only moves: `row-offer`.
fn read_feature(word: &[u8]) -> Option<Feature>
    ensures { result ≡ feature_parsed word.now }
{
    if word == b"row-underpromotion".as_slice() {
        Some(Feature::Underpromotion)
    } else if word == b"row-offer".as_slice() {
        Some(Feature::Offer)
    } else if word == b"row-zugzwang".as_slice() {
        Some(Feature::Zugzwang)
    } else if word == b"row-stalemate".as_slice() {
        Some(Feature::Stalemate)
    } else {
        None
    }
}

fn with_features(behind: Behind, row: [Option<Feature>; 4]) -> Behind
    ensures { result ≡ record behind { filters = record behind.filters { row = row } } }
{
    let mut filters = behind.filters;
    filters.row = row;
    Behind {
        side: behind.side,
        filters,
    }
}

fn with_row(
    theme: Theme,
    behind: Behind,
    row: Option<[Option<Feature>; 4]>,
) -> Result<Behind, Unread>
    ensures { result ≡ with_row theme behind row }
{
    let Some(row) = row else {
        return Err(Unread::NoSuchFilter);
    };
    if_key(theme, with_features(behind, row))
}

/// One more feature for these filters.
fn put_feature(feature: Feature, filters: Filters) -> Option<[Option<Feature>; 4]>
    ensures { result ≡ put feature filters.row }
{
    put(feature, filters.row)
}

/// Four features at most.
fn with_feature(theme: Theme, behind: Behind, word: &[u8]) -> Result<Behind, Unread>
    ensures { result ≡ with_feature theme behind word.now (feature_parsed word.now) }
{
    match read_feature(word) {
        None => with_promoted(theme, behind, word),
        Some(feature) => with_row(theme, behind, put_feature(feature, behind.filters)),
    }
}

/// One more word.
fn with_word(theme: Theme, behind: Behind, word: &[u8]) -> Result<Behind, Unread>
    ensures { result ≡ with_word theme behind word.now }
{
    if word == b"no-capture".as_slice() {
        if_key(theme, without_capture(behind))
    } else if word == b"no-check".as_slice() {
        if_key(theme, without_check(behind))
    } else if word == b"families".as_slice() {
        if_key(theme, by_families(behind))
    } else if word == b"as-white".as_slice() {
        Ok(as_white(behind))
    } else {
        with_feature(theme, behind, word)
    }
}

/// Word by word, up to the first that is refused.
#[tactic(auto, using(crate::proofs::Keys::still_refused))]
pub fn with_words(theme: Theme, behind: Behind, words: &[&[u8]]) -> Result<Behind, Unread>
    ensures { result ≡ with_words theme (Ok behind) (map (λ word. word.now) words.now) }
{
    match words.split_first() {
        None => Ok(behind),
        Some((word, rest)) => match with_word(theme, behind, word) {
            Err(fault) => Err(fault),
            Ok(more) => with_words(theme, more, rest),
        },
    }
}
