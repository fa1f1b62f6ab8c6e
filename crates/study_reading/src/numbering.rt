//! The numbers of moves.
ghost use Rattle.std.specs.Prelude.{◌≡◌};
ghost use Rattle.study_notation.specs.Fen.{digits_parsed};
ghost use Rattle.study_games.specs.Tokens.{token_seen};
ghost use Rattle.study_reading.specs.Numbering.{begins_dot, has_dot, has_dots, black_moves, is_black_to_move, numbers_fit, fits_first};
ghost use Rattle.study_reading.specs.Numbering.{with_number, digits_numbered, token_numbered};

use crate::behind_result::without_first;
use study_board::Side;
use study_games::{Run, Said, Token, begins_ellipsis, cut_run, say};

/// The number of a move, and the number of half moves before it.
#[derive(Clone, Copy)]
pub struct MoveNumber {
    pub number: u32,
    pub depth: usize,
}

/// The first number of a game, which each later one has to fit.
#[derive(Clone, Copy)]
pub struct Numbering {
    pub first: Option<MoveNumber>,
    /// Whether the numbers count pairs of moves that Black begins.
    pub pairs: bool,
}

fn begins_dot(text: &[u8]) -> bool
    ensures { result ≡ begins_dot text.now }
{
    matches!(text, [b'.', ..])
}

/// Whether a dot is next, behind blanks.
#[tactic(auto, unfolding(crate::specs::Numbering::has_dot))]
fn has_dot(text: &[u8]) -> bool
    ensures { result ≡ has_dot text.now }
{
    let (_, rest) = cut_run(Run::Blanks, text);
    begins_dot(rest) || begins_ellipsis(rest)
}

/// Whether two dots are next, behind blanks.
#[tactic(auto, unfolding(crate::specs::Numbering::has_dots))]
fn has_dots(text: &[u8]) -> bool
    ensures { result ≡ has_dots text.now }
{
    let (_, rest) = cut_run(Run::Blanks, text);
    begins_ellipsis(rest) || (begins_dot(rest) && has_dot(without_first(rest)))
}

/// The number that at most nine digits spell.
fn read_number(text: &[u8]) -> Option<u32>
    ensures { result ≡ digits_parsed 9 text.now }
{
    if text.is_empty() || text.len() > 9 {
        return None;
    }
    let mut n = 0u32;
    for d in text {
        if !d.is_ascii_digit() {
            return None;
        }
        n = 10 * n + (*d - b'0') as u32;
    }
    Some(n)
}

/// The number of Black's moves among so many half moves of a game that this side begins.
fn black_moves(side: Side, depth: usize) -> usize
    ensures { result ≡ black_moves side depth }
{
    match side {
        Side::White => depth / 2,
        Side::Black => depth / 2 + depth % 2,
    }
}

fn is_black_to_move(side: Side, depth: usize) -> bool
    ensures { result ≡ is_black_to_move side depth }
{
    match side {
        Side::White => depth % 2 == 1,
        Side::Black => depth % 2 == 0,
    }
}

/// Whether two numbers of a game may be in one text.
fn numbers_fit(side: Side, pairs: bool, a: MoveNumber, b: MoveNumber) -> bool
    ensures { result ≡ numbers_fit side pairs a b }
{
    let first = a.number as usize;
    let second = b.number as usize;
    if pairs {
        first + b.depth / 2 == second + a.depth / 2
    } else {
        first + black_moves(side, b.depth) == second + black_moves(side, a.depth)
    }
}

impl Numbering {
    fn fits(self, side: Side, number: MoveNumber) -> bool
        ensures { result ≡ fits_first side self.pairs self.first number }
    {
        match self.first {
            None => true,
            Some(first) => numbers_fit(side, self.pairs, first, number),
        }
    }

    fn with_number(self, side: Side, dots: bool, number: MoveNumber) -> Option<Numbering>
        ensures { result ≡ with_number side self dots number }
    {
        let black = is_black_to_move(side, number.depth);
        if dots && !black {
            return None;
        }
        if !self.fits(side, number) {
            return None;
        }
        match self.first {
            None => Some(Numbering {
                first: Some(number),
                pairs: black && !dots,
            }),
            Some(_) => Some(self),
        }
    }

    #[tactic(auto, unfolding(crate::specs::Numbering::digits_numbered))]
    fn with_digits(
        self,
        side: Side,
        depth: usize,
        digits: &[u8],
        behind: &[u8],
    ) -> Option<Numbering>
        ensures { result ≡ digits_numbered side depth self digits.now behind.now }
    {
        if !has_dot(behind) {
            return Some(self);
        }
        match read_number(digits) {
            None => None,
            Some(number) => self.with_number(side, has_dots(behind), MoveNumber { number, depth }),
        }
    }

    /// The numbering after a token and before the text behind it, `None` if the token is a number that does not fit after so many half moves; `side`
    /// begins the game.
    pub fn with_token(
        self,
        side: Side,
        depth: usize,
        token: Token<'_>,
        behind: &[u8],
    ) -> Option<Numbering>
        ensures { result ≡ token_numbered side depth self (token_seen token.entry) behind.now }
    {
        match token {
            Token::Symbol(text) => match say(text) {
                Said::Number => self.with_digits(side, depth, text, behind),
                _ => Some(self),
            },
            _ => Some(self),
        }
    }
}
