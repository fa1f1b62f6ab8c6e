//! The words of a piece of a list.
ghost use Rattle.std.specs.Prelude.{◌≡◌, map};
ghost use Rattle.study_listing.specs.Pieces.{number_parsed, numbers_of, numbers_parsed, piece_with_numbers, piece_of};

use crate::filter_words::Unread;
use crate::listing::Numbers;
use crate::request::{Request, read_request};
use study_material::Class;

/// A request, and the numbers of the class to search.
#[derive(Clone, Copy, Debug, PartialEq, Eq)]
pub struct Piece {
    pub request: Request,
    pub numbers: Numbers,
}

/// Why words are not a request for a piece.
#[derive(Clone, Copy, Debug, PartialEq, Eq)]
pub enum PieceFault {
    Unread(Unread),
    /// The last two words are not numbers of one to nine digits.
    NoNumbers,
}

/// The number that one to nine digits spell.
fn read_number(text: &[u8]) -> Option<u32>
    ensures { result ≡ number_parsed text.now }
{
    if text.is_empty() || text.len() > 9 {
        return None;
    }
    let mut n = 0u32;
    for d in text {
        if !d.is_ascii_digit() {
            return None;
        }
        n = 10 * n + (*d - b'0') as u32;
    }
    Some(n)
}

fn numbers_of(from: Option<u32>, to: Option<u32>) -> Option<Numbers>
    ensures { result ≡ numbers_of from to }
{
    match (from, to) {
        (Some(from), Some(to)) => Some(Numbers { from, to }),
        _ => None,
    }
}

fn read_numbers(words: &[&[u8]]) -> Option<Numbers>
    ensures { result ≡ numbers_parsed (map (λ word. word.now) words.now) }
{
    match words {
        [from, to] => numbers_of(read_number(from), read_number(to)),
        _ => None,
    }
}

fn piece_with_numbers(
    request: Result<Request, Unread>,
    numbers: Option<Numbers>,
) -> Result<Piece, PieceFault>
    ensures { result ≡ piece_with_numbers request numbers }
{
    match request {
        Err(unread) => Err(PieceFault::Unread(unread)),
        Ok(request) => match numbers {
            None => Err(PieceFault::NoNumbers),
            Some(numbers) => Ok(Piece { request, numbers }),
        },
    }
}

/// The request of the words `THEME [FILTER ..] FROM TO` after the class.
#[tactic(auto, using(crate::proofs::Pieces::fronts, crate::proofs::Pieces::backs))]
pub fn read_piece(class: Class, words: &[&[u8]]) -> Result<Piece, PieceFault>
    ensures { result ≡ piece_of class (map (λ word. word.now) words.now) }
{
    if words.len() < 2 {
        return Err(PieceFault::NoNumbers);
    }
    let (front, back) = words.split_at(words.len() - 2);
    piece_with_numbers(read_request(class, front), read_numbers(back))
}
