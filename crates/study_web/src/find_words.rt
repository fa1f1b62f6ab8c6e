//! The words of a request to find.
ghost use Rattle.std.specs.Prelude.{◌≡◌, ◌<◌, length, map, true, MatchOption};
ghost use Rattle.std.specs.List.{list_all};
ghost use Rattle.study_marks.specs.Edits.{is_printable};
ghost use Rattle.study_text.specs.Words.{words};
ghost use Rattle.study_web.specs.FindWords.{find_piece, find_for, find_asked};
ghost use Rattle.study_web.specs.Request.{asks_seen};

use crate::request::{Request, read_class};
use arrayvec::ArrayVec;
use study_command::{SyntaxFault, as_text};
use study_listing::{Piece, PieceFault, read_piece};
use study_material::Class;
use study_reply::Refusal;
use study_text::next_word;

/// The largest number of words after the class.
const MAX_WORDS: usize = 16;

/// The words of a text, unless there are too many.
fn words_in(text: &[u8]) -> Option<ArrayVec<&[u8], MAX_WORDS>>
    ensures { MatchOption result (16 < length (words text.now)) (λ list.
        map (λ word. word.now) list.items ≡ words text.now) }
{
    let mut list = ArrayVec::new();
    let mut rest = text;
    while list.len() < MAX_WORDS {
        match next_word(rest) {
            None => return Some(list),
            Some((word, behind)) => {
                list.push(word);
                rest = behind;
            }
        }
    }
    match next_word(rest) {
        None => Some(list),
        Some(_) => None,
    }
}

fn find_piece<'r>(piece: Result<Piece, PieceFault>) -> Result<Request<'r>, Refusal>
    ensures { asks_seen result ≡ find_piece piece }
{
    match piece {
        Ok(piece) => Ok(Request::Find(piece)),
        Err(PieceFault::Unread(unread)) => Ok(Request::Unread(unread)),
        Err(PieceFault::NoNumbers) => Err(Refusal::Form(SyntaxFault::BadArguments)),
    }
}

fn find_for<'r>(class: Class, rest: &[u8]) -> Result<Request<'r>, Refusal>
    ensures { asks_seen result ≡ find_for class (words rest.now) }
{
    match words_in(rest) {
        None => Err(Refusal::Form(SyntaxFault::BadArguments)),
        Some(list) => find_piece(read_piece(class, list.as_slice())),
    }
}

/// `CLASS THEME [FILTER ..] FROM TO`
#[tactic(auto, using(study_command::proofs::Printable::printable_first))]
pub fn read_find(rest: &[u8]) -> Result<Request<'_>, Refusal>
    requires { list_all is_printable rest.now ≡ true }
    ensures { asks_seen result ≡ find_asked (words rest.now) }
{
    let Some((name, behind)) = next_word(rest) else {
        return Err(Refusal::Form(SyntaxFault::BadArguments));
    };
    match read_class(as_text(name)) {
        None => Err(Refusal::NotAClass),
        Some(class) => find_for(class, behind),
    }
}
