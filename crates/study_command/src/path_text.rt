//! Paths as written.
ghost use Rattle.std.specs.Prelude.{◌≡◌};
ghost use Rattle.std.specs.Option.{option_map};
ghost use Rattle.std.specs.List.{list_all};
ghost use Rattle.study_notation.specs.Fen.{is_digit};
ghost use Rattle.study_command.specs.Paths.{is_place, place_parsed, is_path, is_path_word};
ghost use Rattle.study_command.specs.Parser.{path_of, path_seen};

use crate::command::PathText;
use study_notation::read_digits;

/// `root`, or child places joined by `.`.
#[tactic(auto, unfolding(crate::specs::Paths::is_path_word))]
pub fn is_path_word(word: &[u8]) -> bool
    ensures { result ≡ is_path_word word.now }
{
    word == b"root".as_slice() || is_path(word)
}

/// A word that is a path.
pub fn read_path_word(word: &[u8]) -> Option<PathText<'_>>
    ensures { option_map path_seen result ≡ path_of word.now }
{
    if is_path_word(word) {
        Some(PathText { word })
    } else {
        None
    }
}

/// Child places joined by `.`.
#[tactic(auto, unfolding(crate::specs::Paths::is_path))]
fn is_path(word: &[u8]) -> bool
    ensures { result ≡ is_path word.now }
{
    word.split(|b| *b == b'.').all(is_place)
}

/// One to three digits.
fn is_place(part: &[u8]) -> bool
    ensures { result ≡ is_place part.now }
{
    !part.is_empty() && part.len() <= 3 && are_digits(part)
}

fn are_digits(part: &[u8]) -> bool
    ensures { result ≡ list_all is_digit part.now }
{
    part.iter().all(|b| *b >= b'0' && *b <= b'9')
}

/// The number that one to three digits spell.
#[tactic(auto, unfolding(crate::specs::Paths::place_parsed))]
pub fn read_place(text: &[u8]) -> Option<u16>
    ensures value { result ≡ place_parsed text.now }
{
    read_digits(text, 3)
}
