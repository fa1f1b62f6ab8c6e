//! Texts, single words and numbers after a command.
ghost use Rattle.std.specs.Prelude.{◌≡◌, ◌≤◌, true, take, length, IfSome};
ghost use Rattle.std.specs.Option.{option_map};
ghost use Rattle.std.specs.List.{list_all};
ghost use Rattle.study_text.specs.Words.{words};
ghost use Rattle.study_marks.specs.Edits.{is_printable};
ghost use Rattle.study_command.specs.Parser.{trim_end, trim, text_parsed, one_word, two_words};

use std::str;
use study_text::{next_word, space_len};

/// Printable ASCII as a text.
pub fn as_text(bytes: &[u8]) -> &str
    requires { list_all is_printable bytes.now ≡ true }
    ensures { result.now ≡ bytes.now }
{
    match str::from_utf8(bytes) {
        Ok(text) => text,
        Err(_) => unreachable!(),
    }
}

/// The length of a text without the spaces at its end.
fn len_without_end_spaces(text: &[u8]) -> usize
    ensures value { take result text.now ≡ trim_end text.now }
    ensures within { result ≤ length text.now }
{
    let mut n = text.len();
    while n > 0 && text[n - 1] == b' ' {
        n -= 1;
    }
    n
}

/// A text without the spaces at both ends.
#[tactic(auto, unfolding(crate::specs::Parser::trim))]
fn trim(text: &[u8]) -> &[u8]
    ensures { result.now ≡ trim text.now }
{
    let (_, begun) = text.split_at(space_len(text));
    let (ended, _) = begun.split_at(len_without_end_spaces(begun));
    ended
}

/// A text that is not empty, without the spaces at both ends.
#[tactic(auto, using(crate::proofs::Printable::printable_trimmed))]
pub fn read_text(rest: &[u8]) -> Option<&str>
    requires { list_all is_printable rest.now ≡ true }
    ensures { option_map (λ text. text.now) result ≡ text_parsed rest.now }
{
    let text = trim(rest);
    if text.is_empty() {
        return None;
    }
    Some(as_text(text))
}

/// The only word, `None` unless there is exactly one.
pub fn read_one_word(rest: &[u8]) -> Option<&[u8]>
    ensures value { option_map (λ word. word.now) result ≡ one_word (words rest.now) }
    ensures printable { list_all is_printable rest.now ≡ true
        → IfSome result (λ word. list_all is_printable word.now ≡ true) }
{
    let (word, rest) = next_word(rest)?;
    if next_word(rest).is_some() {
        return None;
    }
    Some(word)
}

/// The two words, `None` unless there are exactly two.
pub fn read_two_words(rest: &[u8]) -> Option<(&[u8], &[u8])>
    ensures value { option_map (λ pair. (pair.0.now, pair.1.now)) result
        ≡ two_words (words rest.now) }
    ensures printable { list_all is_printable rest.now ≡ true
        → IfSome result (λ pair. list_all is_printable pair.1.now ≡ true) }
{
    let (first, rest) = next_word(rest)?;
    let (second, rest) = next_word(rest)?;
    if next_word(rest).is_some() {
        return None;
    }
    Some((first, second))
}
