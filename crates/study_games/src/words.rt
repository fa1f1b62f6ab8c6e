//! Words between blanks, and texts without the spaces at their ends.
ghost use Rattle.std.specs.Prelude.{◌≡◌, ◌≤◌, ◌&&◌, ◌==◌, ◌-◌, length, take, Some, None};
ghost use Rattle.std.specs.Option.{option_map};
ghost use Rattle.study_games.specs.Symbols.{without_end};
ghost use Rattle.study_games.specs.Words.{is_space, first_word, without_spaces, begun_word};

use crate::runs::{Run, cut_run};

/// The word that the text begins with, and the rest.
fn cut_word(text: &[u8]) -> Option<(&[u8], &[u8])>
    ensures { option_map (λ found. (found.0.now, found.1.now)) result ≡ begun_word text.now }
{
    if text.is_empty() {
        return None;
    }
    Some(cut_run(Run::Word, text))
}

/// The first word of a text, and the rest. Words are separated by blanks.
#[tactic(auto, unfolding(crate::specs::Words::first_word))]
pub fn next_word(text: &[u8]) -> Option<(&[u8], &[u8])>
    ensures { option_map (λ found. (found.0.now, found.1.now)) result ≡ first_word text.now }
{
    let (_, begun) = cut_run(Run::Blanks, text);
    cut_word(begun)
}

/// The length of a text without the spaces at its end.
fn len_without_end_spaces(text: &[u8]) -> usize
    ensures value { take result text.now ≡ without_end is_space text.now }
    ensures within { result ≤ length text.now }
{
    let mut n = text.len();
    while n > 0 && text[n - 1] == b' ' {
        n -= 1;
    }
    n
}

/// The text without the spaces at its end.
pub fn trim_end(text: &[u8]) -> &[u8]
    ensures { result.now ≡ without_end is_space text.now }
{
    let (front, _) = text.split_at(len_without_end_spaces(text));
    front
}

/// The text without the spaces at its front.
pub fn trim_start(text: &[u8]) -> &[u8]
    ensures { result.now ≡ without_spaces text.now }
{
    let (_, begun) = cut_run(Run::Spaces, text);
    begun
}

/// At most so many bytes of the text, from its front.
pub fn truncate(text: &[u8], most: usize) -> &[u8]
    ensures { result.now ≡ take most text.now }
{
    if text.len() <= most {
        return text;
    }
    let (front, _) = text.split_at(most);
    front
}
