//! Spaces outside of ASCII.
ghost use Rattle.std.specs.Prelude.{◌≡◌, ◌≤◌, true, length};
ghost use Rattle.study_games.specs.Runs.{is_in};
ghost use Rattle.study_games.specs.Spaces.{is_wide_space, begins_wide_space, begins_hard_space, begins_byte_space, space_len, begins_space, ink_len};

use crate::runs::{Run, is_in};

/// Whether three bytes are a space in UTF-8.
fn is_wide_space(a: u8, b: u8, c: u8) -> bool
    ensures { result ≡ is_wide_space a b c }
{
    let is_thin = (0x80 <= c && c <= 0x8a) || c == 0xa8 || c == 0xa9 || c == 0xaf;
    (a == 0xe2 && ((b == 0x80 && is_thin) || (b == 0x81 && c == 0x9f)))
        || (a == 0xe3 && b == 0x80 && c == 0x80)
        || (a == 0xe1 && b == 0x9a && c == 0x80)
}

fn begins_wide_space(text: &[u8]) -> bool
    ensures value { result ≡ begins_wide_space text.now }
    ensures within { result ≡ true → 3 ≤ length text.now }
{
    match text {
        [a, b, c, ..] => is_wide_space(*a, *b, *c),
        _ => false,
    }
}

fn begins_hard_space(text: &[u8]) -> bool
    ensures value { result ≡ begins_hard_space text.now }
    ensures within { result ≡ true → 2 ≤ length text.now }
{
    match text {
        [a, b, ..] => *a == 0xc2 && *b == 0xa0,
        _ => false,
    }
}

fn begins_byte_space(text: &[u8]) -> bool
    ensures value { result ≡ begins_byte_space text.now }
    ensures within { result ≡ true → 1 ≤ length text.now }
{
    matches!(text, [0xa0, ..])
}

/// The number of bytes of the space with which the text begins, or 0. `plain`: the byte A0 alone is a space.
pub fn space_len(text: &[u8], plain: bool) -> usize
    ensures value { result ≡ space_len plain text.now }
    ensures within { result ≤ length text.now }
{
    if begins_wide_space(text) {
        3
    } else if begins_hard_space(text) {
        2
    } else if plain && begins_byte_space(text) {
        1
    } else {
        0
    }
}

/// Whether the text begins with a space outside of ASCII.
pub fn begins_space(text: &[u8], plain: bool) -> bool
    ensures { result ≡ begins_space plain text.now }
{
    space_len(text, plain) > 0
}

/// The number of bytes of a run that follow the first byte, before a space outside of ASCII.
pub fn ink_len(run: Run, first: u8, text: &[u8]) -> usize
    ensures value { result ≡ ink_len (is_in run) first text.now }
    ensures within { result ≤ length text.now }
{
    let mut before = first;
    let mut n = 0;
    let mut rest = text;
    while let [byte, behind @ ..] = rest {
        if !is_in(run, *byte) || begins_space(rest, before <= 127) {
            return n;
        }
        before = *byte;
        n += 1;
        rest = behind;
    }
    n
}
