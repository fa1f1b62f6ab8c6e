//! The field of a FEN with the rights to castle.
ghost use Rattle.std.specs.Prelude.{◌≡◌, ◌<◌, ◌≤◌, ◌+◌, ◌++◌};
ghost use Rattle.arrayvec.specs.ArrayString.{array_string_len};
ghost use Rattle.study_wide_text.specs.RightsField.{letter_if, letter_at, castling_text, rights_of};

use arrayvec::ArrayString;
use study_notation::{is_dash, push_byte};
use study_wide::Rights;

/// Whether the text begins with the letter, and the rest behind it.
fn read_letter(letter: u8, text: &[u8]) -> (bool, &[u8])
    ensures { (result.0, result.1.now) ≡ letter_at letter text.now }
{
    match text {
        [first, rest @ ..] => {
            if *first == letter {
                (true, rest)
            } else {
                (false, text)
            }
        }
        [] => (false, text),
    }
}

/// The rights that the field spells: `-`, or some of the letters KQkq in this order.
#[tactic(auto, unfolding(crate::specs::RightsField::rights_of))]
pub fn read_rights(text: &[u8]) -> Option<Rights>
    ensures { result ≡ rights_of text.now }
{
    if text.is_empty() {
        return None;
    }
    if is_dash(text) {
        return Some(Rights::none());
    }
    let (white_short, rest) = read_letter(b'K', text);
    let (white_long, rest) = read_letter(b'Q', rest);
    let (black_short, rest) = read_letter(b'k', rest);
    let (black_long, rest) = read_letter(b'q', rest);
    if rest.is_empty() {
        Some(Rights {
            white_short,
            white_long,
            black_short,
            black_long,
        })
    } else {
        None
    }
}

/// The letter of a right, if it is held.
fn push_letter(out: &mut ArrayString<96>, held: bool, letter: u8)
    requires ascii { letter < 128 }
    requires room { array_string_len out.old < 96 }
    ensures bytes { out.new.bytes ≡ out.old.bytes ++ letter_if held letter }
    ensures len { array_string_len out.new ≤ array_string_len out.old + 1 }
{
    if held {
        push_byte(out, letter);
    }
}

/// The letters of the rights that are held, or `-`.
#[tactic(auto, unfolding(crate::specs::RightsField::castling_text))]
pub fn push_rights(out: &mut ArrayString<96>, rights: Rights)
    requires { array_string_len out.old + 4 ≤ 96 }
    ensures bytes { out.new.bytes ≡ out.old.bytes ++ castling_text rights }
    ensures len { array_string_len out.new ≤ array_string_len out.old + 4 }
{
    if rights.any() {
        push_letter(out, rights.white_short, b'K');
        push_letter(out, rights.white_long, b'Q');
        push_letter(out, rights.black_short, b'k');
        push_letter(out, rights.black_long, b'q');
    } else {
        push_byte(out, b'-');
    }
}
