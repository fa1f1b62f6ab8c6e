//! Appending bytes and squares to a text that has room for them.
ghost use Rattle.std.specs.Prelude.{◌≡◌, ◌<◌, ◌≤◌, ◌+◌, ◌++◌, ◌∷◌, []};
ghost use Rattle.arrayvec.specs.ArrayString.{array_string_len};
ghost use Rattle.study_notation.specs.FenSpelling.{square_text};

use arrayvec::ArrayString;
use study_board::Square;

/// One byte of ASCII.
pub fn push_byte<const N: usize>(out: &mut ArrayString<N>, b: u8)
    requires ascii { b < 128 }
    requires room { array_string_len out.old < N }
    ensures bytes { out.new.bytes ≡ out.old.bytes ++ b ∷ [] }
    ensures len { array_string_len out.new ≡ array_string_len out.old + 1 }
{
    out.push(char::from(b));
}

/// A square's file and rank.
pub fn push_square<const N: usize>(out: &mut ArrayString<N>, at: Square)
    requires room { array_string_len out.old + 2 ≤ N }
    ensures bytes { out.new.bytes ≡ out.old.bytes ++ square_text at }
    ensures len { array_string_len out.new ≡ array_string_len out.old + 2 }
{
    push_byte(out, b'a' + at.file());
    push_byte(out, b'1' + at.rank());
}
