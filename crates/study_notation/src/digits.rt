//! Numbers in digits.
ghost use Rattle.std.specs.Prelude.{◌≡◌, ◌≤◌};
ghost use Rattle.study_notation.specs.Fen.{digits_parsed};

/// The number that digits spell, at least one digit and at most `most`.
pub fn read_digits(text: &[u8], most: usize) -> Option<u16>
    requires { most ≤ 4 }
    ensures { result ≡ digits_parsed most text.now }
{
    if text.is_empty() || text.len() > most {
        return None;
    }
    let mut n = 0u16;
    for d in text {
        if !d.is_ascii_digit() {
            return None;
        }
        n = 10 * n + (*d - b'0') as u16;
    }
    Some(n)
}
