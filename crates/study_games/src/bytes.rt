//! Kinds of bytes in a PGN text.
ghost use Rattle.std.specs.Prelude.{◌≡◌};
ghost use Rattle.study_games.specs.Bytes.{is_blank, is_gap, is_letter, is_digit, is_name_byte, is_sign};
ghost use Rattle.study_games.specs.Bytes.{is_high, is_tail, begins_symbol, is_symbol_byte, is_glyph};

/// A space, or one of the five ASCII codes that move on: tab, line feed, vertical tab, form feed, carriage return.
pub fn is_blank(b: u8) -> bool
    ensures { result ≡ is_blank b }
{
    b == b' ' || (9 <= b && b <= 13)
}

/// A space or a tab.
pub fn is_gap(b: u8) -> bool
    ensures { result ≡ is_gap b }
{
    b == b' ' || b == b'\t'
}

pub fn is_letter(b: u8) -> bool
    ensures { result ≡ is_letter b }
{
    (b'A' <= b && b <= b'Z') || (b'a' <= b && b <= b'z')
}

pub fn is_digit(b: u8) -> bool
    ensures { result ≡ is_digit b }
{
    b'0' <= b && b <= b'9'
}

pub fn is_name_byte(b: u8) -> bool
    ensures { result ≡ is_name_byte b }
{
    is_letter(b) || is_digit(b) || b == b'_'
}

/// `+ - = / # ~ ^ _ :`
pub fn is_sign(b: u8) -> bool
    ensures { result ≡ is_sign b }
{
    b == b'+'
        || b == b'-'
        || b == b'='
        || b == b'/'
        || b == b'#'
        || b == b'~'
        || b == b'^'
        || b == b'_'
        || b == b':'
}

/// Not ASCII: a part of a letter in UTF-8, or a letter of Latin 1.
pub fn is_high(b: u8) -> bool
    ensures { result ≡ is_high b }
{
    128 <= b
}

/// A sign, or not ASCII: a move does not end with the byte.
pub fn is_tail(b: u8) -> bool
    ensures { result ≡ is_tail b }
{
    is_sign(b) || is_high(b)
}

/// Whether a symbol can begin with the byte.
pub fn begins_symbol(b: u8) -> bool
    ensures { result ≡ begins_symbol b }
{
    is_letter(b) || is_digit(b) || is_high(b)
}

pub fn is_symbol_byte(b: u8) -> bool
    ensures { result ≡ is_symbol_byte b }
{
    begins_symbol(b) || is_sign(b)
}

/// `!` or `?`.
pub fn is_glyph(b: u8) -> bool
    ensures { result ≡ is_glyph b }
{
    b == b'!' || b == b'?'
}
