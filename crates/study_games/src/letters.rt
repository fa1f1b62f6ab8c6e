//! Letters of characters of three bytes: figurines and dashes.
ghost use Rattle.std.specs.Prelude.{◌≡◌, ◌≤◌};
ghost use Rattle.std.specs.Option.{option_map};
ghost use Rattle.study_games.specs.Symbols.{is_figurine, figurine_kind, kind_letter, is_hyphen, letter_at, spells};

/// Whether three bytes are a king, queen, rook, bishop, knight or pawn in UTF-8.
pub fn is_figurine(a: u8, b: u8, c: u8) -> bool
    ensures { result ≡ is_figurine a b c }
{
    a == 0xe2 && b == 0x99 && 0x94 <= c && c <= 0x9f
}

/// Whether three bytes are a hyphen, one that does not break, a figure dash, an en dash or a minus sign in UTF-8.
fn is_hyphen(a: u8, b: u8, c: u8) -> bool
    ensures { result ≡ is_hyphen a b c }
{
    a == 0xe2 && ((b == 0x80 && 0x90 <= c && c <= 0x93) || (b == 0x88 && c == 0x92))
}

/// The letter of a figurine's kind, by the last byte of the figurine.
fn kind_letter(c: u8) -> u8
    requires { 148 ≤ c }
    ensures { result ≡ kind_letter (figurine_kind c) }
{
    let kind = if c >= 154 { c - 154 } else { c - 148 };
    if kind == 0 {
        b'K'
    } else if kind == 1 {
        b'Q'
    } else if kind == 2 {
        b'R'
    } else if kind == 3 {
        b'B'
    } else if kind == 4 {
        b'N'
    } else {
        b'P'
    }
}

/// The first byte, or the letter of a figurine or `-` for a dash at the front, and the rest.
pub fn read_letter(text: &[u8]) -> Option<(u8, &[u8])>
    ensures { option_map (λ found. (found.0, found.1.now)) result ≡ letter_at text.now }
{
    match text {
        [a, b, c, rest @ ..] if is_hyphen(*a, *b, *c) => Some((b'-', rest)),
        [a, b, c, rest @ ..] if is_figurine(*a, *b, *c) => Some((kind_letter(*c), rest)),
        [b, rest @ ..] => Some((*b, rest)),
        [] => None,
    }
}

/// Whether the symbol is the text, with any dash for `-`.
pub fn spells(symbol: &[u8], text: &[u8]) -> bool
    ensures { result ≡ spells symbol.now text.now }
{
    let mut rest = symbol;
    let mut left = text;
    while let Some((letter, behind)) = read_letter(rest) {
        match left {
            [first, more @ ..] if *first == letter => left = more,
            _ => return false,
        }
        rest = behind;
    }
    left.is_empty()
}
