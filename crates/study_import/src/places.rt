//! Places in a file.
ghost use Rattle.std.specs.Prelude.{◌≡◌, ◌-◌};
ghost use Rattle.study_import.specs.Blocks.{moved_on, place_behind, entry_seen, place_in, text_at, at_most};

/// A line and a column in bytes, each counted from 1. Both saturate.
#[derive(Clone, Copy)]
pub struct Place {
    pub line: u32,
    pub column: u32,
}

/// A game of a file: its number, the number of its first line, and its bytes.
#[derive(Clone, Copy)]
pub struct Entry<'t> {
    pub number: u32,
    pub line: u32,
    pub text: &'t [u8],
}

fn moved_on(place: Place, byte: u8) -> Place
    ensures { result ≡ moved_on place byte }
{
    if byte == b'\n' {
        Place {
            line: place.line.saturating_add(1),
            column: 1,
        }
    } else {
        Place {
            line: place.line,
            column: place.column.saturating_add(1),
        }
    }
}

/// The place after a text that begins at a place.
fn place_behind(place: Place, text: &[u8]) -> Place
    ensures { result ≡ place_behind place text.now }
{
    let mut at = place;
    let mut rest = text;
    while let [first, more @ ..] = rest {
        at = moved_on(at, *first);
        rest = more;
    }
    at
}

/// The place in the game with so many bytes left.
pub fn place_in(entry: &Entry<'_>, left: usize) -> Place
    ensures { result ≡ place_in (entry_seen entry.now) left }
{
    let text = entry.text;
    let (before, _) = text.split_at(text.len().saturating_sub(left));
    let first = Place {
        line: entry.line,
        column: 1,
    };
    place_behind(first, before)
}

/// The text from such a place on.
pub fn text_at<'t>(entry: &Entry<'t>, left: usize) -> &'t [u8]
    ensures { result.now ≡ text_at (entry_seen entry.now) left }
{
    let text = entry.text;
    let (_, behind) = text.split_at(text.len().saturating_sub(left));
    behind
}

/// A count as a u32; it saturates.
pub fn at_most(n: usize) -> u32
    ensures { result ≡ at_most n }
{
    if n <= 4_294_967_295 {
        n as u32
    } else {
        4_294_967_295
    }
}
