//! Searching the cells of a row, many at once.
ghost use Rattle.std.specs.Prelude.{◌≡◌, ◌≢◌, ◌+◌, ◌*◌, ◌/◌, ◌<◌, ◌≤◌, ◌^◌, ◌&&◌, ◌==◌, ℕ, true, false, length, slice_index};
ghost use Rattle.study_board.specs.Sets.{has};

use study_board::{Square, SquareSet};

/// The number of cells of a row.
const ROW: usize = 64;

/// The number of cells of a row that are compared at once.
const PART: usize = 16;

/// Whether some cell is this byte. The loop has no early exit, so that many cells are compared at once.
#[inline]
fn has_byte(cells: &[u8], byte: u8) -> bool
    ensures { result ≡ false → (i : ℕ) → i < length cells.now → slice_index cells.now i ≢ byte }
{
    let mut found = false;
    for cell in cells {
        if *cell == byte {
            found = true;
        }
    }
    found
}

/// The square if the cell is this byte, otherwise the empty set.
#[inline(always)]
fn square_where(square: Square, cell: u8, byte: u8) -> SquareSet
    ensures { (y : ℕ) → y < 64 → has result y ≡ (cell == byte && square == y) }
{
    if cell == byte {
        SquareSet::of(square)
    } else {
        SquareSet::empty()
    }
}

/// The places of the cells that are this byte, from one place on and before `end`, as squares.
#[inline(always)]
fn squares_among(cells: &[u8], from: usize, end: usize, byte: u8) -> SquareSet
    requires from { from ≤ end }
    requires end { end ≤ length cells.now }
    requires few { length cells.now ≤ 64 }
    ensures here { (y : ℕ) → y < 64 → has result y ≡ true → (y < length cells.now)
        × (slice_index cells.now y ≡ byte) }
    ensures all { (y : ℕ) → from ≤ y → y < end
        → slice_index cells.now y ≡ byte → has result y ≡ true }
{
    let mut set = SquareSet::empty();
    let mut place = from;
    while place < end {
        set = set.union(square_where(Square::at(place as u8), cells[place], byte));
        place += 1;
    }
    set
}

/// The places of the cells that are this byte, as squares. Few parts of the cells have any.
#[inline]
fn squares_with(cells: &[u8], byte: u8) -> SquareSet
    requires { length cells.now ≤ 64 }
    ensures here { (y : ℕ) → y < 64 → has result y ≡ true → (y < length cells.now)
        × (slice_index cells.now y ≡ byte) }
    ensures all { (y : ℕ) → y < length cells.now
        → slice_index cells.now y ≡ byte → has result y ≡ true }
{
    let mut set = SquareSet::empty();
    let mut at = 0usize;
    while at + PART <= cells.len() {
        if has_byte(&cells[at..at + PART], byte) {
            set = set.union(squares_among(cells, at, at + PART, byte));
        }
        at += PART;
    }
    set.union(squares_among(cells, at, cells.len(), byte))
}

/// The places of the cells of a row that are this byte, as squares; a row is 64 cells.
pub fn row_with(cells: &[u8], row: u32, byte: u8) -> SquareSet
    requires row { 64 * row ≤ length cells.now }
    requires small { length cells.now < 2 ^ 32 }
    ensures here { (y : ℕ) → y < 64 → has result y ≡ true → (64 * row + y < length cells.now)
        × (slice_index cells.now (64 * row + y) ≡ byte) }
    ensures all { (y : ℕ) → y < 64 → 64 * row + y < length cells.now
        → slice_index cells.now (64 * row + y) ≡ byte → has result y ≡ true }
{
    let first = (64 * row) as usize;
    let end = cells.len().min(first.saturating_add(ROW));
    squares_with(&cells[first..end], byte)
}

/// The end of the row of a number, or of all numbers if that comes first.
pub fn row_end(number: u32, size: u32) -> u32
    requires { number < size }
    ensures above { number < result }
    ensures within { result ≤ size }
    ensures full { result < size → result ≡ 64 * (number / 64) + 64 }
    ensures row { result ≤ 64 * (number / 64) + 64 }
{
    let rest = 64 - number % 64;
    if size - number <= rest {
        size
    } else {
        number + rest
    }
}
