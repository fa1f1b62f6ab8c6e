//! The cells of a table while its levels are filled, with the rows that have a mate to come.
ghost use Rattle.std.specs.Prelude.{◌≡◌, ◌≢◌, ◌+◌, ◌*◌, ◌^◌, ◌<◌, ◌≤◌, ℕ, false, length, slice_index, slice_set, vec_len};

use std::alloc::Allocator;
use std::marker::Model;

/// The number of cells of a row, and the number of rows that are passed over at once.
const BLOCK: usize = 64;

/// What is due in a row that has no mate to come.
const NEVER: u8 = 255;

/// The cells of a table in rows of 64, while the levels fill them, with the rows that each level has to look at. A row that is looked at too early is
/// harmless, since its cells are read then.
#[derive(Drop)]
pub struct LevelCells<'a, A: Allocator> {
    cells: Vec<u8, &'a A>,
    /// For each row a number of plies: no mate to come in it is shorter.
    due: Vec<u8, &'a A>,
    /// A mate is to come if it is of so many plies or more.
    level: u8,
    /// In so many first rows, which this level has looked at, it is to come if it is of more plies than that.
    looked: u32,
}

impl<'a, A: Allocator> Model for LevelCells<'a, A> {
    ghost use Rattle.std.specs.Prelude.{ℕ, List};
    ghost use Rattle.study_levels.specs.Due.{AreInRows};

    ghost Value = { List ℕ };

    ghost view = { λ c. c.cells.items };

    ghost invariant = { λ c. AreInRows c.level c.looked c.cells.items c.due.items };
}

impl<'a, A: Allocator> LevelCells<'a, A> {
    /// Cells with a byte for each row, whatever the bytes are.
    pub fn new(cells: Vec<u8, &'a A>, due: Vec<u8, &'a A>) -> Self
        requires small { vec_len cells < 2 ^ 32 }
        requires rows { vec_len cells ≤ 64 * vec_len due }
        ensures { result ≡ cells.entry.items }
    {
        LevelCells {
            cells,
            due,
            level: NEVER,
            looked: 0,
        }
    }

    /// The cells.
    #[inline]
    pub fn as_slice(&self) -> &[u8]
        ensures { result.now ≡ self.now }
    {
        self.cells.as_slice()
    }

    /// The cells alone.
    pub fn into_cells(self) -> Vec<u8, &'a A>
        ensures len { vec_len result ≡ length self.entry }
        ensures value { result.items ≡ self.entry }
    {
        let LevelCells { cells, .. } = self;
        cells
    }

    /// Sets all cells to 0, before the first level.
    pub fn clear(&mut self)
        ensures size { length self.new ≡ length self.old }
        ensures zero { (i : ℕ) → slice_index self.new i ≡ 0 }
    {
        self.cells.as_mut_slice().fill(0);
        self.due.as_mut_slice().fill(NEVER);
        self.level = 0;
        self.looked = 0;
    }

    /// Writes a cell, and makes its row due by then.
    #[inline]
    pub fn set(&mut self, number: u32, cell: u8)
        requires { number < length self.old }
        ensures { self.new ≡ slice_set self.old number cell }
    {
        self.cells[number as usize] = cell;
        let row = (number / 64) as usize;
        if cell != 0 && cell - 1 < self.due[row] {
            self.due[row] = cell - 1;
        }
    }

    /// The number of rows.
    pub fn rows(&self) -> u32
        ensures all { length self.now ≤ 64 * result }
        ensures few { 64 * result < length self.now + 64 }
    {
        ((self.cells.len() + 63) / 64) as u32
    }

    /// The first row, from one on, that may have this byte; if there is none, the number of rows.
    pub fn next_due_row(&self, from: u32, byte: u8) -> u32
        requires { 64 * from < length self.now + 64 }
        ensures above { from ≤ result }
        ensures within { 64 * result < length self.now + 64 }
        ensures none { (i : ℕ) → 64 * from ≤ i → i < 64 * result → slice_index self.now i ≢ byte }
    {
        if byte <= level_from(self.level, self.looked, from) {
            return from;
        }
        let row = next_below(self.due.as_slice(), from as usize, byte);
        row.min(self.rows() as usize) as u32
    }

    /// Whether some cell may have a mate in `level` plies or more.
    pub fn has_longer_mate(&self, level: u8) -> bool
        requires { level < 255 }
        ensures none { result ≡ false → (i : ℕ) → slice_index self.now i ≤ level }
        ensures bytes { (i : ℕ) → slice_index self.now i ≤ 255 }
    {
        level < level_from(self.level, self.looked, 0) || has_below(self.due.as_slice(), NEVER)
    }

    /// Ends the level's look at a row: it is due again when the next longer mate in it is.
    pub fn look_at(&mut self, row: u32)
        requires { 64 * row < length self.old }
        ensures { self.new ≡ self.old }
    {
        let len = self.cells.len();
        let start = (64 * row) as usize;
        let end = len.min(start.saturating_add(BLOCK));
        let level = self.level.saturating_add(1);
        self.due[row as usize] = least_above(&self.cells.as_slice()[start..end], level);
        self.looked = self.looked.max(row + 1);
    }

    /// Begins a level: shorter mates are no longer to come.
    pub fn raise(&mut self, level: u8)
        ensures same { self.new ≡ self.old }
        ensures bytes { (i : ℕ) → slice_index self.new i ≤ 255 }
    {
        if self.level < level {
            self.level = level;
            self.looked = 0;
        }
    }
}

/// A level above which cells are to come in all rows from one on, whether or not this level has looked at them.
#[inline]
fn level_from(level: u8, looked: u32, from: u32) -> u8
    ensures all { level ≤ result }
    ensures looked { from < looked → level < 255 → level < result }
{
    if from < looked {
        level.saturating_add(1)
    } else {
        level
    }
}

/// Whether some byte is below this one. The loop has no early exit, so that many bytes are compared at once.
#[inline]
fn has_below(bytes: &[u8], byte: u8) -> bool
    ensures { result ≡ false → (i : ℕ) → i < length bytes.now → byte ≤ slice_index bytes.now i }
{
    let mut found = false;
    for each in bytes {
        if *each < byte {
            found = true;
        }
    }
    found
}

/// The first place, from one on, of a byte below this one; if there is none, their number. Blocks without any are passed over.
fn next_below(bytes: &[u8], from: usize, byte: u8) -> usize
    requires from { from ≤ length bytes.now }
    ensures above { from ≤ result }
    ensures within { result ≤ length bytes.now }
    ensures none { (i : ℕ) → from ≤ i → i < result → byte ≤ slice_index bytes.now i }
{
    let mut at = from;
    while at + BLOCK <= bytes.len() && !has_below(&bytes[at..at + BLOCK], byte) {
        at += BLOCK;
    }
    while at < bytes.len() && bytes[at] >= byte {
        at += 1;
    }
    at
}

/// The least distance that cells above this byte encode.
#[inline]
fn least_above(cells: &[u8], byte: u8) -> u8
    ensures { (i : ℕ) → i < length cells.now → byte < slice_index cells.now i
        → result < slice_index cells.now i }
{
    let mut least = NEVER;
    for cell in cells {
        let distance = if *cell > byte { *cell - 1 } else { NEVER };
        least = least.min(distance);
    }
    least
}
