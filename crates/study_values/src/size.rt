//! The number of cells in the table of a class, and of bytes in its file.
ghost use Rattle.std.specs.Prelude.{◌≡◌, ◌+◌, ◌*◌};
ghost use Rattle.study_values.specs.Number.{cells_of};
ghost use Rattle.study_values.specs.Size.{pages_of};

use study_material::Class;

/// Added to the number of a position if a capture in passing is legal.
pub const EN_PASSANT_BIT: u32 = 16_777_216;

/// Cells of a page.
pub const PAGE_CELLS: usize = 4096;

/// Bytes of a page: its cells and their SHA-256.
pub const PAGE_BYTES: usize = 4128;

/// Bytes of a header: its fields and their SHA-256.
pub const HEADER_BYTES: usize = 64;

/// The number of cells for positions of the class.
pub fn cells(class: Class) -> u32
    ensures { result ≡ cells_of class }
{
    use Class::*;
    match class {
        KK => 1_280,
        KQK | KRK | KBK | KNK => 81_920,
        KPK => 262_144,
        KQPK | KRPK | KBPK | KNPK | KPPK | KQKP | KRKP | KBKP | KNKP => EN_PASSANT_BIT,
        KPKP => 2 * EN_PASSANT_BIT,
        _ => 5_242_880,
    }
}

/// The number of pages of a class.
#[tactic(auto, using(crate::proofs::ClassBounds::few_cells), unfolding(crate::specs::Size::pages_of))]
pub fn pages(class: Class) -> u32
    ensures { result ≡ pages_of class }
{
    cells(class).div_ceil(PAGE_CELLS as u32)
}

/// The number of bytes in the file of a class.
#[tactic(auto, using(crate::proofs::ClassBounds::few_cells), unfolding(crate::specs::Size::pages_of))]
pub fn file_size(class: Class) -> u32
    ensures { result ≡ 64 + 4128 * pages_of class }
{
    HEADER_BYTES as u32 + PAGE_BYTES as u32 * pages(class)
}
