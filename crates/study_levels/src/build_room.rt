//! The memory that a build uses.
ghost use Rattle.std.specs.Prelude.{◌≡◌, IfOk, All, length, vec_len};

use crate::level_cells::LevelCells;
use std::alloc::{AllocError, Allocator};
use std::marker::Model;

/// All the memory that a build uses: a byte for each cell and one for each row of 64 cells, all of them 0.
#[derive(Drop)]
pub struct BuildRoom<'a, A: Allocator> {
    cells: Vec<u8, &'a A>,
    rows: Vec<u8, &'a A>,
}

impl<'a, A: Allocator> Model for BuildRoom<'a, A> {
    ghost use Rattle.std.specs.Prelude.{ℕ, vec_len};
    ghost use Rattle.study_levels.specs.Due.{IsRoom};

    ghost Value = { ℕ };

    ghost view = { λ r. vec_len r.cells };

    ghost invariant = { λ r. IsRoom r.cells.items r.rows.items };
}

impl<'a, A: Allocator> BuildRoom<'a, A> {
    /// Room for a table with so many cells.
    pub fn new(alloc: &'a A, cells: u32) -> Result<Self, AllocError>
        ensures { IfOk result (λ room. room ≡ cells) }
    {
        let rows = zeros(alloc, cells / 64 + 1)?;
        let cells = zeros(alloc, cells)?;
        Ok(BuildRoom { cells, rows })
    }

    /// The number of cells for which there is room.
    pub fn cells(&self) -> u32
        ensures { result ≡ self.now }
    {
        self.cells.len() as u32
    }

    /// The cells, with a byte for each row.
    pub fn into_cells(self) -> LevelCells<'a, A>
        ensures len { length result ≡ self.entry }
        ensures zero { All (λ c. c ≡ 0) result }
    {
        let BuildRoom { cells, rows } = self;
        LevelCells::new(cells, rows)
    }
}

/// So many zero bytes.
fn zeros<'a, A: Allocator>(alloc: &'a A, count: u32) -> Result<Vec<u8, &'a A>, AllocError>
    ensures len { IfOk result (λ v. vec_len v ≡ count) }
    ensures zero { IfOk result (λ v. All (λ c. c ≡ 0) v.items) }
{
    vec![in alloc; 0; count as usize]
}
