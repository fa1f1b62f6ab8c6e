//! Tables of values.
ghost use Rattle.std.specs.Prelude.{◌≡◌, ◌<◌, length, slice_index, vec_len};
ghost use Rattle.study_values.specs.Number.{cells_of};
ghost use Rattle.study_material.specs.Class.{IsOf};
ghost use Rattle.study_values.specs.Index.{index_of};
ghost use Rattle.study_values.specs.Cells.{distance_of, value_of};
ghost use Rattle.study_table.specs.Table.{Table as Seen, IsComplete};
ghost use Rattle.study_values.specs.Game.{IsValueOf};
ghost use Rattle.study_table.specs.Sound.{IsRight};

use std::alloc::Allocator;
use std::marker::Model;
use study_board::Position;
use study_index::index;
use study_material::Class;
use study_values::{Value, value_at};

/// The values of the positions of a class: one byte, a cell, for each number of the class.
#[derive(Drop)]
pub struct Table<'a, A: Allocator> {
    class: Class,
    cells: Vec<u8, &'a A>,
}

impl<'a, A: Allocator> Model for Table<'a, A> {
    ghost use Rattle.study_table.specs.Table.{Table as Seen, IsComplete};

    ghost Value = { Seen };

    ghost view = { λ t. record { class = t.class; cells = t.cells.items } };

    ghost invariant = { λ t. IsComplete (record { class = t.class; cells = t.cells.items }) };
}

impl<'a, A: Allocator> Table<'a, A> {
    /// The table with these cells, whatever they encode.
    pub fn from_cells(class: Class, cells: Vec<u8, &'a A>) -> Self
        requires { vec_len cells ≡ cells_of class }
        ensures { result ≡ record { class = class; cells = cells.entry.items } }
    {
        Table { class, cells }
    }

    /// The class of the table.
    pub fn class(&self) -> Class
        ensures value { result ≡ self.now.class }
        ensures complete { IsComplete self.now }
    {
        self.class
    }

    /// The cells in the order of their numbers. A cell is 0 for a draw or a number without a position, otherwise the distance to mate in plies plus one: an
    /// odd distance is a win of the side to move, an even one a loss.
    pub fn cells(&self) -> &[u8]
        ensures value { result.now ≡ self.now.cells }
        ensures size { length result.now ≡ cells_of self.now.class }
    {
        self.cells.as_slice()
    }

    /// The table's value of a position of its class, which may have a passed square.
    pub fn at(&self, p: &Position) -> Value
        requires { IsOf self.now.class p.now }
        ensures reported { result ≡ value_of (slice_index self.now.cells (index_of p.now)) }
        ensures right { IsRight self.now → IsValueOf p.now result }
        ensures near { distance_of result < 255 }
    {
        let _men = p.men();
        let cell = self.cells.as_slice()[index(p) as usize];
        value_at(cell)
    }
}
