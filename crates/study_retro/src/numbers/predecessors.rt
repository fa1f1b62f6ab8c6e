//! Steps back from a decided position by the squares that its number encodes, if no capture in passing is legal.
ghost use Rattle.std.specs.Prelude.{◌≡◌, ◌<◌, ℕ, length, Some, Contains};
ghost use Rattle.study_board.specs.Position.{Position as Seen};
ghost use Rattle.study_moves.specs.Unmoves.{CanHaveLed, move_from};
ghost use Rattle.study_values.specs.Number.{cells_of};
ghost use Rattle.study_index.specs.Computed.{position_numbered};
ghost use Rattle.study_retro.specs.Predecessors.{AreEncoded, IsBeforeFrom, IsBeforeBy, IsBefore};
ghost use Rattle.study_levels.specs.Propagation.{AreSet, IsSetWhere};

use crate::mover::Mover;
use crate::numbers::en_passant::{has_en_passant, leads_to_number_from};
use std::alloc::Allocator;
use study_board::{Man, Square};
use study_index::{IndexAfterMove, decode_men};
use study_levels::{LevelCells, lower_cell, mark_cell};
use study_material::Class;
use study_moves::unmove_origins;
use study_values::EN_PASSANT_BIT;

/// The value to write to a predecessor's cell; it replaces 0, and, if `over`, also any larger value.
#[derive(Clone, Copy)]
pub struct CellWrite {
    pub cell: u8,
    pub over: bool,
}

/// Sets a cell, unless it has a mate already, or, if `over`, one as near.
#[inline]
pub fn write_cell<A: Allocator>(cells: &mut LevelCells<'_, A>, number: u32, change: CellWrite)
    requires number { number < length cells.old }
    requires cell { 0 < change.cell }
    ensures size { length cells.new ≡ length cells.old }
    ensures rise { AreSet (λ i. i ≡ number) change.cell change.over cells.old cells.new }
    ensures done { IsSetWhere change.cell change.over cells.new number }
{
    if change.over {
        lower_cell(cells, number, change.cell);
    } else {
        mark_cell(cells, number, change.cell);
    }
}

/// Sets the cells of the positions from which a quiet move of the man, from the square, leads to the position that the departure goes back from.
#[inline]
pub fn write_from<A: Allocator>(
    class: Class,
    cells: &mut LevelCells<'_, A>,
    man: &Man,
    departure: &IndexAfterMove,
    origin: Square,
    change: CellWrite,
)
    // Many clauses: what the caller has already found of the numbers is required, fact by fact.
    requires class { departure.now.class ≡ class }
    requires from { departure.now.from ≡ man.now.at }
    requires numbered { (q : Seen) × (position_numbered class departure.now.number ≡ Some q) }
    requires plain { departure.now.number < 16777216 }
    requires led { (q : Seen) → position_numbered class departure.now.number ≡ Some q
        → CanHaveLed q (move_from man.now origin) }
    requires cell { 0 < change.cell }
    requires cells { length cells.old ≡ cells_of class }
    ensures size { length cells.new ≡ length cells.old }
    ensures rise { AreSet (IsBeforeFrom class departure.now.number man.now origin) change.cell
        change.over cells.old cells.new }
    ensures done { (n : ℕ) → IsBeforeFrom class departure.now.number man.now origin n
        → IsSetWhere change.cell change.over cells.new n }
{
    if !leads_to_number_from(class, departure.number, man, origin) {
        return;
    }
    let before = departure.number_to(origin);
    write_cell(cells, before, change);
    if has_en_passant(class, before) {
        write_cell(cells, before + EN_PASSANT_BIT, change);
    }
}

/// Sets the cells of the positions from which a quiet move of the man leads to the position of this number, and returns the number of these positions.
#[inline]
pub fn write_before_man<A: Allocator>(
    class: Class,
    cells: &mut LevelCells<'_, A>,
    number: u32,
    mover: Mover<'_>,
    slot: u32,
    change: CellWrite,
) -> u64
    requires numbered { (q : Seen) × (position_numbered class number ≡ Some q) }
    requires plain { number < 16777216 }
    requires encodes { AreEncoded class number mover.setup.now.men.items mover.setup.now.to_move }
    requires man { Contains mover.setup.now.men.items mover.man.now }
    requires cell { 0 < change.cell }
    requires cells { length cells.old ≡ cells_of class }
    ensures size { length cells.new ≡ length cells.old }
    ensures rise { AreSet (IsBeforeBy class number mover.entry.man.now) change.cell
        change.over cells.old cells.new }
    ensures done { (n : ℕ) → IsBeforeBy class number mover.entry.man.now n
        → IsSetWhere change.cell change.over cells.new n }
{
    let (setup, man) = (mover.setup, mover.man);
    if man.side != setup.to_move.other() {
        return 0;
    }
    let all = unmove_origins(setup.men.as_slice(), setup.to_move, man);
    let departure = IndexAfterMove::new(class, number, man.at, slot);
    for origin in all {
        write_from(class, cells, man, &departure, origin, change);
    }
    u64::from(all.len())
}

/// Sets the cells of the positions from which a quiet move leads to the position of this number, and returns the number of these positions.
pub fn write_before<A: Allocator>(
    class: Class,
    cells: &mut LevelCells<'_, A>,
    number: u32,
    change: CellWrite,
) -> u64
    requires numbered { (q : Seen) × (position_numbered class number ≡ Some q) }
    requires plain { number < 16777216 }
    requires cell { 0 < change.cell }
    requires cells { length cells.old ≡ cells_of class }
    ensures size { length cells.new ≡ length cells.old }
    ensures rise { AreSet (IsBefore class number) change.cell change.over cells.old cells.new }
    ensures done { (n : ℕ) → IsBefore class number n
        → IsSetWhere change.cell change.over cells.new n }
{
    let setup = decode_men(class, number);
    let mut count = 0u64;
    for (slot, man) in setup.men.as_slice().iter().enumerate() {
        let mover = Mover { setup: &setup, man };
        let more = write_before_man(class, cells, number, mover, slot as u32, change);
        count = count.saturating_add(more);
    }
    count
}
