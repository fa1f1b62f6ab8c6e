//! Chess, as the builder sees it: the positions of a class by their numbers, and the values of the positions that it leads to.
ghost use Rattle.std.specs.Prelude.{◌≡◌, true, false, IsTrue, IfSome, Some};
ghost use Rattle.study_moves.specs.Rules.{after, is_legal};
ghost use Rattle.study_moves.specs.Unmoves.{IsQuiet};
ghost use Rattle.study_moves.specs.EnPassant.{has_legal_en_passant};
ghost use Rattle.study_index.specs.Computed.{position_numbered};
ghost use Rattle.study_values.specs.Index.{index_of};
ghost use Rattle.study_table.specs.Table.{IsReady, IsClosed};

use crate::captures::captures_and_promotions;
use crate::numbers::en_passant::{
    may_allow_en_passant, predecessor_numbers, squares_without_en_passant,
};
use crate::numbers::predecessors::CellWrite;
use crate::numbers::quiet::starts_undecided;
use crate::rows::levels::{lost_one_by_one, lower_one_by_one, mark_one_by_one};
use crate::rows::predecessors::write_before_row;
use crate::rows::quiet::quiet_squares_in_row;
use crate::rows::quiet_moves::lost_in_row_without_en_passant;
use arrayvec::ArrayVec;
use std::alloc::Allocator;
use study_board::{Position, SquareSet, is_occupied};
use study_index::{decode, index, index_after_move};
use study_levels::{
    Game, Initial, LabelledGame, LevelCells, LevelGame, Location, initial_by_moves, label,
};
use study_material::{Class, class_of};
use study_moves::{Move, MoveList, is_mate, legal_moves, played};
use study_table::TableSet;
use study_values::{EN_PASSANT_BIT, Value, cells, value_at};

/// A class whose needed tables are loaded.
#[derive(Drop)]
pub struct ClassGame<'t, 'a, A: Allocator> {
    pub class: Class,
    pub tables: &'t TableSet<'a, A>,
    ghost ready: { IsReady tables.now class },
    ghost closed: { IsClosed tables.now },
}

impl<'t, 'a, A: Allocator> Game for ClassGame<'t, 'a, A> {
    ghost use Rattle.study_retro.specs.ClassGame.{class_game};

    type Position = Position;

    ghost numbered = { λ g. class_game g.class g.tables.now };

    fn cells(&self) -> u32 {
        cells(self.class)
    }

    fn decode(&self, number: u32) -> Option<Position> {
        decode(self.class, number)
    }

    fn moves(&self, at: &Position) -> MoveList {
        legal_moves(at)
    }

    fn played(&self, at: &Position, by: Move) -> Position {
        played(at, by)
    }

    fn conversions(&self, at: &Position) -> MoveList {
        if has_passed(at) {
            return legal_moves(at);
        }
        captures_and_promotions(at)
    }

    fn may_convert(&self, at: &Position, by: Move) -> bool {
        by.promoted.is_some() || at.passed().is_some() || at.man_at(by.target).is_some()
    }

    fn earlier(&self, number: u32) -> ArrayVec<u32, 384> {
        match decode(self.class, number) {
            None => ArrayVec::new(),
            Some(at) => predecessor_numbers(self.class, &at, number),
        }
    }

    fn is_mate(&self, at: &Position) -> bool {
        is_mate(at)
    }

    fn place(&self, at: &Position) -> Location {
        let (class, _) = class_of(at);
        if class == self.class {
            return Location::Cell(index(at));
        }
        match self.tables.table(class) {
            Some(table) => Location::Outside(table.at(at)),
            None => unreachable!(),
        }
    }
}

/// Whether the move captures no man and promotes none, if no capture in passing is legal.
#[inline]
fn is_quiet(at: &Position, by: &Move) -> bool
    ensures { IsTrue result → IsQuiet at.now by.now }
{
    let _target = by.target.number();
    by.promoted.is_none() && !is_occupied(at.men(), by.target.number())
}

/// Whether a square is passed.
#[inline]
fn has_passed(at: &Position) -> bool
    ensures { result ≡ false → at.now.passed ≡ None }
{
    at.passed().is_some()
}

/// The number of the position after a move that captures no man and promotes none, if no capture in passing is legal before it or after it.
#[inline]
fn number_after(class: Class, number: u32, at: &Position, by: &Move) -> Option<u32>
    requires at { position_numbered class number ≡ Some at.now }
    requires by { is_legal at.now by.now ≡ true }
    ensures { IfSome result (λ n. (has_legal_en_passant at.now ≡ false) × IsQuiet at.now by.now
        × (index_of (after at.now by.now) ≡ n)) }
{
    if may_allow_en_passant(class, by.origin, by.target) || has_passed(at) {
        return None;
    }
    if is_quiet(at, by) {
        Some(index_after_move(class, number, by.origin, by.target))
    } else {
        None
    }
}

impl<'t, 'a, A: Allocator> LabelledGame for ClassGame<'t, 'a, A> {
    fn label_after(&self, cells: &[u8], number: u32, at: &Position, by: &Move) -> Value {
        match number_after(self.class, number, at, by) {
            Some(next) => value_at(cells[next as usize]),
            None => {
                let to = played(at, *by);
                label(self, cells, &to)
            }
        }
    }
}

impl<'t, 'a, A: Allocator> LevelGame for ClassGame<'t, 'a, A> {
    fn first(&self, number: u32) -> Initial {
        if starts_undecided(self.class, number) {
            return Initial {
                cell: 0,
                far: false,
            };
        }
        initial_by_moves(self, number)
    }

    fn undecided_in_row(&self, row: u32) -> SquareSet {
        if row >= EN_PASSANT_BIT / 64 {
            return squares_without_en_passant(self.class, row - EN_PASSANT_BIT / 64);
        }
        quiet_squares_in_row(self.class, row)
    }

    fn lower_before<B: Allocator>(
        &self,
        cells: &mut LevelCells<'_, B>,
        row: u32,
        decided: SquareSet,
        level: u8,
    ) -> u64 {
        if row >= EN_PASSANT_BIT / 64 {
            return lower_one_by_one(self, cells, row, decided, level);
        }
        let change = CellWrite {
            cell: level + 2,
            over: true,
        };
        write_before_row(self.class, cells, row, decided, change)
    }

    fn mark_before<B: Allocator>(
        &self,
        cells: &mut LevelCells<'_, B>,
        row: u32,
        decided: SquareSet,
        level: u8,
    ) -> u64 {
        if row >= EN_PASSANT_BIT / 64 {
            return mark_one_by_one(self, cells, row, decided, level);
        }
        let change = CellWrite {
            cell: level + 2,
            over: false,
        };
        write_before_row(self.class, cells, row, decided, change)
    }

    fn lost_in_row(&self, cells: &[u8], row: u32, candidates: SquareSet, level: u8) -> SquareSet {
        if row >= EN_PASSANT_BIT / 64 {
            return lost_one_by_one(self, cells, row, candidates, level);
        }
        lost_in_row_without_en_passant(self, cells, row, candidates, level)
    }
}
