//! The row of the numbers after one man, not the last, moves from its square to any other: the common part of the moves is computed once for all the numbers
//! of a row. Also the row after the last man moves.
ghost use Rattle.std.specs.Prelude.{◌≡◌, ℕ, ◌+◌, ◌*◌, ◌/◌, ◌%◌, ◌^◌, ◌-◌, ◌<◌, ◌≤◌, IfSome};
ghost use Rattle.study_board.specs.Men.{other_side};
ghost use Rattle.study_board.specs.Position.{Position as Seen};
ghost use Rattle.study_values.specs.Index.{index_of};
ghost use Rattle.study_values.specs.Number.{cells_of, king_places, side_number};
ghost use Rattle.study_index.specs.Decoded.{side_numbered};
ghost use Rattle.study_index.specs.Moved.{IsMoved};
ghost use Rattle.study_index.specs.LeastImage.{turned_by};
ghost use Rattle.study_index.specs.Stepped.{square_weight, square_of_slot};
ghost use Rattle.study_index.specs.RowDeparture.{IsRowFoundBy, IsRowOfKing};

use crate::canonical::{is_on_diagonal, least_image};
use crate::decoding::{head, slots};
use crate::departure::{is_canonical_as_is, is_slot_square};
use crate::index_arithmetic::{square_of_slot, square_weight, with_side_swapped};
use crate::moved_index::index_after_step;
use crate::numbering::{king_places, place, side_number};
use crate::row_index_rule::{RowIndexRule, RowIndexTerms};
use crate::slot_men::{class_has_pawn, has_like_men, side_of_number};
use study_board::Square;
use study_material::Class;
use study_values::EN_PASSANT_BIT;

/// The numbers of a row, which differ only in the square of the last man, and the square of one of their other men. The common part of the rows
/// after the man has moved is computed once.
#[derive(Clone, Copy)]
pub struct RowIndexAfterMove {
    pub class: Class,
    pub row: u32,
    pub from: Square,
    way: RowIndexRule,
    ghost cell: { 64 * row < cells_of class },
    ghost found: { IsRowFoundBy class row from way },
}

/// The row of the numbers with the other side to move and without the man of a slot after the first and before the last.
#[inline(always)]
fn terms_of(pawns: bool, count: u32, n: u32, slot: u32) -> RowIndexTerms
    requires many { count ≤ 4 }
    requires number { n < 16777216 }
    requires after { 1 ≤ slot }
    requires before { slot + 1 < count }
    ensures rest { result.rest
        ≡ (turned_by (king_places pawns) count n - square_of_slot count slot n
        * square_weight count slot) / 64 }
    ensures weight { result.weight ≡ square_weight count slot / 64 }
{
    let weight = square_weight(count, slot);
    let left = square_of_slot(count, slot, n) * weight;
    RowIndexTerms {
        rest: with_side_swapped(pawns, count, n).saturating_sub(left) / 64,
        weight: weight / 64,
    }
}

/// The row of the numbers with the other side to move and without the white king.
#[inline(always)]
fn terms_of_king(pawns: bool, count: u32, head: u32, row: u32) -> RowIndexTerms
    requires few { 2 ≤ count }
    requires many { count ≤ 4 }
    ensures rest { result.rest
        ≡ side_number (other_side (side_numbered (head / king_places pawns)))
        * king_places pawns * 64 ^ (count - 2)
        + row % 64 ^ (count - 2) }
    ensures weight { result.weight ≡ 64 ^ (count - 2) }
{
    let side = side_number(side_of_number(pawns, head).other()) * king_places(pawns);
    let weight = match count {
        2 => 1,
        3 => 64,
        _ => 4_096,
    };
    RowIndexTerms {
        rest: side * weight + row % weight,
        weight,
    }
}

/// How to compute the numbers of the row after a move of the man on the square, if it is the man of the slot, before the last.
#[inline(always)]
fn way_from(class: Class, row: u32, from: Square, slot: u32) -> Option<RowIndexRule>
    requires { 64 * row < cells_of class }
    ensures { IfSome result (λ w. IsRowFoundBy class row from w) }
{
    let (slots, pawns) = (slots(class), class_has_pawn(class));
    let n = 64 * row % EN_PASSANT_BIT;
    let count = slots.len() as u32;
    if slot >= count - 1 || !is_slot_square(slots, pawns, n, slot, from) {
        return None;
    }
    if slot == 0 {
        let terms = terms_of_king(pawns, count, head(slots, n), n / 64);
        return Some(RowIndexRule::King(terms));
    }
    let terms = terms_of(pawns, count, n, slot);
    if is_canonical_as_is(class, slots, pawns, n) {
        Some(RowIndexRule::Sum(terms))
    } else {
        Some(RowIndexRule::LeastImage(terms))
    }
}

/// The row with the white king on the square, if there is one: the square must be listed, and not on the diagonal if no man is a pawn.
#[inline(always)]
fn row_of_king(pawns: bool, terms: RowIndexTerms, to: Square) -> Option<u32>
    ensures value { IfSome result (λ r. IsRowOfKing pawns terms to r) }
    ensures on_board { to < 64 }
    ensures small { IfSome result (λ r. r < 1048576) }
{
    let _square = to.number();
    match place(pawns, to) {
        Some(q) if pawns || !is_on_diagonal(u32::from(q)) => Some(terms.with(u32::from(q))),
        _ => None,
    }
}

impl RowIndexAfterMove {
    /// The departure of the man that stands on the square by the numbers of the row, which begin at 64 times the row. `None` if the slot, counted
    /// from 0, is not the man's, or is the last.
    #[inline(always)]
    pub fn new(class: Class, row: u32, from: Square, slot: u32) -> Option<Self>
        requires { 64 * row < cells_of class }
        ensures class { IfSome result (λ d. d.class ≡ class) }
        ensures row { IfSome result (λ d. d.row ≡ row) }
        ensures from { IfSome result (λ d. d.from ≡ from) }
    {
        match way_from(class, row, from, slot) {
            Some(way) => Some(RowIndexAfterMove {
                class,
                row,
                from,
                way,
            }),
            None => None,
        }
    }

    /// The row of the numbers after the man has moved to another square, each with the last man in place: the results of `IndexAfterMove::number_to`.
    /// `None` if two men are like; if the man is the white king and the square is not listed, or is on the diagonal and no man is a pawn; or if it is
    /// another man and the king is on the diagonal.
    #[inline(always)]
    pub fn row_to(&self, to: Square) -> Option<u32>
        ensures numbers { IfSome result (λ r. (y : ℕ) (p : Seen) → y < 64
            → IsMoved self.now.class (64 * self.now.row + y) self.now.from to p
            → index_of p ≡ 64 * r + y) }
        ensures small { IfSome result (λ r. r < 1048576) }
    {
        match self.way {
            RowIndexRule::Sum(terms) => Some(terms.with(u32::from(to.number()))),
            RowIndexRule::LeastImage(_) => None,
            RowIndexRule::King(terms) => {
                if has_like_men(self.class) {
                    None
                } else {
                    row_of_king(class_has_pawn(self.class), terms, to)
                }
            }
        }
    }

    /// The number of the row's position with the last man on its square, after the man has moved to another square: the result of `IndexAfterMove::number_to`.
    #[inline(always)]
    pub fn number_to(&self, to: Square, last: Square) -> u32
        ensures { (p : Seen)
            → IsMoved self.now.class (64 * self.now.row + last) self.now.from to p
            → index_of p ≡ result }
    {
        let class = self.class;
        let place = u32::from(last.number());
        match self.way {
            RowIndexRule::Sum(terms) => 64 * terms.with(u32::from(to.number())) + place,
            RowIndexRule::LeastImage(terms) => least_image(
                class_has_pawn(class),
                has_like_men(class),
                slots(class),
                64 * terms.with(u32::from(to.number())) + place,
            ),
            RowIndexRule::King(_) => index_after_step(class, 64 * self.row + place, 0, to),
        }
    }
}

/// The row of the numbers after the last man has moved, if they are known to be in one: its new square is the place in the row.
#[inline(always)]
pub fn row_of_last_man(class: Class, row: u32) -> Option<u32>
    requires { 64 * row < cells_of class }
    ensures numbers { IfSome result (λ r. (y a : ℕ) (p : Seen) → y < 64 → a < 64
        → IsMoved class (64 * row + y) y a p → index_of p ≡ 64 * r + a) }
    ensures small { IfSome result (λ r. r < 1048576) }
{
    let (slots, pawns) = (slots(class), class_has_pawn(class));
    let n = 64 * row % EN_PASSANT_BIT;
    if is_canonical_as_is(class, slots, pawns, n) {
        Some(with_side_swapped(pawns, slots.len() as u32, n) / 64)
    } else {
        None
    }
}
