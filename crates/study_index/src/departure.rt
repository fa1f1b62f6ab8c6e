//! The numbers after one man moves from its square to any other: their common part is computed once.
ghost use Rattle.std.specs.Prelude.{◌≡◌, ◌<◌, ◌≤◌, length, slice_index_or, IsTrue};
ghost use Rattle.study_board.specs.declared.men.Man.{Man as AMan};
ghost use Rattle.study_board.specs.Position.{Position as Seen};
ghost use Rattle.study_values.specs.Index.{index_of};
ghost use Rattle.study_values.specs.Number.{cells_of, without_bit};
ghost use Rattle.study_index.specs.Decoded.{AreSlots, slots_of, slots_have_pawn, decoded_men};
ghost use Rattle.study_index.specs.Moved.{IsMoved};
ghost use Rattle.study_index.specs.Departure.{IsFoundBy, is_canonical_as_is};

use crate::canonical::{is_on_diagonal, least_image};
use crate::decoding::{Slot, head, slots};
use crate::index_arithmetic::{square_of_slot, square_weight, with_side_swapped};
use crate::index_rule::{IndexRule, IndexTerms};
use crate::moved_index::{index_after_move, index_after_step};
use crate::slot_men::{class_has_pawn, has_like_men, white_king_of};
use study_board::Square;
use study_material::Class;
use study_values::EN_PASSANT_BIT;

/// A number and the square of one of its men. The common part of the numbers after the man has moved is computed once.
#[derive(Clone, Copy)]
pub struct IndexAfterMove {
    pub class: Class,
    pub number: u32,
    pub from: Square,
    way: IndexRule,
    ghost cell: { number < cells_of class },
    ghost found: { IsFoundBy class number from way },
}

/// Whether the number with one square of a slot after the first replaced is the least of its images.
#[inline]
pub fn is_canonical_as_is(class: Class, slots: &[Slot], pawns: bool, n: u32) -> bool
    requires slots { slots.now ≡ slots_of class }
    requires pawns { pawns ≡ slots_have_pawn (slots_of class) }
    ensures { result ≡ is_canonical_as_is (slots_of class) n }
{
    !has_like_men(class) && (pawns || !is_on_diagonal(head(slots, n) % 10))
}

/// How to compute the number after a move of the man of a slot after the first, which stands on the square.
#[inline(always)]
fn way_of(class: Class, number: u32, from: Square, slot: u32) -> IndexRule
    requires cell { number < cells_of class }
    requires after { 1 ≤ slot }
    requires slot { slot < length (slots_of class) }
    requires stands { (d : AMan)
        → (slice_index_or (decoded_men (slots_of class) (without_bit number)) slot d).at ≡ from }
    ensures { IsFoundBy class number from result }
{
    let (slots, pawns) = (slots(class), class_has_pawn(class));
    let n = number % EN_PASSANT_BIT;
    let count = slots.len() as u32;
    let weight = square_weight(count, slot);
    let left = square_of_slot(count, slot, n) * weight;
    let terms = IndexTerms {
        rest: with_side_swapped(pawns, count, n).saturating_sub(left),
        weight,
    };
    if is_canonical_as_is(class, slots, pawns, n) {
        IndexRule::Sum(terms)
    } else {
        IndexRule::LeastImage(terms)
    }
}

/// Whether the man of a slot, counted from 0, stands on the square, by the number.
#[inline(always)]
pub fn is_slot_square(slots: &[Slot], pawns: bool, n: u32, slot: u32, from: Square) -> bool
    requires slots { AreSlots slots.now }
    requires pawns { pawns ≡ slots_have_pawn slots.now }
    ensures { IsTrue result → (slot < length slots.now)
        × ((d : AMan) → (slice_index_or (decoded_men slots.now n) slot d).at ≡ from) }
{
    if slot == 0 {
        white_king_of(pawns, &slots[0], head(slots, n)).at == from
    } else {
        let count = slots.len() as u32;
        slot < count && square_of_slot(count, slot, n) == u32::from(from.number())
    }
}

/// How to compute the number after a move of the man on the square, which may be the man of the slot.
#[inline(always)]
fn way_from(class: Class, number: u32, from: Square, slot: u32) -> IndexRule
    requires { number < cells_of class }
    ensures { IsFoundBy class number from result }
{
    let (slots, pawns) = (slots(class), class_has_pawn(class));
    if !is_slot_square(slots, pawns, number % EN_PASSANT_BIT, slot, from) {
        return IndexRule::Search;
    }
    if slot == 0 {
        IndexRule::King
    } else {
        way_of(class, number, from, slot)
    }
}

impl IndexAfterMove {
    /// The departure of the man that stands on the square by the number. If the slot, counted from 0, is not the man's,
    /// `number_to` searches for the man each time.
    #[inline(always)]
    pub fn new(class: Class, number: u32, from: Square, slot: u32) -> Self
        requires { number < cells_of class }
        ensures class { result.class ≡ class }
        ensures number { result.number ≡ number }
        ensures from { result.from ≡ from }
    {
        let way = way_from(class, number, from, slot);
        IndexAfterMove {
            class,
            number,
            from,
            way,
        }
    }

    /// The number of the position with the man on another square and the other side to move, if no capture in passing is legal:
    /// the result of `index_after_move`.
    #[inline(always)]
    pub fn number_to(&self, to: Square) -> u32
        ensures { (p : Seen)
            → IsMoved self.now.class self.now.number self.now.from to p → index_of p ≡ result }
    {
        let class = self.class;
        match self.way {
            IndexRule::Sum(terms) => terms.with(to),
            IndexRule::LeastImage(terms) => least_image(
                class_has_pawn(class),
                has_like_men(class),
                slots(class),
                terms.with(to),
            ),
            IndexRule::King => index_after_step(class, self.number, 0, to),
            IndexRule::Search => index_after_move(class, self.number, self.from, to),
        }
    }
}
