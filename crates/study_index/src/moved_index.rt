//! The number of the position after, or before, a move that captures no man and promotes none.
ghost use Rattle.std.specs.Prelude.{◌≡◌, ◌<◌, ◌↔◌, false, map, length, slice_index_or, Some, IsTrue, IfSome, if◌then◌else◌};
ghost use Rattle.study_board.specs.declared.men.Man.{Man as AMan};
ghost use Rattle.study_board.specs.Men.{other_side, moved_if};
ghost use Rattle.study_board.specs.Position.{Position as Seen};
ghost use Rattle.study_values.specs.Canonical.{canonical_number};
ghost use Rattle.study_index.specs.Decoded.{AreSlots, slots_of, slots_have_pawn, man, decoded_men, decoded_side};
ghost use Rattle.study_values.specs.Index.{index_of};
ghost use Rattle.study_values.specs.Number.{cells_of};
ghost use Rattle.study_index.specs.Stepped.{moved_to, IsStepped};
ghost use Rattle.study_index.specs.Moved.{IsMoved};
ghost use Rattle.study_index.specs.LeastImage.{king_symmetry, squares, with_head};
ghost use Rattle.study_index.specs.Squares.{number_at};
ghost use Rattle.study_board.specs.Symmetry.{turned_square};

use crate::canonical::least_image;
use crate::decoding::{Slot, head, man, slots};
use crate::index_arithmetic::number_after_step;
use crate::index_of::canonical_number;
use crate::numbering::{Frame, king_places, number, place, side_number};
use crate::slot_men::{class_has_pawn, has_like_men, side_of_number, white_king_of};
use study_board::{Man, Side, Square, Symmetry};
use study_material::Class;
use study_values::EN_PASSANT_BIT;

/// The frame of a number of a class, without a swap of colours.
#[inline]
fn straight_frame(has_pawns: bool, to_move: Side) -> Frame
    ensures { result ≡ record { has_pawns = has_pawns; to_move = to_move; swap_colours = false } }
{
    Frame {
        has_pawns,
        to_move,
        swap_colours: false,
    }
}

/// The least number of the men that a number encodes, with the man on `from` put on `to` and the other side to move.
fn least_moved(slots: &[Slot], pawns: bool, n: u32, from: Square, to: Square) -> Option<u32>
    requires slots { AreSlots slots.now }
    requires pawns { pawns ≡ slots_have_pawn slots.now }
    ensures { result ≡ canonical_number pawns (other_side (decoded_side slots.now n)) false
        (map (moved_if from to) (decoded_men slots.now n)) }
{
    let frame = straight_frame(pawns, side_of_number(pawns, head(slots, n)).other());
    match slots {
        [k, b] => {
            let white = white_king_of(pawns, k, n / 64).moved_if(from, to);
            let men = [white, man(b, n % 64).moved_if(from, to)];
            canonical_number(frame, &men)
        }
        [k, b, x] => {
            let white = white_king_of(pawns, k, n / 64 / 64).moved_if(from, to);
            let black = man(b, n / 64 % 64).moved_if(from, to);
            let men = [white, black, man(x, n % 64).moved_if(from, to)];
            canonical_number(frame, &men)
        }
        [k, b, x, y] => {
            let white = white_king_of(pawns, k, n / 64 / 64 / 64).moved_if(from, to);
            let black = man(b, n / 64 / 64 % 64).moved_if(from, to);
            let further = man(x, n / 64 % 64).moved_if(from, to);
            let men = [white, black, further, man(y, n % 64).moved_if(from, to)];
            canonical_number(frame, &men)
        }
        _ => unreachable!(),
    }
}

/// The symmetry that brings the white king's square to a listed one, without swapping the colours.
#[inline]
#[tactic(auto, unfolding(crate::specs::LeastImage::king_symmetry))]
fn king_symmetry(pawns: bool, s: Square) -> Symmetry
    ensures { result ≡ king_symmetry pawns s }
{
    let (right, top) = (s.file() > 3, s.rank() > 3);
    let file = if right { 7 - s.file() } else { s.file() };
    let rank = if top { 7 - s.rank() } else { s.rank() };
    Symmetry {
        files: right,
        ranks: !pawns && top,
        diagonal: !pawns && file < rank,
        colours: false,
    }
}

#[inline]
fn square(number: u32) -> Square
    requires { number < 64 }
    ensures { result ≡ number }
{
    Square::at(number as u8)
}

/// A number with the side to move and the white king's place replaced.
#[inline]
#[tactic(auto, unfolding(crate::specs::LeastImage::with_head))]
fn with_head(slots: &[Slot], head: u32, n: u32) -> u32
    requires slots { AreSlots slots.now }
    requires head { head < 64 }
    ensures value { result ≡ with_head slots.now head n }
    ensures small { result < 16777216 }
{
    match slots {
        [_, _] => head * 64 + n % 64,
        [_, _, _] => head * 4_096 + n % 4_096,
        [_, _, _, _] => head * 262_144 + n % 262_144,
        _ => unreachable!(),
    }
}

/// The number of the men that a number encodes, with the white king put on `to` and the other side to move, turned so that the king comes to a listed square.
#[inline(always)]
fn number_with_king_on(slots: &[Slot], pawns: bool, n: u32, to: Square) -> Option<u32>
    requires slots { AreSlots slots.now }
    requires pawns { pawns ≡ slots_have_pawn slots.now }
    ensures value { result
        ≡ number_at pawns (other_side (decoded_side slots.now n))
        (turned_square (king_symmetry pawns to))
        (squares (moved_to 0 to (decoded_men slots.now n))) }
    ensures small { IfSome result (λ m. m < 16777216) }
{
    let side = side_of_number(pawns, head(slots, n)).other();
    let _square = to.number();
    match place(pawns, to) {
        Some(q) => {
            let head = side_number(side) * king_places(pawns) + u32::from(q);
            Some(with_head(slots, head, n))
        }
        None => number_with_king_turned(slots, pawns, n, side, to),
    }
}

/// `number_with_king_on`, by the symmetry that brings the square to a listed one.
fn number_with_king_turned(
    slots: &[Slot],
    pawns: bool,
    n: u32,
    side: Side,
    to: Square,
) -> Option<u32>
    requires slots { AreSlots slots.now }
    requires pawns { pawns ≡ slots_have_pawn slots.now }
    ensures value { result
        ≡ number_at pawns side (turned_square (king_symmetry pawns to))
        (squares (moved_to 0 to (decoded_men slots.now n))) }
    ensures small { IfSome result (λ m. m < 16777216) }
{
    let frame = straight_frame(pawns, side);
    let t = king_symmetry(pawns, to);
    match slots {
        [_, _] => number(frame, t, &[to, square(n % 64)]),
        [_, _, _] => number(frame, t, &[to, square(n / 64 % 64), square(n % 64)]),
        [_, _, _, _] => {
            let (black, third) = (square(n / 64 / 64 % 64), square(n / 64 % 64));
            number(frame, t, &[to, black, third, square(n % 64)])
        }
        _ => unreachable!(),
    }
}

/// The number of the position with the men of another number, the man of a slot, counted from 0, put on `to` and the other side to move, if no capture in
/// passing is legal. Forwards it is the number after a move that captures no man and promotes none; backwards, the number before it.
#[inline(always)]
pub fn index_after_step(class: Class, number: u32, slot: u32, to: Square) -> u32
    requires cell { number < cells_of class }
    requires slot { slot < length (slots_of class) }
    ensures { (p : Seen) → IsStepped class number slot to p → index_of p ≡ result }
{
    let slots = slots(class);
    let pawns = class_has_pawn(class);
    let n = number % EN_PASSANT_BIT;
    let like = has_like_men(class);
    if slot == 0 {
        match number_with_king_on(slots, pawns, n, to) {
            Some(turned) => least_image(pawns, like, slots, turned),
            None => 0,
        }
    } else {
        let moved = number_after_step(pawns, slots.len() as u32, n, slot, to);
        least_image(pawns, like, slots, moved)
    }
}

/// The slot whose man stands on the square, by the number.
#[inline(always)]
pub fn slot_on(slots: &[Slot], pawns: bool, n: u32, from: Square) -> Option<u32>
    requires slots { AreSlots slots.now }
    requires pawns { pawns ≡ slots_have_pawn slots.now }
    ensures { IfSome result (λ i. (i < length slots.now)
        × ((d : AMan) → (slice_index_or (decoded_men slots.now n) i d).at ≡ from)) }
{
    let at = u32::from(from.number());
    match slots {
        [k, _] => {
            let king = slot_if(is_on(white_king_of(pawns, k, n / 64), from), 0, None);
            slot_if(n % 64 == at, 1, king)
        }
        [k, _, _] => {
            let king = slot_if(is_on(white_king_of(pawns, k, n / 64 / 64), from), 0, None);
            let black = slot_if(n / 64 % 64 == at, 1, king);
            slot_if(n % 64 == at, 2, black)
        }
        [k, _, _, _] => {
            let king = slot_if(
                is_on(white_king_of(pawns, k, n / 64 / 64 / 64), from),
                0,
                None,
            );
            let black = slot_if(n / 64 / 64 % 64 == at, 1, king);
            let third = slot_if(n / 64 % 64 == at, 2, black);
            slot_if(n % 64 == at, 3, third)
        }
        _ => None,
    }
}

#[inline]
fn is_on(man: Man, at: Square) -> bool
    ensures { IsTrue result ↔ (man.at ≡ at) }
{
    man.at == at
}

#[inline]
fn slot_if(here: bool, slot: u32, other: Option<u32>) -> Option<u32>
    ensures { result ≡ (if here then Some slot else other) }
{
    if here { Some(slot) } else { other }
}

/// The number of the position with the men of another number, the man on `from` put on `to` and the other side to move, if no capture in passing is legal.
/// Forwards it is the number after a move that captures no man and promotes none; backwards, the number before it.
pub fn index_after_move(class: Class, number: u32, from: Square, to: Square) -> u32
    requires { number < cells_of class }
    ensures { (p : Seen) → IsMoved class number from to p → index_of p ≡ result }
{
    let slots = slots(class);
    let n = number % EN_PASSANT_BIT;
    let pawns = class_has_pawn(class);
    if let Some(slot) = slot_on(slots, pawns, n, from) {
        return index_after_step(class, number, slot, to);
    }
    match least_moved(slots, pawns, n, from, to) {
        Some(least) => least,
        None => 0,
    }
}
