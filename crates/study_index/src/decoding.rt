//! The positions of numbers.
ghost use Rattle.std.specs.Prelude.{◌≡◌, ◌&&◌, true, ◌+◌, ◌*◌, ◌/◌, ◌%◌, ◌≤◌, ◌<◌, ◌↔◌, ◌⊎◌, IsTrue, length, IfSome, IfNone, None};
ghost use Rattle.study_board.specs.Position.{Position as Seen, has_one_king, in_order};
ghost use Rattle.study_board.specs.declared.men.Side.TheVariants.{White, Black};
ghost use Rattle.study_material.specs.Class.{lists_of};
ghost use Rattle.study_values.specs.Number.{king_places, cells_of};
ghost use Rattle.study_index.specs.Computed.{position_numbered};
ghost use Rattle.study_index.specs.Decoded.{IsDecoded, AreSlots, slots_of, listed_square, slots_have_pawn};
ghost use Rattle.study_index.specs.Decoded.{man, head, decoded_men, decoded_side, square_behind_pawn};
ghost use Rattle.study_index.specs.Decoded.{passed_behind, is_cell, IsPlaced, IsFaulty, HasLeast};
ghost use Rattle.study_index.specs.Stepped.{are_like_slots};
ghost use Rattle.study_board.specs.Men.{other_side};

use crate::canonical::least_image;
use crate::en_passant::square_behind_pawn;
use crate::numbering::king_places;
use crate::slot_men::{class_has_pawn, decode_men_in, has_like_men};
use study_board::{Kind, Man, Position, Side, Square, has_fault, in_order};
use study_material::Class;
use study_moves::has_legal_en_passant;
use study_values::{EN_PASSANT_BIT, cells};

/// The kind and side of the man at a place in the order of a class.
#[derive(Clone, Copy)]
pub struct Slot {
    pub side: Side,
    pub kind: Kind,
}

#[inline]
#[tactic(auto, unfolding(crate::specs::Decoded::listed_square))]
pub fn listed_square(pawns: bool, place: u32) -> Square
    requires { place < king_places pawns }
    ensures value { result ≡ listed_square pawns place }
{
    let number = if pawns {
        8 * (place / 4) + place % 4
    } else if place < 4 {
        place
    } else if place < 7 {
        place + 5
    } else if place < 9 {
        place + 11
    } else {
        27
    };
    Square::at(number as u8)
}

#[inline]
pub fn man(slot: &Slot, square: u32) -> Man
    requires { square < 64 }
    ensures { result ≡ man slot.now square }
{
    Man {
        side: slot.side,
        kind: slot.kind,
        at: Square::at(square as u8),
    }
}

/// The number without the squares of the slots after the first.
#[inline]
pub fn head(slots: &[Slot], n: u32) -> u32
    ensures { result ≡ head slots.now n }
{
    match slots {
        [_, _] => n / 64,
        [_, _, _] => n / 64 / 64,
        [_, _, _, _] => n / 64 / 64 / 64,
        _ => n,
    }
}

/// The position of these men, if it is valid.
#[inline(always)]
fn valid_position(men: &[Man], to_move: Side, passed: Option<Square>) -> Option<Position>
    requires few { length men.now ≤ 4 }
    requires kings { (has_one_king men.now White && has_one_king men.now Black) ≡ true }
    ensures some { IfSome result (λ q. IsPlaced men.now to_move passed q) }
    ensures none { IfNone result (IsFaulty men.now to_move passed) }
{
    let square = passed;
    if has_fault(men, to_move, square) {
        return None;
    }
    let list = in_order(men);
    let position = Position::of(list, to_move, passed);
    Some(position)
}

/// The position of these men, if it is valid, with the square behind the pawn of the side not to move passed.
fn position_with_passed(men: &[Man], to_move: Side) -> Option<Position>
    requires few { length men.now ≤ 4 }
    requires kings { (has_one_king men.now White && has_one_king men.now Black) ≡ true }
    ensures some { IfSome result (λ q.
        IsPlaced men.now to_move (square_behind_pawn (other_side to_move) men.now) q) }
    ensures none { IfNone result
        (IsFaulty men.now to_move (square_behind_pawn (other_side to_move) men.now)) }
{
    match square_behind_pawn(to_move.other(), men) {
        None => valid_position(men, to_move, None),
        Some(number) => match Square::new(number) {
            None => None,
            Some(x) => valid_position(men, to_move, Some(x)),
        },
    }
}

/// The position of these men, if it is valid, with a passed square or without.
#[inline]
fn position_of_men(men: &[Man], to_move: Side, passed: bool) -> Option<Position>
    requires few { length men.now ≤ 4 }
    requires kings { (has_one_king men.now White && has_one_king men.now Black) ≡ true }
    ensures some { IfSome result (λ q.
        IsPlaced men.now to_move (passed_behind passed to_move men.now) q) }
    ensures none { IfNone result (IsFaulty men.now to_move (passed_behind passed to_move men.now)) }
{
    if passed {
        position_with_passed(men, to_move)
    } else {
        valid_position(men, to_move, None)
    }
}

/// Whether the number is the least of the men that it encodes.
#[inline]
fn is_least(slots: &[Slot], pawns: bool, like: bool, n: u32) -> bool
    requires slots { AreSlots slots.now }
    requires pawns { pawns ≡ slots_have_pawn slots.now }
    requires like { like ≡ are_like_slots slots.now }
    requires cell { is_cell slots.now n ≡ true }
    requires small { n < 16777216 }
    ensures { IsTrue result
        ↔ HasLeast (slots_have_pawn slots.now) (decoded_side slots.now n) n
        (decoded_men slots.now n) }
{
    least_image(pawns, like, slots, n) == n
}

/// The position of the men and the side that the number encodes, if it is valid and the number is its least, with a passed square or without.
#[inline]
fn decode_slots(slots: &[Slot], pawns: bool, like: bool, n: u32, passed: bool) -> Option<Position>
    requires slots { AreSlots slots.now }
    requires pawns { pawns ≡ slots_have_pawn slots.now }
    requires like { like ≡ are_like_slots slots.now }
    requires cell { is_cell slots.now n ≡ true }
    requires small { n < 16777216 }
    ensures some { IfSome result
        (λ q. IsPlaced (decoded_men slots.now n) (decoded_side slots.now n)
        (passed_behind passed (decoded_side slots.now n) (decoded_men slots.now n)) q
        × HasLeast (slots_have_pawn slots.now) (decoded_side slots.now n) n
        (decoded_men slots.now n)) }
    ensures none { IfNone result
        (IsFaulty (decoded_men slots.now n) (decoded_side slots.now n)
        (passed_behind passed (decoded_side slots.now n) (decoded_men slots.now n))
        ⊎ (HasLeast (slots_have_pawn slots.now) (decoded_side slots.now n) n
        (decoded_men slots.now n)
        → ⊥)) }
{
    if !is_least(slots, pawns, like, n) {
        return None;
    }
    let setup = decode_men_in(slots, pawns, n);
    position_of_men(setup.men.as_slice(), setup.to_move, passed)
}

/// The position of a number without the bit.
#[inline(always)]
fn decode_plain(class: Class, n: u32) -> Option<Position>
    requires cell { n < cells_of class }
    requires plain { n < 16777216 }
    ensures some { IfSome result (IsDecoded class n) }
    ensures none { IfNone result ((q : Seen) → IsDecoded class n q → ⊥) }
{
    let (slots, pawns) = (slots(class), class_has_pawn(class));
    decode_slots(slots, pawns, has_like_men(class), n, false)
}

/// The position of a number with the bit: one in which a capture in passing is legal.
fn decode_en_passant(class: Class, n: u32) -> Option<Position>
    requires cell { n < cells_of class }
    requires passing { 16777216 ≤ n }
    ensures some { IfSome result (IsDecoded class n) }
    ensures none { IfNone result ((q : Seen) → IsDecoded class n q → ⊥) }
{
    let (slots, pawns) = (slots(class), class_has_pawn(class));
    match decode_slots(slots, pawns, has_like_men(class), n - EN_PASSANT_BIT, true) {
        None => None,
        Some(q) => if has_legal_en_passant(&q) {
            Some(q)
        } else {
            None
        },
    }
}

/// The position of the class that has this number, in list order, if there is one. It has a passed square if the number has the bit.
pub fn decode(class: Class, n: u32) -> Option<Position>
    ensures some { IfSome result (IsDecoded class n) }
    ensures none { IfNone result ((q : Seen) → IsDecoded class n q → ⊥) }
    ensures value { result ≡ position_numbered class n }
{
    if n >= cells(class) {
        None
    } else if n < EN_PASSANT_BIT {
        decode_plain(class, n)
    } else {
        decode_en_passant(class, n)
    }
}

const WHITE_KING: Slot = Slot {
    side: Side::White,
    kind: Kind::King,
};

const BLACK_KING: Slot = Slot {
    side: Side::Black,
    kind: Kind::King,
};

const WHITE_QUEEN: Slot = Slot {
    side: Side::White,
    kind: Kind::Queen,
};

const BLACK_QUEEN: Slot = Slot {
    side: Side::Black,
    kind: Kind::Queen,
};

const WHITE_ROOK: Slot = Slot {
    side: Side::White,
    kind: Kind::Rook,
};

const BLACK_ROOK: Slot = Slot {
    side: Side::Black,
    kind: Kind::Rook,
};

const WHITE_BISHOP: Slot = Slot {
    side: Side::White,
    kind: Kind::Bishop,
};

const BLACK_BISHOP: Slot = Slot {
    side: Side::Black,
    kind: Kind::Bishop,
};

const WHITE_KNIGHT: Slot = Slot {
    side: Side::White,
    kind: Kind::Knight,
};

const BLACK_KNIGHT: Slot = Slot {
    side: Side::Black,
    kind: Kind::Knight,
};

const WHITE_PAWN: Slot = Slot {
    side: Side::White,
    kind: Kind::Pawn,
};

const BLACK_PAWN: Slot = Slot {
    side: Side::Black,
    kind: Kind::Pawn,
};

/// The slots of the class: the kings, White's men in list order, Black's men in list order.
pub fn slots(class: Class) -> &'static [Slot]
    ensures { result.now ≡ slots_of class }
{
    use Class::*;
    match class {
        KK => &[WHITE_KING, BLACK_KING],
        KQK => &[WHITE_KING, BLACK_KING, WHITE_QUEEN],
        KRK => &[WHITE_KING, BLACK_KING, WHITE_ROOK],
        KBK => &[WHITE_KING, BLACK_KING, WHITE_BISHOP],
        KNK => &[WHITE_KING, BLACK_KING, WHITE_KNIGHT],
        KPK => &[WHITE_KING, BLACK_KING, WHITE_PAWN],
        KQQK => &[WHITE_KING, BLACK_KING, WHITE_QUEEN, WHITE_QUEEN],
        KQRK => &[WHITE_KING, BLACK_KING, WHITE_QUEEN, WHITE_ROOK],
        KQBK => &[WHITE_KING, BLACK_KING, WHITE_QUEEN, WHITE_BISHOP],
        KQNK => &[WHITE_KING, BLACK_KING, WHITE_QUEEN, WHITE_KNIGHT],
        KQPK => &[WHITE_KING, BLACK_KING, WHITE_QUEEN, WHITE_PAWN],
        KRRK => &[WHITE_KING, BLACK_KING, WHITE_ROOK, WHITE_ROOK],
        KRBK => &[WHITE_KING, BLACK_KING, WHITE_ROOK, WHITE_BISHOP],
        KRNK => &[WHITE_KING, BLACK_KING, WHITE_ROOK, WHITE_KNIGHT],
        KRPK => &[WHITE_KING, BLACK_KING, WHITE_ROOK, WHITE_PAWN],
        KBBK => &[WHITE_KING, BLACK_KING, WHITE_BISHOP, WHITE_BISHOP],
        KBNK => &[WHITE_KING, BLACK_KING, WHITE_BISHOP, WHITE_KNIGHT],
        KBPK => &[WHITE_KING, BLACK_KING, WHITE_BISHOP, WHITE_PAWN],
        KNNK => &[WHITE_KING, BLACK_KING, WHITE_KNIGHT, WHITE_KNIGHT],
        KNPK => &[WHITE_KING, BLACK_KING, WHITE_KNIGHT, WHITE_PAWN],
        KPPK => &[WHITE_KING, BLACK_KING, WHITE_PAWN, WHITE_PAWN],
        _ => slots_of_both(class),
    }
}

/// The slots of the class, if each side has a man beside its king.
fn slots_of_both(class: Class) -> &'static [Slot]
    requires { length (lists_of class).black ≡ 1 }
    ensures { result.now ≡ slots_of class }
{
    use Class::*;
    match class {
        KQKQ => &[WHITE_KING, BLACK_KING, WHITE_QUEEN, BLACK_QUEEN],
        KQKR => &[WHITE_KING, BLACK_KING, WHITE_QUEEN, BLACK_ROOK],
        KQKB => &[WHITE_KING, BLACK_KING, WHITE_QUEEN, BLACK_BISHOP],
        KQKN => &[WHITE_KING, BLACK_KING, WHITE_QUEEN, BLACK_KNIGHT],
        KQKP => &[WHITE_KING, BLACK_KING, WHITE_QUEEN, BLACK_PAWN],
        KRKR => &[WHITE_KING, BLACK_KING, WHITE_ROOK, BLACK_ROOK],
        KRKB => &[WHITE_KING, BLACK_KING, WHITE_ROOK, BLACK_BISHOP],
        KRKN => &[WHITE_KING, BLACK_KING, WHITE_ROOK, BLACK_KNIGHT],
        KRKP => &[WHITE_KING, BLACK_KING, WHITE_ROOK, BLACK_PAWN],
        KBKB => &[WHITE_KING, BLACK_KING, WHITE_BISHOP, BLACK_BISHOP],
        KBKN => &[WHITE_KING, BLACK_KING, WHITE_BISHOP, BLACK_KNIGHT],
        KBKP => &[WHITE_KING, BLACK_KING, WHITE_BISHOP, BLACK_PAWN],
        KNKN => &[WHITE_KING, BLACK_KING, WHITE_KNIGHT, BLACK_KNIGHT],
        KNKP => &[WHITE_KING, BLACK_KING, WHITE_KNIGHT, BLACK_PAWN],
        KPKP => &[WHITE_KING, BLACK_KING, WHITE_PAWN, BLACK_PAWN],
        _ => unreachable!(),
    }
}
