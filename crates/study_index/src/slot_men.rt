//! The men and the side to move that a number encodes, whether or not it has a position.
ghost use Rattle.std.specs.Prelude.{◌≡◌, ◌/◌, ◌%◌, length};
ghost use Rattle.arrayvec.specs.ArrayVec.{array_vec_len};
ghost use Rattle.study_values.specs.Number.{king_places, without_bit};
ghost use Rattle.study_index.specs.Stepped.{are_like_slots};
ghost use Rattle.study_index.specs.Decoded.{AreSlots, slots_of, slots_have_pawn, man, head, listed_square, side_numbered, decoded_men, decoded_side};

use crate::decoding::{Slot, listed_square, man, slots};
use arrayvec::ArrayVec;
use study_board::{Man, Side};
use study_material::Class;
use study_values::EN_PASSANT_BIT;

/// The contents of a number: a man for each slot of its class, in order, and the side to move.
#[derive(Drop)]
pub struct DecodedMen {
    pub men: ArrayVec<Man, 4>,
    pub to_move: Side,
}

/// Whether a man of the class is a pawn.
#[inline]
pub fn class_has_pawn(class: Class) -> bool
    ensures { result ≡ slots_have_pawn (slots_of class) }
{
    use Class::*;
    match class {
        KPK | KQPK | KRPK | KBPK | KNPK | KPPK | KQKP | KRKP | KBKP | KNKP | KPKP => true,
        _ => false,
    }
}

/// Whether the last two slots of the class have like men.
#[inline]
pub fn has_like_men(class: Class) -> bool
    ensures { result ≡ are_like_slots (slots_of class) }
{
    use Class::*;
    match class {
        KQQK | KRRK | KBBK | KNNK | KPPK => true,
        _ => false,
    }
}

/// The white king on the square that the number without the other squares encodes.
#[inline]
#[tactic(auto, unfolding(crate::specs::Decoded::listed_square))]
pub fn white_king_of(pawns: bool, slot: &Slot, head: u32) -> Man
    ensures { result ≡ man slot.now (listed_square pawns (head % king_places pawns)) }
{
    Man {
        side: slot.side,
        kind: slot.kind,
        at: listed_square(pawns, if pawns { head % 32 } else { head % 10 }),
    }
}

/// The side to move by the number without the squares of the slots after the first.
#[inline]
pub fn side_of_number(pawns: bool, head: u32) -> Side
    ensures { result ≡ side_numbered (head / king_places pawns) }
{
    if head < if pawns { 32 } else { 10 } {
        Side::White
    } else {
        Side::Black
    }
}

/// The men and the side to move that the number encodes, by shifts alone.
#[inline(always)]
pub fn decode_men(class: Class, number: u32) -> DecodedMen
    ensures men { result.men.items ≡ decoded_men (slots_of class) (without_bit number) }
    ensures many { array_vec_len result.men ≡ length (slots_of class) }
    ensures to_move { result.to_move ≡ decoded_side (slots_of class) (without_bit number) }
{
    let slots = slots(class);
    let pawns = class_has_pawn(class);
    let n = number % EN_PASSANT_BIT;
    decode_men_in(slots, pawns, n)
}

/// The men and the side to move, by the slots of a class.
#[inline(always)]
pub fn decode_men_in(slots: &[Slot], pawns: bool, n: u32) -> DecodedMen
    requires slots { AreSlots slots.now }
    requires pawns { pawns ≡ slots_have_pawn slots.now }
    ensures men { result.men.items ≡ decoded_men slots.now n }
    ensures many { array_vec_len result.men ≡ length slots.now }
    ensures to_move { result.to_move ≡ decoded_side slots.now n }
{
    let mut men = ArrayVec::new();
    match slots {
        [k, b] => {
            men.push(white_king_of(pawns, k, n / 64));
            men.push(man(b, n % 64));
            DecodedMen {
                men,
                to_move: side_of_number(pawns, n / 64),
            }
        }
        [k, b, x] => {
            men.push(white_king_of(pawns, k, n / 64 / 64));
            men.push(man(b, n / 64 % 64));
            men.push(man(x, n % 64));
            DecodedMen {
                men,
                to_move: side_of_number(pawns, n / 64 / 64),
            }
        }
        [k, b, x, y] => {
            men.push(white_king_of(pawns, k, n / 64 / 64 / 64));
            men.push(man(b, n / 64 / 64 % 64));
            men.push(man(x, n / 64 % 64));
            men.push(man(y, n % 64));
            DecodedMen {
                men,
                to_move: side_of_number(pawns, n / 64 / 64 / 64),
            }
        }
        _ => unreachable!(),
    }
}
