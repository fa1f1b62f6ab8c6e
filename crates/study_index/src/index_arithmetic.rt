//! One square of a number replaced by another, with the other side to move.
ghost use Rattle.std.specs.Prelude.{◌≡◌, ◌*◌, ◌^◌, ◌-◌, ◌<◌, ◌≤◌};
ghost use Rattle.study_values.specs.Number.{king_places};
ghost use Rattle.study_index.specs.Stepped.{square_weight, square_of_slot};
ghost use Rattle.study_index.specs.LeastImage.{turned_by, stepped_by};

use study_board::Square;

/// The weight of the side to move in a number with two, three or four slots.
#[inline]
fn side_weight(pawns: bool, count: u32) -> u32
    requires few { 2 ≤ count }
    requires many { count ≤ 4 }
    ensures value { result ≡ king_places pawns * 64 ^ (count - 1) }
    ensures small { result ≤ 8388608 }
{
    match (pawns, count) {
        (true, 2) => 2_048,
        (true, 3) => 131_072,
        (true, _) => 8_388_608,
        (false, 2) => 640,
        (false, 3) => 40_960,
        (false, _) => 2_621_440,
    }
}

/// The number with the other side to move.
#[inline]
pub fn with_side_swapped(pawns: bool, count: u32, number: u32) -> u32
    requires few { 2 ≤ count }
    requires many { count ≤ 4 }
    requires number { number < 16777216 }
    ensures value { result ≡ turned_by (king_places pawns) count number }
    ensures small { result < 25165824 }
{
    let weight = side_weight(pawns, count);
    if number < weight {
        number + weight
    } else {
        number - weight
    }
}

/// The weight of a slot's square in a number: 64 for each slot after it, multiplied.
#[inline]
pub fn square_weight(count: u32, slot: u32) -> u32
    requires many { count ≤ 4 }
    requires after { 1 ≤ slot }
    requires slot { slot < count }
    ensures value { result ≡ square_weight count slot }
    ensures small { result ≤ 4096 }
{
    match count - 1 - slot {
        0 => 1,
        1 => 64,
        _ => 4_096,
    }
}

/// The square that a number encodes for a slot after the first.
#[inline]
pub fn square_of_slot(count: u32, slot: u32, number: u32) -> u32
    requires many { count ≤ 4 }
    requires after { 1 ≤ slot }
    requires slot { slot < count }
    ensures value { result ≡ square_of_slot count slot number }
    ensures small { result < 64 }
{
    match count - 1 - slot {
        0 => number % 64,
        1 => number / 64 % 64,
        _ => number / 4_096 % 64,
    }
}

/// The number with the other side to move and the man of a slot on another square.
#[inline]
#[tactic(auto, unfolding(crate::specs::LeastImage::stepped_by))]
pub fn number_after_step(pawns: bool, count: u32, number: u32, slot: u32, to: Square) -> u32
    requires few { 2 ≤ count }
    requires many { count ≤ 4 }
    requires number { number < 16777216 }
    requires after { 1 ≤ slot }
    requires slot { slot < count }
    ensures value { result ≡ stepped_by (king_places pawns) count number slot to }
    ensures small { result < 67108864 }
{
    let turned = with_side_swapped(pawns, count, number);
    let to = u32::from(to.number());
    match count - 1 - slot {
        0 => (turned + to).saturating_sub(number % 64),
        1 => (turned + 64 * to).saturating_sub(64 * (number / 64 % 64)),
        _ => (turned + 4096 * to).saturating_sub(4096 * (number / 4096 % 64)),
    }
}
