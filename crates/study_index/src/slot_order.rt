//! The men of a position in the order of their slots.
ghost use Rattle.std.specs.Prelude.{◌≡◌, ◌<◌, nat_le, [], ◌∷◌, if◌then◌else◌};
ghost use Rattle.study_values.specs.Slots.{man_slot_number, slot_number};
ghost use Rattle.study_index.specs.Squares.{placed_man, put_placed};
ghost use Rattle.study_board.specs.Symmetry.{turned_side};

use study_board::{Kind, Man, Side, Square};

#[inline]
fn slot_number(side: Side, kind: Kind) -> u8
    ensures { result ≡ slot_number side kind }
{
    match (side, kind) {
        (Side::White, Kind::King) => 0,
        (Side::Black, Kind::King) => 1,
        (Side::White, Kind::Queen) => 2,
        (Side::White, Kind::Rook) => 3,
        (Side::White, Kind::Bishop) => 4,
        (Side::White, Kind::Knight) => 5,
        (Side::White, Kind::Pawn) => 6,
        (Side::Black, Kind::Queen) => 7,
        (Side::Black, Kind::Rook) => 8,
        (Side::Black, Kind::Bishop) => 9,
        (Side::Black, Kind::Knight) => 10,
        (Side::Black, Kind::Pawn) => 11,
    }
}

/// The side, or the other side if the colours are swapped.
#[inline]
pub fn side_after(colours: bool, side: Side) -> Side
    ensures { result ≡ turned_side colours side }
{
    if colours { side.other() } else { side }
}

#[inline]
#[tactic(auto, unfolding(study_values::specs::Slots::man_slot_number))]
pub fn man_slot_number(colours: bool, m: &Man) -> u8
    ensures { result ≡ man_slot_number colours m.now }
{
    slot_number(side_after(colours, m.side), m.kind)
}

/// The square of a man.
#[inline]
pub fn square_of_man(m: Man) -> Square
    ensures value { result ≡ m.at }
    ensures on_board { m.at < 64 }
{
    let _number = m.at.number();
    m.at
}

/// The parts of a man that its number needs: its slot and its square.
#[derive(Clone, Copy)]
pub struct PlacedMan {
    pub slot: u8,
    pub square: Square,
}

/// The slot and the square of a man.
#[inline]
pub fn placed_man(colours: bool, m: &Man) -> PlacedMan
    ensures value { result ≡ placed_man colours m.now }
    ensures on_board { m.now.at < 64 }
{
    let _number = m.at.number();
    PlacedMan {
        slot: man_slot_number(colours, m),
        square: m.at,
    }
}

/// Whether the slot of `x` is not after that of `k`.
#[inline]
fn comes_first(x: &PlacedMan, k: &PlacedMan) -> bool
    ensures { result ≡ nat_le x.now.slot k.now.slot }
{
    x.slot <= k.slot
}

/// One of two men, chosen without a branch.
#[inline]
fn select(flag: bool, x: &PlacedMan, y: &PlacedMan) -> PlacedMan
    ensures { result ≡ (if flag then x.now else y.now) }
{
    if flag { *x } else { *y }
}

/// A man inserted after another of no later slot, or before it.
#[inline]
#[tactic(auto, unfolding(crate::specs::Squares::put_placed))]
pub fn sort_two(k: &PlacedMan, x: &PlacedMan) -> (PlacedMan, PlacedMan)
    ensures { result.0 ∷ result.1 ∷ [] ≡ put_placed k.now (x.now ∷ []) }
{
    let first = comes_first(x, k);
    (select(first, x, k), select(first, k, x))
}

/// A man inserted in the order of slots.
#[inline]
#[tactic(auto, unfolding(crate::specs::Squares::put_placed))]
pub fn insert_into_two(
    k: &PlacedMan,
    x: &PlacedMan,
    y: &PlacedMan,
) -> (PlacedMan, PlacedMan, PlacedMan)
    ensures { result.0 ∷ result.1 ∷ result.2 ∷ [] ≡ put_placed k.now (x.now ∷ y.now ∷ []) }
{
    let first = comes_first(x, k);
    let second = first & comes_first(y, k);
    (
        select(first, x, k),
        select(second, y, &select(first, k, x)),
        select(second, k, y),
    )
}

/// A man inserted in the order of slots.
#[inline]
#[tactic(auto, unfolding(crate::specs::Squares::put_placed))]
pub fn insert_into_three(
    k: &PlacedMan,
    x: &PlacedMan,
    y: &PlacedMan,
    z: &PlacedMan,
) -> (PlacedMan, PlacedMan, PlacedMan, PlacedMan)
    ensures { result.0 ∷ result.1 ∷ result.2 ∷ result.3 ∷ []
        ≡ put_placed k.now (x.now ∷ y.now ∷ z.now ∷ []) }
{
    let first = comes_first(x, k);
    let second = first & comes_first(y, k);
    let third = second & comes_first(z, k);
    (
        select(first, x, k),
        select(second, y, &select(first, k, x)),
        select(third, z, &select(second, k, y)),
        select(third, k, z),
    )
}
