//! Numbers at which nothing can be known before the levels: those without a position, and those in which the side to move is not
//! mated and can neither capture nor promote.
ghost use Rattle.std.specs.Prelude.{◌≡◌, ◌<◌, ◌&&◌, ◌==◌, ℕ, IsTrue, Some};
ghost use Rattle.std.specs.List.{list_any};
ghost use Rattle.study_board.specs.declared.men.Kind.TheVariants.{King, Pawn};
ghost use Rattle.study_board.specs.Geometry.{rank_of};
ghost use Rattle.study_board.specs.Men.{attacks_square, is_attacked, is_man, same_side};
ghost use Rattle.study_board.specs.Position.{Position as Seen, in_check};
ghost use Rattle.study_board.specs.Sets.{has};
ghost use Rattle.study_moves.specs.Game.{IsMate};
ghost use Rattle.study_index.specs.Computed.{position_numbered};
ghost use Rattle.study_retro.specs.Predecessors.{AreEncoded};
ghost use Rattle.study_retro.specs.Still.{HasOnlyQuiet, IsQuietPosition, rank_before_last};

use crate::numbers::en_passant::may_have_en_passant;
use crate::numbers::moves::has_move;
use study_board::{Kind, Man, Side, SquareSet, attacks};
use study_index::{DecodedMen, decode_men};
use study_material::Class;
use study_values::EN_PASSANT_BIT;

/// The rank from which a pawn of the side promotes.
#[inline]
pub fn rank_before_last(side: Side) -> u8
    ensures { result ≡ rank_before_last side }
{
    match side {
        Side::White => 6,
        Side::Black => 1,
    }
}

/// The squares on which the man bears, if it is of the side.
#[inline]
fn attacks_if_side(men: &[Man], m: &Man, side: Side) -> SquareSet
    ensures { (x : ℕ) → x < 64
        → has result x ≡ (same_side m.now.side side && attacks_square men.now m.now x) }
{
    if m.side == side {
        attacks(men, m)
    } else {
        SquareSet::empty()
    }
}

/// The squares on which some man of the side bears.
#[inline]
pub fn attacked_squares(men: &[Man], side: Side) -> SquareSet
    ensures { (x : ℕ) → x < 64 → has result x ≡ is_attacked men.now side x }
{
    let mut set = SquareSet::empty();
    for m in men {
        set = set.union(attacks_if_side(men, m, side));
    }
    set
}

/// Whether a man of the side stands on a square of the set. The loop has no early exit, so that the processor has no branch to predict.
#[inline]
pub fn has_man_in(men: &[Man], side: Side, set: SquareSet) -> bool
    ensures { result ≡ list_any (λ m. same_side m.side side && has set m.at) men.now }
{
    let mut found = false;
    for m in men {
        if m.side == side && set.contains(m.at) {
            found = true;
        }
    }
    found
}

/// Whether a king of the side stands on a square of the set.
#[inline]
pub fn has_king_in(men: &[Man], side: Side, set: SquareSet) -> bool
    ensures { result ≡ list_any (λ m. is_man side King m && has set m.at) men.now }
{
    let mut found = false;
    for m in men {
        if m.is(side, Kind::King) && set.contains(m.at) {
            found = true;
        }
    }
    found
}

/// Whether a pawn of the side is one step from its last rank.
#[inline]
pub fn may_promote(men: &[Man], side: Side) -> bool
    ensures { result ≡ list_any (λ m.
        is_man side Pawn m && (rank_of m.at == rank_before_last side)) men.now }
{
    men.iter().any(|m| m.is(side, Kind::Pawn) && m.at.rank() == rank_before_last(side))
}

/// Whether each move of the side to move is quiet, if the number has a position, by the squares on which its men bear.
#[inline]
fn stays_by(class: Class, number: u32, setup: &DecodedMen, attacked: SquareSet) -> bool
    requires plain { number < 16777216 }
    requires encodes { AreEncoded class number setup.now.men.items setup.now.to_move }
    requires attacked { (x : ℕ) → x < 64
        → has attacked x ≡ is_attacked setup.now.men.items setup.now.to_move x }
    ensures { IsTrue result → (q : Seen)
        → position_numbered class number ≡ Some q → HasOnlyQuiet q }
{
    let _read = (class, number);
    let men = setup.men.as_slice();
    if has_man_in(men, setup.to_move.other(), attacked) {
        return false;
    }
    !may_promote(men, setup.to_move)
}

/// Whether each move of the side to move is quiet, if the number has a position.
pub fn stays(class: Class, number: u32, setup: &DecodedMen) -> bool
    requires plain { number < 16777216 }
    requires encodes { AreEncoded class number setup.now.men.items setup.now.to_move }
    ensures { IsTrue result → (q : Seen)
        → position_numbered class number ≡ Some q → HasOnlyQuiet q }
{
    let attacked = attacked_squares(setup.men.as_slice(), setup.to_move);
    stays_by(class, number, setup, attacked)
}

/// Whether the side to move is in check, if the number has a position.
#[inline]
fn is_checked(class: Class, number: u32, setup: &DecodedMen) -> bool
    requires { AreEncoded class number setup.now.men.items setup.now.to_move }
    ensures { (q : Seen) → position_numbered class number ≡ Some q
        → in_check q.men q.to_move ≡ result }
{
    let _read = (class, number);
    let men = setup.men.as_slice();
    let attacked = attacked_squares(men, setup.to_move.other());
    has_king_in(men, setup.to_move, attacked)
}

/// Whether the number has no position since the side to move could take the other king.
#[inline]
fn could_take_king(class: Class, number: u32, setup: &DecodedMen, attacked: SquareSet) -> bool
    requires encodes { AreEncoded class number setup.now.men.items setup.now.to_move }
    requires attacked { (x : ℕ) → x < 64
        → has attacked x ≡ is_attacked setup.now.men.items setup.now.to_move x }
    ensures { IsTrue result → (q : Seen) → position_numbered class number ≡ Some q → ⊥ }
{
    let _read = (class, number);
    has_king_in(setup.men.as_slice(), setup.to_move.other(), attacked)
}

/// Whether the side to move is not mated, if the number has a position.
#[inline]
fn is_no_mate(class: Class, number: u32, setup: &DecodedMen) -> bool
    requires plain { number < 16777216 }
    requires encodes { AreEncoded class number setup.now.men.items setup.now.to_move }
    ensures { IsTrue result → (q : Seen) → position_numbered class number ≡ Some q → IsMate q → ⊥ }
{
    if !is_checked(class, number, setup) {
        return true;
    }
    has_move(class, number, setup)
}

/// Whether nothing is known of a number without the bit before the levels: it has no position, or one in which the side to move is not mated and has only
/// quiet moves. The answer is `false` for some numbers without a position.
#[inline]
fn begins_still(class: Class, number: u32) -> bool
    requires { number < 16777216 }
    ensures { IsTrue result → (q : Seen)
        → position_numbered class number ≡ Some q → IsQuietPosition q }
{
    let setup = decode_men(class, number);
    let attacked = attacked_squares(setup.men.as_slice(), setup.to_move);
    if stays_by(class, number, &setup, attacked) {
        return is_no_mate(class, number, &setup);
    }
    could_take_king(class, number, &setup, attacked)
}

/// Whether nothing is known of the number before the levels. For numbers with the bit only the squares of their pawns are used.
pub fn starts_undecided(class: Class, number: u32) -> bool
    ensures { IsTrue result → (q : Seen) → position_numbered class number ≡ Some q
        → (number < 16777216) × IsQuietPosition q }
{
    if number < EN_PASSANT_BIT {
        return begins_still(class, number);
    }
    !may_have_en_passant(class, number - EN_PASSANT_BIT)
}
