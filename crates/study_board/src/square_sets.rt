//! Sets of squares as bits, the bit x for the square x.
ghost use Rattle.std.specs.Prelude.{◌≡◌, ◌≢◌, ◌↔◌, ℕ, ◌<◌, IsTrue, count_ones, ◌&&◌, ◌||◌, ◌==◌, not, true, false};
ghost use Rattle.study_board.specs.Geometry.{king_step, knight_jump, on_rook_line, on_bishop_line, strictly_between};
ghost use Rattle.study_board.specs.Men.{pawn_captures, is_blocked, attacks_square};
ghost use Rattle.study_board.specs.Rays.{direction_of, ray_of};
ghost use Rattle.study_board.specs.Sets.{has, is_slider, is_blocked_past, bears_past};

use crate::attack_tables::{BISHOP, BLACK_PAWN, DIRECTION, KING, KNIGHT, ROOK, WHITE_PAWN};
use crate::ray_tables::RAY;
use crate::{Kind, Man, Side, Square};
use std::marker::Model;

/// A set of squares: bit x is set if the square of number x is in it.
#[derive(Clone, Copy)]
pub struct SquareSet {
    bits: u64,
}

impl Model for SquareSet {
    ghost use Rattle.std.specs.Prelude.{ℕ, ◌<◌, ◌^◌};

    ghost Value = { ℕ };

    ghost view = { λ s. s.bits };

    ghost invariant = { λ s. s.bits < 2 ^ 64 };

    ghost inverse = { λ n. record { bits = n } };
}

impl SquareSet {
    /// The empty set.
    #[inline]
    pub fn empty() -> Self
        ensures { result ≡ 0 }
    {
        SquareSet { bits: 0 }
    }

    /// The set with these bits.
    #[inline]
    fn of_bits(bits: u64) -> Self
        ensures { result ≡ bits }
    {
        SquareSet { bits }
    }

    /// The set of one square.
    #[inline]
    pub fn of(a: Square) -> Self
        ensures { (x : ℕ) → x < 64 → has result x ≡ (a == x) }
    {
        SquareSet {
            bits: 1u64 << a.number(),
        }
    }

    /// Whether no square is in the set.
    #[inline]
    pub fn is_empty(self) -> bool
        ensures { IsTrue result ↔ (self ≡ 0) }
    {
        self.bits == 0
    }

    /// Whether the square is in the set.
    #[inline]
    pub fn contains(self, x: Square) -> bool
        ensures { result ≡ has self x }
    {
        self.bits >> x.number() & 1 == 1
    }

    /// The number of squares in the set.
    #[inline]
    pub fn len(self) -> u32
        ensures { result ≡ count_ones self }
    {
        self.bits.count_ones()
    }

    /// The squares in this set and not in the other.
    #[inline]
    pub fn without(self, other: SquareSet) -> Self
        ensures { (x : ℕ) → x < 64 → has result x ≡ (has self x && not (has other x)) }
    {
        SquareSet {
            bits: self.bits & !other.bits,
        }
    }

    /// The squares in at least one of the sets.
    #[inline]
    pub fn union(self, other: SquareSet) -> Self
        ensures { (x : ℕ) → has result x ≡ (has self x || has other x) }
    {
        SquareSet::of_bits(self.bits | other.bits)
    }

    /// The squares in both sets.
    #[inline]
    pub fn intersection(self, other: SquareSet) -> Self
        ensures { (x : ℕ) → has result x ≡ (has self x && has other x) }
    {
        SquareSet {
            bits: self.bits & other.bits,
        }
    }

    /// The squares that are not in the set.
    #[inline]
    pub fn complement(self) -> Self
        ensures { (x : ℕ) → x < 64 → has result x ≡ not (has self x) }
    {
        SquareSet { bits: !self.bits }
    }

    /// The first square of the set, in the order a1, b1, .., h8; `None` if the set is empty.
    #[inline]
    pub fn first(self) -> Square
        requires { self ≢ 0 }
        ensures inside { result < 64 }
        ensures there { has self result ≡ true }
        ensures least { (x : ℕ) → x < result → has self x ≡ false }
    {
        Square::at(self.bits.trailing_zeros() as u8)
    }
}

/// The squares one king step away.
#[inline]
pub fn king_steps(a: Square) -> SquareSet
    ensures { (x : ℕ) → x < 64 → has result x ≡ (not (a == x) && king_step a x) }
{
    SquareSet::of_bits(KING[a.number() as usize])
}

/// The squares one knight's jump away.
#[inline]
pub fn knight_jumps(a: Square) -> SquareSet
    ensures { (x : ℕ) → x < 64 → has result x ≡ (not (a == x) && knight_jump a x) }
{
    SquareSet::of_bits(KNIGHT[a.number() as usize])
}

/// The other squares on its file or its rank.
#[inline]
pub fn rook_lines(a: Square) -> SquareSet
    ensures { (x : ℕ) → x < 64 → has result x ≡ (not (a == x) && on_rook_line a x) }
{
    SquareSet::of_bits(ROOK[a.number() as usize])
}

/// The other squares on its diagonals.
#[inline]
pub fn bishop_lines(a: Square) -> SquareSet
    ensures { (x : ℕ) → x < 64 → has result x ≡ (not (a == x) && on_bishop_line a x) }
{
    SquareSet::of_bits(BISHOP[a.number() as usize])
}

/// The squares on which a pawn of the side captures.
#[inline]
pub fn pawn_captures_of(side: Side, a: Square) -> SquareSet
    ensures { (x : ℕ) → x < 64 → has result x ≡ (not (a == x) && pawn_captures side a x) }
{
    match side {
        Side::White => SquareSet::of_bits(WHITE_PAWN[a.number() as usize]),
        Side::Black => SquareSet::of_bits(BLACK_PAWN[a.number() as usize]),
    }
}

/// The direction of `y` from `a`: 0 to 7, or 8 if they are the same square or share no line.
#[inline]
fn direction(a: Square, y: Square) -> usize
    ensures value { result ≡ direction_of a y }
    ensures small { result < 9 }
{
    DIRECTION[a.number() as usize][y.number() as usize] as usize
}

/// The squares in a direction from `a`.
#[inline]
fn ray(direction: usize, a: Square) -> SquareSet
    requires { direction < 9 }
    ensures { result ≡ ray_of direction a }
{
    SquareSet::of_bits(RAY[direction][a.number() as usize])
}

/// The squares behind `y` as seen from `a`.
#[inline]
pub fn shadow(a: Square, y: Square) -> SquareSet
    ensures { (x : ℕ) → x < 64 → has result x ≡ strictly_between a y x }
{
    let (_from, _over) = (a.number(), y.number());
    ray(direction(a, y), y)
}

/// The squares behind some man as seen from `a`.
#[inline(always)]
pub fn shadows(men: &[Man], a: Square) -> SquareSet
    ensures { (x : ℕ) → x < 64 → has result x ≡ is_blocked men.now a x }
{
    let mut set = SquareSet::empty();
    for m in men {
        set = set.union(shadow(a, m.at));
    }
    set
}

/// The squares on which the man bears, with these men on the board.
#[inline(always)]
pub fn attacks(men: &[Man], m: &Man) -> SquareSet
    ensures { (x : ℕ) → x < 64 → has result x ≡ attacks_square men.now m.now x }
{
    let a = m.at;
    match m.kind {
        Kind::King => king_steps(a),
        Kind::Queen => rook_lines(a)
            .union(bishop_lines(a))
            .without(shadows(men, a)),
        Kind::Rook => rook_lines(a).without(shadows(men, a)),
        Kind::Bishop => bishop_lines(a).without(shadows(men, a)),
        Kind::Knight => knight_jumps(a),
        Kind::Pawn => pawn_captures_of(m.side, a),
    }
}

/// The squares strictly between two squares.
#[inline]
pub fn between(a: Square, x: Square) -> SquareSet
    ensures { (y : ℕ) → y < 64 → has result y ≡ strictly_between a y x }
{
    let (_from, _to) = (a.number(), x.number());
    ray(direction(a, x), a).intersection(ray(direction(x, a), x))
}

impl Kind {
    /// Whether the kind moves along lines.
    #[inline(always)]
    pub fn is_slider(self) -> bool
        ensures { result ≡ is_slider self }
    {
        match self {
            Kind::Queen | Kind::Rook | Kind::Bishop => true,
            _ => false,
        }
    }
}

/// The squares behind `y` as seen from `a`, unless `y` is the lifted square.
#[inline]
fn shadow_without(a: Square, y: Square, lifted: Square) -> SquareSet
    ensures { (x : ℕ) → x < 64 → has result x ≡ (not (y == lifted) && strictly_between a y x) }
{
    if y == lifted {
        SquareSet::empty()
    } else {
        shadow(a, y)
    }
}

/// The squares behind some man as seen from `a`, once the man on `lifted` is taken away.
#[inline(always)]
pub fn shadows_without(men: &[Man], lifted: Square, a: Square) -> SquareSet
    ensures { (x : ℕ) → x < 64 → has result x ≡ is_blocked_past men.now lifted a x }
{
    let mut set = SquareSet::empty();
    for m in men {
        set = set.union(shadow_without(a, m.at, lifted));
    }
    set
}

/// The squares on which the man bears, once the man on `lifted` is taken away.
#[inline(always)]
pub fn attacks_without(men: &[Man], lifted: Square, m: &Man) -> SquareSet
    ensures { (x : ℕ) → x < 64 → has result x ≡ bears_past men.now lifted m.now x }
{
    let a = m.at;
    match m.kind {
        Kind::King => king_steps(a),
        Kind::Queen => rook_lines(a)
            .union(bishop_lines(a))
            .without(shadows_without(men, lifted, a)),
        Kind::Rook => rook_lines(a).without(shadows_without(men, lifted, a)),
        Kind::Bishop => bishop_lines(a).without(shadows_without(men, lifted, a)),
        Kind::Knight => knight_jumps(a),
        Kind::Pawn => pawn_captures_of(m.side, a),
    }
}
