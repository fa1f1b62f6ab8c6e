//! Positions of up to 32 men.
ghost use Rattle.std.specs.Prelude.{◌≡◌, ◌≤◌, ◌↔◌, ◌&&◌, ◌||◌, not, length, None, IfOk, IfErr, IsOk, nat_lt, count_by};
ghost use Rattle.study_board.specs.Position.{man_at, in_order};
ghost use Rattle.study_wide.specs.Wide.{IsWide, of_side, is_crowded, wide_fault};

use crate::Rights;
use crate::rights::rights_fit;
use arrayvec::ArrayVec;
use std::marker::Model;
use study_board::{Man, PositionFault, Side, Square, fault_among, in_order};

/// The most men of a position.
pub const MAX_MEN: usize = 32;

/// Why a list of men is not a position; faults are checked in this order.
#[derive(Clone, Copy)]
pub enum WideFault {
    /// More than sixteen men of a side.
    TooManyMen,
    /// The men are no position.
    Men(PositionFault),
    /// A right to castle without its king or rook in place.
    Castling,
}

/// A position of at most sixteen men a side.
#[derive(Drop)]
pub struct WidePosition {
    men: ArrayVec<Man, MAX_MEN>,
    to_move: Side,
    passed: Option<Square>,
    rights: Rights,
}

impl Model for WidePosition {
    ghost use Rattle.study_wide.specs.Wide.{Wide, IsWide};

    ghost Value = { Wide };

    ghost view = { λ p.
        record { board = record { men = p.men.items; to_move = p.to_move; passed = p.passed }; rights = p.rights } };

    ghost invariant = { λ p.
        IsWide (record { board = record { men = p.men.items; to_move = p.to_move; passed = p.passed }; rights = p.rights }) };
}

/// The same men in a list of their own.
pub fn copied_men<const N: usize>(men: &[Man]) -> ArrayVec<Man, N>
    requires { length men.now ≤ N }
    ensures { result.items ≡ men.now }
{
    let mut list = ArrayVec::new();
    let _fits = list.try_extend_from_slice(men);
    list
}

/// Whether the side has more than sixteen men.
fn has_many(men: &[Man], side: Side) -> bool
    ensures { result ≡ nat_lt 16 (count_by (of_side side) men.now) }
{
    men.iter().filter(|m| m.side == side).count() > 16
}

/// Whether a side has more than sixteen men.
pub fn is_crowded(men: &[Man]) -> bool
    ensures { result ≡ is_crowded men.now }
{
    has_many(men, Side::White) || has_many(men, Side::Black)
}

impl WidePosition {
    /// The position of these men, in any order, or the first reason why they are none.
    #[tactic(auto, unfolding(crate::specs::Wide::wide_fault))]
    pub fn new(
        men: &[Man],
        to_move: Side,
        passed: Option<Square>,
        rights: Rights,
    ) -> Result<WidePosition, WideFault>
        ensures known { IsOk result ↔ (wide_fault men.now to_move passed rights ≡ None) }
        ensures fault { IfErr result (λ e. wide_fault men.now to_move passed rights ≡ Some e) }
        ensures value { IfOk result (λ p.
            p ≡ record { board = record { men = in_order men.now; to_move = to_move; passed = passed }; rights = rights }) }
    {
        let square = passed;
        let held = rights;
        if let Some(fault) = first_fault(men, to_move, square, held) {
            return Err(fault);
        }
        let list = in_order(men);
        let position = WidePosition::of(list, to_move, passed, rights);
        Ok(position)
    }

    /// The position of these men, which are in order.
    pub fn of(
        men: ArrayVec<Man, MAX_MEN>,
        to_move: Side,
        passed: Option<Square>,
        rights: Rights,
    ) -> WidePosition
        requires { IsWide (record { board = record { men = men.items; to_move = to_move; passed = passed }; rights = rights }) }
        ensures value { result ≡ record { board = record { men = men.items; to_move = to_move; passed = passed }; rights = rights } }
    {
        WidePosition {
            men,
            to_move,
            passed,
            rights,
        }
    }

    /// A position equal to this one.
    pub fn copied(&self) -> WidePosition
        ensures { result ≡ self.now }
    {
        WidePosition::of(
            copied_men(self.men()),
            self.to_move,
            self.passed,
            self.rights,
        )
    }

    /// The men in ascending order of their squares.
    #[inline]
    pub fn men(&self) -> &[Man]
        ensures value { result.now ≡ self.now.board.men }
        ensures valid { IsWide self.now }
        ensures few { length result.now ≤ 32 }
    {
        self.men.as_slice()
    }

    /// The man on a square.
    pub fn man_at(&self, x: Square) -> Option<Man>
        ensures { result ≡ man_at self.now.board.men x }
    {
        let men = self.men.as_slice();
        for m in men {
            if m.at == x {
                return Some(*m);
            }
        }
        None
    }

    /// The side to move.
    #[inline]
    pub fn to_move(&self) -> Side
        ensures { result ≡ self.now.board.to_move }
    {
        self.to_move
    }

    /// The square that a pawn has just passed in a double step.
    #[inline]
    pub fn passed(&self) -> Option<Square>
        ensures { result ≡ self.now.board.passed }
    {
        self.passed
    }

    /// The rights to castle.
    #[inline]
    pub fn rights(&self) -> Rights
        ensures { result ≡ self.now.rights }
    {
        self.rights
    }
}

/// The first reason why these men, in any order, are not a position.
#[tactic(auto, unfolding(crate::specs::Wide::wide_fault))]
fn first_fault(
    men: &[Man],
    to_move: Side,
    passed: Option<Square>,
    rights: Rights,
) -> Option<WideFault>
    ensures { result ≡ wide_fault men.now to_move passed rights }
{
    if is_crowded(men) {
        return Some(WideFault::TooManyMen);
    }
    match fault_among(men, to_move, passed) {
        Some(fault) => Some(WideFault::Men(fault)),
        None => {
            if rights_fit(men, rights) {
                None
            } else {
                Some(WideFault::Castling)
            }
        }
    }
}
