//! Rights to castle.
ghost use Rattle.std.specs.Prelude.{◌≡◌, ◌&&◌, not};
ghost use Rattle.study_wide.specs.Rights.{touches, rights_after, fits, rights_fit, has_right, no_rights};
ghost use Rattle.study_wide.specs.Rules.{has_rights};

use crate::Wing;
use study_board::{Kind, Man, Side, has_man};
use study_moves::Move;

/// The rights that the two sides have left.
#[derive(Clone, Copy)]
pub struct Rights {
    pub white_short: bool,
    pub white_long: bool,
    pub black_short: bool,
    pub black_long: bool,
}

impl Rights {
    /// No rights.
    pub fn none() -> Rights
        ensures { result ≡ no_rights }
    {
        Rights {
            white_short: false,
            white_long: false,
            black_short: false,
            black_long: false,
        }
    }

    /// Whether a side has a right left.
    pub fn any(self) -> bool
        ensures { result ≡ has_rights self }
    {
        self.white_short || self.white_long || self.black_short || self.black_long
    }

    /// Whether the side has the right to castle to that wing.
    pub fn has(self, side: Side, wing: Wing) -> bool
        ensures { result ≡ has_right self side wing }
    {
        match (side, wing) {
            (Side::White, Wing::Short) => self.white_short,
            (Side::White, Wing::Long) => self.white_long,
            (Side::Black, Wing::Short) => self.black_short,
            (Side::Black, Wing::Long) => self.black_long,
        }
    }

    /// The rights that are left after a move of a king, a rook, or a capture of a rook.
    pub fn after(self, m: Move) -> Rights
        ensures { result ≡ rights_after self m }
    {
        Rights {
            white_short: keeps(self.white_short, &m, 4, 7),
            white_long: keeps(self.white_long, &m, 4, 0),
            black_short: keeps(self.black_short, &m, 60, 63),
            black_long: keeps(self.black_long, &m, 60, 56),
        }
    }
}

/// Whether the move begins or ends on the square of this number.
fn touches(m: &Move, number: u8) -> bool
    ensures { result ≡ touches m.now number }
{
    m.origin.number() == number || m.target.number() == number
}

/// Whether a right that is held stays: the move touches neither its king nor its rook.
fn keeps(held: bool, m: &Move, king: u8, rook: u8) -> bool
    ensures { result ≡ (held && not (touches m.now king) && not (touches m.now rook)) }
{
    held && !touches(m, king) && !touches(m, rook)
}

/// Whether a right that is held has its king and its rook in place.
fn fits(held: bool, men: &[Man], side: Side, king: u8, rook: u8) -> bool
    ensures { result ≡ fits held men.now side king rook }
{
    !held || (has_man(men, side, Kind::King, king) && has_man(men, side, Kind::Rook, rook))
}

/// Whether each right that is held has its king and its rook in place.
#[tactic(auto, unfolding(crate::specs::Rights::rights_fit))]
pub fn rights_fit(men: &[Man], rights: Rights) -> bool
    ensures { result ≡ rights_fit men.now rights }
{
    fits(rights.white_short, men, Side::White, 4, 7)
        && fits(rights.white_long, men, Side::White, 4, 0)
        && fits(rights.black_short, men, Side::Black, 60, 63)
        && fits(rights.black_long, men, Side::Black, 60, 56)
}
