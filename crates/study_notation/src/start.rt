//! A position with the two counts of a FEN.
ghost use Rattle.std.specs.Prelude.{◌≡◌, true};
ghost use Rattle.study_board.specs.Position.{IsValid};
ghost use Rattle.study_moves.specs.Rules.{is_legal};
ghost use Rattle.study_notation.specs.StartAfter.{one_more, resets_clock, number_after, start_after};

use crate::capture_rule::is_capture;
use study_board::{Kind, Position, Side};
use study_moves::{Move, played};

/// A position, the plies since the last capture or pawn's move, and the number of the move.
#[derive(Drop)]
pub struct Start {
    pub position: Position,
    pub clock: u16,
    pub number: u16,
}

impl Start {
    /// A start equal to this one.
    pub fn copied(&self) -> Start
        ensures { result ≡ self.now }
    {
        Start {
            position: self.position.copied(),
            clock: self.clock,
            number: self.number,
        }
    }

    /// The start after a legal move.
    ///
    /// The clock is 0 after a capture or a pawn's move, otherwise one more; the number is one more after Black's move. Both stay at 65,535.
    #[tactic(auto, unfolding(crate::specs::StartAfter::start_after))]
    pub fn played(&self, m: Move) -> Start
        requires { is_legal self.now.position m ≡ true }
        ensures value { result ≡ start_after self.now m }
        ensures valid { IsValid result.position }
    {
        let clock = if resets_clock(&self.position, &m) {
            0
        } else {
            one_more(self.clock)
        };
        Start {
            position: played(&self.position, m),
            clock,
            number: number_after(self.position.to_move(), self.number),
        }
    }
}

/// One more, up to 65,535.
#[inline]
pub fn one_more(n: u16) -> u16
    ensures { result ≡ one_more n }
{
    n.saturating_add(1)
}

/// The number of the move after a move of the side.
pub fn number_after(side: Side, number: u16) -> u16
    ensures { result ≡ number_after side number }
{
    match side {
        Side::White => number,
        Side::Black => one_more(number),
    }
}

/// Whether a legal move is a capture or a pawn's move.
#[tactic(auto, unfolding(crate::specs::StartAfter::resets_clock))]
fn resets_clock(p: &Position, m: &Move) -> bool
    ensures { result ≡ resets_clock p.now m.now }
{
    match p.man_at(m.origin) {
        None => false,
        Some(man) => man.kind == Kind::Pawn || is_capture(p, &man, m.target),
    }
}
