//! A position with the two counts of a FEN.
ghost use Rattle.std.specs.Prelude.{◌≡◌, true};
ghost use Rattle.study_notation.specs.StartAfter.{resets_clock};
ghost use Rattle.study_wide.specs.Wide.{IsWide};
ghost use Rattle.study_wide.specs.Rules.{is_wide_legal};
ghost use Rattle.study_wide_text.specs.StartAfter.{wide_start_after};

use crate::capture_rule::is_capture;
use study_board::Kind;
use study_moves::Move;
use study_notation::{number_after, one_more};
use study_wide::{WidePosition, played};

/// A position, the plies since the last capture or pawn's move, and the number of the move.
#[derive(Drop)]
pub struct WideStart {
    pub position: WidePosition,
    pub clock: u16,
    pub number: u16,
}

impl WideStart {
    /// The start after a legal move.
    ///
    /// The clock is 0 after a capture or a pawn's move, otherwise one more, after castling too; the number is one more after Black's move. Both stay at
    /// 65,535.
    #[tactic(auto, unfolding(crate::specs::StartAfter::wide_start_after))]
    pub fn played(&self, m: Move) -> WideStart
        requires { is_wide_legal self.now.position m ≡ true }
        ensures value { result ≡ wide_start_after self.now m }
        ensures valid { IsWide result.position }
    {
        let clock = if resets_clock(&self.position, &m) {
            0
        } else {
            one_more(self.clock)
        };
        WideStart {
            position: played(&self.position, m),
            clock,
            number: number_after(self.position.to_move(), self.number),
        }
    }
}

/// Whether a legal move is a capture or a pawn's move.
#[tactic(auto, unfolding(study_notation::specs::StartAfter::resets_clock))]
fn resets_clock(p: &WidePosition, m: &Move) -> bool
    ensures { result ≡ resets_clock p.now.board m.now }
{
    match p.man_at(m.origin) {
        None => false,
        Some(man) => man.kind == Kind::Pawn || is_capture(p, &man, m.target),
    }
}
