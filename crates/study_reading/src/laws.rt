//! A law of reading a game.
ghost use Rattle.study_reading.specs.Laws.{AreReadWhole};

use crate::followed::Followed;

/// A game is read to its end, whatever is followed: as many steps as it has bytes are enough, and behind its result there are no moves.
pub fn moves_are_read_whole<F: Followed>()
    ensures { AreReadWhole F.rules }
{}
