//! Laws of the lines of every script.
ghost use Rattle.study_command.specs.Laws.{AreReadAgain, AreReadAgainBehindReturns};

/// Lines that are written one below the other are the lines of that script, with either of the two line ends.
pub fn lines_are_read_again()
    ensures feeds { AreReadAgain }
    ensures returns { AreReadAgainBehindReturns }
{}
