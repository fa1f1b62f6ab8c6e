//! Laws over the definitions, on which tables rest: functions that do nothing.
ghost use Rattle.study_index.specs.Laws.{PositionsHaveAnIndex, NumbersAreRead, ClassesAreNumbered, AlikeAgree, NumbersTell};
ghost use Rattle.study_index.specs.Stepped.{NumbersStep};

/// The index of a valid position is the least of its numbers, with the bit for a capture in passing, and no other number is its index.
pub fn positions_have_an_index()
    ensures { PositionsHaveAnIndex }
{}

/// A number is read as the one valid position in list order whose men have it and whose index it is.
pub fn numbers_are_read()
    ensures { NumbersAreRead }
{}

/// The number of a position of a class is read as a position that is alike. Positions that are alike have the same number and the same mates, and
/// their moves lead to positions that are alike.
pub fn classes_are_numbered()
    ensures { ClassesAreNumbered }
{}

/// Positions that are alike are of the same class, and have the same forced mates.
pub fn alike_mates_agree()
    ensures { AlikeAgree }
{}

/// The effect of a quiet move on a number, if a man is a pawn, no two men are like, and the white king stays: the side to
/// move is turned, and one square replaced.
pub fn numbers_step()
    ensures { NumbersStep }
{}

/// A number encodes the men of its position, one for each slot of its class, the side to move and the passed square.
pub fn numbers_tell()
    ensures { NumbersTell }
{}
