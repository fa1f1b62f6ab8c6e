//! Laws of every script, whatever the interpreter.
ghost use Rattle.study_script.specs.Laws.{AreUnique, AreByTheRules};

use study_marks::annotations_are_unique;
use study_moves::values_are_unique;

/// Lines have exactly one list of replies, given the environment of each of them, though `solve`, `mark`, `pgn` and `build` are defined by facts
/// about the game and not by a computation.
pub fn replies_are_unique()
    ensures { AreUnique }
{
    annotations_are_unique();
    values_are_unique();
}

/// An edit, and `pgn`, are answered by the rules of `study_command`, which the blocks of an import are read by, too: what they allow is accepted with the
/// document that they give, unless a table or memory is wanting; what they refuse is refused.
pub fn edits_follow_the_rules()
    ensures { AreByTheRules }
{}
