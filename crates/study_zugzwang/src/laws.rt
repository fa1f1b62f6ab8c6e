//! A law over the definitions: a function that does nothing.
ghost use Rattle.study_zugzwang.specs.Zugzwang.{ZugzwangsAreMutual};

use study_moves::bare_agrees;

/// A mutual zugzwang remains one with the other side to move.
pub fn zugzwangs_are_mutual()
    ensures { ZugzwangsAreMutual }
{
    bare_agrees();
}
