//! Laws over the definitions, stated by functions that do nothing.
ghost use Rattle.study_marks.specs.Laws.{AnnotationsAreUnique, DualCountsOthers, StudyEditsAreOfRows, FaultsAreOfRows};

use study_moves::values_are_unique;

/// Two annotations of the same plain study are equal.
pub fn annotations_are_unique()
    ensures { AnnotationsAreUnique }
{
    values_are_unique();
}

/// The edits of a plain study are edits of its rows in written order.
pub fn edits_in_rows()
    ensures { StudyEditsAreOfRows }
{
    study_tree::edits_in_rows::<()>();
}

/// The faults of a node in an annotated study are the rows of its block that solution steps join to the block's first row, and whose
/// moves are the hero's and duals or mistakes.
pub fn faults_in_rows()
    ensures { FaultsAreOfRows }
{}

/// A dual has the number of the other legal moves that hold, whether the tree has them or not.
pub fn duals_count_other_moves()
    ensures { DualCountsOthers }
{
    values_are_unique();
}
