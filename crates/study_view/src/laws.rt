//! Laws over the definitions, stated by functions that do nothing.
ghost use Rattle.study_view.specs.Insertion.{MarksOfMovesAreThoseOfInsertions};
ghost use Rattle.study_view.specs.Survey.{SurveysAreUnique};
ghost use Rattle.study_view.specs.Reported.{SurveysTellTheGame};
ghost use Rattle.study_view.specs.View.{ViewsAreUnique, PlainStudiesHaveOneView};

use study_marks::annotations_are_unique;
use study_moves::values_are_unique;

/// A study has exactly one view at a path.
pub fn views_are_unique()
    ensures { ViewsAreUnique }
{
    values_are_unique();
}

/// A plain study has exactly one view at a path: that of its annotation.
pub fn plain_studies_have_one_view()
    ensures { PlainStudiesHaveOneView }
{
    annotations_are_unique();
    views_are_unique();
}

/// A man has exactly one survey.
pub fn surveys_are_unique()
    ensures { SurveysAreUnique }
{
    values_are_unique();
}

/// A square is written `only` exactly if the position with the man there is valid, the stipulation holds in it, and exactly one legal move keeps it:
/// by the game's values.
pub fn surveys_tell_the_game()
    ensures { SurveysTellTheGame }
{
    values_are_unique();
}

/// The mark that a move would have at a node is the mark of the node with it, after it is inserted and the whole study annotated from scratch.
pub fn marks_of_moves_are_those_of_insertions()
    ensures { MarksOfMovesAreThoseOfInsertions }
{
    values_are_unique();
}
