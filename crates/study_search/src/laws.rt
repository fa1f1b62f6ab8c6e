//! Laws over the definitions: functions that do nothing.
ghost use Rattle.study_search.specs.Pairs.{OneOfTwoIsListed};
ghost use Rattle.study_search.specs.Laws.{EachIsFoundOnce, OneOfTwoImagesIsFound, NextFoundsAreAll, FewerOnlyMoves};
ghost use Rattle.study_search.specs.Rows.{RowsAreUnique};

use study_moves::{bare_agrees, values_are_unique};

/// Each position of the class that has the theme is found once, up to symmetry: none is missing.
pub fn each_is_found_once()
    ensures { EachIsFoundOnce }
{
    bare_agrees();
}

/// If the sides of a class have the same men, exactly one of the two colour images of each position is found, with White to move.
pub fn one_of_two_images_is_found()
    ensures { OneOfTwoImagesIsFound }
{
    bare_agrees();
}

/// The numbers that `next_found` finds when it is called again and again are those of all matching positions.
pub fn next_founds_are_all()
    ensures { NextFoundsAreAll }
{}

/// If the hero has to find so many only moves in a row, he has to find any smaller number, too.
pub fn fewer_only_moves()
    ensures { FewerOnlyMoves }
{}

/// A position has at most one row of so many only moves, and only if the hero has to find so many.
pub fn rows_are_unique()
    ensures { RowsAreUnique }
{}

/// If both sides have the same men, one of the two placements of a mutual zugzwang with White to move is listed.
pub fn one_of_two_is_listed()
    ensures { OneOfTwoIsListed }
{
    bare_agrees();
    values_are_unique();
}
