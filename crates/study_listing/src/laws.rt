//! Laws over the definitions: functions that do nothing.
ghost use Rattle.study_listing.specs.Laws.{ListsAreUnique, ListsHaveAll, ImagesAreShown, PlacedAreShown, EachIsListed};

use study_moves::{bare_agrees, values_are_unique};
use study_search::each_is_found_once;

/// A range of numbers has exactly one list.
pub fn lists_are_unique()
    ensures { ListsAreUnique }
{
    values_are_unique();
}

/// A list has each number of its range that is listed, once and ascending, and no others.
pub fn lists_have_all()
    ensures { ListsHaveAll }
{}

/// An image is shown exactly if some image has men on the wanted squares, and it has them there.
pub fn images_are_shown()
    ensures { ImagesAreShown }
{}

/// For each position of the class with men on the wanted squares, an image is shown.
pub fn placed_are_shown()
    ensures { PlacedAreShown }
{
    bare_agrees();
}

/// Each position of the class that has the theme and passes the filters is listed.
pub fn each_is_listed()
    ensures { EachIsListed }
{
    bare_agrees();
    each_is_found_once();
}
