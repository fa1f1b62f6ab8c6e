//! Laws over the definitions, stated by functions that do nothing.
ghost use Rattle.study_page.specs.Page.{PagesAreUnique, PlainStudiesHaveOnePage};

use study_marks::annotations_are_unique;
use study_moves::values_are_unique;

/// An annotated study has one page as an entry, to the byte.
pub fn pages_are_unique()
    ensures { PagesAreUnique }
{
    values_are_unique();
}

/// So has a plain study: that of its annotation.
pub fn plain_studies_have_one_page()
    ensures { PlainStudiesHaveOnePage }
{
    annotations_are_unique();
    pages_are_unique();
}
