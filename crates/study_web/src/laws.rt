//! Laws over the definitions, stated by functions that do nothing.
ghost use Rattle.study_web.specs.Laid.{MadeFilesOpen, MadeFilesJoinOthers};

use study_tablefile::tables_are_read_again;

/// A finished file opens as its table if it comes with a later request; and right files stay right if it is laid after them. So all files that a page
/// has made, each after those that it needs, are right.
pub fn made_files_are_read_again()
    ensures opens { MadeFilesOpen }
    ensures joins { MadeFilesJoinOthers }
{
    tables_are_read_again();
}
