//! Laws over the definitions, stated by functions that do nothing.
ghost use Rattle.study_tree.specs.Laws.{EditsAreOfRows, NodesAreOfRows, PlacesAreShown, RowsAreWritten};

/// An edit of a tree is an edit of its rows in written order: add last inserts a row after the parent's block, remove deletes the block, move up exchanges
/// the block with that of the sibling before it, and relabel changes the block's first row.
pub fn edits_in_rows<L>()
    ensures { EditsAreOfRows L }
{}

/// A node shows the contents of the first row of its block, and a tree has as many nodes as rows.
pub fn nodes_in_rows<L>()
    ensures { NodesAreOfRows L }
{}

/// There is a node at a path exactly if the path shows one, and the place of a new last child is the number of children that it shows.
pub fn places_are_shown<L>()
    ensures { PlacesAreShown L }
{}

/// The rows of a tree are rows in written order, and each such list of rows belongs to exactly one tree.
pub fn rows_are_written<L>()
    ensures { RowsAreWritten L }
{}
