//! The tree of a study: each node has the move that led to it, a label, and its children in order. Each call is proved equal to that call on a plain tree,
//! and a refused call leaves the tree and its counts unchanged. `edits_in_rows`, `nodes_in_rows` and `rows_are_written` say the same of the tree's rows in
//! written order (a node, all below its first child, then all below its second): a plain tree is its list of rows.
#![tactic(auto)]

mod branch;
mod changes;
mod fault;
mod laws;
mod node;
mod path;
mod tree;

pub use branch::{Child, Subtree};
pub use changes::{LabelChange, Rewriting};
pub use fault::TreeFault;
pub use laws::{edits_in_rows, nodes_in_rows, places_are_shown, rows_are_written};
pub use path::Path;
pub use tree::{MAX_DEPTH, MAX_NODES, NodeRef, Tree};
