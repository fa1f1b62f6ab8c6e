//! Refusals of a tree.

use thiserror::Error;

/// Why a tree refused a call; reasons are checked in this order.
#[derive(Clone, Copy, Debug, PartialEq, Eq, Error)]
pub enum TreeFault {
    #[error("the path leads to no node")]
    NoSuchNode,
    #[error("the root cannot be removed or moved")]
    Root,
    #[error("the node is the first among its siblings")]
    AlreadyFirst,
    #[error("the node is at the greatest depth that a tree has")]
    TooDeep,
    #[error("the tree has as many nodes as a tree may have")]
    TreeFull,
    #[error("no memory is left")]
    OutOfMemory,
}
