//! By numbers: one position after the other, without the list of its men.

pub mod en_passant;
pub mod moves;
pub mod predecessors;
pub mod quiet;
