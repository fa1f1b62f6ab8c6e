//! Studies as PGN.
//!
//! `write_pgn` writes the exact PGN text of a study: the tags, the stipulation with its verdict, and the tree of moves with their marks, in lines of at most
//! 79 characters (a longer word has a line of its own). The text is completed in memory before the first byte is written.
#![tactic(auto)]

mod fault;
mod laws;
mod move_text;
mod root_comment;
mod tags;
mod value_text;
mod variations;
mod wrap;
mod writer;

pub use fault::PgnFault;
pub use laws::lines_are_greedy;
pub use move_text::{add_move_number, add_san, move_dots};
pub use root_comment::{add_opening_words, add_stipulation, meets_stipulation};
pub use value_text::{add_value, side_name};
pub use writer::{root_mark, write_pgn};
