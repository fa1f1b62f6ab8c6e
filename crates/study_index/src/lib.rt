//! The numbers of positions in the tables of their class, as files keep them: one number for a position and all its mirror images, the least of theirs,
//! and the position in list order of a number.
//!
//! `index` and `decode` take no memory. `classes_are_numbered` proves the facts on which tables rest: the number of a position is read as a position that is
//! alike, and positions that are alike have the same number, like moves and the same game.
#![tactic(auto)]

mod canonical;
mod colour_swap;
mod decoding;
mod departure;
mod en_passant;
mod index_arithmetic;
mod index_of;
mod index_rule;
mod laws;
mod moved_index;
mod numbering;
mod row_departure;
mod row_index_rule;
mod slot_men;
mod slot_order;
mod transform;

pub use decoding::decode;
pub use departure::IndexAfterMove;
pub use index_of::index;
pub use laws::{
    alike_mates_agree, classes_are_numbered, numbers_are_read, numbers_step, numbers_tell,
    positions_have_an_index,
};
pub use moved_index::{index_after_move, index_after_step};
pub use row_departure::{RowIndexAfterMove, row_of_last_man};
pub use slot_men::{DecodedMen, decode_men};
pub use study_values::{EN_PASSANT_BIT, cells};
