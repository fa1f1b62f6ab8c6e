//! FEN and SAN of positions with up to sixteen men a side and rights to castle, read and written exactly.
//!
//! `read_wide_fen` returns the start that a text spells, or the first fault of the text; `read_wide_san` the one legal move that a text means, or why there is
//! none. `write_wide_fen` and `write_wide_san` write the one text for each. Where at most four men and no right are left the texts are those of
//! study_notation: `fen_agrees` and `san_agrees` in `laws`. No call takes memory.
#![tactic(auto)]

mod capture_rule;
mod fen_reader;
mod fen_writer;
mod laws;
mod rights_field;
mod san_reader;
mod san_writer;
mod start;

pub use fen_reader::read_wide_fen;
pub use fen_writer::write_wide_fen;
pub use laws::{
    fen_agrees, san_agrees, wide_fen_is_read_again, wide_fen_is_settled, wide_san_is_read_again,
    wide_san_is_read_exactly,
};
pub use san_reader::read_wide_san;
pub use san_writer::write_wide_san;
pub use start::WideStart;
