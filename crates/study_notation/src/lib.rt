//! Positions as FEN and moves as SAN, read and written exactly.
//!
//! `read_fen` returns the start that a text spells, or the first fault of the text; `read_san` the one legal move that a text means, or why there is none.
//! `write_fen` and `write_san` write the one text for each. Written texts are read back, as long as the counts have at most four digits: `fen_is_read_again`
//! and `san_is_read_again` in `laws` are these theorems. No call takes memory.
#![tactic(auto)]

mod capture_rule;
mod digits;
mod fault;
mod fen_reader;
mod fen_writer;
mod fields;
mod laws;
mod placement;
mod push_text;
mod san;
mod san_parser;
mod san_parts;
mod san_reader;
mod san_writer;
mod start;

pub use digits::read_digits;
pub use fault::{FenFault, SanFault};
pub use fen_reader::read_fen;
pub use fen_writer::{push_number, push_passed, side_letter, write_fen, write_placement};
pub use fields::{FenFields, is_dash, read_count, read_passed, read_side, split_fields};
pub use laws::{
    fen_is_read_again, fen_is_settled, san_is_read_again, san_is_read_exactly,
    san_parts_are_spelled,
};
pub use placement::read_placement;
pub use push_text::{push_byte, push_square};
pub use san::San;
pub use san_parser::parse_san;
pub use san_parts::is_ending;
pub use san_reader::{fits_given, fits_takes, read_san};
pub use san_writer::{push_kind, push_promotion, push_takes, write_san};
pub use start::{Start, number_after, one_more};
