//! Lists of found positions: the request of words, the line of a position or its study, and the list as it is found.
//!
//! `study_search` states and proves which positions are listed, and that none is missing; the texts of FENs and moves are those of `study_notation`.
//! `list_found` writes the whole list, `list_numbers` that of a range of numbers, and `count_found` and `count_numbers` count; the public functions
//! of `laws` prove that there is exactly one such list, and that it has each position.
#![tactic(auto)]

mod facts;
mod families;
mod fault;
mod features;
mod filter_words;
mod filters;
mod laws;
mod listed;
mod listing;
mod main_line;
mod piece;
mod piece_words;
mod request;
mod text;

pub use facts::{Facts, Wanted, facts_of};
pub use fault::Stop;
pub use features::Feature;
pub use filter_words::Unread;
pub use filters::{Filters, Placed, Selection};
pub use laws::{
    each_is_listed, images_are_shown, lists_are_unique, lists_have_all, placed_are_shown,
};
pub use listed::has_like_sides;
pub use listing::{
    MAX_STUDIES, NoWatch, Numbers, Watch, count_found, count_numbers, list_found, list_numbers,
    selection_of,
};
pub use piece::{classes_for, need_tables, write_piece};
pub use piece_words::{Piece, PieceFault, read_piece};
pub use request::{Request, read_request};
pub use text::{Form, Listed, text_of};
