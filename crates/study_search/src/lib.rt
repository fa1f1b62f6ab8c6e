//! The positions of a class of material that have a theme: each once up to symmetry, none missing, none wrong.
//!
//! `has_theme` evaluates whether a position has a theme, by the values of positions; `next_found` finds the next number of a class whose position has
//! one, so that a list is printed, counted or stopped as it is found, and takes no memory. The public functions of `laws` prove that such a list is
//! complete: over honest values its numbers are those of the game's positions with the theme, and for each position of the class that has the theme
//! exactly one image is among them.
#![tactic(auto)]

mod by_cells;
mod finding;
mod laws;
mod longest;
mod only_moves;
mod pairs;
mod rows;
mod themes;
mod value;
mod zugzwang;

pub use finding::{Search, most_only_moves, next_found};
pub use laws::{
    each_is_found_once, fewer_only_moves, next_founds_are_all, one_of_two_images_is_found,
    one_of_two_is_listed, rows_are_unique,
};
pub use longest::longest_mate;
pub use only_moves::{Outcome, has_only_moves, key_move, only_move};
pub use pairs::is_listed_of_two;
pub use rows::{LongestRow, Row, longest_row, row_of};
pub use themes::{Theme, has_theme, is_underpromotion};
pub use value::value_of;
pub use zugzwang::is_zugzwang;
