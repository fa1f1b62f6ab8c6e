//! The printed report of a script: a page for each of its studies, its refused lines, its remarks, and the list of its entries.
//!
//! `write_pages` follows a script over tables and writes a whole HTML file for a browser to show and print. `Pages` is the same as a `Report`, for
//! the part between the opening and the list.
#![tactic(auto)]

mod ending;
mod entries;
mod left_out;
mod pages;
mod refusals;
mod remarks;
mod script_pages;
mod watch;

pub use left_out::game_reason;
pub use pages::{EntryCount, Pages};
pub use refusals::{refusal_name, write_refused};
pub use script_pages::{write_pages, write_pages_over};
pub use watch::{Unwatched, Watch};
