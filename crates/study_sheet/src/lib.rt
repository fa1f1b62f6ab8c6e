//! A sheet of diagrams: each study of a script as a place with its number, its stipulation and its key, twelve to a page.
//!
//! `write_sheet` follows a script over tables and writes a whole HTML file for a browser to show and print. `Sheet` is the same as a `Report`, for
//! the part between the opening and the closing.
#![tactic(auto)]

mod script_sheet;
mod sheet;

pub use script_sheet::write_sheet;
pub use sheet::Sheet;
