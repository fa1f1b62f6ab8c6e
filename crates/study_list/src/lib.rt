//! The list of a script's studies as comma-separated values (RFC 4180): a record for each study, with its verdict, for each
//! refused line, and for each game that was left out of an imported script.
//!
//! `write_list` follows a script over tables and writes the head and the records, for a spreadsheet. `Records` is the same as a `Report`, for the
//! records.
#![tactic(auto)]

mod records;
mod remarks;
mod script_list;

pub use records::Records;
pub use script_list::write_list;
