//! An entry of a report: its number, how it stands in what it was taken from, and the names there.
//!
//! A script has its tags in plain ASCII; `Names` are the texts of the tags in their own letters, as far as they are known.
#![tactic(auto)]

mod entry;
mod name;

pub use entry::{EntryInfo, Names, Origin, Standing};
pub use name::Name;
