//! The program studymine as a library: its command line, the tables of a folder, the list, and the exit status.
//!
//! `studymine` is the whole program. `list_over_files` does the same over any files and streams, so that tests see the exit status and what is written
//! to standard error.
#![tactic(auto)]

mod lists;
mod options;
mod program;
mod progress;
mod status;

pub use lists::answer;
pub use options::{Options, Output, WordFault, read_words};
pub use program::{list_over_files, list_over_values, studymine};
pub use progress::Progress;
pub use status::{put_count, put_progress, put_stop, status_of};
