//! The program studyreport as a library: its command line, the tables of a folder, the report over them, and the exit status.
//!
//! `studyreport` is the whole program. `report_script` does the same over any files and streams, so that tests see the exit status and what is
//! written to standard error.
#![tactic(auto)]

mod old_remarks;
mod options;
mod program;
mod progress;
mod status;

pub use old_remarks::{LinePart, OldRemarks};
pub use options::{Form, Options, read_words};
pub use program::{report_script, studyreport};
pub use progress::Progress;
pub use status::{put_entries, put_old_remarks, put_stop};
