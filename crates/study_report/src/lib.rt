//! A report of the studies of a script.
//!
//! `report_session` goes through a script as studybench does and passes the study of each accepted `pgn` line to a `Report`, and each refused line in its
//! place. Lines of tables are skipped: the tables are those that are loaded before the first line. `Lines` writes facts as lines of plain text.
//! `write_report` takes the tables, and needs no files; `write_report_over` also takes a store, of which it opens no file.
#![tactic(auto)]

mod line_kind;
mod line_outcome;
mod lines;
mod no_files;
mod remarks;
mod report;
mod report_line;
mod script_report;
mod section;
mod unread_line;

pub use line_kind::{LineKind, kind_of};
pub use lines::Lines;
pub use no_files::NoFiles;
pub use remarks::{begins, behind, is_left_out, is_not_read, statement, subject};
pub use report::Report;
pub use script_report::{report_session, write_report, write_report_over};
pub use study_facts::{ReviewFault, WriteFault};
