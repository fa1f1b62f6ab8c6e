//! The report of a composer's studies: a script of commands in, a page or lines of each study out.
//!
//! The report is proved in the libraries `study_report` and `study_review`; the command line, the folder of tables and the exit status
//! are those of `study_report_program`.
#![tactic(auto)]

use std::process::ExitCode;
use study_report_program::studyreport;

/// Reports the studies of standard input with the options of the command line.
fn main(rt: HostRuntime) -> ExitCode {
    studyreport(&rt)
}
