//! Games of PGN as a script of studybench and studyreport.
//!
//! What is written is proved in the libraries `study_import` and `study_games`; the command line, the reader and the exit status are
//! those of `study_import_program`.
#![tactic(auto)]

use std::process::ExitCode;
use study_import_program::studyimport;

/// Imports the games of standard input with the options of the command line.
fn main(rt: HostRuntime) -> ExitCode {
    studyimport(&rt)
}
