//! The positions of a class of material that have a theme, none missing, each once up to symmetry: one a line, or as the script of
//! their studies.
//!
//! Which positions are listed is proved in the library `study_search`, and the list in `study_listing`; the command line, the tables of a folder and the
//! exit status are those of `study_find_program`.
#![tactic(auto)]

use std::process::ExitCode;
use study_find_program::studymine;

/// Searches with the options of the command line.
fn main(rt: HostRuntime) -> ExitCode {
    studymine(&rt)
}
