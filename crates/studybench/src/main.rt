//! The workbench for composers of chess endgame studies: a script of commands in, one reply a line out.
//!
//! The script, its replies and the theorem on them are those of the library `study_script`; the command line, the folder of
//! tables and the exit status are those of `study_program`.
#![tactic(auto)]

use std::process::ExitCode;
use study_program::studybench;

/// Runs the script of standard input with the options of the command line.
fn main(rt: HostRuntime) -> ExitCode {
    studybench(&rt)
}
