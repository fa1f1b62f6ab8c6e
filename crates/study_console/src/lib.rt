//! What the programs share: the words of the process, and how a program ends whose command line gives it nothing to do.
//!
//! A stop is a line on standard error that begins with the program's name: `studybench: OutOfMemory`.
#![tactic(auto)]

mod command_line;
mod status;

pub use command_line::{VERSION, print_usage, words_of};
pub use status::report_stop;
