//! The program studybench as a library: its command line, the folder of its tables, the run over both, and the exit status.
//!
//! `studybench` is the whole program. `answer_script` does the same over any files and streams, so that tests see the exit status and what is written
//! to standard error.
#![tactic(auto)]

mod folder;
mod options;
mod program;
mod status;
mod tables;

pub use folder::{FilePages, FolderStore};
pub use options::{Options, folder_of, read_words};
pub use program::{answer_script, run_over_files, studybench};
pub use status::{put_stop, status_of};
pub use tables::open_tables;
