//! The program studyimport as a library: its command line, the reader that holds one game in memory, and the exit status.
//!
//! `studyimport` is the whole program. `import_stream` does the same over any streams, so that tests see the exit status and what is written to
//! standard error.
#![tactic(auto)]

mod code_page;
mod line_ends;
mod options;
mod program;
mod status;
mod streaming;

pub use code_page::{CodePage, PageReader};
pub use line_ends::LineReader;
pub use options::{Options, read_words};
pub use program::{import_stream, studyimport};
pub use status::{put_games, put_stop, status_of};
pub use streaming::{ImportFault, import_games};
