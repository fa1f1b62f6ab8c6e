//! The command in a line of a script.
//!
//! `Line` reads the lines of a script one by one, `read_command` reads the command of a line, or reports the first fault of its form, and `read_path`
//! turns a written path into places of children.
#![tactic(auto)]

mod arguments;
mod command;
mod laws;
mod line;
mod parser;
mod path;
mod path_text;

pub use arguments::{as_text, read_one_word};
pub use command::{
    Command, CommandKind, FenCommand, Keyword, NodeCommand, NodeQuery, PathText, SolveDepth,
    SyntaxFault, TableCommand,
};
pub use laws::lines_are_read_again;
pub use line::{Line, LineFault, read_byte};
pub use parser::{read_command, read_keyword, read_mate_moves, read_side};
pub use path::read_path;
pub use path_text::{is_path_word, read_path_word, read_place};
