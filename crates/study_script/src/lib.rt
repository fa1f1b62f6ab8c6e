//! Scripts: the command of a line, its reply, and the state after it.
//!
//! `run` answers a whole script, line by line, over a store of tables; `Session` answers one line, and `run_session` the lines of a
//! script by any interpreter. Studies are kept apart if the settings say so. specs/Replies.antt defines the replies, over a state that
//! has a study without marks.
#![tactic(auto)]

mod changes;
mod dispatch;
mod document;
mod laws;
mod memory_store;
mod position_commands;
mod queries;
mod running;
mod session;
mod store;
mod table_commands;
mod table_edits;
mod tables;

pub use dispatch::begins_position;
pub use document::Document;
pub use laws::{edits_follow_the_rules, replies_are_unique};
pub use memory_store::{MemoryFile, MemoryStore, SharedWriter};
pub use running::{RunFault, Settings, Summary, run, run_session};
pub use session::{Interpreter, Session};
pub use store::{StoreFault, TableStore};
pub use table_commands::refusal_of_paged;
pub use tables::Tables;
