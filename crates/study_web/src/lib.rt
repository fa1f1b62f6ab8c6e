//! The workbench for a page of a browser: bytes in, bytes out.
//!
//! A page hands in a request, a script, and the table files that it keeps, as a directory of spans into one text of bytes. `answer` answers it: `run`
//! with the replies to the script, by `replies_over`, whose theorem of scripts reaches to the bytes: without files there is no premise, and with
//! files the only premise is that those of the classes which the script loads are right. `make_file` builds the table of a class from the files of
//! those that it needs and returns its file. Nothing is kept between two calls.
#![tactic(auto)]

mod answers;
mod class_files;
mod dispatch;
mod export;
mod file_spans;
mod find_words;
mod laws;
mod reply;
mod request;
mod request_fault;
mod run_output;
mod saved;
mod store;
mod tables;
mod wire_text;
mod words;

pub use answers::make::{MakeFault, make_file};
pub use answers::replies::replies_over;
pub use dispatch::answer;
pub use export::{HandedIn, answer_into};
pub use file_spans::{FileSpan, TableFiles, file_in};
pub use laws::made_files_are_read_again;
pub use reply::{Answer, Ending};
pub use request_fault::RequestFault;
pub use run_output::RunOutput;
pub use saved::{Saved, SavedFile, none_saved};
pub use store::SpanStore;
pub use study_script::{RunFault, Summary};
pub use wire_text::put_ending;
