//! Remarks of an import in a script: one writer, one reader, and the law that what is written is read again.
//!
//! A remark is a line that begins with `#!`, with which no person begins a comment; a script has no command in it.
#![tactic(auto)]

mod laws;
mod numbers;
mod reading;
mod remark;
mod writing;

pub use laws::remarks_are_read_again;
pub use reading::{read_old_remark, read_remark};
pub use remark::{Doubt, Original, Remark, Source, Subject};
pub use writing::add_remark;
