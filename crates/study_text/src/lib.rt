//! Texts in memory, their words, and readers and writers of bytes.
//!
//! `Text` grows at its end. `next_word` cuts a text at its spaces. `write_pieces` writes a text to any writer: all of it, or a fault is reported and the writer
//! has a prefix; `add_pieces` adds the same pieces to a `Text`. `MemoryReader` and `MemoryWriter` are devices in memory that fail at a place that a test sets.
#![tactic(auto)]

mod fault;
mod memory;
mod paths;
mod pieces;
mod text;
mod words;
mod writing;

pub use fault::DeviceFailed;
pub use memory::{MemoryReader, MemoryWriter, WhenFull};
pub use pieces::{Piece, add_pieces, write_pieces};
pub use text::Text;
pub use words::{next_word, space_len};
pub use writing::write_text;
