//! Files of tables: their text, which `write_table` writes and `read_table` reads, and sources of their pages.
//!
//! A table has one text in bytes, `table_text`. `write_table` writes exactly this text, or a prefix of it. `read_table` reads bytes from front to back and
//! returns a table, or the first fault. `tables_are_read_again` proves that the text of a table is read as that table, and `only_texts_are_read` that nothing
//! else is read as a table. `PageSource` returns a file page by page; `MemorySource` is a source in memory, which fails at a request that a test sets.
#![tactic(auto)]

mod format;
mod laws;
mod memory_source;
mod page_source;
mod reader;

pub use format::{file_bytes, write_table};
pub use laws::{only_texts_are_read, pages_are_whole, tables_are_read_again};
pub use memory_source::MemorySource;
pub use page_source::{Header, PageSource, page_cells, read_header};
pub use reader::read_table;
pub use study_values::{FileFault, HEADER_BYTES, PAGE_BYTES, PAGE_CELLS, SourceFault};
