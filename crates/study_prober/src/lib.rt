//! Values of positions, from the loaded tables.
//!
//! `Values` is the source of the marks of a study: it returns a value for a position, and counts probes. Its clauses say when an answer is the game's value,
//! when a class has no table, and that a device's fault is counted. `WholeTables` reads tables in memory: it is honest if its tables are right, and has no
//! fault but `NoTable`. `PagedTables` reads pages of table files as they are needed, and caches the last used ones: it is honest if each source returns the
//! file of a right table, and the cache changes no answer. `failing_values` has values that fail at a probe that a test sets.
#![tactic(auto)]

mod cell_pages;
mod failing_values;
mod fault;
mod open_table;
mod page_cache;
mod paged_tables;
mod whole_tables;

pub use cell_pages::CellPages;
pub use failing_values::FailingValues;
pub use fault::PagedFault;
pub use paged_tables::PagedTables;
pub use study_values::{ProbeFault, SourceFault, Values};
pub use whole_tables::WholeTables;
