//! Values of positions, and their sources.
//!
//! `Values` is the source of the marks of a study: it returns a value for a position, and counts probes. Its clauses say when an answer is the
//! game's value, when a class has no table, and that a device's fault is counted. Tables in memory (`WholeTables`) and table files
//! (`PagedTables` of `study_prober`) implement it.
#![tactic(auto)]

mod fault;
mod size;
mod value;
mod values;

pub use fault::{FileFault, SourceFault};
pub use size::{EN_PASSANT_BIT, HEADER_BYTES, PAGE_BYTES, PAGE_CELLS, cells, file_size, pages};
pub use value::{MAX_DISTANCE, Value, value_at};
pub use values::{ProbeFault, Values, failures_after};
