//! Values, tables and sets of tables, and when a table is right.
//!
//! A table has a byte for each number of its class. `Table::at` reads the game's value from a right table, whether it comes from the builder (`study_retro`),
//! a file, or a source of pages. A `TableSet` has, with each table, the tables that its class needs.
#![tactic(auto)]

mod table;
mod table_set;

pub use study_values::{MAX_DISTANCE, Value, value_at};
pub use table::Table;
pub use table_set::{AddFault, AddRefused, TableSet};
