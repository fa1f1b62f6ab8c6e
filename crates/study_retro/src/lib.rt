//! Tables of distances to mate: built and verified.
//!
//! `build` returns a right table if the tables that its class needs are right: each cell is the least forced mate of its position, and a draw only if neither
//! side forces mate in any number of plies. `verify` returns true exactly for right tables, whatever their bytes. The levels of a table are those of
//! study_levels, which is proved over any game whose positions have numbers; `class_game` is chess as such a game.
#![tactic(auto)]

mod builder;
mod captures;
mod class_game;
mod mover;
mod numbers;
mod rows;

pub use builder::{BuildFault, BuildReport, build, verify};
pub use study_levels::BuildRoom;
pub use study_table::{AddFault, AddRefused, Table, TableSet};
pub use study_values::{Value, value_at};
