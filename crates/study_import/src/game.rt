//! A game whose positions have at most four men, followed move by move.

pub mod few_men;
pub mod insert_line;
pub mod moves;
pub mod values;
