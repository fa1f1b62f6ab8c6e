//! By rows: the 64 numbers that differ in the square of the last slot alone, all at once, as sets of squares.

pub mod checks;
pub mod levels;
pub mod moves;
pub mod predecessors;
pub mod quiet;
pub mod quiet_moves;
pub mod row;
