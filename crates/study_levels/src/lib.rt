//! Tables built level by level and checked, over any game whose positions have numbers.
//!
//! `solve_cells` writes into each cell the least forced mate of the position of its number; `are_right` returns true exactly for such cells,
//! however they were made.
//! The traits `Game`, `LabelledGame` and `LevelGame` say what a game must provide for that. Chess as such a game is `study_retro`.
#![tactic(auto)]

mod best_replies;
mod build_room;
mod cell_blocks;
mod consistency;
mod game;
mod initial;
mod level_cells;
mod level_game;
mod levels;
mod propagate;

pub use build_room::BuildRoom;
pub use consistency::{are_right, label};
pub use game::{Game, Location};
pub use initial::{Initial, initial_by_moves};
pub use level_cells::LevelCells;
pub use level_game::{LabelledGame, LevelGame};
pub use levels::solve_cells;
pub use propagate::{
    is_lost_by_moves, is_won, lower_by_moves, lower_cell, mark_by_moves, mark_cell, tells_win,
};
