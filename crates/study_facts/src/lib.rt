//! Facts of the nodes of a study, by the game's values.
//!
//! `holding_moves`, `alternatives`, `refutations` and `missing_moves` list legal moves of a position with the values after them, `timed_alternatives` also
//! with the time that they lose: `waste_of_time` returns whether a move only loses time. `best_move` and `best_play` return the best play from a position.
//! `walk_study` walks a study once, in written order, and hands each node to a `Findings`: `node_after` and `move_of` make a `StudyNode` and a
//! `StudyMove` of it. `move_to` and `children_in` find the moves of the tree at a node; `is_empty` is true of a study without a move of the hero.
#![tactic(auto)]

mod best;
mod children;
mod continuation;
mod empty;
mod fault;
mod laws;
mod mark_tests;
mod missing_defences;
mod move_filters;
mod move_lists;
mod repetition;
mod study_node;
mod time_loss;
mod walk;
mod walk_state;
mod words;
mod zugzwang;

pub use best::{best_move, best_play, better_of, play_on};
pub use children::{child_count, children_in, move_to};
pub use continuation::{EvaluatedMove, NodeContext, is_draw};
pub use empty::{ends_with, is_empty};
pub use fault::{ReviewFault, TextFault, WriteFault};
pub use laws::faults_are_of_the_solution;
pub use mark_tests::{aim_in, value_at};
pub use missing_defences::{Defence, defences};
pub use move_filters::{alternatives, drawing_moves, holding_moves, missing_moves, refutations};
pub use move_lists::contains_move;
pub use repetition::{is_repeatable_within, waste_of_time};
pub use study_node::{StudyMove, StudyNode, move_of, node_after, root_node};
pub use time_loss::{
    Alternative, all_lose_time, count_where, timed_alternatives, waste_of_time_for_goal,
};
pub use walk::{Findings, WalkStep, walk_study};
pub use walk_state::{MoveToNode, WalkState};
pub use words::{add_alone, add_counted, add_line_start, add_move, add_time_verdict, add_value};
pub use zugzwang::{Zugzwang, add_zugzwang_line, add_zugzwang_words, zugzwang_at};
