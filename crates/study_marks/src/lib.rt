//! A study whose marks always equal those of annotating it from scratch.
//!
//! A `Bench` has a study: a start, a stipulation, tags, and a tree of moves. The contract of each edit gives the plain study after it, and the marks
//! after it are those of the new study if the values that it probed were the game's. `insert`, `delete` and `promote` update the labels on one path to
//! the root; a refused edit changes nothing.
#![tactic(auto)]

mod bench;
mod bench_edits;
mod child_by_move;
mod edit;
mod evaluate;
mod evaluate_all;
mod fault_sums;
mod laws;
mod mark;
mod mark_rules;
mod marked_node;
mod move_outcomes;
mod node_label;
mod refusal;
mod relabel;
mod replay;
mod stipulation;
mod tag;
mod tree_edits;
mod trial;
mod words;

pub use bench::{Bench, NodeView};
pub use bench_edits::is_printable;
pub use edit::{Edit, Stopped};
pub use laws::{annotations_are_unique, duals_count_other_moves, edits_in_rows, faults_in_rows};
pub use mark::{Mark, MoveMark};
pub use mark_rules::{Aim, aim_of, hero_loses, hero_mates, hero_moves, holds, mark_of};
pub use marked_node::{MarkedChild, MarkedNode};
pub use refusal::Refusal;
pub use stipulation::{Goal, MateMoves, Stipulation};
pub use tag::{TagName, tag_name};
pub use words::{on_move_text, value_words};
