//! The head of a study's page: its tags, its diagram, its counts of men, and the words of a move and of a verdict.
#![tactic(auto)]

mod diagram;
mod gbr_code;
mod head;
mod known_tags;
mod laws;
mod mistake;
mod reached;
mod solution;
mod solution_walk;
mod verdict;
mod verdict_words;
mod words;

pub use diagram::{draw_board, draw_mini};
pub use gbr_code::add_counts;
pub use head::{moves_first, put_figure, put_head, title_words};
pub use known_tags::{add_in_utf8, named_tag};
pub use laws::{duals_are_counted, solution_facts_are_unique, sound_has_no_fault};
pub use mistake::{NamedMove, add_move_name, first_mistake};
pub use reached::{Reached, first_to, reached_in};
pub use solution::{DualCounts, DualKind, NamedDual, SolutionFacts, is_main_defence};
pub use solution_walk::solution_facts;
pub use verdict::{Judgement, Stamp, entry_judgement, judgement_of};
pub use verdict_words::{
    add_first_fault, add_legal_name, add_sentence, add_stamp_words, add_start_value,
    add_verdict_words,
};
pub use words::{Ply, add_label, add_line_start, add_mate_distance};
