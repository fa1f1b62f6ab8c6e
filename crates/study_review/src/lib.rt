//! The review of a study: facts of its nodes, one per line.
//!
//! `write_review` writes them in one walk. Values are probed when they are needed, and kept for the lines of one node.
#![tactic(auto)]

mod best_play_lines;
mod defence_lines;
mod fault_lines;
mod laws;
mod lines;
mod node_lines;
mod probe;
mod review_lines;
mod writing;

pub use laws::{
    alternatives_are_counted, failures_are_refuted, plain_studies_have_one_review,
    reviews_are_unique, time_faults_are_all, time_loss_is_forced, won_positions_hold,
};
pub use writing::{add_stipulation_line, write_review};
