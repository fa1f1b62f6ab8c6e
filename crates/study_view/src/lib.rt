//! The lines that a board shows of a study.
//!
//! `write_view` writes all nodes of a study with their marks, and the legal moves at one of them, each with the mark that it would have there.
//! `write_survey` writes whether a stipulation holds with a man on each other square. Values are probed first, texts are completed in memory, and
//! then written. `passed_squares` and `classes_needed` are for setting up a position.
#![tactic(auto)]

mod classes;
mod fault;
mod laws;
mod move_lines;
mod nodes;
mod passed;
mod probe;
mod survey_squares;
mod survey_text;
mod view;
mod words;

pub use classes::classes_needed;
pub use fault::{SurveyFault, ViewFault};
pub use laws::{
    marks_of_moves_are_those_of_insertions, plain_studies_have_one_view, surveys_are_unique,
    surveys_tell_the_game, views_are_unique,
};
pub use passed::passed_squares;
pub use survey_squares::{SquareResult, SurveyQuestion, SurveyedSquare, survey};
pub use survey_text::write_survey;
pub use view::write_view;
pub use words::add_start;
