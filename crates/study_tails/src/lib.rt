//! Studies that begin with more than four men or a right to castle, and the parts of their trees that begin with at most four and none.
#![tactic(auto)]

mod blocks;
mod followed;
mod game;
mod laws;
mod lines;
mod moves;
mod study;
mod tags;
mod tails;

pub use blocks::{GameLeftOut, MAX_TAILS, add_game_reason, add_wide_text, game_reason};
pub use followed::FollowedStudy;
pub use game::begin_wide_game;
pub use laws::{no_tail_is_missed, tails_are_built, tails_are_the_games};
pub use lines::add_stipulation;
pub use study::{WideNode, WideStudy, copied_start};
pub use study_reading::{MoveFault, Step};
pub use tags::NoTagText;
pub use tails::{LeftOut, Tail, path_of};
