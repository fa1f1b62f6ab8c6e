//! Reading a game: what its moves, numbers, comments and result say.
//!
//! `GameReading::read_whole` reads the moves of a game into what it follows (`Followed`): a study of some kind, whose rules say which texts are moves and
//! what they lead to. What is read is `read_moves` of `specs/Movetext.antt`, whatever is followed.
#![tactic(auto)]

mod aims;
mod behind_result;
mod followed;
mod laws;
mod lines;
mod moves;
mod movetext;
mod notes;
mod numbering;
mod reading;
mod token_effects;

pub use aims::{
    Aim, Doubts, Sources, aim_by_sources, aim_stated, is_unread_tag, outcome_of_tag, signed_by,
    unaimed_words,
};
pub use followed::Followed;
pub use laws::moves_are_read_whole;
pub use lines::{LineFault, Lines};
pub use moves::{MoveFault, Step};
pub use movetext::{GameReading, MovesFault, Stop};
pub use notes::Notes;
pub use numbering::{MoveNumber, Numbering};
pub use reading::Reading;
pub use token_effects::Reason;
