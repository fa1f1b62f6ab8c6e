//! Studies from PGN: the games of a file as a script of studybench.
//!
//! `import` makes the script of a whole text, and `Importer` that of a file that is read byte by byte, with one game in memory. The text written for
//! a game is `block_by` of `specs/Blocks.antt`: a block of lines that is complete in itself, one for each tail if the game begins with more than four men
//! or a right to castle, or one line with the reason why there is none. With `Choice::tails` a game with more men begins where a comment of its main line
//! states a position. The moves are read by a `Bench` whose values are never used, so that the call that accepts a move here is the one that accepts it in
//! a script, or into a `FollowedStudy`. With at most four men `MoveFault::NoSuchNode` never occurs (`faults_are_listed`).
#![tactic(auto)]

mod block;
mod counts;
mod cut_off;
mod faults;
mod game;
mod importer;
mod laws;
mod letters;
mod masks;
mod places;
mod tags;
mod tail_block;
mod tails;
mod wide_block;
mod wide_game;

pub use importer::{Choice, Imported, Importer, import, import_chosen};
pub use laws::{
    blocks_are_isolated, blocks_are_read, faults_are_listed, files_are_read_back,
    games_are_read_whole, moves_are_accepted, scripts_are_read, studies_are_alike,
    studies_are_read_back, tags_are_taken, wide_studies_are_read_back,
};
