//! Positions of up to sixteen men a side with rights to castle, their legal moves, and the positions after them.
//!
//! A `WidePosition` has today's board of any number of men, and the rights to castle that are left. Its moves are those of one man, by the rules for four men,
//! and castling, which is the king's move of two squares. `narrow` gives the `Position` where at most four men and no right are left: from there on both
//! rules are the same, and so is the game (`few_men_have_the_same_game`). No call takes memory.
#![tactic(auto)]

mod castling;
mod laws;
mod legal;
mod mate;
mod movegen;
mod play;
mod rights;
mod wide;

pub use castling::{Wing, can_castle, castling_move, is_castling_move};
pub use laws::{few_men_agree, few_men_have_the_same_game, small_stays_small};
pub use legal::{is_legal, is_plain_move, wing_of};
pub use mate::{in_check, is_mate, is_stalemate};
pub use movegen::{MAX_MOVES, MoveList, legal_moves};
pub use play::{narrow, played, widen};
pub use rights::{Rights, rights_fit};
pub use wide::{MAX_MEN, WideFault, WidePosition, is_crowded};
