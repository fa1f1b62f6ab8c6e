//! The text of PGN: its games, their tags and tokens, and the meaning of symbols.
//!
//! `Gathering` cuts a text into games, line by line; `count_tags`, `header_fault` and `tag_value` read the header of a game; `read_token` reads the
//! tokens of its moves one by one, `say` reads a symbol, `san_in` the SAN of a symbol for a move, and `claim_in` its signs of check and mate. `cut_run`
//! cuts a text after its first bytes of one kind. `unescape`, `spell_out` and `short_text` turn the value of a tag into text that a script can hold.
//! `in_english` writes the moves of a game with English letters; `closed_text` closes the variations of a game that breaks off.
#![tactic(auto)]

mod ascii;
pub mod bytes;
mod characters;
mod closing;
mod games;
mod gathering;
mod header;
mod language;
mod laws;
mod letters;
mod runs;
mod spaces;
mod spelling;
mod symbols;
mod token;
mod words;

pub use ascii::{LONGEST_TAG, short_text, spell_out};
pub use characters::is_utf8;
pub use closing::closed_text;
pub use games::{LineKind, Seen, begins_game, kind_of, seen_then, without_mark};
pub use gathering::{Game, Gathering, LARGEST_GAME, LONGEST_LINE};
pub use header::{HeaderFault, count_named, count_tags, header_fault, tag_value, unescape};
pub use language::{Language, in_english, language_name};
pub use laws::{english_keeps_places, games_are_isolated};
pub use letters::is_figurine;
pub use runs::{Run, cut_run};
pub use spelling::{Claim, LONGEST_SYMBOL, claim_in, san_in};
pub use symbols::{Outcome, Said, say};
pub use token::{Cut, Token, TokenFault, begins_ellipsis, begins_feed, read_token};
pub use words::{next_word, trim_end, trim_start, truncate};
