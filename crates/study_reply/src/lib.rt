//! Replies to the lines of a script: why a line is refused, and the text of the reply.
//!
//! A name, a path, a move or a table has the same words wherever it stands in a reply.
#![tactic(auto)]

mod game;
mod laws;
mod reason;
mod refusal;
mod reply;
mod reply_text;
mod table_reply;

pub use game::Game;
pub use laws::texts_have_reasons;
pub use reason::reason_of;
pub use refusal::{Argument, Refusal};
pub use reply::{
    Answer, LineAnswer, LineRefusal, Reply, of_command, refused_pieces, refused_words, write_reply,
};
pub use reply_text::{of_probe, word_pieces, write_refusal};
pub use table_reply::TableReply;
