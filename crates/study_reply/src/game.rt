//! A game of PGN, as the reply to `pgn`.
ghost use Rattle.std.specs.Prelude.{◌≡◌, true, codes, take};
ghost use Rattle.study_reply.specs.Words.{ends_line};

use std::alloc::Allocator;

/// A study as a game of PGN. It begins with its first tag and ends with a line feed, so it cannot be mistaken for another kind of reply.
#[derive(Drop)]
pub struct Game<'a, A: Allocator> {
    pub text: Vec<u8, &'a A>,
    ghost begun: { take 8 text.items ≡ codes "[Event \"" },
    ghost ended: { ends_line text.items ≡ true },
}
