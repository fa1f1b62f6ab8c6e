//! Counts and notes beside the moves.
ghost use Rattle.std.specs.Prelude.{◌≡◌, codes};
ghost use Rattle.std.specs.Str.{bytes_eq};
ghost use Rattle.study_games.specs.Games.{one_more};
ghost use Rattle.study_games.specs.Symbols.{said_of};
ghost use Rattle.study_games.specs.Tokens.{token_seen};
ghost use Rattle.study_reading.specs.Notes.{none_yet, after_header, with_aside, with_comment, with_null_move, with_move, with_result, with_said, with_sign, with_token};
ghost use Rattle.study_reading.specs.Notes.{with_word};

use crate::aims::{aim_in, goal_signed, is_unread_comment};
use crate::numbering::Numbering;
use study_games::{Outcome, Said, Token, say};
use study_marks::{Goal, Stipulation};

/// Counts of what the script omits, the stipulation that the game states, and its first number. Counts saturate.
#[derive(Clone, Copy)]
pub struct Notes {
    pub comments: u32,
    /// Words among the moves.
    pub words: u32,
    /// NAGs and glyphs.
    pub asides: u32,
    /// Moves played, including those that repeat a move of the tree.
    pub moves: u32,
    pub null_moves: u32,
    /// Moves after a null move.
    pub moves_behind: u32,
    /// Signs of check and mate behind moves that do not give it.
    pub wrong_signs: u32,
    /// Only tags, comments and blanks were read.
    pub in_header: bool,
    pub before_moves: bool,
    /// Behind a word, with at most blanks, comments and NAGs between.
    pub behind_word: bool,
    pub has_comment: bool,
    /// The stipulation in the first comment before the moves, if it names the hero.
    pub opening: Option<Stipulation>,
    /// The goal in this comment, if it names no hero.
    pub opening_goal: Option<Goal>,
    /// This comment has the form of a stipulation, and states none that is read.
    pub opening_unread: bool,
    /// The result after the moves.
    pub outcome: Option<Outcome>,
    pub numbering: Numbering,
}

impl Notes {
    /// Before the first token.
    pub fn new() -> Notes
        ensures { result ≡ none_yet }
    {
        Notes {
            comments: 0,
            words: 0,
            asides: 0,
            moves: 0,
            null_moves: 0,
            moves_behind: 0,
            wrong_signs: 0,
            in_header: true,
            before_moves: true,
            behind_word: false,
            has_comment: false,
            opening: None,
            opening_goal: None,
            opening_unread: false,
            outcome: None,
            numbering: Numbering {
                first: None,
                pairs: false,
            },
        }
    }

    fn after_header(self) -> Notes
        ensures { result ≡ after_header self }
    {
        Notes {
            in_header: false,
            behind_word: false,
            ..self
        }
    }

    fn with_word(self) -> Notes
        ensures { result ≡ with_word self }
    {
        Notes {
            in_header: false,
            words: self.words.saturating_add(1),
            behind_word: true,
            ..self
        }
    }

    fn with_aside(self) -> Notes
        ensures { result ≡ with_aside self }
    {
        Notes {
            in_header: false,
            asides: self.asides.saturating_add(1),
            ..self
        }
    }

    fn with_comment(self, text: &[u8]) -> Notes
        ensures { result ≡ with_comment self text.now }
    {
        let comments = self.comments.saturating_add(1);
        if self.before_moves && !self.has_comment {
            Notes {
                comments,
                has_comment: true,
                opening: aim_in(text),
                opening_goal: goal_signed(text),
                opening_unread: is_unread_comment(text),
                ..self
            }
        } else {
            Notes { comments, ..self }
        }
    }

    fn with_rest(self) -> Notes
        ensures { result ≡ record self { comments = one_more self.comments } }
    {
        Notes {
            comments: self.comments.saturating_add(1),
            ..self
        }
    }

    fn with_null_move(self, cut: bool) -> Notes
        ensures { result ≡ with_null_move self cut }
    {
        let null_moves = if cut {
            self.null_moves
        } else {
            self.null_moves.saturating_add(1)
        };
        Notes {
            in_header: false,
            before_moves: false,
            behind_word: false,
            null_moves,
            ..self
        }
    }

    fn with_move(self, cut: bool) -> Notes
        ensures { result ≡ with_move self cut }
    {
        if cut {
            return Notes {
                in_header: false,
                before_moves: false,
                behind_word: false,
                moves_behind: self.moves_behind.saturating_add(1),
                ..self
            };
        }
        Notes {
            in_header: false,
            before_moves: false,
            behind_word: false,
            moves: self.moves.saturating_add(1),
            ..self
        }
    }

    fn with_result(self, waits: bool, outcome: Outcome) -> Notes
        ensures { result ≡ with_result self waits outcome }
    {
        if waits {
            return self.after_header();
        }
        Notes {
            in_header: false,
            behind_word: false,
            outcome: Some(outcome),
            ..self
        }
    }

    fn with_symbol(self, cut: bool, waits: bool, symbol: &[u8]) -> Notes
        ensures { result ≡ with_said self cut waits (said_of symbol.now) }
    {
        match say(symbol) {
            Said::Number => self.after_header(),
            Said::Result(outcome) => self.with_result(waits, outcome),
            Said::NullMove => self.with_null_move(cut),
            Said::Passing => Notes {
                in_header: false,
                ..self
            },
            Said::Aside => self.with_aside(),
            Said::Word => self.with_word(),
            Said::Move => self.with_move(cut),
        }
    }

    fn with_sign(self, cut: bool, text: &[u8]) -> Notes
        ensures { result ≡ with_sign self cut (bytes_eq text.now (codes "--")) }
    {
        if text == b"--".as_slice() {
            self.with_null_move(cut)
        } else {
            self.with_aside()
        }
    }

    /// With a token noted; `cut`: a null move of its line precedes it; `waits`: a line waits.
    pub fn with_token(self, cut: bool, waits: bool, token: Token<'_>) -> Notes
        ensures { result ≡ with_token self cut waits (token_seen token.entry) }
    {
        match token {
            Token::Blank | Token::Tag(_, _) => self,
            Token::Comment(text) => self.with_comment(text),
            Token::Rest(_) => self.with_rest(),
            Token::Aside => self.with_aside(),
            Token::Open | Token::Close | Token::Star => self.after_header(),
            Token::Sign(text) => self.with_sign(cut, text),
            Token::Symbol(text) => self.with_symbol(cut, waits, text),
        }
    }
}
