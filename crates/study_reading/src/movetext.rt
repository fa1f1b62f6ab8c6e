//! The moves of a game.
ghost use Rattle.std.specs.Prelude.{◌≡◌, true, length, IfOk, Some};
ghost use Rattle.study_games.specs.Symbols.{said_of};
ghost use Rattle.study_games.specs.Tokens.{token_seen};
ghost use Rattle.study_reading.specs.Notes.{game_of, is_header_tag, said_misplaced, misplaced, token_taken, is_wrong_claim};
ghost use Rattle.study_reading.specs.Notes.{is_wrong_said, is_wrong, game_taken};
ghost use Rattle.study_reading.specs.Movetext.{at_end, game_numbered, read_moves};
ghost use Rattle.study_reading.specs.MovesRead.{Ends, TakesIn};
ghost use Rattle.study_reading.specs.Behind.{to_the_end};

use crate::behind_result::moves_in;
use crate::followed::Followed;
use crate::moves::MoveFault;
use crate::notes::Notes;
use crate::numbering::Numbering;
use crate::reading::Reading;
use crate::token_effects::Reason;
use std::alloc::{AllocError, Allocator};
use study_games::{Claim, Said, Token, TokenFault, begins_feed, claim_in, read_token, say};
use study_notation::SanFault;

/// Why the moves of a game cannot be read to the end.
#[derive(Clone, Copy)]
pub enum Stop {
    Token(TokenFault),
    Taking(Reason),
    OpenVariation,
    /// The number of a move does not fit.
    Numbering,
    /// There are moves behind the result.
    BehindResult,
}

/// The first fault of the moves, and the number of bytes from its place on.
#[derive(Clone, Copy)]
pub struct MovesFault {
    pub why: Stop,
    pub left: usize,
}

/// The state of reading a game, and the notes.
#[derive(Drop)]
pub struct GameReading<'a, F: Followed, A: Allocator> {
    pub reading: Reading<'a, F, A>,
    pub notes: Notes,
}

fn is_header_tag(notes: &Notes, token: Token<'_>) -> bool
    ensures { result ≡ is_header_tag notes.now (token_seen token.entry) }
{
    match token {
        Token::Tag(_, _) => notes.in_header,
        _ => false,
    }
}

fn said_misplaced(notes: &Notes, cut: bool, said: Said) -> Option<Reason>
    ensures { result ≡ said_misplaced notes.now cut said }
{
    match said {
        Said::Word if notes.before_moves => Some(Reason::Move(MoveFault::San(SanFault::NotSan))),
        Said::Move if notes.behind_word && !cut => Some(Reason::BehindWord),
        _ => None,
    }
}

/// Why a word or a move may not stand here.
fn misplaced(notes: &Notes, cut: bool, token: Token<'_>) -> Option<Reason>
    ensures { result ≡ misplaced notes.now cut (token_seen token.entry) }
{
    match token {
        Token::Symbol(text) => said_misplaced(notes, cut, say(text)),
        _ => None,
    }
}

impl<'a, F: Followed, A: Allocator> GameReading<'a, F, A> {
    /// The numbering after a token and before the text behind it, `None` if the token is a number that does not fit.
    fn numbering_after(&self, token: Token<'_>, behind: &[u8]) -> Option<Numbering>
        ensures { let game = game_of (F.study self.now.reading.study)
            self.now.reading.lines.path.items self.now.reading.lines.begun
            self.now.reading.lines.waiting.items self.now.reading.lines.cut
            self.now.reading.inserts self.now.notes in
            result ≡ game_numbered F.rules game (token_seen token.entry) behind.now }
    {
        let lines = &self.reading.lines;
        if lines.cut >= 1 {
            return Some(self.notes.numbering);
        }
        let side = self.reading.study.begins();
        self.notes
            .numbering
            .with_token(side, lines.path.len(), token, behind)
    }

    /// Takes a token that is not a tag of the header. Returns whether the game ends there.
    #[tactic(auto, using(crate::proofs::TokenByToken::noted_takes))]
    fn take_noted(&mut self, token: Token<'_>) -> Result<bool, Reason>
        ensures { let before = game_of
            (F.study self.old.reading.study) self.old.reading.lines.path.items
            self.old.reading.lines.begun
            self.old.reading.lines.waiting.items self.old.reading.lines.cut
            self.old.reading.inserts self.old.notes in
            let after = game_of (F.study self.new.reading.study)
            self.new.reading.lines.path.items self.new.reading.lines.begun
            self.new.reading.lines.waiting.items self.new.reading.lines.cut
            self.new.reading.inserts self.new.notes in
            TakesIn result (token_taken F.rules before (token_seen token.entry)) after }
    {
        let cut = self.reading.lines.cut >= 1;
        if let Some(reason) = misplaced(&self.notes, cut, token) {
            return Err(reason);
        }
        let waits = !self.reading.lines.waiting.is_empty();
        self.notes = self.notes.with_token(cut, waits, token);
        self.reading.take(token)
    }

    /// Whether this claim is false after the move that was just played.
    fn is_wrong_claim(&self, claim: Claim) -> Result<bool, AllocError>
        ensures { let game = game_of (F.study self.now.reading.study)
            self.now.reading.lines.path.items self.now.reading.lines.begun
            self.now.reading.lines.waiting.items self.now.reading.lines.cut
            self.now.reading.inserts self.now.notes in
            IfOk result (λ is. is ≡ is_wrong_claim F.rules game.reading (Some claim)) }
    {
        if self.reading.lines.cut >= 1 {
            return Ok(false);
        }
        self.reading
            .study
            .is_false(self.reading.lines.path.as_slice(), claim)
    }

    /// Whether the signs behind a symbol claim what is false.
    fn is_wrong_symbol(&self, symbol: &[u8]) -> Result<bool, AllocError>
        ensures { let game = game_of (F.study self.now.reading.study)
            self.now.reading.lines.path.items self.now.reading.lines.begun
            self.now.reading.lines.waiting.items self.now.reading.lines.cut
            self.now.reading.inserts self.now.notes in
            IfOk result (λ is. is ≡ is_wrong_said F.rules game.reading symbol.now (said_of symbol.now)) }
    {
        match say(symbol) {
            Said::Move => match claim_in(symbol) {
                None => Ok(false),
                Some(claim) => self.is_wrong_claim(claim),
            },
            _ => Ok(false),
        }
    }

    /// Whether the token is a move with signs that are wrong.
    fn is_wrong(&self, token: Token<'_>) -> Result<bool, AllocError>
        ensures { let game = game_of (F.study self.now.reading.study)
            self.now.reading.lines.path.items self.now.reading.lines.begun
            self.now.reading.lines.waiting.items self.now.reading.lines.cut
            self.now.reading.inserts self.now.notes in
            IfOk result (λ is. is ≡ is_wrong F.rules game.reading (token_seen token.entry)) }
    {
        match token {
            Token::Symbol(text) => self.is_wrong_symbol(text),
            _ => Ok(false),
        }
    }

    /// Takes a token. Returns whether the game ends there.
    fn take(&mut self, token: Token<'_>) -> Result<bool, Reason>
        ensures { let before = game_of
            (F.study self.old.reading.study) self.old.reading.lines.path.items
            self.old.reading.lines.begun
            self.old.reading.lines.waiting.items self.old.reading.lines.cut
            self.old.reading.inserts self.old.notes in
            let after = game_of (F.study self.new.reading.study)
            self.new.reading.lines.path.items self.new.reading.lines.begun
            self.new.reading.lines.waiting.items self.new.reading.lines.cut
            self.new.reading.inserts self.new.notes in
            TakesIn result (game_taken F.rules before (token_seen token.entry)) after }
    {
        if is_header_tag(&self.notes, token) {
            return Ok(false);
        }
        let ended = match self.take_noted(token) {
            Ok(ended) => ended,
            Err(reason) => return Err(reason),
        };
        match self.is_wrong(token) {
            Ok(true) => {
                self.notes.wrong_signs = self.notes.wrong_signs.saturating_add(1);
                Ok(ended)
            }
            Ok(false) => Ok(ended),
            Err(_) => Err(Reason::Move(MoveFault::OutOfMemory)),
        }
    }

    /// The end of the text, where no variation may be open.
    fn end_text<'t>(&self, text: &'t [u8]) -> Result<&'t [u8], MovesFault>
        ensures { let game = game_of (F.study self.now.reading.study)
            self.now.reading.lines.path.items self.now.reading.lines.begun
            self.now.reading.lines.waiting.items self.now.reading.lines.cut
            self.now.reading.inserts self.now.notes in
            Ends (λ t. t.now) result (at_end game) game }
    {
        if self.reading.lines.waiting.is_empty() {
            let (_, end) = text.split_at(text.len());
            Ok(end)
        } else {
            Err(MovesFault {
                why: Stop::OpenVariation,
                left: 0,
            })
        }
    }

    /// Reads a game from its first line up to its result or the end of the text, and returns the rest of the text.
    pub fn read<'t>(&mut self, text: &'t [u8], mut fresh: bool) -> Result<&'t [u8], MovesFault>
        ensures { let before = game_of
            (F.study self.old.reading.study) self.old.reading.lines.path.items
            self.old.reading.lines.begun
            self.old.reading.lines.waiting.items self.old.reading.lines.cut
            self.old.reading.inserts self.old.notes in
            let after = game_of (F.study self.new.reading.study)
            self.new.reading.lines.path.items self.new.reading.lines.begun
            self.new.reading.lines.waiting.items self.new.reading.lines.cut
            self.new.reading.inserts self.new.notes in
            Ends (λ t. t.now) result (read_moves F.rules (length text.now) fresh text.now before) after }
    {
        let mut rest = text;
        let mut fuel = text.len();
        while fuel > 0 {
            let left = rest.len();
            let Some(found) = read_token(rest, fresh) else {
                break;
            };
            match found {
                Err(fault) => {
                    return Err(MovesFault {
                        why: Stop::Token(fault),
                        left,
                    });
                }
                Ok(cut) => {
                    let Some(numbering) = self.numbering_after(cut.token, cut.rest) else {
                        return Err(MovesFault {
                            why: Stop::Numbering,
                            left,
                        });
                    };
                    self.notes.numbering = numbering;
                    match self.take(cut.token) {
                        Ok(true) => return Ok(cut.rest),
                        Ok(false) => {}
                        Err(reason) => {
                            return Err(MovesFault {
                                why: Stop::Taking(reason),
                                left,
                            });
                        }
                    }
                    fresh = begins_feed(rest);
                    rest = cut.rest;
                }
            }
            fuel -= 1;
        }
        self.end_text(text)
    }

    /// Reads a game, and returns the text behind its result, which has no moves.
    #[tactic(auto, using(crate::proofs::NoneBehind::still_reported))]
    pub fn read_whole<'t>(&mut self, text: &'t [u8]) -> Result<&'t [u8], MovesFault>
        ensures { let before = game_of
            (F.study self.old.reading.study) self.old.reading.lines.path.items
            self.old.reading.lines.begun
            self.old.reading.lines.waiting.items self.old.reading.lines.cut
            self.old.reading.inserts self.old.notes in
            let after = game_of (F.study self.new.reading.study)
            self.new.reading.lines.path.items self.new.reading.lines.begun
            self.new.reading.lines.waiting.items self.new.reading.lines.cut
            self.new.reading.inserts self.new.notes in
            Ends (λ t. t.now) result
            (to_the_end (read_moves F.rules (length text.now) true text.now before)) after }
    {
        match self.read(text, true) {
            Ok(behind) => match moves_in(behind) {
                None => Ok(behind),
                Some(left) => Err(MovesFault {
                    why: Stop::BehindResult,
                    left,
                }),
            },
            Err(fault) => Err(fault),
        }
    }
}
