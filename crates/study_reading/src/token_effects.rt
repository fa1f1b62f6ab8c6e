//! The effect of a token.
ghost use Rattle.std.specs.Prelude.{codes};
ghost use Rattle.std.specs.Str.{bytes_eq};
ghost use Rattle.study_reading.specs.Lines.{begin_line, end_line};
ghost use Rattle.study_reading.specs.Reading.{symbol_played};
ghost use Rattle.study_games.specs.Symbols.{said_of};
ghost use Rattle.study_games.specs.Tokens.{token_seen};
ghost use Rattle.study_reading.specs.Taken.{reading_of, on_line, at_result, at_null_move, on_move, taken_symbol, taken_sign, after_token, Takes};

use crate::followed::Followed;
use crate::lines::LineFault;
use crate::moves::MoveFault;
use crate::reading::Reading;
use std::alloc::Allocator;
use study_games::{Said, Token, say};

/// Why reading the moves of a game stops.
#[derive(Clone, Copy)]
pub enum Reason {
    Move(MoveFault),
    Line(LineFault),
    /// There is a tag among the moves.
    TagInMoves,
    /// There is a null move in the main line.
    NullMove,
    /// A move stands right behind a word, which may be a part of it.
    BehindWord,
}

impl<'a, F: Followed, A: Allocator> Reading<'a, F, A> {
    fn take_begin(&mut self) -> Result<bool, Reason>
        ensures { let before = reading_of
            (F.study self.old.study) self.old.lines.path.items self.old.lines.begun
            self.old.lines.waiting.items self.old.lines.cut self.old.inserts in
            let after = reading_of (F.study self.new.study)
            self.new.lines.path.items self.new.lines.begun
            self.new.lines.waiting.items self.new.lines.cut self.new.inserts in
            Takes result (on_line before (begin_line before.lines)) after }
    {
        match self.lines.begin() {
            Ok(()) => Ok(false),
            Err(fault) => Err(Reason::Line(fault)),
        }
    }

    fn take_end(&mut self) -> Result<bool, Reason>
        ensures { let before = reading_of
            (F.study self.old.study) self.old.lines.path.items self.old.lines.begun
            self.old.lines.waiting.items self.old.lines.cut self.old.inserts in
            let after = reading_of (F.study self.new.study)
            self.new.lines.path.items self.new.lines.begun
            self.new.lines.waiting.items self.new.lines.cut self.new.inserts in
            Takes result (on_line before (end_line before.lines)) after }
    {
        match self.lines.end() {
            Ok(()) => Ok(false),
            Err(fault) => Err(Reason::Line(fault)),
        }
    }

    fn take_result(&mut self) -> Result<bool, Reason>
        ensures { let before = reading_of
            (F.study self.old.study) self.old.lines.path.items self.old.lines.begun
            self.old.lines.waiting.items self.old.lines.cut self.old.inserts in
            let after = reading_of (F.study self.new.study)
            self.new.lines.path.items self.new.lines.begun
            self.new.lines.waiting.items self.new.lines.cut self.new.inserts in
            Takes result (at_result before) after }
    {
        Ok(self.lines.waiting.is_empty())
    }

    fn take_null_move(&mut self) -> Result<bool, Reason>
        ensures { let before = reading_of
            (F.study self.old.study) self.old.lines.path.items self.old.lines.begun
            self.old.lines.waiting.items self.old.lines.cut self.old.inserts in
            let after = reading_of (F.study self.new.study)
            self.new.lines.path.items self.new.lines.begun
            self.new.lines.waiting.items self.new.lines.cut self.new.inserts in
            Takes result (at_null_move before) after }
    {
        if self.lines.waiting.is_empty() {
            return Err(Reason::NullMove);
        }
        if self.lines.cut < 1 {
            self.lines.cut = 1;
        }
        Ok(false)
    }

    fn take_move(&mut self, symbol: &[u8]) -> Result<bool, Reason>
        ensures { let before = reading_of
            (F.study self.old.study) self.old.lines.path.items self.old.lines.begun
            self.old.lines.waiting.items self.old.lines.cut self.old.inserts in
            let after = reading_of (F.study self.new.study)
            self.new.lines.path.items self.new.lines.begun
            self.new.lines.waiting.items self.new.lines.cut self.new.inserts in
            Takes result (on_move (symbol_played F.rules before symbol.now)) after }
    {
        match self.play_symbol(symbol) {
            Ok(()) => Ok(false),
            Err(fault) => Err(Reason::Move(fault)),
        }
    }

    fn take_symbol(&mut self, symbol: &[u8]) -> Result<bool, Reason>
        ensures { let before = reading_of
            (F.study self.old.study) self.old.lines.path.items self.old.lines.begun
            self.old.lines.waiting.items self.old.lines.cut self.old.inserts in
            let after = reading_of (F.study self.new.study)
            self.new.lines.path.items self.new.lines.begun
            self.new.lines.waiting.items self.new.lines.cut self.new.inserts in
            Takes result (taken_symbol F.rules before symbol.now (said_of symbol.now)) after }
    {
        match say(symbol) {
            Said::Number => Ok(false),
            Said::Result(_) => self.take_result(),
            Said::NullMove => self.take_null_move(),
            Said::Passing | Said::Aside | Said::Word => Ok(false),
            Said::Move => self.take_move(symbol),
        }
    }

    fn take_sign(&mut self, text: &[u8]) -> Result<bool, Reason>
        ensures { let before = reading_of
            (F.study self.old.study) self.old.lines.path.items self.old.lines.begun
            self.old.lines.waiting.items self.old.lines.cut self.old.inserts in
            let after = reading_of (F.study self.new.study)
            self.new.lines.path.items self.new.lines.begun
            self.new.lines.waiting.items self.new.lines.cut self.new.inserts in
            Takes result (taken_sign before (bytes_eq text.now (codes "--"))) after }
    {
        if text == b"--".as_slice() {
            self.take_null_move()
        } else {
            Ok(false)
        }
    }

    /// Takes a token. Returns whether the game ends there.
    pub fn take(&mut self, token: Token<'_>) -> Result<bool, Reason>
        ensures { let before = reading_of
            (F.study self.old.study) self.old.lines.path.items self.old.lines.begun
            self.old.lines.waiting.items self.old.lines.cut self.old.inserts in
            let after = reading_of (F.study self.new.study)
            self.new.lines.path.items self.new.lines.begun
            self.new.lines.waiting.items self.new.lines.cut self.new.inserts in
            Takes result (after_token F.rules before (token_seen token.entry)) after }
    {
        match token {
            Token::Blank | Token::Aside | Token::Comment(_) | Token::Rest(_) => Ok(false),
            Token::Open => self.take_begin(),
            Token::Close => self.take_end(),
            Token::Star => self.take_result(),
            Token::Tag(_, _) => Err(Reason::TagInMoves),
            Token::Sign(text) => self.take_sign(text),
            Token::Symbol(text) => self.take_symbol(text),
        }
    }
}
