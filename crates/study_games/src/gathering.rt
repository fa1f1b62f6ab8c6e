//! A game that comes in line by line.
ghost use Rattle.std.specs.Prelude.{◌≡◌, Some, None, OnOk, IfSome};
ghost use Rattle.std.specs.Option.{option_map};
ghost use Rattle.study_games.specs.Games.{with_next, ends_before, game_seen, one_more, no_line, with_text, with_line};

use crate::games::{LineKind, Seen, begins_game, seen_then};
use std::alloc::{AllocError, Allocator};
use std::marker::Model;
use study_text::Text;

/// The largest size of a game, in bytes.
pub const LARGEST_GAME: usize = 1_048_576;

/// The number of bytes of a line that are kept: more than a game may have, even if three of them are a byte order mark.
pub const LONGEST_LINE: usize = 1_048_580;

/// The current game, and the number of the next line. Its bytes are not kept if they are too many.
#[derive(Drop)]
pub struct Gathering<'a, A: Allocator> {
    alloc: &'a A,
    next: u32,
    has_begun: bool,
    first: u32,
    is_too_large: bool,
    text: Text<'a, A>,
    seen: Seen,
}

impl<'a, A: Allocator> Model for Gathering<'a, A> {
    ghost use Rattle.study_games.specs.Games.{Gathered, gathered_game};

    ghost Value = { Gathered };

    ghost view = { λ g. gathered_game g.next g.has_begun g.first g.is_too_large g.text g.seen };
}

/// The number of a game's first line, and its bytes; `None` if they are too many.
#[derive(Clone, Copy, Debug)]
pub struct Game<'t> {
    pub line: u32,
    pub text: Option<&'t [u8]>,
}

impl<'a, A: Allocator> Gathering<'a, A> {
    /// Before the first line.
    pub fn new(alloc: &'a A) -> Self
        ensures { result ≡ record { next = 1; begun = None } }
    {
        Gathering {
            alloc,
            next: 1,
            has_begun: false,
            first: 1,
            is_too_large: false,
            text: Text::new(alloc),
            seen: Seen::default(),
        }
    }

    /// The number of the next line.
    pub fn next(&self) -> u32
        ensures { result ≡ self.now.next }
    {
        self.next
    }

    /// Whether a line of this kind begins the next game.
    pub fn ends_before(&self, kind: LineKind) -> bool
        ensures { result ≡ ends_before self.now.begun kind }
    {
        self.has_begun && begins_game(self.seen, kind)
    }

    /// The current game.
    pub fn game(&self) -> Option<Game<'_>>
        ensures { option_map game_seen result ≡ option_map (λ g. g.game) self.now.begun }
    {
        if !self.has_begun {
            return None;
        }
        if self.is_too_large {
            return Some(Game {
                line: self.first,
                text: None,
            });
        }
        Some(Game {
            line: self.first,
            text: Some(self.text.as_slice()),
        })
    }

    /// Drops the current game.
    pub fn close(&mut self)
        ensures { self.new ≡ record { next = self.old.next; begun = None } }
    {
        self.has_begun = false;
    }

    /// Adds a line to the current game, or begins a game with it.
    pub fn add_line(&mut self, line: &[u8], kind: LineKind) -> Result<(), AllocError>
        ensures { OnOk result (self.new ≡ with_next self.old line.now kind) }
    {
        if self.has_begun {
            return self.extend(line, kind);
        }
        if kind == LineKind::Silent {
            self.pass();
            return Ok(());
        }
        self.begin();
        self.extend(line, kind)
    }

    /// Skips a line.
    fn pass(&mut self)
        ensures { self.new ≡ record { next = one_more self.old.next; begun = self.old.begun } }
    {
        self.next = self.next.saturating_add(1);
    }

    /// A game begins at the next line.
    fn begin(&mut self)
        ensures { self.new ≡ record { next = self.old.next; begun = Some (no_line self.old.next) } }
    {
        self.has_begun = true;
        self.first = self.next;
        self.is_too_large = false;
        self.text = Text::new(self.alloc);
        self.seen = Seen::default();
    }

    /// Adds bytes to those of the current game, unless they are too many.
    fn add_bytes(&mut self, line: &[u8]) -> Result<(), AllocError>
        ensures { IfSome self.old.begun (λ g.
            OnOk result (self.new
            ≡ record { next = self.old.next; begun = Some (with_text g line.now) })) }
    {
        if self.is_too_large {
            return Ok(());
        }
        let len = self.text.as_slice().len();
        if len <= LARGEST_GAME && line.len() <= LARGEST_GAME - len {
            return self.text.add(line);
        }
        self.is_too_large = true;
        Ok(())
    }

    /// Adds a line to the current game.
    fn extend(&mut self, line: &[u8], kind: LineKind) -> Result<(), AllocError>
        ensures { IfSome self.old.begun
            (λ g.
            OnOk result (self.new
            ≡ record { next = one_more self.old.next; begun = Some (with_line g line.now kind) })) }
    {
        self.add_bytes(line)?;
        self.seen = seen_then(self.seen, kind);
        self.pass();
        Ok(())
    }
}
