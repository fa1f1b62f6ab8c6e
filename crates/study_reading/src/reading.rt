//! The state of reading a game's moves.
ghost use Rattle.std.specs.Prelude.{◌≡◌};
ghost use Rattle.study_reading.specs.Lines.{lines_of};
ghost use Rattle.study_reading.specs.Reading.{after_move, symbol_played, Reads};

use crate::followed::Followed;
use crate::lines::Lines;
use crate::moves::MoveFault;
use std::alloc::Allocator;
use study_command::as_text;
use study_games::{LONGEST_SYMBOL, san_in};
use study_marks::is_printable;
use study_notation::SanFault;
use study_text::Text;

/// The study so far, the current line with the waiting ones, and the lines of the script that make the tree.
#[derive(Drop)]
pub struct Reading<'a, F: Followed, A: Allocator> {
    pub study: F,
    pub lines: Lines<'a, A>,
    pub inserts: Text<'a, A>,
}

impl<'a, F: Followed, A: Allocator> Reading<'a, F, A> {
    /// Reads a symbol for a move.
    #[tactic(auto, unfolding(crate::specs::Reading::symbol_played))]
    pub fn play_symbol(&mut self, symbol: &[u8]) -> Result<(), MoveFault>
        ensures { Reads result (symbol_played F.rules (record {
          study = F.study self.old.study;
          lines = lines_of self.old.lines.path.items self.old.lines.begun
              self.old.lines.waiting.items self.old.lines.cut;
          inserts = self.old.inserts;
        }) symbol.now) (record {
          study = F.study self.new.study;
          lines = lines_of self.new.lines.path.items self.new.lines.begun
              self.new.lines.waiting.items self.new.lines.cut;
          inserts = self.new.inserts;
        }) }
    {
        if self.lines.cut >= 1 {
            return Ok(());
        }
        if symbol.len() > LONGEST_SYMBOL {
            return Err(MoveFault::San(SanFault::NotSan));
        }
        let san = san_in(symbol);
        let text = san.as_slice();
        if is_printable(text) {
            self.play(as_text(text))
        } else {
            Err(MoveFault::San(SanFault::NotSan))
        }
    }

    /// Reads the text for a move at the current node.
    #[tactic(auto, unfolding(crate::specs::Reading::after_move))]
    pub fn play(&mut self, san: &str) -> Result<(), MoveFault>
        ensures { Reads result (after_move F.rules (record {
          study = F.study self.old.study;
          lines = lines_of self.old.lines.path.items self.old.lines.begun
              self.old.lines.waiting.items self.old.lines.cut;
          inserts = self.old.inserts;
        }) san.now) (record {
          study = F.study self.new.study;
          lines = lines_of self.new.lines.path.items self.new.lines.begun
              self.new.lines.waiting.items self.new.lines.cut;
          inserts = self.new.inserts;
        }) }
    {
        let step = self
            .study
            .play(self.lines.path.as_slice(), san, &mut self.inserts)?;
        self.lines.go_on(step.place)?;
        Ok(())
    }
}
