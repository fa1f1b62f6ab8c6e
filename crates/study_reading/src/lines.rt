//! The current line, and the lines that wait for the end of a variation.
ghost use Rattle.std.specs.Prelude.{◌≡◌, ◌++◌, ◌∷◌, [], OnOk};
ghost use Rattle.study_reading.specs.Lines.{lines_of, begin_line, end_line, Leads};

use arrayvec::ArrayVec;
use std::alloc::{AllocError, Allocator};

/// The largest number of waiting lines.
pub const MAX_WAITING: usize = 256;

/// A waiting line: the place of the move that the variation replaces, and the length of the line's path when it began.
#[derive(Clone, Copy, Default)]
pub struct Waiting {
    pub replaced: u16,
    pub begun: usize,
}

/// Why a parenthesis cannot be read.
#[derive(Clone, Copy)]
pub enum LineFault {
    /// A variation begins before the first move of its line.
    NoMoveBefore,
    /// More than 256 variations within one another.
    TooNested,
    /// A variation ends that did not begin.
    NotOpened,
    /// No memory is left.
    OutOfMemory,
}

/// The node at which the next move is made, and the waiting lines.
#[derive(Drop)]
pub struct Lines<'a, A: Allocator> {
    pub path: Vec<u16, &'a A>,
    pub begun: usize,
    pub waiting: ArrayVec<Waiting, 256>,
    /// 0, or the depth of parentheses after a null move of this line.
    pub cut: usize,
}

impl<'a, A: Allocator> Lines<'a, A> {
    /// The main line, at the root.
    pub fn new(alloc: &'a A) -> Self
        ensures { lines_of result.path.items result.begun result.waiting.items
            result.cut ≡ lines_of [] 0 [] 0 }
    {
        Lines {
            path: Vec::new(alloc),
            begun: 0,
            waiting: ArrayVec::new(),
            cut: 0,
        }
    }

    /// A variation begins.
    #[tactic(auto, unfolding(crate::specs::Lines::begin_line))]
    pub fn begin(&mut self) -> Result<(), LineFault>
        ensures { Leads result
            (begin_line
            (lines_of self.old.path.items self.old.begun self.old.waiting.items self.old.cut))
            (lines_of self.old.path.items self.old.begun self.old.waiting.items self.old.cut)
            (lines_of self.new.path.items self.new.begun self.new.waiting.items self.new.cut) }
    {
        if self.cut >= 1 {
            self.cut = self.cut.saturating_add(1);
            return Ok(());
        }
        let n = self.path.len();
        if n <= self.begun {
            return Err(LineFault::NoMoveBefore);
        }
        if self.waiting.len() >= MAX_WAITING {
            return Err(LineFault::TooNested);
        }
        self.waiting.push(Waiting {
            replaced: self.path[n - 1],
            begun: self.begun,
        });
        self.path.truncate(n - 1);
        self.begun = n - 1;
        self.cut = 0;
        Ok(())
    }

    /// A variation ends: the waiting line continues after the move that the variation replaced.
    #[tactic(auto, unfolding(crate::specs::Lines::end_line))]
    pub fn end(&mut self) -> Result<(), LineFault>
        ensures { Leads result
            (end_line
            (lines_of self.old.path.items self.old.begun self.old.waiting.items self.old.cut))
            (lines_of self.old.path.items self.old.begun self.old.waiting.items self.old.cut)
            (lines_of self.new.path.items self.new.begun self.new.waiting.items self.new.cut) }
    {
        if self.cut >= 2 {
            self.cut -= 1;
            return Ok(());
        }
        match self.waiting.pop() {
            None => Err(LineFault::NotOpened),
            Some(line) => {
                self.path.truncate(self.begun);
                let Ok(()) = self.path.push(line.replaced) else {
                    return Err(LineFault::OutOfMemory);
                };
                self.begun = line.begun;
                self.cut = 0;
                Ok(())
            }
        }
    }

    /// Goes to the child at this place.
    pub fn go_on(&mut self, place: u16) -> Result<(), AllocError>
        ensures path { OnOk result (self.new.path.items ≡ self.old.path.items ++ place ∷ []) }
        ensures begun { self.new.begun ≡ self.old.begun }
        ensures waiting { self.new.waiting.items ≡ self.old.waiting.items }
        ensures cut { self.new.cut ≡ self.old.cut }
    {
        self.path.push(place)?;
        Ok(())
    }
}
