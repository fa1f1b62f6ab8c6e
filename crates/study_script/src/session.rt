//! Interpreters of the lines of a script.
ghost use Rattle.std.specs.Prelude.{◌≡◌, Bool, true, IfOk, OnErr};
ghost use Rattle.study_material.specs.declared.class.Class.{Class as AClass};
ghost use Rattle.study_script.specs.State.{State as AState};
ghost use Rattle.study_script.specs.Replies.{IsReplyIn};
ghost use Rattle.study_script.specs.SessionHolds.{Answered, BrokenOff, document_seen};
ghost use Rattle.study_script.specs.Session.{SessionHolds};
ghost use Rattle.study_script.specs.Stores.{HonestOn, IsTrusted};
ghost use Rattle.study_script.specs.Executed.{ExecutedLine, line_piece, LeavesApart};
ghost use Rattle.study_script.specs.Written.{IsPiece, IsWritten, IsCutOff};

use crate::dispatch;
use crate::document::Document;
use crate::store::TableStore;
use crate::tables::Tables;
use std::alloc::Allocator;
use std::io::Write;
use study_reply::LineAnswer;
use study_text::DeviceFailed;

/// Answers lines one by one, and has the state of a script.
pub trait Interpreter {
    /// The state is this one; its marks are right, its values are honest, and so is its store for each class that is trusted. The second
    /// `Bool` says whether studies are kept apart.
    ghost holds: { Self → (AClass → Bool) → Bool → AState → Type 0 };

    /// Writes the reply to a line, keeps the state after it, and returns whether the line was refused.
    fn answer<W: Write>(&mut self, line: &[u8], out: &mut W) -> Result<bool, DeviceFailed>
        ensures ok { (trusted : AClass → Bool) (separate : Bool) (s : AState)
            → IsTrusted trusted line.now → holds self.old trusted separate s
            → IfOk result
            (Answered (IsReplyIn separate s line.now) (holds self.new trusted separate)
            (W.contents out.old) (W.contents out.new)) }
        ensures err { (trusted : AClass → Bool) (separate : Bool) (s : AState)
            → IsTrusted trusted line.now → holds self.old trusted separate s
            → OnErr result
            (BrokenOff (IsReplyIn separate s line.now) (W.contents out.old) (W.contents out.new)) }
        ensures written { IfOk result
            (IsWritten line.now (W.contents out.old) (W.contents out.new)) }
        ensures cut_off { OnErr result
            (IsCutOff line.now (W.contents out.old) (W.contents out.new)) };
}

/// The session of a script: its document, its tables, and the store of their files.
#[derive(Drop)]
pub struct Session<'a, 's, S: TableStore, A: Allocator> {
    pub alloc: &'a A,
    pub document: Document<'a, A>,
    pub tables: Tables<'a, S::Pages, A>,
    pub store: &'s mut S,
    /// Whether studies are kept apart, as `answer_apart` does.
    pub separate: bool,
}

impl<'a, 's, S: TableStore, A: Allocator> Interpreter for Session<'a, 's, S, A> {
    ghost use Rattle.study_script.specs.Session.{SessionHolds};
    ghost use Rattle.study_script.specs.Stores.{HonestOn};

    ghost holds = { λ d trusted separate s. (separate ≡ d.separate)
        × SessionHolds S.Pages.honest S.Pages.gives (HonestOn trusted S.honest)
        S.files S.headers S.faults d.document d.tables d.store.now s };

    fn answer<W: Write>(&mut self, line: &[u8], out: &mut W) -> Result<bool, DeviceFailed> {
        if self.separate {
            return self.answer_apart(line, out);
        }
        dispatch::answer(
            self.alloc,
            &mut self.document,
            &mut self.tables,
            self.store,
            line,
            out,
        )
    }
}

impl<'a, 's, S: TableStore, A: Allocator> Session<'a, 's, S, A> {
    /// Carries out a line as `answer_apart` does, and returns the outcome. Nothing is written.
    pub fn execute_apart(&mut self, line: &[u8]) -> LineAnswer<'a, A>
        ensures done { (trusted : AClass → Bool) (s : AState) → IsTrusted trusted line.now
            → SessionHolds S.Pages.honest S.Pages.gives
            (HonestOn trusted S.honest) S.files S.headers S.faults self.old.document self.old.tables
            self.old.store.now s
            → ExecutedLine (IsReplyIn true s line.now)
            (SessionHolds S.Pages.honest S.Pages.gives
            (HonestOn trusted S.honest) S.files S.headers S.faults self.new.document self.new.tables
            self.new.store.now) result }
        ensures piece { IsPiece line.now (line_piece result) }
        ensures document { LeavesApart result line.now
            (document_seen self.old.document) (document_seen self.new.document) }
        ensures mode { self.new.separate ≡ self.old.separate }
    {
        dispatch::execute_apart(
            self.alloc,
            &mut self.document,
            &mut self.tables,
            self.store,
            line,
        )
    }

    /// Answers a line as in a script in which studies are kept apart: a refused line whose first word is `position` leaves neither a position nor a study
    /// until the next accepted one. So no line that belongs to it edits the study before. The session's own setting is ignored.
    pub fn answer_apart<W: Write>(&mut self, line: &[u8], out: &mut W) -> Result<bool, DeviceFailed>
        ensures ok { (trusted : AClass → Bool) (s : AState) → IsTrusted trusted line.now
            → SessionHolds S.Pages.honest S.Pages.gives
            (HonestOn trusted S.honest) S.files S.headers S.faults self.old.document self.old.tables
            self.old.store.now s
            → IfOk result (Answered (IsReplyIn true s line.now)
            (SessionHolds S.Pages.honest S.Pages.gives
            (HonestOn trusted S.honest) S.files S.headers S.faults self.new.document self.new.tables
            self.new.store.now)
            (W.contents out.old) (W.contents out.new)) }
        ensures err { (trusted : AClass → Bool) (s : AState) → IsTrusted trusted line.now
            → SessionHolds S.Pages.honest S.Pages.gives
            (HonestOn trusted S.honest) S.files S.headers S.faults self.old.document self.old.tables
            self.old.store.now s
            → OnErr result
            (BrokenOff (IsReplyIn true s line.now) (W.contents out.old) (W.contents out.new)) }
        ensures written { IfOk result
            (IsWritten line.now (W.contents out.old) (W.contents out.new)) }
        ensures cut_off { OnErr result
            (IsCutOff line.now (W.contents out.old) (W.contents out.new)) }
        ensures mode { self.new.separate ≡ self.old.separate }
    {
        dispatch::answer_apart(
            self.alloc,
            &mut self.document,
            &mut self.tables,
            self.store,
            line,
            out,
        )
    }
}
