//! Executing a line: its reply, and the state after it.
ghost use Rattle.std.specs.Prelude.{◌≡◌, Bool, true, false, ◌&&◌, IfOk, OnErr};
ghost use Rattle.study_command.specs.Parser.{command_of, command_seen};
ghost use Rattle.study_script.specs.State.{State};
ghost use Rattle.study_script.specs.Replies.{IsReply, IsReplyTo, IsReplyIn, begins_position};
ghost use Rattle.study_script.specs.declared.document.Document.TheVariants as held;
ghost use Rattle.study_script.specs.SessionHolds.{Answered, BrokenOff, document_seen};
ghost use Rattle.study_script.specs.Executed.{Executed, ExecutedLine, line_piece, Leaves, LeavesLine, LeavesApart};
ghost use Rattle.study_script.specs.Session.{SessionHolds};
ghost use Rattle.study_material.specs.declared.class.Class.{Class as AClass};
ghost use Rattle.study_script.specs.Stores.{HonestOn, IsTrusted, IsTrustedAsked};
ghost use Rattle.study_script.specs.Written.{IsPiece, IsWritten, IsCutOff};

use crate::changes::{insert, node_command, set_tag};
use crate::document::Document;
use crate::position_commands::{fen_command, stipulate};
use crate::queries::{node_query, pgn, solve_at};
use crate::store::TableStore;
use crate::table_commands::table_command;
use crate::tables::Tables;
use std::alloc::Allocator;
use std::io::Write;
use study_command::{Command, read_command};
use study_reply::{Answer, LineAnswer, LineRefusal, Refusal, of_command, write_reply};
use study_text::{DeviceFailed, next_word};

/// Carries out a line, and returns the outcome. Nothing is written.
pub fn execute_line<'a, S: TableStore, A: Allocator>(
    alloc: &'a A,
    document: &mut Document<'a, A>,
    tables: &mut Tables<'a, S::Pages, A>,
    store: &mut S,
    line: &[u8],
) -> LineAnswer<'a, A>
    ensures done { (trusted : AClass → Bool) (s : State) → IsTrusted trusted line.now
        → SessionHolds S.Pages.honest S.Pages.gives
        (HonestOn trusted S.honest) S.files S.headers S.faults document.old tables.old store.old s
        → ExecutedLine (IsReply s line.now)
        (SessionHolds S.Pages.honest S.Pages.gives
        (HonestOn trusted S.honest) S.files S.headers S.faults document.new tables.new store.new)
        result }
    ensures piece { IsPiece line.now (line_piece result) }
    ensures document { LeavesLine result (command_of line.now)
        (document_seen document.old) (document_seen document.new) }
{
    match read_command(line) {
        Ok(None) => Ok(None),
        Ok(Some(command)) => of_command(execute(alloc, document, tables, store, &command)),
        Err(fault) => Err(LineRefusal::Line(Refusal::Form(fault))),
    }
}

/// `execute_line`, if studies are kept apart.
pub fn execute_apart<'a, S: TableStore, A: Allocator>(
    alloc: &'a A,
    document: &mut Document<'a, A>,
    tables: &mut Tables<'a, S::Pages, A>,
    store: &mut S,
    line: &[u8],
) -> LineAnswer<'a, A>
    ensures done { (trusted : AClass → Bool) (s : State) → IsTrusted trusted line.now
        → SessionHolds S.Pages.honest S.Pages.gives
        (HonestOn trusted S.honest) S.files S.headers S.faults document.old tables.old store.old s
        → ExecutedLine (IsReplyIn true s line.now)
        (SessionHolds S.Pages.honest S.Pages.gives
        (HonestOn trusted S.honest) S.files S.headers S.faults document.new tables.new store.new)
        result }
    ensures piece { IsPiece line.now (line_piece result) }
    ensures document { LeavesApart result line.now (document_seen document.old) (document_seen document.new) }
{
    let answer = execute_line(alloc, document, tables, store, line);
    let refused = answer.is_err();
    clear_after(document, line, refused);
    answer
}

/// Writes the reply to a line, keeps the state after it, and returns whether the line was refused.
pub fn answer<'a, W: Write, S: TableStore, A: Allocator>(
    alloc: &'a A,
    document: &mut Document<'a, A>,
    tables: &mut Tables<'a, S::Pages, A>,
    store: &mut S,
    line: &[u8],
    out: &mut W,
) -> Result<bool, DeviceFailed>
    ensures ok { (trusted : AClass → Bool) (s : State) → IsTrusted trusted line.now
        → SessionHolds S.Pages.honest S.Pages.gives
        (HonestOn trusted S.honest) S.files S.headers S.faults document.old tables.old store.old s
        → IfOk result (Answered (IsReply s line.now)
        (SessionHolds S.Pages.honest S.Pages.gives
        (HonestOn trusted S.honest) S.files S.headers S.faults document.new tables.new store.new)
        (W.contents out.old) (W.contents out.new)) }
    ensures err { (trusted : AClass → Bool) (s : State) → IsTrusted trusted line.now
        → SessionHolds S.Pages.honest S.Pages.gives
        (HonestOn trusted S.honest) S.files S.headers S.faults document.old tables.old store.old s
        → OnErr result
        (BrokenOff (IsReply s line.now) (W.contents out.old) (W.contents out.new)) }
    ensures written { IfOk result (IsWritten line.now (W.contents out.old) (W.contents out.new)) }
    ensures cut_off { OnErr result (IsCutOff line.now (W.contents out.old) (W.contents out.new)) }
{
    let answer = execute_line(alloc, document, tables, store, line);
    write_reply(out, answer)
}

/// `answer`, if studies are kept apart.
pub fn answer_apart<'a, W: Write, S: TableStore, A: Allocator>(
    alloc: &'a A,
    document: &mut Document<'a, A>,
    tables: &mut Tables<'a, S::Pages, A>,
    store: &mut S,
    line: &[u8],
    out: &mut W,
) -> Result<bool, DeviceFailed>
    ensures ok { (trusted : AClass → Bool) (s : State) → IsTrusted trusted line.now
        → SessionHolds S.Pages.honest S.Pages.gives
        (HonestOn trusted S.honest) S.files S.headers S.faults document.old tables.old store.old s
        → IfOk result (Answered (IsReplyIn true s line.now)
        (SessionHolds S.Pages.honest S.Pages.gives
        (HonestOn trusted S.honest) S.files S.headers S.faults document.new tables.new store.new)
        (W.contents out.old) (W.contents out.new)) }
    ensures err { (trusted : AClass → Bool) (s : State) → IsTrusted trusted line.now
        → SessionHolds S.Pages.honest S.Pages.gives
        (HonestOn trusted S.honest) S.files S.headers S.faults document.old tables.old store.old s
        → OnErr result
        (BrokenOff (IsReplyIn true s line.now) (W.contents out.old) (W.contents out.new)) }
    ensures written { IfOk result (IsWritten line.now (W.contents out.old) (W.contents out.new)) }
    ensures cut_off { OnErr result (IsCutOff line.now (W.contents out.old) (W.contents out.new)) }
{
    let answer = execute_apart(alloc, document, tables, store, line);
    write_reply(out, answer)
}

/// Empties the document after a refused `position`.
fn clear_after<'a, A: Allocator>(document: &mut Document<'a, A>, line: &[u8], refused: bool)
    ensures cleared { refused && begins_position line.now ≡ true → document.new ≡ held.Empty }
    ensures kept { refused && begins_position line.now ≡ false → document.new ≡ document.old }
{
    if refused && begins_position(line) {
        *document = Document::Empty;
    }
}

/// Whether the first word of a line is `position`.
pub fn begins_position(line: &[u8]) -> bool
    ensures { result ≡ begins_position line.now }
{
    match next_word(line) {
        Some((first, _)) => first == b"position".as_slice(),
        None => false,
    }
}

/// Carries out a command, and returns the outcome. Nothing is written.
fn execute<'a, S: TableStore, A: Allocator>(
    alloc: &'a A,
    document: &mut Document<'a, A>,
    tables: &mut Tables<'a, S::Pages, A>,
    store: &mut S,
    command: &Command<'_>,
) -> Answer<'a, A>
    ensures done { (trusted : AClass → Bool) (s : State)
        → IsTrustedAsked trusted (command_seen command.now)
        → SessionHolds S.Pages.honest S.Pages.gives
        (HonestOn trusted S.honest) S.files S.headers S.faults document.old tables.old store.old s
        → Executed (λ o. IsReplyTo s o (command_seen command.now))
        (SessionHolds S.Pages.honest S.Pages.gives
        (HonestOn trusted S.honest) S.files S.headers S.faults document.new
        tables.new store.new) result }
    ensures document { Leaves result (command_seen command.now)
        (document_seen document.old) (document_seen document.new) }
{
    match command {
        Command::FromFen(word, fen) => fen_command(document, tables, *word, fen),
        Command::Query(word, path) => node_query(alloc, document, *word, path.word),
        Command::Node(word, path) => node_command(alloc, document, *word, path.word),
        Command::Table(word, name) => table_command(alloc, tables, store, *word, name),
        Command::Stipulate(stipulation) => stipulate(alloc, document, tables, stipulation),
        Command::Insert(path, san) => insert(alloc, document, tables, path.word, san),
        Command::Tag(name, text) => set_tag(document, *name, text),
        Command::Solve(count, path) => solve_at(alloc, document, *count, path.word),
        Command::Pgn => pgn(alloc, document),
    }
}
