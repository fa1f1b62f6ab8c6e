//! The outcome of a line, decided before its reply is written.
ghost use Rattle.std.specs.Prelude.{◌≡◌, ◌++◌, ◌∷◌, [], is_err, IfOk, OnOk, OnErr};
ghost use Rattle.std.specs.Io.KnownBytes.{Appends};
ghost use Rattle.study_notation.specs.FenSpelling.{fen_text};
ghost use Rattle.study_text.specs.Taken.{TakesPrefix};
ghost use Rattle.study_text.specs.Pieces.{piece_text};
ghost use Rattle.study_reply.specs.Names.{edit_words};
ghost use Rattle.study_reply.specs.Words.{reply_line, insert_text};
ghost use Rattle.study_reply.specs.Reasons.{reason_of};
ghost use Rattle.study_reply.specs.Replied.{reply_text, refused_words, error_text, of_command, line_text};

use crate::game::Game;
use crate::laws::texts_have_reasons;
use crate::reason::edit_reason;
use crate::refusal::Refusal;
use crate::reply_text::{
    of_probe, put_error, put_line, put_mark, put_node, put_promoted, put_solution, put_stipulation,
    word_pieces, write_moves,
};
use crate::table_reply::{TableReply, put_table_reply};
use arrayvec::ArrayString;
use std::alloc::{AllocError, Allocator};
use std::io::Write;
use study_marks::{Mark, Refusal as EditRefusal, Stipulation, TagName, tag_name};
use study_notation::{Start, write_fen};
use study_text::{DeviceFailed, Piece, write_pieces, write_text};
use study_tree::Path;

/// The effect of a line, with the data of its reply.
#[derive(Drop)]
pub enum Reply<'a, A: Allocator> {
    Position(Start),
    Shift(Start),
    Stipulated(Stipulation),
    /// The node that got a child, the child's place, and its move in SAN.
    Inserted(Path<'a, A>, u16, ArrayString<8>),
    Deleted(Path<'a, A>),
    /// The path of the node before it moved up.
    Promoted(Path<'a, A>),
    Tagged(TagName),
    Mark(Path<'a, A>, Mark),
    Moves(Start),
    Fen(Start),
    /// In plies.
    Solved(Option<u8>),
    Pgn(Game<'a, A>),
    Table(TableReply),
}

/// Why a line is refused: by its own rules, or by the bench.
#[derive(Drop)]
pub enum LineRefusal<'a, A: Allocator> {
    Line(Refusal),
    Edit(EditRefusal<'a, A>),
}

/// The outcome of a command, before its reply is written.
pub type Answer<'a, A> = Result<Reply<'a, A>, LineRefusal<'a, A>>;

/// The outcome of a line: of one without a command, nothing.
pub type LineAnswer<'a, A> = Result<Option<Reply<'a, A>>, LineRefusal<'a, A>>;

/// The outcome of the line of a command.
pub fn of_command<'a, A: Allocator>(answer: Answer<'a, A>) -> LineAnswer<'a, A>
    ensures { result ≡ of_command answer.entry }
{
    match answer {
        Ok(reply) => Ok(Some(reply)),
        Err(refused) => Err(refused),
    }
}

/// Writes the reply to a line, and returns whether the line was refused.
pub fn write_reply<'a, W: Write, A: Allocator>(
    out: &mut W,
    answer: LineAnswer<'a, A>,
) -> Result<bool, DeviceFailed>
    ensures ok { OnOk result
        (Appends (W.contents out.old) (W.contents out.new) (line_text answer.entry)) }
    ensures err { OnErr result
        (TakesPrefix (W.contents out.old) (W.contents out.new) (line_text answer.entry)) }
    ensures refused { IfOk result (λ refused. refused ≡ is_err answer.entry) }
{
    match answer {
        Ok(None) => Ok(false),
        Ok(Some(reply)) => {
            put_reply(out, reply)?;
            Ok(false)
        }
        Err(refused) => {
            put_refused(out, &refused)?;
            Ok(true)
        }
    }
}

impl<'a, A: Allocator> LineRefusal<'a, A> {
    /// Why the line is refused, in words.
    pub fn reason(&self) -> &'static [u8]
        ensures { result.now ≡ reason_of (refused_words self.now) }
    {
        texts_have_reasons();
        match self {
            LineRefusal::Line(refusal) => refusal.reason(),
            LineRefusal::Edit(refusal) => edit_reason(refusal),
        }
    }
}

/// The words of a refusal in two pieces.
pub fn refused_pieces<'t, 'a, A: Allocator>(
    refused: &'t LineRefusal<'a, A>,
) -> (Piece<'t>, Piece<'t>)
    ensures { piece_text result.0 ++ piece_text result.1 ≡ refused_words refused.now }
{
    match refused {
        LineRefusal::Line(refusal) => word_pieces(*refusal),
        LineRefusal::Edit(refusal) => edit_pieces(refusal),
    }
}

fn edit_pieces<'t, 'a, A: Allocator>(refusal: &'t EditRefusal<'a, A>) -> (Piece<'t>, Piece<'t>)
    ensures { piece_text result.0 ++ piece_text result.1 ≡ edit_words refusal.now }
{
    match refusal {
        EditRefusal::NoSuchNode => word_pieces(Refusal::NoSuchNode),
        EditRefusal::RootNotAllowed => word_pieces(Refusal::RootNotAllowed),
        EditRefusal::AlreadyFirst => word_pieces(Refusal::AlreadyFirst),
        EditRefusal::IllegalMove => word_pieces(Refusal::IllegalMove),
        EditRefusal::AlreadyThere(place) => word_pieces(Refusal::AlreadyThere(*place)),
        EditRefusal::TooDeep => word_pieces(Refusal::TooDeep),
        EditRefusal::TreeFull => word_pieces(Refusal::TreeFull),
        EditRefusal::ShiftBroken(path) => {
            (Piece::Bytes(b"ShiftBroken "), Piece::Path(path.steps()))
        }
        EditRefusal::TagText => word_pieces(Refusal::TagText),
        EditRefusal::OutOfMemory => word_pieces(Refusal::OutOfMemory),
        EditRefusal::NoTable(class) => word_pieces(Refusal::NoTable(*class)),
        EditRefusal::TableRead(fault) => word_pieces(of_probe(*fault)),
    }
}

/// The words of a refusal as a text.
pub fn refused_words<'a, 'b, A: Allocator, B: Allocator>(
    alloc: &'a A,
    refused: &LineRefusal<'b, B>,
) -> Result<Vec<u8, &'a A>, AllocError>
    ensures { IfOk result (λ words. words.items ≡ refused_words refused.now) }
{
    let (name, argument) = refused_pieces(refused);
    let mut words = Vec::new(alloc);
    match write_pieces(&mut words, &[name, argument]) {
        Ok(()) => Ok(words),
        Err(_) => Err(AllocError),
    }
}

fn put_refused<'a, W: Write, A: Allocator>(
    out: &mut W,
    refused: &LineRefusal<'a, A>,
) -> Result<(), DeviceFailed>
    ensures ok { OnOk result
        (Appends (W.contents out.old) (W.contents out.new)
        (error_text refused.now)) }
    ensures err { OnErr result
        (TakesPrefix (W.contents out.old) (W.contents out.new)
        (error_text refused.now)) }
{
    put_error(out, refused_pieces(refused))
}

fn put_reply<'a, W: Write, A: Allocator>(
    out: &mut W,
    reply: Reply<'a, A>,
) -> Result<(), DeviceFailed>
    ensures ok { OnOk result
        (Appends (W.contents out.old) (W.contents out.new) (reply_text reply.entry)) }
    ensures err { OnErr result
        (TakesPrefix (W.contents out.old) (W.contents out.new) (reply_text reply.entry)) }
{
    match reply {
        Reply::Position(start) => put_start(out, b"position ", &start),
        Reply::Shift(start) => put_start(out, b"shift ", &start),
        Reply::Stipulated(stipulation) => put_stipulation(out, stipulation),
        Reply::Inserted(path, place, san) => {
            put_inserted(out, path.steps(), place, san.as_str().as_bytes())
        }
        Reply::Deleted(path) => put_node(out, b"delete ", path.steps()),
        Reply::Promoted(path) => put_promoted(out, path.steps()),
        Reply::Tagged(name) => put_line(out, b"tag ", tag_name(name)),
        Reply::Mark(path, mark) => put_mark(out, path.steps(), &mark),
        Reply::Moves(start) => write_moves(out, &start.position),
        Reply::Fen(start) => put_start(out, b"fen ", &start),
        Reply::Solved(plies) => put_solution(out, plies),
        Reply::Pgn(game) => write_text(out, game.text.as_slice()),
        Reply::Table(reply) => put_table_reply(out, reply),
    }
}

/// A word, and a start as FEN.
fn put_start<W: Write>(out: &mut W, word: &[u8], start: &Start) -> Result<(), DeviceFailed>
    ensures ok { OnOk result
        (Appends (W.contents out.old) (W.contents out.new)
        (reply_line word.now (fen_text start.now))) }
    ensures err { OnErr result
        (TakesPrefix (W.contents out.old) (W.contents out.new)
        (reply_line word.now (fen_text start.now))) }
{
    let text = write_fen(start);
    put_line(out, word, text.as_str().as_bytes())
}

/// The path of the new node, and its move in SAN.
fn put_inserted<'t, W: Write>(
    out: &mut W,
    steps: &'t [u16],
    place: u16,
    san: &'t [u8],
) -> Result<(), DeviceFailed>
    ensures ok { OnOk result
        (Appends (W.contents out.old) (W.contents out.new)
        (insert_text (steps.now ++ place ∷ []) san.now)) }
    ensures err { OnErr result
        (TakesPrefix (W.contents out.old) (W.contents out.new)
        (insert_text (steps.now ++ place ∷ []) san.now)) }
{
    write_pieces(
        out,
        &[
            Piece::Bytes(b"insert "),
            Piece::Child(steps, place),
            Piece::Bytes(b" "),
            Piece::Bytes(san),
            Piece::Bytes(b"\n"),
        ],
    )
}
