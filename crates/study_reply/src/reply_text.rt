//! The replies, piece by piece.
ghost use Rattle.std.specs.Prelude.{◌≡◌, ◌++◌, ◌∷◌, [], true, codes, OnOk, OnErr};
ghost use Rattle.std.specs.Io.KnownBytes.{Appends};
ghost use Rattle.std.specs.List.{All};
ghost use Rattle.study_moves.specs.Rules.{is_legal};
ghost use Rattle.study_notation.specs.SanSpelling.{move_text};
ghost use Rattle.study_text.specs.Taken.{TakesPrefix};
ghost use Rattle.study_text.specs.Pieces.{piece_text};
ghost use Rattle.study_text.specs.Paths.{path_text};
ghost use Rattle.study_reply.specs.Names.{argument_text, words_of, of_probe};
ghost use Rattle.study_reply.specs.Words.{reply_line, moves_listed, list_text, moves_text, path_after_move_up};
ghost use Rattle.study_reply.specs.Words.{side_word, goal_words, solve_text, stipulation_words, mark_text, marked_text};

use crate::refusal::{Argument, Refusal};
use std::io::Write;
use study_board::{Position, Side};
use study_marks::{Goal, Mark, Stipulation, on_move_text, value_words};
use study_moves::{Move, MoveList, in_check, legal_moves};
use study_notation::write_san;
use study_text::{DeviceFailed, Piece, write_pieces};
use study_values::ProbeFault;

/// Writes words and a line feed.
pub(crate) fn put_line<'t, W: Write>(
    out: &mut W,
    front: &'t [u8],
    back: &'t [u8],
) -> Result<(), DeviceFailed>
    ensures ok { OnOk result
        (Appends (W.contents out.old) (W.contents out.new) (reply_line front.now back.now)) }
    ensures err { OnErr result
        (TakesPrefix (W.contents out.old) (W.contents out.new) (reply_line front.now back.now)) }
{
    write_pieces(
        out,
        &[Piece::Bytes(front), Piece::Bytes(back), Piece::Bytes(b"\n")],
    )
}

/// The words of a refusal in two pieces.
#[tactic(auto, unfolding(crate::specs::Names::words_of))]
pub fn word_pieces(refusal: Refusal) -> (Piece<'static>, Piece<'static>)
    ensures { piece_text result.0 ++ piece_text result.1 ≡ words_of refusal }
{
    (
        Piece::Bytes(refusal.name()),
        argument_piece(refusal.argument()),
    )
}

fn argument_piece(argument: Argument) -> Piece<'static>
    ensures { piece_text result ≡ argument_text argument }
{
    match argument {
        Argument::None => Piece::Bytes(b""),
        Argument::Class(class) => Piece::Bytes(class.name().as_bytes()),
        Argument::Number(number) => Piece::Number(number),
    }
}

/// Writes the reply to a refused line.
pub fn write_refusal<W: Write>(out: &mut W, refusal: Refusal) -> Result<(), DeviceFailed>
    ensures ok { OnOk result
        (Appends (W.contents out.old) (W.contents out.new)
        (reply_line (codes "error ") (words_of refusal))) }
    ensures err { OnErr result
        (TakesPrefix (W.contents out.old) (W.contents out.new)
        (reply_line (codes "error ") (words_of refusal))) }
{
    put_error(out, word_pieces(refusal))
}

/// Writes the reply to a line that is refused in these words.
pub(crate) fn put_error<'t, W: Write>(
    out: &mut W,
    words: (Piece<'t>, Piece<'t>),
) -> Result<(), DeviceFailed>
    ensures ok { OnOk result
        (Appends (W.contents out.old) (W.contents out.new)
        (reply_line (codes "error ") (piece_text words.entry.0 ++ piece_text words.entry.1))) }
    ensures err { OnErr result
        (TakesPrefix (W.contents out.old) (W.contents out.new)
        (reply_line (codes "error ") (piece_text words.entry.0 ++ piece_text words.entry.1))) }
{
    let (name, argument) = words;
    write_pieces(
        out,
        &[Piece::Bytes(b"error "), name, argument, Piece::Bytes(b"\n")],
    )
}

/// Writes the legal moves of a position, or why there are none.
pub fn write_moves<W: Write>(out: &mut W, p: &Position) -> Result<(), DeviceFailed>
    ensures ok { OnOk result
        (Appends (W.contents out.old) (W.contents out.new) (moves_text p.now)) }
    ensures err { OnErr result
        (TakesPrefix (W.contents out.old) (W.contents out.new) (moves_text p.now)) }
{
    put_list(out, p, &legal_moves(p))
}

fn put_list<W: Write>(out: &mut W, p: &Position, moves: &MoveList) -> Result<(), DeviceFailed>
    requires { All (λ m. is_legal p.now m ≡ true) moves.now.items }
    ensures ok { OnOk result
        (Appends (W.contents out.old) (W.contents out.new) (list_text p.now moves.now.items)) }
    ensures err { OnErr result
        (TakesPrefix (W.contents out.old) (W.contents out.new) (list_text p.now moves.now.items)) }
{
    if moves.is_empty() {
        return put_no_moves(out, p);
    }
    write_pieces(
        out,
        &[Piece::Bytes(b"moves "), Piece::Number(moves.len() as u32)],
    )?;
    put_moves(out, p, moves.as_slice())?;
    write_pieces(out, &[Piece::Bytes(b"\n")])
}

fn put_no_moves<W: Write>(out: &mut W, p: &Position) -> Result<(), DeviceFailed>
    ensures ok { OnOk result
        (Appends (W.contents out.old) (W.contents out.new) (list_text p.now [])) }
    ensures err { OnErr result
        (TakesPrefix (W.contents out.old) (W.contents out.new) (list_text p.now [])) }
{
    if in_check(p) {
        write_pieces(out, &[Piece::Bytes(b"moves 0 mate\n")])
    } else {
        write_pieces(out, &[Piece::Bytes(b"moves 0 stalemate\n")])
    }
}

fn put_moves<W: Write>(out: &mut W, p: &Position, moves: &[Move]) -> Result<(), DeviceFailed>
    requires { All (λ m. is_legal p.now m ≡ true) moves.now }
    ensures ok { OnOk result
        (Appends (W.contents out.old) (W.contents out.new) (moves_listed p.now moves.now)) }
    ensures err { OnErr result
        (TakesPrefix (W.contents out.old) (W.contents out.new) (moves_listed p.now moves.now)) }
{
    for m in moves {
        put_move(out, p, *m)?;
    }
    Ok(())
}

/// A move after a space.
fn put_move<W: Write>(out: &mut W, p: &Position, m: Move) -> Result<(), DeviceFailed>
    requires { is_legal p.now m ≡ true }
    ensures ok { OnOk result
        (Appends (W.contents out.old) (W.contents out.new) (32 ∷ move_text p.now m)) }
    ensures err { OnErr result
        (TakesPrefix (W.contents out.old) (W.contents out.new) (32 ∷ move_text p.now m)) }
{
    let san = write_san(p, m);
    write_pieces(
        out,
        &[Piece::Bytes(b" "), Piece::Bytes(san.as_str().as_bytes())],
    )
}

/// Writes in how many plies the side to move forces mate.
pub fn put_solution<W: Write>(out: &mut W, plies: Option<u8>) -> Result<(), DeviceFailed>
    ensures ok { OnOk result
        (Appends (W.contents out.old) (W.contents out.new) (solve_text plies)) }
    ensures err { OnErr result
        (TakesPrefix (W.contents out.old) (W.contents out.new) (solve_text plies)) }
{
    match plies {
        None => write_pieces(out, &[Piece::Bytes(b"solve none\n")]),
        Some(plies) => write_pieces(
            out,
            &[
                Piece::Bytes(b"solve plies "),
                Piece::Number(plies as u32),
                Piece::Bytes(b"\n"),
            ],
        ),
    }
}

/// A fault of a source of values.
pub fn of_probe(fault: ProbeFault) -> Refusal
    ensures { result ≡ of_probe fault }
{
    match fault {
        ProbeFault::NoTable(class) => Refusal::NoTable(class),
        ProbeFault::TableRead(fault) => Refusal::TableRead(fault),
        ProbeFault::PageDamaged(_, number) => Refusal::TableReadPage(number),
    }
}

/// Writes a stipulation.
pub fn put_stipulation<W: Write>(out: &mut W, stipulation: Stipulation) -> Result<(), DeviceFailed>
    ensures ok { OnOk result
        (Appends (W.contents out.old) (W.contents out.new) (stipulation_words stipulation)) }
    ensures err { OnErr result
        (TakesPrefix (W.contents out.old) (W.contents out.new) (stipulation_words stipulation)) }
{
    let (task, number) = goal_pieces(stipulation.goal);
    write_pieces(
        out,
        &[
            Piece::Bytes(b"stipulate "),
            Piece::Bytes(side_word(stipulation.hero)),
            Piece::Bytes(b" to "),
            task,
            number,
            Piece::Bytes(b"\n"),
        ],
    )
}

/// The words of a goal in two pieces.
fn goal_pieces(goal: Goal) -> (Piece<'static>, Piece<'static>)
    ensures { piece_text result.0 ++ piece_text result.1 ≡ goal_words goal }
{
    match goal {
        Goal::Win => (Piece::Bytes(b"win"), Piece::Bytes(b"")),
        Goal::Draw => (Piece::Bytes(b"draw"), Piece::Bytes(b"")),
        Goal::MateIn(moves) => (
            Piece::Bytes(b"mate in "),
            Piece::Number(moves.count() as u32),
        ),
    }
}

fn side_word(side: Side) -> &'static [u8]
    ensures { result.now ≡ side_word side }
{
    match side {
        Side::White => b"White",
        Side::Black => b"Black",
    }
}

/// Writes the mark of a node.
pub fn put_mark<W: Write>(out: &mut W, steps: &[u16], mark: &Mark) -> Result<(), DeviceFailed>
    ensures ok { OnOk result
        (Appends (W.contents out.old) (W.contents out.new) (mark_text steps.now mark.now)) }
    ensures err { OnErr result
        (TakesPrefix (W.contents out.old) (W.contents out.new) (mark_text steps.now mark.now)) }
{
    put_mark_words(
        out,
        steps,
        value_words(mark.value).as_str().as_bytes(),
        on_move_text(mark.on_move).as_str().as_bytes(),
        mark.faults,
    )
}

/// Writes the mark of a node from the words of its value and of its move.
fn put_mark_words<'t, W: Write>(
    out: &mut W,
    steps: &'t [u16],
    value: &'t [u8],
    on_move: &'t [u8],
    faults: u32,
) -> Result<(), DeviceFailed>
    ensures ok { OnOk result
        (Appends (W.contents out.old) (W.contents out.new)
        (marked_text steps.now value.now on_move.now faults)) }
    ensures err { OnErr result
        (TakesPrefix (W.contents out.old) (W.contents out.new)
        (marked_text steps.now value.now on_move.now faults)) }
{
    write_pieces(
        out,
        &[
            Piece::Bytes(b"mark "),
            Piece::Path(steps),
            Piece::Bytes(b" "),
            Piece::Bytes(value),
            Piece::Bytes(b" "),
            Piece::Bytes(on_move),
            Piece::Bytes(b" faults "),
            Piece::Number(faults),
            Piece::Bytes(b"\n"),
        ],
    )
}

/// Writes words, a path and a line feed.
pub fn put_node<'t, W: Write>(
    out: &mut W,
    front: &'t [u8],
    steps: &'t [u16],
) -> Result<(), DeviceFailed>
    ensures ok { OnOk result
        (Appends (W.contents out.old) (W.contents out.new)
        (reply_line front.now (path_text steps.now))) }
    ensures err { OnErr result
        (TakesPrefix (W.contents out.old) (W.contents out.new)
        (reply_line front.now (path_text steps.now))) }
{
    write_pieces(
        out,
        &[Piece::Bytes(front), Piece::Path(steps), Piece::Bytes(b"\n")],
    )
}

/// Writes the reply to `promote`.
pub fn put_promoted<W: Write>(out: &mut W, steps: &[u16]) -> Result<(), DeviceFailed>
    ensures ok { OnOk result
        (Appends (W.contents out.old) (W.contents out.new)
        (reply_line (codes "promote ") (path_text (path_after_move_up steps.now)))) }
    ensures err { OnErr result
        (TakesPrefix (W.contents out.old) (W.contents out.new)
        (reply_line (codes "promote ") (path_text (path_after_move_up steps.now)))) }
{
    write_pieces(
        out,
        &[
            Piece::Bytes(b"promote "),
            piece_after_move_up(steps),
            Piece::Bytes(b"\n"),
        ],
    )
}

/// The path of a node after it moved up by one place.
fn piece_after_move_up(steps: &[u16]) -> Piece<'_>
    ensures { piece_text result ≡ path_text (path_after_move_up steps.now) }
{
    match steps.split_last() {
        None => Piece::Path(steps),
        Some((last, front)) => Piece::Child(front, last.saturating_sub(1)),
    }
}
