//! The outcomes of the commands of a class, and their replies.
ghost use Rattle.std.specs.Prelude.{◌≡◌, ◌++◌, codes, decimal, OnOk, OnErr};
ghost use Rattle.std.specs.Io.KnownBytes.{Appends};
ghost use Rattle.study_material.specs.Class.{name_of};
ghost use Rattle.study_text.specs.Taken.{TakesPrefix};
ghost use Rattle.study_reply.specs.Words.{reply_line, built_text, win_text};
ghost use Rattle.study_text.specs.Pieces.{piece_text};
ghost use Rattle.study_reply.specs.TableReply.{table_text};

use std::io::Write;
use study_material::Class;
use study_text::{DeviceFailed, Piece, write_pieces};
use study_values::{cells, file_size};

/// The effect of a command of a class.
#[derive(Clone, Copy, Debug, PartialEq, Eq)]
pub enum TableReply {
    /// With the deepest win of the table in plies, for either side to move.
    Built(Class, Option<u8>),
    Loaded(Class),
    Saved(Class),
    /// Whether the table is right.
    Verified(Class, bool),
}

/// Writes the reply to a command of a class.
pub fn put_table_reply<W: Write>(out: &mut W, reply: TableReply) -> Result<(), DeviceFailed>
    ensures ok { OnOk result
        (Appends (W.contents out.old) (W.contents out.new) (table_text reply)) }
    ensures err { OnErr result
        (TakesPrefix (W.contents out.old) (W.contents out.new) (table_text reply)) }
{
    match reply {
        TableReply::Built(class, win) => put_built(out, class, win),
        TableReply::Loaded(class) => put_size(out, b"loaded ", class, b" cells ", cells(class)),
        TableReply::Saved(class) => put_size(out, b"saved ", class, b" bytes ", file_size(class)),
        TableReply::Verified(class, true) => put_named(out, class, b" yes\n"),
        TableReply::Verified(class, false) => put_named(out, class, b" no\n"),
    }
}

/// With the deepest win in plies.
fn put_built<W: Write>(out: &mut W, class: Class, win: Option<u8>) -> Result<(), DeviceFailed>
    ensures ok { OnOk result
        (Appends (W.contents out.old) (W.contents out.new) (built_text class win)) }
    ensures err { OnErr result
        (TakesPrefix (W.contents out.old) (W.contents out.new) (built_text class win)) }
{
    write_pieces(
        out,
        &[
            Piece::Bytes(b"built "),
            Piece::Bytes(class.name().as_bytes()),
            Piece::Bytes(b" cells "),
            Piece::Number(cells(class)),
            Piece::Bytes(b" win "),
            win_piece(win),
            Piece::Bytes(b"\n"),
        ],
    )
}

fn win_piece(win: Option<u8>) -> Piece<'static>
    ensures { piece_text result ≡ win_text win }
{
    match win {
        None => Piece::Bytes(b"-"),
        Some(plies) => Piece::Number(plies as u32),
    }
}

/// A word, the name of a class, and a number after its label.
fn put_size<'t, W: Write>(
    out: &mut W,
    word: &'t [u8],
    class: Class,
    label: &'t [u8],
    number: u32,
) -> Result<(), DeviceFailed>
    ensures ok { OnOk result
        (Appends (W.contents out.old) (W.contents out.new)
        (word.now ++ (name_of class ++ reply_line label.now (decimal number)))) }
    ensures err { OnErr result
        (TakesPrefix (W.contents out.old) (W.contents out.new)
        (word.now ++ (name_of class ++ reply_line label.now (decimal number)))) }
{
    write_pieces(
        out,
        &[
            Piece::Bytes(word),
            Piece::Bytes(class.name().as_bytes()),
            Piece::Bytes(label),
            Piece::Number(number),
            Piece::Bytes(b"\n"),
        ],
    )
}

fn put_named<W: Write>(out: &mut W, class: Class, end: &[u8]) -> Result<(), DeviceFailed>
    ensures ok { OnOk result
        (Appends (W.contents out.old) (W.contents out.new)
        (codes "verified " ++ (name_of class ++ end.now))) }
    ensures err { OnErr result
        (TakesPrefix (W.contents out.old) (W.contents out.new)
        (codes "verified " ++ (name_of class ++ end.now))) }
{
    write_pieces(
        out,
        &[
            Piece::Bytes(b"verified "),
            Piece::Bytes(class.name().as_bytes()),
            Piece::Bytes(end),
        ],
    )
}
