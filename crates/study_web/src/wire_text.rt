//! The names of refusals, and how an answer ended, in words.
ghost use Rattle.std.specs.Prelude.{◌≡◌, ◌++◌, OnOk, codes};
ghost use Rattle.std.specs.Io.KnownBytes.{Appends};
ghost use Rattle.study_material.specs.Class.{name_of};
ghost use Rattle.study_reply.specs.Names.{words_of};
ghost use Rattle.study_web.specs.Reported.{line_of, unread_text, denial_text, stop_text, ending_text};

use crate::reply::Ending;
use crate::request_fault::RequestFault;
use std::io::Write;
use study_listing::Unread;
use study_material::Class;
use study_reply::{Refusal, word_pieces};
use study_script::{RunFault, Summary};
use study_text::{DeviceFailed, Piece, write_pieces, write_text};

/// A refusal as the script's replies name it, without `error `, and a line feed.
fn put_refusal<W: Write>(out: &mut W, refusal: Refusal) -> Result<(), DeviceFailed>
    ensures { OnOk result
        (Appends (W.contents out.old) (W.contents out.new) (line_of (words_of refusal))) }
{
    let (name, argument) = word_pieces(refusal);
    write_pieces(out, &[name, argument, Piece::Bytes(b"\n")])
}

fn put_file_fault<W: Write>(out: &mut W, class: Class, refusal: Refusal) -> Result<(), DeviceFailed>
    ensures { OnOk result
        (Appends (W.contents out.old) (W.contents out.new)
        (name_of class ++ (codes " " ++ line_of (words_of refusal)))) }
{
    let (name, argument) = word_pieces(refusal);
    write_pieces(
        out,
        &[
            Piece::Bytes(class.name().as_bytes()),
            Piece::Bytes(b" "),
            name,
            argument,
            Piece::Bytes(b"\n"),
        ],
    )
}

/// Writes the name of a refusal, and a line feed: `NoSuchNode`, `MissingTable KQK`, `KRK HeaderDamaged`.
pub fn put_request_fault<W: Write>(out: &mut W, denial: RequestFault) -> Result<(), DeviceFailed>
    ensures { OnOk result (Appends (W.contents out.old) (W.contents out.new) (denial_text denial)) }
{
    match denial {
        RequestFault::Refused(refusal) => put_refusal(out, refusal),
        RequestFault::OfFile(class, refusal) => put_file_fault(out, class, refusal),
        RequestFault::NoMan => write_text(out, b"NoMan\n"),
        RequestFault::Unread(fault) => write_text(out, unread_text(fault)),
    }
}

/// Why a search is not valid.
fn unread_text(fault: Unread) -> &'static [u8]
    ensures { result.now ≡ unread_text fault }
{
    match fault {
        Unread::NoSuchTheme => b"NoSuchTheme\n",
        Unread::NoSuchFilter => b"NoSuchFilter\n",
        Unread::NoKeyMove => b"NoKeyMove\n",
    }
}

fn put_ran<W: Write>(out: &mut W, summary: Summary) -> Result<(), DeviceFailed>
    ensures { OnOk result
        (Appends (W.contents out.old) (W.contents out.new) (ending_text (Ending.Ran summary))) }
{
    write_pieces(
        out,
        &[
            Piece::Bytes(b"ran "),
            Piece::Number(summary.lines),
            Piece::Bytes(b" "),
            Piece::Number(summary.refused),
            Piece::Bytes(b"\n"),
        ],
    )
}

fn put_stopped<W: Write>(out: &mut W, fault: RunFault) -> Result<(), DeviceFailed>
    ensures { OnOk result (Appends (W.contents out.old) (W.contents out.new) (stop_text fault)) }
{
    match fault {
        RunFault::ReadDevice => write_text(out, b"stopped ReadDevice\n"),
        RunFault::WriteDevice => write_text(out, b"stopped WriteDevice\n"),
        RunFault::LineTooLong(line) => write_pieces(
            out,
            &[
                Piece::Bytes(b"stopped LineTooLong "),
                Piece::Number(line),
                Piece::Bytes(b"\n"),
            ],
        ),
        RunFault::TooManyLines => write_text(out, b"stopped TooManyLines\n"),
        RunFault::OutOfMemory => write_text(out, b"stopped OutOfMemory\n"),
    }
}

/// Writes how an answer ended, and a line feed: `answered`, `refused`, `ran LINES REFUSED`, `stopped LineTooLong 3`.
pub fn put_ending<W: Write>(out: &mut W, ended: Ending) -> Result<(), DeviceFailed>
    ensures { OnOk result (Appends (W.contents out.old) (W.contents out.new) (ending_text ended)) }
{
    match ended {
        Ending::Answered => write_text(out, b"answered\n"),
        Ending::Refused(_) => write_text(out, b"refused\n"),
        Ending::Ran(summary) => put_ran(out, summary),
        Ending::Stopped(fault) => put_stopped(out, fault),
    }
}
