//! A report in lines of plain text, a fact a line.
ghost use Rattle.std.specs.Prelude.{◌++◌, ◌∷◌, [], OnOk, OnErr};
ghost use Rattle.std.specs.Io.KnownBytes.{Appends};
ghost use Rattle.study_text.specs.Taken.{TakesPrefix};
ghost use Rattle.study_reply.specs.Replied.{error_text};
ghost use Rattle.study_report.specs.Lines.{refusal_line, unread_line, review_remark};

use crate::remarks::{behind, is_not_read};
use crate::report::Report;
use std::alloc::Allocator;
use std::io::Write;
use study_entry::EntryInfo;
use study_facts::{ReviewFault, WriteFault};
use study_marks::Bench;
use study_reply::{LineRefusal, refused_pieces};
use study_review::write_review;
use study_text::{DeviceFailed, Piece, write_pieces};
use study_values::Values;

/// Studies as their reviews, refused lines as `refused 7 NoTable KRK`, and a game that was read only up to a fault as `unread game 3, ..`.
#[derive(Clone, Copy, Debug, PartialEq, Eq)]
pub struct Lines;

impl Report for Lines {
    ghost use Rattle.study_reply.specs.Replied.{error_text};
    ghost use Rattle.study_report.specs.Lines.{IsReviewAs, IsReviewForm};

    ghost tells = { λ plain info text. IsReviewAs plain info text };

    ghost form = { λ plain info text. IsReviewForm plain info text };

    ghost refusal = { λ number line reply. refusal_line number reply };

    ghost remark = { λ number line. review_remark number line };

    // Nothing is kept.
    ghost lists = { λ lines reported. Unit {0} };

    fn add_study<'a, 'b, A: Allocator, B: Allocator, V: Values, W: Write>(
        &mut self,
        alloc: &'a A,
        bench: &Bench<'b, B>,
        values: &mut V,
        info: EntryInfo,
        out: &mut W,
    ) -> Result<(), ReviewFault> {
        write_review(alloc, bench, values, info.number, out)
    }

    fn add_refusal<'a, 'b, A: Allocator, B: Allocator, W: Write>(
        &mut self,
        _alloc: &'a A,
        number: u32,
        _line: &[u8],
        refused: &LineRefusal<'b, B>,
        out: &mut W,
    ) -> Result<(), WriteFault> {
        put_refusal(out, number, refused)?;
        Ok(())
    }

    fn add_remark<'a, A: Allocator, W: Write>(
        &mut self,
        _alloc: &'a A,
        _number: u32,
        line: &[u8],
        out: &mut W,
    ) -> Result<(), WriteFault> {
        if is_not_read(line) {
            put_unread(out, line)?;
        }
        Ok(())
    }
}

/// Writes `unread game 3, line 45, column 12: not read: NoSuchMove at Kb6`.
fn put_unread<W: Write>(out: &mut W, line: &[u8]) -> Result<(), DeviceFailed>
    ensures ok { OnOk result
        (Appends (W.contents out.old) (W.contents out.new) (unread_line line.now)) }
    ensures err { OnErr result
        (TakesPrefix (W.contents out.old) (W.contents out.new) (unread_line line.now)) }
{
    write_pieces(
        out,
        &[
            Piece::Bytes(b"unread "),
            Piece::Bytes(behind(line, 3)),
            Piece::Bytes(b"\n"),
        ],
    )
}

/// Writes `refused 7 NoTable KRK`.
fn put_refusal<'b, W: Write, B: Allocator>(
    out: &mut W,
    number: u32,
    refused: &LineRefusal<'b, B>,
) -> Result<(), DeviceFailed>
    ensures ok { OnOk result
        (Appends (W.contents out.old) (W.contents out.new)
        (refusal_line number (error_text refused.now))) }
    ensures err { OnErr result
        (TakesPrefix (W.contents out.old) (W.contents out.new)
        (refusal_line number (error_text refused.now))) }
{
    let (name, argument) = refused_pieces(refused);
    write_pieces(
        out,
        &[
            Piece::Bytes(b"refused "),
            Piece::Number(number),
            Piece::Bytes(b" "),
            name,
            argument,
            Piece::Bytes(b"\n"),
        ],
    )
}
