//! The messages of the program on standard error.
ghost use Rattle.std.specs.Prelude.{◌++◌, codes, decimal, OnOk, OnErr};
ghost use Rattle.std.specs.Io.KnownBytes.{Appends};
ghost use Rattle.study_text.specs.Taken.{TakesPrefix};
ghost use Rattle.study_report_program.specs.Errors.{stop_text, old_remarks_text};

use std::io::Write;
use study_script::RunFault;
use study_text::{DeviceFailed, Piece, write_pieces, write_text};

/// Writes why a run stopped, in a line of its own: `studyreport: LineTooLong 3`.
pub fn put_stop<W: Write>(out: &mut W, fault: RunFault) -> Result<(), DeviceFailed>
    ensures ok { OnOk result (Appends (W.contents out.old) (W.contents out.new) (stop_text fault)) }
    ensures err { OnErr result
        (TakesPrefix (W.contents out.old) (W.contents out.new) (stop_text fault)) }
{
    match fault {
        RunFault::ReadDevice => write_text(out, b"studyreport: ReadDevice\n"),
        RunFault::WriteDevice => write_text(out, b"studyreport: WriteDevice\n"),
        RunFault::LineTooLong(line) => write_pieces(
            out,
            &[
                Piece::Bytes(b"studyreport: LineTooLong "),
                Piece::Number(line),
                Piece::Bytes(b"\n"),
            ],
        ),
        RunFault::TooManyLines => write_text(out, b"studyreport: TooManyLines\n"),
        RunFault::OutOfMemory => write_text(out, b"studyreport: OutOfMemory\n"),
    }
}

/// Writes, in a line of its own, that the remarks of the script are read as those of version 1.7.
#[tactic(auto, unfolding(crate::specs::Errors::old_remarks_text))]
pub fn put_old_remarks<W: Write>(out: &mut W) -> Result<(), DeviceFailed>
    ensures ok { OnOk result (Appends (W.contents out.old) (W.contents out.new) old_remarks_text) }
    ensures err { OnErr result
        (TakesPrefix (W.contents out.old) (W.contents out.new) old_remarks_text) }
{
    write_text(
        out,
        b"studyreport: comments that begin with '# ' are read as remarks of version 1.7\n",
    )
}

/// Reports how many entries there are so far, in a line of its own: `30 entries`.
pub fn put_entries<W: Write>(out: &mut W, count: u32) -> Result<(), DeviceFailed>
    ensures ok { OnOk result
        (Appends (W.contents out.old) (W.contents out.new) (decimal count ++ codes " entries\n")) }
    ensures err { OnErr result
        (TakesPrefix (W.contents out.old) (W.contents out.new)
        (decimal count ++ codes " entries\n")) }
{
    write_pieces(out, &[Piece::Number(count), Piece::Bytes(b" entries\n")])
}
