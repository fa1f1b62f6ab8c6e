//! The exit status of the program, and the message when a run stops.
ghost use Rattle.std.specs.Prelude.{◌≡◌, OnOk, OnErr};
ghost use Rattle.std.specs.Io.KnownBytes.{Appends};
ghost use Rattle.study_text.specs.Taken.{TakesPrefix};
ghost use Rattle.study_program.specs.Status.{status_reported, stop_text};

use std::io::Write;
use study_script::{RunFault, Summary};
use study_text::{DeviceFailed, Piece, write_pieces, write_text};

/// The exit status after a run.
pub fn status_of(answer: &Result<Summary, RunFault>) -> u8
    ensures { result ≡ status_reported answer.now }
{
    match answer {
        Ok(summary) if summary.refused == 0 => 0,
        Ok(_) => 1,
        Err(_) => 3,
    }
}

/// Reports why a run stopped, in a line of its own: `studybench: LineTooLong 3`.
pub fn put_stop<W: Write>(out: &mut W, fault: RunFault) -> Result<(), DeviceFailed>
    ensures ok { OnOk result (Appends (W.contents out.old) (W.contents out.new) (stop_text fault)) }
    ensures err { OnErr result
        (TakesPrefix (W.contents out.old) (W.contents out.new) (stop_text fault)) }
{
    match fault {
        RunFault::ReadDevice => write_text(out, b"studybench: ReadDevice\n"),
        RunFault::WriteDevice => write_text(out, b"studybench: WriteDevice\n"),
        RunFault::LineTooLong(line) => write_pieces(
            out,
            &[
                Piece::Bytes(b"studybench: LineTooLong "),
                Piece::Number(line),
                Piece::Bytes(b"\n"),
            ],
        ),
        RunFault::TooManyLines => write_text(out, b"studybench: TooManyLines\n"),
        RunFault::OutOfMemory => write_text(out, b"studybench: OutOfMemory\n"),
    }
}
