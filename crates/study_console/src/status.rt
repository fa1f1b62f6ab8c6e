//! Exit statuses, and the line of a stop.
ghost use Rattle.std.specs.Prelude.{◌≡◌};
ghost use Rattle.clap.specs.Values.{kind_of};
ghost use Rattle.study_console.specs.Status.{status_unread, IsStopWritten};

use clap::Error;
use clap::error::ErrorKind;
use std::io::Write;
use study_text::{Piece, write_pieces};

/// The exit status if the words of the command line give no options, by clap's message and whether that was printed.
pub fn status_without_options(error: &Error, printed: bool) -> u8
    ensures { result ≡ status_unread (kind_of error.now) printed }
{
    match error.kind() {
        ErrorKind::OutOfMemory => 3,
        ErrorKind::DisplayHelp | ErrorKind::DisplayVersion => { if printed { 0 } else { 3 } }
        _ => 2,
    }
}

/// Writes why a program stopped, in a line of its own, and returns its exit status. A failure of standard error cannot be reported.
pub fn report_stop<'t, E: Write>(errors: &mut E, program: &'t [u8], name: &'t [u8]) -> u8
    ensures status { result ≡ 3 }
    ensures written { IsStopWritten program.now name.now (E.contents errors.old) (E.contents errors.new) }
{
    let line = [
        Piece::Bytes(program),
        Piece::Bytes(b": "),
        Piece::Bytes(name),
        Piece::Bytes(b"\n"),
    ];
    let _ = write_pieces(errors, &line);
    3
}
