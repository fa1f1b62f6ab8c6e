//! The exit status of the program, and what it writes to standard error.
ghost use Rattle.std.specs.Prelude.{◌≡◌, ◌++◌, codes, decimal, OnOk, OnErr};
ghost use Rattle.std.specs.Io.KnownBytes.{Appends};
ghost use Rattle.study_text.specs.Taken.{TakesPrefix};
ghost use Rattle.study_import_program.specs.Status.{status_reported, stop_text};

use crate::streaming::ImportFault;
use std::io::Write;
use study_import::Imported;
use study_text::{DeviceFailed, Piece, write_pieces, write_text};

/// The exit status after a run.
pub fn status_of(answer: &Result<Imported, ImportFault>) -> u8
    ensures { result ≡ status_reported answer.now }
{
    match answer {
        Ok(imported) if imported.reported > 0 && imported.reported == imported.with_study => 0,
        Ok(_) => 1,
        Err(_) => 3,
    }
}

/// Reports why a run stopped, in a line of its own: `studyimport: ReadDevice`.
pub fn put_stop<W: Write>(out: &mut W, fault: ImportFault) -> Result<(), DeviceFailed>
    ensures ok { OnOk result (Appends (W.contents out.old) (W.contents out.new) (stop_text fault)) }
    ensures err { OnErr result
        (TakesPrefix (W.contents out.old) (W.contents out.new) (stop_text fault)) }
{
    match fault {
        ImportFault::ReadDevice => write_text(out, b"studyimport: ReadDevice\n"),
        ImportFault::WriteDevice => write_text(out, b"studyimport: WriteDevice\n"),
        ImportFault::OutOfMemory => write_text(out, b"studyimport: OutOfMemory\n"),
    }
}

/// Reports how many games were read, in a line of its own: `300 games`.
pub fn put_games<W: Write>(out: &mut W, count: u32) -> Result<(), DeviceFailed>
    ensures ok { OnOk result
        (Appends (W.contents out.old) (W.contents out.new) (decimal count ++ codes " games\n")) }
    ensures err { OnErr result
        (TakesPrefix (W.contents out.old) (W.contents out.new)
        (decimal count ++ codes " games\n")) }
{
    write_pieces(out, &[Piece::Number(count), Piece::Bytes(b" games\n")])
}
