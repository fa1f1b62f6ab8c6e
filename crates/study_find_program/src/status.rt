//! The exit status of the program, and what it writes to standard error.
ghost use Rattle.std.specs.Prelude.{◌≡◌, ◌++◌, ◌∷◌, [], OnOk, OnErr, codes, decimal};
ghost use Rattle.std.specs.Io.KnownBytes.{Appends};
ghost use Rattle.study_text.specs.Taken.{TakesPrefix};
ghost use Rattle.study_find_program.specs.Status.{status_of, file_fault_text, no_table_text, read_text, probe_text, stop_text, progress_text};

use std::io::Write;
use study_listing::Stop;
use study_material::Class;
use study_text::{DeviceFailed, Piece, write_pieces, write_text};
use study_values::{ProbeFault, SourceFault};

/// The exit status after a list, complete or stopped.
pub fn status_of(answer: &Result<(), Stop>) -> u8
    ensures { result ≡ status_of answer.now }
{
    match answer {
        Ok(()) => 0,
        Err(_) => 3,
    }
}

/// Writes why a list stopped, in a line of its own: `studymine: NoTable KRK`.
pub fn put_stop<W: Write>(out: &mut W, stop: Stop) -> Result<(), DeviceFailed>
    ensures ok { OnOk result (Appends (W.contents out.old) (W.contents out.new) (stop_text stop)) }
    ensures err { OnErr result
        (TakesPrefix (W.contents out.old) (W.contents out.new) (stop_text stop)) }
{
    match stop {
        Stop::TooManyStudies => write_text(out, b"studymine: TooManyStudies\n"),
        Stop::WriteDevice => write_text(out, b"studymine: WriteDevice\n"),
        Stop::Values(fault) => put_probe_fault(out, fault),
    }
}

fn put_probe_fault<W: Write>(out: &mut W, fault: ProbeFault) -> Result<(), DeviceFailed>
    ensures ok { OnOk result
        (Appends (W.contents out.old) (W.contents out.new) (probe_text fault)) }
    ensures err { OnErr result
        (TakesPrefix (W.contents out.old) (W.contents out.new) (probe_text fault)) }
{
    match fault {
        ProbeFault::NoTable(class) => put_no_table(out, class),
        ProbeFault::TableRead(fault) => write_text(out, read_text(fault)),
        ProbeFault::PageDamaged(class, number) => put_damaged(out, class, number),
    }
}

fn put_no_table<W: Write>(out: &mut W, class: Class) -> Result<(), DeviceFailed>
    ensures ok { OnOk result
        (Appends (W.contents out.old) (W.contents out.new) (no_table_text class)) }
    ensures err { OnErr result
        (TakesPrefix (W.contents out.old) (W.contents out.new) (no_table_text class)) }
{
    write_pieces(
        out,
        &[
            Piece::Bytes(b"studymine: NoTable "),
            Piece::Bytes(class.name().as_bytes()),
            Piece::Bytes(b"\n"),
        ],
    )
}

/// Writes which page of which table is damaged: `studymine: KRK.dtm: PageDamaged 7`.
fn put_damaged<W: Write>(out: &mut W, class: Class, number: u32) -> Result<(), DeviceFailed>
    ensures ok { OnOk result (Appends (W.contents out.old) (W.contents out.new)
        (file_fault_text class (codes "PageDamaged " ++ (decimal number ++ 10 ∷ [])))) }
    ensures err { OnErr result (TakesPrefix (W.contents out.old) (W.contents out.new)
        (file_fault_text class (codes "PageDamaged " ++ (decimal number ++ 10 ∷ [])))) }
{
    write_pieces(
        out,
        &[
            Piece::Bytes(b"studymine: "),
            Piece::Bytes(class.name().as_bytes()),
            Piece::Bytes(b".dtm: PageDamaged "),
            Piece::Number(number),
            Piece::Bytes(b"\n"),
        ],
    )
}

fn read_text(fault: SourceFault) -> &'static [u8]
    ensures { result.now ≡ read_text fault }
{
    match fault {
        SourceFault::Device => b"studymine: TableRead Device\n",
        SourceFault::Short => b"studymine: TableRead Short\n",
    }
}

/// Writes the progress of a search, in a line of its own: `300000 of 5242880 numbers, 12 positions`.
pub fn put_progress<W: Write>(
    out: &mut W,
    number: u32,
    end: u32,
    found: u32,
) -> Result<(), DeviceFailed>
    ensures ok { OnOk result
        (Appends (W.contents out.old) (W.contents out.new) (progress_text number end found)) }
    ensures err { OnErr result
        (TakesPrefix (W.contents out.old) (W.contents out.new) (progress_text number end found)) }
{
    write_pieces(
        out,
        &[
            Piece::Number(number),
            Piece::Bytes(b" of "),
            Piece::Number(end),
            Piece::Bytes(b" numbers, "),
            Piece::Number(found),
            Piece::Bytes(b" positions\n"),
        ],
    )
}

/// Writes how many positions were found, in a line of its own.
pub fn put_count<W: Write>(out: &mut W, found: u32) -> Result<(), DeviceFailed>
    ensures ok { OnOk result
        (Appends (W.contents out.old) (W.contents out.new) (decimal found ++ 10 ∷ [])) }
    ensures err { OnErr result
        (TakesPrefix (W.contents out.old) (W.contents out.new) (decimal found ++ 10 ∷ [])) }
{
    write_pieces(out, &[Piece::Number(found), Piece::Bytes(b"\n")])
}
