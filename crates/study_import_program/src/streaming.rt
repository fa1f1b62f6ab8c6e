//! Games from a reader, with one in memory.
ghost use Rattle.std.specs.Prelude.{◌≡◌, [], false, OnOk, OnErr, IfOk};
ghost use Rattle.std.specs.Io.KnownBytes.{Appends, Keeps};
ghost use Rattle.study_import.specs.Imported.{still_written};
ghost use Rattle.study_import_program.specs.Streams.{AppendsFront, PutsByte, StopsAtByte, PutsRest, IsWhole, IsFront};

use crate::status::put_games;
use std::alloc::Allocator;
use std::io::{Read, Write};
use study_command::read_byte;
use study_import::{Choice, Imported, Importer};
use study_text::{Text, write_text};

/// Why a run stopped. The blocks of the games before stay written.
#[derive(Clone, Copy, Debug, PartialEq, Eq)]
pub enum ImportFault {
    ReadDevice,
    WriteDevice,
    OutOfMemory,
}

/// Writes the script of the games of a reader. If `progress` is set, the progress goes to `errors`.
pub fn import_games<A: Allocator, R: Read, W: Write, E: Write>(
    alloc: &A,
    games: &mut R,
    out: &mut W,
    errors: &mut E,
    choice: Choice,
    progress: bool,
) -> Result<Imported, ImportFault>
    ensures ok { IfOk result (λ imported.
        IsWhole choice (R.remaining games.old) (W.contents out.old) (W.contents out.new) imported) }
    ensures err { OnErr result
        (IsFront choice (R.remaining games.old) (W.contents out.old) (W.contents out.new)) }
    ensures quiet { progress ≡ false → Keeps (E.contents errors.old) (E.contents errors.new) }
{
    let mut importer = Importer::new(alloc, choice);
    for _ in 0..u64::MAX {
        match read_byte(games) {
            Err(_) => return Err(ImportFault::ReadDevice),
            Ok(None) => return finish(alloc, importer, out),
            Ok(Some(byte)) => {
                let met = importer.game_count();
                take(alloc, &mut importer, byte, out)?;
                if progress {
                    tell_progress(errors, met, importer.game_count());
                }
            }
        }
    }
    Err(ImportFault::ReadDevice)
}

/// Reports after every hundred games how many were read. A failure of standard error cannot be reported.
fn tell_progress<E: Write>(errors: &mut E, before: u32, met: u32) {
    if before < met && met % 100 == 0 {
        let _ = put_games(errors, met);
    }
}

/// Takes a byte, and writes the block of a game that it ends.
fn take<'a, A: Allocator, W: Write>(
    alloc: &'a A,
    importer: &mut Importer<'a, A>,
    byte: u8,
    out: &mut W,
) -> Result<(), ImportFault>
    ensures ok { OnOk result
        (PutsByte byte importer.old importer.new (W.contents out.old) (W.contents out.new)) }
    ensures err { OnErr result
        (StopsAtByte byte importer.old (W.contents out.old) (W.contents out.new)) }
{
    let mut text = Text::new(alloc);
    match importer.take(byte, &mut text) {
        Ok(()) => put_block(out, text.as_slice()),
        Err(_) => Err(ImportFault::OutOfMemory),
    }
}

fn put_block<W: Write>(out: &mut W, text: &[u8]) -> Result<(), ImportFault>
    ensures ok { OnOk result (Appends (W.contents out.old) (W.contents out.new) text.now) }
    ensures err { OnErr result (AppendsFront (W.contents out.old) (W.contents out.new) text.now) }
{
    match write_text(out, text) {
        Ok(()) => Ok(()),
        Err(_) => Err(ImportFault::WriteDevice),
    }
}

/// The end of the reader: writes the last block, and how many games there are.
fn finish<'a, A: Allocator, W: Write>(
    alloc: &'a A,
    mut importer: Importer<'a, A>,
    out: &mut W,
) -> Result<Imported, ImportFault>
    ensures ok { IfOk result (λ imported.
        PutsRest importer.entry imported (W.contents out.old) (W.contents out.new)) }
    ensures err { OnErr result
        (AppendsFront (W.contents out.old) (W.contents out.new) (still_written importer.entry [])) }
{
    let mut text = Text::new(alloc);
    let Ok(imported) = importer.finish(&mut text) else {
        return Err(ImportFault::OutOfMemory);
    };
    put_block(out, text.as_slice())?;
    Ok(imported)
}
