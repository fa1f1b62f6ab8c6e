//! The program, over the streams of its process or over any others.
ghost use Rattle.std.specs.Prelude.{◌≡◌, false, IfOk, OnErr};
ghost use Rattle.std.specs.Io.KnownBytes.{Keeps};
ghost use Rattle.study_import_program.specs.Status.{status_reported, IsReported};
ghost use Rattle.study_import_program.specs.Ended.{HasRun, EndsBy};
ghost use Rattle.study_import_program.specs.Streams.{IsWhole, IsFront};
ghost use Rattle.study_import_program.specs.Texts.{text_of};

use crate::code_page::PageReader;
use crate::line_ends::LineReader;
use crate::options::{Options, read_words};
use crate::status::{put_stop, status_of};
use crate::streaming::{ImportFault, import_games};
use std::alloc::Allocator;
use std::io::{BufReader, BufWriter, Read, Write};
use std::process::ExitCode;
use study_console::{print_usage, words_of};
use study_import::Imported;

/// Reads games of PGN from standard input and writes their script to standard output.
///
/// The exit status is 0 if each game has its block, 1 if some game has none or none was chosen, 2 if the command line was refused, and 3 if the run
/// stopped at a fault, whose name then goes to standard error.
///
/// No contract: no clause can name the content of the streams and the words of a process. `import_stream` has one.
pub fn studyimport(rt: &HostRuntime) -> ExitCode {
    let words = match words_of(rt, b"studyimport") {
        Ok(words) => words,
        Err(status) => return ExitCode::from(status),
    };
    match read_words(rt.alloc(), words.as_slice()) {
        Ok(Some(options)) => ExitCode::from(import_streams(rt, &options)),
        Ok(None) => ExitCode::from(no_stipulation(rt)),
        Err(error) => ExitCode::from(print_usage(rt, b"studyimport", &error)),
    }
}

fn no_stipulation(rt: &HostRuntime) -> u8 {
    let _ = eprintln!(rt;
        "error: --stipulate wants a side and a goal: white win, black draw, white mate 3"
    );
    2
}

fn import_streams(rt: &HostRuntime, options: &Options) -> u8 {
    let alloc = rt.alloc();
    let mut errors = rt.stderr();
    let Ok(mut games) = BufReader::new(alloc, rt.stdin()) else {
        return report_end(&mut errors, &Err(ImportFault::OutOfMemory));
    };
    let Ok(mut out) = BufWriter::new(alloc, rt.stdout()) else {
        return report_end(&mut errors, &Err(ImportFault::OutOfMemory));
    };
    import_stream(&alloc, options, &mut games, &mut out, &mut errors)
}

/// Imports the games of a reader, reports on `errors` why the run stopped, if it did, and returns the exit status.
pub fn import_stream<A: Allocator, R: Read, W: Write, E: Write>(
    alloc: &A,
    options: &Options,
    games: &mut R,
    out: &mut W,
    errors: &mut E,
) -> u8
    ensures { EndsBy
        (HasRun options.now.choice (text_of options.now.encoding (R.remaining games.old))
        (W.contents out.old) (W.contents out.new)) result options.now.progress
        (E.contents errors.old) (E.contents errors.new) }
{
    let mut answer = import_text(alloc, options, games, out, errors);
    // Blocks may still be in the writer's buffer.
    if out.flush().is_err() {
        answer = Err(ImportFault::WriteDevice);
    }
    report_end(errors, &answer)
}

/// Imports the games of a reader of files.
fn import_text<A: Allocator, R: Read, W: Write, E: Write>(
    alloc: &A,
    options: &Options,
    games: &mut R,
    out: &mut W,
    errors: &mut E,
) -> Result<Imported, ImportFault>
    ensures ok { IfOk result (λ imported. IsWhole options.now.choice
        (text_of options.now.encoding (R.remaining games.old)) (W.contents out.old)
        (W.contents out.new) imported) }
    ensures err { OnErr result (IsFront options.now.choice
        (text_of options.now.encoding (R.remaining games.old)) (W.contents out.old)
        (W.contents out.new)) }
    ensures quiet { options.now.progress ≡ false → Keeps (E.contents errors.old)
        (E.contents errors.new) }
{
    let choice = options.choice;
    match options.encoding {
        None => {
            let mut text = LineReader::new(games);
            import_games(alloc, &mut text, out, errors, choice, options.progress)
        }
        Some(page) => {
            let mut text = LineReader::new(PageReader::new(games, page));
            import_games(alloc, &mut text, out, errors, choice, options.progress)
        }
    }
}

/// Reports why a run stopped, if it did. A failure of standard error cannot be reported.
fn report_end<E: Write>(errors: &mut E, answer: &Result<Imported, ImportFault>) -> u8
    ensures status { result ≡ status_reported answer.now }
    ensures reported { IsReported answer.now (E.contents errors.old) (E.contents errors.new) }
{
    if let Err(fault) = answer {
        let _ = put_stop(errors, *fault);
    }
    status_of(answer)
}
