//! The program, over the streams of its process or over any others.
ghost use Rattle.std.specs.Prelude.{◌≡◌, false, OnOk, IfErr, IfSome, IfNone};
ghost use Rattle.study_find_program.specs.Status.{status_of};
ghost use Rattle.study_find_program.specs.Listed.{HasAnswered};
ghost use Rattle.study_find_program.specs.Stopped.{IsStopped};
ghost use Rattle.study_find_program.specs.Ended.{ListEnds, EndsOver, IsEndReported, EndsBy, IsStopReported};

use crate::lists::answer;
use crate::options::{Options, WordFault, read_words};
use crate::progress::Progress;
use crate::status::{put_stop, status_of};
use std::alloc::Allocator;
use std::io::{LineWriter, Write};
use std::process::ExitCode;
use std::rt::Files;
use study_console::{print_usage, report_stop, words_of};
use study_listing::{NoWatch, Stop};
use study_prober::{CellPages, PagedTables};
use study_program::{FolderStore, open_tables};

const PROGRAM: &[u8] = b"studymine";

/// Writes the positions of the request to standard output as they are found.
///
/// The exit status is 0 if the list is complete, 2 if the command line was refused, and 3 if the list stopped: at a table that is missing or cannot
/// be read, at too many studies, or at a device, whose name then goes to standard error.
///
/// No contract: no clause can name the content of the streams and the words of a process. `list_over_values` and `list_over_files` have one.
pub fn studymine(rt: &HostRuntime) -> ExitCode {
    let words = match words_of(rt, PROGRAM) {
        Ok(words) => words,
        Err(status) => return ExitCode::from(status),
    };
    match read_words(rt.alloc(), words.as_slice()) {
        Ok(Ok(options)) => ExitCode::from(list_to_streams(rt, &options)),
        Ok(Err(fault)) => ExitCode::from(not_known(rt, fault)),
        Err(error) => ExitCode::from(print_usage(rt, PROGRAM, &error)),
    }
}

/// The words are not a request.
fn not_known(rt: &HostRuntime, fault: WordFault) -> u8
    ensures { result ≡ 2 }
{
    let name = match fault {
        WordFault::NoSuchClass => "NoSuchClass",
        WordFault::NoSuchTheme => "NoSuchTheme",
        WordFault::NoSuchFilter => "NoSuchFilter",
        WordFault::NoKeyMove => "NoKeyMove",
    };
    let _ = eprintln!(rt; "error: {name}: see 'studymine --help'");
    2
}

fn list_to_streams(rt: &HostRuntime, options: &Options<'_>) -> u8 {
    let alloc = rt.alloc();
    let mut errors = rt.stderr();
    let Ok(mut out) = LineWriter::new(alloc, rt.stdout()) else {
        return report_stop(&mut rt.stderr(), PROGRAM, b"OutOfMemory");
    };
    match list_over_files(rt, &alloc, options, &mut out, &mut errors) {
        Some(status) => status,
        None => report_stop(&mut rt.stderr(), PROGRAM, b"OutOfMemory"),
    }
}

/// Answers the request, and writes its progress to `errors` if that is wanted.
fn answer_watched<V: CellPages, W: Write, E: Write>(
    options: &Options<'_>,
    values: &mut V,
    out: &mut W,
    errors: &mut E,
) -> Result<(), Stop>
    ensures answered { V.source.is_honest values.old
        → OnOk result (HasAnswered options.now.request options.now.output
        (W.contents out.old) (W.contents out.new)) }
    ensures stopped { V.source.is_honest values.old
        → IfErr result (IsStopped options.now.request options.now.output
        (W.contents out.old) (W.contents out.new)) }
    ensures quiet { options.now.progress ≡ false → errors.new ≡ errors.old }
{
    let request = &options.request;
    if options.progress {
        return answer(
            request,
            options.output,
            values,
            out,
            &mut Progress { errors },
        );
    }
    answer(request, options.output, values, out, &mut NoWatch)
}

/// The same, with the lines that are still in the writer's buffer.
fn answer_whole<V: CellPages, W: Write, E: Write>(
    options: &Options<'_>,
    values: &mut V,
    out: &mut W,
    errors: &mut E,
) -> Result<(), Stop>
    ensures list { V.source.is_honest values.old
        → ListEnds options.now.request options.now.output
        (W.contents out.old) (W.contents out.new) result }
    ensures quiet { options.now.progress ≡ false → errors.new ≡ errors.old }
{
    let answered = answer_watched(options, values, out, errors);
    match out.flush() {
        Err(_) => Err(Stop::WriteDevice),
        Ok(()) => answered,
    }
}

/// Reports why a list stopped, if it did. A failure of standard error cannot be reported.
fn report_end<E: Write>(errors: &mut E, answered: &Result<(), Stop>) -> u8
    ensures status { result ≡ status_of answered.now }
    ensures stop { IsStopReported answered.now (E.contents errors.old) (E.contents errors.new) }
{
    if let Err(stop) = answered {
        let _ = put_stop(errors, *stop);
    }
    status_of(answered)
}

/// Lists over any values, writes to `errors` why the list stopped, if it did, and returns the exit status.
pub fn list_over_values<V: CellPages, W: Write, E: Write>(
    options: &Options<'_>,
    values: &mut V,
    out: &mut W,
    errors: &mut E,
) -> u8
    ensures list { V.source.is_honest values.old
        → EndsOver options.now result (W.contents out.old) (W.contents out.new)
        (E.contents errors.old) (E.contents errors.new) }
    ensures reported { IsEndReported options.now.progress result
        (E.contents errors.old) (E.contents errors.new) }
{
    let answered = answer_whole(options, values, out, errors);
    report_end(errors, &answered)
}

/// Lists over the tables of a folder, and also writes to `errors` which files are not tables; `None` if there is no memory for the tables.
pub fn list_over_files<F: Files, A: Allocator, W: Write, E: Write>(
    files: &F,
    alloc: &A,
    options: &Options<'_>,
    out: &mut W,
    errors: &mut E,
) -> Option<u8>
    ensures ended { IfSome result (λ status.
        EndsBy options.now.progress status (E.contents errors.old) (E.contents errors.new)) }
    ensures none { IfNone result ((errors.new ≡ errors.old) × (out.new ≡ out.old)) }
{
    let mut store = FolderStore::new(files, alloc, options.tables).ok()?;
    let mut tables = PagedTables::new(alloc, options.pages).ok()?;
    open_tables(alloc, b"studymine", &mut tables, &mut store, errors);
    Some(list_over_values(options, &mut tables, out, errors))
}
