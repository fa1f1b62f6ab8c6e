//! The program, over the streams of its process or over any others.
ghost use Rattle.std.specs.Prelude.{◌≡◌, false, codes};
ghost use Rattle.study_material.specs.Class.{class_list};
ghost use Rattle.study_program.specs.Status.{status_reported};
ghost use Rattle.study_report_program.specs.Ended.{EndsBy, HasReported, IsReported};
ghost use Rattle.study_program.specs.Errors.{AreFaultsOf};
ghost use Rattle.study_report_program.specs.Errors.{IsStopReported};

use crate::old_remarks::OldRemarks;
use crate::options::{Form, Options, read_words};
use crate::progress::Progress;
use crate::status::{put_old_remarks, put_stop};
use std::alloc::Allocator;
use std::io::{BufReader, LineWriter, Read, Write};
use std::process::ExitCode;
use std::rt::Files;
use study_console::{print_usage, words_of};
use study_list::write_list;
use study_print::{Unwatched, write_pages};
use study_prober::PagedTables;
use study_program::{FolderStore, open_tables, status_of};
use study_report::{Lines, write_report};
use study_script::{RunFault, Summary, Tables};
use study_sheet::write_sheet;

/// Reads the script from standard input and writes the report of each study to standard output as soon as its line is answered.
///
/// The exit status is 0 if no line was refused, 1 if some line was, 2 if the command line was refused, and 3 if the run stopped at a fault, whose
/// name then goes to standard error.
///
/// No contract: no clause can name the content of the streams and the words of a process. `report_script` has one.
pub fn studyreport(rt: &HostRuntime) -> ExitCode {
    let words = match words_of(rt, b"studyreport") {
        Ok(words) => words,
        Err(status) => return ExitCode::from(status),
    };
    match read_words(rt.alloc(), words.as_slice()) {
        Ok(options) => ExitCode::from(report_streams(rt, &options)),
        Err(error) => ExitCode::from(print_usage(rt, b"studyreport", &error)),
    }
}

/// Reports the script of standard input. It is a call of its own, so that nothing of the command line is on the stack while the studies are read.
#[inline(never)]
fn report_streams(rt: &HostRuntime, options: &Options<'_>) -> u8 {
    let alloc = rt.alloc();
    let mut errors = rt.stderr();
    let Ok(mut script) = BufReader::new(alloc, rt.stdin()) else {
        return report_end(&mut errors, &Err(RunFault::OutOfMemory));
    };
    let Ok(mut out) = LineWriter::new(alloc, rt.stdout()) else {
        return report_end(&mut errors, &Err(RunFault::OutOfMemory));
    };
    if options.old_remarks {
        // A failure of standard error cannot be reported.
        let _ = put_old_remarks(&mut errors);
        let mut script = OldRemarks::new(script);
        return report_script(rt, &alloc, options, &mut script, &mut out, &mut errors);
    }
    report_script(rt, &alloc, options, &mut script, &mut out, &mut errors)
}

/// Reports a script over the tables of a folder, reports on `errors` which files are not tables and why the run stopped, if it did, and returns the
/// exit status.
pub fn report_script<F: Files, A: Allocator, R: Read, W: Write, E: Write>(
    files: &F,
    alloc: &A,
    options: &Options<'_>,
    script: &mut R,
    out: &mut W,
    errors: &mut E,
) -> u8
    ensures { EndsBy
        (IsReported options.now.form (R.remaining script.old) (R.remaining script.new)
        (W.contents out.old) (W.contents out.new))
        options.now.progress result (E.contents errors.old) (E.contents errors.new) }
{
    let mut answer = report_over_files(files, alloc, options, script, out, errors);
    // A failure to write what is left in the writer's buffer is reported too.
    if out.flush().is_err() {
        answer = Err(RunFault::WriteDevice);
    }
    report_end(errors, &answer)
}

/// Reports why a run stopped, if it did. A failure of standard error cannot be reported.
fn report_end<E: Write>(errors: &mut E, answer: &Result<Summary, RunFault>) -> u8
    ensures status { result ≡ status_reported answer.now }
    ensures stop { IsStopReported answer.now (E.contents errors.old) (E.contents errors.new) }
{
    if let Err(fault) = answer {
        let _ = put_stop(errors, *fault);
    }
    status_of(answer)
}

/// Reports a script over the tables of a folder, and reports on `errors` which files are not tables.
fn report_over_files<F: Files, A: Allocator, R: Read, W: Write, E: Write>(
    files: &F,
    alloc: &A,
    options: &Options<'_>,
    script: &mut R,
    out: &mut W,
    errors: &mut E,
) -> Result<Summary, RunFault>
    ensures reported { HasReported options.now.form (R.remaining script.old)
        (R.remaining script.new) (W.contents out.old) (W.contents out.new) result }
    ensures faults { options.now.progress ≡ false
        → AreFaultsOf (codes "studyreport") class_list (E.contents errors.old) (E.contents errors.new) }
{
    let Ok(mut store) = FolderStore::new(files, alloc, options.tables) else {
        return Err(RunFault::OutOfMemory);
    };
    let Ok(mut tables) = PagedTables::new(alloc, options.pages) else {
        return Err(RunFault::OutOfMemory);
    };
    open_tables(alloc, b"studyreport", &mut tables, &mut store, errors);
    match options.form {
        Form::Lines => write_report(alloc, script, out, &mut Lines, Tables::Paged(tables)),
        Form::Sheet => write_sheet(alloc, script, out, Tables::Paged(tables)),
        Form::List => write_list(alloc, script, out, Tables::Paged(tables)),
        Form::Pages if options.progress => {
            let progress = Progress { errors };
            write_pages(alloc, script, out, progress, Tables::Paged(tables))
        }
        Form::Pages => write_pages(alloc, script, out, Unwatched, Tables::Paged(tables)),
    }
}
