//! The program, over the streams of its process or over any others.
ghost use Rattle.std.specs.Prelude.{◌≡◌, is_some};
ghost use Rattle.study_program.specs.Ended.{EndsBy, HasRun};
ghost use Rattle.study_program.specs.Status.{status_reported, IsReported};

use crate::folder::FolderStore;
use crate::options::{Options, read_words};
use crate::status::{put_stop, status_of};
use std::alloc::Allocator;
use std::io::{BufReader, LineWriter, Read, Write};
use std::process::ExitCode;
use std::rt::Files;
use study_console::{print_usage, words_of};
use study_script::{RunFault, Settings, Summary, run};

/// Reads the script from standard input and writes each reply to standard output as soon as its line is answered.
///
/// The exit status is 0 if no line was refused, 1 if some line was, 2 if the command line was refused, and 3 if the run stopped at a fault, whose
/// name then goes to standard error.
///
/// No contract: no clause can name the content of the streams and the words of a process. `answer_script` has one.
pub fn studybench(rt: &HostRuntime) -> ExitCode {
    let words = match words_of(rt, b"studybench") {
        Ok(words) => words,
        Err(status) => return ExitCode::from(status),
    };
    match read_words(rt.alloc(), words.as_slice()) {
        Ok(options) => ExitCode::from(answer_streams(rt, &options)),
        Err(error) => ExitCode::from(print_usage(rt, b"studybench", &error)),
    }
}

fn answer_streams(rt: &HostRuntime, options: &Options<'_>) -> u8 {
    let alloc = rt.alloc();
    let mut errors = rt.stderr();
    let Ok(mut script) = BufReader::new(alloc, rt.stdin()) else {
        return report_end(&mut errors, &Err(RunFault::OutOfMemory));
    };
    let Ok(mut out) = LineWriter::new(alloc, rt.stdout()) else {
        return report_end(&mut errors, &Err(RunFault::OutOfMemory));
    };
    answer_script(rt, &alloc, options, &mut script, &mut out, &mut errors)
}

/// Answers a script over the files of a folder, reports on `errors` why the run stopped, if it did, and returns the exit status.
pub fn answer_script<F: Files, R: Read, W: Write, E: Write, A: Allocator>(
    files: &F,
    alloc: &A,
    options: &Options<'_>,
    script: &mut R,
    out: &mut W,
    errors: &mut E,
) -> u8
    ensures { EndsBy
        (HasRun (is_some options.now.pages) options.now.separate
        (R.remaining script.old) (R.remaining script.new)
        (W.contents out.old) (W.contents out.new))
        result (E.contents errors.old) (E.contents errors.new) }
{
    let mut answer = run_over_files(files, alloc, options, script, out);
    // Replies may still be in the writer's buffer.
    if out.flush().is_err() {
        answer = Err(RunFault::WriteDevice);
    }
    report_end(errors, &answer)
}

/// Reports why a run stopped, if it did. A failure of standard error cannot be reported.
fn report_end<E: Write>(errors: &mut E, answer: &Result<Summary, RunFault>) -> u8
    ensures status { result ≡ status_reported answer.now }
    ensures reported { IsReported answer.now (E.contents errors.old) (E.contents errors.new) }
{
    if let Err(fault) = answer {
        let _ = put_stop(errors, *fault);
    }
    status_of(answer)
}

/// Runs a script over the files of a folder. For a script that loads no table everything is known, whatever files the folder has.
pub fn run_over_files<F: Files, R: Read, W: Write, A: Allocator>(
    files: &F,
    alloc: &A,
    options: &Options<'_>,
    script: &mut R,
    out: &mut W,
) -> Result<Summary, RunFault>
    ensures { HasRun (is_some options.now.pages) options.now.separate
        (R.remaining script.old) (R.remaining script.new)
        (W.contents out.old) (W.contents out.new) result }
{
    let Ok(mut store) = FolderStore::new(files, alloc, options.tables) else {
        return Err(RunFault::OutOfMemory);
    };
    let settings = Settings {
        pages: options.pages,
        separate: options.separate,
    };
    run(alloc, script, out, &mut store, settings)
}
