//! The command line.
ghost use Rattle.std.specs.Prelude.{◌≡◌, Bool};
ghost use Rattle.clap.specs.Values.{kind_of};
ghost use Rattle.study_console.specs.Status.{status_unread};

use crate::status::{report_stop, status_without_options};
use clap::Error;
use std::io::ErrorKind;
use std::{env, io};

/// The version, and the kits that prove it, as `studybench --version` prints them.
pub const VERSION: &str = "2.0.0 (rattle-kit-13b or 13f, logic dac8208d650f15bf)";

/// The words of the command line, the first of which is the program's name; or the exit status, after standard error has why they cannot be read.
///
/// No contract: no clause can name the words with which a process was started.
pub fn words_of(rt: &HostRuntime, program: &[u8]) -> Result<Vec<String>, u8> {
    read_words(rt).map_err(|error| not_read(rt, program, &error))
}

fn read_words(rt: &HostRuntime) -> io::Result<Vec<String>> {
    Ok(env::args(rt)?.collect(rt.alloc())?)
}

/// The words of the command line cannot be read.
fn not_read(rt: &HostRuntime, program: &[u8], error: &io::Error) -> u8 {
    if error.kind() == ErrorKind::OutOfMemory {
        return report_stop(&mut rt.stderr(), program, b"OutOfMemory");
    }
    let _ = eprintln!(rt; "error: a word of the command line is not UTF-8");
    2
}

/// Prints help, the version, or why the words are refused, and returns the exit status.
pub fn print_usage(rt: &HostRuntime, program: &[u8], error: &Error) -> u8
    ensures { (printed : Bool) × (result ≡ status_unread (kind_of error.now) printed) }
{
    if error.kind() == clap::error::ErrorKind::OutOfMemory {
        return report_stop(&mut rt.stderr(), program, b"OutOfMemory");
    }
    let printed = error.print(rt).is_ok();
    let status = status_without_options(error, printed);
    if status == 3 {
        return report_stop(&mut rt.stderr(), program, b"WriteDevice");
    }
    status
}
