//! The program's command line, its exit status, and its output when it stops.

use linked_list_allocator::LocalHeap;
use std::alloc::{Allocator, Global};
use std::test::Fail;
use study_program::{Options, answer_script, read_words};
use study_text::{MemoryReader, MemoryWriter, WhenFull};

/// Compares the result of the words of a command line: the options, or the exit code and the beginning of its text.
fn check_words(
    rt: &HostRuntime,
    given: &[&str],
    wanted: Result<(&str, Option<u16>, bool), (i32, &str)>,
) -> Result<(), Fail> {
    let mut words = Vec::new(rt.alloc());
    words.push(String::from_str(rt.alloc(), "studybench")?)?;
    for word in given {
        words.push(String::from_str(rt.alloc(), word)?)?;
    }
    let is_right = match read_words(rt.alloc(), words.as_slice()) {
        Ok(options) => wanted == Ok((options.tables, options.pages, options.separate)),
        Err(error) => {
            let message = format!(in rt.alloc(); "{error}")?;
            match wanted {
                Ok(_) => false,
                Err((code, text)) => error.exit_code() == code
                    && message.as_str().starts_with(text),
            }
        }
    };
    if is_right {
        Ok(())
    } else {
        Err(Fail::new(format_args!("{given:?}")))
    }
}

/// Options are read.
#[test]
fn options_are_read(rt: HostRuntime) -> Result<(), Fail> {
    check_words(&rt, &[], Ok((".", None, false)))?;
    check_words(&rt, &["--tables=t"], Ok(("t", None, false)))?;
    check_words(&rt, &["--tables", "/"], Ok(("/", None, false)))?;
    check_words(&rt, &["--separate"], Ok((".", None, true)))?;
    check_words(&rt, &["--pages=1"], Ok((".", Some(1), false)))?;
    check_words(
        &rt,
        &["--pages", "4096", "--tables", "t"],
        Ok(("t", Some(4096), false)),
    )
}

/// Help and the version are printed; words are refused, an empty name of the folder too.
#[test]
fn help_and_version_are_reported_and_words_refused(rt: HostRuntime) -> Result<(), Fail> {
    check_words(&rt, &["--help"], Err((0, "Answers a script of commands")))?;
    check_words(&rt, &["-h"], Err((0, "Answers a script of commands")))?;
    check_words(
        &rt,
        &["--version"],
        Err((
            0,
            "studybench 2.0.0 (rattle-kit-13b or 13f, logic dac8208d650f15bf)\n",
        )),
    )?;
    for words in [
        ["--pages", "0"],
        ["--pages", "4097"],
        ["--pages", "x"],
        ["--pages", ""],
        ["--tables", ""],
        ["--bad", "x"],
        ["--tables=t", "file.script"],
    ] {
        check_words(&rt, words.as_slice(), Err((2, "error: ")))?;
    }
    check_words(&rt, &["--tables="], Err((2, "error: ")))?;
    check_words(&rt, &["--tables"], Err((2, "error: ")))?;
    check_words(&rt, &["--pages"], Err((2, "error: ")))
}

/// Runs a script over the folder of the test; compares the replies, the exit status and what is written to the other writer.
fn check_ends<A: Allocator>(
    rt: &HostRuntime,
    alloc: &A,
    script: &mut MemoryReader<'_>,
    out: &mut MemoryWriter<'_, Global>,
    replies: &[u8],
    status: u8,
    message: &[u8],
) -> Result<(), Fail> {
    let room = rt.alloc();
    let mut errors = MemoryWriter::new(&room);
    let options = Options {
        tables: ".",
        pages: Some(1),
        separate: false,
    };
    let ended = answer_script(rt, alloc, &options, script, out, &mut errors);
    if out.taken.as_slice() == replies && ended == status && errors.taken.as_slice() == message {
        Ok(())
    } else {
        Err(Fail::new(format_args!("status {ended}, not {status}")))
    }
}

const ACCEPTED: &[u8] = b"# no reply\nposition k7/8/1K6/8/8/8/8/7R w - - 0 1\nsolve 1 root\n";

const SOLVED: &[u8] = b"position k7/8/1K6/8/8/8/8/7R w - - 0 1\nsolve plies 1\n";

const REFUSED: &[u8] = b"moves root\npgn\nposition k7/8/1K6/8/8/8/8/7R w - - 0 1\nsolve 1 root\n";

const ERRORS: &[u8] =
    b"error NoPosition\nerror NoStudy\nposition k7/8/1K6/8/8/8/8/7R w - - 0 1\nsolve plies 1\n";

/// 0 if no line is refused, 1 if some line is, and nothing is reported; 3 if the writer fails, which is reported.
#[test]
fn exit_statuses_follow_the_replies(rt: HostRuntime) -> Result<(), Fail> {
    let alloc = rt.alloc();
    let rows = [
        (b"".as_slice(), b"".as_slice(), 0),
        (ACCEPTED, SOLVED, 0),
        (REFUSED, ERRORS, 1),
    ];
    for (script, replies, status) in rows {
        let mut script = MemoryReader::new(script);
        let mut out = MemoryWriter::new(&alloc);
        check_ends(&rt, &alloc, &mut script, &mut out, replies, status, b"")?;
    }
    for when_full in [WhenFull::Fail, WhenFull::TakeNothing] {
        let mut script = MemoryReader::new(REFUSED);
        let mut out = MemoryWriter::with_room(&alloc, 5, when_full);
        let message = b"studybench: WriteDevice\n";
        check_ends(&rt, &alloc, &mut script, &mut out, b"error", 3, message)?;
    }
    Ok(())
}

/// A line of more than 1,024 bytes, a reader that fails, one line too many, and no memory.
#[test]
fn each_stop_is_reported(rt: HostRuntime) -> Result<(), Fail> {
    let alloc = rt.alloc();
    let mut script = REFUSED.to_vec(&alloc)?;
    for _ in 0..1025u32 {
        script.push(b' ')?;
    }
    let mut script = MemoryReader::new(script.as_slice());
    let mut out = MemoryWriter::new(&alloc);
    let message = b"studybench: LineTooLong 5\n";
    check_ends(&rt, &alloc, &mut script, &mut out, ERRORS, 3, message)?;
    let mut script = MemoryReader::failing_after(REFUSED, 14);
    let mut out = MemoryWriter::new(&alloc);
    let message = b"studybench: ReadDevice\n";
    check_ends(
        &rt,
        &alloc,
        &mut script,
        &mut out,
        b"error NoPosition\n",
        3,
        message,
    )?;
    let mut lines = Vec::new(&alloc);
    lines.resize(100_001, b'\n')?;
    let mut script = MemoryReader::new(lines.as_slice());
    let mut out = MemoryWriter::new(&alloc);
    let message = b"studybench: TooManyLines\n";
    check_ends(&rt, &alloc, &mut script, &mut out, b"", 3, message)?;
    let heap = LocalHeap::new(alloc, 256)?;
    let mut script = MemoryReader::new(REFUSED);
    let mut out = MemoryWriter::new(&alloc);
    let message = b"studybench: OutOfMemory\n";
    check_ends(&rt, &heap, &mut script, &mut out, b"", 3, message)
}
