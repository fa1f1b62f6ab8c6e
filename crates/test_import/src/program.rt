//! The program's command line, its exit status, and its output when it stops.

use linked_list_allocator::LocalHeap;
use std::test::Fail;
use study_import::Choice;
use study_import_program::{Options, import_stream, read_words};
use study_text::{MemoryReader, MemoryWriter, WhenFull};

const GAMES: &[u8] = b"[FEN \"8/8/8/4k3/8/4K3/4P3/8 w - - 0 1\"]
[Result \"1-0\"]

1. Kd3 1-0

[FEN \"8/8/8/4k3/8/4K3/4P3/8 w - - 0 1\"]
[Result \"1-0\"]

1. Kb6 1-0
";

const BLOCK: &[u8] = b"#! game 1, line 1: stipulated by its tag Result
position 8/8/8/4k3/8/4K3/4P3/8 w - - 0 1
stipulate white win
tag Event ?
tag Site ?
tag Date ????.??.??
tag Round ?
tag White ?
tag Black ?
insert root Kd3
pgn

";

const FAULT: &[u8] = b"#! game 2, line 9, column 4: NoSuchMove at Kb6

";

fn options_of(from: u32, to: u32) -> Options {
    Options {
        choice: Choice {
            given: None,
            from,
            to,
            tails: false,
            up_to_faults: false,
        },
        encoding: None,
        progress: false,
    }
}

/// Runs the program over readers and writers in memory; compares the script, the exit status and what standard error has.
fn check_ends(
    rt: &HostRuntime,
    options: Options,
    games: &mut MemoryReader<'_>,
    wanted: &[u8],
    status: u8,
    reported: &[u8],
) -> Result<(), Fail> {
    let alloc = rt.alloc();
    let mut out = MemoryWriter::new(&alloc);
    let mut errors = MemoryWriter::new(&alloc);
    let ended = import_stream(&alloc, &options, games, &mut out, &mut errors);
    let is_right = ended == status
        && out.taken.as_slice() == wanted
        && errors.taken.as_slice() == reported;
    if is_right {
        Ok(())
    } else {
        Err(Fail::new(format_args!("status {ended}")))
    }
}

/// Two texts, one after the other, and a last line.
fn join(rt: &HostRuntime, parts: &[&[u8]]) -> Result<Vec<u8>, Fail> {
    let mut text = Vec::new(rt.alloc());
    for part in parts {
        text.extend_from_slice(part)?;
    }
    Ok(text)
}

/// The exit status shows whether each game that was used has its block.
#[test]
fn games_are_chosen_and_counted(rt: HostRuntime) -> Result<(), Fail> {
    let both = join(&rt, &[BLOCK, FAULT, b"#! games 2, studies 1\n"])?;
    let first = join(&rt, &[BLOCK, b"#! games 1, studies 1\n"])?;
    let second = join(&rt, &[FAULT, b"#! games 1, studies 0\n"])?;
    let mut games = MemoryReader::new(GAMES);
    check_ends(
        &rt,
        options_of(1, u32::MAX),
        &mut games,
        both.as_slice(),
        1,
        b"",
    )?;
    let mut games = MemoryReader::new(GAMES);
    check_ends(&rt, options_of(1, 1), &mut games, first.as_slice(), 0, b"")?;
    let mut games = MemoryReader::new(GAMES);
    check_ends(&rt, options_of(2, 7), &mut games, second.as_slice(), 1, b"")?;
    let mut games = MemoryReader::new(GAMES);
    check_ends(
        &rt,
        options_of(3, 7),
        &mut games,
        b"#! games 0, studies 0\n",
        1,
        b"",
    )
}

/// A reader that fails in the middle of a game ends the run; the blocks before stay written.
#[test]
fn a_reader_that_fails_ends_the_run(rt: HostRuntime) -> Result<(), Fail> {
    check_stops(&rt, 20, b"")?;
    check_stops(&rt, 130, BLOCK)
}

/// Whenever a read fails, the run ends: the blocks before stay written, and nothing else.
#[test]
fn each_read_may_fail(rt: HostRuntime) -> Result<(), Fail> {
    for after in 0..GAMES.len() {
        let wanted = if after < 108 { b"".as_slice() } else { BLOCK };
        check_stops(&rt, after, wanted)?;
    }
    Ok(())
}

/// Whenever a write fails, a prefix of the script is written, and the exit status shows it.
#[test]
fn each_write_may_fail(rt: HostRuntime) -> Result<(), Fail> {
    let alloc = rt.alloc();
    let whole = join(&rt, &[BLOCK, FAULT, b"#! games 2, studies 1\n"])?;
    for room in 0..whole.len() {
        let mut games = MemoryReader::new(GAMES);
        let mut out = MemoryWriter::with_room(&alloc, room, WhenFull::Fail);
        let mut errors = MemoryWriter::new(&alloc);
        let ended = import_stream(
            &alloc,
            &options_of(1, u32::MAX),
            &mut games,
            &mut out,
            &mut errors,
        );
        assert!(rt; ended == 3);
        assert!(rt; whole.as_slice().starts_with(out.taken.as_slice()));
        assert!(rt; errors.taken.as_slice() == b"studyimport: WriteDevice\n".as_slice());
    }
    Ok(())
}

/// Whenever memory is refused, the run ends: a prefix of the script is written, and the exit status shows it.
#[test]
fn each_growth_of_a_run_may_be_refused(rt: HostRuntime) -> Result<(), Fail> {
    let alloc = rt.alloc();
    let whole = join(&rt, &[BLOCK, FAULT, b"#! games 2, studies 1\n"])?;
    let mut refused = 0usize;
    let mut done = false;
    for step in 0..2000usize {
        let heap = LocalHeap::new(rt.alloc(), 64 + step * 16)?;
        let mut games = MemoryReader::new(GAMES);
        let mut out = MemoryWriter::new(&alloc);
        let mut errors = MemoryWriter::new(&alloc);
        let ended = import_stream(
            &heap,
            &options_of(1, u32::MAX),
            &mut games,
            &mut out,
            &mut errors,
        );
        if ended == 1 {
            assert!(rt; out.taken.as_slice() == whole.as_slice());
            done = true;
            break;
        }
        assert!(rt; ended == 3 && whole.as_slice().starts_with(out.taken.as_slice()));
        assert!(rt; errors.taken.as_slice() == b"studyimport: OutOfMemory\n".as_slice());
        refused = refused.saturating_add(1);
    }
    assert!(rt; done && refused > 20);
    Ok(())
}

/// Runs the program over a reader that fails after some bytes; compares the output so far.
fn check_stops(rt: &HostRuntime, after: usize, wanted: &[u8]) -> Result<(), Fail> {
    let mut games = MemoryReader::failing_after(GAMES, after);
    let reported = b"studyimport: ReadDevice\n";
    check_ends(
        rt,
        options_of(1, u32::MAX),
        &mut games,
        wanted,
        3,
        reported.as_slice(),
    )
}

/// Words of the command line are read, or refused.
#[test]
fn words_are_read(rt: HostRuntime) -> Result<(), Fail> {
    assert!(rt; choice_of(&rt, &["--game", "3"])? == Some((3, 3, false)));
    assert!(rt; choice_of(&rt, &["--from=2", "--to", "4"])? == Some((2, 4, false)));
    assert!(rt;
        choice_of(&rt, &["--stipulate", "white", "mate", "3"])? == Some((1, u32::MAX, false))
    );
    assert!(rt; choice_of(&rt, &["--tails"])? == Some((1, u32::MAX, true)));
    assert!(rt; choice_of(&rt, &["--up-to-faults"])? == Some((1, u32::MAX, false)));
    assert!(rt; choice_of(&rt, &["--stipulate", "white", "wins"])? == None);
    assert!(rt; choice_of(&rt, &["--game", "1", "--to", "2"])? == None);
    assert!(rt; choice_of(&rt, &["--game", "0"])? == None);
    assert!(rt; choice_of(&rt, &["games.pgn"])? == None);
    Ok(())
}

/// The first and the last game that these words choose, and whether tails are taken, if they are read.
fn choice_of(rt: &HostRuntime, given: &[&str]) -> Result<Option<(u32, u32, bool)>, Fail> {
    let mut words = Vec::new(rt.alloc());
    words.push(String::from_str(rt.alloc(), "studyimport")?)?;
    for word in given {
        words.push(String::from_str(rt.alloc(), word)?)?;
    }
    match read_words(rt.alloc(), words.as_slice()) {
        Ok(options) => Ok(ends_of(options)),
        Err(_error) => Ok(None),
    }
}

fn ends_of(options: Option<Options>) -> Option<(u32, u32, bool)> {
    match options {
        Some(options) => {
            let choice = options.choice;
            Some((choice.from, choice.to, choice.tails))
        }
        None => None,
    }
}
