//! Files whose lines end with line feeds, with carriage returns, or with both. The expected scripts were written by hand, by the rules of docs/IMPORT.md.

use std::test::Fail;
use study_import::Choice;
use study_import_program::{Options, import_stream};
use study_text::{MemoryReader, MemoryWriter};

/// A game with remarks to the end of a line and an escape line with a parenthesis; and, after a byte order mark, a game whose move is illegal.
const GAMES: &[u8] = b"[White \"A\"]
[FEN \"8/8/8/4k3/8/4K3/4P3/8 w - - 0 1\"]
[Result \"1-0\"]

; a remark
1. Kd3 ; said in passing
Kf5 1-0
% an escape line (
\xef\xbb\xbf[White \"B\"]
[FEN \"8/8/8/4k3/8/4K3/4P3/8 w - - 0 1\"]
[Result \"1-0\"]

1. Kb6 1-0
";

const SCRIPT: &[u8] = b"#! game 1, line 1: stipulated by its tag Result
#! not taken over: comments 2
#! behind the result: line 8, column 1
position 8/8/8/4k3/8/4K3/4P3/8 w - - 0 1
stipulate white win
tag Event ?
tag Site ?
tag Date ????.??.??
tag Round ?
tag White A
tag Black ?
insert root Kd3
insert 0 Kf5
pgn

#! game 2, line 13, column 4 (B): NoSuchMove at Kb6

#! games 2, studies 1
";

/// A value of a tag that a carriage return breaks.
const BROKEN: &[u8] = b"[FEN \"8/8/8/4k3/8/4K3/4P3/8 w - - 0 1\"]
[White \"A\rB\"]

1. Kd3 1-0
";

const BROKEN_REPORTED: &[u8] = b"#! game 1, line 2, column 1: OpenString

#! games 1, studies 0
";

fn all_games() -> Options {
    Options {
        choice: Choice {
            given: None,
            from: 1,
            to: u32::MAX,
            tails: false,
            up_to_faults: false,
        },
        encoding: None,
        progress: false,
    }
}

/// The text with these ends of lines, in turn, in place of its line feeds.
fn with_ends(rt: &HostRuntime, text: &[u8], ends: &[&[u8]]) -> Result<Vec<u8>, Fail> {
    let mut out = Vec::new(rt.alloc());
    let mut line = 0usize;
    for byte in text {
        if *byte != b'\n' {
            out.push(*byte)?;
            continue;
        }
        if line >= ends.len() {
            line = 0;
        }
        if let Some(end) = ends.get(line) {
            out.extend_from_slice(end)?;
        }
        line = line.saturating_add(1);
    }
    Ok(out)
}

/// Runs the program over a reader, which returns one byte per call; the exit status and the script.
fn run(rt: &HostRuntime, games: &mut MemoryReader<'_>) -> Result<(u8, Vec<u8>), Fail> {
    let alloc = rt.alloc();
    let mut out = MemoryWriter::new(&alloc);
    let mut errors = MemoryWriter::new(&alloc);
    let status = import_stream(&alloc, &all_games(), games, &mut out, &mut errors);
    let mut script = Vec::new(rt.alloc());
    script.extend_from_slice(out.taken.as_slice())?;
    Ok((status, script))
}

fn check(rt: &HostRuntime, text: &[u8], wanted: &[u8]) -> Result<(), Fail> {
    let (status, script) = run(rt, &mut MemoryReader::new(text))?;
    if status == 1 && script.as_slice() == wanted {
        Ok(())
    } else {
        Err(Fail::new(format_args!("status {status}")))
    }
}

/// Whatever ends the lines, the script is the same, and so are the places of faults.
#[test]
fn each_end_of_a_line_is_read(rt: HostRuntime) -> Result<(), Fail> {
    let feed = b"\n".as_slice();
    let back = b"\r".as_slice();
    let both = b"\r\n".as_slice();
    for ends in [
        [feed, feed, feed],
        [back, back, back],
        [both, both, both],
        [back, feed, both],
    ] {
        let text = with_ends(&rt, GAMES, &ends)?;
        check(&rt, text.as_slice(), SCRIPT)?;
        if let Some((_, whole)) = text.as_slice().split_last() {
            check(&rt, whole, SCRIPT)?;
        }
    }
    check(&rt, BROKEN, BROKEN_REPORTED)
}

/// Whenever a read fails, also behind a carriage return, a prefix of the script is written.
#[test]
fn each_read_behind_a_return_may_fail(rt: HostRuntime) -> Result<(), Fail> {
    let text = with_ends(&rt, GAMES, &[b"\r".as_slice()])?;
    for after in 0..text.len() {
        let mut games = MemoryReader::failing_after(text.as_slice(), after);
        let (status, script) = run(&rt, &mut games)?;
        assert!(rt; status == 3 && SCRIPT.starts_with(script.as_slice()));
    }
    Ok(())
}
