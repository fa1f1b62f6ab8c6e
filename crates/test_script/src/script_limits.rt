//! Scripts and trees of the largest size, and larger by one.
use crate::rows::{Case, Rows, no_files, replies_of};
use std::alloc::Allocator;
use std::process::Abort;
use std::test::Fail;
use study_script::{RunFault, Summary};

/// A line of 1,024 bytes is read, and a script of 100,000 lines; with one byte more the run stops.
#[test]
fn a_line_has_at_most_1024_bytes_and_a_script_100000_lines(rt: HostRuntime) -> Result<(), Fail> {
    let alloc = rt.alloc();
    for (byte, most, lines, fault) in [
        (b'#', 1_024usize, 1, RunFault::LineTooLong(1)),
        (b'\n', 100_000, 100_000, RunFault::TooManyLines),
    ] {
        let mut script = vec![in &alloc; byte; most]?;
        let (text, answer) = replies_of(&alloc, &mut no_files(&alloc), None, script.as_slice());
        let refused = 0;
        assert!(rt; text.is_empty() && answer == Ok(Summary { lines, refused }));
        script.push(byte)?;
        let (text, answer) = replies_of(&alloc, &mut no_files(&alloc), None, script.as_slice());
        assert!(rt; text.is_empty() && answer == Err(fault));
    }
    Ok(())
}

/// The reply to the line before one that is too long is written.
#[test]
fn the_reply_before_a_long_line_stays(rt: HostRuntime) -> Result<(), Fail> {
    let alloc = rt.alloc();
    let mut script = Vec::new(&alloc);
    script.extend_from_slice(b"pgn\n")?;
    for _ in 0..1_025u32 {
        script.push(b' ')?;
    }
    script.extend_from_slice(b"\npgn\n")?;
    let (text, answer) = replies_of(&alloc, &mut no_files(&alloc), None, script.as_slice());
    assert_eq!(rt; text.as_slice(), b"error NoStudy\n".as_slice());
    assert_eq!(rt; answer, Err(RunFault::LineTooLong(2)));
    Ok(())
}

/// The path of the node at this depth, by first children from the node at a path.
fn put_path<A: Allocator>(rt: &impl Abort, text: &mut Vec<u8, &A>, from: &str, depth: usize) {
    let mut is_first = from.is_empty();
    assert!(rt; text.extend_from_slice(from.as_bytes()).is_ok());
    if is_first && depth == 0 {
        assert!(rt; text.extend_from_slice(b"root").is_ok());
    }
    for _ in 0..depth {
        if !is_first {
            assert!(rt; text.push(b'.').is_ok());
        }
        assert!(rt; text.push(b'0').is_ok());
        is_first = false;
    }
}

/// Adds `insert PATH SAN`, or the first part of its reply.
fn put_insert<A: Allocator>(
    rt: &impl Abort,
    text: &mut Vec<u8, &A>,
    from: &str,
    depth: usize,
    san: &str,
) {
    assert!(rt; text.extend_from_slice(b"insert ").is_ok());
    put_path(rt, text, from, depth);
    assert!(rt; text.push(b' ').is_ok());
    assert!(rt; text.extend_from_slice(san.as_bytes()).is_ok());
    assert!(rt; text.push(b'\n').is_ok());
}

const CORNERS: Rows<'static> = "build KK -> built KK cells 1280 win -
position k7/8/8/8/8/8/8/K7 w - - 0 1 -> position k7/8/8/8/8/8/8/K7 w - - 0 1
stipulate white draw -> stipulate White to draw";

/// A line of 256 moves, and one more, which is refused.
pub(crate) fn deep_line<'a, A: Allocator>(rt: &impl Abort, alloc: &'a A) -> Case<'a, A> {
    let mut case = Case::new(alloc);
    case.add_rows(rt, CORNERS);
    for depth in 0..256usize {
        let san = ["Kb1", "Kb8", "Ka1", "Ka8"][depth % 4];
        put_insert(rt, &mut case.script, "", depth, san);
        put_insert(rt, &mut case.replies, "", depth + 1, san);
    }
    put_insert(rt, &mut case.script, "", 256, "Kb1");
    case.add_reply(rt, "error TooDeep");
    case.lines = 260;
    case
}

#[test]
fn a_line_of_moves_has_at_most_256(rt: HostRuntime) {
    let alloc = rt.alloc();
    deep_line(&rt, &alloc).check(&rt, &alloc, &mut no_files(&alloc), None);
}
