//! Runs with little memory: nothing is written, or a line is refused for want of memory and the lines after it are answered as usual.
use crate::rows::{Case, Rows, no_files, replies_of};
use crate::script_limits::deep_line;
use linked_list_allocator::LocalHeap;
use std::alloc::{AllocError, Global};
use std::process::Abort;
use std::test::Fail;
use study_script::{RunFault, Settings, Summary, run};
use study_text::{MemoryReader, MemoryWriter};

/// There is no memory for either table. The tables that are needed are looked for after that.
const NO_ROOM: Rows<'static> = "build KK -> error OutOfMemory
build KQK -> error OutOfMemory
position k7/8/1K6/8/8/8/8/6Q1 w - - 0 1 -> position k7/8/1K6/8/8/8/8/6Q1 w - - 0 1
stipulate white win -> error NoTable KQK
insert root Qg8 -> error NoStudy
insert root Qh2 -> error NoStudy
mark root -> error NoStudy
mark 0 -> error NoStudy
mark 1 -> error NoStudy
pgn -> error NoStudy";

/// There is no memory for the larger table.
const NO_QUEEN: Rows<'static> = "build KK -> built KK cells 1280 win -
build KQK -> error OutOfMemory
position k7/8/1K6/8/8/8/8/6Q1 w - - 0 1 -> position k7/8/1K6/8/8/8/8/6Q1 w - - 0 1
stipulate white win -> error NoTable KQK
insert root Qg8 -> error NoStudy
insert root Qh2 -> error NoStudy
mark root -> error NoStudy
mark 0 -> error NoStudy
mark 1 -> error NoStudy
pgn -> error NoStudy";

const WHOLE: Rows<'static> = r#"build KK -> built KK cells 1280 win -
build KQK -> built KQK cells 81920 win 19
position k7/8/1K6/8/8/8/8/6Q1 w - - 0 1 -> position k7/8/1K6/8/8/8/8/6Q1 w - - 0 1
stipulate white win -> stipulate White to win
insert root Qg8 -> insert 0 Qg8#
insert root Qh2 -> insert 1 Qh2
mark root -> mark root win 1 - faults 1
mark 0 -> mark 0 loss 0 dual 21 faults 1
mark 1 -> mark 1 draw mistake faults 1
pgn -> [Event "?"]
[Site "?"]
[Date "????.??.??"]
[Round "?"]
[White "?"]
[Black "?"]
[Result "1-0"]
[FEN "k7/8/1K6/8/8/8/8/6Q1 w - - 0 1"]
[SetUp "1"]

{White to win: unsound 1, White mates in 1} 1. Qg8# {mate; dual 21} (1. Qh2 $4
{draw}) 1-0

"#;

fn case_of<'a>(rt: &impl Abort, alloc: &'a Global, rows: Rows<'_>) -> Case<'a, Global> {
    let mut case = Case::new(alloc);
    case.add_rows(rt, rows);
    case
}

/// The text and the result of a run over a heap of so many bytes.
fn replies_over(
    alloc: Global,
    size: usize,
    script: &[u8],
) -> Result<(Vec<u8>, Result<Summary, RunFault>), AllocError> {
    let heap = LocalHeap::new(alloc, size)?;
    let mut writer = MemoryWriter::new(&alloc);
    let answer = run(
        &heap,
        &mut MemoryReader::new(script),
        &mut writer,
        &mut no_files(&alloc),
        Settings {
            pages: None,
            separate: false,
        },
    );
    let text = writer.taken.as_slice().to_vec(alloc)?;
    Ok((text, answer))
}

/// The kind of a run's end: 0 if nothing is written, else its index among these, from 1 on. There is no other.
fn end_of(
    rt: &impl Abort,
    ends: &[Case<'_, Global>],
    text: &[u8],
    answer: Result<Summary, RunFault>,
) -> usize {
    if answer == Err(RunFault::OutOfMemory) {
        assert!(rt; text.is_empty());
        return 0;
    }
    let mut place = 0usize;
    for end in ends {
        place = place.saturating_add(1);
        if end.is_had(text, answer) {
            return place;
        }
    }
    panic!(rt; "another end")
}

/// A heap that grows by a quarter until the study is whole. Each end is met, one after the other.
#[test]
fn a_study_breaks_off_where_memory_ends(rt: HostRuntime) -> Result<(), Fail> {
    let alloc = rt.alloc();
    let ends = [
        case_of(&rt, &alloc, NO_ROOM),
        case_of(&rt, &alloc, NO_QUEEN),
        case_of(&rt, &alloc, WHOLE),
    ];
    let mut met = 0usize;
    let mut size = 64usize;
    for _ in 0..80u32 {
        let script = ends[0].script.as_slice();
        let (text, answer) = replies_over(alloc, size, script)?;
        let end = end_of(&rt, ends.as_slice(), text.as_slice(), answer);
        assert!(rt; end == met || end == met.saturating_add(1), "{size}");
        met = end;
        if met == 3 {
            break;
        }
        size = size.saturating_add(size / 4);
    }
    assert_eq!(rt; met, 3);
    Ok(())
}

/// Whether a prefix of the replies is followed by want of memory, and each line after it, which starts at a missing node, is refused as such, or for
/// want of memory for the path to it.
fn is_broken_off(text: &str, replies: &[u8]) -> bool {
    let Some((front, rest)) = text.split_once("error OutOfMemory\n") else {
        return false;
    };
    let mut holds = replies.starts_with(front.as_bytes());
    for line in rest.lines() {
        holds = holds && (line == "error NoSuchNode" || line == "error OutOfMemory");
    }
    holds
}

/// A heap that grows until a line of 256 moves is whole: with less there is no memory for one of its moves.
#[test]
fn a_move_of_a_long_line_finds_no_memory(rt: HostRuntime) -> Result<(), Fail> {
    let alloc = rt.alloc();
    let case = deep_line(&rt, &alloc);
    let (mut broken, mut whole) = (0u32, false);
    for step in 0..200usize {
        let (text, answer) = replies_over(alloc, 64 + step * 4_096, case.script.as_slice())?;
        if case.is_had(text.as_slice(), answer) {
            whole = true;
            break;
        }
        let text = std::str::from_utf8(text.as_slice())?;
        if text.starts_with("built") {
            assert!(rt; is_broken_off(text, case.replies.as_slice()), "{text}");
            broken = broken.saturating_add(1);
        }
    }
    assert!(rt; whole && broken > 0);
    Ok(())
}
