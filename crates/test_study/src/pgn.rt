//! Games written for studies.
use crate::calls;
use crate::studies::{Case, QUEEN, game_of, insert_text, path_of, tables_of};
use linked_list_allocator::LocalHeap;
use std::alloc::{AllocError, Allocator, Global};
use std::process::Abort;
use std::test::Fail;
use study_board::Side;
use study_marks::{Bench, Goal};
use study_material::Class;
use study_pgn::PgnFault;
use study_text::{MemoryWriter, WhenFull};

const QUEEN_TEXT: &str = r#"[Event "?"]
[Site "?"]
[Date "????.??.??"]
[Round "?"]
[White "?"]
[Black "?"]
[Result "1-0"]
[FEN "k7/8/1K6/8/8/8/8/6Q1 w - - 0 1"]
[SetUp "1"]

{White to win: unsound 1, White mates in 1} 1. Qg8# {mate; dual 21} (1. Qh2 $4
{draw}) 1-0

"#;

/// Two kings, from a late move on.
const KINGS: Case = Case {
    fen: "k7/8/8/8/8/8/8/K7 b - - 0 9999",
    hero: Side::White,
    goal: Goal::Draw,
    moves: &[
        (&[], "Kb8"),
        (&[], "Ka7"),
        (&[0], "Kb1"),
        (&[0], "Ka2"),
        (&[1], "Kb2"),
        (&[0, 0], "Kc8"),
    ],
};

const KINGS_TEXT: &str = r#"[Event "?"]
[Site "?"]
[Date "????.??.??"]
[Round "?"]
[White "?"]
[Black "?"]
[Result "1/2-1/2"]
[FEN "k7/8/8/8/8/8/8/K7 b - - 0 9999"]
[SetUp "1"]

{White to draw: unsound 2, draw} 9999... Kb8 {draw} (9999... Ka7 {draw} 10000.
Kb2 {draw; dual 2}) 10000. Kb1 {draw; dual 2} (10000. Ka2 {draw; dual 2})
10000... Kc8 {draw} 1/2-1/2

"#;

/// The game of the study is this text.
fn expect_text(rt: &impl Abort, alloc: Global, case: &Case, text: &str) {
    let mut values = tables_of(rt, &alloc, &[Class::KK, Class::KQK]);
    let bench = case.study(rt, &alloc, &mut values);
    let game = game_of(rt, alloc, &bench);
    assert_eq!(rt; std::str::from_utf8(game.as_slice()), Ok(text));
}

/// A variation precedes the rest of the main line, each move has its number, and numbers exceed 9999.
#[test]
fn the_main_line_goes_on_after_its_variations(rt: HostRuntime) {
    expect_text(&rt, rt.alloc(), &QUEEN, QUEEN_TEXT);
    expect_text(&rt, rt.alloc(), &KINGS, KINGS_TEXT);
}

fn queen_study<'a>(rt: &impl Abort, alloc: &'a Global) -> Bench<'a, Global> {
    let mut values = tables_of(rt, alloc, &[Class::KK, Class::KQK]);
    QUEEN.study(rt, alloc, &mut values)
}

/// A writer that is full after so many bytes has this prefix of the game.
fn expect_front<A: Allocator>(
    rt: &impl Abort,
    alloc: Global,
    bench: &Bench<'_, A>,
    when_full: WhenFull,
    front: &[u8],
) {
    let mut out = MemoryWriter::with_room(&alloc, front.len(), when_full);
    assert_eq!(rt;
        calls::write(&alloc, bench, &mut out),
        Err(PgnFault::Device)
    );
    assert_eq!(rt; out.taken.as_slice(), front);
}

/// A writer that is full after each number of bytes in turn, with this result, has that prefix of this text.
fn expect_fronts<A: Allocator>(
    rt: &impl Abort,
    alloc: Global,
    bench: &Bench<'_, A>,
    when_full: WhenFull,
    text: &[u8],
) {
    for room in 0..text.len() {
        let (front, _) = text.split_at(room);
        expect_front(rt, alloc, bench, when_full, front);
    }
}

/// A writer that is full after so many bytes, whatever it returns then, has that prefix of the game.
#[test]
fn a_full_writer_has_a_front_of_the_game(rt: HostRuntime) {
    let alloc = rt.alloc();
    let bench = queen_study(&rt, &alloc);
    for when_full in [WhenFull::Fail, WhenFull::TakeNothing] {
        expect_fronts(&rt, alloc, &bench, when_full, QUEEN_TEXT.as_bytes());
    }
}

/// Whether there is memory for the game on a heap of this size: if there is, the game is this text, and else nothing is written.
fn is_written<A: Allocator>(
    rt: &impl Abort,
    alloc: Global,
    size: usize,
    bench: &Bench<'_, A>,
    text: &str,
) -> Result<bool, AllocError> {
    let heap = LocalHeap::new(alloc, size)?;
    let mut out = calls::writer(&alloc);
    let answer = calls::write(&heap, bench, &mut out);
    if answer.is_ok() {
        assert_eq!(rt; out.taken.as_slice(), text.as_bytes());
        return Ok(true);
    }
    assert!(rt; answer == Err(PgnFault::OutOfMemory) && out.taken.is_empty());
    Ok(false)
}

/// Heaps that grow step by step: nothing is written before there is memory for all.
#[test]
fn nothing_is_written_before_there_is_memory_for_all(rt: HostRuntime) -> Result<(), Fail> {
    let alloc = rt.alloc();
    let bench = queen_study(&rt, &alloc);
    for step in 0..400usize {
        if is_written(&rt, alloc, 64 + step * 32, &bench, QUEEN_TEXT)? {
            assert!(rt; step > 0);
            return Ok(());
        }
    }
    Err(Fail::from("no heap was large enough"))
}
