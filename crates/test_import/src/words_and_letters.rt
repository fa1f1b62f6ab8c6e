//! Words among the moves, letters of another language, and signs of check and mate that are wrong.
use std::alloc::{AllocError, Allocator};
use std::test::Fail;
use study_import::import;

/// Words of letters that are no move: behind the last move, in a variation before its end, by themselves in parentheses; behind words a move without a
/// number; a word before the first move; and letters of pieces and files, which are no words.
const WORDS: &[u8] = b"[FEN \"8/8/8/6k1/8/8/1P5K/8 w - - 0 1\"]
[Result \"1-0\"]

1. Kg3 Kf5 2. Kf3 wins. 1-0

[FEN \"8/8/8/6k1/8/8/1P5K/8 w - - 0 1\"]
[Result \"1-0\"]

{White to win} 1. Kg3 Kh5 wins easily 1-0

[FEN \"8/k1P5/2K5/8/8/8/8/8 w - - 0 1\"]
[Result \"1-0\"]

1. c8=R Ka6 2. Ra8 matt 1-0

[FEN \"8/k1P5/2K5/8/8/8/8/8 w - - 0 1\"]
[Result \"1-0\"]

{#2} 1. c8=R! (1. c8=Q? stalemate) Ka6 2. Ra8# 1-0

[FEN \"8/8/5PK1/4r3/8/8/8/7k w - - 0 1\"]
[Result \"1-0\"]

{Win} 1.f7 Re6+ 2.Kg5 Re5+ 3.Kg4 Re4+ 4.Kg3 Re3+ 5.Kf2 Re4 6.f8R!! Rh4 7.Kg3 wins. 1-0

[FEN \"8/8/8/6k1/8/8/1P5K/8 w - - 0 1\"]
[Result \"1-0\"]

1. Kg3 (D) Kf5 2. Kf2 Kf4 etc. 1-0

[FEN \"8/8/8/6k1/8/8/1P5K/8 w - - 0 1\"]
[Result \"1/2-1/2\"]

1. b4 Kf4 or so 1/2-1/2

[FEN \"8/8/8/6k1/8/8/1P5K/8 w - - 0 1\"]
[Result \"1/2-1/2\"]

1. Kg2 Remis 1/2-1/2

[FEN \"8/8/8/6k1/8/8/1P5K/8 w - - 0 1\"]
[Result \"1-0\"]

1. Kg3 Kf5 or Kh5 2. Kf3 1-0

[FEN \"8/8/8/6k1/8/8/1P5K/8 w - - 0 1\"]
[Result \"1-0\"]

1. Kg3 Kf5 or d3 1-0

[FEN \"8/8/8/6k1/8/8/1P5K/8 w - - 0 1\"]
[Result \"1-0\"]

1. wins Kg3 1-0

[FEN \"8/8/8/6k1/8/8/1P5K/8 w - - 0 1\"]
[Result \"1-0\"]

1. Kg3 K 1-0

[FEN \"8/8/8/6k1/8/8/1P5K/8 w - - 0 1\"]
[Result \"1-0\"]

1. Kg3 Kd 1-0

[FEN \"8/8/8/6k1/8/8/1P5K/8 w - - 0 1\"]
[Result \"1-0\"]

1. Kg3 bad 1-0

[FEN \"8/8/8/6k1/8/8/1P5K/8 w - - 0 1\"]
[Result \"1-0\"]

1. Kg3 N Kf5 1-0
";

const WORDS_LINES: &[u8] = b"#! not taken over: words 1
insert 0.0 Kf3
#! not taken over: comments 1, words 2
insert 0 Kh5
insert 0.0 Ra8#
stipulate white mate 2
insert root c8=Q
insert 0 Ka6
insert 0.0.0.0.0.0.0.0.0.0 f8=R
insert 0.0.0.0.0.0.0.0.0.0.0.0 Kg3
insert 0.0.0 Kf4
#! not taken over: words 2
insert root b4
insert root Kg2
#! game 9, line 44, column 15: BehindWord at Kh5
#! game 10, line 49, column 15: BehindWord at d3
#! game 11, line 54, column 4: NotSan at wins
#! game 12, line 59, column 8: NotSan at K
#! game 13, line 64, column 8: NotSan at Kd
#! game 14, line 69, column 8: NotSan at bad
#! game 15, line 74, column 8: NotSan at N
#! games 15, studies 8
";

/// Queen, rook, bishop and knight in German letters, and promotions; and English and German letters in one game.
const GERMAN: &[u8] = b"[FEN \"7k/8/5K2/8/8/8/8/5Q1R b - - 0 1\"]
[Result \"1-0\"]

1... Kg8 2.Dg2+ Kf8 3.Th8 matt 1-0

[FEN \"3K4/8/5B2/8/8/5k2/6p1/8 w - - 0 1\"]
[Result \"1/2-1/2\"]

1. Ld4 g1=D 2. Lxg1 1/2-1/2

[FEN \"2k5/7K/8/1N6/8/8/3p4/8 w - - 0 1\"]
[Result \"1/2-1/2\"]

1. Sc3 d1=D 2. Sxd1 1/2-1/2

[FEN \"2R4K/8/8/8/8/8/k2n4/8 w - - 0 1\"]
[Result \"1-0\"]

1. Rc2+ Ka3 2. Txd2 1-0
";

const GERMAN_LINES: &[u8] = b"#! letters: German
#! not taken over: words 1
insert root Kg8
insert 0 Qg2+
insert 0.0 Kf8
insert 0.0.0 Rh8#
insert root Bd4
insert 0 g1=Q
insert 0.0 Bxg1
insert root Nc3
insert 0 d1=Q
insert 0.0 Nxd1
#! game 4, line 19, column 16: NotSan at Txd2
#! games 4, studies 3
";

/// Three signs without check or mate; a sign of mate at a check; and a sign of check in a variation.
const SIGNS: &[u8] = b"[FEN \"8/8/8/6k1/8/8/1P5K/8 w - - 0 1\"]
[Result \"1-0\"]

1. Kg3+ Kf5# 2. Kf3# 1-0

[FEN \"7k/8/5K2/8/8/8/8/R7 w - - 0 1\"]
[Result \"1-0\"]

1. Rh1# Kg8 1-0

[FEN \"8/8/8/6k1/8/8/1P5K/8 w - - 0 1\"]
[Result \"1-0\"]

1. Kg3 Kf5 (1... Kh5+ 2. Kf4) 2. Kf3 1-0
";

const SIGNS_LINES: &[u8] = b"#! not taken over: wrong signs 3
insert root Kg3
insert 0 Kf5
insert 0.0 Kf3
#! not taken over: wrong signs 1
insert root Rh1+
insert 0.1 Kf4
#! games 3, studies 3
";

/// Stipulations in parentheses, small letters and with a space before the mark; some that are not understood; and a comment that states none.
const STATED: &[u8] = b"[FEN \"8/8/8/6k1/8/8/1P5K/8 w - - 0 1\"]
[Result \"1/2-1/2\"]

{(White to win)} 1. Kg3 1/2-1/2

[FEN \"8/8/8/6k1/8/8/1P5K/8 w - - 0 1\"]
[Result \"1-0\"]

{white to draw} 1. b4 1-0

[FEN \"8/8/8/6k1/8/8/1P5K/8 w - - 0 1\"]
[Result \"1-0\"]

{hs#3} 1. Kg3 1-0

[FEN \"8/8/8/6k1/8/8/1P5K/8 w - - 0 1\"]
[Result \"1-0\"]

{ser-h=3} 1. Kg3 1-0

[FEN \"8/8/8/6k1/8/8/1P5K/8 w - - 0 1\"]
[Result \"1-0\"]

{Mate in three} 1. Kg3 1-0

[FEN \"8/8/8/6k1/8/8/1P5K/8 w - - 0 1\"]
[Result \"1-0\"]

{Win in 4} 1. Kg3 1-0

[FEN \"8/8/8/6k1/8/8/1P5K/8 w - - 0 1\"]
[Result \"1-0\"]

{b8=Q comes too late.} 1. Kg3 1-0
";

const STATED_LINES: &[u8] = b"#! game 1, line 1: stipulated by its comment
#! the stipulation differs from its tag Result
stipulate white win
#! game 2, line 6: stipulated by its comment
stipulate white draw
#! game 3, line 11: StipulationUnread at its comment
#! game 4, line 16: StipulationUnread at its comment
#! game 5, line 21: StipulationUnread at its comment
#! game 6, line 26: StipulationUnread at its comment
#! game 7, line 31: stipulated by its tag Result
#! games 7, studies 3
";

/// Whether this is a line of the script.
fn has_line(script: &[u8], wanted: &[u8]) -> bool {
    for line in script.split(|b| *b == b'\n') {
        if line == wanted {
            return true;
        }
    }
    false
}

/// Whether all these are lines of the script of a text. No contract: only tests call it.
fn has_lines<A: Allocator>(alloc: &A, text: &[u8], wanted: &[u8]) -> Result<bool, AllocError> {
    let script = import(alloc, text, None)?;
    for line in wanted.split(|b| *b == b'\n') {
        if !has_line(script.as_slice(), line) {
            return Ok(false);
        }
    }
    Ok(true)
}

/// Words become comments, and are counted; what may be a move is none of them.
#[test]
fn words_are_no_moves(rt: HostRuntime) -> Result<(), Fail> {
    let alloc = rt.alloc();
    assert!(rt; has_lines(&alloc, WORDS, WORDS_LINES)?);
    Ok(())
}

/// A game in German letters is read, and it is said.
#[test]
fn german_letters_are_read(rt: HostRuntime) -> Result<(), Fail> {
    let alloc = rt.alloc();
    assert!(rt; has_lines(&alloc, GERMAN, GERMAN_LINES)?);
    Ok(())
}

/// A sign of check or mate that is wrong is said.
#[test]
fn wrong_signs_are_said(rt: HostRuntime) -> Result<(), Fail> {
    let alloc = rt.alloc();
    assert!(rt; has_lines(&alloc, SIGNS, SIGNS_LINES)?);
    Ok(())
}

/// A stipulation in other words is read, or the game is left out.
#[test]
fn other_stipulations_are_read_or_named(rt: HostRuntime) -> Result<(), Fail> {
    let alloc = rt.alloc();
    assert!(rt; has_lines(&alloc, STATED, STATED_LINES)?);
    Ok(())
}
