//! What a judge of a tourney found misread, and the runs of a hostile reader, as far as no other test has them. The expected scripts were laid out from
//! the games by a script of their own, with its own rules of the moves, and the stipulations and reasons by hand, by the rules of docs/IMPORT.md.
use crate::games::check;
use std::test::Fail;

/// A selfmate in a tag; mates in words, in tags and in a comment; a mate in two with a stalemate; two draws whose results are wins; a draw that White
/// wins; and a draw that Black moves first in.
const STATED: &[u8] = b"[FEN \"8/8/8/6k1/8/8/1P5K/8 w - - 0 1\"]
[Stipulation \"s#2\"]
[Result \"0-1\"]

1. Kg3 Kf5 2. Kf3 0-1

[FEN \"8/8/8/6k1/8/8/1P5K/8 w - - 0 1\"]
[Stipulation \"Mate in 3\"]
[Result \"1-0\"]

1. Kg3 Kf5 2. Kf3 1-0

[FEN \"8/8/8/6k1/8/8/1P5K/8 w - - 0 1\"]
[Stipulation \"White to mate in 12 moves\"]
[Result \"1-0\"]

1. Kg3 Kf5 2. Kf3 1-0

[FEN \"8/8/8/6k1/8/8/1P5K/8 w - - 0 1\"]
[Result \"1-0\"]

{White to mate in 3 moves} 1. Kg3 Kf5 2. Kf3 1-0

[FEN \"8/k1P5/2K5/8/8/8/8/8 w - - 0 1\"]
[Result \"1-0\"]

{#2} 1. c8=R! (1. c8=Q? {stalemate}) Ka6 2. Ra8# 1-0

[FEN \"7K/8/k1P5/7p/8/8/8/8 w - - 0 1\"]
[Result \"1-0\"]

{=} 1. Kg7 h4 2. Kf6 1-0

[FEN \"7K/8/k1P5/7p/8/8/8/8 w - - 0 1\"]
[Result \"1-0\"]

{Draw} 1. Kg7 h4 2. Kf6 1-0

[FEN \"7k/8/8/8/8/8/1q6/K5R1 w - - 0 1\"]

{White to draw} 1. Kxb2 1/2-1/2

[FEN \"8/8/8/4k3/8/3K4/3P4/8 b - - 0 1\"]
[Result \"1/2-1/2\"]

1... Kd5 2. Ke3 1/2-1/2
";

const STATED_SCRIPT: &[u8] = b"#! game 1, line 1: StipulationUnread at its tag Stipulation

#! game 2, line 7: stipulated by its tag Stipulation
position 8/8/8/6k1/8/8/1P5K/8 w - - 0 1
stipulate white mate 3
tag Event ?
tag Site ?
tag Date ????.??.??
tag Round ?
tag White ?
tag Black ?
insert root Kg3
insert 0 Kf5
insert 0.0 Kf3
pgn

#! game 3, line 13: stipulated by its tag Stipulation
position 8/8/8/6k1/8/8/1P5K/8 w - - 0 1
stipulate white mate 12
tag Event ?
tag Site ?
tag Date ????.??.??
tag Round ?
tag White ?
tag Black ?
insert root Kg3
insert 0 Kf5
insert 0.0 Kf3
pgn

#! game 4, line 19: stipulated by its comment
#! not taken over: comments 1
position 8/8/8/6k1/8/8/1P5K/8 w - - 0 1
stipulate white mate 3
tag Event ?
tag Site ?
tag Date ????.??.??
tag Round ?
tag White ?
tag Black ?
insert root Kg3
insert 0 Kf5
insert 0.0 Kf3
pgn

#! game 5, line 24: stipulated by its comment
#! not taken over: comments 2, NAGs 2
position 8/k1P5/2K5/8/8/8/8/8 w - - 0 1
stipulate white mate 2
tag Event ?
tag Site ?
tag Date ????.??.??
tag Round ?
tag White ?
tag Black ?
insert root c8=R
insert root c8=Q
insert 0 Ka6
insert 0.0 Ra8#
pgn

#! game 6, line 29: stipulated by its comment
#! the stipulation differs from its tag Result
#! the stipulation differs from its result
#! not taken over: comments 1
position 7K/8/k1P5/7p/8/8/8/8 w - - 0 1
stipulate white draw
tag Event ?
tag Site ?
tag Date ????.??.??
tag Round ?
tag White ?
tag Black ?
insert root Kg7
insert 0 h4
insert 0.0 Kf6
pgn

#! game 7, line 34: stipulated by its comment
#! the stipulation differs from its tag Result
#! the stipulation differs from its result
#! not taken over: comments 1
position 7K/8/k1P5/7p/8/8/8/8 w - - 0 1
stipulate white draw
tag Event ?
tag Site ?
tag Date ????.??.??
tag Round ?
tag White ?
tag Black ?
insert root Kg7
insert 0 h4
insert 0.0 Kf6
pgn

#! game 8, line 39: stipulated by its comment
#! not taken over: comments 1
position 7k/8/8/8/8/8/1q6/K5R1 w - - 0 1
stipulate white draw
tag Event ?
tag Site ?
tag Date ????.??.??
tag Round ?
tag White ?
tag Black ?
insert root Kxb2
pgn

#! game 9, line 43: stipulated by its tag Result
position 8/8/8/4k3/8/3K4/3P4/8 b - - 0 1
stipulate white draw
tag Event ?
tag Site ?
tag Date ????.??.??
tag Round ?
tag White ?
tag Black ?
insert root Kd5
insert 0 Ke3
pgn

#! games 9, studies 8
";

/// A game without moves that runs into one without Event; a name in a code page and a date of no form; a title in guillemets, with a FEN of four fields;
/// counters that the moves do not follow; a French king that is read as a rook; marks of quotation in a title, with two tags in a line; and such marks in
/// the bytes of a code page.
const HEADERS: &[u8] = b"[Event \"t16\"]
[White \"Author T16\"]
[Result \"1-0\"]
[FEN \"8/8/8/6k1/8/8/1P5K/8 w - - 0 1\"]


[White \"Author T17\"]
[Result \"1-0\"]
[FEN \"8/8/8/6k1/8/8/1P5K/8 w - - 0 1\"]

1. Kg3 1-0

[White \"Nov\xe1k, Ji\xf8\xed\"]
[Date \"12.5.1921\"]
[FEN \"8/8/8/6k1/8/8/1P5K/8 w - - 0 1\"]
[Result \"1-0\"]

1. Kg3 1-0

[Event \"\xc2\xab64\xc2\xbb\"]
[FEN \"8/8/8/6k1/8/8/1P5K/8 w - -\"]
[Result \"1-0\"]

1. Kg3 1-0

[FEN \"8/8/8/6k1/8/8/1P5K/8 w - - 3 17\"]
[Result \"1-0\"]

1. Kg3 1-0

[FEN \"2R5/8/5k2/8/8/8/8/1K6 w - - 0 1\"]
[Result \"1-0\"]

1. Rc2 1-0

[Event \"A \\\"good\\\" one\"] [White \"A\"]
[FEN \"8/8/8/6k1/8/8/1P5K/8 w - - 0 1\"]
[Result \"1-0\"]

1. Kg3 1-0

[Event \"\x9364\x94\"]
[FEN \"8/8/8/6k1/8/8/1P5K/8 w - - 0 1\"]
[Result \"1-0\"]

1. Kg3 1-0
";

const HEADERS_SCRIPT: &[u8] = b"#! game 1, line 1 (Author T16; \"t16\"): TagTwice at FEN

#! game 2, line 13: stipulated by its tag Result
#! White was: Nov\xe1k, Ji\xf8\xed
#! read as Latin 1: White
position 8/8/8/6k1/8/8/1P5K/8 w - - 0 1
stipulate white win
tag Event ?
tag Site ?
tag Date 12.5.1921
tag Round ?
tag White Novak, Jioi
tag Black ?
insert root Kg3
pgn

#! game 3, line 20: stipulated by its tag Result
#! Event was: \xc2\xab64\xc2\xbb
position 8/8/8/6k1/8/8/1P5K/8 w - - 0 1
stipulate white win
tag Event ?64?
tag Site ?
tag Date ????.??.??
tag Round ?
tag White ?
tag Black ?
insert root Kg3
pgn

#! game 4, line 26: stipulated by its tag Result
position 8/8/8/6k1/8/8/1P5K/8 w - - 3 17
stipulate white win
tag Event ?
tag Site ?
tag Date ????.??.??
tag Round ?
tag White ?
tag Black ?
insert root Kg3
pgn

#! game 5, line 31: stipulated by its tag Result
position 2R5/8/5k2/8/8/8/8/1K6 w - - 0 1
stipulate white win
tag Event ?
tag Site ?
tag Date ????.??.??
tag Round ?
tag White ?
tag Black ?
insert root Rc2
pgn

#! game 6, line 36: stipulated by its tag Result
position 8/8/8/6k1/8/8/1P5K/8 w - - 0 1
stipulate white win
tag Event A \"good\" one
tag Site ?
tag Date ????.??.??
tag Round ?
tag White A
tag Black ?
insert root Kg3
pgn

#! game 7, line 42: stipulated by its tag Result
#! Event was: \x9364\x94
#! read as Latin 1: Event
position 8/8/8/6k1/8/8/1P5K/8 w - - 0 1
stipulate white win
tag Event ?64?
tag Site ?
tag Date ????.??.??
tag Round ?
tag White ?
tag Black ?
insert root Kg3
pgn

#! games 7, studies 6
";

/// Variations in variations, one without a number, and a promotion without its sign.
const MOVES: &[u8] = b"[FEN \"8/8/8/6k1/8/8/1P5K/8 w - - 0 1\"]
[Result \"1-0\"]

1. Kg3 Kf5 (1... Kh5 2. Kf4 (2. Kf3? Kg5 (2... Kh4 3. Kf4)) Kg6 3. Ke5) 2. Kf3 1-0

[FEN \"8/8/8/6k1/8/8/1P5K/8 w - - 0 1\"]
[Result \"1-0\"]

1. Kg3 Kf5 (Kh5 2. Kf4) 2. Kf3 1-0

[FEN \"8/k1P5/2K5/8/8/8/8/8 w - - 0 1\"]
[Result \"1-0\"]

1. c8R Ka6 2. Ra8# 1-0
";

const MOVES_SCRIPT: &[u8] = b"#! game 1, line 1: stipulated by its tag Result
#! not taken over: NAGs 1
position 8/8/8/6k1/8/8/1P5K/8 w - - 0 1
stipulate white win
tag Event ?
tag Site ?
tag Date ????.??.??
tag Round ?
tag White ?
tag Black ?
insert root Kg3
insert 0 Kf5
insert 0 Kh5
insert 0.1 Kf4
insert 0.1 Kf3
insert 0.1.1 Kg5
insert 0.1.1 Kh4
insert 0.1.1.1 Kf4
insert 0.1.0 Kg6
insert 0.1.0.0 Ke5
insert 0.0 Kf3
pgn

#! game 2, line 6: stipulated by its tag Result
position 8/8/8/6k1/8/8/1P5K/8 w - - 0 1
stipulate white win
tag Event ?
tag Site ?
tag Date ????.??.??
tag Round ?
tag White ?
tag Black ?
insert root Kg3
insert 0 Kf5
insert 0 Kh5
insert 0.1 Kf4
insert 0.0 Kf3
pgn

#! game 3, line 11: stipulated by its tag Result
position 8/k1P5/2K5/8/8/8/8/8 w - - 0 1
stipulate white win
tag Event ?
tag Site ?
tag Date ????.??.??
tag Round ?
tag White ?
tag Black ?
insert root c8=R
insert 0 Ka6
insert 0.0 Ra8#
pgn

#! games 3, studies 3
";

/// What is stated is read, and what differs is said.
#[test]
fn what_is_stated_counts(rt: HostRuntime) -> Result<(), Fail> {
    let alloc = rt.alloc();
    assert!(rt; check(&alloc, STATED, None, STATED_SCRIPT)?);
    Ok(())
}

#[test]
fn headers_are_kept_apart(rt: HostRuntime) -> Result<(), Fail> {
    let alloc = rt.alloc();
    assert!(rt; check(&alloc, HEADERS, None, HEADERS_SCRIPT)?);
    Ok(())
}

#[test]
fn moves_have_their_places(rt: HostRuntime) -> Result<(), Fail> {
    let alloc = rt.alloc();
    assert!(rt; check(&alloc, MOVES, None, MOVES_SCRIPT)?);
    Ok(())
}
