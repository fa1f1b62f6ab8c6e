//! The stipulation in the open, and two games that run together. The expected scripts were written by hand, by the rules of docs/IMPORT.md.
use crate::games::check;
use std::test::Fail;
use study_board::Side;
use study_marks::{Goal, Stipulation};

/// Signs in a comment, sources that differ, and stipulations that are not understood.
const STATED: &[u8] = b"[FEN \"8/8/8/4k3/8/4K3/4P3/8 w - - 0 1\"]
[Result \"1-0\"]

{#3} 1-0

[FEN \"8/8/8/4k3/8/4K3/4P3/8 b - - 0 1\"]
[Result \"0-1\"]

{#12.} 0-1

[FEN \"8/8/8/4k3/8/4K3/4P3/8 w - - 0 1\"]
[Result \"1-0\"]

{+} *

[FEN \"8/8/8/4k3/8/4K3/4P3/8 w - - 0 1\"]
[Result \"1/2-1/2\"]

{=} 1/2-1/2

[FEN \"8/8/8/4k3/8/4K3/4P3/8 w - - 0 1\"]
[Result \"1-0\"]

{Mate in 3} 1-0

[FEN \"8/8/8/4k3/8/4K3/4P3/8 w - - 0 1\"]

{White mates in 3 moves.} *

[FEN \"8/8/8/4k3/8/4K3/4P3/8 b - - 0 1\"]

{White to win, Black to move} *

[FEN \"8/8/8/4k3/8/4K3/4P3/8 w - - 0 1\"]

{Draw!} *

[FEN \"8/8/8/4k3/8/4K3/4P3/8 w - - 0 1\"]
[Result \"1/2-1/2\"]

{White to play and win} 1/2-1/2

[FEN \"8/8/8/4k3/8/4K3/4P3/8 w - - 0 1\"]
[Result \"1-0\"]

1/2-1/2

[FEN \"8/8/8/4k3/8/4K3/4P3/8 w - - 0 1\"]
[Stipulation \"=\"]
[Result \"1-0\"]

{White to win} 1-0

[FEN \"8/8/8/4k3/8/4K3/4P3/8 w - - 0 1\"]
[Result \"1/2-1/2\"]

{Black to draw} 1/2-1/2

[FEN \"8/8/8/4k3/8/4K3/4P3/8 w - - 0 1\"]
[Stipulation \"h#2\"]
[Result \"1-0\"]

1-0

[FEN \"8/8/8/4k3/8/4K3/4P3/8 w - - 0 1\"]
[Result \"1-0\"]

{s#3} 1-0

[FEN \"8/8/8/4k3/8/4K3/4P3/8 w - - 0 1\"]
[Result \"1-0\"]

{White to selfmate in 2} 1-0

[FEN \"8/8/8/4k3/8/4K3/4P3/8 w - - 0 1\"]
[Stipulation \"?\"]
[Result \"1-0\"]

{White to play.} 1-0

[FEN \"8/8/8/4k3/8/4K3/4P3/8 w - - 0 1\"]
[Stipulation \"h#2\"]
[Result \"1-0\"]

{White to win} 1-0

";

const STATED_REPORTED: &[u8] = b"#! game 1, line 1: stipulated by its comment
#! not taken over: comments 1
position 8/8/8/4k3/8/4K3/4P3/8 w - - 0 1
stipulate white mate 3
tag Event ?
tag Site ?
tag Date ????.??.??
tag Round ?
tag White ?
tag Black ?
pgn

#! game 2, line 6: stipulated by its comment
#! not taken over: comments 1
position 8/8/8/4k3/8/4K3/4P3/8 b - - 0 1
stipulate black mate 12
tag Event ?
tag Site ?
tag Date ????.??.??
tag Round ?
tag White ?
tag Black ?
pgn

#! game 3, line 11: stipulated by its comment
#! not taken over: comments 1
position 8/8/8/4k3/8/4K3/4P3/8 w - - 0 1
stipulate white win
tag Event ?
tag Site ?
tag Date ????.??.??
tag Round ?
tag White ?
tag Black ?
pgn

#! game 4, line 16: stipulated by its comment
#! not taken over: comments 1
position 8/8/8/4k3/8/4K3/4P3/8 w - - 0 1
stipulate white draw
tag Event ?
tag Site ?
tag Date ????.??.??
tag Round ?
tag White ?
tag Black ?
pgn

#! game 5, line 21: stipulated by its comment
#! not taken over: comments 1
position 8/8/8/4k3/8/4K3/4P3/8 w - - 0 1
stipulate white mate 3
tag Event ?
tag Site ?
tag Date ????.??.??
tag Round ?
tag White ?
tag Black ?
pgn

#! game 6, line 26: stipulated by its comment
#! not taken over: comments 1
position 8/8/8/4k3/8/4K3/4P3/8 w - - 0 1
stipulate white mate 3
tag Event ?
tag Site ?
tag Date ????.??.??
tag Round ?
tag White ?
tag Black ?
pgn

#! game 7, line 30: stipulated by its comment
#! not taken over: comments 1
position 8/8/8/4k3/8/4K3/4P3/8 b - - 0 1
stipulate white win
tag Event ?
tag Site ?
tag Date ????.??.??
tag Round ?
tag White ?
tag Black ?
pgn

#! game 8, line 34: stipulated by its comment
#! not taken over: comments 1
position 8/8/8/4k3/8/4K3/4P3/8 w - - 0 1
stipulate white draw
tag Event ?
tag Site ?
tag Date ????.??.??
tag Round ?
tag White ?
tag Black ?
pgn

#! game 9, line 38: stipulated by its comment
#! the stipulation differs from its tag Result
#! the stipulation differs from its result
#! not taken over: comments 1
position 8/8/8/4k3/8/4K3/4P3/8 w - - 0 1
stipulate white win
tag Event ?
tag Site ?
tag Date ????.??.??
tag Round ?
tag White ?
tag Black ?
pgn

#! game 10, line 43: stipulated by its tag Result
#! the stipulation differs from its result
position 8/8/8/4k3/8/4K3/4P3/8 w - - 0 1
stipulate white win
tag Event ?
tag Site ?
tag Date ????.??.??
tag Round ?
tag White ?
tag Black ?
pgn

#! game 11, line 48: stipulated by its comment
#! the stipulation differs from its tag Stipulation
#! not taken over: comments 1
position 8/8/8/4k3/8/4K3/4P3/8 w - - 0 1
stipulate white win
tag Event ?
tag Site ?
tag Date ????.??.??
tag Round ?
tag White ?
tag Black ?
pgn

#! game 12, line 54: stipulated by its comment
#! not taken over: comments 1
position 8/8/8/4k3/8/4K3/4P3/8 w - - 0 1
stipulate black draw
tag Event ?
tag Site ?
tag Date ????.??.??
tag Round ?
tag White ?
tag Black ?
pgn

#! game 13, line 59: StipulationUnread at its tag Stipulation

#! game 14, line 65: StipulationUnread at its comment

#! game 15, line 70: StipulationUnread at its comment

#! game 16, line 75: stipulated by its tag Result
#! not taken over: comments 1
position 8/8/8/4k3/8/4K3/4P3/8 w - - 0 1
stipulate white win
tag Event ?
tag Site ?
tag Date ????.??.??
tag Round ?
tag White ?
tag Black ?
pgn

#! game 17, line 81: stipulated by its comment
#! the stipulation of its tag Stipulation is not understood
#! not taken over: comments 1
position 8/8/8/4k3/8/4K3/4P3/8 w - - 0 1
stipulate white win
tag Event ?
tag Site ?
tag Date ????.??.??
tag Round ?
tag White ?
tag Black ?
pgn

#! games 17, studies 14
";

#[test]
fn each_source_is_read_or_named(rt: HostRuntime) -> Result<(), Fail> {
    let alloc = rt.alloc();
    assert!(rt; check(&alloc, STATED, None, STATED_REPORTED)?);
    Ok(())
}

/// What the caller gives takes the place of a stipulation that is not understood, and it is said.
#[test]
fn a_stipulation_that_is_not_understood_may_be_replaced(rt: HostRuntime) -> Result<(), Fail> {
    let alloc = rt.alloc();
    let given = Some(Stipulation {
        hero: Side::Black,
        goal: Goal::Draw,
    });
    let text = b"[FEN \"8/8/8/4k3/8/4K3/4P3/8 w - - 0 1\"]
[Stipulation \"s#2\"]
[Result \"1-0\"]

1-0
";
    let reported = b"#! game 1, line 1: stipulated by the option
#! the stipulation of its tag Stipulation is not understood
#! the stipulation differs from its tag Result
#! the stipulation differs from its result
position 8/8/8/4k3/8/4K3/4P3/8 w - - 0 1
stipulate black draw
tag Event ?
tag Site ?
tag Date ????.??.??
tag Round ?
tag White ?
tag Black ?
pgn

#! games 1, studies 1
";
    assert!(rt; check(&alloc, text.as_slice(), given, reported.as_slice())?);
    Ok(())
}

/// A header without moves, and the next game without a tag Event: the first would get the author and the moves of the second. Then two games, the second
/// with a byte order mark in front.
const JOINED: &[u8] = b"[Event \"header only\"]
[FEN \"8/8/8/4k3/8/4K3/4P3/8 w - - 0 1\"]
[Result \"1-0\"]

[White \"Somebody Else\"]
[FEN \"8/8/8/4k3/8/4K3/4P3/8 w - - 0 1\"]
[Result \"0-1\"]

1. Kd3 0-1

[Event \"first\"]
[White \"A\"]
[White \"B\"]
[FEN \"8/8/8/4k3/8/4K3/4P3/8 w - - 0 1\"]

1. Kd3 1-0

\xef\xbb\xbf[Event \"marked\"]
[FEN \"8/8/8/4k3/8/4K3/4P3/8 w - - 0 1\"]

{White to win} 1. Kd3 1-0
";

const JOINED_REPORTED: &[u8] = b"#! game 1, line 1 (Somebody Else; \"header only\"): TagTwice at FEN

#! game 2, line 11 (A; \"first\"): TagTwice at White

#! game 3, line 18: stipulated by its comment
#! not taken over: comments 1
position 8/8/8/4k3/8/4K3/4P3/8 w - - 0 1
stipulate white win
tag Event marked
tag Site ?
tag Date ????.??.??
tag Round ?
tag White ?
tag Black ?
insert root Kd3
pgn

#! games 3, studies 1
";

#[test]
fn two_games_that_run_together_are_left_out(rt: HostRuntime) -> Result<(), Fail> {
    let alloc = rt.alloc();
    assert!(rt; check(&alloc, JOINED, None, JOINED_REPORTED)?);
    Ok(())
}
