//! Games as editors and word processors set them. The expected scripts were written by hand, by the rules of docs/IMPORT.md.

use std::alloc::{AllocError, Allocator};
use std::test::Fail;
use study_import::import;

/// Dashes of each kind in moves and judgements; `…` as in `1…Kf5`, `1… Kf5` and `1 …Kf5`, and behind a move; three phrases without `to`; an en dash as a
/// null move; results with dashes in the tag and behind the moves; `…` at a number that does not fit, and before White's move; castling; and a
/// sentence that states nothing.
const TYPESET: &[u8] = b"[FEN \"8/8/8/4k3/8/4K3/4P3/8 w - - 0 1\"]

{White wins} 1. Ke3\xe2\x80\x93d3 Ke5\xe2\x80\x91f5 2. Kd3\xe2\x88\x92d4+\xe2\x80\x93 Kf5\xe2\x80\x90f4 +\xe2\x80\x93 \
3. e2\xe2\x80\x92e3+ \xe2\x80\x93+ 1\xe2\x80\x930

[FEN \"8/8/8/4k3/8/4K3/4P3/8 w - - 0 1\"]
[Result \"\xc2\xbd\xe2\x80\x93\xc2\xbd\"]

1.Kd3 (1.Kf3 1\xe2\x80\xa6Kf5 2.e3) 1\xe2\x80\xa6 Kd5\xe2\x80\xa6 2.e3 2 \xe2\x80\xa6Ke5 \xc2\xbd\xe2\x80\x93\xc2\xbd

[FEN \"8/8/8/4k3/8/4K3/4P3/8 w - - 0 1\"]

{Black wins: as is known} *

[FEN \"8/8/8/4k3/8/4K3/4P3/8 w - - 0 1\"]

{White mates in 3.} *

[FEN \"8/8/8/4k3/8/4K3/4P3/8 w - - 0 1\"]
[Stipulation \"White draws\"]

*

[FEN \"8/8/8/4k3/8/4K3/4P3/8 w - - 0 1\"]
[Result \"1/2\xe2\x80\x931/2\"]

1.\xe2\x80\x93

[FEN \"8/8/8/4k3/8/4K3/4P3/8 w - - 0 1\"]

1.Kd3 0\xe2\x80\x931

[FEN \"8/8/8/4k3/8/4K3/4P3/8 w - - 0 1\"]

1.Kd3 \xc2\xbd\xe2\x80\x93\xc2\xbd

[FEN \"8/8/8/4k3/8/4K3/4P3/8 w - - 0 1\"]
[Result \"1\xe2\x80\x930\"]

1. Kd3 3\xe2\x80\xa6Kd5

[FEN \"8/8/8/4k3/8/4K3/4P3/8 w - - 0 1\"]
[Result \"1-0\"]

1\xe2\x80\xa6Kd3

[FEN \"8/8/8/4k3/8/4K3/4P3/8 w - - 0 1\"]
[Result \"1-0\"]

1. 0\xe2\x80\x930

[FEN \"8/8/8/4k3/8/4K3/4P3/8 w - - 0 1\"]

{White wins by a tempo} *
";

const TYPESET_REPORTED: &[u8] = b"#! game 1, line 1: stipulated by its comment
#! not taken over: comments 1, NAGs 2
position 8/8/8/4k3/8/4K3/4P3/8 w - - 0 1
stipulate white win
tag Event ?
tag Site ?
tag Date ????.??.??
tag Round ?
tag White ?
tag Black ?
insert root Kd3
insert 0 Kf5
insert 0.0 Kd4
insert 0.0.0 Kf4
insert 0.0.0.0 e3+
pgn

#! game 2, line 5: stipulated by its tag Result
position 8/8/8/4k3/8/4K3/4P3/8 w - - 0 1
stipulate white draw
tag Event ?
tag Site ?
tag Date ????.??.??
tag Round ?
tag White ?
tag Black ?
insert root Kd3
insert root Kf3
insert 1 Kf5
insert 1.0 e3
insert 0 Kd5
insert 0.0 e3
insert 0.0.0 Ke5
pgn

#! game 3, line 10: stipulated by its comment
#! not taken over: comments 1
position 8/8/8/4k3/8/4K3/4P3/8 w - - 0 1
stipulate black win
tag Event ?
tag Site ?
tag Date ????.??.??
tag Round ?
tag White ?
tag Black ?
pgn

#! game 4, line 14: stipulated by its comment
#! not taken over: comments 1
position 8/8/8/4k3/8/4K3/4P3/8 w - - 0 1
stipulate white mate 3
tag Event ?
tag Site ?
tag Date ????.??.??
tag Round ?
tag White ?
tag Black ?
pgn

#! game 5, line 18: stipulated by its tag Stipulation
position 8/8/8/4k3/8/4K3/4P3/8 w - - 0 1
stipulate white draw
tag Event ?
tag Site ?
tag Date ????.??.??
tag Round ?
tag White ?
tag Black ?
pgn

#! game 6, line 26, column 3: NullMove

#! game 7, line 28: stipulated by its result
position 8/8/8/4k3/8/4K3/4P3/8 w - - 0 1
stipulate black win
tag Event ?
tag Site ?
tag Date ????.??.??
tag Round ?
tag White ?
tag Black ?
insert root Kd3
pgn

#! game 8, line 32: stipulated by its result
position 8/8/8/4k3/8/4K3/4P3/8 w - - 0 1
stipulate white draw
tag Event ?
tag Site ?
tag Date ????.??.??
tag Round ?
tag White ?
tag Black ?
insert root Kd3
pgn

#! game 9, line 39, column 8: Numbering at 3

#! game 10, line 44, column 1: Numbering at 1

#! game 11, line 49, column 4: CastlingLeftOut at 0\xe2\x80\x930

#! game 12, line 51: NoStipulation

#! games 12, studies 7
";

/// Compares the script of a text.
fn check<A: Allocator>(alloc: &A, text: &[u8], wanted: &[u8]) -> Result<bool, AllocError> {
    let script = import(alloc, text, None)?;
    Ok(script.as_slice() == wanted)
}

/// Dashes and ellipses of a word processor are read as hyphens and dots are.
#[test]
fn typeset_games_are_read(rt: HostRuntime) -> Result<(), Fail> {
    let alloc = rt.alloc();
    assert!(rt; check(&alloc, TYPESET, TYPESET_REPORTED)?);
    Ok(())
}
