//! Spaces outside of ASCII, as word processors and browsers write them. The expected scripts were written by hand, by the rules of docs/IMPORT.md.

use std::alloc::{AllocError, Allocator};
use std::test::Fail;
use study_import::import;

/// A space that does not break behind a number, between two moves and before a result; thin and narrow spaces; an ideographic space; a judgement before
/// a space; the byte A0 of Windows-1252 behind a number and between moves; and `à`, whose second byte in UTF-8 is A0.
const SPACES: &[u8] = b"[FEN \"8/8/8/4k3/8/4K3/4P3/8 w - - 0 1\"]

1.\xc2\xa0Kd3\xc2\xa0Kf5\xe2\x80\x892.\xe2\x80\xafKd4+\xe2\x80\x93\xc2\xa0Kf4\xe3\x80\x80\xc2\xb1\xc2\xa03.e3+\xe1\x9a\x80\xe2\x81\x9f1-0

[FEN \"8/8/8/4k3/8/4K3/4P3/8 w - - 0 1\"]
[White \"R\xe9ti\xa0R\"]

1.\xa0Kd3\xa0Kf5\xa01-0

[FEN \"8/8/8/4k3/8/4K3/4P3/8 w - - 0 1\"]

1. Kd\xc3\xa03 1-0
";

const SPACES_REPORTED: &[u8] = b"#! game 1, line 1: stipulated by its result
#! not taken over: NAGs 1
position 8/8/8/4k3/8/4K3/4P3/8 w - - 0 1
stipulate white win
tag Event ?
tag Site ?
tag Date ????.??.??
tag Round ?
tag White ?
tag Black ?
insert root Kd3
insert 0 Kf5
insert 0.0 Kd4
insert 0.0.0 Kf4
insert 0.0.0.0 e3+
pgn

#! game 2, line 5: stipulated by its result
#! White was: R\xe9ti\xa0R
#! read as Latin 1: White
position 8/8/8/4k3/8/4K3/4P3/8 w - - 0 1
stipulate white win
tag Event ?
tag Site ?
tag Date ????.??.??
tag Round ?
tag White Reti R
tag Black ?
insert root Kd3
insert 0 Kf5
pgn

#! game 3, line 12, column 4: NotSan at Kd\xc3\xa03

#! games 3, studies 2
";

/// Compares the script of a text.
fn check<A: Allocator>(alloc: &A, text: &[u8], wanted: &[u8]) -> Result<bool, AllocError> {
    let script = import(alloc, text, None)?;
    Ok(script.as_slice() == wanted)
}

/// Spaces outside of ASCII separate moves, numbers and results.
#[test]
fn other_spaces_are_spaces(rt: HostRuntime) -> Result<(), Fail> {
    let alloc = rt.alloc();
    assert!(rt; check(&alloc, SPACES, SPACES_REPORTED)?);
    Ok(())
}
