//! Numbers of moves. PGN Standard, 8.2.2: a number has one dot before White's move and three before Black's, and rises after Black's move.

use std::alloc::{AllocError, Allocator};
use std::test::Fail;
use study_import::import;

/// A missing move of Black; one of White; three dots before White's move; a variation that begins too late; a missing move where Black begins; the
/// three dots as one character before White's move; ten digits; dots in the next line; a missing move of White where one dot before Black's first move
/// begins a count of pairs, twice.
const MISSING: &[u8] = b"[FEN \"8/8/8/4k3/8/4K3/4P3/8 w - - 0 1\"]
[Result \"1-0\"]

1. Kd3 2. Kd5

[FEN \"8/8/8/4k3/8/4K3/4P3/8 w - - 0 1\"]
[Result \"1-0\"]

1. Kd3 Kd5 2... Ke3

[FEN \"8/8/8/4k3/8/4K3/4P3/8 w - - 0 1\"]
[Result \"1-0\"]

1... Kd3 Kd5

[FEN \"8/8/8/4k3/8/4K3/4P3/8 w - - 0 1\"]
[Result \"1-0\"]

1. Kd3 (2. Kf3) 1... Kd5

[FEN \"8/8/8/4k3/8/3K4/4P3/8 b - - 0 1\"]
[Result \"1-0\"]

1... Kd5 2. Ke3 3. Ke5

[FEN \"8/8/8/4k3/8/4K3/4P3/8 w - - 0 1\"]
[Result \"1-0\"]

1 \xe2\x80\xa6 Kd3

[FEN \"8/8/8/4k3/8/4K3/4P3/8 w - - 0 1\"]
[Result \"1-0\"]

1234567890. Kd3

[FEN \"8/8/8/4k3/8/4K3/4P3/8 w - - 0 1\"]
[Result \"1-0\"]

1. Kd3 2
 . Kd5

[FEN \"r6k/8/8/8/8/8/8/1K4R1 b - - 0 1\"]
[Result \"1/2-1/2\"]

1. Kh7 2. Rg8 Rxg8

[FEN \"8/8/8/4k3/8/3K4/4P3/8 b - - 0 1\"]
[Result \"1-0\"]

1. Kd5 Ke3 2. Ke5 3. Kd3
";

const MISSING_REPORTED: &[u8] = b"#! game 1, line 4, column 8: Numbering at 2

#! game 2, line 9, column 12: Numbering at 2

#! game 3, line 14, column 1: Numbering at 1

#! game 4, line 19, column 9: Numbering at 2

#! game 5, line 24, column 17: Numbering at 3

#! game 6, line 29, column 1: Numbering at 1

#! game 7, line 34, column 1: Numbering at 1234567890

#! game 8, line 39, column 8: Numbering at 2

#! game 9, line 45, column 8: Numbering at 2

#! game 10, line 50, column 19: Numbering at 3

#! games 10, studies 0
";

/// Numbers of Black's moves, and without; a variation; numbers without dots; a game that begins at 41; one that Black begins, with the numbers of the PGN
/// Standard, and in pairs; the three dots as one character; numbers after a null move; a number before the result.
const HONEST: &[u8] = b"[FEN \"8/8/8/4k3/8/4K3/4P3/8 w - - 0 1\"]
[Result \"1-0\"]

1.Kd3 1...Kd5 2 . Ke3 2... Ke5 3. Kd3 Kd5 1-0

[FEN \"8/8/8/4k3/8/4K3/4P3/8 w - - 0 1\"]
[Result \"1-0\"]

1. Kd3 Kd5 (1... Kf5 2. Ke3) 2. Ke3 (2. e4+ Ke5 3. Ke3) Ke5

[FEN \"8/8/8/4k3/8/4K3/4P3/8 w - - 0 1\"]
[Result \"1-0\"]

7 Kd3 9 Kd5 4 Ke3

[FEN \"8/8/8/4k3/8/4K3/4P3/8 w - - 0 1\"]
[Result \"1-0\"]

41. Kd3 41... Kd5 42. Ke3

[FEN \"8/8/8/4k3/8/3K4/4P3/8 b - - 0 1\"]
[Result \"1-0\"]

1... Kd5 2. Ke3 Ke5 3. Kd3

[FEN \"8/8/8/4k3/8/3K4/4P3/8 b - - 0 1\"]
[Result \"1-0\"]

1. Kd5 Ke3 2. Ke5 Kd3

[FEN \"8/8/8/4k3/8/4K3/4P3/8 w - - 0 1\"]
[Result \"1-0\"]

1. Kd3 1 \xe2\x80\xa6 Kd5 2. Ke3

[FEN \"8/8/8/4k3/8/4K3/4P3/8 w - - 0 1\"]
[Result \"1-0\"]

1. Kd3 (1. -- Kf4 9. e3) 1... Kd5 2. 1-0
";

/// Compares the script of a text, or its last line.
fn check<A: Allocator>(alloc: &A, text: &[u8], wanted: &[u8]) -> Result<bool, AllocError> {
    let script = import(alloc, text, None)?;
    Ok(script.as_slice().ends_with(wanted))
}

/// A game with a number that does not fit is left out; those that fit by a custom of editors are taken.
#[test]
fn numbers_fit(rt: HostRuntime) -> Result<(), Fail> {
    let alloc = rt.alloc();
    assert!(rt; check(&alloc, MISSING, MISSING_REPORTED)?);
    assert!(rt; check(&alloc, HONEST, b"#! games 8, studies 8\n")?);
    Ok(())
}
