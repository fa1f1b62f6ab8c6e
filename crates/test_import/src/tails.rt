//! Tails of games. The expected scripts were written by hand, by the rules of docs/IMPORT.md, and for games that are followed by an independent program.

use std::test::Fail;
use study_import::{Choice, Importer, import};
use study_text::Text;

/// A tail with variations around its position, one whose mate is counted from the game's start, one with a fault after skipped lines, and a game
/// whose main line states no position.
const GAMES: &[u8] = b"[Event \"five\"]
[FEN \"7K/8/k1P5/6r1/8/7B/8/8 w - - 0 1\"]
[Result \"1/2-1/2\"]

{White to draw} 1. Bg4 {7K/8/k1P5/6r1/6B1/8/8/8 b - - 1 1} (1. c7 Rg8+ 2. Kxg8) 1... Rxg4
{7K/8/k1P5/8/6r1/8/8/8 w -
- 0 2} $1 (1... Kb6 2. Kh7) 2. Kh7 Kb6 3. c7 {well} Kxc7 1/2-1/2

[Event \"mate\"]
[FEN \"7K/8/k1P5/6r1/8/7B/8/8 w - - 0 1\"]
[Stipulation \"#5\"]
[Result \"0-1\"]

{White to mate in 5} 1. Bg4 Rxg4 {7K/8/k1P5/8/6r1/8/8/8 w - - 0 2} (1... Kb5) 2. Kh7 0-1

[Event \"fault\"]
[FEN \"7K/8/k1P5/6r1/8/7B/8/8 w - - 0 1\"]
[Result \"1/2-1/2\"]

1. Bg4 Rxg4
{7K/8/k1P5/8/6r1/8/8/8 w - - 0 2} 2. Kh7 Kc6 3. c7 1/2-1/2

[Event \"no word\"]
[FEN \"7K/8/k1P5/6r1/8/7B/8/8 w - - 0 1\"]

1. Bg4 Rxg4 (1... Kb6 {7K/8/1kP5/8/8/8/8/8 w - - 0 2}) 2. Kh7 1/2-1/2
";

const TAILS: &[u8] = b"#! a tail: moves before 7; its position is another program's word
#! game 1, line 1: stipulated by its comment
#! not taken over: comments 2, NAGs 1
position 7K/8/k1P5/8/6r1/8/8/8 w - - 0 2
stipulate white draw
tag Event five
tag Site ?
tag Date ????.??.??
tag Round ?
tag White ?
tag Black ?
insert root Kh7
insert 0 Kb6
insert 0.0 c7
insert 0.0.0 Kxc7
pgn

#! a tail: moves before 3; its position is another program's word
#! game 2, line 9: stipulated by its tag Result
position 7K/8/k1P5/8/6r1/8/8/8 w - - 0 2
stipulate black win
tag Event mate
tag Site ?
tag Date ????.??.??
tag Round ?
tag White ?
tag Black ?
insert root Kh7
pgn

#! a tail: moves before 2; its position is another program's word
#! game 3, line 21, column 42 (\"fault\"): NoSuchMove at Kc6

#! game 4, line 23: stipulated by its result
#! not taken over: comments 1
#> position 7K/8/k1P5/6r1/8/7B/8/8 w - - 0 1
#> stipulate white draw
#> tag Event no word
#> tag Site ?
#> tag Date ????.??.??
#> tag Round ?
#> tag White ?
#> tag Black ?
#> insert root Bg4
#> insert 0 Rxg4
#> insert 0.0 Kh7
#> insert 0 Kb6

#! tail 1 of 1 of game 4, node 0.0, after 1... Rxg4
position 7K/8/k1P5/8/6r1/8/8/8 w - - 0 2
stipulate white draw
tag Event no word
tag Site ?
tag Date ????.??.??
tag Round ?
tag White ?
tag Black ?
insert root Kh7
pgn

#! games 4, studies 3
";

const FOLLOWED: &[u8] = b"#! game 1, line 1: stipulated by its comment
#! not taken over: comments 4, NAGs 1
#> position 7K/8/k1P5/6r1/8/7B/8/8 w - - 0 1
#> stipulate white draw
#> tag Event five
#> tag Site ?
#> tag Date ????.??.??
#> tag Round ?
#> tag White ?
#> tag Black ?
#> insert root Bg4
#> insert 0 Rxg4
#> insert 0.0 Kh7
#> insert 0.0.0 Kb6
#> insert 0.0.0.0 c7
#> insert 0.0.0.0.0 Kxc7
#> insert 0 Kb6
#> insert 0.1 Kh7
#> insert root c7
#> insert 1 Rg8+
#> insert 1.0 Kxg8

#! tail 1 of 2 of game 1, node 0.0, after 1... Rxg4
position 7K/8/k1P5/8/6r1/8/8/8 w - - 0 2
stipulate white draw
tag Event five
tag Site ?
tag Date ????.??.??
tag Round ?
tag White ?
tag Black ?
insert root Kh7
insert 0 Kb6
insert 0.0 c7
insert 0.0.0 Kxc7
pgn

#! tail 2 of 2 of game 1, node 1.0.0, after 2. Kxg8, beside the solution
position 6K1/2P5/k7/8/8/7B/8/8 b - - 0 2
stipulate white draw
tag Event five
tag Site ?
tag Date ????.??.??
tag Round ?
tag White ?
tag Black ?
pgn

#! game 2, line 9: stipulated by its comment
#! the stipulation differs from its tag Result
#! the stipulation differs from its result
#! not taken over: comments 2
#> position 7K/8/k1P5/6r1/8/7B/8/8 w - - 0 1
#> stipulate white mate 5
#> tag Event mate
#> tag Site ?
#> tag Date ????.??.??
#> tag Round ?
#> tag White ?
#> tag Black ?
#> insert root Bg4
#> insert 0 Rxg4
#> insert 0.0 Kh7
#> insert 0 Kb5

#! tail 1 of 1 of game 2, node 0.0, after 1... Rxg4
position 7K/8/k1P5/8/6r1/8/8/8 w - - 0 2
stipulate white mate 4
tag Event mate
tag Site ?
tag Date ????.??.??
tag Round ?
tag White ?
tag Black ?
insert root Kh7
pgn

#! game 3, line 21, column 42 (\"fault\"): NoSuchMove at Kc6

#! game 4, line 23: stipulated by its result
#! not taken over: comments 1
#> position 7K/8/k1P5/6r1/8/7B/8/8 w - - 0 1
#> stipulate white draw
#> tag Event no word
#> tag Site ?
#> tag Date ????.??.??
#> tag Round ?
#> tag White ?
#> tag Black ?
#> insert root Bg4
#> insert 0 Rxg4
#> insert 0.0 Kh7
#> insert 0 Kb6

#! tail 1 of 1 of game 4, node 0.0, after 1... Rxg4
position 7K/8/k1P5/8/6r1/8/8/8 w - - 0 2
stipulate white draw
tag Event no word
tag Site ?
tag Date ????.??.??
tag Round ?
tag White ?
tag Black ?
insert root Kh7
pgn

#! games 4, studies 4
";

/// A game with more than four men begins with `tails` where a comment states a position; else its moves are followed.
#[test]
fn games_come_to_their_tails(rt: HostRuntime) -> Result<(), Fail> {
    let alloc = rt.alloc();
    let choice = Choice {
        given: None,
        from: 1,
        to: u32::MAX,
        tails: true,
        up_to_faults: false,
    };
    let mut importer = Importer::new(&alloc, choice);
    let mut script = Text::new(&alloc);
    for byte in GAMES {
        importer.take(*byte, &mut script)?;
    }
    let imported = importer.finish(&mut script)?;
    assert!(rt; script.as_slice() == TAILS);
    assert!(rt; imported.reported == 4 && imported.with_study == 3 && imported.studies == 3);
    let script = import(&alloc, GAMES, None)?;
    assert!(rt; script.as_slice() == FOLLOWED);
    Ok(())
}
