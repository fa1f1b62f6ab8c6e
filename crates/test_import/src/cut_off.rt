//! Games that are read only up to their first fault. The expected scripts were written by hand, by the rules of docs/IMPORT.md.

use std::test::Fail;
use study_import::{Choice, Importer, import};
use study_text::Text;

/// A fault in a variation that stands beside another, one at the first move, one in a game whose stipulation stands behind it, moves behind a result,
/// no fault, and too many men.
const GAMES: &[u8] = b"[Event \"bad\"]
[White \"Reti, Richard\"]
[FEN \"7K/8/k1P5/7p/8/8/8/8 w - - 0 1\"]
[Result \"1/2-1/2\"]

{White to draw} 1. Kg7 h4 2. Kf6 Kb6
(2... h3 3. Ke7 (3. Ke5 h2) 3... h2 4. c9 Kb7) 3. Ke5 1/2-1/2

[Event \"no move\"]
[FEN \"7K/8/k1P5/7p/8/8/8/8 w - - 0 1\"]

{Draw} 1. Kg9 h4 1/2-1/2

[Event \"no word\"]
[FEN \"7K/8/k1P5/7p/8/8/8/8 w - - 0 1\"]

1. Kg7 h4 2. Kf9 1/2-1/2

[Event \"behind\"]
[FEN \"7K/8/k1P5/7p/8/8/8/8 w - - 0 1\"]

{Draw} 1. Kg7 h4 1/2-1/2 2. Kf6 Kb6

[Event \"whole\"]
[FEN \"7K/8/k1P5/7p/8/8/8/8 w - - 0 1\"]

{Draw} 1. Kg7 h4 1/2-1/2

[Event \"five\"]
[FEN \"7K/8/k1P5/7p/8/8/7P/8 w - - 0 1\"]

{Draw} 1. Kg9 1/2-1/2
";

const UP_TO_FAULTS: &[u8] =
    b"#! game 1, line 7, column 40 (Reti, Richard; \"bad\"): not read: NotSan at c9
#! game 1, line 1: stipulated by its comment
#! not taken over: comments 1
position 7K/8/k1P5/7p/8/8/8/8 w - - 0 1
stipulate white draw
tag Event bad
tag Site ?
tag Date ????.??.??
tag Round ?
tag White Reti, Richard
tag Black ?
insert root Kg7
insert 0 h4
insert 0.0 Kf6
insert 0.0.0 Kb6
insert 0.0.0 h3
insert 0.0.0.1 Ke7
insert 0.0.0.1 Ke5
insert 0.0.0.1.1 h2
insert 0.0.0.1.0 h2
pgn

#! game 2, line 12, column 11 (\"no move\"): not read: NotSan at Kg9
#! game 2, line 9: stipulated by its comment
#! not taken over: comments 1
position 7K/8/k1P5/7p/8/8/8/8 w - - 0 1
stipulate white draw
tag Event no move
tag Site ?
tag Date ????.??.??
tag Round ?
tag White ?
tag Black ?
pgn

#! game 3, line 17, column 14 (\"no word\"): NotSan at Kf9

#! game 4, line 22, column 29 (\"behind\"): not read: BehindResult
#! game 4, line 19: stipulated by its comment
#! not taken over: comments 1
position 7K/8/k1P5/7p/8/8/8/8 w - - 0 1
stipulate white draw
tag Event behind
tag Site ?
tag Date ????.??.??
tag Round ?
tag White ?
tag Black ?
insert root Kg7
insert 0 h4
pgn

#! game 5, line 24: stipulated by its comment
#! not taken over: comments 1
position 7K/8/k1P5/7p/8/8/8/8 w - - 0 1
stipulate white draw
tag Event whole
tag Site ?
tag Date ????.??.??
tag Round ?
tag White ?
tag Black ?
insert root Kg7
insert 0 h4
pgn

#! game 6, line 32, column 11 (\"five\"): NotSan at Kg9

#! games 6, studies 4
";

/// The games with a fault are left out, unless they are wanted up to there.
#[test]
fn games_are_read_up_to_their_faults(rt: HostRuntime) -> Result<(), Fail> {
    let alloc = rt.alloc();
    let mut importer = Importer::new(&alloc, Choice::whole_file(None, true));
    let mut script = Text::new(&alloc);
    for byte in GAMES {
        importer.take(*byte, &mut script)?;
    }
    let imported = importer.finish(&mut script)?;
    assert!(rt; script.as_slice() == UP_TO_FAULTS);
    assert!(rt; imported.reported == 6 && imported.with_study == 4 && imported.studies == 4);
    let script = import(&alloc, GAMES, None)?;
    assert!(rt; script.as_slice().ends_with(b"\n#! games 6, studies 1\n"));
    Ok(())
}
