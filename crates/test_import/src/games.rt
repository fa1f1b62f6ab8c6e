//! Imports of texts. The expected scripts were written by hand, by the rules of docs/IMPORT.md.

use linked_list_allocator::LocalHeap;
use std::alloc::{AllocError, Allocator};
use std::test::Fail;
use study_board::Side;
use study_import::{
    Choice, Importer, blocks_are_isolated, blocks_are_read, faults_are_listed, files_are_read_back,
    games_are_read_whole, import, moves_are_accepted, scripts_are_read, studies_are_alike,
    studies_are_read_back, tags_are_taken,
};
use study_marks::{Goal, Stipulation};
use study_text::Text;

/// Two games: a variation, a repeated move, a tag in Latin 1; and one that breaks off.
const TWO: &[u8] = b"[Event \"A \"first\" one\"]
[White \"R\xe9ti\"]
[FEN \"8/8/8/4k3/8/4K3/4P3/8 w - - 0 1\"]
[Result \"1/2-1/2\"]

{Black to draw: of old} 1. Kd3 $1 (1. Kf3 Kf5) (1. Kd3 Kd5) 1... Kf5 1/2-1/2

[Event \"e\"]
[FEN \"8/8/8/4k3/8/4K3/4P3/8 w - - 0 1\"]

1. Kd3 (1. Kb6 *
";

const TWO_REPORTED: &[u8] = b"#! game 1, line 1: stipulated by its comment
#! not taken over: comments 1, NAGs 1, repeated 1
#! White was: R\xe9ti
#! read as Latin 1: White
position 8/8/8/4k3/8/4K3/4P3/8 w - - 0 1
stipulate black draw
tag Event A \"first\" one
tag Site ?
tag Date ????.??.??
tag Round ?
tag White Reti
tag Black ?
insert root Kd3
insert root Kf3
insert 1 Kf5
insert 0 Kd5
insert 0 Kf5
pgn

#! game 2, line 11, column 12 (\"e\"): NoSuchMove at Kb6

#! games 2, studies 1
";

/// Compares the script of a text. No contract: only tests call it.
pub fn check<A: Allocator>(
    alloc: &A,
    text: &[u8],
    given: Option<Stipulation>,
    wanted: &[u8],
) -> Result<bool, AllocError> {
    let script = import(alloc, text, given)?;
    Ok(script.as_slice() == wanted)
}

/// Each game leads to its block, or to the line of its first fault.
#[test]
fn games_come_to_their_blocks(rt: HostRuntime) -> Result<(), Fail> {
    let alloc = rt.alloc();
    assert!(rt; check(&alloc, TWO, None, TWO_REPORTED)?);
    assert!(rt; check(&alloc, b"", None, b"#! games 0, studies 0\n")?);
    Ok(())
}

/// A file read byte by byte leads to the same script; a game is written when the next one begins, and all are counted.
#[test]
fn a_file_may_come_in_byte_by_byte(rt: HostRuntime) -> Result<(), Fail> {
    let alloc = rt.alloc();
    let choice = Choice {
        given: None,
        from: 1,
        to: u32::MAX,
        tails: false,
        up_to_faults: false,
    };
    let mut importer = Importer::new(&alloc, choice);
    let mut script = Text::new(&alloc);
    for byte in TWO {
        importer.take(*byte, &mut script)?;
    }
    assert!(rt; importer.game_count() == 1);
    let imported = importer.finish(&mut script)?;
    assert!(rt; script.as_slice() == TWO_REPORTED);
    assert!(rt; imported.met == 2 && imported.reported == 2 && imported.studies == 1);
    Ok(())
}

/// Games that are not chosen are counted, and not written.
#[test]
fn games_may_be_chosen(rt: HostRuntime) -> Result<(), Fail> {
    let alloc = rt.alloc();
    let choice = Choice {
        given: None,
        from: 2,
        to: 2,
        tails: false,
        up_to_faults: false,
    };
    let mut importer = Importer::new(&alloc, choice);
    let mut script = Text::new(&alloc);
    for byte in TWO {
        importer.take(*byte, &mut script)?;
    }
    let imported = importer.finish(&mut script)?;
    let reported =
        b"#! game 2, line 11, column 12 (\"e\"): NoSuchMove at Kb6\n\n#! games 1, studies 0\n";
    assert!(rt; script.as_slice() == reported.as_slice());
    assert!(rt; imported.met == 2 && imported.reported == 1 && imported.studies == 0);
    Ok(())
}

/// The laws can be called.
#[test]
fn laws_are_called(_rt: HostRuntime) -> Result<(), Fail> {
    blocks_are_isolated();
    studies_are_alike();
    blocks_are_read();
    scripts_are_read();
    moves_are_accepted();
    tags_are_taken();
    faults_are_listed();
    games_are_read_whole();
    studies_are_read_back();
    files_are_read_back();
    Ok(())
}

/// A game that states no stipulation has the caller's.
#[test]
fn the_stipulation_may_be_given(rt: HostRuntime) -> Result<(), Fail> {
    let alloc = rt.alloc();
    let text = b"[FEN \"8/8/8/4k3/8/4K3/4P3/8 w - - 0 1\"]\n\n*\n";
    let none = b"#! game 1, line 1: NoStipulation\n\n#! games 1, studies 0\n";
    assert!(rt; check(&alloc, text.as_slice(), None, none.as_slice())?);
    let given = Some(Stipulation {
        hero: Side::White,
        goal: Goal::Win,
    });
    let reported = b"#! game 1, line 1: stipulated by the option
position 8/8/8/4k3/8/4K3/4P3/8 w - - 0 1
stipulate white win
tag Event ?
tag Site ?
tag Date ????.??.??
tag Round ?
tag White ?
tag Black ?
pgn

#! games 1, studies 1
";
    assert!(rt; check(&alloc, text.as_slice(), given, reported.as_slice())?);
    Ok(())
}

/// Six games whose comments state what is to be done, in the words of collections; the last two in words that are not read.
const PHRASES: &[u8] = b"[FEN \"8/8/8/4k3/8/4K3/4P3/8 w - - 0 1\"]

{White to play and draw} *

[FEN \"8/8/8/4k3/8/4K3/4P3/8 w - - 0 1\"]

{Black to move and win. By an unknown composer} *

[FEN \"8/8/8/4k3/8/4K3/4P3/8 w - - 0 1\"]

{White to win.} *

[FEN \"8/8/8/4k3/8/4K3/4P3/8 w - - 0 1\"]

{White to play and mate in 3: three variations} *

[FEN \"8/8/8/4k3/8/4K3/4P3/8 w - - 0 1\"]

{White to play draw} *

[FEN \"8/8/8/4k3/8/4K3/4P3/8 w - - 0 1\"]

{White to move and play} *
";

const PHRASES_REPORTED: &[u8] = b"#! game 1, line 1: stipulated by its comment
#! not taken over: comments 1
position 8/8/8/4k3/8/4K3/4P3/8 w - - 0 1
stipulate white draw
tag Event ?
tag Site ?
tag Date ????.??.??
tag Round ?
tag White ?
tag Black ?
pgn

#! game 2, line 5: stipulated by its comment
#! not taken over: comments 1
position 8/8/8/4k3/8/4K3/4P3/8 w - - 0 1
stipulate black win
tag Event ?
tag Site ?
tag Date ????.??.??
tag Round ?
tag White ?
tag Black ?
pgn

#! game 3, line 9: stipulated by its comment
#! not taken over: comments 1
position 8/8/8/4k3/8/4K3/4P3/8 w - - 0 1
stipulate white win
tag Event ?
tag Site ?
tag Date ????.??.??
tag Round ?
tag White ?
tag Black ?
pgn

#! game 4, line 13: stipulated by its comment
#! not taken over: comments 1
position 8/8/8/4k3/8/4K3/4P3/8 w - - 0 1
stipulate white mate 3
tag Event ?
tag Site ?
tag Date ????.??.??
tag Round ?
tag White ?
tag Black ?
pgn

#! game 5, line 17: StipulationUnread at its comment

#! game 6, line 21: StipulationUnread at its comment

#! games 6, studies 4
";

/// `White to play and draw` states a draw, up to a mark; other words after `White to` are said to be not understood.
#[test]
fn a_comment_states_what_is_to_be_done(rt: HostRuntime) -> Result<(), Fail> {
    let alloc = rt.alloc();
    assert!(rt; check(&alloc, PHRASES, None, PHRASES_REPORTED)?);
    Ok(())
}

/// Four games with null moves: in variations, as a move of the main line, behind a variation, and as an en dash.
const NULL_MOVES: &[u8] = b"[FEN \"8/8/8/4k3/8/4K3/4P3/8 w - - 0 1\"]
[Result \"1-0\"]

1. Kd3 (1. -- Kf4 2. e3) (1. Kf3 -- 2. Kg3) 1... Kd5 1-0

[FEN \"8/8/8/4k3/8/4K3/4P3/8 w - - 0 1\"]
[Result \"1-0\"]

1. Kd3 -- 2. Kc4 1-0

[FEN \"8/8/8/4k3/8/4K3/4P3/8 w - - 0 1\"]
[Result \"1-0\"]

1. Kd3 (1. Kf3) Z0 1-0

[FEN \"8/8/8/4k3/8/4K3/4P3/8 w - - 0 1\"]
[Result \"1-0\"]

1. Kd3 \xe2\x80\x93 2. Kc4 1-0
";

const NULL_MOVES_REPORTED: &[u8] = b"#! game 1, line 1: stipulated by its tag Result
#! not taken over: null moves 2, moves behind 3
position 8/8/8/4k3/8/4K3/4P3/8 w - - 0 1
stipulate white win
tag Event ?
tag Site ?
tag Date ????.??.??
tag Round ?
tag White ?
tag Black ?
insert root Kd3
insert root Kf3
insert 0 Kd5
pgn

#! game 2, line 9, column 8: NullMove

#! game 3, line 14, column 17: NullMove

#! game 4, line 19, column 8: NullMove

#! games 4, studies 1
";

/// A null move ends its variation; with one in its main line a game is left out.
#[test]
fn a_main_line_has_no_null_move(rt: HostRuntime) -> Result<(), Fail> {
    let alloc = rt.alloc();
    assert!(rt; check(&alloc, NULL_MOVES, None, NULL_MOVES_REPORTED)?);
    Ok(())
}

/// Four games with text behind the result: a move, a parenthesis, a null move, and words and comments without a move.
const BEHIND: &[u8] = b"[FEN \"8/8/8/4k3/8/4K3/4P3/8 w - - 0 1\"]
[Result \"1-0\"]

1. Kd3 1-0 1... Kd5

[White \"Horwitz, B.\"]
[FEN \"8/8/8/4k3/8/4K3/4P3/8 w - - 0 1\"]
[Result \"1-0\"]

1. Kd3 1-0 {the end}
$1 & (

[FEN \"8/8/8/4k3/8/4K3/4P3/8 w - - 0 1\"]
[Result \"1-0\"]

1. Kd3 * --

[FEN \"8/8/8/4k3/8/4K3/4P3/8 w - - 0 1\"]
[Result \"1-0\"]

1. Kd3 1-0 2. Solution, $3 {Kd5} ; (Kd5
[x {an open comment (Kd5
";

const BEHIND_REPORTED: &[u8] = b"#! game 1, line 4, column 17: BehindResult

#! game 2, line 11, column 6 (Horwitz, B.): BehindResult

#! game 3, line 16, column 10: BehindResult

#! game 4, line 18: stipulated by its tag Result
#! behind the result: line 21, column 12
position 8/8/8/4k3/8/4K3/4P3/8 w - - 0 1
stipulate white win
tag Event ?
tag Site ?
tag Date ????.??.??
tag Round ?
tag White ?
tag Black ?
insert root Kd3
pgn

#! games 4, studies 1
";

/// With a move or a parenthesis behind its result a game is left out; other text there is reported by its place.
#[test]
fn behind_a_result_there_are_no_moves(rt: HostRuntime) -> Result<(), Fail> {
    let alloc = rt.alloc();
    assert!(rt; check(&alloc, BEHIND, None, BEHIND_REPORTED)?);
    Ok(())
}

/// Whenever memory is refused, the import ends, and never returns another script.
#[test]
fn each_growth_may_be_refused(rt: HostRuntime) -> Result<(), Fail> {
    let mut refused = 0usize;
    let mut done = false;
    for step in 0..400usize {
        let heap = LocalHeap::new(rt.alloc(), 64 + step * 64)?;
        match import(&heap, TWO, None) {
            Ok(script) => {
                assert!(rt; script.as_slice() == TWO_REPORTED);
                done = true;
                break;
            }
            Err(_) => refused = refused.saturating_add(1),
        }
    }
    assert!(rt; done && refused > 20);
    Ok(())
}

/// Three games that are left out: one names its author with a colon, one in Latin 1, and one does not name any.
const AUTHORS: &[u8] = b"[Event \"a\"]
[White \"Kasparyan: G.\"]
[FEN \"4k3/8/8/8/8/8/4P3/3QKR2 w - - 0 1\"]
[Result \"1-0\"]

*

[Event \"b\"]
[White \"Sokol\xf3v, M.\"]
[FEN \"8/8/8/4k3/8/4K3/4P3/8 w - - 0 1\"]
[Result \"1-0\"]

1. Kb6 1-0

[White \"?\"]
[FEN \"8/8/8/4k3/8/4K3/4P3/8 w - - 0 1\"]

1. Kd3 *
";

const AUTHORS_REPORTED: &[u8] =
    b"#! game 1, line 1 (Kasparyan, G.; \"a\"): left out: 5 men, never four or fewer

#! game 2, line 13, column 4 (Sokolov, M.; \"b\"): NoSuchMove at Kb6

#! game 3, line 15: NoStipulation

#! games 3, studies 0
";

/// The remark on a game that is left out has the author's name as the script would have it, with a comma for a colon.
#[test]
fn games_that_are_left_out_have_their_authors(rt: HostRuntime) -> Result<(), Fail> {
    let alloc = rt.alloc();
    assert!(rt; check(&alloc, AUTHORS, None, AUTHORS_REPORTED)?);
    Ok(())
}
