//! Games whose start has more than four men, or a right to castle. The expected scripts are those of an independent program, but for the places of faults and
//! the names behind them, which were written by hand.
use crate::games::check;
use crate::{published, wide_games};
use linked_list_allocator::LocalHeap;
use std::alloc::{AllocError, Allocator};
use std::test::Fail;
use study_import::{Choice, Importer, import, import_chosen};
use study_text::Text;

/// A game of four men, and others with five: mates counted from the start, numbers above 9999, a position reached twice, a try, and no tail.
const CLAIMS: &[u8] = b"[Event \"a mate is counted from the start\"]
[FEN \"8/8/8/8/8/1k6/7r/K5R1 b - - 3 40\"]
[Result \"*\"]

{Black to mate in 4}
40... Rh1 41. Rxh1 (41. Kb1 Rxg1#) *

[Event \"five men, mate in two\"]
[FEN \"k7/8/1K6/8/8/8/1p6/1RR5 w - - 0 1\"]
[Result \"*\"]

{White to mate in 2}
1. Rxb2 (1. Rc8#) (1. Rc2 Kb8 2. Rcxb2 (2. Rbxb2 Ka8 3. Rc8#)) 1... Kb8 2. Rbc2 *

[Event \"the mate is due\"]
[FEN \"k7/8/1K6/8/8/8/1p6/1RR5 w - - 0 1\"]
[Result \"*\"]

{White to mate in 1}
1. Rxb2 *

[Event \"numbers above 9999\"]
[FEN \"k7/8/1K6/8/8/8/1p6/1RR5 b - - 0 9999\"]
[Result \"1-0\"]

9999... Kb8 10000. Rxb2 1-0

[Event \"the same position twice, and a try\"]
[FEN \"k7/8/1K6/8/8/8/1p6/1RR5 w - - 0 1\"]
[Result \"1-0\"]

1. Rd1 (1. Rc3 Kb8 2. Rcc1 Ka8 3. Rxb2) 1... Kb8 2. Rdc1 (2. Rd8#) 2... Ka8 3. Rxb2 1-0

[Event \"Black draws\"]
[FEN \"k7/8/1K6/8/8/8/1p6/1RR5 b - - 0 1\"]
[Result \"*\"]

{Black to draw}
1... Kb8 2. Rxb2 (2. Rc2) *

[Event \"file and rank\"]
[FEN \"8/7k/8/8/8/2Q1Q3/8/K1Q5 w - - 0 1\"]
[Result \"1-0\"]

1. Qc3d2 (1. Qc1d2) (1. Qed2) 1-0

[Event \"two match\"]
[FEN \"8/7k/8/8/8/2Q1Q3/8/K1Q5 w - - 0 1\"]
[Result \"1-0\"]

1. Qcd2 1-0
";

const CLAIMS_SCRIPT: &[u8] = b"#! game 1, line 1: stipulated by its comment
#! not taken over: comments 1
position 8/8/8/8/8/1k6/7r/K5R1 b - - 3 40
stipulate black mate 4
tag Event a mate is counted from the start
tag Site ?
tag Date ????.??.??
tag Round ?
tag White ?
tag Black ?
insert root Rh1
insert 0 Rxh1
insert 0 Kb1
insert 0.1 Rxg1#
pgn

#! game 2, line 8: stipulated by its comment
#! not taken over: comments 1
#> position k7/8/1K6/8/8/8/1p6/1RR5 w - - 0 1
#> stipulate white mate 2
#> tag Event five men, mate in two
#> tag Site ?
#> tag Date ????.??.??
#> tag Round ?
#> tag White ?
#> tag Black ?
#> insert root Rxb2
#> insert 0 Kb8
#> insert 0.0 Rbc2
#> insert root Rc8#
#> insert root Rc2
#> insert 2 Kb8
#> insert 2.0 Rcxb2
#> insert 2.0 Rbxb2
#> insert 2.0.1 Ka8
#> insert 2.0.1.0 Rc8#

#! tail 1 of 3 of game 2, node 0, after 1. Rxb2
position k7/8/1K6/8/8/8/1R6/2R5 b - - 0 1
stipulate white mate 1
tag Event five men, mate in two
tag Site ?
tag Date ????.??.??
tag Round ?
tag White ?
tag Black ?
insert root Kb8
insert 0 Rbc2
pgn

#! tail 2 of 3 of game 2, node 2.0.0, after 2. Rcxb2, beside the solution: left out: the mate is due

#! tail 3 of 3 of game 2, node 2.0.1, after 2. Rbxb2, beside the solution: left out: the mate is due

#! game 3, line 15: stipulated by its comment
#! not taken over: comments 1
#> position k7/8/1K6/8/8/8/1p6/1RR5 w - - 0 1
#> stipulate white mate 1
#> tag Event the mate is due
#> tag Site ?
#> tag Date ????.??.??
#> tag Round ?
#> tag White ?
#> tag Black ?
#> insert root Rxb2

#! tail 1 of 1 of game 3, node 0, after 1. Rxb2: left out: the mate is due

#! game 4, line 22: stipulated by its tag Result
#> position k7/8/1K6/8/8/8/1p6/1RR5 b - - 0 9999
#> stipulate white win
#> tag Event numbers above 9999
#> tag Site ?
#> tag Date ????.??.??
#> tag Round ?
#> tag White ?
#> tag Black ?
#> insert root Kb8
#> insert 0 Rxb2

#! tail 1 of 1 of game 4, node 0.0, after 10000. Rxb2: left out: numbers above 9999

#! game 5, line 28: stipulated by its tag Result
#> position k7/8/1K6/8/8/8/1p6/1RR5 w - - 0 1
#> stipulate white win
#> tag Event the same position twice, and a try
#> tag Site ?
#> tag Date ????.??.??
#> tag Round ?
#> tag White ?
#> tag Black ?
#> insert root Rd1
#> insert 0 Kb8
#> insert 0.0 Rdc1
#> insert 0.0.0 Ka8
#> insert 0.0.0.0 Rxb2
#> insert 0.0 Rd8#
#> insert root Rc3
#> insert 1 Kb8
#> insert 1.0 Rcc1
#> insert 1.0.0 Ka8
#> insert 1.0.0.0 Rxb2

#! tail 1 of 2 of game 5, node 0.0.0.0.0, after 3. Rxb2
position k7/8/1K6/8/8/8/1R6/2R5 b - - 0 3
stipulate white win
tag Event the same position twice, and a try
tag Site ?
tag Date ????.??.??
tag Round ?
tag White ?
tag Black ?
pgn

#! tail 2 of 2 of game 5, node 1.0.0.0.0, after 3. Rxb2, beside the solution, the position of tail 1
position k7/8/1K6/8/8/8/1R6/2R5 b - - 0 3
stipulate white win
tag Event the same position twice, and a try
tag Site ?
tag Date ????.??.??
tag Round ?
tag White ?
tag Black ?
pgn

#! game 6, line 34: stipulated by its comment
#! not taken over: comments 1
#> position k7/8/1K6/8/8/8/1p6/1RR5 b - - 0 1
#> stipulate black draw
#> tag Event Black draws
#> tag Site ?
#> tag Date ????.??.??
#> tag Round ?
#> tag White ?
#> tag Black ?
#> insert root Kb8
#> insert 0 Rxb2
#> insert 0 Rc2

#! tail 1 of 1 of game 6, node 0.0, after 2. Rxb2
position 1k6/8/1K6/8/8/8/1R6/2R5 b - - 0 2
stipulate black draw
tag Event Black draws
tag Site ?
tag Date ????.??.??
tag Round ?
tag White ?
tag Black ?
pgn

#! game 7, line 41 (\"file and rank\"): left out: 5 men, never four or fewer

#! game 8, line 51, column 4 (\"two match\"): Ambiguous at Qcd2

#! games 8, studies 5
";

/// Few men with rights to castle.
const CASTLING: &[u8] = b"[Event \"a right is lost by the rook's move\"]
[FEN \"4k3/8/8/8/8/8/8/4K2R w K - 0 1\"]
[Result \"1-0\"]

1. Rh2 Kd7 2. Kd2 (2. Rh7+ Ke8) 1-0

[Event \"two rights are lost by a capture\"]
[FEN \"4k2r/8/8/8/8/8/8/4K2R w Kk - 0 1\"]
[Result \"1-0\"]

1. Rxh8+ (1. O-O Rf8 (1... Rh1+ 2. Kxh1) 2. Rxf8+ Kxf8) 1-0

[Event \"a right to the end\"]
[FEN \"4k3/8/8/8/8/8/8/4K2R w K - 0 1\"]
[Result \"1-0\"]

*

[Event \"rights that do not fit\"]
[FEN \"4k3/8/8/8/8/8/8/4K3 w K - 0 1\"]
[Result \"1-0\"]

1. Kd2 1-0

[Event \"rights in another order\"]
[FEN \"4k2r/8/8/8/8/8/8/4K2R w kK - 0 1\"]
[Result \"1-0\"]

1. Kd2 1-0
";

const CASTLING_SCRIPT: &[u8] = b"#! game 1, line 1: stipulated by its tag Result
#> position 4k3/8/8/8/8/8/8/4K2R w K - 0 1
#> stipulate white win
#> tag Event a right is lost by the rook's move
#> tag Site ?
#> tag Date ????.??.??
#> tag Round ?
#> tag White ?
#> tag Black ?
#> insert root Rh2
#> insert 0 Kd7
#> insert 0.0 Kd2
#> insert 0.0 Rh7+
#> insert 0.0.1 Ke8

#! tail 1 of 1 of game 1, node 0, after 1. Rh2
position 4k3/8/8/8/8/8/7R/4K3 b - - 1 1
stipulate white win
tag Event a right is lost by the rook's move
tag Site ?
tag Date ????.??.??
tag Round ?
tag White ?
tag Black ?
insert root Kd7
insert 0 Kd2
insert 0 Rh7+
insert 0.1 Ke8
pgn

#! game 2, line 7: stipulated by its tag Result
#> position 4k2r/8/8/8/8/8/8/4K2R w Kk - 0 1
#> stipulate white win
#> tag Event two rights are lost by a capture
#> tag Site ?
#> tag Date ????.??.??
#> tag Round ?
#> tag White ?
#> tag Black ?
#> insert root Rxh8+
#> insert root O-O
#> insert 1 Rf8
#> insert 1.0 Rxf8+
#> insert 1.0.0 Kxf8
#> insert 1 Rh1+
#> insert 1.1 Kxh1

#! tail 1 of 3 of game 2, node 0, after 1. Rxh8+
position 4k2R/8/8/8/8/8/8/4K3 b - - 0 1
stipulate white win
tag Event two rights are lost by a capture
tag Site ?
tag Date ????.??.??
tag Round ?
tag White ?
tag Black ?
pgn

#! tail 2 of 3 of game 2, node 1.0, after 1... Rf8, beside the solution
position 4kr2/8/8/8/8/8/8/5RK1 w - - 2 2
stipulate white win
tag Event two rights are lost by a capture
tag Site ?
tag Date ????.??.??
tag Round ?
tag White ?
tag Black ?
insert root Rxf8+
insert 0 Kxf8
pgn

#! tail 3 of 3 of game 2, node 1.1, after 1... Rh1+, beside the solution
position 4k3/8/8/8/8/8/8/5RKr w - - 2 2
stipulate white win
tag Event two rights are lost by a capture
tag Site ?
tag Date ????.??.??
tag Round ?
tag White ?
tag Black ?
insert root Kxh1
pgn

#! game 3, line 13 (\"a right to the end\"): left out: 3 men, castling rights to the end

#! game 4, line 19 (\"rights that do not fit\"): Castling

#! game 5, line 25 (\"rights in another order\"): Castling

#! games 5, studies 4
";

/// Signs of check and mate that are wrong, and a castling over an attacked square.
const SIGNS: &[u8] = b"[Event \"signs\"]
[FEN \"4k3/8/8/8/8/8/8/4K2R w K - 0 1\"]
[Result \"1/2-1/2\"]

1. O-O+ Ke7 2. Rf7# Kxf7 1/2-1/2

[Event \"an attacked square\"]
[FEN \"4k2r/8/8/8/8/8/8/4K1R1 w k - 0 1\"]
[Result \"1-0\"]

1. Rf1 O-O 1-0
";

const SIGNS_SCRIPT: &[u8] = b"#! game 1, line 1: stipulated by its tag Result
#! not taken over: wrong signs 2
#> position 4k3/8/8/8/8/8/8/4K2R w K - 0 1
#> stipulate white draw
#> tag Event signs
#> tag Site ?
#> tag Date ????.??.??
#> tag Round ?
#> tag White ?
#> tag Black ?
#> insert root O-O
#> insert 0 Ke7
#> insert 0.0 Rf7+
#> insert 0.0.0 Kxf7

#! tail 1 of 1 of game 1, node 0, after 1. O-O
position 4k3/8/8/8/8/8/8/5RK1 b - - 1 1
stipulate white draw
tag Event signs
tag Site ?
tag Date ????.??.??
tag Round ?
tag White ?
tag Black ?
insert root Ke7
insert 0 Rf7+
insert 0.0 Kxf7
pgn

#! game 2, line 11, column 8 (\"an attacked square\"): NoSuchMove at O-O

#! games 2, studies 1
";

/// A played game without a FEN, and one with a fault behind its first tail.
const PLAYED: &[u8] = b"[Event \"short\"]
[Result \"0-1\"]

1. f3 e5 2. g4 Qh4# 0-1

[Event \"fault\"]
[FEN \"7K/8/k1P5/6r1/8/7B/8/8 w - - 0 1\"]

{White to draw} 1. Bg4 Rxg4 2. Kh7 Kc6 3. c7 1/2-1/2

[Event \"letters\"]
[FEN \"7K/8/k1P5/6r1/8/7B/8/8 w - - 0 1\"]
[Result \"1/2-1/2\"]

1. Lg4 Txg4 1/2-1/2

[Event \"crowd\"]
[FEN \"k7/pppppppp/pppppppp/8/8/8/8/K7 w - - 0 1\"]

*
";

const PLAYED_SCRIPT: &[u8] = b"#! game 1, line 1 (\"short\"): left out: 32 men, never four or fewer

#! game 2, line 9, column 36 (\"fault\"): not read: NoSuchMove at Kc6
#! game 2, line 6: stipulated by its comment
#! not taken over: comments 1
#> position 7K/8/k1P5/6r1/8/7B/8/8 w - - 0 1
#> stipulate white draw
#> tag Event fault
#> tag Site ?
#> tag Date ????.??.??
#> tag Round ?
#> tag White ?
#> tag Black ?
#> insert root Bg4
#> insert 0 Rxg4
#> insert 0.0 Kh7

#! tail 1 of 1 of game 2, node 0.0, after 1... Rxg4
position 7K/8/k1P5/8/6r1/8/8/8 w - - 0 2
stipulate white draw
tag Event fault
tag Site ?
tag Date ????.??.??
tag Round ?
tag White ?
tag Black ?
insert root Kh7
pgn

#! game 3, line 11: stipulated by its tag Result
#! letters: German
#> position 7K/8/k1P5/6r1/8/7B/8/8 w - - 0 1
#> stipulate white draw
#> tag Event letters
#> tag Site ?
#> tag Date ????.??.??
#> tag Round ?
#> tag White ?
#> tag Black ?
#> insert root Bg4
#> insert 0 Rxg4

#! tail 1 of 1 of game 3, node 0.0, after 1... Rxg4
position 7K/8/k1P5/8/6r1/8/8/8 w - - 0 2
stipulate white draw
tag Event letters
tag Site ?
tag Date ????.??.??
tag Round ?
tag White ?
tag Black ?
pgn

#! game 4, line 17 (\"crowd\"): left out: 18 men

#! games 4, studies 2
";

#[test]
fn published_studies_come_to_their_tails(rt: HostRuntime) -> Result<(), Fail> {
    let alloc = rt.alloc();
    let studies = [
        (published::LIBURKIN, published::LIBURKIN_SCRIPT),
        (published::SARYCHEV, published::SARYCHEV_SCRIPT),
        (published::LUCENA, published::LUCENA_SCRIPT),
        (published::LASKER_LADDER, published::LASKER_LADDER_SCRIPT),
        (published::CENTURINI, published::CENTURINI_SCRIPT),
        (published::PHILIDOR_RB, published::PHILIDOR_RB_SCRIPT),
    ];
    for (games, script) in studies {
        assert!(rt; check(&alloc, games, None, script)?);
    }
    Ok(())
}

#[test]
fn followed_games_come_to_their_tails(rt: HostRuntime) -> Result<(), Fail> {
    let alloc = rt.alloc();
    let games = [
        (wide_games::FEW, wide_games::FEW_SCRIPT),
        (wide_games::MIDDLE, wide_games::MIDDLE_SCRIPT),
        (wide_games::PAWNS, wide_games::PAWNS_SCRIPT),
        (wide_games::PIECES, wide_games::PIECES_SCRIPT),
    ];
    for (games, script) in games {
        assert!(rt; check(&alloc, games, None, script)?);
    }
    Ok(())
}

#[test]
fn games_with_more_men_come_to_their_tails(rt: HostRuntime) -> Result<(), Fail> {
    let alloc = rt.alloc();
    assert!(rt; check(&alloc, CLAIMS, None, CLAIMS_SCRIPT)?);
    assert!(rt; check(&alloc, CASTLING, None, CASTLING_SCRIPT)?);
    assert!(rt; check(&alloc, SIGNS, None, SIGNS_SCRIPT)?);
    Ok(())
}

/// The games that have a study are counted apart from their studies.
#[test]
fn games_and_studies_are_counted(rt: HostRuntime) -> Result<(), Fail> {
    let alloc = rt.alloc();
    let mut importer = Importer::new(&alloc, Choice::whole_file(None, false));
    let mut script = Text::new(&alloc);
    for byte in CLAIMS {
        importer.take(*byte, &mut script)?;
    }
    let imported = importer.finish(&mut script)?;
    assert!(rt; imported.met == 8 && imported.reported == 8);
    assert!(rt; imported.with_study == 4 && imported.studies == 5);
    Ok(())
}

/// A game from the initial position, one that is read up to its fault, one in German letters, and one with more than sixteen men of a side.
#[test]
fn games_of_any_start_are_read_or_named(rt: HostRuntime) -> Result<(), Fail> {
    let alloc = rt.alloc();
    let script = import_chosen(&alloc, PLAYED, Choice::whole_file(None, true))?;
    assert!(rt; script.as_slice() == PLAYED_SCRIPT);
    Ok(())
}

/// A game with these moves in each of 64 rounds, and the last words.
fn rounds<'a, A: Allocator>(
    alloc: &'a A,
    moves: &[u8],
    last: &[u8],
) -> Result<Text<'a, A>, AllocError> {
    let mut games = Text::new(alloc);
    games.add(
        b"[Event \"many\"]\n[FEN \"k7/8/1K6/8/8/8/1p6/1RR5 w - - 0 1\"]\n[Result \"1-0\"]\n\n",
    )?;
    for _ in 0..64usize {
        games.add(moves)?;
    }
    games.add(last)?;
    Ok(games)
}

/// Four endings in each round, up to the deepest ply.
#[test]
fn more_than_255_endings_are_too_many(rt: HostRuntime) -> Result<(), Fail> {
    let alloc = rt.alloc();
    let moves = b"Rd1 (Rxb2) (Rc2 Kb8 Rcxb2 (Rbxb2)) Kb8 Rdc1 (Rxb2) Ka8\n";
    let games = rounds(&alloc, moves, b"1-0\n")?;
    let expected =
        b"#! game 1, line 1 (\"many\"): left out: more than 255 endings\n\n#! games 1, studies 0\n";
    assert!(rt; check(&alloc, games.as_slice(), None, expected)?);
    Ok(())
}

/// Kings that go to and fro: the 257th ply is too deep.
#[test]
fn a_line_is_too_deep(rt: HostRuntime) -> Result<(), Fail> {
    let alloc = rt.alloc();
    let games = rounds(&alloc, b"Rd1 Kb8 Rdc1 Ka8\n", b"Rd1 1-0\n")?;
    let expected = b"#! game 1, line 69, column 1 (\"many\"): TooDeep\n\n#! games 1, studies 0\n";
    assert!(rt; check(&alloc, games.as_slice(), None, expected)?);
    Ok(())
}

/// Whenever memory is refused, the import ends, and never returns another script.
#[test]
fn each_growth_may_be_refused(rt: HostRuntime) -> Result<(), Fail> {
    let mut refused = 0usize;
    let mut done = false;
    for step in 0..400usize {
        let heap = LocalHeap::new(rt.alloc(), 64 + step * 256)?;
        match import(&heap, published::LIBURKIN, None) {
            Ok(script) => {
                assert!(rt; script.as_slice() == published::LIBURKIN_SCRIPT);
                done = true;
                break;
            }
            Err(_) => refused = refused.saturating_add(1),
        }
    }
    assert!(rt; done && refused > 20);
    Ok(())
}
