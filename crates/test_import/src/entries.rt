//! Entries of a tourney as a judge receives them: a study of lichess, one of ChessBase in Latin 1, Scid in UTF-8, byte order marks within the file. The
//! expected script was laid out from the games by a script of its own, with its own rules of the moves, and the stipulations and reasons by hand.
use crate::games::check;
use std::test::Fail;

/// Two nested variations, arrows and glyphs; Saavedra's study in Latin 1; Black's draw; a FEN of seven ranks; an illegal move in a side line; five men,
/// six, and seven; and a study without a solution.
const ENTRIES: &[u8] = b"\xef\xbb\xbf[Event \"Judge tourney 2026: Chapter 1\"]
[Site \"https://lichess.org/study/abcd1234/efgh5678\"]
[Result \"*\"]
[Variant \"From Position\"]
[ECO \"?\"]
[Opening \"?\"]
[Annotator \"https://lichess.org/@/reti_fan\"]
[FEN \"7K/8/k1P5/7p/8/8/8/8 w - - 0 1\"]
[SetUp \"1\"]
[UTCDate \"2026.11.02\"]
[UTCTime \"10:11:12\"]
[StudyName \"Judge tourney 2026\"]
[ChapterName \"R\xc3\xa9ti, Richard \xe2\x80\x93 draw\"]

{ White to play and draw. [%csl Gc6,Rh5][%cal Gh8e5] }
1. Kg7! { [%cal Gg7f6] The diagonal march. } 1... h4 (1... Kb6 2. Kf6! h4 3. Ke5!! Kxc6 (3... h3 4. Kd6) 4. Kf4) 2. Kf6 $1 Kb6 (2... h3 3. Ke7 $1 \
    $14) 3. Ke5!! Kxc6 4. Kf4 *

[Event \"H\xe4rtel Gedenkturnier\"]\r
[Site \"K\xf6ln\"]\r
[Date \"2026.??.??\"]\r
[Round \"2\"]\r
[White \"M\xfcller, J\xfcrgen\"]\r
[Black \"?\"]\r
[Result \"1-0\"]\r
[Annotator \"M\xfcller\"]\r
[SetUp \"1\"]\r
[FEN \"8/8/1KP5/3r4/8/8/8/k7 w - - 0 1\"]\r
[PlyCount \"13\"]\r
[EventDate \"2026.??.??\"]\r
\r
{[%evp 0,13,100,100] Gewinn} 1. c7 Rd6+ 2. Kb5 $1 (2. Kc5 $2 Rd1 $1 {und ...Rc1} 3. c8=Q Rc1+) (2. Kb7\r
$2 Rd7) 2... Rd5+ 3. Kb4 Rd4+ 4. Kb3 Rd3+ 5. Kc2 $1 Rd4 $1 6. c8=R $3 (6. c8=Q\r
Rc4+ 7. Qxc4 $10 {patt}) 6... Ra4 7. Kb3 $18 1-0\r
\r

[Event \"Judge tourney 2026\"]
[Site \"?\"]
[Date \"2026.??.??\"]
[Round \"3\"]
[White \"Nov\xc3\xa1k, Ji\xc5\x99\xc3\xad\"]
[Black \"?\"]
[Result \"1/2-1/2\"]
[WhiteElo \"0\"]
[BlackElo \"0\"]
[ECO \"A00\"]
[FEN \"8/8/8/3k4/8/3K4/3P4/8 b - - 0 1\"]

{Black to move and draw} 1... Ke5 (1... Kc5 2. Kc3) 2. Kc4 Kd6 3. Kd4 Kc6 (3... Kd7 4. Kd5) (3... Ke6 $2 {fails} 4. Kc5)
1/2-1/2

\xef\xbb\xbf[Event \"Entry 5\"]
[White \"Kowalski, \xc5\x81ukasz\"]
[Result \"1-0\"]
[SetUp \"1\"]
[FEN \"8/8/8/3k4/8/3K4/3PP3 w - - 0 1\"]

{White to win} 1. Ke3 Ke5 2. d4+ 1-0

[Event \"Entry 6\"]
[White \"Smith, John\"]
[Result \"1-0\"]
[SetUp \"1\"]
[FEN \"8/8/8/6k1/8/8/1P5K/8 w - - 0 1\"]

1. Kg3! Kf5 2. Kf3 Ke5 (2... Kg5 3. Ke4 Kf6 4. Kd5 Ke7 5. Kc6 Kd8 (5... Ke6 6. b4 Ke7 7. b6) 6. Kb7) 3. Ke3 Kd5 4. Kd3 Kc5 5. Kc3 Kb5 6. Kb3 1-0

[Event \"Entry 7\"]
[White \"Kasparyan, G.\"]
[Result \"1-0\"]
[SetUp \"1\"]
[FEN \"8/8/8/8/1k6/3p4/3P1P2/3K4 w - - 0 1\"]

1. f4 Kc4 2. f5 Kd5 3. f6 Ke6 1-0

[Event \"Entry 8\"]
[White \"Troitzky, A.\"]
[Result \"1/2-1/2\"]
[SetUp \"1\"]
[FEN \"8/8/8/pp6/1k6/8/PP6/1K6 w - - 0 1\"]

1. Kc2 a4 1/2-1/2

[Event \"Entry 9\"]
[White \"Anon\"]
[Result \"*\"]
[SetUp \"1\"]
[FEN \"4k3/3ppp2/8/8/8/8/4PP2/4K3 w - - 0 1\"]

{White to play and win} 1. e4 *

[Event \"Entry 11\"]
[White \"Smith, John\"]
[Result \"1-0\"]
[SetUp \"1\"]
[FEN \"8/8/8/8/8/1k6/1P6/1K6 w - - 0 1\"]

{White to win. Solution to follow.} 1-0
";

const ENTRIES_SCRIPT: &[u8] = b"#! game 1, line 1: stipulated by its comment
#! not taken over: comments 2, NAGs 7, tags 8
position 7K/8/k1P5/7p/8/8/8/8 w - - 0 1
stipulate white draw
tag Event Judge tourney 2026: Chapter 1
tag Site https://lichess.org/study/abcd1234/efgh5678
tag Date ????.??.??
tag Round ?
tag White ?
tag Black ?
insert root Kg7
insert 0 h4
insert 0 Kb6
insert 0.1 Kf6
insert 0.1.0 h4
insert 0.1.0.0 Ke5
insert 0.1.0.0.0 Kxc6
insert 0.1.0.0.0 h3
insert 0.1.0.0.0.1 Kd6
insert 0.1.0.0.0.0 Kf4
insert 0.0 Kf6
insert 0.0.0 Kb6
insert 0.0.0 h3
insert 0.0.0.1 Ke7
insert 0.0.0.0 Ke5
insert 0.0.0.0.0 Kxc6
insert 0.0.0.0.0.0 Kf4
pgn

#! game 2, line 18: stipulated by its tag Result
#! not taken over: comments 3, NAGs 9, tags 3
#! Event was: H\xe4rtel Gedenkturnier
#! read as Latin 1: Event
#! Site was: K\xf6ln
#! read as Latin 1: Site
#! White was: M\xfcller, J\xfcrgen
#! read as Latin 1: White
position 8/8/1KP5/3r4/8/8/8/k7 w - - 0 1
stipulate white win
tag Event Hartel Gedenkturnier
tag Site Koln
tag Date 2026.??.??
tag Round 2
tag White Muller, Jurgen
tag Black ?
insert root c7
insert 0 Rd6+
insert 0.0 Kb5
insert 0.0 Kc5
insert 0.0.1 Rd1
insert 0.0.1.0 c8=Q
insert 0.0.1.0.0 Rc1+
insert 0.0 Kb7
insert 0.0.2 Rd7
insert 0.0.0 Rd5+
insert 0.0.0.0 Kb4
insert 0.0.0.0.0 Rd4+
insert 0.0.0.0.0.0 Kb3
insert 0.0.0.0.0.0.0 Rd3+
insert 0.0.0.0.0.0.0.0 Kc2
insert 0.0.0.0.0.0.0.0.0 Rd4
insert 0.0.0.0.0.0.0.0.0.0 c8=R
insert 0.0.0.0.0.0.0.0.0.0 c8=Q
insert 0.0.0.0.0.0.0.0.0.0.1 Rc4+
insert 0.0.0.0.0.0.0.0.0.0.1.0 Qxc4
insert 0.0.0.0.0.0.0.0.0.0.0 Ra4
insert 0.0.0.0.0.0.0.0.0.0.0.0 Kb3
pgn

#! game 3, line 36: stipulated by its comment
#! not taken over: comments 2, NAGs 1, tags 3
#! White was: Nov\xc3\xa1k, Ji\xc5\x99\xc3\xad
position 8/8/8/3k4/8/3K4/3P4/8 b - - 0 1
stipulate black draw
tag Event Judge tourney 2026
tag Site ?
tag Date 2026.??.??
tag Round 3
tag White Novak, Jiri
tag Black ?
insert root Ke5
insert root Kc5
insert 1 Kc3
insert 0 Kc4
insert 0.0 Kd6
insert 0.0.0 Kd4
insert 0.0.0.0 Kc6
insert 0.0.0.0 Kd7
insert 0.0.0.0.1 Kd5
insert 0.0.0.0 Ke6
insert 0.0.0.0.2 Kc5
pgn

#! game 4, line 51 (Kowalski, Lukasz; \"Entry 5\"): Placement

#! game 5, line 65, column 90 (Smith, John; \"Entry 6\"): NoSuchMove at b6

#! game 6, line 67 (Kasparyan, G.; \"Entry 7\"): left out: 5 men, never four or fewer

#! game 7, line 75 (Troitzky, A.; \"Entry 8\"): left out: 6 men, never four or fewer

#! game 8, line 83 (Anon; \"Entry 9\"): left out: 7 men, never four or fewer

#! game 9, line 91: stipulated by its comment
#! not taken over: comments 1
position 8/8/8/8/8/1k6/1P6/1K6 w - - 0 1
stipulate white win
tag Event Entry 11
tag Site ?
tag Date ????.??.??
tag Round ?
tag White Smith, John
tag Black ?
pgn

#! games 9, studies 4
";

#[test]
fn entries_are_read_or_named(rt: HostRuntime) -> Result<(), Fail> {
    let alloc = rt.alloc();
    assert!(rt; check(&alloc, ENTRIES, None, ENTRIES_SCRIPT)?);
    Ok(())
}
