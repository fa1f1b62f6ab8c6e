//! Small games of a judge, each aimed at one silent misreading. The expected rows were laid out from the games by a script of their own, and the
//! stipulations and reasons by hand, by the rules of docs/IMPORT.md. m04, m14 and f04 are left out for slips of their own: no such move, a king that may
//! be taken, the wrong side to move.
use crate::digest::is_digest;
use std::test::Fail;

/// s: stipulations; m: moves; f: FENs; t: tags and the borders of games.
const TRAPS: &[u8] = b"[Event \"s01\"]
[White \"A\"]
[Result \"1-0\"]
[FEN \"8/8/8/6k1/8/8/1P5K/8 w - - 0 1\"]

{White to play and win} 1. Kg3 Kf5 2. Kf3 1-0

[Event \"s03 tag 1-0, moves end 1/2-1/2\"]
[White \"A\"]
[Result \"1-0\"]
[FEN \"8/8/8/6k1/8/8/1P5K/8 w - - 0 1\"]

1. Kg3 Kf5 2. Kf3 1/2-1/2

[Event \"s05 {+} Result *\"]
[White \"A\"]
[Result \"*\"]
[FEN \"8/8/8/6k1/8/8/1P5K/8 w - - 0 1\"]

{+} 1. Kg3 Kf5 2. Kf3 *

[Event \"s07 {#3} Result 1-0\"]
[White \"A\"]
[Result \"1-0\"]
[FEN \"8/8/8/6k1/8/8/1P5K/8 w - - 0 1\"]

{#3} 1. Kg3 Kf5 2. Kf3 1-0

[Event \"s09 {White mates in 3 moves}\"]
[White \"A\"]
[Result \"1-0\"]
[FEN \"8/8/8/6k1/8/8/1P5K/8 w - - 0 1\"]

{White mates in 3 moves} 1. Kg3 Kf5 2. Kf3 1-0

[Event \"s11 {Win} Result 1/2\"]
[White \"A\"]
[Result \"1/2-1/2\"]
[FEN \"8/8/8/6k1/8/8/1P5K/8 w - - 0 1\"]

{Win} 1. Kg3 Kf5 2. Kf3 1/2-1/2

[Event \"s13 {BTM, White draws} b\"]
[White \"A\"]
[Result \"1/2-1/2\"]
[FEN \"8/8/8/4k3/8/3K4/3P4/8 b - - 0 1\"]

{BTM, White draws} 1... Kd5 1/2-1/2

[Event \"s15 Black to move Result 1/2 (Black draws by play)\"]
[White \"A\"]
[Result \"1/2-1/2\"]
[FEN \"8/8/8/4k3/8/3K4/3P4/8 b - - 0 1\"]

1... Kd5 2. Ke3 Ke5 1/2-1/2

[Event \"s17 {White to win in 13}\"]
[White \"A\"]
[Result \"1-0\"]
[FEN \"8/8/8/6k1/8/8/1P5K/8 w - - 0 1\"]

{White to win in 13} 1. Kg3 Kf5 2. Kf3 1-0

[Event \"s19 tag Stipulation Draw Result 1-0\"]
[White \"A\"]
[Result \"1-0\"]
[Stipulation \"Draw\"]
[FEN \"7K/8/k1P5/7p/8/8/8/8 w - - 0 1\"]

1. Kg7 h4 2. Kf6 1-0

[Event \"s21 tag Stipulation #3 no\"]
[White \"A\"]
[Result \"1-0\"]
[Stipulation \"#3\"]
[FEN \"8/8/8/6k1/8/8/1P5K/8 w - - 0 1\"]

1. Kg3 Kf5 2. Kf3 1-0

[Event \"s23 {Black wins} said of a refutation\"]
[White \"A\"]
[Result \"1-0\"]
[FEN \"8/8/8/6k1/8/8/1P5K/8 w - - 0 1\"]

{Black wins: after 1.b4? Kf4. White to win} 1. Kg3 Kf5 2. Kf3 1-0

[Event \"s25 comment after 1st move *\"]
[White \"A\"]
[Result \"*\"]
[FEN \"8/8/8/6k1/8/8/1P5K/8 w - - 0 1\"]

1. Kg3 {White to win} Kf5 *

[Event \"s27 Mate in 13, is mate in ?\"]
[White \"A\"]
[Result \"1-0\"]
[FEN \"8/8/8/6k1/8/8/1P5K/8 w - - 0 1\"]

{White to mate in 30} 1. Kg3 Kf5 2. Kf3 1-0

[Event \"s29 {White to move and win} ok *\"]
[White \"A\"]
[Result \"*\"]
[FEN \"8/8/8/6k1/8/8/1P5K/8 w - - 0 1\"]

{White to move and win} 1. Kg3 Kf5 2. Kf3 *

[Event \"s31 {Blancs jouent et gagnent} *\"]
[White \"A\"]
[Result \"*\"]
[FEN \"8/8/8/6k1/8/8/1P5K/8 w - - 0 1\"]

{Les blancs jouent et gagnent} 1. Kg3 Kf5 2. Kf3 *

[Event \"s33 {White to play and win !} *\"]
[White \"A\"]
[Result \"*\"]
[FEN \"8/8/8/6k1/8/8/1P5K/8 w - - 0 1\"]

{White to play and win !} 1. Kg3 Kf5 2. Kf3 *

[Event \"s35 {White to win, Black to move}\"]
[White \"A\"]
[Result \"*\"]
[FEN \"8/8/8/3k4/8/3K4/3P4/8 b - - 0 1\"]

{White to win, Black to move} 1... Ke5 2. Ke3 *

[Event \"m02 Dutch Pc5 for a knight\"]
[White \"A\"]
[Result \"1/2-1/2\"]
[FEN \"8/8/5k2/8/N7/2N5/8/K7 w - - 0 1\"]

1. Pc5 Kf6 2. Pe4 1/2-1/2

[Event \"m04 French Rc2 = roi, rook c8\"]
[White \"A\"]
[Result \"1-0\"]
[FEN \"2R5/8/5k2/8/8/8/8/1K6 w - - 0 1\"]

1. Rc2 Kf6 1-0

[Event \"m06 var without number\"]
[White \"A\"]
[Result \"1-0\"]
[FEN \"8/8/8/6k1/8/8/1P5K/8 w - - 0 1\"]

1. Kg3 Kf5 (Kh5 2. Kf4) 2. Kf3 1-0

[Event \"m10 N\"]
[White \"A\"]
[Result \"1-0\"]
[FEN \"8/8/8/6k1/8/8/1P5K/8 w - - 0 1\"]

1. Kg3 N Kf5 2. Kf3 1-0

[Event \"m12 threat null\"]
[White \"A\"]
[Result \"1-0\"]
[FEN \"8/8/8/6k1/8/8/1P5K/8 w - - 0 1\"]

1. Kg3 (1. -- Kf4) Kf5 2. Kf3 1-0

[Event \"m14 bc3 with bishop b2\"]
[White \"A\"]
[Result \"1-0\"]
[FEN \"8/8/5k2/8/8/8/1B6/K7 w - - 0 1\"]

1. bc3 Kf6 1-0

[Event \"m16 f8(Q)\"]
[White \"A\"]
[Result \"1-0\"]
[FEN \"8/5P2/7k/8/8/8/8/K7 w - - 0 1\"]

1.f8(Q) Kh6 1-0

[Event \"m18 long\"]
[White \"A\"]
[Result \"1-0\"]
[FEN \"8/8/8/6k1/8/8/1P5K/8 w - - 0 1\"]

1.Kh2-g3 Kg5-f5 2.Kg3-f3 1-0

[Event \"m20 kg3 lower\"]
[White \"A\"]
[Result \"1-0\"]
[FEN \"8/8/8/6k1/8/8/1P5K/8 w - - 0 1\"]

1. kg3 kf5 2. kf3 1-0

[Event \"m22 twin b)\"]
[White \"A\"]
[Result \"1-0\"]
[FEN \"8/8/8/6k1/8/8/1P5K/8 w - - 0 1\"]

1. Kg3 Kf5 2. Kf3 {b) Kh2->h3: 1. Kg4} 1-0

[Event \"m24 nested deep\"]
[White \"A\"]
[Result \"1-0\"]
[FEN \"8/8/8/6k1/8/8/1P5K/8 w - - 0 1\"]

1. Kg3 Kf5 (1... Kh5 2. Kf4 (2. Kf3? Kg5 (2... Kh4 3. Kf4)) Kg6 3. Ke5) 2. Kf3 1-0

[Event \"m26 any\"]
[White \"A\"]
[Result \"1-0\"]
[FEN \"8/8/8/6k1/8/8/1P5K/8 w - - 0 1\"]

1. Kg3 ~ 2. Kf3 1-0

[Event \"m30 draw symbol\"]
[White \"A\"]
[Result \"1/2-1/2\"]
[FEN \"7K/8/k1P5/7p/8/8/8/8 w - - 0 1\"]

1. Kg7 h4 2. Kf6 =  1/2-1/2

[Event \"m34 ends with Black's refutation main\"]
[White \"A\"]
[Result \"1-0\"]
[FEN \"8/8/8/6k1/8/8/1P5K/8 w - - 0 1\"]

1. b4 Kf6 1-0

[Event \"f02 placement only\"]
[White \"A\"]
[Result \"1-0\"]
[FEN \"8/8/8/6k1/8/8/1P5K/8\"]

1. Kg3 Kf5 2. Kf3 1-0

[Event \"f04 wrong side to move b\"]
[White \"A\"]
[Result \"1-0\"]
[FEN \"8/8/8/6k1/8/8/1P5K/8 b - - 0 1\"]

1. Kg3 Kf5 2. Kf3 1-0

[Event \"f06 ep junk\"]
[White \"A\"]
[Result \"1-0\"]
[FEN \"8/8/8/6k1/8/8/1P5K/8 w - e3 0 1\"]

1. Kg3 Kf5 2. Kf3 1-0

[Event \"f08 pawn on 1st\"]
[White \"A\"]
[Result \"1-0\"]
[FEN \"8/8/8/6k1/8/8/7K/1P6 w - - 0 1\"]

1. Kg3 Kf5 2. Kf3 1-0

[Event \"f10 opp in check\"]
[White \"A\"]
[Result \"1-0\"]
[FEN \"8/8/8/6k1/8/8/1Q5K/6R1 w - - 0 1\"]

1. Kh3 1-0

[White \"Author T02\"]
[Result \"1-0\"]
[FEN \"8/8/8/6k1/8/8/1P5K/8 w - - 0 1\"]

1. Kg3 1-0

[Event \"t04\"]
[White \"Pervakov, Oleg & Afek, Yochanan & Slumstrup Nielsen, Steffen & Minski, Martin\"]
[Result \"1-0\"]
[FEN \"8/8/8/6k1/8/8/1P5K/8 w - - 0 1\"]

1. Kg3 Kf5 2. Kf3 1-0

[Event \"t06\"]
[White \"\xd2\xf0\xee\xe8\xf6\xea\xe8\xe9\"]
[Result \"1-0\"]
[FEN \"8/8/8/6k1/8/8/1P5K/8 w - - 0 1\"]

1. Kg3 1-0

[Event \"t08\"]
[White \"A\"]
[Result \"1-0\"]
[FEN \"8/8/8/6k1/8/8/1P5K/8 w - - 0 1\"]
[FEN \"7K/8/k1P5/7p/8/8/8/8 w - - 0 1\"]

1. Kg3 1-0

[Event \"t10\"]
[White \"White to win\"]
[Black \"Author, T10\"]
[Result \"1-0\"]
[FEN \"8/8/8/6k1/8/8/1P5K/8 w - - 0 1\"]

1. Kg3 1-0

[Event \"t12\"]
[White \"A\"]
[Result \"1-0\"]
[FEN \"8/8/8/6k1/8/8/1P5K/8 w - - 0 1\"]

1. Kg3 1-0
[Event \"t14\"]
[White \"A\"]
[Result \"1-0\"]
[FEN \"8/8/8/6k1/8/8/1P5K/8 w - - 0 1\"]

1. Kg3 Kf5 2. Kf3 1-0

  [Event \"t15\"]
  [White \"Author T15\"]
  [Result \"1-0\"]
  [FEN \"8/8/8/6k1/8/8/1P5K/8 w - - 0 1\"]

1. Kg3 1-0

[Event \"t18\"]
[White \"Author T18\"]
[Result \"1-0\"]
[FEN \"8/8/8/6k1/8/8/1P5K/8 w - - 0 1\"]

1. Kg3 1-0

[Event \"x\"] of the year} Kf5 1-0

[Event \"t20\"]
[Author \"Author, T20\"]
[Result \"1-0\"]
[FEN \"8/8/8/6k1/8/8/1P5K/8 w - - 0 1\"]

1. Kg3 1-0

[Event \"t22\"]
[White \"A\"]
[Result \"1/2-1/2\"]
[FEN \"8/8/8/6k1/8/8/1P5K/8 w - - 0 1\"]

{White to draw} 1. b4 1/2-1/2

[Event \"m28 ep\"]
[White \"A\"]
[Result \"1-0\"]
[FEN \"8/8/8/6k1/p7/8/1P5K/8 w - - 0 1\"]

1. b4 axb3 e.p. 1-0
";

const TRAPS_SEEN: &[u8] = b"#! game 1, line 1: stipulated by its comment
#! not taken over: comments 1
position 8/8/8/6k1/8/8/1P5K/8 w - - 0 1 white win Event s01 White A Kg3 Kf5 Kf3
#! the stipulation differs from its result
position 8/8/8/6k1/8/8/1P5K/8 w - - 0 1 white win Event s03 tag 1-0, moves end 1/2-1/2 White A Kg3 Kf5 Kf3
#! game 3, line 15: stipulated by its comment
#! not taken over: comments 1
position 8/8/8/6k1/8/8/1P5K/8 w - - 0 1 white win Event s05 {+} Result * White A Kg3 Kf5 Kf3
#! game 4, line 22: stipulated by its comment
#! not taken over: comments 1
position 8/8/8/6k1/8/8/1P5K/8 w - - 0 1 white mate 3 Event s07 {#3} Result 1-0 White A Kg3 Kf5 Kf3
#! game 5, line 29: stipulated by its comment
#! not taken over: comments 1
position 8/8/8/6k1/8/8/1P5K/8 w - - 0 1 white mate 3 Event s09 {White mates in 3 moves} White A Kg3 Kf5 Kf3
#! game 6, line 36: stipulated by its comment
#! the stipulation differs from its tag Result
#! the stipulation differs from its result
#! not taken over: comments 1
position 8/8/8/6k1/8/8/1P5K/8 w - - 0 1 white win Event s11 {Win} Result 1/2 White A Kg3 Kf5 Kf3
#! not taken over: comments 1
position 8/8/8/4k3/8/3K4/3P4/8 b - - 0 1 white draw Event s13 {BTM, White draws} b White A Kd5
position 8/8/8/4k3/8/3K4/3P4/8 b - - 0 1 white draw Event s15 Black to move Result 1/2 (Black draws by play) White A Kd5 Ke3 Ke5
#! game 9, line 57 (A; \"s17 {White to win in 13}\"): StipulationUnread at its comment
#! game 10, line 64: stipulated by its tag Stipulation
#! the stipulation differs from its tag Result
#! the stipulation differs from its result
position 7K/8/k1P5/7p/8/8/8/8 w - - 0 1 white draw Event s19 tag Stipulation Draw Result 1-0 White A Kg7 h4 Kf6
#! game 11, line 72: stipulated by its tag Stipulation
position 8/8/8/6k1/8/8/1P5K/8 w - - 0 1 white mate 3 Event s21 tag Stipulation #3 no White A Kg3 Kf5 Kf3
#! game 12, line 80: stipulated by its comment
#! the stipulation differs from its tag Result
#! the stipulation differs from its result
#! not taken over: comments 1
position 8/8/8/6k1/8/8/1P5K/8 w - - 0 1 black win Event s23 {Black wins} said of a refutation White A Kg3 Kf5 Kf3
#! game 13, line 87 (A; \"s25 comment after 1st move *\"): NoStipulation
#! game 14, line 94: stipulated by its comment
#! not taken over: comments 1
position 8/8/8/6k1/8/8/1P5K/8 w - - 0 1 white mate 30 White A Kg3 Kf5 Kf3
#! game 15, line 101: stipulated by its comment
#! not taken over: comments 1
position 8/8/8/6k1/8/8/1P5K/8 w - - 0 1 white win Event s29 {White to move and win} ok * White A Kg3 Kf5 Kf3
#! game 16, line 108 (A; \"s31 {Blancs jouent et gagnent} *\"): NoStipulation
#! game 17, line 115: stipulated by its comment
#! not taken over: comments 1
position 8/8/8/6k1/8/8/1P5K/8 w - - 0 1 white win Event s33 {White to play and win !} * White A Kg3 Kf5 Kf3
#! game 18, line 122: stipulated by its comment
#! not taken over: comments 1
position 8/8/8/3k4/8/3K4/3P4/8 b - - 0 1 white win Event s35 {White to win, Black to move} White A Ke5 Ke3
#! game 19, line 134, column 4 (A; \"m02 Dutch Pc5 for a knight\"): NoSuchMove at Pc5
#! game 20, line 141, column 8 (A; \"m04 French Rc2 = roi, rook c8\"): NoSuchMove at Kf6
position 8/8/8/6k1/8/8/1P5K/8 w - - 0 1 white win Event m06 var without number White A Kg3 Kf5 Kh5 Kf4 Kf3
#! game 22, line 155, column 8 (A; \"m10 N\"): NotSan at N
#! not taken over: null moves 1, moves behind 1
position 8/8/8/6k1/8/8/1P5K/8 w - - 0 1 white win Event m12 threat null White A Kg3 Kf5 Kf3
#! game 24, line 164 (A; \"m14 bc3 with bishop b2\"): OpponentInCheck
#! game 25, line 176, column 3 (A; \"m16 f8(Q)\"): NoSuchMove at f8
position 8/8/8/6k1/8/8/1P5K/8 w - - 0 1 white win Event m18 long White A Kg3 Kf5 Kf3
#! game 27, line 190, column 4 (A; \"m20 kg3 lower\"): NotSan at kg3
#! not taken over: comments 1
position 8/8/8/6k1/8/8/1P5K/8 w - - 0 1 white win Event m22 twin b) White A Kg3 Kf5 Kf3
#! not taken over: NAGs 1
position 8/8/8/6k1/8/8/1P5K/8 w - - 0 1 white win Event m24 nested deep White A Kg3 Kf5 Kh5 Kf4 Kf3 Kg5 Kh4 Kf4 Kg6 Ke5 Kf3
#! game 30, line 211, column 10 (A; \"m26 any\"): Numbering at 2
#! not taken over: NAGs 1
position 7K/8/k1P5/7p/8/8/8/8 w - - 0 1 white draw Event m30 draw symbol White A Kg7 h4 Kf6
position 8/8/8/6k1/8/8/1P5K/8 w - - 0 1 white win Event m34 ends with Black's refutation main White A b4 Kf6
#! game 33, line 227 (A; \"f02 placement only\"): FieldCount
#! game 34, line 239, column 4 (A; \"f04 wrong side to move b\"): NoSuchMove at Kg3
#! game 35, line 241 (A; \"f06 ep junk\"): EnPassantImpossible
#! game 36, line 248 (A; \"f08 pawn on 1st\"): PawnOnEndRank
#! game 37, line 255 (A; \"f10 opp in check\"): OpponentInCheck
position 8/8/8/6k1/8/8/1P5K/8 w - - 0 1 white win White Author T02 Kg3
#! White was: Pervakov, Oleg & Afek, Yochanan & Slumstrup Nielsen, Steffen & Minski, Martin
position 8/8/8/6k1/8/8/1P5K/8 w - - 0 1 white win Event t04 White Pervakov, Oleg & Afek, Yochanan & Slumstrup Nielsen, Steffen Kg3 Kf5 Kf3
#! White was: \xd2\xf0\xee\xe8\xf6\xea\xe8\xe9
#! read as Latin 1: White
position 8/8/8/6k1/8/8/1P5K/8 w - - 0 1 white win Event t06 White Odieoeee Kg3
#! game 41, line 282 (A; \"t08\"): TagTwice at FEN
position 8/8/8/6k1/8/8/1P5K/8 w - - 0 1 white win Event t10 White White to win Black Author, T10 Kg3
position 8/8/8/6k1/8/8/1P5K/8 w - - 0 1 white win Event t12 White A Kg3
position 8/8/8/6k1/8/8/1P5K/8 w - - 0 1 white win Event t14 White A Kg3 Kf5 Kf3
position 8/8/8/6k1/8/8/1P5K/8 w - - 0 1 white win Event t15 White Author T15 Kg3
position 8/8/8/6k1/8/8/1P5K/8 w - - 0 1 white win Event t18 White Author T18 Kg3
#! game 47, line 325, column 13 (\"x\"): NotSan at of
#! not taken over: tags 1
position 8/8/8/6k1/8/8/1P5K/8 w - - 0 1 white win Event t20 Kg3
#! game 49, line 334: stipulated by its comment
#! not taken over: comments 1
position 8/8/8/6k1/8/8/1P5K/8 w - - 0 1 white draw Event t22 White A b4
position 8/8/8/6k1/p7/8/1P5K/8 w - - 0 1 white win Event m28 ep White A b4 axb3
#! games 50, studies 33
";

/// No game is misread without a word.
#[test]
fn no_game_is_misread(rt: HostRuntime) -> Result<(), Fail> {
    let alloc = rt.alloc();
    assert!(rt; is_digest(&alloc, &[TRAPS], &[TRAPS_SEEN])?);
    Ok(())
}
