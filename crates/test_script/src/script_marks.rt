//! Studies typed line by line, with their marks and the text of the game.
use crate::rows::{Rows, check};

/// A win with a dual and a mistake, its game, and the mistake moved to the front; then a stalemate, which is a draw.
const QUEEN: Rows<'static> = r#"build KK -> built KK cells 1280 win -
build KQK -> built KQK cells 81920 win 19
build KQK -> error AlreadyHeld KQK
position k7/8/1K6/8/8/8/8/6Q1 w - - 0 1 -> position k7/8/1K6/8/8/8/8/6Q1 w - - 0 1
stipulate white win -> stipulate White to win
insert root Qg8 -> insert 0 Qg8#
insert root Qh2 -> insert 1 Qh2
mark root -> mark root win 1 - faults 1
mark 0 -> mark 0 loss 0 dual 21 faults 1
mark 1 -> mark 1 draw mistake faults 1
pgn -> [Event "?"]
[Site "?"]
[Date "????.??.??"]
[Round "?"]
[White "?"]
[Black "?"]
[Result "1-0"]
[FEN "k7/8/1K6/8/8/8/8/6Q1 w - - 0 1"]
[SetUp "1"]

{White to win: unsound 1, White mates in 1} 1. Qg8# {mate; dual 21} (1. Qh2 $4
{draw}) 1-0

promote 1 -> promote 0
mark root -> mark root win 1 - faults 1
tag Event A "quoted" \ study -> tag Event
pgn -> [Event "A \"quoted\" \\ study"]
[Site "?"]
[Date "????.??.??"]
[Round "?"]
[White "?"]
[Black "?"]
[Result "1-0"]
[FEN "k7/8/1K6/8/8/8/8/6Q1 w - - 0 1"]
[SetUp "1"]

{White to win: unsound 1, White mates in 1} 1. Qh2 $4 {draw} (1. Qg8# {mate;
dual 21}) 1-0

position k7/8/1Q6/8/8/8/8/K7 b - - 0 1 -> position k7/8/1Q6/8/8/8/8/K7 b - - 0 1
mark root -> mark root draw - faults 0"#;

/// An only move that draws, since it takes the rook.
const ROOK_LOST: Rows<'static> = r#"build KRK -> error MissingTable KK
build KK -> built KK cells 1280 win -
build KRK -> built KRK cells 81920 win 31
position 8/8/8/8/8/8/1R1K4/k7 b - - 0 1 -> position 8/8/8/8/8/8/1R1K4/k7 b - - 0 1
stipulate black draw -> stipulate Black to draw
insert root Kb2 -> insert 0 Kxb2
mark 0 -> mark 0 draw only faults 0
pgn -> [Event "?"]
[Site "?"]
[Date "????.??.??"]
[Round "?"]
[White "?"]
[Black "?"]
[Result "1/2-1/2"]
[FEN "8/8/8/8/8/8/1R1K4/k7 b - - 0 1"]
[SetUp "1"]

{Black to draw: sound, draw} 1... Kxb2 $1 {draw} 1/2-1/2

"#;

/// A mate among many wins; a shift, and one after which a move would be illegal; edits that are refused.
const ROOK: Rows<'static> = "build KK -> built KK cells 1280 win -
build KRK -> built KRK cells 81920 win 31
position k7/8/1K6/8/8/8/8/7R w - - 0 1 -> position k7/8/1K6/8/8/8/8/7R w - - 0 1
stipulate white win -> stipulate White to win
insert root Rh8 -> insert 0 Rh8#
mark 0 -> mark 0 loss 0 dual 19 faults 1
moves 0 -> moves 0 mate
shift k7/8/K7/8/8/8/8/7R w - - 0 1 -> shift k7/8/K7/8/8/8/8/7R w - - 0 1
mark 0 -> mark 0 loss 0 dual 15 faults 1
shift k7/8/K7/8/8/8/8/6R1 w - - 0 1 -> error ShiftBroken 0
mark 0 -> mark 0 loss 0 dual 15 faults 1
position 8/8/8/8/8/8/1R1K4/k7 b - - 0 1 -> position 8/8/8/8/8/8/1R1K4/k7 b - - 0 1
mark root -> mark root draw - faults 0
mark 0 -> error NoSuchNode
position k7/8/1K6/8/8/8/8/7R w - - 0 1 -> position k7/8/1K6/8/8/8/8/7R w - - 0 1
insert root Kc5 -> insert 0 Kc5
delete root -> error RootNotAllowed
promote 0 -> error AlreadyFirst
insert root Kc5 -> error AlreadyThere 0
delete 0.0 -> error NoSuchNode";

/// Black begins and is mated in one move: the only move in time is one of many that win.
const MATE_IN_ONE: Rows<'static> = r#"build KK -> built KK cells 1280 win -
build KRK -> built KRK cells 81920 win 31
position k7/8/1K6/8/8/8/8/7R b - - 0 1 -> position k7/8/1K6/8/8/8/8/7R b - - 0 1
stipulate white mate 1 -> stipulate White to mate in 1
insert root Kb8 -> insert 0 Kb8
insert 0 Rh8 -> insert 0.0 Rh8#
mark 0 -> mark 0 win 1 reply faults 0
mark 0.0 -> mark 0.0 loss 0 only faults 0
pgn -> [Event "?"]
[Site "?"]
[Date "????.??.??"]
[Round "?"]
[White "?"]
[Black "?"]
[Result "1-0"]
[FEN "k7/8/1K6/8/8/8/8/7R b - - 0 1"]
[SetUp "1"]

{White to mate in 1: sound, White mates in 1} 1... Kb8 {White mates in 1} 2.
Rh8# $1 {mate} 1-0

stipulate white win -> stipulate White to win
mark 0.0 -> mark 0.0 loss 0 dual 18 faults 1
mark 0 -> mark 0 win 1 reply faults 1"#;

/// A mate in two moves is not a mate in three.
const MATE_IN_TWO: Rows<'static> = r#"build KK -> built KK cells 1280 win -
build KRK -> built KRK cells 81920 win 31
position k7/8/2K5/8/8/8/8/7R w - - 0 1 -> position k7/8/2K5/8/8/8/8/7R w - - 0 1
stipulate white mate 3 -> stipulate White to mate in 3
pgn -> [Event "?"]
[Site "?"]
[Date "????.??.??"]
[Round "?"]
[White "?"]
[Black "?"]
[Result "1-0"]
[FEN "k7/8/2K5/8/8/8/8/7R w - - 0 1"]
[SetUp "1"]

{White to mate in 3: wrong, White mates in 2} 1-0

stipulate white mate 2 -> stipulate White to mate in 2
insert root Kb6 -> insert 0 Kb6
insert 0 Kb8 -> insert 0.0 Kb8
insert 0.0 Rh8 -> insert 0.0.0 Rh8#
pgn -> [Event "?"]
[Site "?"]
[Date "????.??.??"]
[Round "?"]
[White "?"]
[Black "?"]
[Result "1-0"]
[FEN "k7/8/2K5/8/8/8/8/7R w - - 0 1"]
[SetUp "1"]

{White to mate in 2: unsound 1, White mates in 2} 1. Kb6 {White mates in 1;
dual 1} 1... Kb8 {White mates in 1} 2. Rh8# $1 {mate} 1-0

"#;

/// A pawn, with the tables of all classes that it leads to, each in its turn; a promotion is named by its piece.
const PAWN: Rows<'static> = r#"build KK -> built KK cells 1280 win -
build KPK -> error MissingTable KQK
build KQK -> built KQK cells 81920 win 19
build KRK -> built KRK cells 81920 win 31
build KBK -> built KBK cells 81920 win -
build KNK -> built KNK cells 81920 win -
build KPK -> built KPK cells 262144 win 55
build KQK -> error AlreadyHeld KQK
build KRKQ -> error NotAClass
position k7/8/K7/P7/8/8/8/8 w - - 0 1 -> position k7/8/K7/P7/8/8/8/8 w - - 0 1
stipulate white draw -> stipulate White to draw
moves root -> moves 2 Kb5 Kb6
insert root Kb5 -> insert 0 Kb5
insert root Kb6 -> insert 1 Kb6
mark 0 -> mark 0 draw dual 1 faults 1
mark 1 -> mark 1 draw dual 1 faults 1
mark root -> mark root draw - faults 1
pgn -> [Event "?"]
[Site "?"]
[Date "????.??.??"]
[Round "?"]
[White "?"]
[Black "?"]
[Result "1/2-1/2"]
[FEN "k7/8/K7/P7/8/8/8/8 w - - 0 1"]
[SetUp "1"]

{White to draw: unsound 1, draw} 1. Kb5 {draw; dual 1} (1. Kb6 {draw; dual 1})
1/2-1/2

position k7/2P5/1K6/8/8/8/8/8 w - - 0 1 -> position k7/2P5/1K6/8/8/8/8/8 w - - 0 1
insert root c8 -> error NoSuchMove
insert root c8Q -> insert 0 c8=Q#"#;

const KNIGHTS: Rows<'static> = "build KK -> built KK cells 1280 win -
build KNK -> built KNK cells 81920 win -
build KNNK -> built KNNK cells 5242880 win 1
position 7k/8/8/8/8/2N5/8/4K1N1 w - - 0 1 -> position 7k/8/8/8/8/2N5/8/4K1N1 w - - 0 1
stipulate white draw -> stipulate White to draw
insert root Ne2 -> error Ambiguous
insert root Nxe2 -> error NoSuchMove
insert root O-O -> error CastlingLeftOut
insert root Nz9 -> error NotSan
insert root Nc3e2 -> insert 0 Nce2
insert root Nce2!? -> error AlreadyThere 0
insert root Nge2 -> insert 1 Nge2";

/// Two knights that can go to one square.
#[test]
fn an_ambiguous_move_is_refused(rt: HostRuntime) {
    check(&rt, &rt.alloc(), KNIGHTS);
}

#[test]
fn studies_typed_line_by_line_have_their_marks_and_games(rt: HostRuntime) {
    let alloc = rt.alloc();
    for rows in [QUEEN, ROOK_LOST, ROOK, MATE_IN_ONE, MATE_IN_TWO, PAWN] {
        check(&rt, &alloc, rows);
    }
}
