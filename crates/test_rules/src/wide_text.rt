//! FEN and SAN of positions with more than four men, and with rights to castle; castling.
use crate::notation::{fen_fault, has_coordinates, san_fault};
use crate::rows::field;
use study_wide_text::{WideStart, read_wide_fen, read_wide_san, write_wide_fen, write_wide_san};

/// The start of a FEN without a fault.
pub(crate) fn start(fen: &str) -> Option<WideStart> {
    read_wide_fen(fen).ok()
}

/// The start after legal moves.
pub(crate) fn after(fen: &str, moves: &str) -> Option<WideStart> {
    let mut start = start(fen)?;
    for san in moves.split_ascii_whitespace() {
        let m = read_wide_san(&start.position, san).ok()?;
        start = start.played(m);
    }
    Some(start)
}

/// A FEN, a move in SAN and by its squares, and the FEN after it, from games by an independent program, each held against pgn-extract: castling, moves with
/// file and rank, with one of the two, promotions, captures in passing, checkmates and others.
const MOVES: &str = "\
r3kb1r/p3ppp1/np1p1n2/7p/P4P1P/N1P1B3/4P1P1/R3KBNR b KQkq - 2 12,O-O-O,60 58,2kr1b1r/p3ppp1/np1p1n2/7p/P4P1P/N1P1B3/4P1P1/R3KBNR w KQ - 3 13
2kr1b1r/p3ppp1/np1p1n2/7p/P4P1P/N1P1B3/4P1P1/R3KBNR w KQ - 3 13,O-O-O,4 2,2kr1b1r/p3ppp1/np1p1n2/7p/P4P1P/N1P1B3/4P1P1/2KR1BNR b - - 4 13
rnb2bnr/3k2pp/pp3p2/4p3/8/NPP4P/P3PPP1/R3KBNR w KQ - 0 9,O-O-O+,4 2,rnb2bnr/3k2pp/pp3p2/4p3/8/NPP4P/P3PPP1/2KR1BNR b - - 1 9
r3k2r/5p2/5n2/P7/8/P4p2/1b6/4K3 b kq - 16 54,O-O-O,60 58,2kr3r/5p2/5n2/P7/8/P4p2/1b6/4K3 w - - 17 55
4k2r/8/8/8/8/8/8/4K2R w Kk - 0 1,O-O,4 6,4k2r/8/8/8/8/8/8/5RK1 b k - 1 1
rn2k1nr/p1qb3p/2p1p1p1/3B1p2/Rb4P1/4PP1N/2PP3P/1NBQK2R w Kkq - 0 12,O-O,4 6,rn2k1nr/p1qb3p/2p1p1p1/3B1p2/Rb4P1/4PP1N/2PP3P/1NBQ1RK1 b kq - 1 12
rn2k2r/p2b3p/4pnp1/3N2P1/4R3/2q1PP2/2PN3P/2BQ1RK1 b kq - 0 17,O-O,60 62,rn3rk1/p2b3p/4pnp1/3N2P1/4R3/2q1PP2/2PN3P/2BQ1RK1 w - - 1 18
1n1qkbnr/r3ppB1/p7/2ppP2p/7P/1P3N1b/P1PPBPP1/RN1QK2R w KQk - 1 10,O-O,4 6,1n1qkbnr/r3ppB1/p7/2ppP2p/7P/1P3N1b/P1PPBPP1/RN1Q1RK1 b k - 2 10
8/7k/8/8/8/2Q1Q3/8/K1Q5 w - - 0 1,Qc3d2,18 11,8/7k/8/8/8/4Q3/3Q4/K1Q5 b - - 1 1
8/8/8/k2K4/5QQ1/8/6Q1/8 w - - 13 16,Qg4g3,30 22,8/8/8/k2K4/5Q2/6Q1/6Q1/8 b - - 14 16
2k5/5Q1Q/8/3K3Q/8/8/8/8 w - - 15 17,Qh7g6,55 46,2k5/5Q2/6Q1/3K3Q/8/8/8/8 b - - 16 17
1B6/K7/8/n4n2/1k6/4n3/8/8 b - - 3 52,Nac4,32 26,1B6/K7/8/5n2/1kn5/4n3/8/8 w - - 4 53
1r6/3k4/8/8/8/8/7K/r4R2 b - - 0 23,Raa8,0 56,rr6/3k4/8/8/8/8/7K/5R2 w - - 1 24
5q2/8/k3q3/6K1/7N/6R1/8/7N b - - 13 7,Qef5+,44 37,5q2/8/k7/5qK1/7N/6R1/8/7N w - - 14 8
6nr/8/3k4/1p6/5NR1/4K2B/1n6/4N3 w - - 2 48,Nfg2,29 14,6nr/8/3k4/1p6/6R1/4K2B/1n4N1/4N3 b - - 3 48
6k1/3bn1r1/1p6/3p1P1P/5K2/8/8/6r1 b - - 0 43,R7g3,54 22,6k1/3bn3/1p6/3p1P1P/5K2/6r1/8/6r1 w - - 1 44
7K/1k6/3Q4/3R1Q2/8/1n6/8/8 w - - 1 30,Qdg6,43 46,7K/1k6/6Q1/3R1Q2/8/1n6/8/8 b - - 2 30
1k4n1/8/7r/2p5/p4P1p/P5R1/3N4/bK2N2B w - - 0 45,Ndf3,11 21,1k4n1/8/7r/2p5/p4P1p/P4NR1/8/bK2N2B b - - 1 45
8/k7/8/3KQ3/5Q2/5Q2/8/8 w - - 31 25,Q4e4,29 28,8/k7/8/3KQ3/4Q3/5Q2/8/8 b - - 32 25
8/6P1/8/8/P1K5/8/3N3k/8 w - - 1 43,g8=R,54 62 Rook,6R1/8/8/8/P1K5/8/3N3k/8 b - - 0 43
8/8/5K2/8/2k2P2/2B5/p7/8 b - - 31 1,a1=Q,8 0 Queen,8/8/5K2/8/2k2P2/2B5/8/q7 w - - 0 2
8/8/1K3P2/3P4/1p6/5pkp/P1p5/8 b - - 1 7,c1=B,10 2 Bishop,8/8/1K3P2/3P4/1p6/5pkp/P7/2b5 w - - 0 8
3k4/6P1/2b2P2/7Q/r5p1/n7/2P5/5RK1 w - - 3 31,g8=N,54 62 Knight,3k2N1/8/2b2P2/7Q/r5p1/n7/2P5/5RK1 b - - 0 31
8/K2k4/8/3q4/8/8/5p2/7N b - - 3 42,f1=N,13 5 Knight,8/K2k4/8/3q4/8/8/8/5n1N w - - 0 43
2b5/3n3P/3b2k1/4p3/8/8/6K1/8 w - - 0 56,h8=N+,55 63 Knight,2b4N/3n4/3b2k1/4p3/8/8/6K1/8 b - - 0 56
4r1nr/3k4/n1pB2p1/p4p1p/P3pP1P/2K5/4P1P1/RN3BNR b - f3 0 29,exf3,28 21,4r1nr/3k4/n1pB2p1/p4p1p/P6P/2K2p2/4P1P1/RN3BNR w - - 0 30
8/2k2pK1/8/3pP3/8/8/8/8 w - d6 0 60,exd6+,36 43,8/2k2pK1/3P4/8/8/8/8/8 b - - 0 60
1B6/3k4/8/2B2p1p/2P1Pp1P/2K4B/3N4/8 b - e3 0 36,fxe3,29 20,1B6/3k4/8/2B2p1p/2P4P/2K1p2B/3N4/8 w - - 0 37
1Bk5/8/8/5p1p/4Pp1P/BNP5/2K5/5B1n b - e3 0 35,fxe3,29 20,1Bk5/8/8/5p1p/7P/BNP1p3/2K5/5B1n w - - 0 36
k7/8/1K6/8/8/8/1p6/1RR5 w - - 0 1,Rc8#,2 58,k1R5/8/1K6/8/8/8/1p6/1R6 b - - 1 1
3k1NN1/8/8/8/6Q1/1n6/r7/5R1K w - - 1 36,Qd7#,30 51,3k1NN1/3Q4/8/8/8/1n6/r7/5R1K b - - 2 36
8/8/5kNK/8/3P4/8/6B1/1q6 b - - 3 19,Qxg6#,1 46,8/8/5kqK/8/3P4/8/6B1/8 w - - 0 20
8/8/8/8/8/1k6/8/1K4Rr b - - 5 41,Rxg1#,7 6,8/8/8/8/8/1k6/8/1K4r1 w - - 0 42
3R4/5p2/p6K/8/3p2P1/1r5P/2k5/8 b - - 2 12,Rxh3+,17 23,3R4/5p2/p6K/8/3p2P1/7r/2k5/8 w - - 0 13
8/7k/4r3/4P2b/2K5/8/5N2/8 b - - 2 34,Rxe5,44 36,8/7k/8/4r2b/2K5/8/5N2/8 w - - 0 35
8/8/7r/p7/k1K5/8/8/7N b - - 4 29,Rxh1,47 7,8/8/8/p7/k1K5/8/8/7r w - - 0 30
1k5K/2n5/3QQ2Q/8/3R4/1n6/8/8 w - - 5 31,Qb6+,43 41,1k5K/2n5/1Q2Q2Q/8/3R4/1n6/8/8 b - - 6 31
8/7k/1P6/1B6/7P/2P1p1p1/2KN4/8 b - - 1 38,e2,20 12,8/7k/1P6/1B6/7P/2P3p1/2KNp3/8 w - - 0 39
6k1/1b6/8/8/8/P2K4/8/6q1 w - - 3 21,a4,16 24,6k1/1b6/8/8/P7/3K4/8/6q1 b - - 0 21
6k1/8/8/5b2/P5q1/8/8/4K3 b - - 0 21,Qxa4,30 24,6k1/8/8/5b2/q7/8/8/4K3 w - - 0 22
8/8/B3k3/8/6R1/3K4/8/8 w - - 4 52,Bb5,40 33,8/8/4k3/1B6/6R1/3K4/8/8 b - - 5 52";

/// Whether the move of the row is read and written, and leads to its start.
fn is_played(row: &str) -> bool {
    let Some(before) = start(field(row, 0)) else {
        return false;
    };
    match read_wide_san(&before.position, field(row, 1)) {
        Ok(m) => {
            has_coordinates(&m, field(row, 2))
                && write_wide_fen(&before).as_str() == field(row, 0)
                && write_wide_san(&before.position, m).as_str() == field(row, 1)
                && write_wide_fen(&before.played(m)).as_str() == field(row, 3)
        }
        Err(_) => false,
    }
}

#[test]
fn moves_are_read_and_written(rt: HostRuntime) {
    for row in MOVES.lines() {
        assert!(rt; is_played(row), "{row}");
    }
}

/// A position, a text, and the squares of the move that it means, or why it means none.
const TEXTS: &str = "\
r3k2r/8/8/8/8/8/8/R3K2R w KQkq - 0 1,0-0,4 6
r3k2r/8/8/8/8/8/8/R3K2R w KQkq - 0 1,O-O-O!?,4 2
r3k2r/8/8/8/8/8/8/R3K2R w KQkq - 0 1,Kg1,NoSuchMove
r3k2r/8/8/8/8/8/8/R3K2R w kq - 0 1,O-O,NoSuchMove
4kr2/8/8/8/8/8/8/R3K2R w KQ - 0 1,O-O,NoSuchMove
4kr2/8/8/8/8/8/8/R3K2R w KQ - 0 1,O-O-O,4 2
3kr3/8/8/8/8/8/8/R3K2R w KQ - 0 1,O-O-O,NoSuchMove
r3k2r/8/8/8/8/8/8/R3K2R w KQkq - 0 1,O-o,NotSan
r3k2r/8/8/8/8/8/8/R3K2R w KQkq - 0 1,OO,NotSan
8/7k/8/8/8/2Q1Q3/8/K1Q5 w - - 0 1,Qd2,Ambiguous
8/7k/8/8/8/2Q1Q3/8/K1Q5 w - - 0 1,Qcd2,Ambiguous
8/7k/8/8/8/2Q1Q3/8/K1Q5 w - - 0 1,Q3d2,Ambiguous
8/7k/8/8/8/2Q1Q3/8/K1Q5 w - - 0 1,Qc3d2,18 11
8/7k/8/8/8/2Q1Q3/8/K1Q5 w - - 0 1,Qed2,20 11";

/// A position, a castling, and the king's squares if it is legal by the FIDE Laws (3.8.2).
const CASTLINGS: &str = "\
4k3/8/8/8/8/8/8/R3K2R w KQ -,O-O,4 6,nothing is in the way
4k3/8/8/8/8/8/8/R3K2R w KQ -,O-O-O,4 2,nothing is in the way
4k3/8/8/8/8/8/8/R3K2R w Q -,O-O,NoSuchMove,the right is lost
4k3/8/8/8/8/8/8/R3K1NR w KQ -,O-O,NoSuchMove,a knight is in between
4k3/8/8/8/8/8/8/RN2K2R w KQ -,O-O-O,NoSuchMove,a knight is in between
4k3/8/8/8/8/8/8/R3K2n w Q -,O-O-O,4 2,the other rook does not matter
4kr2/8/8/8/8/8/8/R3K2R w KQ -,O-O,NoSuchMove,the king crosses an attacked square
4kr2/8/8/8/8/8/8/R3K2R w KQ -,O-O-O,4 2,the attacked square is on the other wing
4k1r1/8/8/8/8/8/8/R3K2R w KQ -,O-O,NoSuchMove,the king would be in check
3k3r/8/8/8/8/8/8/R3K2R w KQ -,O-O,4 6,only the rook is attacked
1r2k3/8/8/8/8/8/8/R3K2R w KQ -,O-O-O,4 2,only the rook crosses an attacked square
r3k3/8/8/8/8/8/8/R3K2R w KQ -,O-O-O,4 2,only the rook is attacked
3rk3/8/8/8/8/8/8/R3K2R w KQ -,O-O-O,NoSuchMove,the king crosses an attacked square
2r1k3/8/8/8/8/8/8/R3K2R w KQ -,O-O-O,NoSuchMove,the king would be in check
3kr3/8/8/8/8/8/8/R3K2R w KQ -,O-O,NoSuchMove,the king is in check
3kr3/8/8/8/8/8/8/R3K2R w KQ -,O-O-O,NoSuchMove,the king is in check
4k3/8/8/8/8/8/6p1/R3K2R w KQ -,O-O,NoSuchMove,a pawn attacks the square that the king crosses
4k3/8/8/8/8/8/7p/R3K2R w KQ -,O-O,NoSuchMove,a pawn attacks the king's target
r3k2r/8/8/8/8/8/8/4K3 b kq -,O-O,60 62,nothing is in the way
r3k2r/8/8/8/8/8/8/4K3 b kq -,O-O-O,60 58,nothing is in the way
r3k2r/8/8/8/8/8/8/4K3 b q -,O-O,NoSuchMove,the right is lost
r3k2r/8/8/8/8/8/8/4KR2 b kq -,O-O,NoSuchMove,the king crosses an attacked square
r3k2r/8/8/8/8/8/8/1R2K3 b kq -,O-O-O,60 58,only the rook crosses an attacked square";

/// Whether the text is read as in the row.
fn is_read(row: &str) -> bool {
    let Some(start) = start(field(row, 0)) else {
        return false;
    };
    match read_wide_san(&start.position, field(row, 1)) {
        Ok(m) => has_coordinates(&m, field(row, 2)),
        Err(fault) => san_fault(fault) == field(row, 2),
    }
}

#[test]
fn texts_mean_one_move(rt: HostRuntime) {
    for row in TEXTS.lines() {
        assert!(rt; is_read(row), "{row}");
    }
}

#[test]
fn castling_is_legal_by_the_laws(rt: HostRuntime) {
    for row in CASTLINGS.lines() {
        assert!(rt; is_read(row), "{row}");
    }
}

/// A FEN and its first fault.
const FAULTS: &str = "\
rnbqkbnr/pppppppp/8/8/8/8/PPPPPPPP/RNBQKBNR w KQkq - 0 1,none
rnbqkbnr/pppppppp/8/8/8/8/PPPPPPPP/RNBQKBNR w QK - 0 1,Castling
rnbqkbnr/pppppppp/8/8/8/8/PPPPPPPP/RNBQKBNR w KK - 0 1,Castling
rnbqkbnr/pppppppp/8/8/8/8/PPPPPPPP/RNBQKBNR w HAha - 0 1,Castling
1nbqkbnr/pppppppp/8/8/8/8/PPPPPPPP/RNBQKBNR w KQkq - 0 1,Castling
1nbqkbnr/pppppppp/8/8/8/8/PPPPPPPP/RNBQKBNR w KQkq e9 0 1,Castling
rnbqkbnr/pppppppp/8/8/8/8/PPPPPPPP/RNBQKBNR w - e9 0 1,EnPassantField
rnbqkbnr/pppppppp/8/8/8/8/PPPPPPPP/RNBQKBNR w - e6 0 1,EnPassantImpossible
rnbqkbnr/pppppppp/8/8/8/P7/PPPPPPPP/RNBQKBNR w - - 0 1,TooManyMen
rnbq1bnr/pppppppp/8/8/8/8/PPPPPPPP/RNBQKBNR x - - 0 1,KingCount
rnbqkbnr/pppppppp/8/8/8/8/PPPPPPPP/RNBQKBNR w - - x 1,Clock
4k3/8/8/8/8/8/8/4K3 w K -,Castling
4k3/8/8/8/8/8/8/R3K2R b k -,Castling
4k3/8/8/8/8/8/8/3K3R w K -,Castling
4k3/8/8/8/8/8/P7/RNBQKBNR w Q -,none
4k3/PPPPPPPP/PPPPPPPP/8/8/8/8/4K3 w - -,TooManyMen
8/PPPPPPPP/PPPPPPP1/8/4k3/8/8/4K3 w - -,none
4k3/8/8/8/8/8/8/4K2K w K -,KingCount
4k3/8/8/8/8/8/8/P3K3 w Q -,PawnOnEndRank
4k3/8/8/8/8/8/8/4R1K1 w Q -,OpponentInCheck";

/// The first fault of a FEN, or `none`.
fn first_fault(fen: &str) -> &'static str {
    match read_wide_fen(fen) {
        Ok(_) => "none",
        Err(fault) => fen_fault(fault),
    }
}

#[test]
fn the_first_fault_of_a_fen_is_found(rt: HostRuntime) {
    for row in FAULTS.lines() {
        assert!(rt; first_fault(field(row, 0)) == field(row, 1), "{row}");
    }
}
