//! Positions of more than four men: numbers of moves, rights to castle, and the end of the game.
use crate::rows::{field, number};
use crate::wide_text::{after, start};
use std::process::Abort;
use study_wide::{WidePosition, is_legal, is_mate, is_stalemate, legal_moves, narrow, played};
use study_wide_text::{WideStart, write_wide_fen};

/// The number of lines of two plies.
fn count_lines_of_two(p: &WidePosition) -> u32 {
    let mut n = 0u32;
    for m in legal_moves(p).as_slice() {
        if is_legal(p, *m) {
            n = n.saturating_add(legal_moves(&played(p, *m)).len() as u32);
        }
    }
    n
}

/// The number of lines of three plies.
fn count_lines_of_three(p: &WidePosition) -> u32 {
    let mut n = 0u32;
    for m in legal_moves(p).as_slice() {
        if is_legal(p, *m) {
            n = n.saturating_add(count_lines_of_two(&played(p, *m)));
        }
    }
    n
}

/// A position, and the numbers of its lines of one, two and three plies, as the chess programming wiki has them (Perft Results, positions 1 to 6). The
/// second is Kiwipete by Peter McKenzie.
const COUNTS: &str = "\
rnbqkbnr/pppppppp/8/8/8/8/PPPPPPPP/RNBQKBNR w KQkq -,20,400,8902
r3k2r/p1ppqpb1/bn2pnp1/3PN3/1p2P3/2N2Q1p/PPPBBPPP/R3K2R w KQkq -,48,2039,97862
8/2p5/3p4/KP5r/1R3p1k/8/4P1P1/8 w - -,14,191,2812
r3k2r/Pppp1ppp/1b3nbN/nP6/BBP1P3/q4N2/Pp1P2PP/R2Q1RK1 w kq -,6,264,9467
rnbq1k1r/pp1Pbppp/2p5/8/2B5/8/PPP1NnPP/RNBQK2R w KQ -,44,1486,62379
r4rk1/1pp1qppp/p1np1n2/2b1p1B1/2B1P1b1/P1NP1N2/1PP1QPPP/R4RK1 w - -,46,2079,89890";

fn are_counted(row: &str) -> bool {
    let Some(start) = start(field(row, 0)) else {
        return false;
    };
    let p = start.position;
    number(field(row, 1)) == Some(legal_moves(&p).len() as u32)
        && number(field(row, 2)) == Some(count_lines_of_two(&p))
        && number(field(row, 3)) == Some(count_lines_of_three(&p))
}

#[test]
fn known_positions_have_their_numbers_of_lines(rt: HostRuntime) {
    for row in COUNTS.lines() {
        assert!(rt; are_counted(row), "{row}");
    }
}

/// Moves from `r3k2r/8/8/8/8/8/8/R3K2R`, White to move, and the rights that are left.
const RIGHTS_LEFT: &str = "\
Rb1 Kf8 Ra1 Ke8,K
Rxh8 Ke7,Q
Rh2 Rh7 Rh1 Rh8,Qq
O-O,kq
Ke2 Ra7 Ke1 Ra8,k
O-O-O O-O,-
Rxa8 Kf7,K";

/// Whether the start has these rights, in the order of FEN.
fn has_rights(start: &WideStart, rights: &str) -> bool {
    let fen = write_wide_fen(start);
    fen.as_str().split_ascii_whitespace().nth(2).unwrap_or("") == rights
}

#[test]
fn rights_are_lost_for_good(rt: HostRuntime) {
    for row in RIGHTS_LEFT.lines() {
        let start = after("r3k2r/8/8/8/8/8/8/R3K2R w KQkq -", field(row, 0));
        let start = start.expect(&rt, "legal moves");
        assert!(rt; has_rights(&start, field(row, 1)), "{row}");
    }
}

/// The position after legal moves.
fn position(rt: &impl Abort, fen: &str, moves: &str) -> WidePosition {
    after(fen, moves).expect(rt, "legal moves").position
}

#[test]
fn a_pawn_may_become_a_tenth_queen(rt: HostRuntime) {
    let p = position(&rt, "6rk/P5pp/8/8/2QQQQQQ/QQQ5/8/K7 w - -", "a8=Q");
    assert!(rt; p.men().len() == 15);
    let mated = position(&rt, "7k/P5pp/8/8/8/8/8/K7 w - -", "a8=Q");
    assert!(rt; is_mate(&mated) && !is_stalemate(&mated));
}

/// A position, moves, and whether at most four men and no right are left after them; then whether that is stalemate.
const ENDS: &str = "\
4k3/8/8/8/8/8/8/R3K3 w Q -,,large,moves
4k3/8/8/8/8/8/8/R3K3 w - -,,small,moves
4k3/8/8/8/8/8/8/R3K3 w Q -,O-O-O,small,moves
4k3/pp6/8/8/8/8/8/R3K3 w - -,,large,moves
7k/5Q2/p7/P7/8/8/8/K7 b - -,,large,stalemate
7k/5Q2/p7/8/P7/8/8/K7 b - -,,large,moves";

#[test]
fn a_position_is_small_without_rights(rt: HostRuntime) {
    for row in ENDS.lines() {
        let p = position(&rt, field(row, 0), field(row, 1));
        assert!(rt; narrow(&p).is_some() == (field(row, 2) == "small"), "{row}");
        assert!(rt; is_stalemate(&p) == (field(row, 3) == "stalemate"), "{row}");
    }
}
