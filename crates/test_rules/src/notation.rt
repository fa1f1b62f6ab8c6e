//! Texts and their meaning, from outside.

use crate::men::square;
use crate::notation_moves::MOVES;
use crate::rows::field;
use std::process::Abort;
use study_board::{Kind, Position};
use study_moves::{Move, legal_moves};
use study_notation::{FenFault, SanFault, Start, read_fen, read_san, write_fen, write_san};

/// FENs, each with its one fault.
const FAULTS: &str = "\
,FieldCount
k7/8/1K6/8/8/8/8/7R w -,FieldCount
k7/8/1K6/8/8/8/8/7R w - - 0,FieldCount
k7/8/1K6/8/8/8/8/7R w - - 0 1 1,FieldCount
k7/9/1K6/8/8/8/8/7R w - - 0 1,Placement
k7/44/1K6/8/8/8/7R w - - 0 1,Placement
k7/45/1K6/8/8/8/8/7R w - - 0 1,Placement
k7/8/1K6/8/8/8/8/7R/8 w - - 0 1,Placement
rnbqkbnr/pppppppp/8/8/8/8/PPPPPPPP/RNBQKBNR w KQkq - 0 1,TooManyMen
k7/8/8/8/8/8/8/8 x K - 0 1,KingCount
k7/8/1K6/8/8/8/8/7P w - - 0 1,PawnOnEndRank
k7/8/1K6/8/8/8/8/7R W - - 0 1,SideField
k7/K7/8/8/8/8/8/8 w - - 0 1,OpponentInCheck
4k3/8/8/8/8/8/8/4K2R w K - 0 1,Castling
k7/8/1K6/8/8/8/8/7R w - i3 0 1,EnPassantField
k7/8/1K6/8/8/8/8/7R w - e6 0 1,EnPassantImpossible
k7/8/1K6/8/8/8/8/7R w - - 00000 1,Clock
k7/8/1K6/8/8/8/8/7R w - - 0 -1,MoveNumber";

/// FENs, each with a fault and the one after it.
const TWO_FAULTS: &str = "\
k7/9/1K6 w - - 0,FieldCount
rnbqkbnr/pppppppp/9/8/8/8/8/8 w - - 0 1,Placement
8/ppppp3/8/8/8/8/8/8 w - - 0 1,TooManyMen
k6P/8/8/8/8/8/8/8 w - - 0 1,KingCount
k7/8/1K6/8/8/8/8/7P x - - 0 1,PawnOnEndRank
k7/K7/8/8/8/8/8/8 x - - 0 1,SideField
k7/K7/8/8/8/8/8/8 w K - 0 1,OpponentInCheck
k7/8/1K6/8/8/8/8/7R w Q z9 0 1,Castling
k7/8/1K6/8/8/8/8/7R w - e66 x 1,EnPassantField
k7/8/1K6/8/8/8/8/7R w - e6 x 1,EnPassantImpossible
k7/8/1K6/8/8/8/8/7R w - - x x,Clock";

/// The fault's name in a row.
pub(crate) fn fen_fault(fault: FenFault) -> &'static str {
    match fault {
        FenFault::FieldCount => "FieldCount",
        FenFault::Placement => "Placement",
        FenFault::TooManyMen => "TooManyMen",
        FenFault::KingCount => "KingCount",
        FenFault::PawnOnEndRank => "PawnOnEndRank",
        FenFault::SideField => "SideField",
        FenFault::OpponentInCheck => "OpponentInCheck",
        FenFault::Castling => "Castling",
        FenFault::EnPassantField => "EnPassantField",
        FenFault::EnPassantImpossible => "EnPassantImpossible",
        FenFault::Clock => "Clock",
        FenFault::MoveNumber => "MoveNumber",
    }
}

/// Whether the fault of this name is the first of the FEN.
fn has_fault(fen: &str, fault: &str) -> bool {
    match read_fen(fen) {
        Ok(_) => false,
        Err(found) => fen_fault(found) == fault,
    }
}

#[test]
fn the_first_fault_of_a_fen_is_reported(rt: HostRuntime) {
    for row in FAULTS.lines() {
        assert!(rt; has_fault(field(row, 0), field(row, 1)), "{row}");
    }
    for row in TWO_FAULTS.lines() {
        assert!(rt; has_fault(field(row, 0), field(row, 1)), "{row}");
    }
}

/// FENs, and the FENs written for them.
const WRITTEN: &str = "\
k7/8/2K5/8/8/8/8/7R w - -,k7/8/2K5/8/8/8/8/7R w - - 0 1
k7/44/1K6/8/8/8/8/7R w - - 3 0,k7/8/1K6/8/8/8/8/7R w - - 3 1
  k7/8/1K6/8/8/8/8/7R  w -   - 0007 9999 ,k7/8/1K6/8/8/8/8/7R w - - 7 9999
8/8/8/8/4P3/k7/8/4K3 b - e3 0 1,8/8/8/8/4P3/k7/8/4K3 b - e3 0 1";

/// The start of a FEN without a fault.
fn start(rt: &impl Abort, fen: &str) -> Start {
    match read_fen(fen) {
        Ok(start) => start,
        Err(fault) => panic!(rt; "{fen}: {fault}"),
    }
}

/// Whether the start is written as this FEN.
fn is_fen(start: &Start, fen: &str) -> bool {
    write_fen(start).as_str() == fen
}

#[test]
fn a_fen_is_written_as_it_was_read(rt: HostRuntime) {
    for row in WRITTEN.lines() {
        assert!(rt; is_fen(&start(&rt, field(row, 0)), field(row, 1)), "{row}");
    }
}

/// Whether the word is read as the move, and the move is written so.
fn is_written(p: &Position, m: &Move, word: &str) -> bool {
    match read_san(p, word) {
        Ok(again) => again == *m && write_san(p, again).as_str() == word,
        Err(_) => false,
    }
}

/// Whether these are the legal moves, in this order.
fn are_written(p: &Position, moves: &str) -> bool {
    let mut words = moves.split_ascii_whitespace();
    for m in legal_moves(p).as_slice() {
        match words.next() {
            Some(word) if is_written(p, m, word) => {}
            _ => return false,
        }
    }
    words.next().is_none()
}

/// Each line has the FEN of a start, a tab and its legal moves.
fn expect_moves(rt: &impl Abort, lines: &str) {
    for line in lines.lines() {
        let (fen, moves) = line.split_once('\t').expect(rt, "a tab");
        let start = start(rt, fen);
        assert!(rt; is_fen(&start, fen), "{line}");
        assert!(rt; are_written(&start.position, moves), "{line}");
    }
}

#[test]
fn san_of_all_legal_moves_is_that_of_another_program(rt: HostRuntime) {
    expect_moves(&rt, MOVES);
}

const KNIGHTS: &str = "7k/8/8/8/8/2N5/8/4K1N1 w - - 0 1";

/// Texts, and their reading: the squares between which the move goes with the promotion, or the fault.
const OF_KNIGHTS: &str = "\
Nce2,18 12
Nge2,6 12
Ne2,Ambiguous
Nc3e2,18 12
Nce2!?,18 12
N1e2#,6 12
Nxe2,NoSuchMove
O-O,CastlingLeftOut
0-0-0+!,CastlingLeftOut
O-0,NotSan
O-O=Q,NotSan
Nz9,NotSan
Nce2!?!,NotSan
Nce2=Q,NoSuchMove
Ke1e2,4 12";

const PROMOTION: &str = "k7/2P5/1K6/8/8/8/8/8 w - - 0 1";

const OF_PROMOTION: &str = "\
c8Q,50 58 Queen
c7c8=N#,50 58 Knight
c8,NoSuchMove
c8=,NotSan
c8=K,NotSan
Pc8=Q,NotSan";

const PASSED: &str = "8/8/8/8/k2Pp3/8/8/4K3 b - d3 0 1";

const OF_PASSED: &str = "\
exd3,28 19
e4xd3,28 19
ed3,NoSuchMove
d3,NoSuchMove";

/// The fault's name in a row.
pub(crate) fn san_fault(fault: SanFault) -> &'static str {
    match fault {
        SanFault::NotSan => "NotSan",
        SanFault::CastlingLeftOut => "CastlingLeftOut",
        SanFault::NoSuchMove => "NoSuchMove",
        SanFault::Ambiguous => "Ambiguous",
    }
}

/// The promotion of a row.
fn promotion(m: &Move) -> &'static str {
    match m.promoted {
        None => "",
        Some(Kind::Queen) => "Queen",
        Some(Kind::Rook) => "Rook",
        Some(Kind::Bishop) => "Bishop",
        Some(Kind::Knight) => "Knight",
        Some(_) => "another",
    }
}

/// Whether the words are the move's origin, target and promotion.
pub(crate) fn has_coordinates(m: &Move, words: &str) -> bool {
    let mut words = words.split_ascii_whitespace();
    square(words.next().unwrap_or("")) == Some(m.origin)
        && square(words.next().unwrap_or("")) == Some(m.target)
        && words.next().unwrap_or("") == promotion(m)
}

/// Whether the text is read as in the row.
fn is_read(p: &Position, text: &str, want: &str) -> bool {
    match read_san(p, text) {
        Ok(m) => has_coordinates(&m, want),
        Err(fault) => san_fault(fault) == want,
    }
}

/// The text of each row is read as in the row.
fn expect_read(rt: &impl Abort, fen: &str, rows: &str) {
    let start = start(rt, fen);
    for row in rows.lines() {
        assert!(rt;
            is_read(&start.position, field(row, 0), field(row, 1)),
            "{row}"
        );
    }
}

#[test]
fn san_is_read_or_its_fault_reported(rt: HostRuntime) {
    expect_read(&rt, KNIGHTS, OF_KNIGHTS);
    expect_read(&rt, PROMOTION, OF_PROMOTION);
    expect_read(&rt, PASSED, OF_PASSED);
}

/// Starts, moves, and the starts after them.
const PLAYED: &str = "\
8/8/8/8/k2Pp3/8/8/4K3 b - d3 0 1,exd3,8/8/8/8/k7/3p4/8/4K3 w - - 0 2
8/8/8/8/k2Pp3/8/8/4K3 b - d3 7 9,Ka3,8/8/8/8/3Pp3/k7/8/4K3 w - - 8 10
8/8/8/8/k3p3/8/3P4/4K3 w - - 7 9,d4,8/8/8/8/k2Pp3/8/8/4K3 b - d3 0 9
8/8/8/8/8/8/1R1K4/k7 b - - 5 41,Kxb2,8/8/8/8/8/8/1k1K4/8 w - - 0 42
k7/8/1K6/8/8/8/8/7R w - - 9999 9999,Ra1,k7/8/1K6/8/8/8/8/R7 b - - 10000 9999";

/// The start after the move of this text.
fn play(rt: &impl Abort, start: &Start, san: &str) -> Start {
    match read_san(&start.position, san) {
        Ok(m) => start.played(m),
        Err(fault) => panic!(rt; "{san}: {fault}"),
    }
}

#[test]
fn clocks_count_as_moves_are_played(rt: HostRuntime) {
    for row in PLAYED.lines() {
        let next = play(&rt, &start(&rt, field(row, 0)), field(row, 1));
        assert!(rt; is_fen(&next, field(row, 2)), "{row}");
    }
    let most = Start {
        position: start(&rt, "k7/8/8/8/8/8/8/K7 b - -").position,
        clock: 65535,
        number: 65535,
    };
    let next = play(&rt, &most, "Kb8");
    assert!(rt; next.clock == 65535);
    assert!(rt; next.number == 65535);
    assert!(rt; is_fen(&next.copied(), "1k6/8/8/8/8/8/8/K7 w - - 65535 65535"));
}
