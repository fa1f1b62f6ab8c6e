//! Worked positions: tests that the definitions are those of chess.
use crate::men::{sound, square};
use crate::rows::field;
use std::process::Abort;
use study_board::Position;
use study_moves::{
    Move, earlier, in_check, is_legal, is_mate, is_stalemate, position_before, solve, unmoves,
};

#[test]
fn mates_and_stalemates_are_distinguished(rt: HostRuntime) {
    let stale = sound(&rt, "K0 k56 Q41,b,-");
    assert!(rt; is_stalemate(&stale) && !is_mate(&stale) && !in_check(&stale));
    let mate = sound(&rt, "K41 k56 R63,b,-");
    assert!(rt; is_mate(&mate) && !is_stalemate(&mate) && in_check(&mate));
    let one = sound(&rt, "K41 k56 R7,w,-");
    assert!(rt; solve(&one, 1) == Some(1));
    let two = sound(&rt, "K42 k56 R7,w,-");
    assert!(rt; solve(&two, 1).is_none());
    assert!(rt; solve(&two, 2) == Some(3));
}

/// Whether the word has the numbers of the two squares, as in `1-7`.
fn is_between(m: &Move, word: Option<&str>) -> bool {
    let mut numbers = word.unwrap_or("").split('-');
    square(numbers.next().unwrap_or("")) == Some(m.origin)
        && square(numbers.next().unwrap_or("")) == Some(m.target)
}

/// Whether the position before the move is one of the list, and the move can be played from it.
fn is_before(p: &Position, m: Move, list: &[Position]) -> bool {
    for x in list {
        if *x == *p {
            return is_legal(p, m) && p.passed().is_none();
        }
    }
    false
}

/// The last quiet moves to the position of the row came from and went to the squares of its last field, in this order, each can be played again from
/// the position before it, and `earlier` returns these positions.
fn expect_unmoves(rt: &impl Abort, row: &str) {
    let q = sound(rt, row);
    let before = earlier(&q);
    let list = unmoves(&q);
    let mut words = field(row, 3).split_ascii_whitespace();
    for m in list.as_slice() {
        let p = position_before(&q, *m);
        assert!(rt; is_between(m, words.next()), "{row}");
        assert!(rt; is_before(&p, *m, before.as_slice()), "{row}");
    }
    assert!(rt; words.next().is_none(), "{row}");
    assert!(rt; before.len() == list.len(), "{row}");
}

/// Men on squares, the side to move, no passed square, and the squares that the last quiet moves went between. In the first row the rook did not come
/// from a1 or h8, where it gave check, nor the king from a7 or b7. Then a pawn advanced one or two squares; in the next three not over a man, not
/// from its first rank, and not onto its starting rank. In the last the rook did not come along its line to the king, the bishop from its square
/// between the two.
const LAST_MOVES: &str = "\
K41 k56 R7,b,-,1-7 2-7 3-7 4-7 5-7 6-7 15-7 23-7 31-7 39-7 47-7 55-7 32-41 33-41 34-41 40-41 42-41 50-41
K0 k2 P28,b,-,8-0 12-28 20-28
k0 K2 p36,w,-,8-0 44-36 52-36
K0 k2 P28 n20,b,-,8-0
K0 k2 P20,b,-,8-0 12-20
K0 k2 P12,b,-,8-0
K0 R4 B26 k60,b,-,1-4 2-4 3-4 5-4 6-4 7-4 12-26 44-26";

#[test]
fn unmoves_lead_back_to_each_position_before(rt: HostRuntime) {
    for row in LAST_MOVES.lines() {
        expect_unmoves(&rt, row);
    }
}
