//! The squares to which men go, and from which they came, as words.
use crate::men::{man, side, square};
use crate::rows::{field, number};
use arrayvec::ArrayVec;
use std::process::Abort;
use study_board::{Man, Side};
use study_moves::{safe_targets, unmove_origins};

/// The men of the row's first field, in the order of that field.
fn men(rt: &impl Abort, row: &str) -> ArrayVec<Man, 4> {
    let mut men = ArrayVec::new();
    for word in field(row, 0).split_ascii_whitespace() {
        assert!(rt; !men.is_full(), "{row}");
        men.push(man(word).expect(rt, row));
    }
    men
}

/// The number of legal moves of the side to move, if none promotes and none captures en passant.
fn count_moves(men: &[Man], to_move: Side) -> u32 {
    let mut count = 0u32;
    for m in men {
        if m.side == to_move {
            count = count.saturating_add(safe_targets(men, to_move, m).len());
        }
    }
    count
}

/// Men in no particular order of squares, the side to move, and the number of legal moves by another program.
const COUNTED: &str = "\
q57 k42 K10,b,29
Q49 k52 K6,b,6
k37 Q15 K6,w,24
Q59 K42 k0,b,3
k52 R31 K8,w,19
K60 r61 k44,w,1
b58 K31 k21,w,2
K35 n2 k5,w,8
K52 k34 N6,b,7
p50 K43 k5,w,8
k53 P38 K5,w,6
k61 P53 K10,b,3
p54 K30 k6,b,7
B44 K37 k19 Q20,b,2
n57 k42 q2 K4,w,2
N25 Q21 K14 k1,w,36
k51 K47 Q29 N4,b,6
Q62 K48 N19 k21,b,3
q62 p42 k23 K12,w,8
K49 Q42 P35 k14,b,8
k59 K40 P35 Q6,w,27
R53 K45 R20 k8,b,3
k62 R31 K9 N6,b,3
K56 r63 p36 k0,w,2
P45 K34 k9 R5,b,5
B58 k59 B52 K1,b,4";

#[test]
fn safe_targets_are_as_many_as_the_legal_moves(rt: HostRuntime) {
    for row in COUNTED.lines() {
        let men = men(&rt, row);
        let count = count_moves(men.as_slice(), side(field(row, 1)));
        assert!(rt; number(field(row, 2)) == Some(count), "{row}: {count}");
    }
}

/// Whether the man on the second square of a word such as `1-7` can have come from the first.
fn came(men: &[Man], to_move: Side, word: &str) -> bool {
    let mut squares = word.split('-');
    match (
        square(squares.next().unwrap_or("")),
        square(squares.next().unwrap_or("")),
    ) {
        (Some(from), Some(to)) => men.iter().any(|m| m.at == to
            && unmove_origins(men, to_move, m).contains(from)),
        _ => false,
    }
}

/// The rows of `LAST_MOVES` in moves.rt, with the men in another order.
const CAME: &str = "\
R7 k56 K41,b,1-7 2-7 3-7 4-7 5-7 6-7 15-7 23-7 31-7 39-7 47-7 55-7 32-41 33-41 34-41 40-41 42-41 50-41
P28 k2 K0,b,8-0 12-28 20-28
n20 P28 k2 K0,b,8-0
k60 B26 R4 K0,b,1-4 2-4 3-4 5-4 6-4 7-4 12-26 44-26";

#[test]
fn origins_are_where_the_men_came_from(rt: HostRuntime) {
    for row in CAME.lines() {
        let men = men(&rt, row);
        let to_move = side(field(row, 1));
        let mut count = 0u32;
        for m in men.as_slice() {
            if m.side != to_move {
                count = count.saturating_add(unmove_origins(men.as_slice(), to_move, m).len());
            }
        }
        for word in field(row, 2).split_ascii_whitespace() {
            assert!(rt; came(men.as_slice(), to_move, word), "{row}: {word}");
            count = count.saturating_sub(1);
        }
        assert!(rt; count == 0, "{row}");
    }
}
