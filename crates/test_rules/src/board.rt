//! Tests of what no clause states: that the definitions are those of chess, by positions from outside.
use crate::men::{man, position, side, sound, square};
use crate::rows::field;
use std::process::Abort;
use study_board::Side::{Black, White};
use study_board::{Position, PositionFault, Square, Symmetry};

/// Men on squares, the side to move, the passed square, and the fault; in the last row a man is behind the passed square.
const FAULTS: &str = "\
K0 k63 R9 R18 N27,w,-,TooManyMen
K0 k63 R9 B9,w,-,SquareTwice
K0 R9,w,-,KingCount
K0 k63 P60,w,-,PawnOnEndRank
K0 k63 p3,w,-,PawnOnEndRank
K0 k63 R7,w,-,OpponentInCheck
K48 k56,w,-,OpponentInCheck
K0 k63,w,44,EnPassantImpossible
K4 k24 P27 R11,b,19,EnPassantImpossible";

/// The same with two faults together: the earlier is reported.
const TWO_FAULTS: &str = "\
K0 k63 R9 R9 N27,w,-,TooManyMen
K0 K63 R9 R8 N27,w,-,TooManyMen
K0 k63 R9 R8 P60,w,-,TooManyMen
K0 k63 R7 R8 N27,w,-,TooManyMen
K0 k63 R9 R8 N27,w,44,TooManyMen
K0 K0,w,-,SquareTwice
K0 k63 P60 P60,w,-,SquareTwice
K0 k63 R7 R7,w,-,SquareTwice
K0 k63 R9 B9,w,44,SquareTwice
K0 P60,w,-,KingCount
K0 k63 k56 R7,w,-,KingCount
K0,w,44,KingCount
K0 k63 R7 P60,w,-,PawnOnEndRank
K0 k63 P60,w,44,PawnOnEndRank
K0 k63 R7,w,44,OpponentInCheck";

/// The fault's name in a row.
fn name(fault: PositionFault) -> &'static str {
    match fault {
        PositionFault::TooManyMen => "TooManyMen",
        PositionFault::SquareTwice => "SquareTwice",
        PositionFault::KingCount => "KingCount",
        PositionFault::PawnOnEndRank => "PawnOnEndRank",
        PositionFault::OpponentInCheck => "OpponentInCheck",
        PositionFault::EnPassantImpossible => "EnPassantImpossible",
    }
}

/// The position of each row has the fault in its last field.
fn expect_faults(rt: &impl Abort, rows: &str) {
    for row in rows.lines() {
        match position(rt, row) {
            Ok(_) => panic!(rt; "{row}"),
            Err(fault) => assert!(rt; name(fault) == field(row, 3), "{row}"),
        }
    }
}

#[test]
fn the_first_fault_of_a_position_is_reported(rt: HostRuntime) {
    expect_faults(&rt, FAULTS);
    expect_faults(&rt, TWO_FAULTS);
}

/// Men on squares, the side to move and the passed square.
const SOUND: &str = "\
k56 P50 K41,w,-
k24 P27 p28 K4,b,19
K0 k63 p36,w,44
k56 K41 R7,w,-
K0 k17 r63,b,-";

/// Whether these men and no others are on their squares.
fn has_men(p: &Position, words: &str) -> bool {
    let mut count = 0usize;
    for word in words.split_ascii_whitespace() {
        match man(word) {
            Some(man) if p.man_at(man.at) == Some(man) => {}
            _ => return false,
        }
        count = count.saturating_add(1);
    }
    p.men().len() == count
}

#[test]
fn sound_positions_are_accepted(rt: HostRuntime) {
    for row in SOUND.lines() {
        let p = sound(&rt, row);
        assert!(rt; has_men(&p, field(row, 0)), "{row}");
        assert!(rt; p.to_move() == side(field(row, 1)), "{row}");
        assert!(rt; p.passed() == square(field(row, 2)), "{row}");
        assert!(rt; p.copied() == p, "{row}");
    }
    assert!(rt; sound(&rt, "K0 k63,w,-") == Position::default());
}

/// The squares that each side attacks if White has Ke1 and Rd2, which is pinned by the bishop on a5, and Black Kh8.
const WHITE_ATTACKS: &str = "3 5 8 9 10 11 12 13 14 15 19 27 35 43 51 59";

const BLACK_ATTACKS: &str = "11 18 25 41 50 54 55 59 62";

/// Whether the square's number is among the words.
fn is_listed(x: Square, words: &str) -> bool {
    for word in words.split_ascii_whitespace() {
        if square(word) == Some(x) {
            return true;
        }
    }
    false
}

#[test]
fn squares_are_attacked_as_in_chess(rt: HostRuntime) {
    let p = sound(&rt, "K4 R11 b32 k63,w,-");
    for number in 0..64 {
        let x = Square::new(number).expect(&rt, "a square");
        assert!(rt;
            p.attacked(x, White) == is_listed(x, WHITE_ATTACKS),
            "{number}"
        );
        assert!(rt;
            p.attacked(x, Black) == is_listed(x, BLACK_ATTACKS),
            "{number}"
        );
    }
}

/// The symmetry of these letters, f for files, r for ranks, d for diagonal and c for colours.
fn symmetry(letters: &str) -> Symmetry {
    Symmetry {
        files: letters.contains('f'),
        ranks: letters.contains('r'),
        diagonal: letters.contains('d'),
        colours: letters.contains('c'),
    }
}

/// The position has the image of each row under the symmetry in the row's last field.
fn expect_images(rt: &impl Abort, p: &Position, rows: &str) {
    for row in rows.lines() {
        let s = symmetry(field(row, 3));
        assert!(rt; p.admits(&s), "{row}");
        assert!(rt; sound(rt, row) == p.turned(&s), "{row}");
    }
}

/// Men on squares, the side to move, no passed square, and the letters of the symmetry that leads to them.
const IMAGES: &str = "\
K41 k56 R7,w,-,-
K46 k63 R0,w,-,f
K17 k0 R63,w,-,r
K22 k7 R56,w,-,fr
K13 k7 R56,w,-,d
K53 k63 R0,w,-,fd
K10 k0 R63,w,-,rd
K50 k56 R7,w,-,frd
k17 K0 r63,b,-,c
k22 K7 r56,b,-,fc
k41 K56 r7,b,-,rc
k46 K63 r0,b,-,frc
k53 K63 r0,b,-,dc
k13 K7 r56,b,-,fdc
k50 K56 r7,b,-,rdc
k10 K0 r63,b,-,frdc";

/// The images of White's Kb6 and Rh1 against the king on a8, White to move, made independently of this program.
#[test]
fn a_position_without_pawns_has_sixteen_images(rt: HostRuntime) {
    let p = sound(&rt, "K41 k56 R7,w,-");
    expect_images(&rt, &p, IMAGES);
}

/// Men on squares, the side to move, the passed square, and the letters of the symmetry that leads to them.
const IMAGES_WITH_PAWNS: &str = "\
k31 P28 p27 K3,b,20,f
K32 p35 P36 k60,w,43,c
K39 p36 P35 k59,w,44,fc";

/// With pawns only the file mirror and the swap of colours are left, and the passed square moves along.
#[test]
fn a_position_with_pawns_has_four_images(rt: HostRuntime) {
    let p = sound(&rt, "k24 P27 p28 K4,b,19");
    expect_images(&rt, &p, IMAGES_WITH_PAWNS);
    for letters in "r d rd".split(' ') {
        assert!(rt; !p.admits(&symmetry(letters)), "{letters}");
    }
}
