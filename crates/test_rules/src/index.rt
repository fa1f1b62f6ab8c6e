//! Worked positions, and whole classes.
use crate::index_samples::SAMPLES;
use crate::men::{man_at, side, square};
use crate::rows::{field, number};
use arrayvec::ArrayVec;
use std::process::Abort;
use study_board::{Man, Position, Square};
use study_index::{decode, index};
use study_material::{Class, class_of};
use study_values::cells;

/// The men of a FEN's placement.
fn men(placement: &str) -> Option<ArrayVec<Man, 4>> {
    let mut men = ArrayVec::new();
    let mut at = 56u8;
    for letter in placement.bytes() {
        if letter == b'/' {
            at = at.saturating_sub(16);
        } else if letter.is_ascii_digit() {
            at = at.saturating_add(letter.saturating_sub(b'0'));
        } else {
            if men.is_full() {
                return None;
            }
            men.push(man_at(letter, Square::new(at)?)?);
            at = at.saturating_add(1);
        }
    }
    Some(men)
}

/// The position of a row's first three fields: the placement, the side to move and the passed square.
fn position(row: &str) -> Option<Position> {
    let men = men(field(row, 0))?;
    Position::new(men.as_slice(), side(field(row, 1)), square(field(row, 2))).ok()
}

/// The position that a row begins with, which has no fault.
fn sound(rt: &impl Abort, row: &str) -> Position {
    match position(row) {
        Some(p) => p,
        None => panic!(rt; "{row}"),
    }
}

/// Whether the position of a row has the class and the index of the row's last two fields.
fn is_right(row: &str) -> bool {
    match position(row) {
        Some(p) => class_of(&p).0.name() == field(row, 3) && has_number(&p, field(row, 4)),
        None => false,
    }
}

/// Whether this is the index of the position.
fn has_number(p: &Position, text: &str) -> bool {
    number(text) == Some(index(p))
}

/// The number of rows, each of which is right.
fn right_rows(rt: &impl Abort, rows: &str) -> u32 {
    let mut right = 0u32;
    for row in rows.lines() {
        assert!(rt; is_right(row), "{row}");
        right = right.saturating_add(1);
    }
    right
}

#[test]
fn numbers_are_those_of_another_program(rt: HostRuntime) {
    assert!(rt; right_rows(&rt, SAMPLES) == 250);
}

/// Whether the number encodes no position.
fn is_of_none(class: Class, number: u32) -> bool {
    decode(class, number).is_none()
}

/// Placements, sides to move, 64 for no passed square, whether the colours are swapped in the class, and the numbers.
const WORKED: &str = "\
k7/8/1K6/8/8/8/8/7R,w,64,false,20543
7r/8/8/8/8/1k6/8/K7,b,64,true,20543
k7/8/1Q6/8/8/8/8/K7,b,64,false,41421
8/8/8/8/8/8/1R1K4/k7,b,64,false,65545
k7/8/K7/P7/8/8/8/8,w,64,false,85536";

#[test]
fn worked_positions_have_their_numbers(rt: HostRuntime) {
    for row in WORKED.lines() {
        let p = sound(&rt, row);
        assert!(rt; class_of(&p).1 == (field(row, 3) == "true"), "{row}");
        assert!(rt; has_number(&p, field(row, 4)), "{row}");
    }
    assert!(rt; is_of_none(Class::KQK, 44_585));
    let passed = sound(&rt, "8/8/8/8/4P3/k7/8/4K3,b,20");
    let plain = sound(&rt, "8/8/8/8/4P3/k7/8/4K3,b,64");
    assert!(rt; passed.passed().is_some());
    assert!(rt; index(&passed) == index(&plain));
}

/// Placements, the side to move, passed squares (64 for none) and numbers.
const EN_PASSANT: &str = "\
8/8/8/8/k2Pp3/8/8/4K3,b,19,26081051
8/8/8/8/k2Pp3/8/8/4K3,b,64,9303835
8/8/8/8/k2P3p/8/8/4K3,b,19,9303832
8/8/8/8/k2P3p/8/8/4K3,b,64,9303832";

#[test]
fn en_passant_has_numbers_of_its_own_where_it_can_be_played(rt: HostRuntime) {
    for row in EN_PASSANT.lines() {
        assert!(rt; has_number(&sound(&rt, row), field(row, 3)), "{row}");
    }
    let want = sound(&rt, "8/8/8/8/3pP2k/8/8/3K4,b,20");
    let read = decode(Class::KPKP, 26_081_051).expect(&rt, "a position");
    assert!(rt; read == want);
    assert!(rt; is_of_none(Class::KPKP, 26_081_048));
    assert!(rt; is_of_none(Class::KPKP, 33_554_432));
}

/// Numbers of cells, and the classes that have so many.
const CELLS: &str = "\
1280,KK
81920,KQK KRK KBK KNK
262144,KPK
5242880,KQQK KQRK KQBK KQNK KRRK KRBK KRNK KBBK KBNK KNNK
5242880,KQKQ KQKR KQKB KQKN KRKR KRKB KRKN KBKB KBKN KNKN
16777216,KQPK KRPK KBPK KNPK KPPK KQKP KRKP KBKP KNKP
33554432,KPKP";

#[test]
fn each_class_has_its_number_of_cells(rt: HostRuntime) {
    for row in CELLS.lines() {
        for name in field(row, 1).split(' ') {
            assert!(rt; has_cells(name, field(row, 0)), "{name}");
        }
    }
}

/// Whether the class of the name has this number of cells.
fn has_cells(name: &str, text: &str) -> bool {
    match Class::parse(name) {
        Ok(class) => number(text) == Some(cells(class)),
        Err(_) => false,
    }
}

/// The numbers of the class that are decoded as positions, and how many of these have another index.
fn count_numbers(class: Class) -> (u32, u32) {
    let (mut found, mut others) = (0u32, 0u32);
    for n in 0..cells(class) {
        if let Some(q) = decode(class, n) {
            found = found.saturating_add(1);
            if index(&q) != n {
                others = others.saturating_add(1);
            }
        }
    }
    (found, others)
}

#[test]
fn small_classes_have_as_many_positions_as_outside(rt: HostRuntime) {
    for (class, want) in [
        (Class::KK, 924),
        (Class::KQK, 46_137),
        (Class::KRK, 50_015),
        (Class::KBK, 52_234),
        (Class::KNK, 53_806),
        (Class::KPK, 165_676),
    ] {
        assert_eq!(rt; count_numbers(class), (want, 0), "{}", class.name());
    }
}
