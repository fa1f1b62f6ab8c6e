//! The numbers after one man moves from its square to any other.
use crate::men::square;
use crate::rows::{field, number};
use std::process::Abort;
use study_board::Square;
use study_index::{IndexAfterMove, RowIndexAfterMove, row_of_last_man};
use study_material::Class;
use study_values::cells;

/// Classes, numbers, the square a man leaves, the squares it moves to, and the numbers after that, by another program. The white king moves, or is on
/// the diagonal; like men pass one another; or a square is replaced.
const DEPARTURES: &str = "\
KRK,20543,63,55 61,61495 61501
KRK,20543,10,17 18 9,61503 69695 57407
KRKN,3795468,30,29 23,1169932 1145356
KRKN,1174028,40,33 47,3795020 3795916
KRKN,1174028,9,0 1,2746892 3009036
KQQK,377064,40,0,2998275
KNNK,1995368,40,24 3,4616792 4616393
KPK,85536,40,41 42,220704 224800
KPPK,778964,11,19 27,9168084 9168155
KQKP,9422001,49,41 33,1033385 1033377
KPKP,258678,9,17,8647798
KK,658,18,26 27,19 27";

/// Classes, numbers, the square a man leaves, the squares it moves to, its slot, and the rows of the numbers after that, a 64th of them: `-` if the
/// white king is on the diagonal or comes to it or to a square that is not listed, if two men are like, and if the man is the last.
const ROWS: &str = "\
KRKN,1174028,9,0 1,0,- 47016
KPK,85536,40,41 42,0,3448 3512
KPKP,258678,9,17,2,135121
KRK,49108,63,62 55,1,126 119
KRK,20543,10,17 18 9,0,- - -
KRK,20543,63,55 61,2,- -
KRKN,1174028,40,33 47,2,- -
KQQK,377064,40,0,3,-
KPPK,778964,11,19 27,2,- -
KK,658,18,26 27,1,- -";

/// Classes, numbers, and the rows of the numbers after the last man has moved: `-` if the white king is on the diagonal or two men are like.
const ROWS_OF_LAST: &str = "\
KRK,20543,960
KQKP,9422001,16146
KRKN,1174028,-
KQQK,377064,-
KNNK,1995368,-";

/// The man leads to each number of the row, whatever slot is given for it, alone or among a row of numbers.
fn expect_numbers(rt: &impl Abort, row: &str) {
    let class = Class::parse(field(row, 0)).ok().expect(rt, row);
    let start = number(field(row, 1)).expect(rt, row);
    let from = square(field(row, 2)).expect(rt, row);
    assert!(rt; start < cells(class), "{row}");
    for slot in 0..5 {
        expect_numbers_by(rt, row, &IndexAfterMove::new(class, start, from, slot));
        if let Some(departure) = RowIndexAfterMove::new(class, start / 64, from, slot) {
            expect_numbers_in_row(rt, row, &departure, start);
        }
    }
}

/// The departure by the numbers of a row leads from the number to each number of the text.
fn expect_numbers_in_row(rt: &impl Abort, row: &str, departure: &RowIndexAfterMove, start: u32) {
    let last = Square::new((start % 64) as u8).expect(rt, row);
    let mut wants = field(row, 4).split(' ');
    for word in field(row, 3).split(' ') {
        let to = square(word).expect(rt, row);
        let want = number(wants.next().unwrap_or(""));
        assert!(rt;
            want == Some(departure.number_to(to, last)),
            "{row}: {word}"
        );
    }
}

/// The departure leads to each number of the row.
fn expect_numbers_by(rt: &impl Abort, row: &str, departure: &IndexAfterMove) {
    let mut wants = field(row, 4).split(' ');
    for word in field(row, 3).split(' ') {
        let to = square(word).expect(rt, row);
        let want = number(wants.next().unwrap_or(""));
        assert!(rt; want == Some(departure.number_to(to)), "{row}: {word}");
    }
    assert!(rt; wants.next().is_none(), "{row}");
}

#[test]
fn a_man_leads_to_a_number_for_each_square(rt: HostRuntime) {
    for row in DEPARTURES.lines() {
        expect_numbers(&rt, row);
    }
}

/// The man of the slot leads to each row, and that of another slot to none.
fn expect_rows(rt: &impl Abort, row: &str) {
    let class = Class::parse(field(row, 0)).ok().expect(rt, row);
    let start = number(field(row, 1)).expect(rt, row);
    let from = square(field(row, 2)).expect(rt, row);
    let filled = number(field(row, 4)).expect(rt, row);
    assert!(rt; start < cells(class), "{row}");
    for slot in 0..5 {
        let departure = RowIndexAfterMove::new(class, start / 64, from, slot);
        let before_last = slot as usize + 1 < field(row, 0).len();
        assert!(rt;
            departure.is_some() == (slot == filled && before_last),
            "{row}: {slot}"
        );
        expect_rows_by(rt, row, departure, slot == filled);
    }
}

/// The departure leads to each row, if the slot is the man's.
fn expect_rows_by(rt: &impl Abort, row: &str, departure: Option<RowIndexAfterMove>, filled: bool) {
    let mut wants = field(row, 5).split(' ');
    for word in field(row, 3).split(' ') {
        let to = square(word).expect(rt, row);
        let want = number(wants.next().unwrap_or(""));
        let got = departure.and_then(|d| d.row_to(to));
        assert!(rt; got == if filled { want } else { None }, "{row}: {word}");
    }
    assert!(rt; wants.next().is_none(), "{row}");
}

#[test]
fn a_man_leads_to_a_row_for_each_square(rt: HostRuntime) {
    for row in ROWS.lines() {
        expect_rows(&rt, row);
    }
}

/// The last man leads to the row.
fn expect_row_of_last(rt: &impl Abort, row: &str) {
    let class = Class::parse(field(row, 0)).ok().expect(rt, row);
    let start = number(field(row, 1)).expect(rt, row);
    assert!(rt; start < cells(class), "{row}");
    let want = number(field(row, 2));
    assert!(rt; row_of_last_man(class, start / 64) == want, "{row}");
}

#[test]
fn the_last_man_leads_to_a_row(rt: HostRuntime) {
    for row in ROWS_OF_LAST.lines() {
        expect_row_of_last(&rt, row);
    }
}
