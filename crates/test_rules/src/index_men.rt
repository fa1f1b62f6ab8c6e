//! The men that a number encodes, and the numbers after one of them has moved.
use crate::men::{man, side, square};
use crate::rows::{field, number};
use std::process::Abort;
use study_board::Man;
use study_index::{decode_men, index_after_move, index_after_step};
use study_material::Class;
use study_values::cells;

/// The class that a row begins with, and the number that follows.
fn start(rt: &impl Abort, row: &str) -> (Class, u32) {
    match (Class::parse(field(row, 0)), number(field(row, 1))) {
        (Ok(class), Some(number)) => (class, number),
        _ => panic!(rt; "{row}"),
    }
}

/// Whether the man of a slot is that of the word.
fn is_man(men: &[Man], slot: usize, word: &str) -> bool {
    match (men.get(slot), man(word)) {
        (Some(m), Some(want)) => *m == want,
        _ => false,
    }
}

/// Classes, numbers, the men in the order of their slots and the side to move, by the digits of the numbers.
const DECODED: &str = "\
KK,658,K0 k18,b
KRK,20543,K10 k0 R63,w
KPK,85536,K40 k56 P32,w
KRKN,3795468,K9 k30 R40 n12,b
KNNK,1995368,K18 k39 N9 N40,w
KPPK,778964,K2 k62 P11 P20,w
KPKP,26081051,K3 k31 P28 p27,b";

#[test]
fn numbers_tell_their_men(rt: HostRuntime) {
    for row in DECODED.lines() {
        let (class, number) = start(&rt, row);
        let setup = decode_men(class, number);
        let mut slot = 0usize;
        for word in field(row, 2).split_ascii_whitespace() {
            assert!(rt; is_man(setup.men.as_slice(), slot, word), "{row}");
            slot = slot.saturating_add(1);
        }
        assert!(rt; slot == setup.men.len(), "{row}");
        assert!(rt; setup.to_move == side(field(row, 3)), "{row}");
    }
}

/// Classes, numbers, slots, the squares to which their men go, and the numbers after that, by another program.
/// White's king crosses the middle and the diagonal, or is on the diagonal; like men pass one another.
const STEPPED: &str = "\
KRK,20543,2,55,61495
KRK,20543,2,61,61501
KRK,20543,0,17,61503
KRK,20543,0,18,69695
KRK,20543,0,9,57407
KRKN,3795468,1,29,1169932
KRKN,3795468,1,23,1145356
KRKN,3795468,3,2,1174018
KRKN,3795468,3,22,1174038
KRKN,1174028,2,33,3795020
KRKN,1174028,2,47,3795916
KRKN,1174028,0,0,2746892
KRKN,1174028,0,1,3009036
KQQK,377064,2,59,3000891
KQQK,377064,3,0,2998275
KQQK,377064,0,10,4047080
KNNK,1995368,2,20,4617512
KNNK,1995368,3,24,4616792
KNNK,1995368,3,3,4616393
KNNK,1995368,0,27,5141096
KPK,85536,0,41,220704
KPPK,778964,2,27,9168155
KPPK,778964,3,28,9167580
KPPK,778964,0,4,9409299
KQKP,9422001,3,41,1033385
KQKP,9422001,1,52,1000625
KPKP,258678,2,17,8647798
KPKP,258678,0,1,8909430
KK,658,1,26,19
KK,658,1,27,27";

/// Whether the man of the row's slot leads to its last number, by its slot and by its square.
fn leads_on(rt: &impl Abort, row: &str) -> bool {
    let (class, from) = start(rt, row);
    let slot = number(field(row, 2)).expect(rt, row);
    let to = square(field(row, 3)).expect(rt, row);
    let want = number(field(row, 4));
    assert!(rt; from < cells(class), "{row}");
    let setup = decode_men(class, from);
    assert!(rt; (slot as usize) < setup.men.len(), "{row}");
    match setup.men.as_slice().get(slot as usize) {
        None => false,
        Some(m) => {
            want == Some(index_after_step(class, from, slot, to))
                && want == Some(index_after_move(class, from, m.at, to))
        }
    }
}

#[test]
fn a_man_of_a_slot_leads_to_another_number(rt: HostRuntime) {
    for row in STEPPED.lines() {
        assert!(rt; leads_on(&rt, row), "{row}");
    }
}
