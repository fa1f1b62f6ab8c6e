//! Mutual zugzwangs, and mistakes that only lose time, with king and pawn: by an independent program's list of all mutual zugzwangs, and by another
//! one's search for moves after which the opponent forces a position of the line.
use crate::studies::{Moves, position_of, study, tables_of, white};
use std::alloc::Global;
use std::process::Abort;
use study_board::Side;
use study_facts::{Zugzwang, zugzwang_at};
use study_material::Class;
use study_prober::{FailingValues, WholeTables};
use study_review::write_review;
use study_text::MemoryWriter;
use study_values::{ProbeFault, SourceFault, Values};

fn tables<'a>(rt: &impl Abort, alloc: &'a Global) -> WholeTables<'a, Global> {
    let classes = [
        Class::KK,
        Class::KQK,
        Class::KRK,
        Class::KBK,
        Class::KNK,
        Class::KPK,
    ];
    tables_of(rt, alloc, &classes)
}

/// Positions, and the kind of mutual zugzwang each is: the first of the list with either side to move, its mirror image, the same with colours
/// exchanged, the black king on the next square, a check, and two bare kings.
const ROWS: [(&str, Option<Zugzwang>); 8] = [
    (
        "8/8/8/k7/8/K7/1P6/8 w - - 0 1",
        Some(Zugzwang::Half(Side::White)),
    ),
    (
        "8/8/8/k7/8/K7/1P6/8 b - - 0 1",
        Some(Zugzwang::Half(Side::White)),
    ),
    (
        "8/8/8/7k/8/7K/6P1/8 w - - 0 1",
        Some(Zugzwang::Half(Side::White)),
    ),
    (
        "8/1p6/k7/8/K7/8/8/8 w - - 0 1",
        Some(Zugzwang::Half(Side::Black)),
    ),
    (
        "8/1p6/k7/8/K7/8/8/8 b - - 0 1",
        Some(Zugzwang::Half(Side::Black)),
    ),
    ("8/8/8/1k6/8/K7/1P6/8 w - - 0 1", None),
    ("8/8/8/8/1k6/2P5/8/K7 b - - 0 1", None),
    ("k7/8/8/8/8/8/8/K7 w - - 0 1", None),
];

#[test]
fn mutual_zugzwangs_are_those_of_the_list(rt: HostRuntime) {
    let alloc = rt.alloc();
    let mut values = tables(&rt, &alloc);
    for (fen, wanted) in ROWS {
        let found = zugzwang_at(&position_of(&rt, fen), &mut values);
        assert!(rt; found == Ok(wanted), "{fen}");
    }
}

/// One probe after the other fails, and a table is missing: the fault is reported, and no more is probed.
#[test]
fn a_zugzwang_is_not_evaluated_where_a_value_is_not(rt: HostRuntime) {
    let alloc = rt.alloc();
    let p = position_of(&rt, "8/8/8/k7/8/K7/1P6/8 w - - 0 1");
    let mut none = tables_of(&rt, &alloc, &[Class::KK]);
    assert!(rt; zugzwang_at(&p, &mut none) == Err(ProbeFault::NoTable(Class::KPK)));
    let mut values = FailingValues::new(tables(&rt, &alloc), u64::MAX);
    for k in 0..2u64 {
        values.asked = 0;
        values.fails_at = Some(k);
        let device = Err(ProbeFault::TableRead(SourceFault::Device));
        assert!(rt; zugzwang_at(&p, &mut values) == device, "{k}");
        assert!(rt; values.asked() == k + 1, "{k}");
    }
}

/// Beside 2. b5+ only 2. Kc5 wins, after which Black goes back to a7.
const LOST_TIME: &[(&str, Moves, &[u8])] = &[(
    "8/k7/8/2K5/1P6/8/8/8 w - - 0 1",
    &[(&[], "Kc6"), (&[0], "Ka6"), (&[0, 0], "b5+")],
    b"dual 1 time 1\nwaste sound but for loss of time\nmissing ",
)];

/// The line comes right after the faults.
#[test]
fn loss_of_time_has_a_line_of_its_own(rt: HostRuntime) {
    let alloc = rt.alloc();
    let mut values = tables(&rt, &alloc);
    for (fen, moves, wanted) in LOST_TIME {
        let bench = study(&rt, &alloc, fen, white(&rt, None), moves, &mut values);
        let mut out = MemoryWriter::new(&alloc);
        assert!(rt; write_review(&alloc, &bench, &mut values, 1, &mut out).is_ok());
        let text = out.taken.as_slice();
        let there = text.windows(wanted.len()).any(|part| part == *wanted);
        assert!(rt; there, "{fen}");
    }
}
