//! Rows of only moves, over built tables of king and rook.

use std::alloc::Global;
use std::process::Abort;
use study_board::{Position, Square};
use study_material::Class;
use study_notation::read_fen;
use study_prober::{FailingValues, WholeTables};
use study_retro::{BuildRoom, build};
use study_search::{Outcome, Row, longest_row, row_of};
use study_table::TableSet;
use study_values::{ProbeFault, SourceFault, cells};

/// Black, who is in check beside an unprotected rook, draws. By hand: he has to take it; of White's moves Kg6 and Kf7 leave the bare king one move, and
/// Kg6 comes first; then all moves of a bare king draw that it has in the corner.
const FEN: &str = "6kR/8/5K2/8/8/8/8/8 b - - 0 1";

/// Kxh8, Kg6, Kg8.
const TARGETS: [u8; 3] = [63, 46, 62];

fn tables<'a>(rt: &impl Abort, alloc: &'a Global) -> WholeTables<'a, Global> {
    let mut set = TableSet::new(alloc).ok().expect(rt, "a set");
    for class in [Class::KK, Class::KRK] {
        let room = BuildRoom::new(alloc, cells(class)).ok().expect(rt, "room");
        let (table, _) = build(class, &set, room).ok().expect(rt, "a table");
        assert!(rt; set.add(table).is_ok());
    }
    WholeTables::new(set)
}

fn position(rt: &impl Abort, fen: &str) -> Position {
    read_fen(fen).ok().expect(rt, "a position").position
}

fn has_targets(row: &Row, targets: &[u8]) -> bool {
    let moves = row.as_slice();
    if moves.len() != targets.len() {
        return false;
    }
    for (m, target) in moves.iter().zip(targets) {
        if Some(m.target) != Square::new(*target) {
            return false;
        }
    }
    true
}

#[test]
fn a_row_has_each_defence_and_its_answer(rt: HostRuntime) {
    let alloc = rt.alloc();
    let mut values = tables(&rt, &alloc);
    let p = position(&rt, FEN);
    for (n, targets) in [(0u8, &TARGETS[..0]), (1, &TARGETS[..1]), (2, &TARGETS[..])] {
        let row = row_of(&p, Outcome::Draw, n, &mut values).ok();
        let Some(Some(row)) = row else {
            panic!(rt; "no row");
        };
        assert!(rt; has_targets(&row, targets), "{n}");
    }
    assert!(rt;
        row_of(&p, Outcome::Draw, 3, &mut values)
            .ok()
            .expect(&rt, "values")
            .is_none()
    );
    assert!(rt;
        row_of(&p, Outcome::Win, 0, &mut values)
            .ok()
            .expect(&rt, "values")
            .is_none()
    );
}

#[test]
fn the_longest_row_is_found_up_to_a_limit(rt: HostRuntime) {
    let alloc = rt.alloc();
    let mut values = tables(&rt, &alloc);
    let p = position(&rt, FEN);
    for (limit, count, targets) in [(12u8, 2u8, &TARGETS[..]), (1, 1, &TARGETS[..1])] {
        let found = longest_row(&p, Outcome::Draw, limit, &mut values).ok();
        let Some(Some(found)) = found else {
            panic!(rt; "no row");
        };
        assert!(rt;
            found.count == count && has_targets(&found.row, targets),
            "{limit}"
        );
    }
    let mated = position(&rt, "k7/1R6/8/K7/8/8/8/8 w - - 0 1");
    assert!(rt;
        longest_row(&mated, Outcome::Draw, 12, &mut values)
            .ok()
            .expect(&rt, "values")
            .is_none()
    );
}

/// Each probe fails in turn; each fault is reported, and at last there is none.
#[test]
fn rows_report_each_fault(rt: HostRuntime) {
    let alloc = rt.alloc();
    let mut values = tables(&rt, &alloc);
    let p = position(&rt, FEN);
    for fails_at in 0..1000u64 {
        let mut failing = FailingValues::new(values, fails_at);
        match longest_row(&p, Outcome::Draw, 12, &mut failing) {
            Err(fault) => {
                assert!(rt;
                    fault == ProbeFault::TableRead(SourceFault::Device),
                    "{fails_at}"
                );
            }
            Ok(found) => {
                assert!(rt; failing.failures == 0 && found.expect(&rt, "a row").count == 2);
                assert!(rt; fails_at > 20);
                return;
            }
        }
        values = failing.values;
    }
    panic!(rt; "it never ends");
}
