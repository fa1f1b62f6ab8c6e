//! The tables of up to three men, against those of an independent builder.
use crate::rows::{byte, class, field, number};
use crate::tables::{build_table, change_cell, is_verified, set_of, table_of};
use sha2::{Digest, Sha256};
use std::alloc::Allocator;
use std::process::Abort;
use study_material::Class;
use study_retro::{BuildFault, BuildReport, BuildRoom, build};
use study_table::{AddFault, Table, TableSet};
use study_values::cells;

/// Whether the cells have this SHA-256, in hexadecimal digits.
fn is_digest(cells: &[u8], wanted: &str) -> bool {
    let mut hasher = Sha256::new();
    hasher.update(cells);
    let digest = hasher.finalize();
    let digits = wanted.as_bytes();
    let mut same = digits.len() == 64;
    for (byte, pair) in digest.as_slice().iter().zip(digits.chunks(2)) {
        let value = match pair {
            [high, low] => hex(*high).saturating_mul(16).saturating_add(hex(*low)),
            _ => 0,
        };
        same = same && *byte == value;
    }
    same
}

fn hex(digit: u8) -> u8 {
    match digit {
        b'0'..=b'9' => digit - b'0',
        b'a'..=b'f' => digit - b'a' + 10,
        _ => 0,
    }
}

/// Classes, cells, deepest distances of a win and of a loss, the number of examined numbers, and digests of the cells. The examined numbers are those
/// of a plain program that works backwards as `build` does; the rest is from a builder of another kind that was compared with Gaviota's tables.
const ROWS: &str = "\
KK,1280,-,-,1280,bfe492baf731a0dbf6e1e050f5bc3fe8c1b049383194dcdf82f023bfa409f462
KQK,81920,19,20,757847,9e23e4707fb87fc86cd619e4f11e27584156c99755bf56bd75beb08a2529a694
KRK,81920,31,32,736022,c44ba016cdd825eddc9b922d55db18a9147c60cb9978c9a8b62eb20a44c0f5ba
KBK,81920,-,-,81920,fa569e2360c540e6280e34a4627516770f1a5f34d81d35689334a99cc1013357
KNK,81920,-,-,81920,fa569e2360c540e6280e34a4627516770f1a5f34d81d35689334a99cc1013357
KPK,262144,55,56,1206872,31f08f445b1142f1498bb03d4257b8142e27cd53763635385fc85788e8edc067";

/// Whether the report has the cells and the deepest distances of a row.
fn is_report(rt: &impl Abort, report: &BuildReport, row: &str) -> bool {
    report.cells == number(rt, field(row, 1))
        && report.deepest_win == byte(field(row, 2))
        && report.deepest_loss == byte(field(row, 3))
}

/// Whether the table has the class and the digest of a row.
fn is_table<A: Allocator>(rt: &impl Abort, table: &Table<'_, A>, row: &str) -> bool {
    table.class() == class(rt, field(row, 0)) && is_digest(table.cells(), field(row, 5))
}

#[test]
fn tables_of_up_to_three_men_are_those_of_another_builder(rt: HostRuntime) {
    let alloc = rt.alloc();
    let mut tables = TableSet::new(&alloc).ok().expect(&rt, "a set");
    for row in ROWS.lines() {
        let class = class(&rt, field(row, 0));
        assert!(rt; !tables.ready(Class::KPK) || class == Class::KPK, "{row}");
        let report = build_table(&rt, &alloc, &mut tables, class);
        assert!(rt; is_report(&rt, &report, row), "{row}");
        assert!(rt;
            report.examined == u64::from(number(&rt, field(row, 4))),
            "{row}"
        );
        let table = tables.table(class).expect(&rt, "held");
        assert!(rt; is_table(&rt, table, row), "{row}");
    }
}

/// Why a table with so many cells is not built, if it is not.
fn fault_of<'a, A: Allocator>(
    rt: &impl Abort,
    alloc: &'a A,
    tables: &TableSet<'a, A>,
    class: Class,
    count: u32,
) -> Option<BuildFault> {
    assert!(rt; count == cells(class));
    let room = BuildRoom::new(alloc, cells(class)).ok().expect(rt, "room");
    build(class, tables, room).err()
}

/// Whether the set refuses a table for this fault, and returns it.
fn is_refused<'a, A: Allocator>(
    tables: &mut TableSet<'a, A>,
    table: Table<'a, A>,
    fault: AddFault,
) -> bool {
    let class = table.class();
    match tables.add(table) {
        Ok(()) => false,
        Err(refused) => refused.fault == fault && refused.table.class() == class,
    }
}

/// A table is refused if its needs are not loaded, or if it is loaded already; it is returned, and the set is unchanged.
#[test]
fn a_table_is_refused_without_its_needs_or_twice(rt: HostRuntime) {
    let alloc = rt.alloc();
    let tables = set_of(&rt, &alloc, &[Class::KK]);
    let fault = fault_of(&rt, &alloc, &tables, Class::KPK, 262_144);
    assert!(rt; fault == Some(BuildFault::MissingTable(Class::KQK)));
    let fault = fault_of(&rt, &alloc, &tables, Class::KPKP, 33_554_432);
    assert!(rt; fault == Some(BuildFault::MissingTable(Class::KPK)));
    for fault in [AddFault::MissingTable(Class::KK), AddFault::AlreadyHeld] {
        let (table, _) = table_of(&rt, &alloc, &tables, Class::KQK);
        assert!(rt; table.class() == Class::KQK);
        let held = fault == AddFault::AlreadyHeld;
        let classes: &[Class] = if held { &[Class::KK, Class::KQK] } else { &[] };
        let mut others = set_of(&rt, &alloc, classes);
        assert!(rt; is_refused(&mut others, table, fault), "{fault}");
        assert!(rt; others.has(Class::KQK) == held, "{fault}");
    }
}

/// The cell of a number in the loaded table of a class.
fn cell_of<A: Allocator>(
    rt: &impl Abort,
    tables: &TableSet<'_, A>,
    class: Class,
    number: usize,
) -> u8 {
    let table = tables.table(class).expect(rt, "held");
    *table.cells().get(number).expect(rt, "a cell")
}

/// Classes, numbers, right cells, and wrong cells in their places.
const LIES: &str = "\
KRK,20543,2,4
KRK,20543,2,0
KQK,41421,0,1
KQK,44585,0,1";

/// The loaded table with the wrong cell of a row.
fn liar<'a, A: Allocator>(
    rt: &impl Abort,
    alloc: &'a A,
    tables: &TableSet<'a, A>,
    row: &str,
) -> Table<'a, A> {
    let class = class(rt, field(row, 0));
    let number = number(rt, field(row, 1)) as usize;
    let is = cell_of(rt, tables, class, number);
    assert!(rt; byte(field(row, 2)) == Some(is), "{row}");
    let lie = byte(field(row, 3)).expect(rt, "a cell");
    change_cell(rt, alloc, tables, class, number, lie)
}

/// A built table is verified; one with a slower mate, a false draw, a stalemate as a mate, or a byte for a number without a position, is not.
#[test]
fn verify_tells_right_tables_from_wrong_ones(rt: HostRuntime) {
    let alloc = rt.alloc();
    let tables = set_of(&rt, &alloc, &[Class::KK, Class::KQK, Class::KRK]);
    for class in [Class::KQK, Class::KRK] {
        let table = tables.table(class).expect(&rt, "held");
        assert!(rt; is_verified(&rt, table, &tables), "{class:?}");
    }
    for row in LIES.lines() {
        let liar = liar(&rt, &alloc, &tables, row);
        assert!(rt; !is_verified(&rt, &liar, &tables), "{row}");
    }
}

/// Room for the tables of each size.
#[test]
fn each_size_of_table_has_room(rt: HostRuntime) {
    let alloc = rt.alloc();
    for count in [1_280, 81_920, 262_144, 5_242_880, 16_777_216, 33_554_432] {
        let room = BuildRoom::new(&alloc, count).ok().expect(&rt, "room");
        assert_eq!(rt; room.cells(), count);
    }
}
