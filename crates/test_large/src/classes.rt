//! A class whose table is compared with another builder's, and a class each of whose numbers is read.
use sha2::{Digest, Sha256};
use std::alloc::Allocator;
use std::process::Abort;
use study_index::{decode, index};
use study_material::Class;
use study_retro::{BuildReport, BuildRoom, build};
use study_table::{Table, TableSet};
use study_values::cells;

/// The SHA-256 of the cells of a rook against a knight, of a builder of another kind that was compared with Gaviota's tables.
const ROOK_AGAINST_KNIGHT: &str =
    "f353322202ada647a9d51aac5b2f766639a86c03e1793313f7775d72b84f1fec";

/// Whether the cells have this SHA-256, in hexadecimal digits.
fn is_digest(cells: &[u8], wanted: &str) -> bool {
    let mut hasher = Sha256::new();
    hasher.update(cells);
    let digest = hasher.finalize();
    let digits = wanted.as_bytes();
    let mut same = digits.len() == 64;
    for (byte, pair) in digest.as_slice().iter().zip(digits.chunks(2)) {
        let value = match pair {
            [high, low] => hex(*high).saturating_mul(16).saturating_add(hex(*low)),
            _ => 0,
        };
        same = same && *byte == value;
    }
    same
}

fn hex(digit: u8) -> u8 {
    match digit {
        b'0'..=b'9' => digit - b'0',
        b'a'..=b'f' => digit - b'a' + 10,
        _ => 0,
    }
}

/// A table, built over the tables of a set, and the report.
fn table_of<'a, A: Allocator>(
    rt: &impl Abort,
    alloc: &'a A,
    tables: &TableSet<'a, A>,
    class: Class,
) -> (Table<'a, A>, BuildReport) {
    let room = BuildRoom::new(alloc, cells(class)).ok().expect(rt, "room");
    build(class, tables, room).ok().expect(rt, "a table")
}

/// A rook against a knight: five million cells, with the deepest mate in 40 moves.
#[test]
fn rook_against_knight_is_that_of_another_builder(rt: HostRuntime) {
    let alloc = rt.alloc();
    let mut tables = TableSet::new(&alloc).ok().expect(&rt, "a set");
    for class in [Class::KK, Class::KRK, Class::KNK] {
        let (table, _) = table_of(&rt, &alloc, &tables, class);
        assert!(rt; tables.add(table).is_ok());
    }
    let (table, report) = table_of(&rt, &alloc, &tables, Class::KRKN);
    assert!(rt; report.cells == 5_242_880);
    assert!(rt; report.deepest_win == Some(79) && report.deepest_loss == Some(80));
    assert!(rt; table.class() == Class::KRKN && is_digest(table.cells(), ROOK_AGAINST_KNIGHT));
}

/// The numbers of KPKP that are decoded as positions with an en passant square, and how many of these have another index.
fn en_passant_positions() -> (u32, u32) {
    let (mut found, mut others) = (0u32, 0u32);
    for n in 16_777_216..33_554_432u32 {
        if let Some(q) = decode(Class::KPKP, n) {
            found = found.saturating_add(1);
            if q.passed().is_none() || index(&q) != n {
                others = others.saturating_add(1);
            }
        }
    }
    (found, others)
}

#[test]
fn each_en_passant_position_of_kpkp_has_its_number(rt: HostRuntime) {
    assert_eq!(rt; en_passant_positions(), (43_786, 0));
}
