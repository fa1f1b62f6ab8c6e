//! Values through pages that are kept, read, damaged and refused.
ghost use Rattle.std.specs.Prelude.{◌≡◌, ⊤};

use crate::tables::set_of;
use linked_list_allocator::LocalHeap;
use std::alloc::{Allocator, Global};
use std::process::Abort;
use study_board::Position;
use study_index::decode;
use study_material::Class;
use study_prober::{FailingValues, PagedFault, PagedTables, WholeTables};
use study_table::{Table, TableSet};
use study_tablefile::{MemorySource, PageSource, write_table};
use study_text::MemoryWriter;
use study_values::{FileFault, ProbeFault, SourceFault, Values, cells};

/// A table whose cells differ at the same place of two pages, and for two seeds.
fn pattern_table<'a, A: Allocator>(
    rt: &impl Abort,
    alloc: &'a A,
    class: Class,
    seed: u8,
) -> Table<'a, A> {
    let mut bytes = vec![in alloc; 0u8; cells(class) as usize]
        .ok()
        .expect(rt, "cells");
    let mut number = 0u32;
    for byte in &mut bytes {
        *byte = (number % 251) as u8 ^ seed;
        number = number.wrapping_add(1);
    }
    assert!(rt; bytes.len() == cells(class) as usize);
    Table::from_cells(class, bytes)
}

/// A file in memory.
#[derive(Drop)]
struct File {
    text: Vec<u8>,
    asked: u64,
    /// The request that fails, counted from 0.
    fails_at: Option<u64>,
    failures: u64,
    /// The byte that is changed, once a page was delivered.
    turns: Option<usize>,
}

impl File {
    fn turn(&mut self, place: usize)
        ensures asked { self.new.asked ≡ self.old.asked }
        ensures failures { self.new.failures ≡ self.old.failures }
    {
        if let Some(byte) = self.text.as_mut_slice().get_mut(place) {
            *byte ^= 1;
        }
    }

    fn memory(&self) -> MemorySource<'_>
        ensures asked { result.asked ≡ self.now.asked }
        ensures failures { result.failures ≡ self.now.failures }
    {
        MemorySource {
            text: self.text.as_slice(),
            asked: self.asked,
            fails_at: self.fails_at,
            failures: self.failures,
        }
    }
}

impl PageSource for File {
    ghost honest = { λ _ _ _. ⊥ };

    ghost gives = { λ _ _ _. ⊤ };

    ghost failed = { λ s. s.failures };

    ghost asked = { λ s. s.asked };

    fn header(&mut self, into: &mut [u8; 64]) -> Result<(), SourceFault> {
        let mut source = self.memory();
        let answer = source.header(into);
        let (asked, failures) = (source.asked, source.failures);
        self.asked = asked;
        self.failures = failures;
        answer
    }

    fn page(&mut self, n: u32, into: &mut [u8; 4128]) -> Result<(), SourceFault> {
        let mut source = self.memory();
        let answer = source.page(n, into);
        let (asked, failures) = (source.asked, source.failures);
        self.asked = asked;
        self.failures = failures;
        if let Some(place) = self.turns {
            self.turns = None;
            self.turn(place);
        }
        answer
    }

    fn failures(&self) -> u64 {
        self.failures
    }
}

/// The file of a table.
fn file_of<A: Allocator>(rt: &impl Abort, alloc: Global, table: &Table<'_, A>) -> File {
    let mut writer = MemoryWriter::new(&alloc);
    assert!(rt; write_table(table, &mut writer).is_ok());
    let text = writer.taken.as_slice().to_vec(alloc);
    File {
        text: text.ok().expect(rt, "a text"),
        asked: 0,
        fails_at: None,
        failures: 0,
        turns: None,
    }
}

/// The first position of a class whose number is on a page, if there is one.
fn first_on(class: Class, page: u32) -> Option<Position> {
    for offset in 0..4096u32 {
        let found = decode(class, page.saturating_mul(4096).saturating_add(offset));
        if found.is_some() {
            return found;
        }
    }
    None
}

fn position_on(rt: &impl Abort, class: Class, page: u32) -> Position {
    first_on(class, page).expect(rt, "a position")
}

/// A loaded table whose file is in memory.
fn open_paged<'a, A: Allocator>(
    rt: &impl Abort,
    alloc: &'a A,
    pages: u16,
    class: Class,
    file: File,
) -> PagedTables<'a, File, A> {
    assert!(rt; 1 <= pages && pages <= 4096);
    let mut tables = PagedTables::new(alloc, pages).ok().expect(rt, "a cache");
    assert!(rt; add_source(&mut tables, class, file).is_ok());
    tables
}

/// The result for one more source.
fn add_source<A: Allocator>(
    tables: &mut PagedTables<'_, File, A>,
    class: Class,
    file: File,
) -> Result<(), PagedFault> {
    tables.add(class, file)
}

/// Whether both give the same value.
fn agree<V: Values, W: Values>(values: &mut V, others: &mut W, p: &Position) -> bool {
    let value = others.value(p);
    value.is_ok() && values.value(p) == value
}

/// Each position of king and rook against king has one value by both; also, how often they were probed.
fn expect_alike<V: Values, W: Values>(rt: &impl Abort, values: &mut V, others: &mut W) {
    let mut count = 0u64;
    for number in 0..81_920u32 {
        if let Some(p) = decode(Class::KRK, number) {
            assert!(rt; agree(values, others, &p), "{number}");
            count = count.saturating_add(1);
        }
    }
    assert!(rt; 40_000 < count);
    assert!(rt; has_counts(values, count, 0));
    assert!(rt; has_counts(others, count, 0));
}

/// The table of king and rook against king by one page: each position has the value of the whole table.
#[test]
fn values_by_one_page_are_those_of_the_whole_table(rt: HostRuntime) {
    let alloc = rt.alloc();
    let set = set_of(&rt, &alloc, &[Class::KK, Class::KRK]);
    let file = file_of(&rt, alloc, set.table(Class::KRK).expect(&rt, "held"));
    let mut tables = open_paged(&rt, &alloc, 1, Class::KRK, file);
    let mut whole = WholeTables::new(set);
    expect_alike(&rt, &mut tables, &mut whole);
}

/// Whether so many values were probed, and so many of them failed.
fn has_counts<V: Values>(values: &V, asked: u64, failures: u64) -> bool {
    values.asked() == asked && values.failures() == failures
}

/// Whether the request is refused for this fault.
fn is_refused<V: Values>(values: &mut V, p: &Position, fault: ProbeFault) -> bool {
    values.value(p) == Err(fault)
}

/// The number of pages of a class that have a position.
fn pages_with_positions(class: Class) -> u32 {
    let mut count = 0u32;
    for page in 0..cells(class).div_ceil(4096) {
        if first_on(class, page).is_some() {
            count = count.saturating_add(1);
        }
    }
    count
}

/// The number of probes that fail if a position of each page is probed twice, and the source fails once, after it delivered each page.
fn failures_at_the_second_turn(rt: &impl Abort, alloc: Global, class: Class, room: u16) -> u64 {
    let table = pattern_table(rt, &alloc, class, 0);
    let asked = u64::from(pages_with_positions(class));
    let mut file = file_of(rt, alloc, &table);
    file.fails_at = Some(1 + asked);
    let mut tables = open_paged(rt, &alloc, room, class, file);
    let mut refused = 0u64;
    for _ in 0..2u8 {
        for page in 0..cells(class).div_ceil(4096) {
            if let Some(p) = first_on(class, page) {
                let is_right = is_value(&mut tables, &table, &p);
                refused = refused.saturating_add(u64::from(!is_right));
            }
        }
    }
    assert!(rt; tables.asked() == 2 * asked);
    assert!(rt; tables.failures() == refused);
    refused
}

/// With room for all 20 pages no page is read again, however much more room there is; with less, one is.
#[test]
fn kept_pages_are_not_read_again(rt: HostRuntime) {
    let alloc = rt.alloc();
    for (room, failures) in [(1u16, 1u64), (19, 1), (20, 0), (40, 0), (4096, 0)] {
        let found = failures_at_the_second_turn(&rt, alloc, Class::KRK, room);
        assert_eq!(rt; found, failures, "{room}");
    }
}

/// A whole table that is loaded.
fn whole_of<'a, A: Allocator>(
    rt: &impl Abort,
    alloc: &'a A,
    table: Table<'a, A>,
) -> WholeTables<'a, A> {
    let mut whole = WholeTables::new(TableSet::new(alloc).ok().expect(rt, "a set"));
    assert!(rt; whole.add(table).is_ok());
    whole
}

/// Whether KQK is refused because it has no table, and KK is loaded.
fn has_only_kings<V: Values>(values: &mut V, p: &Position) -> bool {
    is_refused(values, p, ProbeFault::NoTable(Class::KQK))
        && values.holds(Class::KK)
        && !values.holds(Class::KQK)
}

/// A class that is not loaded has no table, with pages and without.
#[test]
fn a_class_that_is_not_held_has_no_table(rt: HostRuntime) {
    let alloc = rt.alloc();
    let table = pattern_table(&rt, &alloc, Class::KK, 0);
    let file = file_of(&rt, alloc, &table);
    let mut tables = open_paged(&rt, &alloc, 3, Class::KK, file);
    let mut whole = whole_of(&rt, &alloc, table);
    assert!(rt; whole.tables().has(Class::KK));
    let p = position_on(&rt, Class::KQK, 0);
    assert!(rt; has_only_kings(&mut tables, &p));
    assert!(rt; has_only_kings(&mut whole, &p));
    assert!(rt; has_counts(&tables, 1, 0));
}

/// Whether the values on a page of two tables of different classes are theirs.
fn are_apart<V: Values, A: Allocator>(
    rt: &impl Abort,
    values: &mut V,
    first: &Table<'_, A>,
    second: &Table<'_, A>,
    page: u32,
) -> bool {
    is_value_on(rt, values, first, page) && is_value_on(rt, values, second, page)
}

/// Two classes with pages of the same numbers, with room for all pages and for few.
#[test]
fn pages_of_two_classes_are_kept_apart(rt: HostRuntime) {
    let alloc = rt.alloc();
    let rook = pattern_table(&rt, &alloc, Class::KRK, 0);
    let queen = pattern_table(&rt, &alloc, Class::KQK, 100);
    for room in [1, 2, 40] {
        let mut tables = open_paged(&rt, &alloc, room, Class::KRK, file_of(&rt, alloc, &rook));
        let file = file_of(&rt, alloc, &queen);
        assert!(rt; add_source(&mut tables, Class::KQK, file).is_ok());
        for page in [0, 7, 19, 7, 0] {
            assert!(rt; are_apart(&rt, &mut tables, &rook, &queen, page), "{page}");
        }
    }
}

/// Whether the values are those of the table at a position of its class.
fn is_value<'a, A: Allocator, V: Values>(
    values: &mut V,
    table: &Table<'a, A>,
    p: &Position,
) -> bool {
    let (class, _) = study_material::class_of(p);
    class == table.class() && values.value(p) == Ok(table.at(p))
}

/// Whether the value at the first position on a page is that of the table of its class.
fn is_value_on<'a, A: Allocator, V: Values>(
    rt: &impl Abort,
    values: &mut V,
    table: &Table<'a, A>,
    page: u32,
) -> bool {
    let p = position_on(rt, table.class(), page);
    is_value(values, table, &p)
}

/// Whether the values at some pages are right, the last of them again and again.
fn are_values<'a, 'h, A: Allocator, H: Allocator>(
    rt: &impl Abort,
    tables: &mut PagedTables<'h, File, H>,
    table: &Table<'a, A>,
) -> bool {
    let mut are_right = true;
    for page in [0, 1, 2, 3, 4, 5, 0, 5, 19, 3] {
        are_right = are_right && is_value_on(rt, tables, table, page);
    }
    are_right && has_counts(tables, 10, 0)
}

/// Whether a cache accepts the file of the table, and then has the right values; if not, there is no memory.
fn takes<A: Allocator, H: Allocator>(
    rt: &impl Abort,
    tables: &mut PagedTables<'_, File, H>,
    table: &Table<'_, A>,
    file: File,
    step: usize,
) -> bool {
    match add_source(tables, Class::KRK, file) {
        Err(fault) => {
            assert!(rt; fault == PagedFault::OutOfMemory, "{step}: {fault}");
            assert!(rt; !tables.holds(Class::KRK), "{step}");
            false
        }
        Ok(()) => {
            assert!(rt; are_values(rt, tables, table), "{step}");
            true
        }
    }
}

/// If memory is refused, it is first for the cache, then for the source; each value is right all the same.
#[test]
fn each_growth_is_refused_and_values_stay_right(rt: HostRuntime) {
    let alloc = rt.alloc();
    let table = pattern_table(&rt, &alloc, Class::KRK, 0);
    let (mut made, mut held) = (0u32, 0u32);
    for step in 0..120usize {
        let heap = LocalHeap::new(alloc, 64 + step * 256)
            .ok()
            .expect(&rt, "a heap");
        if let Ok(mut tables) = PagedTables::new(&heap, 4) {
            made = made.saturating_add(1);
            let file = file_of(&rt, alloc, &table);
            let is_held = takes(&rt, &mut tables, &table, file, step);
            held = held.saturating_add(u32::from(is_held));
        }
    }
    assert!(rt;
        0 < held && held < made && made < 120,
        "{made} made, {held} held"
    );
}

/// The first request for this page fails, and every other one succeeds, the next one for this page too.
fn fails_once<V: Values, A: Allocator>(
    rt: &impl Abort,
    values: &mut V,
    table: &Table<'_, A>,
    bad: u32,
) {
    for page in 0..20u32 {
        if page == bad {
            let p = position_on(rt, Class::KRK, page);
            let fault = ProbeFault::TableRead(SourceFault::Device);
            assert!(rt; is_refused(values, &p, fault), "{bad}");
            assert!(rt; values.failures() == 1, "{bad}");
        }
        assert!(rt; is_value_on(rt, values, table, page), "{bad} {page}");
    }
    assert!(rt; has_counts(values, 21, 1), "{bad}");
}

/// A source that fails at one page: the fault is reported and counted, and the same probe succeeds next.
#[test]
fn a_page_that_is_not_read_is_reported_once(rt: HostRuntime) {
    let alloc = rt.alloc();
    let table = pattern_table(&rt, &alloc, Class::KRK, 0);
    for bad in 0..20u32 {
        let mut file = file_of(&rt, alloc, &table);
        file.fails_at = Some(1 + u64::from(bad));
        let mut tables = open_paged(&rt, &alloc, 1, Class::KRK, file);
        fails_once(&rt, &mut tables, &table, bad);
    }
}

/// Whether page 5 is reported as damaged and page 19 as cut off, and the value on any other page is that of the table.
fn is_reported<V: Values, A: Allocator>(
    rt: &impl Abort,
    values: &mut V,
    table: &Table<'_, A>,
    page: u32,
) -> bool {
    let fault = match page {
        5 => ProbeFault::PageDamaged(Class::KRK, 5),
        19 => ProbeFault::TableRead(SourceFault::Short),
        _ => return is_value_on(rt, values, table, page),
    };
    is_refused(values, &position_on(rt, Class::KRK, page), fault)
}

/// A damaged page and one that is cut off are reported each time, and no other page is.
#[test]
fn a_damaged_page_is_reported_each_time(rt: HostRuntime) {
    let alloc = rt.alloc();
    let table = pattern_table(&rt, &alloc, Class::KRK, 0);
    let mut file = file_of(&rt, alloc, &table);
    file.turn(64 + 4128 * 5 + 7);
    assert!(rt; file.text.pop().is_some());
    let mut tables = open_paged(&rt, &alloc, 8, Class::KRK, file);
    for _ in 0..2u8 {
        for page in 0..20u32 {
            assert!(rt; is_reported(&rt, &mut tables, &table, page), "{page}");
        }
    }
    assert!(rt; has_counts(&tables, 40, 4));
}

/// Page 0 of KK is reported as damaged once, and its values are read from then on.
fn expect_read_again<V: Values, A: Allocator>(
    rt: &impl Abort,
    values: &mut V,
    table: &Table<'_, A>,
) {
    let p = position_on(rt, Class::KK, 0);
    assert!(rt; is_refused(values, &p, ProbeFault::PageDamaged(Class::KK, 0)));
    assert!(rt; is_value(values, table, &p));
    assert!(rt; is_value(values, table, &p));
    assert!(rt; has_counts(values, 3, 1));
}

/// A damaged page is not kept: once its source delivers it whole, its values are read.
#[test]
fn a_damaged_page_is_read_again(rt: HostRuntime) {
    let alloc = rt.alloc();
    let table = pattern_table(&rt, &alloc, Class::KK, 0);
    let mut file = file_of(&rt, alloc, &table);
    file.turn(73);
    file.turns = Some(73);
    let mut tables = open_paged(&rt, &alloc, 2, Class::KK, file);
    expect_read_again(&rt, &mut tables, &table);
}

/// Whether KRK is there and KQK is not, and nothing was probed.
fn has_only_rook<V: Values>(values: &V) -> bool {
    values.holds(Class::KRK) && !values.holds(Class::KQK) && has_counts(values, 0, 0)
}

/// A source is refused for this fault, and the tables are unchanged.
fn expect_refused<A: Allocator>(
    rt: &impl Abort,
    tables: &mut PagedTables<'_, File, A>,
    class: Class,
    file: File,
    fault: PagedFault,
) {
    assert!(rt; add_source(tables, class, file) == Err(fault), "{fault}");
    assert!(rt; has_only_rook(tables), "{fault}");
}

/// The faults of a source in their order, each over a source that has those after it too.
#[test]
fn the_first_fault_of_a_source_is_reported(rt: HostRuntime) {
    let alloc = rt.alloc();
    let table = pattern_table(&rt, &alloc, Class::KRK, 0);
    let mut tables = open_paged(&rt, &alloc, 1, Class::KRK, file_of(&rt, alloc, &table));
    let device = PagedFault::TableRead(SourceFault::Device);
    let not_a_table = PagedFault::Header(FileFault::NotATable);
    let rows = [
        (
            Class::KRK,
            true,
            Some(0),
            PagedFault::AlreadyHeld(Class::KRK),
        ),
        (Class::KQK, true, Some(0), device),
        (Class::KQK, true, None, not_a_table),
        (Class::KQK, false, None, PagedFault::OtherClass(Class::KRK)),
        (Class::KPKP, false, None, PagedFault::OtherClass(Class::KRK)),
    ];
    for (class, is_wrong, fails_at, fault) in rows {
        let mut file = file_of(&rt, alloc, &table);
        file.fails_at = fails_at;
        if is_wrong {
            file.turn(3);
        }
        expect_refused(&rt, &mut tables, class, file, fault);
    }
    let mut short = file_of(&rt, alloc, &table);
    short.text.truncate(63);
    let fault = PagedFault::TableRead(SourceFault::Short);
    expect_refused(&rt, &mut tables, Class::KQK, short, fault);
}

/// Each fault of a header that was read: its version, its class and its digest, and what comes first of two.
#[test]
fn the_first_fault_of_a_header_is_reported(rt: HostRuntime) {
    let alloc = rt.alloc();
    let table = pattern_table(&rt, &alloc, Class::KRK, 0);
    let mut tables = open_paged(&rt, &alloc, 1, Class::KRK, file_of(&rt, alloc, &table));
    let rows = [
        (8usize, 8usize, FileFault::Version(3)),
        (8, 16, FileFault::Version(3)),
        (16, 24, FileFault::ClassUnknown),
        (10, 40, FileFault::HeaderDamaged),
        (63, 63, FileFault::HeaderDamaged),
        (7, 8, FileFault::NotATable),
    ];
    for (first, second, fault) in rows {
        let mut file = file_of(&rt, alloc, &table);
        file.turn(first);
        if second != first {
            file.turn(second);
        }
        let fault = PagedFault::Header(fault);
        expect_refused(&rt, &mut tables, Class::KQK, file, fault);
    }
}

/// The first request succeeds, the second fails, and the third, which repeats it, succeeds.
fn expect_answered_next<V: Values, A: Allocator>(
    rt: &impl Abort,
    values: &mut V,
    table: &Table<'_, A>,
) {
    let p = position_on(rt, Class::KK, 0);
    assert!(rt; values.holds(Class::KK));
    assert!(rt; is_value(values, table, &p));
    let fault = ProbeFault::TableRead(SourceFault::Device);
    assert!(rt; is_refused(values, &p, fault));
    assert!(rt; is_value(values, table, &p));
    assert!(rt; has_counts(values, 3, 1));
}

/// Values whose second probe fails, and succeeds when it is repeated.
#[test]
fn a_question_that_failed_is_answered_next(rt: HostRuntime) {
    let alloc = rt.alloc();
    let table = pattern_table(&rt, &alloc, Class::KK, 0);
    let tables = open_paged(&rt, &alloc, 1, Class::KK, file_of(&rt, alloc, &table));
    let mut values = FailingValues::new(tables, 1);
    expect_answered_next(&rt, &mut values, &table);
}
