//! Studies over a table that is read by one page, if one page cannot be read: the call is refused, and accepted when it is made again.
use crate::calls;
use crate::marks_faults::{Call, Subject, is_device};
use crate::studies::{Snapshot, start_of, tables_of};
use std::alloc::Global;
use std::process::Abort;
use study_material::Class;
use study_prober::PagedTables;
use study_tablefile::{MemorySource, write_table};
use study_values::Values;

/// The file of king and rook against king.
fn file_of<'a>(rt: &impl Abort, alloc: &'a Global) -> Vec<u8, &'a Global> {
    let values = tables_of(rt, alloc, &[Class::KK, Class::KRK]);
    let table = values.tables().table(Class::KRK).expect(rt, "held");
    let mut writer = calls::writer(alloc);
    assert!(rt; write_table(table, &mut writer).is_ok());
    writer.taken
}

type OnePage<'a> = PagedTables<'a, MemorySource<'a>, Global>;

/// The values of a file by one page. Reads of pages are counted from 1, and the given one fails, if any.
fn one_page<'a>(
    rt: &impl Abort,
    alloc: &'a Global,
    text: &'a [u8],
    fails_at: Option<u64>,
) -> OnePage<'a> {
    let mut tables = no_tables(rt, alloc);
    let source = MemorySource {
        text,
        asked: 0,
        fails_at,
        failures: 0,
    };
    add(rt, &mut tables, source);
    tables
}

fn no_tables<'a>(rt: &impl Abort, alloc: &'a Global) -> OnePage<'a> {
    PagedTables::new(alloc, 1).ok().expect(rt, "a cache")
}

fn add<'a>(rt: &impl Abort, tables: &mut OnePage<'a>, source: MemorySource<'a>) {
    assert!(rt; tables.add(Class::KRK, source).is_ok());
}

/// How many reads of a page, each of which fails in turn, a call makes.
fn reads_of<V: Values>(
    rt: &impl Abort,
    alloc: Global,
    text: &[u8],
    call: Call,
    wanted: &Snapshot,
    sound: &mut V,
) -> u64 {
    for k in 1..300u64 {
        let mut values = one_page(rt, &alloc, text, Some(k));
        if !Subject::Mate.is_refused(rt, alloc, call, wanted, &mut values, sound) {
            return k - 1;
        }
    }
    299
}

/// Each read of a page in an insertion fails in turn, until none does; there are some.
#[test]
fn each_read_of_a_page_in_an_insertion_fails_in_turn(rt: HostRuntime) {
    let alloc = rt.alloc();
    let text = file_of(&rt, &alloc);
    let mut sound = one_page(&rt, &alloc, text.as_slice(), None);
    let wanted = Subject::Mate.after(&rt, alloc, Call::Insert, &mut sound);
    let reads = reads_of(
        &rt,
        alloc,
        text.as_slice(),
        Call::Insert,
        &wanted,
        &mut sound,
    );
    assert!(rt; 1 < reads && reads < 299, "{reads}");
}

/// Whether there is no study over these values, because a device fails.
fn is_without_study<V: Values>(rt: &impl Abort, alloc: &Global, values: &mut V) -> bool {
    let case = Subject::Mate.case();
    let refusal = calls::new_bench(alloc, start_of(rt, case.fen), case.stipulation(), values).err();
    is_device(&refusal.expect(rt, "no study"))
}

/// Over a file that is cut off after its header there is no study, however often it is tried.
#[test]
fn without_a_page_there_is_no_study(rt: HostRuntime) {
    let alloc = rt.alloc();
    let text = file_of(&rt, &alloc);
    let header = text.as_slice().get(..64).expect(&rt, "a header");
    let mut values = one_page(&rt, &alloc, header, None);
    for count in 1..4u64 {
        assert!(rt; is_without_study(&rt, &alloc, &mut values) && values.failures() == count);
    }
}
