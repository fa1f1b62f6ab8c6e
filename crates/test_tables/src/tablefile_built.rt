//! A built table, written to a file, read back and damaged.
use crate::tables::{change_cell, is_verified, set_of};
use crate::texts::{are_same, exchange_pages, has_fault, read, text_of_table};
use std::alloc::Allocator;
use std::process::Abort;
use std::test::Fail;
use study_material::Class;
use study_values::FileFault;

/// Texts derived from this one, which is whole, have their faults.
fn expect_faults<A: Allocator>(rt: &impl Abort, alloc: &A, text: &[u8]) {
    let wrong = exchange_pages(rt, alloc, text);
    assert!(rt; has_fault(alloc, wrong.as_slice(), FileFault::PageDamaged(3)));
    let (_, prefix) = text.split_last().expect(rt, "a byte");
    assert!(rt; has_fault(alloc, prefix, FileFault::Cut));
}

/// The table of king and rook against king, through a writer that takes a byte a call and a reader that gives one.
#[test]
fn the_table_of_krk_is_read_as_it_was_written(rt: HostRuntime) -> Result<(), Fail> {
    let alloc = rt.alloc();
    let tables = set_of(&rt, &alloc, &[Class::KK, Class::KRK]);
    let table = tables.table(Class::KRK).expect(&rt, "held");
    let mut text = text_of_table(&rt, &alloc, table);
    assert!(rt; text.len() == 82_624);
    assert!(rt; text.get(8) == Some(&2));
    assert!(rt; text.get(9) == Some(&0));
    let again = read(&rt, &alloc, text.as_slice());
    assert!(rt; again.class() == Class::KRK);
    assert!(rt; are_same(&again, table));
    expect_faults(&rt, &alloc, text.as_slice());
    text.push(0)?;
    assert!(rt; has_fault(&alloc, text.as_slice(), FileFault::TrailingBytes));
    if let Some(version) = text.as_mut_slice().get_mut(8) {
        *version = 9;
    }
    assert!(rt; has_fault(&alloc, text.as_slice(), FileFault::Version(9)));
    Ok(())
}

/// A table with one wrong cell has a file of its own, which is read: only `verify` finds the wrong cell.
#[test]
fn a_lying_table_is_read_and_not_verified(rt: HostRuntime) {
    let alloc = rt.alloc();
    let tables = set_of(&rt, &alloc, &[Class::KK, Class::KRK]);
    for (cell, right) in [(2, true), (4, false)] {
        let table = change_cell(&rt, &alloc, &tables, Class::KRK, 20_543, cell);
        let text = text_of_table(&rt, &alloc, &table);
        let read = read(&rt, &alloc, text.as_slice());
        assert!(rt; is_verified(&rt, &read, &tables) == right, "{cell}");
    }
}
