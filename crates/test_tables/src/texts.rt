//! Texts of tables that the tests make, and their faults.
use sha2::{Digest, Sha256};
use std::alloc::Allocator;
use std::process::Abort;
use study_material::Class;
use study_table::Table;
use study_tablefile::{read_table, write_table};
use study_text::{MemoryReader, MemoryWriter, write_text};
use study_values::{FileFault, cells};

/// The fields of KK in version 2, the version that is written.
pub const KK: &[u8] =
    b"STUDYDTM\x02\x00\x00\x10\x00\x05\x00\x00KK\x00\x00\x00\x00\x00\x00\x00\x00\x00\x00\x00\x00\x00\x00";

/// The SHA-256 of some bytes.
pub fn digest(bytes: &[u8]) -> [u8; 32] {
    let mut hasher = Sha256::new();
    hasher.update(bytes);
    hasher.finalize()
}

/// The digest of page 0: over the fields of the header, the page's number in 4 bytes, and its cells.
fn first_digest(fields: &[u8], cells: &[u8]) -> [u8; 32] {
    let number = [0u8; 4];
    let mut hasher = Sha256::new();
    hasher.update(fields);
    hasher.update(number.as_slice());
    hasher.update(cells);
    hasher.finalize()
}

/// A table of zero cells.
pub fn zero_table<'a, A: Allocator>(rt: &impl Abort, alloc: &'a A, class: Class) -> Table<'a, A> {
    let zeros = vec![in alloc; 0u8; cells(class) as usize]
        .ok()
        .expect(rt, "cells");
    Table::from_cells(class, zeros)
}

/// The text of a table.
pub fn text_of_table<'a, A: Allocator>(
    rt: &impl Abort,
    alloc: &'a A,
    table: &Table<'_, A>,
) -> Vec<u8, &'a A> {
    let mut writer = MemoryWriter::new(alloc);
    assert!(rt; write_table(table, &mut writer).is_ok());
    writer.taken
}

/// The table that a text reads as.
pub fn read<'a, A: Allocator>(rt: &impl Abort, alloc: &'a A, text: &[u8]) -> Table<'a, A> {
    match read_table(alloc, &mut MemoryReader::new(text)) {
        Ok(table) => table,
        Err(fault) => panic!(rt; "{fault}"),
    }
}

/// Whether both tables have the same class and the same cells.
pub fn are_same<A: Allocator>(table: &Table<'_, A>, other: &Table<'_, A>) -> bool {
    table.class() == other.class() && are_equal(table.cells(), other.cells())
}

pub fn are_equal(bytes: &[u8], others: &[u8]) -> bool {
    bytes == others
}

/// The fault of a text.
pub fn fault<A: Allocator>(alloc: &A, text: &[u8]) -> Option<FileFault> {
    read_table(alloc, &mut MemoryReader::new(text)).err()
}

/// Whether a text has this fault.
pub fn has_fault<A: Allocator>(alloc: &A, text: &[u8], want: FileFault) -> bool {
    fault(alloc, text) == Some(want)
}

/// A header of these fields, and a page of KK under the digest of other fields.
pub fn one_page<'a, A: Allocator>(
    rt: &impl Abort,
    alloc: &'a A,
    fields: &[u8],
    others: &[u8],
    page: &[u8],
) -> Vec<u8, &'a A> {
    let mut writer = MemoryWriter::new(alloc);
    for part in [
        fields,
        digest(fields).as_slice(),
        page,
        first_digest(others, page).as_slice(),
    ] {
        assert!(rt; write_text(&mut writer, part).is_ok());
    }
    writer.taken
}

/// The text of a table with zero cells.
pub fn text_of<'a, A: Allocator>(rt: &impl Abort, alloc: &'a A, class: Class) -> Vec<u8, &'a A> {
    text_of_table(rt, alloc, &zero_table(rt, alloc, class))
}

/// The text of the table of KK with zero cells, by the description of the format.
pub fn text_of_kk<'a, A: Allocator>(rt: &impl Abort, alloc: &'a A) -> Vec<u8, &'a A> {
    let page = [0u8; 4096];
    let text = one_page(rt, alloc, KK, KK, page.as_slice());
    assert!(rt; text.len() == 4192);
    text
}

/// A text of 20 pages with pages 3 and 4 exchanged.
pub fn exchange_pages<'a, A: Allocator>(
    rt: &impl Abort,
    alloc: &'a A,
    text: &[u8],
) -> Vec<u8, &'a A> {
    assert!(rt; text.len() == 82_624);
    let (head, pages) = text.split_at(64 + 3 * 4128);
    let (third, others) = pages.split_at(4128);
    let (fourth, rest) = others.split_at(4128);
    let mut writer = MemoryWriter::new(alloc);
    for part in [head, fourth, third, rest] {
        assert!(rt; write_text(&mut writer, part).is_ok());
    }
    writer.taken
}
