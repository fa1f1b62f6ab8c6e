//! Tables loaded, opened by pages, saved and verified.
use crate::rows::{Rows, check_over, no_files, text_of};
use std::alloc::Allocator;
use std::cell::RefCell;
use std::process::Abort;
use study_material::Class;
use study_script::{MemoryFile, MemoryStore};
use study_table::Table;
use study_tablefile::{read_table, write_table};
use study_text::{MemoryReader, MemoryWriter, WhenFull};
use study_values::cells;

const SAVED: Rows<'static> = "load KRK -> error MissingTable KK
build KK -> built KK cells 1280 win -
load KRK -> loaded KRK cells 81920
load KRK -> error AlreadyHeld KRK
load KQK -> error NoFile
save KQK -> error NoTable KQK
verify KRK -> verified KRK yes
verify KQK -> error NoTable KQK
save KRK -> saved KRK bytes 82624
save KRK -> error Device";

/// A table is loaded if its needs are loaded and it is not, and saved as it was built.
#[test]
fn a_table_is_loaded_after_its_needs_and_saved_as_built(rt: HostRuntime) {
    let alloc = rt.alloc();
    let text = text_of(&rt, &alloc, &[Class::KK, Class::KRK]);
    let writers = [RefCell::new(MemoryWriter::new(&alloc))];
    let mut store = MemoryStore::new(writers.as_slice());
    store.put(Class::KRK, MemoryFile::Bytes(text.as_slice()));
    check_over(&rt, &alloc, &mut store, None, SAVED);
    match writers[0].try_borrow() {
        Ok(writer) => assert!(rt; writer.taken.as_slice() == text.as_slice()),
        Err(_) => assert!(rt; false, "lent"),
    }
}

const FULL: Rows<'static> = "build KK -> built KK cells 1280 win -
save KK -> error Device
verify KK -> verified KK yes";

/// A file that is opened and not written whole is not saved.
#[test]
fn a_file_that_is_not_written_whole_is_not_saved(rt: HostRuntime) {
    let alloc = rt.alloc();
    for when_full in [WhenFull::Fail, WhenFull::TakeNothing] {
        for room in [0usize, 63, 64, 4_191] {
            let writers = [RefCell::new(MemoryWriter::with_room(&alloc, room, when_full))];
            let mut store = MemoryStore::new(writers.as_slice());
            check_over(&rt, &alloc, &mut store, None, FULL);
        }
    }
}

/// A file that fails after so many bytes.
#[test]
fn a_file_that_fails_after_some_bytes_is_reported(rt: HostRuntime) {
    let alloc = rt.alloc();
    let text = text_of(&rt, &alloc, &[Class::KK]);
    for fails_after in [0usize, 63, 64, 4_191] {
        let mut store = no_files(&alloc);
        store.put(Class::KK, MemoryFile::Bytes(text.as_slice()));
        store.fails_after = Some(fails_after);
        check_over(&rt, &alloc, &mut store, None, "load KK -> error Device");
    }
}

/// The file in a place.
#[derive(Clone, Copy, Debug, PartialEq, Eq)]
enum Stored {
    /// The file of two kings, or of king and rook against king.
    Kings,
    Rook,
    /// The front of one of them.
    Front(Class, usize),
    /// The file of two kings with one more byte, or with a byte changed.
    Longer,
    Changed(usize, u8),
    /// The file of two kings with a byte after the last cell, under its right digest.
    Padded,
    /// The file of king and rook against king with a cell of each page damaged, but of one page.
    Damaged(Option<usize>),
    /// The same table with a slower mate in one cell, and a table whose cells are all the same.
    Lie,
    Constant(Class, u8),
    /// A file that cannot be opened.
    Closed,
}

/// The SHA-256 of the fields of KK, the number of its page, and 4,096 cells of which the one numbered 2,000 is 1.
const PADDED_DIGEST: [u8; 32] = [
    0x4a, 0xda, 0x66, 0x17, 0x10, 0x32, 0x92, 0x98, 0x16, 0x39, 0xe7, 0xdb, 0x5f, 0x91, 0x55, 0x5e,
    0x85, 0x82, 0x48, 0x9b, 0x7c, 0x75, 0xe2, 0x1c, 0xf7, 0xba, 0xe8, 0xab, 0x09, 0xa0, 0x30, 0x16,
];

/// The files of two kings, and of king and rook against king.
#[derive(Drop)]
struct Texts<'a, A: Allocator> {
    kings: Vec<u8, &'a A>,
    rook: Vec<u8, &'a A>,
}

/// The text of a table with these cells.
fn text_with<'a, A: Allocator>(
    rt: &impl Abort,
    alloc: &'a A,
    class: Class,
    all: Vec<u8, &'a A>,
) -> Vec<u8, &'a A> {
    assert!(rt; all.len() == cells(class) as usize);
    let mut writer = MemoryWriter::new(alloc);
    assert!(rt; write_table(&Table::from_cells(class, all), &mut writer).is_ok());
    writer.taken
}

/// Puts another byte at a place.
fn set(rt: &impl Abort, text: &mut [u8], at: usize, byte: u8) {
    *text.get_mut(at).expect(rt, "a byte") = byte;
}

/// The text of KRK with a slower mate in one cell.
fn lying<'a, A: Allocator>(rt: &impl Abort, alloc: &'a A, text: &[u8]) -> Vec<u8, &'a A> {
    let table = read_table(alloc, &mut MemoryReader::new(text)).ok();
    let table = table.expect(rt, "a table");
    let mut all = table.cells().to_vec(alloc).ok().expect(rt, "memory");
    set(rt, all.as_mut_slice(), 20_543, 4);
    text_with(rt, alloc, Class::KRK, all)
}

impl<'a, A: Allocator> Texts<'a, A> {
    /// A copy of one of the two files.
    fn copy(&self, rt: &impl Abort, alloc: &'a A, class: Class) -> Vec<u8, &'a A> {
        let text = match class {
            Class::KK => &self.kings,
            _ => &self.rook,
        };
        text.as_slice().to_vec(alloc).ok().expect(rt, "memory")
    }

    /// The bytes of the stored file; empty for a file that cannot be opened.
    fn bytes_of(&self, rt: &impl Abort, alloc: &'a A, stored: Stored) -> Vec<u8, &'a A> {
        let class = match stored {
            Stored::Front(class, _) => class,
            Stored::Rook | Stored::Damaged(_) | Stored::Lie => Class::KRK,
            _ => Class::KK,
        };
        let mut text = self.copy(rt, alloc, class);
        match stored {
            Stored::Kings | Stored::Rook | Stored::Closed => {}
            Stored::Front(_, len) => text.truncate(len),
            Stored::Longer => assert!(rt; text.push(0).is_ok()),
            Stored::Changed(at, byte) => set(rt, text.as_mut_slice(), at, byte),
            Stored::Padded => {
                set(rt, text.as_mut_slice(), 64 + 2_000, 1);
                text.truncate(64 + 4_096);
                assert!(rt; text.extend_from_slice(PADDED_DIGEST.as_slice()).is_ok());
            }
            Stored::Damaged(whole) => {
                for page in 0..20usize {
                    if whole != Some(page) {
                        *text
                            .as_mut_slice()
                            .get_mut(64 + 4128 * page)
                            .expect(rt, "a byte") ^= 1;
                    }
                }
            }
            Stored::Lie => text = lying(rt, alloc, text.as_slice()),
            Stored::Constant(class, cell) => {
                let all = vec![in alloc; cell; cells(class) as usize].ok();
                text = text_with(rt, alloc, class, all.expect(rt, "cells"));
            }
        }
        text
    }
}

/// A script over files: the files, by how many pages they are read, if by pages, which request to a source fails, if one does, and the rows.
type Case = (
    &'static [(Class, Stored)],
    Option<u16>,
    Option<u64>,
    Rows<'static>,
);

/// A table is loaded only from a file of its own class.
const OTHERS: Rows<'static> = "build KK -> built KK cells 1280 win -
load KQK -> error OtherClass KRK
load KRK -> error Device
load KQK -> error OtherClass KRK";

/// A table read by pages of which one is kept.
const ONE_PAGE: Rows<'static> = "build KK -> error PagedMode
save KK -> error PagedMode
verify KRK -> error PagedMode
load KRK -> loaded KRK cells 81920
load KRK -> error AlreadyHeld KRK
load KQK -> error NoFile
load KQKX -> error NotAClass
position k7/8/1K6/8/8/8/8/7R w - - 0 1 -> position k7/8/1K6/8/8/8/8/7R w - - 0 1
stipulate white win -> stipulate White to win
mark root -> mark root win 1 - faults 0";

/// A source that fails once, at its header.
const NO_HEADER: Rows<'static> = "load KRK -> error TableRead Device
position k7/8/1K6/8/8/8/8/7R w - - 0 1 -> position k7/8/1K6/8/8/8/8/7R w - - 0 1
stipulate white win -> error NoTable KRK
mark root -> error NoStudy";

/// A source that fails once, at its first page.
const NO_PAGE: Rows<'static> = "load KRK -> loaded KRK cells 81920
position k7/8/1K6/8/8/8/8/7R w - - 0 1 -> position k7/8/1K6/8/8/8/8/7R w - - 0 1
stipulate white win -> error TableRead Device
mark root -> error NoStudy
stipulate white win -> stipulate White to win
mark root -> mark root win 1 - faults 0";

/// Sources whose pages are damaged, whose header is not whole, and one that is not opened.
const DAMAGED: Rows<'static> = "load KQK -> error OtherClass KRK
load KBK -> error TableRead Short
load KNK -> error Device
load KRK -> loaded KRK cells 81920
position k7/8/1K6/8/8/8/8/7R w - - 0 1 -> position k7/8/1K6/8/8/8/8/7R w - - 0 1
stipulate white win -> error TableRead Page 5
mark root -> error NoStudy";

/// The page of the root is whole, number 20,543, and that of the position after its first move is damaged: after Ra1+ the number is
/// `((10 + 5) * 64 + 0) * 64 + 7`, 61,447, on page 15.
const LATER_PAGE: Rows<'static> = "load KRK -> loaded KRK cells 81920
load KK -> loaded KK cells 1280
position k7/8/1K6/8/8/8/8/7R w - - 0 1 -> position k7/8/1K6/8/8/8/8/7R w - - 0 1
stipulate white win -> error TableRead Page 15
mark root -> error NoStudy";

/// A file that ends within the page of the root.
const SHORT_PAGE: Rows<'static> = "load KRK -> loaded KRK cells 81920
position k7/8/1K6/8/8/8/8/7R w - - 0 1 -> position k7/8/1K6/8/8/8/8/7R w - - 0 1
stipulate white win -> error TableRead Short
mark root -> error NoStudy";

/// The edits that probe values, over tables read by pages.
const EDITED_BY_PAGES: Rows<'static> = "load KRK -> loaded KRK cells 81920
load KK -> loaded KK cells 1280
position k7/8/1K6/8/8/8/8/7R w - - 0 1 -> position k7/8/1K6/8/8/8/8/7R w - - 0 1
stipulate white win -> stipulate White to win
insert root Rh8 -> insert 0 Rh8#
mark 0 -> mark 0 loss 0 dual 19 faults 1
shift k7/8/K7/8/8/8/8/7R w - - 0 1 -> shift k7/8/K7/8/8/8/8/7R w - - 0 1
mark 0 -> mark 0 loss 0 dual 15 faults 1
position k7/8/1K6/8/8/8/8/7R w - - 0 1 -> position k7/8/1K6/8/8/8/8/7R w - - 0 1
mark root -> mark root win 1 - faults 0";

/// A file with a wrong cell is read; `verify` finds the wrong cell.
const LIES: Rows<'static> = "build KK -> built KK cells 1280 win -
load KRK -> loaded KRK cells 81920
verify KRK -> verified KRK no
verify KK -> verified KK yes
verify KQK -> error NoTable KQK";

/// A table is built, and not loaded from a wrong file.
const BUILT: Rows<'static> = "build KK -> built KK cells 1280 win -
build KRK -> built KRK cells 81920 win 31
verify KRK -> verified KRK yes";

/// No table has a mate in 255 plies. Over a wrong one, by which a new queen is mate in 254, a pawn leads to such a mate.
const FAR: Rows<'static> = "build KK -> built KK cells 1280 win -
load KQK -> loaded KQK cells 81920
load KRK -> loaded KRK cells 81920
build KBK -> built KBK cells 81920 win -
build KNK -> built KNK cells 81920 win -
build KPK -> error DistanceTooLarge
verify KQK -> verified KQK no";

/// Each fault after the header has its name.
const CUT: Rows<'static> = "load KK -> error Cut
load KK -> error Cut
build KK -> built KK cells 1280 win -";

const LONGER: Rows<'static> = "load KK -> error TrailingBytes
build KK -> built KK cells 1280 win -";

const PAGE: Rows<'static> = "load KK -> error PageDamaged 0
build KK -> built KK cells 1280 win -";

const PADDED: Rows<'static> = "load KK -> error Padding
build KK -> built KK cells 1280 win -";

/// By pages only the header is read at first.
const BY_PAGES: Rows<'static> = "load KK -> loaded KK cells 1280
build KK -> error PagedMode";

const ROOK: &[(Class, Stored)] = &[(Class::KRK, Stored::Rook)];

const ROOK_AND_KINGS: &[(Class, Stored)] = &[
    (Class::KRK, Stored::Rook),
    (Class::KK, Stored::Kings),
];

const LYING: &[(Class, Stored)] = &[(Class::KRK, Stored::Lie)];

const CASES: [Case; 11] = [
    (
        &[(Class::KQK, Stored::Rook), (Class::KRK, Stored::Closed)],
        None,
        None,
        OTHERS,
    ),
    (ROOK, Some(1), None, ONE_PAGE),
    (ROOK, Some(1), Some(0), NO_HEADER),
    (ROOK, Some(1), Some(1), NO_PAGE),
    (
        &[
            (Class::KRK, Stored::Damaged(None)),
            (Class::KQK, Stored::Rook),
            (Class::KBK, Stored::Front(Class::KRK, 63)),
            (Class::KNK, Stored::Closed),
        ],
        Some(4096),
        None,
        DAMAGED,
    ),
    (
        &[
            (Class::KRK, Stored::Damaged(Some(5))),
            (Class::KK, Stored::Kings),
        ],
        Some(1),
        None,
        LATER_PAGE,
    ),
    (
        &[(Class::KRK, Stored::Front(Class::KRK, 64 + 4128 * 6 - 1))],
        Some(1),
        None,
        SHORT_PAGE,
    ),
    (ROOK_AND_KINGS, Some(1), None, EDITED_BY_PAGES),
    (LYING, None, None, LIES),
    (LYING, None, None, BUILT),
    (
        &[
            (Class::KQK, Stored::Constant(Class::KQK, 255)),
            (Class::KRK, Stored::Constant(Class::KRK, 0)),
        ],
        None,
        None,
        FAR,
    ),
];

/// A file in the place of that of two kings, and the rows if it is read whole and by pages.
const FILES: [(Stored, Rows<'static>, Rows<'static>); 8] = [
    (Stored::Changed(0, b'T'), NOT_A_TABLE, NOT_A_TABLE),
    (Stored::Changed(8, 9), VERSION_9, VERSION_9),
    (Stored::Changed(17, b'X'), UNKNOWN, UNKNOWN),
    (Stored::Changed(40, 0), DAMAGED_HEADER, DAMAGED_HEADER),
    (Stored::Front(Class::KK, 4_191), CUT, BY_PAGES),
    (Stored::Longer, LONGER, BY_PAGES),
    (Stored::Changed(100, 1), PAGE, BY_PAGES),
    (Stored::Padded, PADDED, BY_PAGES),
];

/// Each fault of a header has its name, whole and by pages; the session continues.
const NOT_A_TABLE: Rows<'static> = "load KK -> error NotATable\nload KK -> error NotATable";

const VERSION_9: Rows<'static> = "load KK -> error Version 9\nload KK -> error Version 9";

const UNKNOWN: Rows<'static> = "load KK -> error ClassUnknown\nload KK -> error ClassUnknown";

const DAMAGED_HEADER: Rows<'static> =
    "load KK -> error HeaderDamaged\nload KK -> error HeaderDamaged";

/// The file with this text; a file that is closed has no bytes to read.
fn file_of<'t>(stored: &Stored, text: &'t [u8]) -> MemoryFile<'t> {
    match stored {
        Stored::Closed => MemoryFile::Closed,
        _ => MemoryFile::Bytes(text),
    }
}

/// A store of these files, each with its text.
fn store_of<'t, 'a, A: Allocator>(
    alloc: &'a A,
    files: &[(Class, Stored)],
    texts: &'t [Vec<u8, &'a A>],
    fails_at: Option<u64>,
) -> MemoryStore<'t, 'a, 'a, A> {
    let mut store = no_files(alloc);
    for ((class, stored), text) in files.iter().zip(texts.iter()) {
        store.put(*class, file_of(stored, text.as_slice()));
    }
    store.fails_at = fails_at;
    store
}

/// Runs a script over files, and compares the replies.
fn check_case<'a, A: Allocator>(
    rt: &impl Abort,
    alloc: &'a A,
    texts: &Texts<'a, A>,
    (files, pages, fails_at, rows): (&[(Class, Stored)], Option<u16>, Option<u64>, Rows<'_>),
) {
    let mut all = Vec::new(alloc);
    for (_, stored) in files {
        assert!(rt; all.push(texts.bytes_of(rt, alloc, *stored)).is_ok());
    }
    let mut store = store_of(alloc, files, all.as_slice(), fails_at);
    match pages {
        None => check_over(rt, alloc, &mut store, None, rows),
        Some(pages) => {
            assert!(rt; 1 <= pages && pages <= 4096);
            check_over(rt, alloc, &mut store, Some(pages), rows);
        }
    }
}

fn texts_of<'a, A: Allocator>(rt: &impl Abort, alloc: &'a A) -> Texts<'a, A> {
    Texts {
        kings: text_of(rt, alloc, &[Class::KK]),
        rook: text_of(rt, alloc, &[Class::KK, Class::KRK]),
    }
}

#[test]
fn files_are_loaded_whole_and_by_pages_as_far_as_they_are_right(rt: HostRuntime) {
    let alloc = rt.alloc();
    let texts = texts_of(&rt, &alloc);
    for case in CASES {
        check_case(&rt, &alloc, &texts, case);
    }
}

#[test]
fn each_fault_of_a_file_has_its_name(rt: HostRuntime) {
    let alloc = rt.alloc();
    let texts = texts_of(&rt, &alloc);
    for (stored, whole, paged) in FILES {
        let files = [(Class::KK, stored)];
        check_case(&rt, &alloc, &texts, (files.as_slice(), None, None, whole));
        check_case(
            &rt,
            &alloc,
            &texts,
            (files.as_slice(), Some(1), None, paged),
        );
    }
}
