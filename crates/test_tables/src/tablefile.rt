//! The text of a table, read back and damaged.
use crate::texts::{
    KK, are_equal, digest, exchange_pages, fault, has_fault, one_page, read, text_of, text_of_kk,
    text_of_table, zero_table,
};
use std::alloc::Allocator;
use std::io::ErrorKind;
use std::process::Abort;
use std::test::Fail;
use study_material::Class;
use study_table::Table;
use study_tablefile::{
    MemorySource, PageSource, file_bytes, page_cells, read_header, read_table, write_table,
};
use study_text::{DeviceFailed, MemoryReader, MemoryWriter, WhenFull, write_text};
use study_values::{FileFault, SourceFault};

/// The fields of KK, which has 1,280 cells, in version 1.
const KK_BEFORE: &[u8] =
    b"STUDYDTM\x01\x00\x00\x10\x00\x05\x00\x00KK\x00\x00\x00\x00\x00\x00\x00\x00\x00\x00\x00\x00\x00\x00";

/// The fields of KRK, which has 81,920 cells, in version 2.
const KRK: &[u8] =
    b"STUDYDTM\x02\x00\x00\x10\x00\x40\x01\x00KRK\x00\x00\x00\x00\x00\x00\x00\x00\x00\x00\x00\x00\x00";

/// The fields of KPKP, which has 33,554,432 cells, in version 2.
const KPKP: &[u8] =
    b"STUDYDTM\x02\x00\x00\x10\x00\x00\x00\x02KPKP\x00\x00\x00\x00\x00\x00\x00\x00\x00\x00\x00\x00";

/// The first 32 bytes of the file of a table of zero cells of a class.
fn first_bytes<'a, A: Allocator>(rt: &impl Abort, alloc: &'a A, class: Class) -> Vec<u8, &'a A> {
    let table = zero_table(rt, alloc, class);
    let mut writer = MemoryWriter::with_room(alloc, 32, WhenFull::Fail);
    assert!(rt; write_table(&table, &mut writer) == Err(FileFault::Device));
    writer.taken
}

/// The fields of the file of KRK as the description of the format prints them.
#[test]
fn header_of_krk_is_as_the_format_tells(rt: HostRuntime) {
    let alloc = rt.alloc();
    assert!(rt; first_bytes(&rt, &alloc, Class::KRK).as_slice() == KRK);
}

/// The fields of the file of KPKP.
#[test]
fn header_of_kpkp_is_as_the_format_tells(rt: HostRuntime) {
    let alloc = rt.alloc();
    assert!(rt; first_bytes(&rt, &alloc, Class::KPKP).as_slice() == KPKP);
}

/// The header of these fields: the fields and their digest.
fn header_of<'a, A: Allocator>(rt: &impl Abort, alloc: &'a A, fields: &[u8]) -> Vec<u8, &'a A> {
    let mut writer = MemoryWriter::new(alloc);
    for part in [fields, digest(fields).as_slice()] {
        assert!(rt; write_text(&mut writer, part).is_ok());
    }
    writer.taken
}

/// The fields of KPKP in version 1, which does not have that class.
const KPKP_BEFORE: &[u8] =
    b"STUDYDTM\x01\x00\x00\x10\x00\x00\x00\x02KPKP\x00\x00\x00\x00\x00\x00\x00\x00\x00\x00\x00\x00";

/// The fields of KPKP in a future version.
const KPKP_AFTER: &[u8] =
    b"STUDYDTM\x03\x00\x00\x10\x00\x00\x00\x02KPKP\x00\x00\x00\x00\x00\x00\x00\x00\x00\x00\x00\x00";

/// The fields of KQKP in version 1.
const KQKP_BEFORE: &[u8] =
    b"STUDYDTM\x01\x00\x00\x10\x00\x00\x00\x01KQKP\x00\x00\x00\x00\x00\x00\x00\x00\x00\x00\x00\x00";

/// The fields of KRK in a version that never existed.
const KRK_NEVER: &[u8] =
    b"STUDYDTM\x00\x00\x00\x10\x00\x40\x01\x00KRK\x00\x00\x00\x00\x00\x00\x00\x00\x00\x00\x00\x00\x00";

/// Whether the header of these fields, with nothing after it, has this fault.
fn header_has<A: Allocator>(rt: &impl Abort, alloc: &A, fields: &[u8], want: FileFault) -> bool {
    let text = header_of(rt, alloc, fields);
    has_fault(alloc, text.as_slice(), want)
}

/// A pawn against a pawn exists from version 2 on; the other classes are read in both versions.
#[test]
fn versions_that_are_not_known_are_refused(rt: HostRuntime) {
    let alloc = rt.alloc();
    assert!(rt; header_has(&rt, &alloc, KPKP_BEFORE, FileFault::ClassUnknown));
    assert!(rt; header_has(&rt, &alloc, KPKP, FileFault::Cut));
    assert!(rt; header_has(&rt, &alloc, KPKP_AFTER, FileFault::Version(3)));
    assert!(rt; header_has(&rt, &alloc, KQKP_BEFORE, FileFault::Cut));
    assert!(rt; header_has(&rt, &alloc, KRK_NEVER, FileFault::Version(0)));
}

/// A text of version 1 is read, and what is read is written in version 2. Its pages are refused under a header of version 2.
#[test]
fn version_1_is_read_and_version_2_written(rt: HostRuntime) {
    let alloc = rt.alloc();
    let page = [0u8; 4096];
    let text = one_page(&rt, &alloc, KK_BEFORE, KK_BEFORE, page.as_slice());
    let again = text_of_table(&rt, &alloc, &read(&rt, &alloc, text.as_slice()));
    assert!(rt; again.as_slice() == text_of_kk(&rt, &alloc).as_slice());
    let mixed = one_page(&rt, &alloc, KK, KK_BEFORE, page.as_slice());
    assert!(rt; has_fault(&alloc, mixed.as_slice(), FileFault::PageDamaged(0)));
}

/// The number of bytes of a file of each size.
#[test]
fn each_size_of_file_has_its_bytes(rt: HostRuntime) {
    for (class, bytes) in [
        (Class::KK, 4_192u32),
        (Class::KRK, 82_624),
        (Class::KPK, 264_256),
        (Class::KBBK, 5_283_904),
        (Class::KQKP, 16_908_352),
        (Class::KPKP, 33_816_640),
    ] {
        assert_eq!(rt; file_bytes(class), bytes);
    }
}

/// A text with one bit flipped.
fn turn(text: &mut [u8], place: usize, bit: u8) {
    if let Some(byte) = text.get_mut(place) {
        *byte ^= bit;
    }
}

/// The fault of a flipped bit, by its place and the version that is read.
fn fault_of_place(place: usize, version: u16) -> FileFault {
    match place {
        0..=7 => FileFault::NotATable,
        8..=9 => FileFault::Version(version),
        16..=23 => FileFault::ClassUnknown,
        10..=63 => FileFault::HeaderDamaged,
        _ => FileFault::PageDamaged(0),
    }
}

/// Each proper prefix of a text is reported as cut off.
#[test]
fn each_prefix_is_reported_as_cut_off(rt: HostRuntime) {
    let alloc = rt.alloc();
    let text = text_of_kk(&rt, &alloc);
    assert!(rt; fault(&alloc, text.as_slice()).is_none());
    for length in 0..4192usize {
        let (prefix, _) = text.as_slice().split_at(length.min(text.len()));
        assert!(rt; has_fault(&alloc, prefix, FileFault::Cut), "{length}");
    }
}

/// Whether a bit that is flipped at a place is found and named by it. It is flipped back.
fn is_named<A: Allocator>(alloc: &A, text: &mut [u8], place: usize, bit: u8) -> bool {
    let version = match place {
        8 => 2 ^ bit as u16,
        _ => 2 + 256 * bit as u16,
    };
    turn(text, place, bit);
    let is_named = has_fault(alloc, text, fault_of_place(place, version));
    turn(text, place, bit);
    is_named
}

/// Whether a place of a file of two kings is tried: each of its header and of its digest, and some of its cells.
fn is_tried(place: usize) -> bool {
    place < 64 || 4160 <= place || place % 101 == 0
}

/// Each flipped bit of the header, of the digest and of some cells is found and named by its place.
#[test]
fn each_turned_bit_is_found_and_named(rt: HostRuntime) -> Result<(), Fail> {
    let alloc = rt.alloc();
    let mut text = text_of_kk(&rt, &alloc);
    for place in 0..4192usize {
        if is_tried(place) {
            for bit in [1u8, 2, 4, 8, 16, 32, 64, 128] {
                assert!(rt;
                    is_named(&alloc, text.as_mut_slice(), place, bit),
                    "{place}"
                );
            }
        }
    }
    text.push(0)?;
    assert!(rt; has_fault(&alloc, text.as_slice(), FileFault::TrailingBytes));
    let mut failing = MemoryReader::failing_after(text.as_slice(), 100);
    assert!(rt; read_table(&alloc, &mut failing).err() == Some(FileFault::Device));
    Ok(())
}

/// Whether the device failed while the table was written.
fn is_cut_short<A: Allocator>(table: &Table<'_, A>, writer: &mut MemoryWriter<'_, A>) -> bool {
    write_table(table, writer) == Err(FileFault::Device)
}

/// The table is not written; the writer has a prefix of the text, and was not called again.
fn stops<A: Allocator>(
    rt: &impl Abort,
    table: &Table<'_, A>,
    writer: &mut MemoryWriter<'_, A>,
    text: &[u8],
) {
    assert!(rt; is_cut_short(table, writer), "{}", writer.room);
    let (front, _) = text.split_at(writer.room.min(text.len()));
    assert!(rt;
        are_equal(writer.taken.as_slice(), front),
        "{}",
        writer.room
    );
    assert!(rt; writer.errors == 1, "{}", writer.room);
}

/// A writer that is full before the end has a prefix of the text, whatever it returns then, and whether or not it would continue.
/// would go on.
#[test]
fn a_full_writer_has_a_prefix(rt: HostRuntime) {
    let alloc = rt.alloc();
    let text = text_of_kk(&rt, &alloc);
    let table = zero_table(&rt, &alloc, Class::KK);
    for room in 0..4192usize {
        if is_tried(room) {
            for when_full in [WhenFull::Fail, WhenFull::TakeNothing] {
                let mut full = MemoryWriter::with_room(&alloc, room, when_full);
                stops(&rt, &table, &mut full, text.as_slice());
                let mut recovers = MemoryWriter::full_once(&alloc, room, when_full);
                recovers.kind = ErrorKind::Interrupted;
                stops(&rt, &table, &mut recovers, text.as_slice());
            }
        }
    }
}

/// The source delivers the header of KK, and its page after it failed once, and no other page.
fn expect_pages<S: PageSource>(rt: &impl Abort, source: &mut S) {
    let mut bytes = [0u8; 64];
    assert!(rt; source.header(&mut bytes).is_ok());
    let header = read_header(&bytes).ok().expect(rt, "a header");
    assert!(rt; header.class == Class::KK);
    let mut page = [0u8; 4128];
    assert!(rt; source.page(0, &mut page) == Err(SourceFault::Device));
    assert!(rt; source.page(0, &mut page).is_ok());
    assert!(rt; page_cells(&header, 0, &page));
    assert!(rt; !page_cells(&header, 1, &page));
    assert!(rt; source.page(1, &mut page) == Err(SourceFault::Short));
    assert!(rt; source.failures() == 2);
}

/// The pages of a text, one by one, from a source that fails as planned.
#[test]
fn pages_are_read_one_by_one(rt: HostRuntime) {
    let alloc = rt.alloc();
    let text = text_of(&rt, &alloc, Class::KK);
    let mut source = MemorySource {
        text: text.as_slice(),
        asked: 0,
        fails_at: Some(1),
        failures: 0,
    };
    expect_pages(&rt, &mut source);
}

/// A cell after the last one that is not zero, under the digest that fits it.
#[test]
fn bytes_after_the_last_cell_have_to_be_zero(rt: HostRuntime) {
    let alloc = rt.alloc();
    let mut page = [0u8; 4096];
    page[2000] = 1;
    let text = one_page(&rt, &alloc, KK, KK, page.as_slice());
    assert!(rt; has_fault(&alloc, text.as_slice(), FileFault::Padding));
}

/// A header with some fields changed and the digest made anew has the first fault in the order of the fields.
#[test]
fn the_first_fault_of_a_header_is_reported(rt: HostRuntime) {
    let alloc = rt.alloc();
    for (changes, want) in [
        ([(7usize, 0u8), (8, 9)], FileFault::NotATable),
        ([(8, 9), (16, 0)], FileFault::Version(9)),
        ([(9, 1), (10, 1)], FileFault::Version(258)),
        ([(17, b'P'), (19, b'P')], FileFault::HeaderDamaged),
        ([(16, b'k'), (12, 1)], FileFault::ClassUnknown),
        ([(8, 1), (24, 1)], FileFault::HeaderDamaged),
        ([(8, 1), (8, 1)], FileFault::Cut),
        ([(10, 1), (10, 1)], FileFault::HeaderDamaged),
        ([(12, 1), (13, 0x40)], FileFault::HeaderDamaged),
        ([(24, 1), (31, 0)], FileFault::HeaderDamaged),
    ] {
        let mut fields = KRK.to_vec(&alloc).ok().expect(&rt, "memory");
        for (place, byte) in changes {
            if let Some(field) = fields.as_mut_slice().get_mut(place) {
                *field = byte;
            }
        }
        let text = header_of(&rt, &alloc, fields.as_slice());
        assert!(rt; has_fault(&alloc, text.as_slice(), want), "{want}");
    }
}

/// The texts of faults.
#[test]
fn faults_have_texts(rt: HostRuntime) -> Result<(), Fail> {
    for (fault, want) in [
        (FileFault::Version(9), "version 9 of the file is not known"),
        (FileFault::PageDamaged(3), "page 3 of the file is damaged"),
    ] {
        let text = format!(in rt.alloc(); "{fault}")?;
        assert!(rt; text.as_str() == want, "{want}");
    }
    let short = SourceFault::Short;
    let text = format!(in rt.alloc(); "{short}: {DeviceFailed}")?;
    assert!(rt; text.as_str() == "the file of a table is too short: a device failed");
    Ok(())
}

/// Of two exchanged pages the first is reported, and nothing after it is read.
#[test]
fn exchanged_pages_are_reported(rt: HostRuntime) {
    let alloc = rt.alloc();
    let text = text_of(&rt, &alloc, Class::KRK);
    let wrong = exchange_pages(&rt, &alloc, text.as_slice());
    let mut reader = MemoryReader::new(wrong.as_slice());
    let answer = read_table(&alloc, &mut reader).err();
    assert!(rt; answer == Some(FileFault::PageDamaged(3)));
    assert!(rt; reader.given == 64 + 4 * 4128);
}
