//! Devices that fail, and heaps that are too small.
use crate::texts::{text_of, text_of_kk};
use linked_list_allocator::LocalHeap;
use std::alloc::Allocator;
use std::io::ErrorKind;
use std::process::Abort;
use std::test::Fail;
use study_material::Class;
use study_tablefile::{MemorySource, PageSource, page_cells, read_header, read_table};
use study_text::MemoryReader;
use study_values::{FileFault, SourceFault};

/// The device's failure is reported after so many bytes, and the reader is not called again.
fn fails_after<A: Allocator>(
    rt: &impl Abort,
    alloc: &A,
    reader: &mut MemoryReader<'_>,
    count: usize,
) {
    let answer = read_table(alloc, reader).err();
    assert!(rt; answer == Some(FileFault::Device), "{count}");
    assert!(rt; reader.given == count);
    assert!(rt; reader.errors == 1, "{count}");
}

/// A reader that fails after so many bytes, at the end too, whether or not it would go on.
#[test]
fn a_failing_reader_is_reported_after_each_byte(rt: HostRuntime) {
    let alloc = rt.alloc();
    let text = text_of_kk(&rt, &alloc);
    let bytes = text.as_slice();
    for count in 0..=4192usize {
        let mut fails = MemoryReader::failing_after(bytes, count);
        fails_after(&rt, &alloc, &mut fails, count);
        for kind in [ErrorKind::Other, ErrorKind::Interrupted] {
            let mut recovers = MemoryReader::failing_once(bytes, count);
            recovers.kind = kind;
            fails_after(&rt, &alloc, &mut recovers, count);
        }
    }
    let mut reader = MemoryReader::failing_after(bytes, 4193);
    assert!(rt; read_table(&alloc, &mut reader).is_ok());
    assert_eq!(rt; reader.errors, 0);
}

/// Request 0 is for the header, and the others are for the pages in turn.
fn ask<S: PageSource>(
    source: &mut S,
    question: u32,
    header: &mut [u8; 64],
    page: &mut [u8; 4128],
) -> Result<(), SourceFault> {
    match question {
        0 => source.header(header),
        number => source.page(number - 1, page),
    }
}

/// Whether the header is that of KRK in version 2, and the page of the request is whole.
fn is_given(rt: &impl Abort, bytes: &[u8; 64], question: u32, page: &[u8; 4128]) -> bool {
    let header = read_header(bytes).ok().expect(rt, "a header");
    header.class == Class::KRK
        && header.version == 2
        && header.cells == 81_920
        && (question == 0 || page_cells(&header, question - 1, page))
}

/// Makes all requests. One of them fails: it is reported and counted, and the same request made again is answered.
fn ask_all<S: PageSource>(rt: &impl Abort, source: &mut S, fails_at: u32) {
    let mut bytes = [0u8; 64];
    let mut page = [0u8; 4128];
    for question in 0..21u32 {
        if question == fails_at {
            let answer = ask(source, question, &mut bytes, &mut page);
            assert!(rt; answer == Err(SourceFault::Device), "{question}");
        }
        let failures = (fails_at <= question) as u64;
        assert!(rt; source.failures() == failures, "{question}");
        let answer = ask(source, question, &mut bytes, &mut page);
        assert!(rt; answer.is_ok(), "{question}");
        assert!(rt; source.failures() == failures, "{question}");
        assert!(rt; is_given(rt, &bytes, question, &page), "{question}");
    }
    let answer = ask(source, 21, &mut bytes, &mut page);
    assert!(rt; answer == Err(SourceFault::Short));
    assert!(rt; source.failures() == (fails_at <= 20) as u64 + 1);
}

/// Each request in turn fails.
#[test]
fn each_question_to_a_source_fails_in_turn(rt: HostRuntime) {
    let alloc = rt.alloc();
    let text = text_of(&rt, &alloc, Class::KRK);
    for fails_at in 0..=20u32 {
        let mut source = MemorySource {
            text: text.as_slice(),
            asked: 0,
            fails_at: Some(fails_at as u64),
            failures: 0,
        };
        ask_all(&rt, &mut source, fails_at);
    }
}

/// Whether the text is read as the table of zero cells of its class; if not, there is no memory.
fn is_read<A: Allocator>(rt: &impl Abort, heap: &A, class: Class, text: &[u8]) -> bool {
    match read_table(heap, &mut MemoryReader::new(text)) {
        Ok(table) => {
            assert!(rt; table.class() == class);
            assert!(rt; table.cells().iter().all(|cell| *cell == 0));
            true
        }
        Err(fault) => {
            assert!(rt; fault == FileFault::OutOfMemory, "{fault}");
            false
        }
    }
}

/// Heaps that grow step by step: there is no memory for the table, until there is enough.
#[test]
fn each_growth_of_a_table_is_refused_in_turn(rt: HostRuntime) -> Result<(), Fail> {
    let alloc = rt.alloc();
    for (class, step) in [(Class::KK, 16usize), (Class::KRK, 512)] {
        let text = text_of(&rt, &alloc, class);
        let (mut refused, mut read) = (0u32, false);
        for turn in 0..400usize {
            let heap = LocalHeap::new(rt.alloc(), 64 + turn * step)?;
            if is_read(&rt, &heap, class, text.as_slice()) {
                read = true;
                break;
            }
            refused = refused.saturating_add(1);
        }
        assert!(rt; read && refused > 0);
    }
    Ok(())
}
