//! Texts that grow, words, and devices in memory that fail.
use linked_list_allocator::LocalHeap;
use std::alloc::Allocator;
use std::io::{ErrorKind, Read, Write};
use std::process::Abort;
use std::test::Fail;
use study_text::{
    DeviceFailed, MemoryReader, MemoryWriter, Piece, Text, WhenFull, add_pieces, next_word,
    space_len, write_pieces, write_text,
};

/// Writes three letters, and compares the result, the letters accepted, and that the writer was not called again after it was full.
fn put_letters<A: Allocator>(
    rt: &impl Abort,
    writer: &mut MemoryWriter<'_, A>,
    want: Result<(), DeviceFailed>,
    taken: &str,
) {
    assert!(rt; write_text(writer, b"abc") == want, "{taken}");
    assert!(rt; writer.taken.as_slice() == taken.as_bytes(), "{taken}");
    assert!(rt; writer.errors == want.is_err() as u64, "{taken}");
}

/// A writer that is full fails each time.
fn fails_each_time<A: Allocator>(
    rt: &impl Abort,
    mut full: MemoryWriter<'_, A>,
    want: Result<(), DeviceFailed>,
    taken: &str,
) {
    put_letters(rt, &mut full, want, taken);
    assert!(rt; write_text(&mut full, b"d").is_err(), "{taken}");
    assert!(rt; full.errors == want.is_err() as u64 + 1, "{taken}");
}

/// A writer that is full once continues after it failed, whether in the first three letters or in the next.
fn fails_once<A: Allocator>(
    rt: &impl Abort,
    mut recovers: MemoryWriter<'_, A>,
    want: Result<(), DeviceFailed>,
    taken: &str,
) {
    recovers.kind = ErrorKind::Interrupted;
    put_letters(rt, &mut recovers, want, taken);
    assert!(rt;
        write_text(&mut recovers, b"d").is_ok() == want.is_err(),
        "{taken}"
    );
    assert!(rt; recovers.errors == 1, "{taken}");
}

/// Writers fail, or accept nothing, as planned, each time or once.
#[test]
fn writers_in_memory_fail_as_planned(rt: HostRuntime) {
    let alloc = rt.alloc();
    for when_full in [WhenFull::Fail, WhenFull::TakeNothing] {
        for (room, want, taken) in [
            (0usize, Err(DeviceFailed), ""),
            (2, Err(DeviceFailed), "ab"),
            (3, Ok(()), "abc"),
        ] {
            let full = MemoryWriter::with_room(&alloc, room, when_full);
            fails_each_time(&rt, full, want, taken);
            let recovers = MemoryWriter::full_once(&alloc, room, when_full);
            fails_once(&rt, recovers, want, taken);
        }
    }
    let mut full = MemoryWriter::with_room(&alloc, 0, WhenFull::Fail);
    assert!(rt; write_text(&mut full, b"").is_ok());
    assert!(rt; full.flush().is_ok() && full.errors == 0);
}

/// Reads to the end: the number of bytes, if the reader does not fail.
fn read_on(reader: &mut MemoryReader<'_>, text: &mut Vec<u8>) -> Option<usize> {
    reader.read_to_end(text).ok()
}

fn is_text(bytes: &[u8], text: &str) -> bool {
    bytes == text.as_bytes()
}

/// Readers fail as planned, each time or once.
#[test]
fn readers_in_memory_fail_as_planned(rt: HostRuntime) {
    let mut text = Vec::new(rt.alloc());
    assert!(rt; read_on(&mut MemoryReader::new(b"abc"), &mut text) == Some(3));
    assert!(rt; is_text(text.as_slice(), "abc"));
    let mut failing = MemoryReader::failing_after(b"abc", 2);
    assert!(rt; read_on(&mut failing, &mut text).is_none());
    assert!(rt; read_on(&mut failing, &mut text).is_none());
    assert!(rt; is_text(text.as_slice(), "abcab"));
    assert!(rt; failing.errors == 2);
    let mut recovers = MemoryReader::failing_once(b"abc", 2);
    assert!(rt; read_on(&mut recovers, &mut text).is_none());
    assert!(rt; read_on(&mut recovers, &mut text) == Some(1));
    assert!(rt; is_text(text.as_slice(), "abcababc"));
    assert!(rt; recovers.errors == 1);
    let mut interrupted = MemoryReader::failing_once(b"abc", 2);
    interrupted.kind = ErrorKind::Interrupted;
    assert!(rt; read_on(&mut interrupted, &mut text) == Some(3));
    assert!(rt; interrupted.errors == 1);
}

/// A writer that finds no memory for a byte has failed once.
#[test]
fn a_writer_without_memory_fails_once(rt: HostRuntime) -> Result<(), Fail> {
    let heap = LocalHeap::new(rt.alloc(), 256)?;
    let text = [7u8; 1024];
    let mut writer = MemoryWriter::new(&heap);
    assert_eq!(rt; write_text(&mut writer, text.as_slice()), Err(DeviceFailed));
    assert_eq!(rt; writer.errors, 1);
    assert!(rt; 0 < writer.taken.len() && writer.taken.len() < 256);
    Ok(())
}

/// A text grows by bytes and by numbers, as far as there is memory.
#[test]
fn a_text_grows_until_memory_ends(rt: HostRuntime) -> Result<(), Fail> {
    let alloc = rt.alloc();
    let mut text = Text::new(&alloc);
    assert!(rt; text.add(b"move ").is_ok() && text.add_number(4_294_967_295).is_ok());
    assert!(rt; is_text(text.as_slice(), "move 4294967295"));
    let heap = LocalHeap::new(rt.alloc(), 256)?;
    let mut small = Text::new(&heap);
    assert!(rt; small.add(&[7u8; 64]).is_ok() && small.add(&[7u8; 1024]).is_err());
    Ok(())
}

const PIECES: [Piece<'static>; 6] = [
    Piece::Bytes(b"at "),
    Piece::Path(&[]),
    Piece::Bytes(b" and "),
    Piece::Child(&[], 7),
    Piece::Bytes(b", "),
    Piece::Number(4_294_967_295),
];

const PLACES: [Piece<'static>; 3] = [
    Piece::Path(&[0, 65_535, 12]),
    Piece::Bytes(b" "),
    Piece::Child(&[3, 0], 10),
];

/// Pieces become one text, in a text or in a writer.
#[test]
fn pieces_become_one_text(rt: HostRuntime) {
    let alloc = rt.alloc();
    let mut text = Text::new(&alloc);
    assert!(rt; add_pieces(&mut text, &PIECES).is_ok());
    assert!(rt; is_text(text.as_slice(), "at root and 7, 4294967295"));
    assert!(rt; add_pieces(&mut text, &PLACES).is_ok());
    assert!(rt;
        is_text(
            text.as_slice(),
            "at root and 7, 42949672950.65535.12 3.0.10"
        )
    );
    let mut writer = MemoryWriter::new(&alloc);
    assert!(rt; write_pieces(&mut writer, &PIECES).is_ok());
    assert!(rt; is_text(writer.taken.as_slice(), "at root and 7, 4294967295"));
    let mut places = MemoryWriter::new(&alloc);
    assert!(rt; write_pieces(&mut places, &PLACES).is_ok());
    assert!(rt; is_text(places.taken.as_slice(), "0.65535.12 3.0.10"));
}

/// A writer that is full at any byte of the pieces has the bytes before it.
#[test]
fn a_full_writer_has_the_front_of_the_pieces(rt: HostRuntime) {
    let alloc = rt.alloc();
    for room in 0..17usize {
        let mut full = MemoryWriter::with_room(&alloc, room, WhenFull::Fail);
        assert!(rt; write_pieces(&mut full, &PLACES) == Err(DeviceFailed));
        assert!(rt;
            full.taken.len() == room && b"0.65535.12 3.0.10".starts_with(full.taken.as_slice())
        );
    }
}

/// Words are separated only by spaces.
#[test]
fn words_stand_between_spaces(rt: HostRuntime) {
    assert!(rt; space_len(b"  a b") == 2 && space_len(b"") == 0);
    let (word, rest) = next_word(b"  a\tb  c ").expect(&rt, "a word");
    assert!(rt; is_text(word, "a\tb") && is_text(rest, "  c "));
    assert!(rt; next_word(b"   ").is_none());
}
