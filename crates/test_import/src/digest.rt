//! Scripts in short: a row for each study, and what an import says besides.
use std::alloc::{AllocError, Allocator};
use study_import::{Choice, Importer};
use study_text::Text;

/// Adds a remark, unless it names the usual source of a stipulation.
fn add_remark<A: Allocator>(out: &mut Text<'_, A>, line: &[u8]) -> Result<(), AllocError> {
    if line.ends_with(b": stipulated by its tag Result") {
        return Ok(());
    }
    out.add(line)?;
    out.add(b"\n")
}

/// Adds the words of a line behind the first ones.
fn add_words<A: Allocator>(
    out: &mut Text<'_, A>,
    line: &[u8],
    first: usize,
) -> Result<(), AllocError> {
    let mut place = 0usize;
    for word in line.split(|b| *b == b' ') {
        if place >= first {
            out.add(b" ")?;
            out.add(word)?;
        }
        place = place.saturating_add(1);
    }
    Ok(())
}

/// Whether the line is a tag without a value.
fn is_unknown_tag(line: &[u8]) -> bool {
    line.ends_with(b" ?") || line.ends_with(b" ????.??.??")
}

/// Adds a line of a script in short: a position as it is; a stipulation, a tag that has a value and the SAN of a move behind it; and a remark by itself.
fn add_line<A: Allocator>(out: &mut Text<'_, A>, line: &[u8]) -> Result<(), AllocError> {
    if line.starts_with(b"#!") {
        add_remark(out, line)
    } else if line.starts_with(b"position ") {
        out.add(line)
    } else if line.starts_with(b"insert ") {
        add_words(out, line, 2)
    } else if line == b"pgn".as_slice() {
        out.add(b"\n")
    } else if line.is_empty() || is_unknown_tag(line) {
        Ok(())
    } else {
        add_words(out, line, 1)
    }
}

/// The script of games in short.
fn digest_of<'a, A: Allocator>(alloc: &'a A, games: &[&[u8]]) -> Result<Text<'a, A>, AllocError> {
    let choice = Choice {
        given: None,
        from: 1,
        to: u32::MAX,
        tails: false,
        up_to_faults: false,
    };
    let mut importer = Importer::new(alloc, choice);
    let mut script = Text::new(alloc);
    for part in games {
        for byte in *part {
            importer.take(*byte, &mut script)?;
        }
    }
    importer.finish(&mut script)?;
    let mut out = Text::new(alloc);
    for line in script.as_slice().split(|b| *b == b'\n') {
        add_line(&mut out, line)?;
    }
    Ok(out)
}

/// Compares the script of games, which may be cut anywhere, with these rows. No contract: only tests call it.
pub fn is_digest<A: Allocator>(
    alloc: &A,
    games: &[&[u8]],
    rows: &[&[u8]],
) -> Result<bool, AllocError> {
    let digest = digest_of(alloc, games)?;
    let mut wanted = Text::new(alloc);
    for part in rows {
        wanted.add(part)?;
    }
    Ok(digest.as_slice() == wanted.as_slice())
}
