//! Mates that come too late, on pages over the table of rook against king.
use crate::kings::built;
use std::process::Abort;
use std::test::Fail;
use study_print::{Unwatched, write_pages};
use study_text::{MemoryReader, MemoryWriter};

/// White mates at once by Rb8. After 1. Rb2 Kg8, Black's only move, he does so a move later, and after 1. Kf6 he needs two moves more.
const SCRIPT: &str = "position 7k/8/6K1/8/8/8/8/1R6 w - - 0 1
stipulate white mate 1
insert root Rb2
insert 0 Kg8
insert 0.0 Rb8
pgn
insert root Kf6
promote 1
pgn
";

/// What the pages say of it.
const LATE: &str = "<li>1. Rb2 throws it away: White mates in 1, one move too late</li>
<tr><td>1. Rb2</td><td>White mates in 1</td><td><span class=\"nb\"><b>Kg8</b><sub>1</sub></span> <b>only</b></td></tr>
<tr><td>2. Rb8#</td><td>mate</td><td>mate, one move too late</td></tr>
<li>1. Kf6 throws it away: White mates in 2, 2 moves too late</li>
";

#[test]
fn a_late_mate_says_how_late(rt: HostRuntime) -> Result<(), Fail> {
    let alloc = rt.alloc();
    let mut pages = MemoryWriter::new(&alloc);
    let answer = write_pages(
        &alloc,
        &mut MemoryReader::new(SCRIPT.as_bytes()),
        &mut pages,
        Unwatched,
        built(&rt, &alloc, &["KK", "KRK"]),
    );
    assert!(rt; answer.is_ok());
    let pages = std::str::from_utf8(pages.taken.as_slice()).unwrap_or("no text");
    for part in LATE.lines() {
        assert!(rt; pages.contains(part), "{part}");
    }
    Ok(())
}
