//! Defences that are not given, since the tree has them elsewhere, on pages and in lists over the table of queen against king.
use crate::kings::built;
use std::process::Abort;
use std::test::Fail;
use study_list::write_list;
use study_print::{Unwatched, write_pages};
use study_text::{MemoryReader, MemoryWriter};

/// After 1. Kb6 Black's only move is Kb8. A try loses time and comes to the same position: 1. Qd8+ Ka7 2. Qd7+ Ka8 3. Kb6 Kb8.
const SCRIPT: &str = "position k7/3Q4/8/2K5/8/8/8/8 w - - 0 1
stipulate white win
insert root Kb6
pgn
insert root Qd8+
insert 1 Ka7
insert 1.0 Qd7+
insert 1.0.0 Ka8
insert 1.0.0.0 Kb6
pgn
insert 1.0.0.0.0 Kb8
pgn
";

/// What the pages say behind the number of answers: nothing, until the tree has the defence.
const ANSWERS: [&str; 3] = [
    "<small>answers 0 of 1</small>",
    "<small>answers 0 of 1</small>",
    "<small>answers 0 of 1, Kb8 (as after 3... Kb8)</small>",
];

#[test]
fn a_defence_that_the_tree_has_elsewhere_says_where(rt: HostRuntime) -> Result<(), Fail> {
    let alloc = rt.alloc();
    let mut pages = MemoryWriter::new(&alloc);
    let answer = write_pages(
        &alloc,
        &mut MemoryReader::new(SCRIPT.as_bytes()),
        &mut pages,
        Unwatched,
        built(&rt, &alloc, &["KK", "KQK"]),
    );
    assert!(rt; answer.is_ok());
    let pages = std::str::from_utf8(pages.taken.as_slice()).unwrap_or("no text");
    assert!(rt; pages.matches("<small>answers 0").count() == 3);
    for (page, answers) in pages.split("<article").skip(1).zip(ANSWERS) {
        assert!(rt; page.contains(answers), "{page}");
    }
    Ok(())
}

/// White mates in two moves by 1. Kb6 alone, after Ka8 and after Kc8 by Qe8 alone. A try comes to the position after 1. Kb6 Kc8 two moves later.
const DEFENCES: &str = "position 1k6/8/8/K7/8/4Q3/8/8 w - - 0 1
stipulate white mate 2
insert root Kb6
insert 0 Ka8
insert 0.0 Qe8
pgn
insert root Qe2
insert 1 Kc8
insert 1.0 Qe3
insert 1.0.0 Kb8
insert 1.0.0.0 Kb6
pgn
insert 1.0.0.0.0 Kc8
pgn
";

/// How their records end.
const VERDICTS: [&str; 3] = [
    ",sound; main defence 1... Kc8 not given,",
    ",sound; main defence 1... Kc8 not given,",
    ",sound,",
];

#[test]
fn a_main_defence_that_the_tree_has_elsewhere_is_given(rt: HostRuntime) -> Result<(), Fail> {
    let alloc = rt.alloc();
    let mut list = MemoryWriter::new(&alloc);
    let answer = write_list(
        &alloc,
        &mut MemoryReader::new(DEFENCES.as_bytes()),
        &mut list,
        built(&rt, &alloc, &["KK", "KQK"]),
    );
    assert!(rt; answer.is_ok());
    let list = std::str::from_utf8(list.taken.as_slice()).unwrap_or("no text");
    assert!(rt; list.lines().count() == 1 + 3);
    for (record, verdict) in list.lines().skip(1).zip(VERDICTS) {
        assert!(rt; record.trim_end().ends_with(verdict), "{record}");
    }
    Ok(())
}
