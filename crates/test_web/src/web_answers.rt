//! The answers to a page: each request once. The view, the review and the survey are an independent program's.

use crate::web_scripts::two_files;
use linked_list_allocator::LocalHeap;
use std::alloc::{Allocator, Global};
use std::test::Fail;
use study_material::Class;
use study_web::{
    Answer, Ending, FileSpan, RunFault, Summary, TableFiles, answer, make_file, put_ending,
};

const SCRIPT: &str = r#"position k7/1R6/8/K7/8/8/8/8 w - - 0 1
stipulate white mate 3
tag Event King and rook
tag White Found with the tables
insert root Rc7
insert root Kb6
insert root Kb5
insert 2 Kxb7
insert 0 Kb8
insert 0.0 Kb6
insert 0.0 Rc6
insert 0.0.1 Ka7
insert 0.0.0 Ka8
insert 0.0.0.0 Rc8
insert root Ra9
pgn
"#;

const VIEW: &str = r#"study k7/1R6/8/K7/8/8/8/8 w - - 0 1
counts 2 + 1, 0100.00 a5a8
stipulation White to mate in 3: sound, White mates in 3
stamp sound
sentence The stipulation is correct, and every move of the solution is the only one that works. At the start: White mates in 3.
node root - - win 5 - faults 0 k7/1R6/8/K7/8/8/8/8 w - - 0 1
node 0 Rc7 b7c7 loss 4 only faults 0 k7/2R5/8/K7/8/8/8/8 b - - 1 1
node 0.0 Kb8 a8b8 win 3 reply faults 0 1k6/2R5/8/K7/8/8/8/8 w - - 2 2
node 0.0.0 Kb6 a5b6 loss 2 only faults 0 1k6/2R5/1K6/8/8/8/8/8 b - - 3 2
node 0.0.0.0 Ka8 b8a8 win 1 reply faults 0 k7/2R5/1K6/8/8/8/8/8 w - - 4 3
node 0.0.0.0.0 Rc8# c7c8 loss 0 only faults 0 k1R5/8/1K6/8/8/8/8/8 b - - 5 3
node 0.0.1 Rc6 c7c6 loss 10 mistake faults 1 1k6/8/2R5/K7/8/8/8/8 b - - 3 2
node 0.0.1.0 Ka7 b8a7 win 7 reply faults 0 8/k7/2R5/K7/8/8/8/8 w - - 4 3
node 1 Kb6 a5b6 draw mistake faults 1 k7/1R6/1K6/8/8/8/8/8 b - - 1 1
node 2 Kb5 a5b5 draw mistake faults 1 k7/1R6/8/1K6/8/8/8/8 b - - 1 1
node 2.0 Kxb7 a8b7 draw reply faults 0 8/1k6/8/1K6/8/8/8/8 w - - 0 2
at root 19
move Ka4 a5a4 draw mistake k7/1R6/8/8/K7/8/8/8 b - - 1 1
move Kb4 a5b4 draw mistake k7/1R6/8/8/1K6/8/8/8 b - - 1 1
move Kb5 a5b5 draw mistake k7/1R6/8/1K6/8/8/8/8 b - - 1 1
move Ka6 a5a6 draw mistake k7/1R6/K7/8/8/8/8/8 b - - 1 1
move Kb6 a5b6 draw mistake k7/1R6/1K6/8/8/8/8/8 b - - 1 1
move Rb1 b7b1 loss 8 mistake k7/8/8/K7/8/8/8/1R6 b - - 1 1
move Rb2 b7b2 loss 8 mistake k7/8/8/K7/8/8/1R6/8 b - - 1 1
move Rb3 b7b3 loss 8 mistake k7/8/8/K7/8/1R6/8/8 b - - 1 1
move Rb4 b7b4 loss 8 mistake k7/8/8/K7/1R6/8/8/8 b - - 1 1
move Rb5 b7b5 loss 8 mistake k7/8/8/KR6/8/8/8/8 b - - 1 1
move Rb6 b7b6 loss 8 mistake k7/8/1R6/K7/8/8/8/8 b - - 1 1
move Ra7+ b7a7 draw mistake k7/R7/8/K7/8/8/8/8 b - - 1 1
move Rc7 b7c7 loss 4 only k7/2R5/8/K7/8/8/8/8 b - - 1 1
move Rd7 b7d7 loss 6 mistake k7/3R4/8/K7/8/8/8/8 b - - 1 1
move Re7 b7e7 loss 10 mistake k7/4R3/8/K7/8/8/8/8 b - - 1 1
move Rf7 b7f7 loss 14 mistake k7/5R2/8/K7/8/8/8/8 b - - 1 1
move Rg7 b7g7 loss 14 mistake k7/6R1/8/K7/8/8/8/8 b - - 1 1
move Rh7 b7h7 loss 14 mistake k7/7R/8/K7/8/8/8/8 b - - 1 1
move Rb8+ b7b8 draw mistake kR6/8/8/K7/8/8/8/8 b - - 1 1
"#;

const REVIEW: &str = r#"study 1 k7/1R6/8/K7/8/8/8/8 w - - 0 1
stipulation White to mate in 3: sound, White mates in 3
refuted 0.0.1 Ka7 win 7
refuted 0.0.1 Kb7 win 9
refuted 0.0.1 Ka8 win 5
play 0.0.1.0 win 7 Rc7+ Ka8 Kb5 Kb8 Kb6 Ka8 Rc8#
refuted 1 stalemate
refuted 2 Kxb7 draw
keep 2.0 5 5 Ka4 Kb4 Kc4 Ka5 Kc5
"#;

const SURVEY: &str = r#"survey Rh1 White to mate in 1
a1 -
b1 fails win 3
c1 only win 1 Rc8#
d1 only win 1 Rd8#
e1 only win 1 Re8#
f1 only win 1 Rf8#
g1 only win 1 Rg8#
a2 -
b2 fails win 3
c2 only win 1 Rc8#
d2 only win 1 Rd8#
e2 only win 1 Re8#
f2 only win 1 Rf8#
g2 only win 1 Rg8#
h2 only win 1 Rh8#
a3 -
b3 fails win 3
c3 only win 1 Rc8#
d3 only win 1 Rd8#
e3 only win 1 Re8#
f3 only win 1 Rf8#
g3 only win 1 Rg8#
h3 only win 1 Rh8#
a4 -
b4 fails win 3
c4 only win 1 Rc8#
d4 only win 1 Rd8#
e4 only win 1 Re8#
f4 only win 1 Rf8#
g4 only win 1 Rg8#
h4 only win 1 Rh8#
a5 -
b5 fails win 3
c5 only win 1 Rc8#
d5 only win 1 Rd8#
e5 only win 1 Re8#
f5 only win 1 Rf8#
g5 only win 1 Rg8#
h5 only win 1 Rh8#
a6 -
b6 -
c6 only win 1 Rc8#
d6 only win 1 Rd8#
e6 only win 1 Re8#
f6 only win 1 Rf8#
g6 only win 1 Rg8#
h6 only win 1 Rh8#
a7 -
b7 fails win 3
c7 only win 1 Rc8#
d7 only win 1 Rd8#
e7 only win 1 Re8#
f7 only win 1 Rf8#
g7 only win 1 Rg8#
h7 only win 1 Rh8#
a8 -
b8 -
c8 -
d8 -
e8 -
f8 -
g8 -
h8 -
"#;

fn ask<'a>(
    alloc: &'a Global,
    request: &str,
    script: &str,
    spans: &[FileSpan],
    bytes: &[u8],
) -> Answer<'a, Global> {
    let files = TableFiles {
        spans,
        bytes,
        pages: Some(16),
    };
    answer(alloc, request.as_bytes(), script.as_bytes(), &files, &[])
}

/// The name of a refusal.
fn refusal<'a>(
    alloc: &'a Global,
    request: &str,
    script: &str,
    spans: &[FileSpan],
    bytes: &[u8],
) -> Result<Vec<u8, &'a Global>, Fail> {
    let given = ask(alloc, request, script, spans, bytes);
    let mut word = Vec::new(alloc);
    put_ending(&mut word, given.ended)?;
    if word.as_slice() != b"refused\n".as_slice() {
        return Err(Fail::from("not refused"));
    }
    Ok(given.text)
}

/// Requests that need no table.
#[test]
fn without_tables(rt: HostRuntime) -> Result<(), Fail> {
    let alloc = rt.alloc();
    let passed = ask(&alloc, "passed 4k3/8/8/8/4P3/8/8/4K3 b - -", "", &[], &[]);
    assert!(rt; passed.text.as_slice() == b"e3\n".as_slice());
    assert!(rt; passed.ended == Ending::Answered);
    let script =
        "position 8/8/8/6k1/8/8/1P5K/8 w - - 0 1\nposition 8/8\nshift 4k3/8/8/8/8/8/8/R3K3 b - - 0 1\n";
    let tables = ask(&alloc, "tables", script, &[], &[]);
    assert!(rt; tables.text.as_slice() == b"KK\nKQK\nKRK\nKBK\nKNK\nKPK\n".as_slice());
    let script = "position 4k3/8/8/8/4P3/8/8/4K3 b - - 0 1\nsquare\n";
    let view = ask(&alloc, "view root", script, &[], &[]);
    let lines =
        b"study 4k3/8/8/8/4P3/8/8/4K3 b - - 0 1\ncounts 2 + 1, 0000.10 e1e8\nrefused 2 UnknownCommand\n";
    assert!(rt; view.text.as_slice() == lines.as_slice());
    let run = ask(&alloc, "run", "fen root\n", &[], &[]);
    assert!(rt; run.text.as_slice() == b"error NoPosition\n".as_slice());
    assert!(rt;
        run.ended
            == Ending::Ran(Summary {
                lines: 1,
                refused: 1
            })
    );
    let made = ask(&alloc, "make KK", "", &[], &[]);
    let kings = make_file(&alloc, Class::KK, &[], &[])?;
    assert!(rt; made.text.as_slice() == kings.as_slice());
    Ok(())
}

/// Whether the text contains the words.
fn has(text: &[u8], words: &str) -> bool {
    for start in 0..text.len() {
        if text[start..].starts_with(words.as_bytes()) {
            return true;
        }
    }
    false
}

/// The printed page of a study, with its refused line before it.
#[test]
fn pages_over_tables(rt: HostRuntime) -> Result<(), Fail> {
    let alloc = rt.alloc();
    let (bytes, spans) = two_files(&alloc)?;
    let report = ask(&alloc, "report", SCRIPT, &spans, bytes.as_slice());
    let text = report.text.as_slice();
    assert!(rt; text.starts_with(b"<!DOCTYPE html>\n") && text.ends_with(b"</body></html>\n"));
    let refused = "Line 15 was refused: <code>insert root Ra9</code> <b>NotSan</b>: ";
    assert!(rt; has(text, refused));
    assert!(rt;
        has(
            text,
            "<article id=\"e1\"><p class=\"note\">No. 1</p><header><h1>King and rook</h1>"
        )
    );
    assert!(rt; has(text, ">not read: line 15</span>"));
    assert!(rt; !has(text, "<article id=\"e2\">") && !has(text, "Entries and verdicts"));
    assert!(rt;
        report.ended
            == Ending::Ran(Summary {
                lines: 16,
                refused: 1
            })
    );
    let other = [FileSpan {
        class: Class::KRK as usize,
        start: 0,
        length: 80,
    }];
    let text = refusal(&alloc, "report", SCRIPT, &other, bytes.as_slice())?;
    assert!(rt; text.starts_with(b"KRK "));
    Ok(())
}

/// Requests over the tables of king and rook.
#[test]
fn over_tables(rt: HostRuntime) -> Result<(), Fail> {
    let alloc = rt.alloc();
    let (bytes, spans) = two_files(&alloc)?;
    let view = ask(&alloc, "view root", SCRIPT, &spans, bytes.as_slice());
    let text = view.text.as_slice();
    assert!(rt; text.starts_with(VIEW.as_bytes()));
    assert!(rt;
        text.ends_with(b"\nrefused 15 NotSan\n") && text.len() == VIEW.len().saturating_add(18)
    );
    let review = ask(&alloc, "review", SCRIPT, &spans, bytes.as_slice());
    let text = review.text.as_slice();
    assert!(rt;
        text.starts_with(b"refused 15 NotSan\nstudy 1 ") && text.ends_with(REVIEW.as_bytes())
    );
    assert!(rt;
        review.ended
            == Ending::Ran(Summary {
                lines: 16,
                refused: 1
            })
    );
    let request = "survey h1 white mate 1 k7/8/1K6/8/8/8/8/7R w - - 0 1";
    let survey = ask(&alloc, request, "", &spans, bytes.as_slice());
    assert!(rt; survey.text.as_slice() == SURVEY.as_bytes());
    assert!(rt; survey.ended == Ending::Answered);
    Ok(())
}

/// Refusals by name.
#[test]
fn refused_by_name(rt: HostRuntime) -> Result<(), Fail> {
    let alloc = rt.alloc();
    let cases = [
        ("", "UnknownCommand\n"),
        ("dance", "UnknownCommand\n"),
        ("run fast", "BadArguments\n"),
        ("view 0.x", "BadArguments\n"),
        ("view 0", "NoSuchNode\n"),
        ("make KQ", "NotAClass\n"),
        ("make KRK", "MissingTable KK\n"),
        ("passed 8/8", "FieldCount\n"),
        (
            "survey i1 white win 4k3/8/8/8/8/8/8/R3K3 w - -",
            "BadArguments\n",
        ),
        (
            "survey a1 white 4k3/8/8/8/8/8/8/R3K3 w - -",
            "UnknownStipulation\n",
        ),
        ("survey b1 white win 4k3/8/8/8/8/8/8/R3K3 w - -", "NoMan\n"),
        (
            "survey a1 white win 4k3/8/8/8/8/8/8/R3K3 w - -",
            "NoTable KRK\n",
        ),
        ("run\n", "BadByte\n"),
        ("find KQ zugzwang 0 9", "NotAClass\n"),
        ("find KRK mate 0 x", "NoSuchTheme\n"),
        ("find KRK draw 1 red 0 x", "NoSuchFilter\n"),
        ("find KRK zugzwang no-check 0 x", "NoKeyMove\n"),
        ("find KRK zugzwang 0 x", "BadArguments\n"),
        ("find KRK 9", "BadArguments\n"),
        ("find KRK zugzwang 0 9", "NoTable KRK\n"),
        ("find KRK draw 1 0 9", "NoTable KK\n"),
        ("row", "BadArguments\n"),
        ("row mate 4k3/8/8/8/8/8/8/R3K3 w - -", "BadArguments\n"),
        ("row win", "FieldCount\n"),
        ("row win 4k3/8/8/8/8/8/8/R3K3 w - -", "NoTable KRK\n"),
        ("import white", "UnknownStipulation\n"),
        ("import white win 5", "BadArguments\n"),
        ("import-up-to-faults white", "UnknownStipulation\n"),
        ("words all", "BadArguments\n"),
        ("remarks all", "BadArguments\n"),
    ];
    for (request, name) in cases {
        let text = refusal(&alloc, request, "", &[], &[])?;
        assert!(rt; text.as_slice() == name.as_bytes(), "{request}");
    }
    Ok(())
}

/// Spans that lie outside the bytes are not files; one that cuts a file short, or has another class's file, refuses only the requests that need the
/// file.
#[test]
fn files_that_are_none(rt: HostRuntime) -> Result<(), Fail> {
    let alloc = rt.alloc();
    let bytes = make_file(&alloc, Class::KK, &[], &[])?;
    let request = "survey a1 white draw k7/8/8/8/8/8/8/K7 w - -";
    let at = |class: Class, start: usize, length: usize| FileSpan {
        class: class as usize,
        start,
        length,
    };
    let outside = [at(Class::KK, 1, bytes.len())];
    let text = refusal(&alloc, request, "", &outside, bytes.as_slice())?;
    assert!(rt; text.as_slice() == b"NoTable KK\n".as_slice());
    let other = [at(Class::KRK, 0, bytes.len())];
    let rook = "survey a1 white win 4k3/8/8/8/8/8/8/R3K3 w - -";
    let text = refusal(&alloc, rook, "", &other, bytes.as_slice())?;
    assert!(rt; text.as_slice() == b"KRK OtherClass KK\n".as_slice());
    let text = refusal(&alloc, request, "", &other, bytes.as_slice())?;
    assert!(rt; text.as_slice() == b"NoTable KK\n".as_slice());
    let short = [at(Class::KK, 0, 63)];
    let text = refusal(&alloc, request, "", &short, bytes.as_slice())?;
    assert!(rt; text.as_slice() == b"KK TableRead Short\n".as_slice());
    let moved = [at(Class::KK, 1, bytes.len().saturating_sub(1))];
    let text = refusal(&alloc, request, "", &moved, bytes.as_slice())?;
    assert!(rt; text.as_slice() == b"KK NotATable\n".as_slice());
    Ok(())
}

const KINGS: &str =
    "position k7/8/8/8/8/8/8/K7 w - - 0 1\nstipulate white draw\ninsert root Ka2\npgn\n";

/// A file that no position of the script needs is not opened, though it is damaged.
#[test]
fn files_that_are_not_needed(rt: HostRuntime) -> Result<(), Fail> {
    let alloc = rt.alloc();
    let bytes = make_file(&alloc, Class::KK, &[], &[])?;
    let whole = FileSpan {
        class: Class::KK as usize,
        start: 0,
        length: bytes.len(),
    };
    let cut = FileSpan {
        class: Class::KRK as usize,
        start: 0,
        length: 63,
    };
    for request in ["view 0", "review", "report"] {
        let alone = ask(&alloc, request, KINGS, &[whole], bytes.as_slice());
        let beside = ask(&alloc, request, KINGS, &[cut, whole], bytes.as_slice());
        assert!(rt; alone.text.len() > 100, "{request}");
        assert!(rt; alone.text.as_slice() == beside.text.as_slice());
        assert!(rt; alone.ended == beside.ended);
    }
    Ok(())
}

/// Tries a request in heaps of growing size: it is refused or stopped for want of memory, until it is answered with this text.
fn answered_with_memory(
    alloc: Global,
    request: &str,
    script: &str,
    text: &[u8],
) -> Result<(), Fail> {
    let mut refused = 0u32;
    for step in 0..500usize {
        let heap = LocalHeap::new(alloc, 64 + step * 64)?;
        let saved = Vec::new(&heap);
        let files = TableFiles {
            spans: &[],
            bytes: &[],
            pages: Some(1),
        };
        let reply = answer(
            &heap,
            request.as_bytes(),
            script.as_bytes(),
            &files,
            saved.as_slice(),
        );
        if reply.ended == Ending::Answered {
            if reply.text.as_slice() != text || refused == 0 {
                return Err(Fail::from("another answer"));
            }
            return Ok(());
        }
        let named = reply.text.as_slice() == b"OutOfMemory\n".as_slice();
        let stopped = reply.ended == Ending::Stopped(RunFault::OutOfMemory);
        if !named && !(stopped && reply.text.is_empty()) {
            return Err(Fail::from("another fault"));
        }
        refused = refused.saturating_add(1);
    }
    Err(Fail::from("no heap was large enough"))
}

/// Requests with little memory.
#[test]
fn memory_for_an_answer(rt: HostRuntime) -> Result<(), Fail> {
    let alloc = rt.alloc();
    answered_with_memory(
        alloc,
        "view root",
        "square\n",
        b"refused 1 UnknownCommand\n",
    )?;
    answered_with_memory(
        alloc,
        "remarks",
        "#! games 3, studies 2\n",
        b"1\ttotal\t3\t2\n",
    )?;
    let words = ask(&alloc, "words", "", &[], &[]);
    answered_with_memory(alloc, "words", "", words.text.as_slice())
}

/// By an independent program: the one draw of king and rook with two only moves in a row and a king on c3, and its first image with
/// a king on f6.
const FOUND: &str = "6kR/8/5K2/8/8/8/8/8 b - - 0 1 draw Kxh8\nto 81920 of 81920\n";

/// Positions are found over the files that they need; other files are not opened.
#[test]
fn found_over_tables(rt: HostRuntime) -> Result<(), Fail> {
    let alloc = rt.alloc();
    let (bytes, two) = two_files(&alloc)?;
    let cut = FileSpan {
        class: Class::KQK as usize,
        start: 0,
        length: 63,
    };
    let spans = [cut, two[0], two[1]];
    let request = "find KRK draw 2 Kf6 0 999999999";
    let found = ask(&alloc, request, "", &spans, bytes.as_slice());
    assert!(rt; found.ended == Ending::Answered);
    assert!(rt; found.text.as_slice() == FOUND.as_bytes());
    let none = ask(
        &alloc,
        "find KK zugzwang 3 40",
        "",
        &spans,
        bytes.as_slice(),
    );
    assert!(rt; none.text.as_slice() == b"to 40 of 1280\n".as_slice());
    let longest = ask(
        &alloc,
        "find KK longest black 0 2000",
        "",
        &spans,
        bytes.as_slice(),
    );
    assert!(rt; longest.text.as_slice() == b"to 1280 of 1280\n".as_slice());
    Ok(())
}

/// The only moves in a row are counted over the files that the position needs; other files are not opened. The numbers are an independent program's:
/// that draw of king and rook, of which no position has three; a king that may go anywhere; and a win. The row is by hand: after other moves than Kg6 and
/// Kf7 the bare king has several.
#[test]
fn rows_over_tables(rt: HostRuntime) -> Result<(), Fail> {
    let alloc = rt.alloc();
    let (bytes, two) = two_files(&alloc)?;
    let cut = FileSpan {
        class: Class::KQK as usize,
        start: 0,
        length: 63,
    };
    let spans = [cut, two[0], two[1]];
    let cases = [
        ("row draw 6kR/8/5K2/8/8/8/8/8 b - - 0 1", "2 Kxh8 Kg6 Kg8\n"),
        ("row draw k7/8/8/8/8/8/8/K7 w - - 0 1", "0\n"),
        ("row draw k7/1R6/8/K7/8/8/8/8 w - - 0 1", "none\n"),
        ("row win k7/1R6/8/K7/8/8/8/8 w - - 0 1", "0\n"),
    ];
    for (request, text) in cases {
        let given = ask(&alloc, request, "", &spans, bytes.as_slice());
        assert!(rt; given.ended == Ending::Answered, "{request}");
        assert!(rt; given.text.as_slice() == text.as_bytes(), "{request}");
    }
    Ok(())
}

const GAME: &str = r#"[Event "e"]
[FEN "8/8/8/4k3/8/4K3/4P3/8 w - - 0 1"]
[Result "*"]

1. Kd3 *
"#;

/// By an independent program.
const BLOCK: &str = "position 8/8/8/4k3/8/4K3/4P3/8 w - - 0 1
stipulate white draw
tag Event e
tag Site ?
tag Date ????.??.??
tag Round ?
tag White ?
tag Black ?
insert root Kd3
pgn

#! games 1, studies 1
";

/// Games are imported from PGN; one that states no stipulation needs one from the request.
#[test]
fn games_come_in(rt: HostRuntime) -> Result<(), Fail> {
    let alloc = rt.alloc();
    let without = ask(&alloc, "import", GAME, &[], &[]);
    assert!(rt; without.ended == Ending::Answered);
    let want = b"#! game 1, line 1 (\"e\"): NoStipulation\n\n#! games 1, studies 0\n";
    assert!(rt; without.text.as_slice() == want.as_slice());
    let given = ask(&alloc, "import white draw", GAME, &[], &[]);
    assert!(rt; given.ended == Ending::Answered);
    assert!(rt; given.text.as_slice().ends_with(BLOCK.as_bytes()));
    Ok(())
}

const FAULTY: &str = r#"[Event "e"]
[FEN "8/8/8/4k3/8/4K3/4P3/8 w - - 0 1"]
[Result "*"]

1. Kd3 Kx9 *
"#;

/// A game with a fault among its moves is left out, or read up to there if the request says so.
#[test]
fn games_come_in_up_to_their_faults(rt: HostRuntime) -> Result<(), Fail> {
    let alloc = rt.alloc();
    let whole = ask(&alloc, "import white draw", FAULTY, &[], &[]);
    assert!(rt;
        whole
            .text
            .as_slice()
            .ends_with(b"\n#! games 1, studies 0\n")
    );
    let front = ask(&alloc, "import-up-to-faults white draw", FAULTY, &[], &[]);
    assert!(rt; front.ended == Ending::Answered);
    let fault = b"#! game 1, line 5, column 8 (\"e\"): not read: NotSan at Kx9\n";
    assert!(rt; front.text.as_slice().starts_with(fault.as_slice()));
    assert!(rt; front.text.as_slice().ends_with(BLOCK.as_bytes()));
    Ok(())
}

/// Lines as docs/IMPORT.md has them, and comments, two of them as version 1.7 wrote its remarks.
const REMARKS: &str = r#"#! game 1, line 1: stipulated by its comment
#! game 4, line 52, column 17 (Kasparyan, G.): NoSuchMove at Kb6
#! game 5, line 60 (A (B)): left out: 7 men
#! game 6, line 70, column 3: not read: 7. b6
#! game 7, line 80: stipulated by the option
#! the stipulation differs from its tag Result
#! the stipulation of its comment is not understood
#! not taken over: comments 9, NAGs 4
#! behind the result: line 14, column 715
#! White was: Troickij
#! read as Latin 1: White
#! letters: German
position 8/8
#! a tail: moves before 3; its position is another program's word
#! games 7, studies 2
# game 7, line 3: left out: 5 men
# White was: R
# a study
#! note Kg3: good
 # no remark
#! game 8, line 1: stipulated by hand
"#;

/// Each kind with its fields; a column and an author may be missing.
const ROWS: &str = "1\tstipulated\t1\t1\t\t\tcomment
2\tleft-out\t4\t52\t17\tKasparyan, G.\tNoSuchMove at Kb6
3\tleft-out\t5\t60\t\tA (B)\tleft out: 7 men
4\tnot-read\t6\t70\t3\t\t7. b6
5\tstipulated\t7\t80\t\t\toption
6\tdoubted\tresult-tag-differs
7\tdoubted\tcomment-unread
8\tnot-taken-over\tcomments 9, NAGs 4
9\tbehind-result\t14\t715
10\toriginal\tWhite\tTroickij
11\tlatin-1\tWhite
12\tletters\tGerman
14\ttail\t3
15\ttotal\t7\t2
16\tother\tgame 7, line 3: left out: 5 men
17\tother\tWhite was: R
18\tother\ta study
19\tother\tnote Kg3: good
21\tother\tgame 8, line 1: stipulated by hand
";

/// Remarks are taken apart, each at the number of its line.
#[test]
fn remarks_apart(rt: HostRuntime) -> Result<(), Fail> {
    let alloc = rt.alloc();
    let remarks = ask(&alloc, "remarks", REMARKS, &[], &[]);
    assert!(rt; remarks.ended == Ending::Answered);
    assert!(rt; remarks.text.as_slice() == ROWS.as_bytes());
    let none = ask(&alloc, "remarks", SCRIPT, &[], &[]);
    assert!(rt; none.ended == Ending::Answered && none.text.is_empty());
    Ok(())
}

/// Lines as the printed page and docs/SCRIPT.md have them.
const SAID: &str = "refused BadByte a letter outside plain ASCII
refused ShiftBroken a move of the tree is not legal from the new start
refused OutOfMemory no memory is left
left-out NullMove a null move in the main line
left-out TooNested more than 256 variations within one another
command position edit
command mark question
command verify table
word draw draw
word mates White mates in 1
word start At the start: draw.
word correct correct, no solution yet
word time sound, duals waste time
word unread not read: line 1
word wins wrong: White wins
word sooner wrong: White mates in 1
word misses does not win
word refuted refuted
word works works from here
word unread-sentence A line of this study could not be read, so there is no verdict.
word untitled Untitled
word tries Tries and their refutations
word list-heads No.\tTitle\tAuthor\tStipulation\tVerdict
word longer , 1 move longer
word answers 2 answers
word full full point\tBlack wins\tWhite wins
word half-black half a point\tBlack wins\tdraw
";

/// The words that a page needs without a reply.
#[test]
fn words_without_a_reply(rt: HostRuntime) -> Result<(), Fail> {
    let alloc = rt.alloc();
    let words = ask(&alloc, "words", "", &[], &[]);
    assert!(rt; words.ended == Ending::Answered);
    for line in SAID.lines() {
        assert!(rt; has(words.text.as_slice(), line), "{line}");
    }
    Ok(())
}
