//! The numbers of entries, where a game was left out, and the verdict on a game that was read only up to a fault.
use crate::list::list_to;
use crate::remarks::pages_to;
use crate::sheet::sheet_to;
use std::test::Fail;
use study_text::MemoryWriter;

/// Three games, of which the second was left out. Each study has the one legal move of its position.
const LEFT_OUT: &str = "#! game 1, line 1: stipulated by its comment
position 8/8/8/8/8/8/2k5/K7 w - - 0 1
stipulate white draw
insert root Ka2
pgn

#! game 2, line 14, column 12 (Kling, J.): NoSuchMove at Kb6

#! game 3, line 25: stipulated by its comment
position 8/8/8/8/8/8/2k5/K7 w - - 0 7
stipulate white draw
insert root Ka2
pgn
#! games 3, studies 2
";

const ROWS: &str =
    "<tbody><tr><td>1</td><td><a href=\"#e1\">Untitled</a></td><td></td><td>White to draw</td><td>sound</td></tr>\
<tr><td>2</td><td>game 2, line 14, column 12 (Kling, J.)</td><td></td><td></td><td>NoSuchMove at Kb6: no legal move of this position</td></tr>\
<tr><td>3</td><td><a href=\"#e3\">Untitled</a></td><td></td><td>White to draw</td><td>sound</td></tr></tbody>";

const RECORDS: &str = "Number,Title,Author,FEN,Stipulation,Verdict,Worst dual\r
1,,,8/8/8/8/8/8/2k5/K7 w - - 0 1,White to draw,sound,\r
2,\"game 2, line 14, column 12 (Kling, J.)\",,,,\"NoSuchMove at Kb6\",\r
3,,,8/8/8/8/8/8/2k5/K7 w - - 0 7,White to draw,sound,\r
";

/// A game, one that was read only up to a fault, whose block has a remark more, and one more. Of a fifth such game the position is refused, so that it has
/// no study, and the remark is of no other.
const NOT_READ: &str = "position 8/8/8/8/8/8/2k5/K7 w - - 0 1
stipulate white draw
insert root Ka2
pgn

#! game 2, line 14, column 12 (Kling, J.): not read: NoSuchMove at <Kb6>
#! White was: Kling
position 8/8/8/8/8/8/2k5/K7 w - - 0 3
stipulate white draw
insert root Ka2
pgn
pgn

position 8/8/8/8/8/8/2k5/K7 w - - 0 5
stipulate white draw
insert root Ka2
pgn

#! game 4, line 60: not read: NotSan at Kx
position 8/8/8/8/8/8/2k5/K8 w - - 0 7
pgn

position 8/8/8/8/8/8/2k5/K7 w - - 0 9
stipulate white draw
insert root Ka2
pgn
";

const NOT_READ_RECORDS: &str = "Number,Title,Author,FEN,Stipulation,Verdict,Worst dual\r
1,,,8/8/8/8/8/8/2k5/K7 w - - 0 1,White to draw,sound,\r
2,,,8/8/8/8/8/8/2k5/K7 w - - 0 3,White to draw,not read: line 6,\r
3,,,8/8/8/8/8/8/2k5/K7 w - - 0 3,White to draw,not read: line 6,\r
4,,,8/8/8/8/8/8/2k5/K7 w - - 0 5,White to draw,sound,\r
,line 20: position 8/8/8/8/8/8/2k5/K8 w - - 0 7,,,,refused: Placement,\r
,line 21: pgn,,,,refused: NoStudy,\r
5,,,8/8/8/8/8/8/2k5/K7 w - - 0 9,White to draw,sound,\r
";

#[test]
fn a_game_that_was_left_out_has_a_number(rt: HostRuntime) -> Result<(), Fail> {
    let alloc = rt.alloc();
    let (text, _) = pages_to(&rt, &alloc, LEFT_OUT.as_bytes(), MemoryWriter::new(&alloc));
    let pages = std::str::from_utf8(text.as_slice()).unwrap_or("no text");
    assert!(rt; pages.contains("<article id=\"e1\">"));
    assert!(rt; !pages.contains("id=\"e2\""));
    assert!(rt;
        pages.contains(
            "<p class=\"warn\">No page for entry 2: game 2, line 14, column 12 (Kling, J.): NoSuchMove at Kb6: no legal"
        )
    );
    assert!(rt; pages.contains("<article id=\"e3\">"));
    assert!(rt; pages.contains(ROWS));
    let (text, _) = list_to(&rt, &alloc, LEFT_OUT, MemoryWriter::new(&alloc));
    assert!(rt; text.as_slice() == RECORDS.as_bytes());
    let (text, _) = sheet_to(&rt, &alloc, LEFT_OUT, MemoryWriter::new(&alloc));
    let sheet = std::str::from_utf8(text.as_slice()).unwrap_or("no text");
    assert!(rt; sheet.contains("<b>1. White to draw</b>"));
    assert!(rt; !sheet.contains("<b>2. "));
    assert!(rt; sheet.contains("<b>3. White to draw</b>"));
    Ok(())
}

#[test]
fn a_game_that_is_read_up_to_a_fault_has_no_verdict(rt: HostRuntime) -> Result<(), Fail> {
    let alloc = rt.alloc();
    let (text, _) = list_to(&rt, &alloc, NOT_READ, MemoryWriter::new(&alloc));
    assert!(rt; std::str::from_utf8(text.as_slice()).unwrap_or("no text") == NOT_READ_RECORDS);
    let (text, _) = pages_to(&rt, &alloc, NOT_READ.as_bytes(), MemoryWriter::new(&alloc));
    let pages = std::str::from_utf8(text.as_slice()).unwrap_or("no text");
    let (_, behind) = pages.split_once("<article id=\"e1\">").unwrap_or(("", ""));
    let (_, behind) = behind.split_once("</article>").unwrap_or(("", ""));
    assert!(rt;
        behind.starts_with(
            "<p class=\"warn\">The game is read only up to here: game 2, line 14, column 12 (Kling, J.): \
NoSuchMove at &lt;Kb6&gt;: no legal move of this position</p><article id=\"e2\">"
        )
    );
    let (page, _) = behind.split_once("</article>").unwrap_or(("", ""));
    assert!(rt; page.contains("<span class=\"stamp unsound\">not read: line 6</span>"));
    assert!(rt; !page.contains(">sound"));
    Ok(())
}
