//! Remarks of studyimport on printed pages.
use crate::kings::two_kings;
use std::alloc::Global;
use std::io::Read;
use std::process::Abort;
use std::test::Fail;
use study_print::{Unwatched, write_pages};
use study_script::{RunFault, Summary};
use study_text::{MemoryReader, MemoryWriter, WhenFull};

/// Each remark that is shown, comments that are not, among them originals that stand in the head of a page, and a refused line.
const SCRIPT: &str = "#! game 1, line 1: stipulated by its tag Result
#! not taken over: comments 2
#! behind the result: line 9, column 4
#! White was: Réti, Richard
#! Event was: Etude
#! Black was: <b> & \"Ж\"
#! the stipulation differs from its tag Result
#! comment: 1... Kf5: la défense <b>
#!comment: 1... Kf6: none
 #! Site was: Prague
#! Whites was: R
# Black was: lost long before, says my friend
# game 7, line 3: I like this one
delete 7

#! game 2, line 31: left out: 7 men

#! game 3, line 52, column 17: NoSuchMove at Kb6

#! game 4, line 60: StipulationUnread at its comment

#! game 5, line 71: TagTwice at White

#! game plan: none
#! games 4, studies 0
";

/// The text between the opening and the closing.
const REMARKS: &str =
    "<p class=\"note\">not taken over: comments 2</p><p class=\"note\">behind the result: line 9, column 4</p>\
<p class=\"note\">Black was: &lt;b&gt; &amp; &quot;Ж&quot;</p>\
<p class=\"note\">the stipulation differs from its tag Result</p>\
<p class=\"note\">comment: 1... Kf5: la défense &lt;b&gt;</p>\
<p class=\"warn\">Line 14 was refused: <code>delete 7</code> <b>NoStudy</b>: no stipulation yet</p>\
<p class=\"warn\">No page for entry 1: game 2, line 31: left out: 7 men</p>\
<p class=\"warn\">No page for entry 2: game 3, line 52, column 17: NoSuchMove at Kb6: no legal move of this position</p>\
<p class=\"warn\">No page for entry 3: game 4, line 60: StipulationUnread at its comment: a stipulation that is not understood</p>\
<p class=\"warn\">No page for entry 4: game 5, line 71: TagTwice at White: a second tag of this name, so perhaps two games that run together</p>\
<article class=\"sum\"><header><h1>Entries and verdicts</h1></header><table><thead><tr><th>No.</th><th>Title</th><th>Author</th>\
<th>Stipulation</th><th>Verdict</th></tr></thead><tbody>\
<tr><td>1</td><td>game 2, line 31</td><td></td><td></td><td>left out: 7 men</td></tr>\
<tr><td>2</td><td>game 3, line 52, column 17</td><td></td><td></td><td>NoSuchMove at Kb6: no legal move of this position</td></tr>\
<tr><td>3</td><td>game 4, line 60</td><td></td><td></td><td>StipulationUnread at its comment: a stipulation that is not understood</td></tr>\
<tr><td>4</td><td>game 5, line 71</td><td></td><td></td><td>TagTwice at White: a second tag of this name, so perhaps two games that run together</td></tr>\
</tbody></table></article></body></html>\n";

/// A script of version 1.7.
pub const OLD: &[u8] = b"# game 1, line 1: stipulated by its tag Result
# Black was: R\xc3\xa9ti
#! Black was: Pog
 # Site was: Prague
#Date was: 1921
## Round was: 1
#
pgn # Event was: x
# game 2, line 31: left out: 7 men
# games 2, studies 0";

/// The same as studyimport writes it today.
pub const NEW: &[u8] = b"#! game 1, line 1: stipulated by its tag Result
#! Black was: R\xc3\xa9ti
#! Black was: Pog
 # Site was: Prague
#Date was: 1921
## Round was: 1
#
pgn # Event was: x
#! game 2, line 31: left out: 7 men
#! games 2, studies 0";

/// The pages of a script that are written to this writer, and the result.
pub fn pages_of<'a, R: Read>(
    rt: &impl Abort,
    alloc: &'a Global,
    script: &mut R,
    mut writer: MemoryWriter<'a, Global>,
) -> (Vec<u8, &'a Global>, Result<Summary, RunFault>) {
    let answer = write_pages(alloc, script, &mut writer, Unwatched, two_kings(rt, alloc));
    (writer.taken, answer)
}

/// The same of the text of a script.
pub fn pages_to<'a>(
    rt: &impl Abort,
    alloc: &'a Global,
    script: &[u8],
    writer: MemoryWriter<'a, Global>,
) -> (Vec<u8, &'a Global>, Result<Summary, RunFault>) {
    pages_of(rt, alloc, &mut MemoryReader::new(script), writer)
}

#[test]
fn remarks_are_printed(rt: HostRuntime) -> Result<(), Fail> {
    let alloc = rt.alloc();
    let writer = MemoryWriter::new(&alloc);
    let (text, answer) = pages_to(&rt, &alloc, SCRIPT.as_bytes(), writer);
    let text = std::str::from_utf8(text.as_slice()).unwrap_or("no text");
    let (_, pages) = text.split_once("</defs></svg>\n").unwrap_or(("", ""));
    assert!(rt; pages == REMARKS);
    let wanted = Summary {
        lines: 25,
        refused: 1,
    };
    assert_eq!(rt; answer, Ok(wanted));
    Ok(())
}

/// An original that is not UTF-8 is Latin 1, and a byte that is no letter is shown by its number.
#[test]
fn an_original_may_be_latin_1(rt: HostRuntime) -> Result<(), Fail> {
    let alloc = rt.alloc();
    let writer = MemoryWriter::new(&alloc);
    let (text, _) = pages_to(&rt, &alloc, b"#! Black was: R\xE9ti \x80\xFF\n", writer);
    let text = std::str::from_utf8(text.as_slice()).unwrap_or("no text");
    let (_, pages) = text.split_once("</defs></svg>\n").unwrap_or(("", ""));
    assert!(rt; pages == "<p class=\"note\">Black was: Réti \\x80ÿ</p></body></html>\n");
    Ok(())
}

/// A writer that is full in a remark has a prefix of the file.
#[test]
fn a_full_writer_has_the_front_of_the_pages(rt: HostRuntime) -> Result<(), Fail> {
    let alloc = rt.alloc();
    let (whole, _) = pages_to(&rt, &alloc, SCRIPT.as_bytes(), MemoryWriter::new(&alloc));
    for left in [REMARKS.len() - 30, 700, 100, 1] {
        let room = whole.len().saturating_sub(left);
        let writer = MemoryWriter::with_room(&alloc, room, WhenFull::Fail);
        let (text, answer) = pages_to(&rt, &alloc, SCRIPT.as_bytes(), writer);
        assert!(rt; answer == Err(RunFault::WriteDevice));
        assert!(rt; text.len() == room);
        assert!(rt; whole.as_slice().starts_with(text.as_slice()));
    }
    Ok(())
}
