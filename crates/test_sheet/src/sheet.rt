//! Sheets over the table of two kings.
use crate::kings::two_kings;
use std::alloc::Global;
use std::process::Abort;
use std::test::Fail;
use study_script::{RunFault, Summary};
use study_sheet::write_sheet;
use study_text::{MemoryReader, MemoryWriter, WhenFull};

/// Two studies, of which the second begins with a move of Black and has no author; one in which Black moves first and White is the hero, before White's
/// first move is given and after it; a refused line, and remarks of studyimport, which are not shown.
const SCRIPT: &str = "position k7/8/8/8/8/8/8/K7 w - - 0 1
stipulate white draw
tag White R & D
insert root Ka2
insert root Kb2
insert 0 Kb8
pgn
delete 7
position k7/8/8/8/8/8/8/K7 b - - 0 5
stipulate black draw
tag White ?
insert root Kb8
pgn
position k7/8/8/8/8/8/8/K7 b - - 0 1
#! White was: R
stipulate white draw
insert root Kb8
pgn
insert 0 Kb2
insert 0.0 Ka7
pgn
#! game 3, line 31: left out: 7 men
";

/// The text between the opening and the closing.
const PLACES: &str =
    "<figure><svg class=\"board\" role=\"img\" viewBox=\"-14 -3 377 380\"><title>White Ka1; Black Ka8; White to move</title>\
<use href=\"#board\"/><use href=\"#coordinates\"/><use class=\"w\" href=\"#mK\" x=\"0\" y=\"315\" width=\"45\" height=\"45\"/>\
<use class=\"b\" href=\"#mK\" x=\"0\" y=\"0\" width=\"45\" height=\"45\"/></svg>\
<figcaption><b>1. White to draw</b><br>R &amp; D<br>1. Ka2</figcaption></figure>\
<p class=\"warn\">Line 8 was refused: <code>delete 7</code> <b>NoSuchNode</b>: no move stands at this place of the tree</p>\
<figure><svg class=\"board\" role=\"img\" viewBox=\"-14 -3 377 380\"><title>White Ka1; Black Ka8; Black to move</title>\
<use href=\"#board\"/><use href=\"#coordinates\"/><use class=\"w\" href=\"#mK\" x=\"0\" y=\"315\" width=\"45\" height=\"45\"/>\
<use class=\"b\" href=\"#mK\" x=\"0\" y=\"0\" width=\"45\" height=\"45\"/></svg>\
<figcaption><b>2. Black to draw</b>, Black to move<br>5... Kb8</figcaption></figure>\
<figure><svg class=\"board\" role=\"img\" viewBox=\"-14 -3 377 380\"><title>White Ka1; Black Ka8; Black to move</title>\
<use href=\"#board\"/><use href=\"#coordinates\"/><use class=\"w\" href=\"#mK\" x=\"0\" y=\"315\" width=\"45\" height=\"45\"/>\
<use class=\"b\" href=\"#mK\" x=\"0\" y=\"0\" width=\"45\" height=\"45\"/></svg>\
<figcaption><b>3. White to draw</b>, Black to move<br></figcaption></figure>\
<figure><svg class=\"board\" role=\"img\" viewBox=\"-14 -3 377 380\"><title>White Ka1; Black Ka8; Black to move</title>\
<use href=\"#board\"/><use href=\"#coordinates\"/><use class=\"w\" href=\"#mK\" x=\"0\" y=\"315\" width=\"45\" height=\"45\"/>\
<use class=\"b\" href=\"#mK\" x=\"0\" y=\"0\" width=\"45\" height=\"45\"/></svg>\
<figcaption><b>4. White to draw</b>, Black to move<br>2. Kb2</figcaption></figure></body></html>\n";

/// The text that the sheet of a script over the table of two kings writes to this writer, and the result.
pub fn sheet_to<'a>(
    rt: &impl Abort,
    alloc: &'a Global,
    script: &str,
    mut writer: MemoryWriter<'a, Global>,
) -> (Vec<u8, &'a Global>, Result<Summary, RunFault>) {
    let answer = write_sheet(
        alloc,
        &mut MemoryReader::new(script.as_bytes()),
        &mut writer,
        two_kings(rt, alloc),
    );
    (writer.taken, answer)
}

#[test]
fn each_study_has_its_place(rt: HostRuntime) -> Result<(), Fail> {
    let alloc = rt.alloc();
    let (text, answer) = sheet_to(&rt, &alloc, SCRIPT, MemoryWriter::new(&alloc));
    let text = std::str::from_utf8(text.as_slice()).unwrap_or("no text");
    let (head, places) = text.split_once("</defs></svg>\n").unwrap_or(("", ""));
    assert!(rt; head.contains("<!DOCTYPE html>"));
    assert!(rt; head.contains("body>figure{display:inline-block;"));
    assert!(rt; places == PLACES);
    let wanted = Summary {
        lines: 22,
        refused: 1,
    };
    assert_eq!(rt; answer, Ok(wanted));
    Ok(())
}

/// A writer that is full in the opening, in a place, and one byte before the end has a prefix of the sheet.
#[test]
fn a_full_writer_has_the_front_of_the_sheet(rt: HostRuntime) -> Result<(), Fail> {
    let alloc = rt.alloc();
    let (whole, _) = sheet_to(&rt, &alloc, SCRIPT, MemoryWriter::new(&alloc));
    for left in [whole.len().saturating_sub(3), 700, 1] {
        let room = whole.len().saturating_sub(left);
        let writer = MemoryWriter::with_room(&alloc, room, WhenFull::Fail);
        let (text, answer) = sheet_to(&rt, &alloc, SCRIPT, writer);
        assert!(rt; answer == Err(RunFault::WriteDevice));
        assert!(rt; text.len() == room);
        assert!(rt; whole.as_slice().starts_with(text.as_slice()));
    }
    Ok(())
}
