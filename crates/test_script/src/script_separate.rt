//! Scripts of several studies: with `separate`, no line edits the study before its own.
use crate::rows::{Case, Rows, no_files};
use std::alloc::Global;
use std::process::Abort;
use std::test::Fail;
use study_material::Class;
use study_prober::WholeTables;
use study_report::{Lines, write_report};
use study_retro::{BuildRoom, build};
use study_script::{RunFault, Settings, Summary, Tables, run};
use study_table::TableSet;
use study_tablefile::MemorySource;
use study_text::{MemoryReader, MemoryWriter};
use study_values::cells;

/// Three studies, the second of which needs a table that is missing. After a refused `position` there is nothing to edit, by the rule.
const APART: Rows<'static> = "build KK -> built KK cells 1280 win -
position k7/8/8/8/8/8/8/K7 w - - 0 1 -> position k7/8/8/8/8/8/8/K7 w - - 0 1
stipulate white draw -> stipulate White to draw
tag Event First -> tag Event
insert root Ka2 -> insert 0 Ka2
position k7/8/8/8/8/8/8/KR6 w - - 0 1 -> error NoTable KRK
stipulate white win -> error NoPosition
tag Event Second -> error NoStudy
insert root Kb2 -> error NoStudy
fen root -> error NoPosition
delete 0 -> error NoStudy
pgn -> error NoStudy
verify KK -> verified KK yes
position 7k/8/8/8/8/8/8/7K w - - 0 1 -> position 7k/8/8/8/8/8/8/7K w - - 0 1
stipulate black draw -> stipulate Black to draw
fen root -> fen 7k/8/8/8/8/8/8/7K w - - 0 1
insert root Kg1 -> insert 0 Kg1";

/// The same if a refused line changes nothing: the lines of the second study edit the first.
const TOGETHER: Rows<'static> = "build KK -> built KK cells 1280 win -
position k7/8/8/8/8/8/8/K7 w - - 0 1 -> position k7/8/8/8/8/8/8/K7 w - - 0 1
stipulate white draw -> stipulate White to draw
tag Event First -> tag Event
insert root Ka2 -> insert 0 Ka2
position k7/8/8/8/8/8/8/KR6 w - - 0 1 -> error NoTable KRK
stipulate white win -> stipulate White to win
tag Event Second -> tag Event
insert root Kb2 -> insert 1 Kb2
fen root -> fen k7/8/8/8/8/8/8/K7 w - - 0 1
delete 0 -> delete 0
verify KK -> verified KK yes
position 7k/8/8/8/8/8/8/7K w - - 0 1 -> position 7k/8/8/8/8/8/8/7K w - - 0 1
stipulate black draw -> stipulate Black to draw
fen root -> fen 7k/8/8/8/8/8/8/7K w - - 0 1
insert root Kg1 -> insert 0 Kg1";

/// Each refusal of such a line counts, also one of its form; no other line does, and neither does a comment.
const REFUSED: Rows<'static> =
    "position k7/8/8/8/8/8/8/K7 w - - 0 1 -> position k7/8/8/8/8/8/8/K7 w - - 0 1
positions x -> error UnknownCommand
fen 0 position -> error BadArguments
stipulate position -> error UnknownStipulation
# position ->
shift x -> error NoStudy
fen root -> fen k7/8/8/8/8/8/8/K7 w - - 0 1
position -> error BadArguments
fen root -> error NoPosition
position k7/8/8/8/8/8/8/K7 w - - 0 1 -> position k7/8/8/8/8/8/8/K7 w - - 0 1
position\tx -> error BadByte
fen root -> fen k7/8/8/8/8/8/8/K7 w - - 0 1
  position x\t -> error BadByte
fen root -> error NoPosition
position k7/8/8/8/8/8/8/K7 w - - 0 1 -> position k7/8/8/8/8/8/8/K7 w - - 0 1
position x -> error FieldCount
stipulate white win -> error NoPosition";

/// Runs the lines, and compares the replies.
fn check(rt: &impl Abort, alloc: &Global, separate: bool, rows: Rows<'_>) {
    let mut case = Case::new(alloc);
    case.add_rows(rt, rows);
    let mut writer = MemoryWriter::new(alloc);
    let answer = run(
        alloc,
        &mut MemoryReader::new(case.script.as_slice()),
        &mut writer,
        &mut no_files(alloc),
        Settings {
            pages: None,
            separate,
        },
    );
    let text = std::str::from_utf8(writer.taken.as_slice()).unwrap_or("no text");
    let wanted = std::str::from_utf8(case.replies.as_slice()).unwrap_or("no text");
    assert_eq!(rt; text, wanted);
    assert!(rt; case.is_had(text.as_bytes(), answer));
}

#[test]
fn no_line_edits_the_study_before_it(rt: HostRuntime) {
    check(&rt, &rt.alloc(), true, APART);
}

#[test]
fn a_refused_line_changes_nothing(rt: HostRuntime) {
    check(&rt, &rt.alloc(), false, TOGETHER);
}

#[test]
fn each_refused_position_leaves_nothing(rt: HostRuntime) {
    check(&rt, &rt.alloc(), true, REFUSED);
}

/// The lines of `APART` without those of tables, with a `pgn` line after each study, and with a game that was left out before the last one,
/// which was read only up to a fault.
const REPORTED: &[u8] = b"position k7/8/8/8/8/8/8/K7 w - - 0 1
stipulate white draw
tag Event First
insert root Ka2
pgn
position k7/8/8/8/8/8/8/KR6 w - - 0 1
stipulate white win
tag Event Second
insert root Kb2
pgn
#! game 3, line 31: left out: 7 men
#! game 4, line 40: not read: NotSan at Kx
position 7k/8/8/8/8/8/8/7K w - - 0 1
stipulate black draw
tag Event Third
pgn
";

/// The line of each study, refusal and fault of a game in a report: two studies, and not the first once more for the second. The game that was left out is the
/// second entry.
const ENTRIES: &str = "study 1 k7/8/8/8/8/8/8/K7 w - - 0 1
refused 6 NoTable KRK
refused 7 NoPosition
refused 8 NoStudy
refused 9 NoStudy
refused 10 NoStudy
unread game 4, line 40: not read: NotSan at Kx
study 3 7k/8/8/8/8/8/8/7K w - - 0 1
";

/// A report without the facts of the studies.
fn entries_of(rt: &impl Abort, alloc: Global, text: &[u8]) -> Vec<u8> {
    let mut entries = Vec::new(alloc);
    let text = std::str::from_utf8(text).unwrap_or("no text");
    for line in text.lines() {
        if line.starts_with("study ")
            || line.starts_with("refused ")
            || line.starts_with("unread ")
        {
            assert!(rt; entries.extend_from_slice(line.as_bytes()).is_ok());
            assert!(rt; entries.push(b'\n').is_ok());
        }
    }
    entries
}

/// The text and the result of a report over the table of two kings.
fn report<'a>(
    rt: &impl Abort,
    alloc: &'a Global,
) -> (Vec<u8, &'a Global>, Result<Summary, RunFault>) {
    let class = Class::parse("KK").ok().expect(rt, "a class");
    let mut set = TableSet::new(alloc).ok().expect(rt, "a set");
    let room = BuildRoom::new(alloc, cells(class)).ok().expect(rt, "room");
    let (table, _) = build(class, &set, room).ok().expect(rt, "a table");
    assert!(rt; set.add(table).is_ok());
    let tables: Tables<'_, MemorySource<'_>, Global> = Tables::Whole(WholeTables::new(set));
    let mut writer = MemoryWriter::new(alloc);
    let answer = write_report(
        alloc,
        &mut MemoryReader::new(REPORTED),
        &mut writer,
        &mut Lines,
        tables,
    );
    (writer.taken, answer)
}

#[test]
fn a_report_has_no_study_under_another_name(rt: HostRuntime) -> Result<(), Fail> {
    let alloc = rt.alloc();
    let (text, answer) = report(&rt, &alloc);
    let entries = entries_of(&rt, alloc, text.as_slice());
    assert!(rt; entries.as_slice() == ENTRIES.as_bytes());
    let wanted = Summary {
        lines: 16,
        refused: 5,
    };
    assert_eq!(rt; answer, Ok(wanted));
    Ok(())
}
