//! Lists over the table of two kings.
use crate::kings::two_kings;
use std::alloc::Global;
use std::process::Abort;
use std::test::Fail;
use study_list::write_list;
use study_script::{RunFault, Summary};
use study_text::{MemoryReader, MemoryWriter, WhenFull};

/// A study without a move, of which a field needs quotation marks, a refused question, a study whose stipulation does not hold, and remarks of studyimport.
const SCRIPT: &str = "position k7/8/8/8/8/8/8/K7 w - - 0 1
stipulate white draw
tag Event He said \"mate\", twice
tag White R & D
pgn
mark 7, please
position k7/8/8/8/8/8/8/K7 b - - 0 5
stipulate white win
tag Event ?
tag White ?
pgn

#! game 3, line 31 (Kasparyan, G.): left out: 7 men

#! game 4, line 52, column 17: NoSuchMove at \"Kb6\"

#! game 5, line 60: stipulated by its comment
#! White was: \"R\"
";

const LIST: &str = "Number,Title,Author,FEN,Stipulation,Verdict,Worst dual\r
1,\"He said \"\"mate\"\", twice\",R & D,k7/8/8/8/8/8/8/K7 w - - 0 1,White to draw,\"correct, no solution yet\",\r
,\"line 6: mark 7, please\",,,,refused: BadArguments,\r
2,,,k7/8/8/8/8/8/8/K7 b - - 0 5,White to win,does not win,\r
3,\"game 3, line 31 (Kasparyan, G.)\",,,,\"left out: 7 men\",\r
4,\"game 4, line 52, column 17\",,,,\"NoSuchMove at \"\"Kb6\"\"\",\r
";

/// Studies of which a question, a move, a tag, a line of a table and an unknown command are refused, and one whose tag is refused before its position.
const NOT_READ: &str = "position k7/8/8/8/8/8/8/K7 w - - 0 1
stipulate white draw
mark 5
pgn
insert root Kb5
tag Foo x
pgn
position k7/8/8/8/8/8/8/K7 b - - 0 5
load XYZ
pgn
insrt root Kb8
pgn
tag Foo y
position k7/8/8/8/8/8/8/K7 w - - 0 1
pgn
";

const NOT_READ_LIST: &str = "Number,Title,Author,FEN,Stipulation,Verdict,Worst dual\r
,line 3: mark 5,,,,refused: NoSuchNode,\r
1,,,k7/8/8/8/8/8/8/K7 w - - 0 1,White to draw,\"correct, no solution yet\",\r
,line 5: insert root Kb5,,,,refused: NoSuchMove,\r
,line 6: tag Foo x,,,,refused: UnknownTag,\r
2,,,k7/8/8/8/8/8/8/K7 w - - 0 1,White to draw,not read: line 5,\r
,line 9: load XYZ,,,,refused: NotAClass,\r
3,,,k7/8/8/8/8/8/8/K7 b - - 0 5,White to draw,\"correct, no solution yet\",\r
,line 11: insrt root Kb8,,,,refused: UnknownCommand,\r
4,,,k7/8/8/8/8/8/8/K7 b - - 0 5,White to draw,not read: line 11,\r
,line 13: tag Foo y,,,,refused: UnknownTag,\r
5,,,k7/8/8/8/8/8/8/K7 w - - 0 1,White to draw,not read: line 13,\r
";

/// The list of a script that is written to this writer, and the result.
pub fn list_to<'a>(
    rt: &impl Abort,
    alloc: &'a Global,
    script: &str,
    mut writer: MemoryWriter<'a, Global>,
) -> (Vec<u8, &'a Global>, Result<Summary, RunFault>) {
    let answer = write_list(
        alloc,
        &mut MemoryReader::new(script.as_bytes()),
        &mut writer,
        two_kings(rt, alloc),
    );
    (writer.taken, answer)
}

#[test]
fn each_study_has_its_record(rt: HostRuntime) -> Result<(), Fail> {
    let alloc = rt.alloc();
    let (text, answer) = list_to(&rt, &alloc, SCRIPT, MemoryWriter::new(&alloc));
    assert!(rt; std::str::from_utf8(text.as_slice()).unwrap_or("no text") == LIST);
    let wanted = Summary {
        lines: 18,
        refused: 1,
    };
    assert_eq!(rt; answer, Ok(wanted));
    Ok(())
}

/// A study has no verdict if a line of it was refused, behind its `position` or behind the `pgn` of the study before: questions and lines of tables are
/// none of it.
#[test]
fn a_study_that_is_not_read_has_no_verdict(rt: HostRuntime) -> Result<(), Fail> {
    let alloc = rt.alloc();
    let (text, _) = list_to(&rt, &alloc, NOT_READ, MemoryWriter::new(&alloc));
    assert!(rt; std::str::from_utf8(text.as_slice()).unwrap_or("no text") == NOT_READ_LIST);
    Ok(())
}

/// A writer that is full in the head, in a record, and one byte before the end has a prefix of the list.
#[test]
fn a_full_writer_has_the_front_of_the_list(rt: HostRuntime) -> Result<(), Fail> {
    let alloc = rt.alloc();
    for room in [3, 60, LIST.len() - 1] {
        let writer = MemoryWriter::with_room(&alloc, room, WhenFull::Fail);
        let (text, answer) = list_to(&rt, &alloc, SCRIPT, writer);
        assert!(rt; answer == Err(RunFault::WriteDevice));
        assert!(rt; text.len() == room);
        assert!(rt; LIST.as_bytes().starts_with(text.as_slice()));
    }
    Ok(())
}
