//! The list of entries at the end of printed pages.
use crate::remarks::pages_to;
use std::process::Abort;
use std::test::Fail;
use study_script::Summary;
use study_text::MemoryWriter;

/// A game that was left out, a study, and another such game, whose remark has markup in it; other comments and a refused line are no entries, and use no
/// number.
const SCRIPT: &[u8] = b"#! game 1, line 1 (Kasparyan, G.): left out: 7 men

#! game 2, line 9: stipulated by its comment
#! White was: Kasparyan
position k7/8/8/8/8/8/8/K7 w - - 0 1
stipulate white draw
tag Event R & D
pgn
delete 7

#! game 3, line 52, column 17: NoSuchMove at <Kb6>
";

const LIST: &str =
    "<article class=\"sum\"><header><h1>Entries and verdicts</h1></header><table><thead><tr><th>No.</th><th>Title</th><th>Author</th>\
<th>Stipulation</th><th>Verdict</th></tr></thead><tbody>\
<tr><td>1</td><td>game 1, line 1 (Kasparyan, G.)</td><td></td><td></td><td>left out: 7 men</td></tr>\
<tr><td>2</td><td><a href=\"#e2\">R &amp; D</a></td><td></td><td>White to draw</td><td>correct, no solution yet</td></tr>\
<tr><td>3</td><td>game 3, line 52, column 17</td><td></td><td></td><td>NoSuchMove at &lt;Kb6&gt;: no legal move of this position</td></tr>\
</tbody></table></article></body></html>\n";

#[test]
fn each_game_has_its_row(rt: HostRuntime) -> Result<(), Fail> {
    let alloc = rt.alloc();
    let (text, answer) = pages_to(&rt, &alloc, SCRIPT, MemoryWriter::new(&alloc));
    assert!(rt; text.ends_with(LIST.as_bytes()));
    let wanted = Summary {
        lines: 11,
        refused: 1,
    };
    assert_eq!(rt; answer, Ok(wanted));
    Ok(())
}

/// One entry needs no list, be it a study or a game that was left out.
#[test]
fn one_entry_has_no_list(rt: HostRuntime) -> Result<(), Fail> {
    let alloc = rt.alloc();
    let script = b"#! game 1, line 1: left out: 7 men\n";
    let (text, _) = pages_to(&rt, &alloc, script, MemoryWriter::new(&alloc));
    let end =
        b"<p class=\"warn\">No page for entry 1: game 1, line 1: left out: 7 men</p></body></html>\n";
    assert!(rt; text.ends_with(end));
    Ok(())
}
