//! Names in their own letters, once: in the head of a page, in its row, in the caption of a place and in the record of a list.
use crate::list::list_to;
use crate::remarks::pages_to;
use crate::sheet::sheet_to;
use std::test::Fail;
use study_text::MemoryWriter;

/// A study with the original of each tag; the same with another author; and one without a remark, whose tags stay but for the author, who has the same plain
/// letters.
const SCRIPT: &str = "#! game 1, line 1: stipulated by its comment
#! Event was: Рижская газета
#! Site was: São Paulo & <b>
#! Date was: 1921 г.
#! Round was: № 4
#! White was: Троицкий, А.
#! Black was: Вильнев
position 8/8/8/8/8/8/2k5/K7 w - - 0 1
stipulate white draw
tag Event Rizhskaya gazeta
tag Site Sao Paulo & <b>
tag Date 1921 g.
tag Round ? 4
tag White Troickij, A.
tag Black Vilnev
insert root Ka2
pgn
tag White Korolkov
pgn
position 8/8/8/8/8/8/2k5/K7 w - - 0 1
stipulate white draw
tag White Troickij, A.
insert root Ka2
pgn
";

/// The three heads, the paragraph before the first page, and the list.
const FRONT: &str =
    "<p class=\"note\">Black was: Вильнев</p><article id=\"e1\"><p class=\"note\">No. 1</p><header><h1>Рижская газета</h1>\
<p class=\"by\">Троицкий, А. &#183; São Paulo &amp; &lt;b&gt; &#183; 1921 г. &#183; entry № 4</p></header>";

const EDITED: &str = "<article id=\"e2\"><p class=\"note\">No. 2</p><header><h1>Рижская газета</h1>\
<p class=\"by\">Korolkov &#183; São Paulo &amp; &lt;b&gt; &#183; 1921 г. &#183; entry № 4</p></header>";

const PLAIN: &str =
    "<article id=\"e3\"><p class=\"note\">No. 3</p><header><h1>Rizhskaya gazeta</h1>\
<p class=\"by\">Troickij, A. &#183; Sao Paulo &amp; &lt;b&gt; &#183; 1921 g. &#183; entry ? 4</p></header>";

const ROWS: &str =
    "<tbody><tr><td>1</td><td><a href=\"#e1\">Рижская газета</a></td><td>Троицкий, А.</td><td>White to draw</td>\
<td>sound</td></tr><tr><td>2</td><td><a href=\"#e2\">Рижская газета</a></td><td>Korolkov</td><td>White to draw</td>\
<td>sound</td></tr><tr><td>3</td><td><a href=\"#e3\">Rizhskaya gazeta</a></td><td>Troickij, A.</td><td>White to draw</td>\
<td>sound</td></tr></tbody>";

const RECORDS: &str = "Number,Title,Author,FEN,Stipulation,Verdict,Worst dual\r
1,Рижская газета,\"Троицкий, А.\",8/8/8/8/8/8/2k5/K7 w - - 0 1,White to draw,sound,\r
2,Рижская газета,Korolkov,8/8/8/8/8/8/2k5/K7 w - - 0 1,White to draw,sound,\r
3,Rizhskaya gazeta,\"Troickij, A.\",8/8/8/8/8/8/2k5/K7 w - - 0 1,White to draw,sound,\r
";

#[test]
fn pages_have_names_in_their_own_letters_once(rt: HostRuntime) -> Result<(), Fail> {
    let alloc = rt.alloc();
    let (text, _) = pages_to(&rt, &alloc, SCRIPT.as_bytes(), MemoryWriter::new(&alloc));
    let text = std::str::from_utf8(text.as_slice()).unwrap_or("no text");
    let (_, pages) = text.split_once("</defs></svg>\n").unwrap_or(("", ""));
    assert!(rt; pages.starts_with(FRONT));
    assert!(rt; pages.contains(EDITED));
    assert!(rt; pages.contains(PLAIN));
    assert!(rt; pages.contains(ROWS));
    assert!(rt; !pages.contains("White was"));
    Ok(())
}

#[test]
fn a_list_has_names_in_their_own_letters(rt: HostRuntime) -> Result<(), Fail> {
    let alloc = rt.alloc();
    let (text, _) = list_to(&rt, &alloc, SCRIPT, MemoryWriter::new(&alloc));
    assert!(rt; std::str::from_utf8(text.as_slice()).unwrap_or("no text") == RECORDS);
    Ok(())
}

#[test]
fn a_sheet_has_names_in_their_own_letters(rt: HostRuntime) -> Result<(), Fail> {
    let alloc = rt.alloc();
    let (text, _) = sheet_to(&rt, &alloc, SCRIPT, MemoryWriter::new(&alloc));
    let sheet = std::str::from_utf8(text.as_slice()).unwrap_or("no text");
    assert!(rt; sheet.contains("<b>1. White to draw</b><br>Троицкий, А.<br>1. Ka2</figcaption>"));
    assert!(rt; sheet.contains("<b>2. White to draw</b><br>Korolkov<br>1. Ka2</figcaption>"));
    assert!(rt; sheet.contains("<b>3. White to draw</b><br>Troickij, A.<br>1. Ka2</figcaption>"));
    Ok(())
}

/// The author on each place of the sheet of a script, one behind the other.
const TAILS: &str = "#! game 1, line 1: stipulated by its comment
#! White was: Réti
#! tail 1 of 2 of game 1, node 0, after 1... Kc2
position 8/8/8/8/8/8/2k5/K7 w - - 0 2
stipulate white draw
tag White Reti
pgn
#! tail 2 of 2 of game 1, node 1, after 1... Kc3
position 8/8/8/8/8/2k5/8/K7 w - - 0 2
stipulate white draw
tag White Reti
pgn
#! tail 1 of 1 of game 2, node 0, after 1... Kc4
position 8/8/8/8/2k5/8/8/K7 w - - 0 2
stipulate white draw
tag White Reti
pgn
#! White was: 王
#! White was: 楊
position 8/8/8/2k5/8/8/8/K7 w - - 0 2
stipulate white draw
tag White ?
pgn
#! White was: Müller
position 8/8/2k5/8/8/8/8/K8 w - - 0 2
pgn
position 8/8/2k5/8/8/8/8/K7 w - - 0 2
stipulate white draw
tag White Muller
pgn
";

/// A later tail has the name of the tail before, and another game's does not; of two remarks on a tag the later one counts; a letter without a plain one is
/// known all the same; and the remark above a refused position is of no study.
#[test]
fn a_name_is_of_its_own_study(rt: HostRuntime) -> Result<(), Fail> {
    let alloc = rt.alloc();
    let (text, _) = list_to(&rt, &alloc, TAILS, MemoryWriter::new(&alloc));
    let list = std::str::from_utf8(text.as_slice()).unwrap_or("no text");
    for (number, author) in [
        (1, "Réti"),
        (2, "Réti"),
        (3, "Reti"),
        (4, "楊"),
        (5, "Muller"),
    ] {
        let record = format!(in alloc; "\n{number},,{author},8/")?;
        assert!(rt; list.contains(record.as_str()), "{record}");
    }
    Ok(())
}

/// An original that is not UTF-8 is Latin 1, also in the head.
#[test]
fn a_name_may_be_latin_1(rt: HostRuntime) -> Result<(), Fail> {
    let alloc = rt.alloc();
    let script =
        b"#! White was: Proke\xDF, \xC9mile\nposition 8/8/8/8/8/8/2k5/K7 w - - 0 1\nstipulate white draw\ntag White Prokess, Emile\npgn\n";
    let (text, _) = pages_to(&rt, &alloc, script, MemoryWriter::new(&alloc));
    let pages = std::str::from_utf8(text.as_slice()).unwrap_or("no text");
    assert!(rt; pages.contains("<p class=\"by\">Prokeß, Émile</p>"));
    Ok(())
}
