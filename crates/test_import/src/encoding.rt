//! Files in a code page of Windows. The characters of each page are those of Python's codecs cp1250, cp1251 and cp1252 (`bytes.decode`, with U+FFFD for
//! a byte that the page leaves undefined). The expected scripts were written by hand.

use std::io::Read;
use std::test::Fail;
use study_import::Choice;
use study_import_program::{CodePage, Options, PageReader, import_stream, read_words};
use study_text::{MemoryReader, MemoryWriter};

/// The characters of the bytes from 80 to FF.
const CENTRAL_EUROPEAN: &str =
    "€\u{fffd}‚\u{fffd}„…†‡\u{fffd}‰Š‹ŚŤŽŹ\u{fffd}‘’“”•–—\u{fffd}™š›śťžź\u{a0}ˇ˘Ł¤Ą¦§¨©Ş«¬\u{ad}®Ż°±˛ł´µ¶·¸ąş»Ľ˝ľż\
      ŔÁÂĂÄĹĆÇČÉĘËĚÍÎĎĐŃŇÓÔŐÖ×ŘŮÚŰÜÝŢßŕáâăäĺćçčéęëěíîďđńňóôőö÷řůúűüýţ˙";

const CYRILLIC: &str =
    "ЂЃ‚ѓ„…†‡€‰Љ‹ЊЌЋЏђ‘’“”•–—\u{fffd}™љ›њќћџ\u{a0}ЎўЈ¤Ґ¦§Ё©Є«¬\u{ad}®Ї°±Ііґµ¶·ё№є»јЅѕї\
      АБВГДЕЖЗИЙКЛМНОПРСТУФХЦЧШЩЪЫЬЭЮЯабвгдежзийклмнопрстуфхцчшщъыьэюя";

const WEST_EUROPEAN: &str =
    "€\u{fffd}‚ƒ„…†‡ˆ‰Š‹Œ\u{fffd}Ž\u{fffd}\u{fffd}‘’“”•–—˜™š›œ\u{fffd}žŸ\u{a0}¡¢£¤¥¦§¨©ª«¬\u{ad}®¯°±²³´µ¶·¸¹º»¼½¾¿\
      ÀÁÂÃÄÅÆÇÈÉÊËÌÍÎÏÐÑÒÓÔÕÖ×ØÙÚÛÜÝÞßàáâãäåæçèéêëìíîïðñòóôõö÷øùúûüýþÿ";

/// An author in Russian letters, one in Czech letters, and a game as a word processor sets it, with an ellipsis and an en dash.
const RUSSIAN: &[u8] = b"[White \"\xd2\xf0\xee\xe8\xf6\xea\xe8\xe9\"]
[FEN \"8/8/8/4k3/8/4K3/4P3/8 w - - 0 1\"]
[Result \"1-0\"]

1. Kd3 1-0
";

const CZECH: &[u8] = b"[White \"Nov\xe1k, Ji\xf8\xed\"]
[FEN \"8/8/8/4k3/8/4K3/4P3/8 w - - 0 1\"]
[Result \"1-0\"]

1. Kd3 1-0
";

const TYPESET: &[u8] = b"[White \"R\xe9ti\"]
[FEN \"8/8/8/4k3/8/4K3/4P3/8 w - - 0 1\"]

1. Kd3 1\x85Kf5 1\x960
";

const FRONT: &[u8] = b"position 8/8/8/4k3/8/4K3/4P3/8 w - - 0 1
stipulate white win
tag Event ?
tag Site ?
tag Date ????.??.??
tag Round ?
";

const BACK: &[u8] = b"tag Black ?
insert root Kd3
pgn

#! games 1, studies 1
";

const LONGER_BACK: &[u8] = b"tag Black ?
insert root Kd3
insert 0 Kf5
pgn

#! games 1, studies 1
";

/// The file of all bytes from 80 on, in UTF-8.
fn decode(rt: &HostRuntime, page: CodePage) -> Result<Vec<u8>, Fail> {
    let mut bytes = Vec::new(rt.alloc());
    for byte in 128..=255u8 {
        bytes.push(byte)?;
    }
    let mut text = Vec::new(rt.alloc());
    let mut reader = PageReader::new(MemoryReader::new(bytes.as_slice()), page);
    reader.read_to_end(&mut text)?;
    Ok(text)
}

/// Each byte of a page is the character that Python's codec says.
#[test]
fn each_byte_is_its_character(rt: HostRuntime) -> Result<(), Fail> {
    assert!(rt; decode(&rt, CodePage::CentralEuropean)?.as_slice() == CENTRAL_EUROPEAN.as_bytes());
    assert!(rt; decode(&rt, CodePage::Cyrillic)?.as_slice() == CYRILLIC.as_bytes());
    assert!(rt; decode(&rt, CodePage::WestEuropean)?.as_slice() == WEST_EUROPEAN.as_bytes());
    Ok(())
}

/// Compares the script of a file in a page.
fn check(rt: &HostRuntime, page: CodePage, file: &[u8], wanted: &[&[u8]]) -> Result<(), Fail> {
    let alloc = rt.alloc();
    let options = Options {
        choice: Choice {
            given: None,
            from: 1,
            to: u32::MAX,
            tails: false,
            up_to_faults: false,
        },
        encoding: Some(page),
        progress: false,
    };
    let mut script = Vec::new(rt.alloc());
    for part in wanted {
        script.extend_from_slice(part)?;
    }
    let mut games = MemoryReader::new(file);
    let mut out = MemoryWriter::new(&alloc);
    let mut errors = MemoryWriter::new(&alloc);
    let status = import_stream(&alloc, &options, &mut games, &mut out, &mut errors);
    if status == 0 && out.taken.as_slice() == script.as_slice() {
        Ok(())
    } else {
        Err(Fail::new(format_args!("status {status}")))
    }
}

/// Names keep their own letters, and the signs of a word processor are read.
#[test]
fn files_of_a_page_are_read(rt: HostRuntime) -> Result<(), Fail> {
    let by_tag = b"#! game 1, line 1: stipulated by its tag Result\n#! White was: ".as_slice();
    let by_result = b"#! game 1, line 1: stipulated by its result\n#! White was: ".as_slice();
    let russian = "Троицкий\n".as_bytes();
    let czech = "Novák, Jiří\n".as_bytes();
    let hungarian = "Réti\n".as_bytes();
    check(
        &rt,
        CodePage::Cyrillic,
        RUSSIAN,
        &[by_tag, russian, FRONT, b"tag White Troickij\n", BACK],
    )?;
    check(
        &rt,
        CodePage::CentralEuropean,
        CZECH,
        &[by_tag, czech, FRONT, b"tag White Novak, Jiri\n", BACK],
    )?;
    check(
        &rt,
        CodePage::WestEuropean,
        TYPESET,
        &[
            by_result,
            hungarian,
            FRONT,
            b"tag White Reti\n",
            LONGER_BACK,
        ],
    )
}

/// The code page that these words name, if they are read.
fn page_in(rt: &HostRuntime, given: &[&str]) -> Result<Option<Option<CodePage>>, Fail> {
    let mut words = Vec::new(rt.alloc());
    words.push(String::from_str(rt.alloc(), "studyimport")?)?;
    for word in given {
        words.push(String::from_str(rt.alloc(), word)?)?;
    }
    match read_words(rt.alloc(), words.as_slice()) {
        Ok(options) => Ok(encoding_of(options)),
        Err(_error) => Ok(None),
    }
}

fn encoding_of(options: Option<Options>) -> Option<Option<CodePage>> {
    match options {
        Some(options) => Some(options.encoding),
        None => None,
    }
}

/// The command line names a page by its number, or none.
#[test]
fn words_name_a_page(rt: HostRuntime) -> Result<(), Fail> {
    assert!(rt; page_in(&rt, &["--encoding", "1250"])? == Some(Some(CodePage::CentralEuropean)));
    assert!(rt; page_in(&rt, &["--encoding", "1251"])? == Some(Some(CodePage::Cyrillic)));
    assert!(rt; page_in(&rt, &["--encoding=1252"])? == Some(Some(CodePage::WestEuropean)));
    assert!(rt; page_in(&rt, &["--encoding", "1253"])? == None);
    assert!(rt; page_in(&rt, &["--tails"])? == Some(None));
    Ok(())
}
