//! Tests over the files of a real folder, each with a folder of its own: tables that one run saves and another loads, whole and by pages, files that
//! are not the table's, and folders that do not exist.
ghost use Rattle.std.specs.Prelude.{◌≤◌, IfSome};

use crate::rows::replies_of;
use std::alloc::Global;
use std::io::{ErrorKind, Read, Seek, SeekFrom};
use std::test::Fail;
use std::{fs, io};
use study_program::{FilePages, FolderStore};
use study_tablefile::PageSource;
use study_values::SourceFault;

/// A rook mates in one: the commands, and their replies if the table can be read, if it is not loaded, and if it is read by pages and the requested
/// page is missing.
const STUDY: &str = "position k7/8/1K6/8/8/8/8/7R w - - 0 1\nstipulate white win\nmark root\n";

const MARKED: &str =
    "position k7/8/1K6/8/8/8/8/7R w - - 0 1\nstipulate White to win\nmark root win 1 - faults 0\n";

const NOT_HELD: &str = "position k7/8/1K6/8/8/8/8/7R w - - 0 1\nerror NoTable KRK\nerror NoStudy\n";

const SHORT: &str =
    "position k7/8/1K6/8/8/8/8/7R w - - 0 1\nerror TableRead Short\nerror NoStudy\n";

const LOADED: &str = "loaded KRK cells 81920\n";

/// Two kings: the commands, and their replies if the table can be read, if its page is missing, and if it is not loaded.
const KINGS: &str = "position k7/8/8/8/8/8/8/K7 w - - 0 1\nstipulate white draw\nmark root\n";

const KINGS_MARKED: &str =
    "position k7/8/8/8/8/8/8/K7 w - - 0 1\nstipulate White to draw\nmark root draw - faults 0\n";

const KINGS_SHORT: &str =
    "position k7/8/8/8/8/8/8/K7 w - - 0 1\nerror TableRead Short\nerror NoStudy\n";

const KINGS_NOT_HELD: &str =
    "position k7/8/8/8/8/8/8/K7 w - - 0 1\nerror NoTable KK\nerror NoStudy\n";

const KINGS_LOADED: &str = "loaded KK cells 1280\n";

/// The parts, one after the other.
fn join(alloc: Global, parts: &[&str]) -> Result<String, Fail> {
    let mut text = String::new(alloc);
    for part in parts {
        text.push_str(part)?;
    }
    Ok(text)
}

/// Compares the replies to a script over the files of a folder, both in parts.
fn check(
    rt: &HostRuntime,
    folder: &str,
    pages: Option<u16>,
    script: &[&str],
    replies: &[&str],
) -> Result<(), Fail>
    requires { IfSome pages (λ n. (1 ≤ n) × (n ≤ 4096)) }
{
    let alloc = rt.alloc();
    let lines = join(alloc, script)?;
    let wanted = join(alloc, replies)?;
    let mut store = FolderStore::new(rt, &alloc, folder)?;
    let (taken, _answer) = replies_of(&alloc, &mut store, pages, lines.as_bytes());
    if taken.as_slice() == wanted.as_bytes() {
        Ok(())
    } else {
        Err(Fail::new(format_args!("{folder}: not {wanted}")))
    }
}

/// Makes a folder with files that a run saves, in place of one left by a failed test.
fn save(rt: &HostRuntime, folder: &str, script: &str, replies: &str) -> Result<(), Fail> {
    let _absent = fs::remove_dir_all(rt, folder);
    fs::create_dir(rt, folder)?;
    check(rt, folder, None, &[script], &[replies])
}

/// A folder with the file of two kings.
fn save_kings(rt: &HostRuntime, folder: &str) -> Result<(), Fail> {
    save(
        rt,
        folder,
        "build KK\nsave KK\n",
        "built KK cells 1280 win -\nsaved KK bytes 4192\n",
    )
}

/// A run that loads what others saved, with whole tables.
fn check_whole(rt: &HostRuntime) -> Result<(), Fail> {
    check(
        rt,
        "saved",
        None,
        &[
            "load KRK\nload KK\nload KRK\nverify KRK\nverify KK\n",
            STUDY,
            "load KQK\n",
        ],
        &[
            "error MissingTable KK\nloaded KK cells 1280\n",
            LOADED,
            "verified KRK yes\nverified KK yes\n",
            MARKED,
            "error NoFile\n",
        ],
    )
}

/// A run that loads what others saved, by pages.
fn check_by_pages(rt: &HostRuntime) -> Result<(), Fail> {
    check(
        rt,
        "saved",
        Some(1),
        &[
            "build KK\nload KRK\nverify KRK\nsave KRK\nload KQK\n",
            STUDY,
        ],
        &[
            "error PagedMode\n",
            LOADED,
            "error PagedMode\nerror PagedMode\nerror NoFile\n",
            MARKED,
        ],
    )
}

/// One run saves files, and others load them, whole and by pages.
#[test]
fn what_one_run_saves_others_load(rt: HostRuntime) -> Result<(), Fail> {
    save_kings(&rt, "saved")?;
    check(
        &rt,
        "saved",
        None,
        &["load KK\nbuild KRK\nsave KRK\n"],
        &[
            KINGS_LOADED,
            "built KRK cells 81920 win 31\nsaved KRK bytes 82624\n",
        ],
    )?;
    check_whole(&rt)?;
    check_by_pages(&rt)?;
    check_cut(&rt, 82_623, MARKED)?;
    check_cut(&rt, 64 + 4128 * 5 + 9, SHORT)?;
    Ok(fs::remove_dir_all(&rt, "saved")?)
}

/// The file of KRK is cut after so many bytes: the replies of a study by pages.
fn check_cut(rt: &HostRuntime, len: usize, study: &str) -> Result<(), Fail> {
    let mut text = fs::read(rt, "saved/KRK.dtm")?;
    text.truncate(len);
    fs::write(rt, "saved/KRK.dtm", text.as_slice())?;
    check(
        rt,
        "saved",
        Some(1),
        &["load KRK\n", STUDY],
        &[LOADED, study],
    )
}

/// The file ends too early, or too late: the reply to `load`, whole and by pages, and the replies of a study then.
#[test]
fn a_file_of_another_length_is_reported(rt: HostRuntime) -> Result<(), Fail> {
    save_kings(&rt, "cut")?;
    let mut text = fs::read(&rt, "cut/KK.dtm")?;
    text.push(b'x')?;
    let rows = [
        (4193, "error TrailingBytes\n", [KINGS_LOADED, KINGS_MARKED]),
        (4191, "error Cut\n", [KINGS_LOADED, KINGS_SHORT]),
        (64 + 9, "error Cut\n", [KINGS_LOADED, KINGS_SHORT]),
        (
            63,
            "error Cut\n",
            ["error TableRead Short\n", KINGS_NOT_HELD],
        ),
        (
            0,
            "error Cut\n",
            ["error TableRead Short\n", KINGS_NOT_HELD],
        ),
    ];
    for (len, whole, paged) in rows {
        text.truncate(len);
        fs::write(&rt, "cut/KK.dtm", text.as_slice())?;
        check(&rt, "cut", None, &["load KK\n"], &[whole])?;
        check(&rt, "cut", Some(1), &["load KK\n", KINGS], &paged)?;
    }
    Ok(fs::remove_dir_all(&rt, "cut")?)
}

/// The reply to `load` for KRK, whole and by pages; the reply for a study of that class is `NoTable` then.
fn check_load(rt: &HostRuntime, whole: &str, paged: &str) -> Result<(), Fail> {
    check(
        rt,
        "none",
        None,
        &["load KK\nload KRK\n"],
        &[KINGS_LOADED, whole],
    )?;
    check(
        rt,
        "none",
        Some(1),
        &["load KRK\n", STUDY],
        &[paged, NOT_HELD],
    )
}

/// Another class, a folder, or nothing is in the file's place.
#[test]
fn a_file_that_is_not_there_is_reported(rt: HostRuntime) -> Result<(), Fail> {
    save_kings(&rt, "none")?;
    check_load(&rt, "error NoFile\n", "error NoFile\n")?;
    fs::copy(&rt, "none/KK.dtm", "none/KRK.dtm")?;
    check_load(&rt, "error OtherClass KK\n", "error OtherClass KK\n")?;
    fs::remove_file(&rt, "none/KRK.dtm")?;
    fs::create_dir(&rt, "none/KRK.dtm")?;
    check_load(&rt, "error Device\n", "error TableRead Device\n")?;
    Ok(fs::remove_dir_all(&rt, "none")?)
}

/// The folder does not exist, or is a file: nothing is loaded or saved, and the session continues.
#[test]
fn a_folder_that_is_not_there_is_reported(rt: HostRuntime) -> Result<(), Fail> {
    let script = ["load KK\nbuild KK\nsave KK\nverify KK\n"];
    let rest = "built KK cells 1280 win -\nerror Device\nverified KK yes\n";
    check(&rt, "absent", None, &script, &["error NoFile\n", rest])?;
    check(&rt, "absent", Some(1), &["load KK\n"], &["error NoFile\n"])?;
    fs::write(&rt, "plain", b"")?;
    check(&rt, "plain", None, &script, &["error Device\n", rest])?;
    check(&rt, "plain", Some(1), &["load KK\n"], &["error Device\n"])?;
    Ok(fs::remove_file(&rt, "plain")?)
}

/// A file whose first read is interrupted, and which then delivers bytes one at a time.
#[derive(Drop)]
struct InterruptedOnce {
    reads: u64,
}

impl Read for InterruptedOnce {
    fn read(&mut self, buf: &mut [u8]) -> io::Result<usize> {
        self.reads = self.reads.saturating_add(1);
        if self.reads == 1 {
            return Err(io::Error::from(ErrorKind::Interrupted));
        }
        if buf.is_empty() {
            return Ok(0);
        }
        buf[0] = 7;
        Ok(1)
    }
}

impl Seek for InterruptedOnce {
    fn seek(&mut self, _to: SeekFrom) -> io::Result<u64> {
        Ok(0)
    }
}

/// Each error of a read ends the request for a page; the next request reads again.
#[test]
fn an_interrupted_read_is_reported_and_made_again(rt: HostRuntime) {
    let mut pages = FilePages {
        file: InterruptedOnce { reads: 0 },
        asked: 0,
        failures: 0,
    };
    let mut page = [0u8; 4128];
    assert_eq!(rt; pages.page(0, &mut page), Err(SourceFault::Device));
    assert_eq!(rt; pages.failures(), 1);
    assert_eq!(rt; pages.page(0, &mut page), Ok(()));
    assert!(rt; page.iter().all(|byte| *byte == 7));
    assert_eq!(rt; pages.failures(), 1);
}
