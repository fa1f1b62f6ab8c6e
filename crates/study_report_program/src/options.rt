//! The command line.
ghost use Rattle.std.specs.Prelude.{◌≤◌, ◌<◌, length};

use clap::builder::ValueParser;
use clap::{Arg, ArgAction, Command, Error, value_parser};
use std::alloc::Global;
use study_console::VERSION;
use study_program::folder_of;

const ABOUT: &str =
    "Prints the studies of a script, from standard input to standard output, as HTML: each line 'pgn' that is accepted adds the study's page.";

const LINES: &str =
    "The script is that of studybench. Its lines 'build', 'load', 'save' and 'verify' are passed over: each table whose file is in
the folder is opened before the first line. A line that is refused is reported where it stands.

Exit status: 0 no line was refused; 1 some line was; 2 the command line was; 3 the run stopped at a fault.";

/// The form of the report.
#[derive(Clone, Copy, Debug, PartialEq, Eq)]
pub enum Form {
    /// As printed pages, in HTML.
    Pages,
    /// As lines of plain text, a fact a line.
    Lines,
    /// As a sheet of diagrams, twelve a page, in HTML.
    Sheet,
    /// As comma-separated values, a study a record.
    List,
}

/// The options of the command line.
#[derive(Clone, Copy, Debug)]
pub struct Options<'a> {
    /// The folder of the table files; never empty, since an empty name would mean the root folder.
    pub tables: &'a str,
    /// The number of pages kept in memory: 1 to 4,096.
    pub pages: u16,
    /// The form of the report.
    pub form: Form,
    /// Whether the number of entries is written to standard error, after every ten.
    pub progress: bool,
    /// Whether the script is one of version 1.7, whose remarks of an import begin with `#` alone.
    pub old_remarks: bool,
    ghost named: { 0 < length tables.now },
    ghost some: { 1 ≤ pages },
    ghost few: { pages ≤ 4096 },
}

/// Reads the words of the command line, the first of which is the program's name. `--help` and `--version` are reported as errors whose exit code is
/// 0.
///
/// No contract: clap has none on the words that it takes. The type proves that the folder has a name, and the range of pages; tests check the rest.
#[inline(never)]
pub fn read_words<'a>(alloc: Global, words: &'a [String]) -> Result<Options<'a>, Error> {
    let command = command(alloc)?;
    let matches = command.try_get_matches_from(words)?;
    let tables = folder_of(matches.get_str("tables"));
    let pages = pages_of(matches.get_one::<u16>("pages"));
    let form = form_of(
        matches.get_flag("lines"),
        matches.get_flag("sheet"),
        matches.get_flag("list"),
    );
    let progress = matches.get_flag("progress");
    let old_remarks = matches.get_flag("old-remarks");
    Ok(Options {
        tables,
        pages,
        form,
        progress,
        old_remarks,
    })
}

fn command<'a>(alloc: Global) -> Result<Command<'a>, Error> {
    let command = Command::new(alloc, "studyreport")
        .version(VERSION)
        .about(ABOUT)
        .after_help(LINES)
        .arg(tables_option(alloc))?
        .arg(pages_option(alloc))?;
    let command = with_forms(alloc, command)?;
    let progress = flag(
        alloc,
        "progress",
        "Writes to standard error, after every ten entries, how many there are; nothing for the other forms",
    );
    let old_remarks = flag(
        alloc,
        "old-remarks",
        "Reads the remarks of a script that studyimport 1.7 wrote, which begin with '#' and not with '#!'",
    );
    let command = command.arg(progress)?.arg(old_remarks)?;
    Ok(command)
}

fn tables_option<'a>(alloc: Global) -> Arg<'a> {
    Arg::new(alloc, "tables")
        .long("tables")
        .value_name("DIR")
        .action(ArgAction::Set)
        .value_parser(ValueParser::NonEmptyString)
        .help("The folder of the files of tables, as KQK.dtm [default: .]")
}

fn pages_option<'a>(alloc: Global) -> Arg<'a> {
    Arg::new(alloc, "pages")
        .long("pages")
        .value_name("N")
        .action(ArgAction::Set)
        .value_parser(value_parser!(u16).range(1..=4096))
        .help("Keeps N pages of 4,096 cells, 1 to 4096 [default: 1024]")
}

/// The command with the forms of a report, of which it takes one.
fn with_forms<'a>(alloc: Global, command: Command<'a>) -> Result<Command<'a>, Error> {
    let lines = flag(
        alloc,
        "lines",
        "Writes facts as lines of plain text, a fact a line, and not as pages",
    );
    let sheet = flag(
        alloc,
        "sheet",
        "Writes a sheet of diagrams, twelve a page, each with its number, stipulation and key",
    );
    let list = flag(
        alloc,
        "list",
        "Writes comma-separated values: number, title, author, FEN, stipulation and verdict of each study",
    );
    let command = command
        .arg(lines)?
        .arg(sheet.conflicts_with("lines")?)?
        .arg(list.conflicts_with("lines")?.conflicts_with("sheet")?)?;
    Ok(command)
}

fn flag<'a>(alloc: Global, name: &'a str, help: &'a str) -> Arg<'a> {
    Arg::new(alloc, name)
        .long(name)
        .action(ArgAction::SetTrue)
        .help(help)
}

/// The number of pages, if it is in range, else 1,024.
fn pages_of(given: Option<u16>) -> u16
    ensures some { 1 ≤ result }
    ensures few { result ≤ 4096 }
{
    match given {
        Some(n) if 1 <= n && n <= 4096 => n,
        _ => 1024,
    }
}

/// The form that the options name; clap refuses two at once.
fn form_of(lines: bool, sheet: bool, list: bool) -> Form {
    match (lines, sheet, list) {
        (true, _, _) => Form::Lines,
        (_, true, _) => Form::Sheet,
        (_, _, true) => Form::List,
        _ => Form::Pages,
    }
}
